//! Which guards a transaction keeps a shadow for.
//!
//! The rules stand in docs/RULES.md, what is proved in docs/PROMISES.md.
#![tactic(auto)]

ghost use Rattle.std.specs.Prelude.{◌≡◌, ◌≤◌, length, insert, take};
ghost use Rattle.arrayvec.specs.ArrayVec.{array_vec_len};
ghost use Rattle.forest_model.specs.Choose.{put_in_order};
ghost use Rattle.forest_model.specs.Point.{is_sooner as is_sooner_of, wanted_of};

use arrayvec::ArrayVec;

/// Of the pairs of guard and point, which the transaction numbers and positions are, the first `k - 1` by point and then
/// by guard; `k` is from 1 to 8. What is left out is what blocks latest. `forest_model::wanting` says that they are the first
/// in that order.
pub fn wanted(points: &[(u32, u32)], k: u32) -> ArrayVec<(u32, u32), 7>
    requires least { 1 ≤ k }
    requires most { k ≤ 8 }
    ensures { result.items ≡ wanted_of points.now k }
{
    let room = (k - 1) as usize;
    let mut first = ArrayVec::new();
    for pair in points {
        keep_first(&mut first, room, *pair);
    }
    first
}

// Puts the pair at its place, and drops what is then past the room.
fn keep_first(first: &mut ArrayVec<(u32, u32), 7>, room: usize, pair: (u32, u32))
    requires limit { room ≤ 7 }
    requires fits { array_vec_len first.old ≤ room }
    ensures items { first.new.items ≡ take room (put_in_order is_sooner_of pair first.old.items) }
    ensures fits { array_vec_len first.new ≤ room }
{
    let place = place_of(first.as_slice(), pair);
    if place < room {
        if first.len() == room {
            let _ = first.pop();
        }
        first.insert(place, pair);
    }
}

// The place at which the pair keeps the order.
fn place_of(pairs: &[(u32, u32)], pair: (u32, u32)) -> usize
    ensures within { result ≤ length pairs.now }
    ensures place { insert pairs.now result pair ≡ put_in_order is_sooner_of pair pairs.now }
{
    for (i, other) in pairs.iter().enumerate() {
        if !is_sooner(*other, pair) {
            return i;
        }
    }
    pairs.len()
}

fn is_sooner(a: (u32, u32), b: (u32, u32)) -> bool
    ensures { result ≡ is_sooner_of a b }
{
    a.1 < b.1 || (a.1 == b.1 && a.0 < b.0)
}
