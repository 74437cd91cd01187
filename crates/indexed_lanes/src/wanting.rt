// The shadows that a transaction wants by the points of an index.
ghost use Rattle.std.specs.Prelude.{◌≡◌, ◌≢◌, ◌<◌, ◌≤◌, suc, [], Some, length, slice_get, filter_map};
ghost use Rattle.forest_model.specs.Point.{point as point_of};
ghost use Rattle.txn_interp.specs.State.{Carries};
ghost use Rattle.shadow_state.specs.Bank.{at_place};
ghost use Rattle.shadow_lanes.specs.Seats.{Seat, AreSeats};
ghost use Rattle.indexed_lanes.specs.Noted.{IsNoted};
ghost use Rattle.indexed_lanes.specs.Wanted.{point_with, conflict_between, wanted_among, same_conflicts, renewed, IsKept};

use crate::placed::PlacedIndex;
use arrayvec::ArrayVec;
use replacement::wanted;
use shadow_lanes::Lanes;
use txn_code::Code;

/// The guards and points against which the transaction at a place wants a shadow, now or, where it is about to read an item, after
/// that read.
pub fn wanted_at(
    lanes: &Lanes,
    index: &PlacedIndex,
    place: u32,
    next: Option<u32>,
) -> ArrayVec<(u32, u32), 7>
    requires place { place < length lanes.now.seats }
    requires noted { IsNoted lanes.now index.now }
    ensures wanted { (r : Seat) → slice_get lanes.now.seats place ≡ Some r → result.items ≡ wanted_among lanes.now.most next lanes.now.seats r }
    ensures few { suc (length result.items) ≤ lanes.now.most }
{
    let mut points = ArrayVec::new();
    note_points(lanes, index, place, next, &mut points);
    wanted(points.as_slice(), lanes.most())
}

// Lays the points of the transaction at a place against all others into a list, which is empty before. A list that was answered would be
// copied, and is long.
fn note_points(
    lanes: &Lanes,
    index: &PlacedIndex,
    place: u32,
    next: Option<u32>,
    points: &mut ArrayVec<(u32, u32), 64>,
)
    requires place { place < length lanes.now.seats }
    requires noted { IsNoted lanes.now index.now }
    requires empty { points.old.items ≡ [] }
    ensures limits { AreSeats lanes.now }
    ensures points { (r : Seat) → slice_get lanes.now.seats place ≡ Some r → points.new.items ≡ filter_map (conflict_between next r) lanes.now.seats }
{
    let number = lanes.number(place);
    for other in 0..lanes.len() {
        match conflict(lanes, index, other, number, place, next) {
            None => {}
            Some(pair) => points.push(pair),
        }
    }
}

// The conflict of the transaction at a place, which has this number, with the one at another.
fn conflict(
    lanes: &Lanes,
    index: &PlacedIndex,
    other: u32,
    number: u32,
    place: u32,
    next: Option<u32>,
) -> Option<(u32, u32)>
    requires other { other < length lanes.now.seats }
    requires place { place < length lanes.now.seats }
    requires noted { IsNoted lanes.now index.now }
    requires number { (r : Seat) → slice_get lanes.now.seats place ≡ Some r → r.number ≡ number }
    ensures { (r u : Seat) → slice_get lanes.now.seats place ≡ Some r → slice_get lanes.now.seats other ≡ Some u → result ≡ conflict_between next r u }
{
    let guard = lanes.number(other);
    if guard == number {
        return None;
    }
    match point_before(lanes, index, place, other, next) {
        None => None,
        Some(at) => Some((guard, at)),
    }
}

// The point of the transaction at a place against the one at another, now or after the read that comes next.
fn point_before(
    lanes: &Lanes,
    index: &PlacedIndex,
    place: u32,
    other: u32,
    next: Option<u32>,
) -> Option<u32>
    requires place { place < length lanes.now.seats }
    requires other { other < length lanes.now.seats }
    requires different { place ≢ other }
    requires noted { IsNoted lanes.now index.now }
    ensures { (r u : Seat) → slice_get lanes.now.seats place ≡ Some r → slice_get lanes.now.seats other ≡ Some u
        → result ≡ point_with next r.optimistic.state.position u.optimistic.state.writes (point_of r.optimistic.state.log.reads u.optimistic.state.writes) }
{
    match index.point_of(place, other) {
        Some(at) => Some(at),
        None => match next {
            None => None,
            Some(item) => {
                if lanes.state(other, 0).writes().get(item).is_some() {
                    Some(lanes.state(place, 0).position())
                } else {
                    None
                }
            }
        },
    }
}

/// The transaction at a place has exactly the shadows that it will want after it has read this item. It stays as it is where it wants
/// no others now and the read gives it no point against one against which it has none.
pub fn have_before_read(lanes: &mut Lanes, index: &PlacedIndex, place: u32, item: u32, code: &Code)
    requires place { place < length lanes.old.seats }
    requires kept { IsKept lanes.old index.now }
    requires item { item < lanes.old.items }
    requires carries { Carries code.now.nodes lanes.old.items }
    ensures { (r : Seat) → slice_get lanes.old.seats place ≡ Some r
        → lanes.new ≡ record lanes.old { seats = at_place place (renewed code.now.nodes lanes.old.items (wanted_among lanes.old.most (Some item) lanes.old.seats r)) lanes.old.seats } }
{
    if index.changed(place) || index.fills(place, item) {
        let conflicts = wanted_at(lanes, index, place, Some(item));
        have(lanes, place, conflicts.as_slice(), code);
    }
}

/// The transaction at a place has exactly these shadows; where it has them already, it stays as it is.
pub fn have(lanes: &mut Lanes, place: u32, conflicts: &[(u32, u32)], code: &Code)
    requires place { place < length lanes.old.seats }
    requires few { suc (length conflicts.now) ≤ lanes.old.most }
    requires carries { Carries code.now.nodes lanes.old.items }
    ensures { lanes.new ≡ record lanes.old { seats = at_place place (renewed code.now.nodes lanes.old.items conflicts.now) lanes.old.seats } }
{
    if !are_same(lanes.conflicts(place), conflicts) {
        lanes.settle(place, conflicts, code);
    }
}

fn are_same(some: &[(u32, u32)], other: &[(u32, u32)]) -> bool
    ensures { result ≡ same_conflicts some.now other.now }
{
    if some.len() != other.len() {
        return false;
    }
    for i in 0..some.len() {
        if some[i].0 != other[i].0 || some[i].1 != other[i].1 {
            return false;
        }
    }
    true
}
