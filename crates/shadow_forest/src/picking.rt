// Which shadow makes the next step.
ghost use Rattle.std.specs.Prelude.{◌≡◌, ◌<◌, [], ◌∷◌, ◌++◌, true, List, Some, length, slice_get};
ghost use Rattle.forest_model.specs.Pick.{pick_of};
ghost use Rattle.block_rule.specs.declared.role.Row.{Row as RowOf};
ghost use Rattle.shadow_lanes.specs.Seats.{Seat, slots_of};
ghost use Rattle.shadow_forest.specs.Parts.{seat_rows, all_rows, role_in, row_comes_before};
ghost use Rattle.shadow_forest.specs.Ready.{AreCarried};

use crate::txn::{Txn, deadline_of};
use block_rule::{Role, Row, status};
use indexed_lanes::IndexedLanes;
use ready_order::{earlier, is_ready};

/// The first of all shadows that may make a step and are not out.
pub(crate) fn pick(lanes: &IndexedLanes, txns: &[Txn]) -> Option<Row>
    requires { AreCarried lanes.now.items txns.now lanes.now.seats }
    ensures { result ≡ pick_of (all_rows txns.now lanes.now.seats) }
{
    let mut best = None;
    for place in 0..lanes.len() {
        best = pick_at(lanes, txns, place, best);
    }
    best
}

// The better of what was best and the best row of the transaction at a place.
fn pick_at(lanes: &IndexedLanes, txns: &[Txn], place: u32, best: Option<Row>) -> Option<Row>
    requires place { place < length lanes.now.seats }
    requires carried { AreCarried lanes.now.items txns.now lanes.now.seats }
    ensures { (r : Seat) (before : List RowOf) → slice_get lanes.now.seats place ≡ Some r → best ≡ pick_of before → result ≡ pick_of (before ++ seat_rows txns.now r) }
{
    let txn = lanes.number(place);
    if comes_first(best, txn, deadline_of(txns, txn)) {
        return best;
    }
    // the limits come with the number of the started
    let _ = lanes.len();
    let shadows = lanes.conflicts(place).len() as u32 + 1;
    let mut best = best;
    for slot in 0..shadows {
        best = better(best, row_at(lanes, txns, place, slot));
    }
    best
}

// Whether this row comes before all of a transaction's rows, which share its deadline and its number.
fn comes_first(best: Option<Row>, txn: u32, deadline: u64) -> bool
    ensures { result ≡ row_comes_before best txn deadline }
{
    match best {
        None => false,
        Some(row) => row.deadline < deadline || (row.deadline == deadline && row.txn < txn),
    }
}

// A shadow as the pick sees it.
fn row_at(lanes: &IndexedLanes, txns: &[Txn], place: u32, slot: u32) -> Row
    requires place { place < length lanes.now.seats }
    requires slot { (r : Seat) → slice_get lanes.now.seats place ≡ Some r → slot < length (slots_of r) }
    requires carried { AreCarried lanes.now.items txns.now lanes.now.seats }
    ensures { (r : Seat) → slice_get lanes.now.seats place ≡ Some r → slice_get (seat_rows txns.now r) slot ≡ Some result }
{
    let txn = lanes.number(place);
    let state = lanes.state(place, slot);
    let (role, point) = role_at(lanes, place, slot);
    Row {
        txn,
        deadline: deadline_of(txns, txn),
        role,
        place: slot,
        standing: status(role, state.position(), point, state.ended()),
        out: lanes.out(place, slot),
    }
}

ghost use Rattle.block_rule.specs.Standing.{has_point};

// The role and the point of a shadow.
pub(crate) fn role_at(lanes: &IndexedLanes, place: u32, slot: u32) -> (Role, Option<u32>)
    requires place { place < length lanes.now.seats }
    requires slot { (r : Seat) → slice_get lanes.now.seats place ≡ Some r → slot < length (slots_of r) }
    ensures role { (r : Seat) → slice_get lanes.now.seats place ≡ Some r → result ≡ role_in r slot }
    ensures point { has_point result.0 result.1 ≡ true }
{
    if slot == 0 {
        return (Role::Optimistic, None);
    }
    let (guard, point) = lanes.conflicts(place)[slot as usize - 1];
    (Role::Guard(guard), Some(point))
}

// The pick of some rows and one more, by the pick of those rows.
fn better(best: Option<Row>, row: Row) -> Option<Row>
    ensures { (before : List RowOf) → best ≡ pick_of before → result ≡ pick_of (before ++ row ∷ []) }
{
    if is_ready(&row) {
        earlier(best, row)
    } else {
        best
    }
}
