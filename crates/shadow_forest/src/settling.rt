// The shadows that transactions want after a change.
ghost use Rattle.std.specs.Prelude.{◌≡◌, ◌≢◌, ◌⊎◌, ◌<◌, ◌&&◌, ◌==◌, not, false, None, Some, length, slice_get};
ghost use Rattle.std.specs.List.{AllByRecursion};
ghost use Rattle.shadow_state.specs.Bank.{at_place};
ghost use Rattle.shadow_lanes.specs.Seats.{Seat};
ghost use Rattle.indexed_lanes.specs.Wanted.{wanted_among, renewed};
ghost use Rattle.shadow_forest.specs.Parts.{all_renewed, has_read, nodes_at};
ghost use Rattle.shadow_forest.specs.Ready.{AreCarried, IsCarried};

use crate::txn::{Txn, code_of};
use indexed_lanes::IndexedLanes;

/// Each transaction has the shadows that it wants now: those that may want others get them.
pub(crate) fn renew_marked(lanes: &mut IndexedLanes, txns: &[Txn])
    requires { AreCarried lanes.old.items txns.now lanes.old.seats }
    ensures { lanes.new ≡ record lanes.old { seats = all_renewed lanes.old.most lanes.old.items txns.now lanes.old.seats } }
{
    for place in 0..lanes.len() {
        if lanes.changed(place) {
            renew_at(lanes, txns, place);
        }
    }
    lanes.settled();
}

// The transaction at a place has the shadows that it wants now.
fn renew_at(lanes: &mut IndexedLanes, txns: &[Txn], place: u32)
    requires place { place < length lanes.old.seats }
    requires carried { (r : Seat) → slice_get lanes.old.seats place ≡ Some r → IsCarried lanes.old.items txns.now r.number }
    ensures { (r : Seat) → slice_get lanes.old.seats place ≡ Some r
        → lanes.new ≡ record lanes.old { seats = at_place place (renewed (nodes_at txns.now r.number) lanes.old.items (wanted_among lanes.old.most None lanes.old.seats r)) lanes.old.seats } }
{
    let code = code_of(txns, lanes.number(place));
    lanes.renew(place, code);
}

// Whether the transaction at a place is another one than the writer, and has read the item.
fn is_reader(lanes: &IndexedLanes, place: u32, writer: u32, item: u32) -> bool
    requires { place < length lanes.now.seats }
    ensures { (r : Seat) → slice_get lanes.now.seats place ≡ Some r → result ≡ (not (r.number == writer) && has_read item r) }
{
    lanes.number(place) != writer && lanes.state(place, 0).reads().get(item).is_some()
}

/// Whether another one than the writer has read the item; with one shadow a transaction nobody asks, and it is false.
pub(crate) fn is_read_by_others(lanes: &IndexedLanes, writer: u32, item: u32) -> bool
    ensures { result ≡ false → (lanes.now.most ≡ 1) ⊎ AllByRecursion (λ (r : Seat). r.number ≢ writer → has_read item r ≡ false) lanes.now.seats }
{
    if lanes.most() == 1 {
        return false;
    }
    for place in 0..lanes.len() {
        if is_reader(lanes, place, writer, item) {
            return true;
        }
    }
    false
}
