// Which shadow takes a job that is given back.
ghost use Rattle.std.specs.Prelude.{◌≡◌, ◌<◌, Some, length, slice_get};
ghost use Rattle.shadow_state.specs.Bank.{Slot};
ghost use Rattle.shadow_lanes.specs.Seats.{Seat, slots_of, slot_at};
ghost use Rattle.shadow_forest.specs.Parts.{first_place};
ghost use Rattle.shadow_forest.specs.Bench.{takes as takes_of};

use indexed_lanes::IndexedLanes;
use txn_interp::State;

/// The slot of the first shadow of the transaction at a place that stands here, is out, and has read what the state has.
pub(crate) fn slot_out(lanes: &IndexedLanes, place: u32, from: u32, state: &State) -> Option<u32>
    requires { place < length lanes.now.seats }
    ensures { (r : Seat) → slice_get lanes.now.seats place ≡ Some r → result ≡ first_place (takes_of from state.now.log.reads) (slots_of r) }
{
    // the limits come with the number of the started
    let _ = lanes.len();
    let shadows = lanes.conflicts(place).len() as u32 + 1;
    for slot in 0..shadows {
        if takes(lanes, place, slot, from, state) {
            return Some(slot);
        }
    }
    None
}

// Whether the shadow in a slot stands here, is out, and has read what the state has.
fn takes(lanes: &IndexedLanes, place: u32, slot: u32, from: u32, state: &State) -> bool
    requires place { place < length lanes.now.seats }
    requires slot { (r : Seat) → slice_get lanes.now.seats place ≡ Some r → slot < length (slots_of r) }
    ensures { (s : Slot) → slot_at lanes.now.seats place slot ≡ Some s → result ≡ takes_of from state.now.log.reads s }
{
    let shadow = lanes.state(place, slot);
    if shadow.position() != from {
        return false;
    }
    if !lanes.out(place, slot) {
        return false;
    }
    shadow.reads().same(state.reads())
}
