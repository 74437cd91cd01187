// Who comes first, by deadline and number.
ghost use Rattle.std.specs.Prelude.{◌≡◌, Some, length, map, filter, IfSome};
ghost use Rattle.forest_model.specs.Choose.{first_by};
ghost use Rattle.shadow_lanes.specs.Seats.{Seat};
ghost use Rattle.shadow_forest.specs.Parts.{is_prior_at, later_of};
ghost use Rattle.shadow_forest.specs.Ready.{AreCarried, IsAmong};

use crate::txn::{Txn, deadline_of};
use indexed_lanes::IndexedLanes;

// The one that comes first; of two with one priority the one that was there.
fn prior(best: Option<u32>, txn: u32, txns: &[Txn]) -> Option<u32>
    requires best { IfSome best (IsAmong (length txns.now)) }
    requires kept { IsAmong (length txns.now) txn }
    ensures { result ≡ Some (later_of (is_prior_at txns.now) best txn) }
{
    match best {
        None => Some(txn),
        Some(old) => {
            let mine = deadline_of(txns, txn);
            let other = deadline_of(txns, old);
            if mine < other || (mine == other && txn < old) {
                Some(txn)
            } else {
                Some(old)
            }
        }
    }
}

/// The first by priority of those whose optimistic shadow has run to its end.
pub(crate) fn first_ended(lanes: &IndexedLanes, txns: &[Txn]) -> Option<u32>
    requires { AreCarried lanes.now.items txns.now lanes.now.seats }
    ensures { result ≡ first_by (is_prior_at txns.now) (map (λ (r : Seat). r.number) (filter (λ (r : Seat). r.optimistic.state.done) lanes.now.seats)) }
{
    let mut best = None;
    for place in 0..lanes.len() {
        if lanes.state(place, 0).ended() {
            best = prior(best, lanes.number(place), txns);
        }
    }
    best
}
