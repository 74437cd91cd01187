// What a commit does to the others, and who starts.
ghost use Rattle.std.specs.Prelude.{◌≡◌, ◌<◌, ◌≤◌, ◌++◌, ◌+◌, None, Some, length, map, filter_map, slice_get};
ghost use Rattle.std.specs.List.{AllByRecursion};
ghost use Rattle.std.specs.Vec.{vec_capacity};
ghost use Rattle.shadow_lanes.specs.Seats.{Seat, find_seat};
ghost use Rattle.shadow_forest.specs.Parts.{seat_after, taken_back, next_of, seats_with_some, still_waiting};
ghost use Rattle.shadow_forest.specs.Answers.{resumed_pair};
ghost use Rattle.shadow_forest.specs.Ready.{AreCarried, IsCarried};
ghost use Rattle.shadow_forest.specs.Kept.{numbers_waiting, AreQueued};

use crate::answers::Resumed;
use crate::txn::{Txn, code_of, deadline_of};
use indexed_lanes::IndexedLanes;
use wait_list::WaitList;

/// Cuts the others by the writes of the transaction at a place, and tells whom that takes back.
pub(crate) fn cut_others(
    lanes: &mut IndexedLanes,
    of: u32,
    txns: &[Txn],
    resumed: &mut Vec<Resumed>,
)
    requires of { of < length lanes.old.seats }
    requires carried { AreCarried lanes.old.items txns.now lanes.old.seats }
    requires room { length resumed.old.items + length lanes.old.seats ≤ vec_capacity resumed.old }
    ensures seats { (u : Seat) → slice_get lanes.old.seats of ≡ Some u → lanes.new ≡ record lanes.old { seats = map (seat_after lanes.old.items txns.now u) lanes.old.seats } }
    ensures resumed { (u : Seat) → slice_get lanes.old.seats of ≡ Some u → map resumed_pair resumed.new.items ≡ map resumed_pair resumed.old.items ++ filter_map (taken_back lanes.old.items txns.now u) lanes.old.seats }
    ensures capacity { vec_capacity resumed.new ≡ vec_capacity resumed.old }
{
    let committed = lanes.number(of);
    for place in 0..lanes.len() {
        let number = lanes.number(place);
        if number != committed {
            match lanes.point_between(place, of) {
                None => {}
                Some(at) => {
                    lanes.promote(place, at, code_of(txns, number));
                    let position = lanes.state(place, 0).position();
                    resumed.push_reserved(Resumed {
                        txn: number,
                        position,
                    });
                }
            }
        }
    }
}

/// Starts the first that waits, where a lane is free, and answers who it is.
pub(crate) fn start_waiting(
    lanes: &mut IndexedLanes,
    waiting: &mut WaitList,
    txns: &[Txn],
) -> Option<u32>
    requires carried { AllByRecursion (IsCarried lanes.old.items txns.now) (numbers_waiting waiting.old) }
    requires apart { AllByRecursion (λ t. find_seat lanes.old.seats t ≡ None) (numbers_waiting waiting.old) }
    requires queued { AreQueued txns.now waiting.old }
    ensures next { result ≡ next_of txns.now (length lanes.old.seats) lanes.old.lanes (numbers_waiting waiting.old) }
    ensures lanes { lanes.new ≡ record lanes.old { seats = seats_with_some txns.now lanes.old.items result lanes.old.seats } }
    ensures waiting { numbers_waiting waiting.new ≡ still_waiting result (numbers_waiting waiting.old) }
    ensures queued { AreQueued txns.now waiting.new }
{
    if lanes.len() == lanes.lanes() {
        return None;
    }
    let next = waiting.first();
    match next {
        None => {}
        Some(txn) => {
            waiting.remove(txn, deadline_of(txns, txn));
            lanes.start(txn, code_of(txns, txn));
        }
    }
    next
}
