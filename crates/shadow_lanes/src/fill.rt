ghost use Rattle.std.specs.Prelude.{◌≡◌, ◌<◌, ◌≤◌, ◌&&◌, suc, nat_le, not, length, slice_get, Some};
ghost use Rattle.txn_interp.specs.State.{Carries};
ghost use Rattle.forest_model.specs.Origin.{placed_of, waits_for};
ghost use Rattle.shadow_state.specs.Bank.{Sides, lane_with};
ghost use Rattle.shadow_lanes.specs.Seats.{started_of, settled_seat, conflicts_of};
ghost use Rattle.shadow_lanes.specs.Kept.{IsLong, seat_of, refilled, filled_at, cut_back};

use crate::seat::KeptSeat;
use arrayvec::ArrayVec;
use block_rule::{Origin, Role};
use fork_rule::origin;
use shadow_state::Bank;
use txn_code::Code;

/// Fills the present side of a transaction's lane for these conflicts, from the other side, which has the slots that the
/// transaction had before.
pub fn settle_slots(
    bank: &mut Bank,
    seat: &KeptSeat,
    rows: &[(Role, u32)],
    conflicts: &[(u32, u32)],
    code: &Code,
)
    requires lane { seat.now.lane < length bank.old.sides }
    requires few { suc (length conflicts.now) ≤ bank.old.most }
    requires most { bank.old.most ≤ 8 }
    requires had { suc (length seat.now.conflicts) ≤ bank.old.most }
    requires carries { Carries code.now.nodes bank.old.items }
    requires long { (lane : Sides) → slice_get bank.old.sides seat.now.lane ≡ Some lane → IsLong bank.old.most lane }
    requires rows { (lane : Sides) → slice_get bank.old.sides seat.now.lane ≡ Some lane → rows.now ≡ placed_of (started_of (seat_of seat.now lane.other)) }
    ensures { bank.new ≡ lane_with seat.now.lane (refilled seat.now (settled_seat code.now.nodes bank.old.items conflicts.now)) bank.old }
{
    bank.fork_into(seat.lane(), 0, 0);
    for i in 0..conflicts.len() {
        let conflict = conflicts[i];
        let from = origin(rows, conflict.0, conflict.1);
        fill_slot(bank, seat, from, conflict.0, i as u32 + 1, code);
    }
}

/// Fills a slot of the present side for this guard, by where it comes from. A copy is not out.
fn fill_slot(bank: &mut Bank, seat: &KeptSeat, from: Origin, guard: u32, to: u32, code: &Code)
    requires lane { seat.now.lane < length bank.old.sides }
    requires to { to < bank.old.most }
    requires had { suc (length seat.now.conflicts) ≤ bank.old.most }
    requires long { (lane : Sides) → slice_get bank.old.sides seat.now.lane ≡ Some lane → IsLong bank.old.most lane }
    requires carries { Carries code.now.nodes bank.old.items }
    ensures { bank.new ≡ lane_with seat.now.lane (filled_at code.now.nodes bank.old.items seat.now from guard to) bank.old }
{
    let lane = seat.lane();
    match from {
        Origin::Keep => bank.fork_into(lane, seat.slot_of(Role::Guard(guard)), to),
        Origin::From(role) => {
            bank.fork_into(lane, seat.slot_of(role), to);
            bank.set_out(lane, to, false);
        }
        Origin::Fresh => bank.fresh_into(lane, to, code),
    }
}

/// Fills the present side of a transaction's lane where the shadow with this role becomes the optimistic one, from the other
/// side. Answers the conflicts whose shadows stay.
pub fn cut_slots(
    bank: &mut Bank,
    seat: &KeptSeat,
    rows: &[(Role, u32)],
    heir: Role,
    cut: u32,
) -> ArrayVec<(u32, u32), 7>
    requires lane { seat.now.lane < length bank.old.sides }
    requires had { suc (length seat.now.conflicts) ≤ bank.old.most }
    requires long { (lane : Sides) → slice_get bank.old.sides seat.now.lane ≡ Some lane → IsLong bank.old.most lane }
    requires rows { (lane : Sides) → slice_get bank.old.sides seat.now.lane ≡ Some lane → rows.now ≡ placed_of (started_of (seat_of seat.now lane.other)) }
    ensures bank { bank.new ≡ lane_with seat.now.lane (refilled seat.now (cut_back heir cut (length seat.now.conflicts))) bank.old }
    ensures stay { (lane : Sides) → slice_get bank.old.sides seat.now.lane ≡ Some lane → result.items ≡ conflicts_of (cut_back heir cut (length seat.now.conflicts) (seat_of seat.now lane.other)) }
{
    let lane = seat.lane();
    bank.fork_into(lane, seat.slot_of(heir), 0);
    let mut stay = ArrayVec::new();
    let conflicts = seat.conflicts();
    for i in 0..conflicts.len() {
        let conflict = conflicts[i];
        let kept = stays(rows[i + 1].1, conflict.0, heir, cut);
        if kept {
            bank.fork_into(lane, i as u32 + 1, stay.len() as u32 + 1);
            stay.push(conflict);
        }
    }
    stay
}

/// Whether the shadow for this guard, which is at this position, stays where another becomes the optimistic one.
fn stays(position: u32, guard: u32, heir: Role, cut: u32) -> bool
    ensures { result ≡ (nat_le position cut && not (waits_for guard heir)) }
{
    match heir {
        Role::Optimistic => position <= cut,
        Role::Guard(other) => position <= cut && other != guard,
    }
}
