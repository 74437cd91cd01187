// Several steps of the pick in one go.
ghost use Rattle.std.specs.Prelude.{◌≡◌, ◌⊎◌, ◌+◌, ◌^◌, ◌≤◌, ◌<◌, ℕ, true, Some, length, slice_get, is_ok, IsTrue, not};
ghost use Rattle.journal_core.specs.Journal.{is_live};
ghost use Rattle.block_rule.specs.declared.role.Role.TheVariants.{Optimistic};
ghost use Rattle.forest_model.specs.Forest.{Started, find_started, is_ended};
ghost use Rattle.forest_model.specs.Sound.{IsSound};
ghost use Rattle.forest_model.specs.Stays.{AreLocal, RunsOn, IsStillPicked, GuardRan};
ghost use Rattle.forest_model.specs.Events.{move_to, step as step_of};
ghost use Rattle.forest_model.specs.Drain.{after_step, run_idle as run_idle_of};
ghost use Rattle.forest_model.specs.Pick.{pick as pick_of};
ghost use Rattle.shadow_forest.specs.Staying.{LeavesOthers, IsPlaced};
ghost use Rattle.shadow_forest.specs.View.{with_numbers};
ghost use Rattle.shadow_forest.specs.Answers.{step_answer, step_ticks};

use super::{Forest, slot_for};
use crate::answers::Stepped;
use crate::settling::is_read_by_others;
use crate::txn::code_of;
use block_rule::{Role, Row};
use std::sync::ledger::Ledger;
use step_count::Steps;
use txn_interp::Kind;

impl Forest {
    // Steps of the pick: its local ones and the next, and more of them as long as it stays the pick.
    pub(super) fn run_pick<L: Ledger>(&mut self, row: Row, steps: &mut Steps<L>) -> u64
        requires sound { IsSound self.old.numbers }
        requires pick { pick_of self.old.numbers ≡ Some row }
        requires fits { (run_idle_of self.old.numbers).0 < 2 ^ 64 }
        ensures some { 1 ≤ result }
        ensures runs { RunsOn self.old.numbers self.new.numbers result }
        ensures told { self.new ≡ with_numbers self.new.numbers self.old }
        ensures ticks { steps.new ≡ steps.old + result }
    {
        let place = self.place_of(&row);
        let mut made = 0;
        'events: loop {
            let (more, stays) = self.run_once(place, &row, steps);
            made += more;
            if !stays {
                return made;
            }
        }
    }

    // The local steps of the pick, which is a shadow of the transaction at this place, and the next, unless it has ended by them or come
    // to its point; and whether it is known to be the pick still.
    fn run_once<L: Ledger>(&mut self, place: u32, row: &Row, steps: &mut Steps<L>) -> (u64, bool)
        requires sound { IsSound self.old.numbers }
        requires pick { pick_of self.old.numbers ≡ Some row.now }
        requires place { IsPlaced self.old.numbers.started place row.now.txn }
        ensures some { 1 ≤ result.0 }
        ensures runs { RunsOn self.old.numbers self.new.numbers result.0 }
        ensures stays { IsTrue result.1 → IsStillPicked self.old.numbers self.new.numbers row.now × IsPlaced self.new.numbers.started place row.now.txn }
        ensures told { self.new ≡ with_numbers self.new.numbers self.old }
        ensures ticks { steps.new ≡ steps.old + result.0 }
    {
        let made = self.run_ahead(place, row, steps);
        let leaves = self.leaves_others(place, row);
        match self.step_at(place, row, steps) {
            Stepped::Stepped { .. } => {
                if leaves {
                    (made + 1, self.goes_on(place))
                } else {
                    (made + 1, false)
                }
            }
            _ => (made, false),
        }
    }

    // A step of a shadow of the transaction at this place.
    fn step_at<L: Ledger>(&mut self, place: u32, row: &Row, steps: &mut Steps<L>) -> Stepped
        requires place { IsPlaced self.old.numbers.started place row.now.txn }
        requires live { is_live self.old.numbers.journal row.now.txn ≡ true }
        ensures answer { result ≡ step_answer (step_of self.old.numbers row.now.txn row.now.role) }
        ensures next { self.new ≡ with_numbers (after_step self.old.numbers (step_of self.old.numbers row.now.txn row.now.role)) self.old }
        ensures ticks { steps.new ≡ steps.old + step_ticks (step_of self.old.numbers row.now.txn row.now.role) }
    {
        match row.role {
            Role::Optimistic => self.step_optimistic(place, row.txn, steps),
            Role::Guard(guard) => self.step_waiting(place, row.txn, guard, steps),
        }
    }

    // Whether it is the step of an optimistic shadow that comes next, and each other transaction wants after it what it wants now: where
    // it is a read, or a write of what no other has read.
    fn leaves_others(&self, place: u32, row: &Row) -> bool
        requires place { IsPlaced self.now.numbers.started place row.now.txn }
        ensures optimistic { IsTrue result → row.now.role ≡ Optimistic }
        ensures leaves { IsTrue result → (r : Started) → find_started self.now.numbers.started row.now.txn ≡ Some r → LeavesOthers self.now.numbers r }
    {
        match row.role {
            Role::Optimistic => self.leaves_wants(place, row.txn),
            Role::Guard(_) => false,
        }
    }

    // Whether the next step of the optimistic shadow of the transaction at a place is a read, or a write of what no other has read.
    fn leaves_wants(&self, place: u32, txn: u32) -> bool
        requires place { IsPlaced self.now.numbers.started place txn }
        ensures { IsTrue result → (r : Started) → find_started self.now.numbers.started txn ≡ Some r → LeavesOthers self.now.numbers r }
    {
        let code = code_of(&self.txns, txn);
        match self.lanes.state(place, 0).next_kind(code) {
            Kind::TableRead { .. } => true,
            Kind::Write { item, .. } => !is_read_by_others(&self.lanes, txn, item),
            Kind::Local | Kind::Ended => false,
        }
    }

    // Whether the optimistic shadow of the transaction at a place has not run to its end.
    fn goes_on(&self, place: u32) -> bool
        requires { place < length self.now.numbers.started }
        ensures { (r : Started) → slice_get self.now.numbers.started place ≡ Some r → result ≡ not (is_ended self.now.numbers r) }
    {
        !self.lanes.state(place, 0).ended()
    }

    // The local steps of the pick, which is a shadow of the transaction at this place.
    fn run_ahead<L: Ledger>(&mut self, place: u32, row: &Row, steps: &mut Steps<L>) -> u64
        requires sound { IsSound self.old.numbers }
        requires pick { pick_of self.old.numbers ≡ Some row.now }
        requires place { (r : Started) × (slice_get self.old.numbers.started place ≡ Some r) × (find_started self.old.numbers.started row.now.txn ≡ Some r) }
        ensures few { result < 2 ^ 32 }
        ensures none { result ≡ 0 → self.new ≡ self.old }
        ensures runs { RunsOn self.old.numbers self.new.numbers result }
        ensures stays { is_ok (step_of self.new.numbers row.now.txn row.now.role) ≡ true → IsStillPicked self.old.numbers self.new.numbers row.now }
        ensures place { IsPlaced self.new.numbers.started place row.now.txn }
        ensures live { is_live self.new.numbers.journal row.now.txn ≡ true }
        ensures told { self.new ≡ with_numbers self.new.numbers self.old }
        ensures ticks { steps.new ≡ steps.old + result }
    {
        match row.role {
            Role::Optimistic => self.run_local(place, row.txn, steps) as u64,
            Role::Guard(guard) => self.run_guard(place, row.txn, guard, steps) as u64,
        }
    }

    // The optimistic shadow of the transaction at a place makes Local steps until its next one is not Local.
    fn run_local<L: Ledger>(&mut self, place: u32, txn: u32, steps: &mut Steps<L>) -> u32
        requires place { (r : Started) × (slice_get self.old.numbers.started place ≡ Some r) × (find_started self.old.numbers.started txn ≡ Some r) }
        ensures local { (r : Started) → find_started self.old.numbers.started txn ≡ Some r → AreLocal self.old.numbers r result }
        ensures next { (r : Started) → find_started self.old.numbers.started txn ≡ Some r → self.new ≡ with_numbers (move_to txn (r.position + result) self.old.numbers) self.old }
        ensures ticks { steps.new ≡ steps.old + result }
    {
        let code = code_of(&self.txns, txn);
        self.lanes.run_local(place, 0, code, u32::MAX, steps)
    }

    // The shadow of the transaction at a place that waits for this guard, if there is one, makes Local steps until its next one is
    // not Local or it stands at its point.
    fn run_guard<L: Ledger>(
        &mut self,
        place: u32,
        txn: u32,
        guard: u32,
        steps: &mut Steps<L>,
    ) -> u32
        requires place { (r : Started) × (slice_get self.old.numbers.started place ≡ Some r) × (find_started self.old.numbers.started txn ≡ Some r) }
        ensures ran { (r : Started) → find_started self.old.numbers.started txn ≡ Some r → GuardRan self.old.numbers guard r self.new.numbers result ⊎ ((result ≡ 0) × (self.new.numbers ≡ self.old.numbers)) }
        ensures told { self.new ≡ with_numbers self.new.numbers self.old }
        ensures ticks { steps.new ≡ steps.old + result }
    {
        let Some(slot) = slot_for(self.lanes.conflicts(place), guard) else {
            return 0;
        };
        let (_, point) = self.lanes.conflicts(place)[slot as usize - 1];
        let position = self.lanes.state(place, slot).position();
        let code = code_of(&self.txns, txn);
        self.lanes
            .run_local(place, slot, code, point - position, steps)
    }
}
