ghost use Rattle.std.specs.Prelude.{◌≡◌, ◌<◌, ◌≤◌, ◌+◌, length, false, Some, IfOk, option_map};
ghost use Rattle.std.specs.List.{AllByRecursion};
ghost use Rattle.txn_interp.specs.State.{Held, Carries, Runs};

use crate::lane::Lane;
use item_table::Table;
use std::alloc::{AllocError, Global};
use std::marker::Model;
use std::sync::ledger::Ledger;
use step_count::Steps;
use txn_code::Code;
use txn_interp::State;

/// States in lanes. A lane has two sides of slots: the present one, and the one from before its sides were last exchanged,
/// out of which the present one is filled. A mark tells of each slot whether it is out.
#[derive(Drop)]
pub struct Bank {
    items: u32,
    most: u32,
    lanes: Vec<Lane>,
}

impl Model for Bank {
    ghost use Rattle.shadow_state.specs.Bank.{Banked, IsBanked};

    ghost Value = { Banked };

    ghost view = { λ b. record { items = b.items; most = b.most; sides = b.lanes.items } };

    ghost invariant = { λ b. IsBanked b.items b.most b.lanes.items };
}

impl Bank {
    ghost use Rattle.shadow_state.specs.Bank.{Slot, Banked, AreSides, fresh_slot, forked, placed_slot, swapped, marked_in, state_in, stored_in, lane_with, present_at};
    ghost use Rattle.shadow_state.specs.Step.{StepsOver, RunsLocal};

    /// A bank of so many lanes, with so many slots a side, for states over so many items, at most 1,024. Where memory runs out,
    /// `AllocError`; no other call takes memory.
    pub fn open(alloc: Global, items: u32, k: u32, lanes: u32) -> Result<Bank, AllocError>
        requires items { items ≤ 1024 }
        requires least { 1 ≤ k }
        requires most { k ≤ 8 }
        requires some { 1 ≤ lanes }
        requires lanes { lanes ≤ 64 }
        ensures items { IfOk result (λ b. b.items ≡ items) }
        ensures most { IfOk result (λ b. b.most ≡ k) }
        ensures lanes { IfOk result (λ b. length b.sides ≡ lanes) }
    {
        let mut made = Vec::with_capacity(alloc, lanes as usize)?;
        for _ in 0..lanes {
            let lane = Lane::open(alloc, items, k)?;
            made.push_reserved(lane);
        }
        Ok(Bank {
            items,
            most: k,
            lanes: made,
        })
    }

    /// The number of lanes. Each has two sides of the same number of slots, for states over the same items.
    pub fn lanes(&self) -> u32
        ensures lanes { result ≡ length self.now.sides }
        ensures sides { AllByRecursion (AreSides self.now.items self.now.most) self.now.sides }
    {
        self.lanes.len() as u32
    }

    /// The number of slots on a side.
    pub fn most(&self) -> u32
        ensures { result ≡ self.now.most }
    {
        self.most
    }

    /// Slot 0 of the present side is at the start of the code's program, and is not out.
    pub fn start(&mut self, lane: u32, code: &Code)
        requires lane { lane < length self.old.sides }
        requires carries { Carries code.now.nodes self.old.items }
        ensures { self.new ≡ lane_with lane (placed_slot 0 (fresh_slot code.now.nodes self.old.items)) self.old }
    {
        self.lanes[lane as usize].restart(0, self.items, code);
    }

    /// Copies a slot of the other side, with its mark, into a slot of the present side.
    pub fn fork_into(&mut self, lane: u32, from: u32, to: u32)
        requires lane { lane < length self.old.sides }
        requires from { from < self.old.most }
        requires to { to < self.old.most }
        ensures { self.new ≡ lane_with lane (forked from to) self.old }
    {
        self.lanes[lane as usize].fork(self.items, self.most, from, to);
    }

    /// A slot of the present side is at the start of the code's program, and is not out.
    pub fn fresh_into(&mut self, lane: u32, to: u32, code: &Code)
        requires lane { lane < length self.old.sides }
        requires to { to < self.old.most }
        requires carries { Carries code.now.nodes self.old.items }
        ensures { self.new ≡ lane_with lane (placed_slot to (fresh_slot code.now.nodes self.old.items)) self.old }
    {
        self.lanes[lane as usize].restart(to, self.items, code);
    }

    /// Exchanges the two sides of a lane.
    pub fn swap_sides(&mut self, lane: u32)
        requires { lane < length self.old.sides }
        ensures { self.new ≡ lane_with lane swapped self.old }
    {
        self.lanes[lane as usize].swap();
    }

    /// The state in a slot of the present side.
    pub fn state(&self, lane: u32, slot: u32) -> &State
        requires lane { lane < length self.now.sides }
        requires slot { slot < self.now.most }
        ensures state { option_map (λ (s : Slot). s.state) (present_at self.now lane slot) ≡ Some result.now }
        ensures room { result.now.log.room ≡ self.now.items }
    {
        self.lanes[lane as usize].slot(slot).state()
    }

    /// Whether a slot of the present side is out.
    pub fn out(&self, lane: u32, slot: u32) -> bool
        requires lane { lane < length self.now.sides }
        requires slot { slot < self.now.most }
        ensures { option_map (λ (s : Slot). s.out) (present_at self.now lane slot) ≡ Some result }
    {
        self.lanes[lane as usize].slot(slot).out()
    }

    /// Marks a slot of the present side as out, or as not out.
    pub fn set_out(&mut self, lane: u32, slot: u32, out: bool)
        requires lane { lane < length self.old.sides }
        requires slot { slot < self.old.most }
        ensures { self.new ≡ lane_with lane (marked_in slot out) self.old }
    {
        self.lanes[lane as usize].set_out(slot, out);
    }

    /// The state in a slot of the present side becomes a copy of this one, and is not out.
    pub fn store(&mut self, lane: u32, slot: u32, state: &State)
        requires lane { lane < length self.old.sides }
        requires slot { slot < self.old.most }
        requires room { state.now.log.room ≡ self.old.items }
        ensures { self.new ≡ lane_with lane (stored_in slot state.now) self.old }
    {
        self.lanes[lane as usize].store(slot, self.items, state);
    }

    /// The state in a slot of the present side makes a step over these tables. It ticks once.
    pub fn step<L: Ledger>(
        &mut self,
        lane: u32,
        slot: u32,
        code: &Code,
        tables: &Table,
        steps: &mut Steps<L>,
    )
        requires lane { lane < length self.old.sides }
        requires slot { slot < self.old.most }
        requires runs { (s : Slot) → present_at self.old lane slot ≡ Some s → Runs code.now.nodes s.state × (s.state.done ≡ false) }
        requires tables { length tables.now ≡ self.old.items }
        ensures step { (s : Slot) × (state : Held) × ((present_at self.old lane slot ≡ Some s) × ((self.new ≡ lane_with lane (state_in slot state) self.old) × StepsOver code.now.nodes tables.now s.state state)) }
        ensures tick { steps.new ≡ steps.old + 1 }
    {
        self.lanes[lane as usize].step(slot, code, tables, steps);
    }

    /// The state in a slot of the present side makes Local steps until the next one is not Local or so many are made, and answers
    /// their number. Each ticks once.
    pub fn run_local<L: Ledger>(
        &mut self,
        lane: u32,
        slot: u32,
        code: &Code,
        most: u32,
        steps: &mut Steps<L>,
    ) -> u32
        requires lane { lane < length self.old.sides }
        requires slot { slot < self.old.most }
        requires runs { (s : Slot) → present_at self.old lane slot ≡ Some s → Runs code.now.nodes s.state }
        ensures run { (s : Slot) × (state : Held) × ((present_at self.old lane slot ≡ Some s) × ((self.new ≡ lane_with lane (state_in slot state) self.old) × RunsLocal code.now.nodes most s.state state result)) }
        ensures ticks { steps.new ≡ steps.old + result }
    {
        self.lanes[lane as usize].run_local(slot, code, most, steps)
    }
}
