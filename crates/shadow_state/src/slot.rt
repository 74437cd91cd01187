ghost use Rattle.std.specs.Prelude.{◌≡◌, ◌≤◌, ◌+◌, IfOk, false, length};
ghost use Rattle.txn_interp.specs.State.{Carries, Runs};
ghost use Rattle.shadow_state.specs.Bank.{Slot, IsOver, fresh_slot, marked_slot, stored_slot};
ghost use Rattle.shadow_state.specs.Step.{StepsOver, RunsLocal};

use item_table::Table;
use std::alloc::{AllocError, Global};
use std::marker::Model;
use std::sync::ledger::Ledger;
use step_count::Steps;
use txn_code::Code;
use txn_interp::State;
use txn_runs::Kind;

/// A state, and whether it is out.
#[derive(Drop)]
pub struct KeptSlot {
    state: State,
    out: bool,
}

impl Model for KeptSlot {
    ghost use Rattle.shadow_state.specs.Bank.{Slot};

    ghost Value = { Slot };

    ghost view = { λ s. record { state = s.state; out = s.out } };
}

impl KeptSlot {
    /// Room for a state over so many items.
    pub fn open(alloc: Global, items: u32) -> Result<KeptSlot, AllocError>
        requires { items ≤ 1024 }
        ensures { IfOk result (λ s. IsOver items s) }
    {
        let state = State::room(alloc, items)?;
        Ok(KeptSlot { state, out: false })
    }

    pub fn state(&self) -> &State
        ensures { result.now ≡ self.now.state }
    {
        &self.state
    }

    pub fn out(&self) -> bool
        ensures { result ≡ self.now.out }
    {
        self.out
    }

    pub fn set_out(&mut self, out: bool)
        ensures { self.new ≡ marked_slot out self.old }
    {
        self.out = out;
    }

    /// Becomes the other slot.
    pub fn copy_from(&mut self, other: &KeptSlot)
        requires { self.old.state.log.room ≡ other.now.state.log.room }
        ensures { self.new ≡ other.now }
    {
        self.state.copy_from(&other.state);
        self.out = other.out;
    }

    /// The state becomes a copy of this one, and is not out.
    pub fn store(&mut self, state: &State)
        requires { self.old.state.log.room ≡ state.now.log.room }
        ensures { self.new ≡ stored_slot state.now self.old }
    {
        self.state.copy_from(state);
        self.set_out(false);
    }

    /// Is at the start of the code's program, and not out.
    pub fn restart(&mut self, code: &Code)
        requires { Carries code.now.nodes self.old.state.log.room }
        ensures { self.new ≡ fresh_slot code.now.nodes self.old.state.log.room }
    {
        self.state.reset(code);
        self.out = false;
    }

    /// The state makes a step over these tables. It ticks once.
    pub fn step<L: Ledger>(&mut self, code: &Code, tables: &Table, steps: &mut Steps<L>)
        requires runs { Runs code.now.nodes self.old.state }
        requires goes { self.old.state.done ≡ false }
        requires tables { length tables.now ≡ self.old.state.log.room }
        ensures out { self.new.out ≡ self.old.out }
        ensures step { StepsOver code.now.nodes tables.now self.old.state self.new.state }
        ensures tick { steps.new ≡ steps.old + 1 }
    {
        match self.state.next_kind(code) {
            Kind::Local => self.state.step_local(code, steps),
            Kind::TableRead { item } => self.state.step_read(code, tables.get(item), steps),
            Kind::Write { .. } => self.state.step_write(code, steps),
            Kind::Ended => unreachable!(),
        }
    }

    /// The state makes Local steps until the next one is not Local or so many are made, and answers their number. Each ticks once.
    pub fn run_local<L: Ledger>(&mut self, code: &Code, most: u32, steps: &mut Steps<L>) -> u32
        requires { Runs code.now.nodes self.old.state }
        ensures out { self.new.out ≡ self.old.out }
        ensures run { RunsLocal code.now.nodes most self.old.state self.new.state result }
        ensures ticks { steps.new ≡ steps.old + result }
    {
        self.state.run_local(code, most, steps)
    }
}
