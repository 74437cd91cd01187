ghost use Rattle.std.specs.Prelude.{◌≡◌, ◌<◌, ◌≤◌, ◌+◌, length, false, Some, slice_get, IfOk};
ghost use Rattle.txn_interp.specs.State.{Held, Carries, Runs};
ghost use Rattle.shadow_state.specs.Bank.{Slot, Sides, AreSides, IsSide, fresh_slot, forked, placed_slot, swapped, marked_in, state_in, stored_in};
ghost use Rattle.shadow_state.specs.Step.{StepsOver, RunsLocal};

use crate::slot::KeptSlot;
use item_table::Table;
use std::alloc::{AllocError, Global};
use std::marker::Model;
use std::mem;
use std::sync::ledger::Ledger;
use step_count::Steps;
use txn_code::Code;
use txn_interp::State;

/// The slots of now, and those that the lane had before its sides were exchanged.
#[derive(Drop)]
pub struct Lane {
    present: Vec<KeptSlot>,
    other: Vec<KeptSlot>,
}

impl Model for Lane {
    ghost use Rattle.shadow_state.specs.Bank.{Sides};

    ghost Value = { Sides };

    ghost view = { λ l. record { present = l.present.items; other = l.other.items } };
}

impl Lane {
    /// So many slots on each side, for states over so many items.
    pub fn open(alloc: Global, items: u32, most: u32) -> Result<Lane, AllocError>
        requires { items ≤ 1024 }
        ensures { IfOk result (λ l. AreSides items most l) }
    {
        let present = side(alloc, items, most)?;
        let other = side(alloc, items, most)?;
        Ok(Lane { present, other })
    }

    pub fn slot(&self, slot: u32) -> &KeptSlot
        requires { slot < length self.now.present }
        ensures { slice_get self.now.present slot ≡ Some result.now }
    {
        &self.present[slot as usize]
    }

    pub fn swap(&mut self)
        ensures { self.new ≡ swapped self.old }
    {
        mem::swap(&mut self.present, &mut self.other);
    }

    pub fn set_out(&mut self, slot: u32, out: bool)
        requires { slot < length self.old.present }
        ensures { self.new ≡ marked_in slot out self.old }
    {
        self.present[slot as usize].set_out(out);
    }

    /// The slot is at the start of the code's program, and not out.
    pub fn restart(&mut self, slot: u32, items: u32, code: &Code)
        requires slot { slot < length self.old.present }
        requires side { IsSide items (length self.old.present) self.old.present }
        requires carries { Carries code.now.nodes items }
        ensures { self.new ≡ placed_slot slot (fresh_slot code.now.nodes items) self.old }
    {
        self.present[slot as usize].restart(code);
    }

    /// Copies a slot of the other side, with its mark, into a slot of the present side.
    pub fn fork(&mut self, items: u32, most: u32, from: u32, to: u32)
        requires from { from < most }
        requires to { to < most }
        requires sides { AreSides items most self.old }
        ensures { self.new ≡ forked from to self.old }
    {
        self.present[to as usize].copy_from(&self.other[from as usize]);
    }

    /// The state in a slot of the present side becomes a copy of this one, and is not out.
    pub fn store(&mut self, slot: u32, items: u32, state: &State)
        requires slot { slot < length self.old.present }
        requires side { IsSide items (length self.old.present) self.old.present }
        requires room { state.now.log.room ≡ items }
        ensures { self.new ≡ stored_in slot state.now self.old }
    {
        self.present[slot as usize].store(state);
    }

    /// The state in a slot of the present side makes a step over these tables. It ticks once.
    pub fn step<L: Ledger>(&mut self, slot: u32, code: &Code, tables: &Table, steps: &mut Steps<L>)
        requires slot { slot < length self.old.present }
        requires side { IsSide (length tables.now) (length self.old.present) self.old.present }
        requires runs { (s : Slot) → slice_get self.old.present slot ≡ Some s → Runs code.now.nodes s.state × (s.state.done ≡ false) }
        ensures step { (s : Slot) × (state : Held) × ((slice_get self.old.present slot ≡ Some s) × ((self.new ≡ state_in slot state self.old) × StepsOver code.now.nodes tables.now s.state state)) }
        ensures tick { steps.new ≡ steps.old + 1 }
    {
        self.present[slot as usize].step(code, tables, steps);
    }

    /// The state in a slot of the present side makes Local steps until the next one is not Local or so many are made, and answers
    /// their number. Each ticks once.
    pub fn run_local<L: Ledger>(
        &mut self,
        slot: u32,
        code: &Code,
        most: u32,
        steps: &mut Steps<L>,
    ) -> u32
        requires slot { slot < length self.old.present }
        requires runs { (s : Slot) → slice_get self.old.present slot ≡ Some s → Runs code.now.nodes s.state }
        ensures run { (s : Slot) × (state : Held) × ((slice_get self.old.present slot ≡ Some s) × ((self.new ≡ state_in slot state self.old) × RunsLocal code.now.nodes most s.state state result)) }
        ensures ticks { steps.new ≡ steps.old + result }
    {
        self.present[slot as usize].run_local(code, most, steps)
    }
}

fn side(alloc: Global, items: u32, most: u32) -> Result<Vec<KeptSlot>, AllocError>
    requires { items ≤ 1024 }
    ensures { IfOk result (λ v. IsSide items most v.items) }
{
    let mut slots = Vec::with_capacity(alloc, most as usize)?;
    for _ in 0..most {
        let slot = KeptSlot::open(alloc, items)?;
        slots.push_reserved(slot);
    }
    Ok(slots)
}
