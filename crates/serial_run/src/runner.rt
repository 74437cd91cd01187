// A program's whole run, and its effect.
ghost use Rattle.std.specs.Prelude.{◌≡◌, ◌≤◌, ◌+◌, length, IfOk, OnOk};
ghost use Rattle.txn_runs.specs.Bounds.{reach};
ghost use Rattle.txn_runs.specs.Serial.{outcome_of, effect_of, over, run_length};
ghost use Rattle.serial_run.specs.Ran.{is_done as is_done_of};

use crate::run::run_out;
use item_table::Table;
use std::alloc::{AllocError, Global};
use std::marker::Model;
use std::sync::ledger::Ledger;
use step_count::Steps;
use txn_code::link;
use txn_interp::State;
use txn_runs::{EmitRoom, Outcome, Program};

/// Runs whole programs over tables of so many items, one program after another.
#[derive(Drop)]
pub struct Runner {
    alloc: Global,
    state: State,
    done: bool,
}

impl Model for Runner {
    ghost use Rattle.serial_run.specs.Ran.{Ran, effect_if};

    ghost Value = { Ran };

    ghost view = { λ r. record { items = r.state.log.room; effect = effect_if r.done r.state.writes } };
}

impl Runner {
    /// A runner for tables of so many items, at most 1,024. Where memory runs out, `AllocError`.
    pub fn open(alloc: Global, items: u32) -> Result<Runner, AllocError>
        requires { items ≤ 1024 }
        ensures { IfOk result (λ runner. runner.items ≡ items) }
    {
        Ok(Runner {
            alloc,
            state: State::room(alloc, items)?,
            done: false,
        })
    }

    /// Runs a program over tables, which it leaves as they are, and answers how the run ended. What it has the effect of is kept for
    /// `lay_over`. After want of memory no run is kept.
    pub fn run<L: Ledger>(
        &mut self,
        program: &Program,
        tables: &Table,
        steps: &mut Steps<L>,
    ) -> Result<Outcome, AllocError>
        requires fits { reach program.now ≤ length tables.now }
        requires items { self.old.items ≡ length tables.now }
        ensures outcome { IfOk result (λ outcome. outcome ≡ outcome_of program.now tables.now) }
        ensures effect { OnOk result (self.new.effect ≡ effect_of program.now tables.now) }
        ensures items { self.new.items ≡ self.old.items }
        ensures steps { OnOk result (steps.new ≡ steps.old + run_length program.now tables.now) }
        ensures later { steps.old ≤ steps.new }
    {
        let code = link(self.alloc, program)?;
        let room = EmitRoom::new(self.alloc, program.emits_max())?;
        let _ = program.body();
        self.state.reset(&code);
        run_out(&mut self.state, &code, tables, steps);
        let outcome = self.state.outcome(room);
        self.done = is_done(&outcome);
        Ok(outcome)
    }

    /// Gives the items of tables the values that the program which was run last has written, where its run is done.
    pub fn lay_over(&self, tables: &mut Table)
        requires { self.now.items ≡ length tables.old }
        ensures { tables.new ≡ over self.now.effect tables.old }
    {
        if self.done {
            self.state.writes().lay_over(tables);
        }
    }
}

fn is_done(outcome: &Outcome) -> bool
    ensures { result ≡ is_done_of outcome.now }
{
    matches!(outcome, Outcome::Done { .. })
}
