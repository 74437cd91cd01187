// A forest over one table with three benches, to which their jobs may be given back.
ghost use Rattle.std.specs.Prelude.{◌≡◌, ◌≤◌};

use crate::opening::filled;
use block_rule::Role;
use item_table::Table;
use shadow_forest::{
    BeginRefusal, Bench, CommitRefusal, Did, Forest, Given, Job, Stepped, WithdrawRefusal,
};
use std::alloc::{AllocError, Global};
use std::marker::Model;
use std::sync::ledger::Ledger;
use std::test::Fail;
use step_count::Steps;
use txn_runs::Program;

/// How many benches there are.
pub const BENCHES: usize = 3;

/// A forest, and benches over as many items. A job on one is of a transaction that began here, and of its program.
#[derive(Drop)]
pub struct Stage {
    forest: Forest,
    benches: Vec<Bench>,
}

impl Model for Stage {
    ghost use Rattle.std.specs.Coded.{codes};
    ghost use Rattle.journal_core.specs.contracts.entry.Entry as entry;
    ghost use Rattle.forest_tests.specs.Stage.{Staged, AllFit};

    ghost Value = { Staged };

    ghost coded = { Prim.hlevel (codes, entry.the_row.coded) };

    ghost view = { λ s. record { forest = s.forest; benches = s.benches.items } };

    ghost invariant = { λ s. AllFit s.forest.numbers s.benches.items };
}

impl Stage {
    /// A forest over a table with these values, and benches with no job. None where a limit is passed.
    pub fn open(
        alloc: Global,
        values: &[i64; 4],
        k: u32,
        lanes: u32,
    ) -> Result<Option<Stage>, AllocError> {
        if k < 1 || k > 8 || lanes < 1 || lanes > 64 {
            return Ok(None);
        }
        let table = filled(alloc, values)?;
        let items = table.len();
        let first = Bench::open(alloc, items)?;
        let second = Bench::open(alloc, items)?;
        let third = Bench::open(alloc, items)?;
        let mut benches = Vec::with_capacity(alloc, BENCHES)?;
        benches.push_reserved(first);
        benches.push_reserved(second);
        benches.push_reserved(third);
        let forest = Forest::open(alloc, table, k, lanes)?;
        Ok(Some(Stage { forest, benches }))
    }

    pub fn forest(&self) -> &Forest {
        &self.forest
    }

    pub fn begin(
        &mut self,
        program: Program,
        deadline: u32,
    ) -> Result<Result<u32, BeginRefusal>, Fail> {
        if !program.fits(self.forest.table().len()) {
            return Err(Fail::new("a program of other tables"));
        }
        // that the forest is sound comes with its journal
        let _ = self.forest.journal();
        Ok(self.forest.begin(program, u64::from(deadline)))
    }

    pub fn seal(&mut self) {
        // that the forest is sound comes with its journal
        let _ = self.forest.journal();
        self.forest.seal();
    }

    pub fn recall(&mut self) {
        self.forest.recall();
    }

    pub fn step<L: Ledger>(&mut self, txn: u32, role: Role, steps: &mut Steps<L>) -> Stepped {
        self.forest.step(txn, role, steps)
    }

    pub fn commit(&mut self, txn: u32) -> Result<(), CommitRefusal> {
        // that the forest is sound comes with its journal
        let _ = self.forest.journal();
        self.forest.commit(txn)
    }

    pub fn withdraw(&mut self, txn: u32) -> Result<(), WithdrawRefusal> {
        // that the forest is sound comes with its journal
        let _ = self.forest.journal();
        self.forest.withdraw(txn)
    }

    pub fn run_idle<L: Ledger>(&mut self, steps: &mut Steps<L>) -> u64 {
        // that the forest is sound comes with its journal
        let _ = self.forest.journal();
        self.forest.run_idle(steps)
    }

    pub fn gate_step<L: Ledger>(&mut self, steps: &mut Steps<L>) -> Did {
        // that the forest is sound comes with its journal
        let _ = self.forest.journal();
        self.forest.gate_step(steps)
    }

    pub fn drain_step<L: Ledger>(&mut self, steps: &mut Steps<L>) -> Did {
        // that the forest is sound comes with its journal
        let _ = self.forest.journal();
        self.forest.drain_step(steps)
    }

    pub fn drain<L: Ledger>(&mut self, steps: &mut Steps<L>) {
        // that the forest is sound comes with its journal
        let _ = self.forest.journal();
        self.forest.drain(steps);
    }

    /// What a bench without a job takes.
    pub fn take(&mut self, bench: usize) -> Result<Option<Job>, Fail> {
        if bench >= self.benches.len() || self.benches[bench].job().is_some() {
            return Err(Fail::new("no such bench, or it has a job"));
        }
        // that the forest is sound comes with its journal
        let _ = self.forest.journal();
        Ok(self.forest.take(&mut self.benches[bench]))
    }

    /// What became of a bench's job. None where it has none.
    pub fn give(&mut self, bench: usize) -> Option<Given> {
        if bench >= self.benches.len() || self.benches[bench].job().is_none() {
            return None;
        }
        // that the forest is sound comes with its journal
        let _ = self.forest.journal();
        Some(self.forest.give(&mut self.benches[bench]))
    }

    /// How many steps a bench's job makes, at most so many. None where it has none.
    pub fn run_local<L: Ledger>(
        &mut self,
        bench: usize,
        most: u32,
        steps: &mut Steps<L>,
    ) -> Option<u32> {
        if bench >= self.benches.len() || self.benches[bench].job().is_none() {
            return None;
        }
        Some(self.benches[bench].run_local(most, steps))
    }
}
