// A report, line by line.
ghost use Rattle.std.specs.Prelude.{◌≡◌, ◌≤◌, ◌+◌, ◌-◌, ◌^◌, ◌<◌, ◌++◌, ◌∷◌, min, ℕ, List, Some, [], length, option_map, slice_get, IfOk, OnOk};
ghost use Rattle.std.specs.List.{All, count_by};
ghost use Rattle.txn_runs.specs.Bounds.{reach};
ghost use Rattle.txn_runs.specs.Run.{Tables};
ghost use Rattle.txn_names.specs.Tables.{items_of};
ghost use Rattle.report_text.specs.Order.{commit_number as number_of};
ghost use Rattle.report_text.specs.Rows.{last_rows};
ghost use Rattle.report_check.specs.Checked.{IsSound, Stands, Commits, Tells, Takes, Differs};
ghost use Rattle.report_check.specs.Kept.{held};
ghost use Rattle.report_check.specs.Reports.{IsReportVerdict};

use crate::Verdict;
use crate::limits::{read_programs, read_values};
use crate::lines::{commit_number, is_line};
use item_table::Table;
use journal_core::put_reply;
use scc_replies::{put_number_line, put_row};
use serial_run::Runner;
use std::alloc::{AllocError, Global};
use std::sync::ledger::Ledger;
use step_count::Steps;
use txn_names::Names;
use txn_runs::Program;

/// The lines of a report that were taken in: which programs they have committed, and the tables after them.
#[derive(Drop)]
pub struct Check {
    table: Table,
    runner: Runner,
    // whether each program was committed
    taken: Vec<bool>,
    commits: u32,
    // how many lines behind the commits have come
    told: u32,
    // the line that is expected, with its newline
    expected: Vec<u8>,
}

impl Check {
    /// Before the first line.
    pub fn open(
        alloc: Global,
        names: &Names,
        programs: &[Program],
        table: Table,
    ) -> Result<Check, AllocError>
        requires items { items_of names.now ≡ length table }
        requires fit { All (λ p. reach p ≤ length table) programs.now }
        requires few { length programs.now < 2 ^ 32 }
        ensures sound { IfOk result (λ check. IsSound names.now programs.now (held check)) }
        ensures empty { IfOk result (λ check. Stands names.now table programs.now (held check) []) }
    {
        let runner = Runner::open(alloc, table.len())?;
        let taken = vec![in alloc; false; programs.len()]?;
        Ok(Check {
            table,
            runner,
            taken,
            commits: 0,
            told: 0,
            expected: Vec::new(alloc),
        })
    }

    /// Takes in a line, and tells whether some report has it behind those before it.
    pub fn take<L: Ledger>(
        &mut self,
        names: &Names,
        programs: &[Program],
        line: &[u8],
        steps: &mut Steps<L>,
    ) -> Result<bool, AllocError>
        requires { IsSound names.now programs.now (held self.old) }
        ensures takes { IfOk result (λ goes. Takes names.now programs.now (held self.old) (held self.new) line.now goes) }
        ensures later { steps.old ≤ steps.new }
    {
        // the limits of the names come with their number
        let _ = names.count();
        if self.told > 0 {
            return self.take_last(names, line);
        }
        match commit_number(line) {
            Some(txn) => self.take_commit(programs, txn, line, steps),
            None => self.take_last(names, line),
        }
    }

    // A commit line of this number.
    fn take_commit<L: Ledger>(
        &mut self,
        programs: &[Program],
        txn: u64,
        line: &[u8],
        steps: &mut Steps<L>,
    ) -> Result<bool, AllocError>
        requires room { self.old.runner.items ≡ length self.old.table }
        requires fit { All (λ p. reach p ≤ length self.old.table) programs.now }
        requires few { length programs.now < 2 ^ 32 }
        requires many { length self.old.taken.items ≡ length programs.now }
        requires counted { self.old.commits ≡ count_by (λ b. b) self.old.taken.items }
        requires number { option_map (λ n. min n (2 ^ 64 - 1)) (number_of line.now) ≡ Some txn }
        ensures commits { IfOk result (λ goes. Commits programs.now (held self.old) (held self.new) line.now goes) }
        ensures later { steps.old ≤ steps.new }
    {
        if txn == 0 || txn > programs.len() as u64 {
            return Ok(false);
        }
        let place = txn as usize - 1;
        if self.taken[place] {
            return Ok(false);
        }
        let outcome = self.runner.run(&programs[place], &self.table, steps)?;
        self.expected.clear();
        put_reply(txn as u32, &outcome, &mut self.expected)?;
        if !is_line(&self.expected, line) {
            return Ok(false);
        }
        self.runner.lay_over(&mut self.table);
        self.taken[place] = true;
        self.commits += 1;
        Ok(true)
    }

    // A line behind the commits, which must be those of all programs.
    fn take_last(&mut self, names: &Names, line: &[u8]) -> Result<bool, AllocError>
        requires items { items_of names.now ≡ length self.old.table }
        ensures { IfOk result (λ goes. Tells names.now (held self.old) (held self.new) line.now goes) }
    {
        if self.commits as usize != self.taken.len() || self.told > names.count() {
            return Ok(false);
        }
        self.expect_last(names)?;
        if !is_line(&self.expected, line) {
            return Ok(false);
        }
        self.told += 1;
        Ok(true)
    }

    // Expects the next line behind the commits: the last values of a table, or the number of commits.
    fn expect_last(&mut self, names: &Names) -> Result<(), AllocError>
        requires items { items_of names.now ≡ length self.old.table }
        requires told { self.old.told ≤ length names.now }
        ensures row { OnOk result ((row : List ℕ) × (slice_get (last_rows names.now self.old.table self.old.commits) self.old.told ≡ Some row) × (self.new.expected.items ≡ row ++ 10 ∷ [])) }
        ensures kept { held self.new ≡ held self.old }
    {
        self.expected.clear();
        if self.told == names.count() {
            return put_number_line(&mut self.expected, b"end ", self.commits as u64);
        }
        let table = names.table(self.told);
        self.expected.extend_from_slice(b"final ")?;
        let values = self.table.row(table.base, table.size);
        put_row(&mut self.expected, names.name(self.told), values)
    }

    /// Leaves all as it is. No report has a line of more than 32,768 bytes.
    pub fn too_long(&self, names: &Names, programs: &[Program])
        requires { IsSound names.now programs.now (held self.now) }
        ensures { (line : List ℕ) → 32768 < length line → Differs names.now programs.now (held self.now) line }
    {
        let _ = names.count();
        read_programs(programs);
        read_values(&self.table);
    }

    /// What is said where no line follows those that were taken in, of which the last has this number.
    pub fn verdict(&self, names: &Names, number: u64) -> Verdict
        requires number { number < 2 ^ 64 - 1 }
        ensures { (opening : Tables) (programs : List Program) (before : ℕ) (lines : List (List ℕ)) → IsSound names.now programs (held self.now)
            → Stands names.now opening programs (held self.now) lines → number ≡ before + length lines → IsReportVerdict names.now opening programs before lines result }
    {
        if self.told > names.count() {
            return Verdict::Yes {
                commits: self.commits,
            };
        }
        Verdict::No { line: number + 1 }
    }
}
