// The state of a script, and its answers to lines.
ghost use Rattle.std.specs.Prelude.{◌≡◌, ◌≤◌, ◌<◌, ◌+◌, ◌++◌, length, IfOk, OnOk};
ghost use Rattle.txn_runs.specs.Bounds.{reach};
ghost use Rattle.txn_names.specs.Tables.{items_of};
ghost use Rattle.txn_syntax.specs.Reads.{read_of};
ghost use Rattle.txn_spelling.specs.Strangers.{strangers};
ghost use Rattle.journal_core.specs.Journal.{commits};
ghost use Rattle.forest_model.specs.Events.{begin as begin_of};
ghost use Rattle.scc_text.specs.Command.{IsInRange};
ghost use Rattle.shadow_forest.specs.View.{opened_view};
ghost use Rattle.scc_setup.specs.Opening.{IsSetting};
ghost use Rattle.scc_script.specs.Text as spec;
ghost use Rattle.scc_script.specs.Text.{opening_script, setting_answer, begin_answer, begun_answer, seal_answer, step_answer, run_answer, commit_answer, withdraw_answer, drain_answer, show_answer, dump_answer, journal_answer, command_answer, end_lines};

use crate::events::{begin_in, commit_in, drain_in, run_in, show_in, step_in, withdraw_in};
use block_rule::Role;
use item_table::Table;
use journal_core::Journal;
use journal_table::write_journal;
use line_loop::{Flow, Machine};
use scc_replies::{put_end, put_finals, put_number_line, put_refusal, put_row, put_unread};
use scc_setup::{Setup, SetupRefusal, put_setting};
use scc_text::{Command, Dialect, program_text, read_command};
use shadow_forest::Forest;
use std::alloc::{AllocError, Global};
use std::marker::Model;
use std::sync::ledger::Ledger;
use step_count::Steps;
use txn_syntax::{Program, read_program};

/// A script under way: its tables as they were before the forest was opened, and its forest from the first accepted `begin` or
/// `seal` on.
#[derive(Drop)]
pub struct ScriptState {
    alloc: Global,
    k: u32,
    lanes: u32,
    setup: Setup,
    forest: Option<Forest>,
}

impl Model for ScriptState {
    ghost use Rattle.std.specs.Prelude.{is_some};
    ghost use Rattle.std.specs.Coded.{codes};
    ghost use Rattle.journal_core.specs.contracts.entry.Entry as entry;
    ghost use Rattle.scc_script.specs.Text.{Script};
    ghost use Rattle.scc_script.specs.Kept.{forest_in, IsKept};

    ghost Value = { Script };

    ghost coded = { Prim.hlevel (codes, entry.the_row.coded) };

    ghost view = { λ s. record { names = s.setup.names; is_open = is_some s.forest; forest = forest_in s.k s.lanes s.setup.tables s.forest } };

    ghost invariant = { λ s. IsKept s.k s.lanes s.setup.names (forest_in s.k s.lanes s.setup.tables s.forest) };
}

impl ScriptState {
    /// A script before its first line, for at most `k` shadows a transaction, 1 to 8, and at most `lanes` started transactions, 1
    /// to 64. Where memory runs out, `AllocError`.
    pub fn new(alloc: Global, k: u32, lanes: u32) -> Result<ScriptState, AllocError>
        requires least { 1 ≤ k }
        requires most { k ≤ 8 }
        requires some { 1 ≤ lanes }
        requires many { lanes ≤ 64 }
        ensures { IfOk result (λ s. s ≡ opening_script k lanes) }
    {
        let setup = Setup::new(alloc)?;
        Ok(ScriptState {
            alloc,
            k,
            lanes,
            setup,
            forest: None,
        })
    }

    /// Answers a line of at most 8,192 bytes of a dialect: the reply is appended, and each step ticks. After want of memory more or
    /// less of the reply was appended, and the script is not to be used further.
    #[tactic(auto, unfolding(crate::specs::Text::answer))]
    pub fn answer_line<L: Ledger>(
        &mut self,
        dialect: Dialect,
        line: &[u8],
        out: &mut Vec<u8>,
        steps: &mut Steps<L>,
    ) -> Result<(), AllocError>
        requires { length line.now ≤ 8192 }
        ensures next { OnOk result (self.new ≡ (spec.answer dialect self.old line.now).next) }
        ensures reply { OnOk result (out.new.items ≡ out.old.items ++ (spec.answer dialect self.old line.now).reply) }
        ensures ticks { OnOk result (steps.new ≡ steps.old + (spec.answer dialect self.old line.now).ticks) }
        ensures most { (steps.old ≤ steps.new) × (steps.new ≤ steps.old + (spec.answer dialect self.old line.now).ticks) }
    {
        match read_command(dialect, line) {
            Ok(command) => self.answer_command(line, command, out, steps),
            Err(code) => put_refusal(out, code),
        }
    }

    fn answer_command<L: Ledger>(
        &mut self,
        line: &[u8],
        command: Command,
        out: &mut Vec<u8>,
        steps: &mut Steps<L>,
    ) -> Result<(), AllocError>
        requires { IsInRange (length line.now) command }
        ensures next { OnOk result (self.new ≡ (command_answer self.old line.now command).next) }
        ensures reply { OnOk result (out.new.items ≡ out.old.items ++ (command_answer self.old line.now command).reply) }
        ensures ticks { OnOk result (steps.new ≡ steps.old + (command_answer self.old line.now command).ticks) }
        ensures most { (steps.old ≤ steps.new) × (steps.new ≤ steps.old + (command_answer self.old line.now command).ticks) }
    {
        match command {
            Command::Blank => Ok(()),
            Command::Table { .. } | Command::Put { .. } => self.set(line, &command, out),
            Command::Begin {
                deadline,
                program_at,
            } => self.begin(deadline, program_text(line, program_at), out),
            Command::Step { txn, guard } => self.step(txn, role_of(guard), out, steps),
            Command::Run => self.run(out, steps),
            Command::Commit { txn } => self.commit(txn, out),
            Command::Withdraw { txn } => self.withdraw(txn, out),
            Command::Show { txn } => self.show(txn, out),
            Command::Dump { name } => self.dump(&line[name.from..name.to], out),
            Command::Seal => self.seal(out),
            Command::Drain => self.drain(out, steps),
            Command::Journal => self.journal(out),
            Command::Report | Command::Ask { .. } | Command::Quit => put_refusal(out, 12),
        }
    }

    // A `table` or `put` line.
    fn set(&mut self, line: &[u8], command: &Command, out: &mut Vec<u8>) -> Result<(), AllocError>
        requires { IsSetting (length line.now) command.now }
        ensures next { OnOk result (self.new ≡ (setting_answer self.old line.now command.now).next) }
        ensures reply { OnOk result (out.new.items ≡ out.old.items ++ (setting_answer self.old line.now command.now).reply) }
        ensures ticks { (setting_answer self.old line.now command.now).ticks ≡ 0 }
    {
        if self.forest.is_some() {
            return put_refusal(out, 21);
        }
        match self.setup.accept(line, command) {
            Ok(()) => put_setting(out, line, command),
            Err(SetupRefusal::Code(code)) => put_refusal(out, code),
            Err(SetupRefusal::OutOfMemory) => Err(AllocError),
        }
    }

    fn begin(&mut self, deadline: u64, bytes: &[u8], out: &mut Vec<u8>) -> Result<(), AllocError>
        requires { deadline ≤ 1000000000000 }
        ensures next { OnOk result (self.new ≡ (begin_answer self.old deadline (read_of self.old.names bytes.now)).next) }
        ensures reply { OnOk result (out.new.items ≡ out.old.items ++ (begin_answer self.old deadline (read_of self.old.names bytes.now)).reply) }
        ensures ticks { (begin_answer self.old deadline (read_of self.old.names bytes.now)).ticks ≡ 0 }
    {
        match read_program(self.alloc, self.setup.names(), bytes) {
            Ok(program) => self.begin_program(program, deadline, out),
            Err(refusal) => put_unread(out, refusal),
        }
    }

    fn begin_program(
        &mut self,
        program: Program,
        deadline: u64,
        out: &mut Vec<u8>,
    ) -> Result<(), AllocError>
        requires fits { reach program ≤ items_of self.old.names }
        requires known { strangers self.old.names program ≡ 0 }
        requires deadline { deadline ≤ 1000000000000 }
        ensures next { OnOk result (self.new ≡ (begun_answer self.old (begin_of self.old.forest program deadline)).next) }
        ensures reply { OnOk result (out.new.items ≡ out.old.items ++ (begun_answer self.old (begin_of self.old.forest program deadline)).reply) }
    {
        match &mut self.forest {
            Some(forest) => begin_in(forest, program, deadline, out),
            None => {
                let mut forest = open_forest(self.alloc, &self.setup, self.k, self.lanes)?;
                begin_in(&mut forest, program, deadline, out)?;
                self.forest = Some(forest);
                Ok(())
            }
        }
    }

    fn seal(&mut self, out: &mut Vec<u8>) -> Result<(), AllocError>
        ensures next { OnOk result (self.new ≡ (seal_answer self.old).next) }
        ensures reply { OnOk result (out.new.items ≡ out.old.items ++ (seal_answer self.old).reply) }
    {
        match &mut self.forest {
            Some(forest) => forest.seal(),
            None => {
                let mut forest = open_forest(self.alloc, &self.setup, self.k, self.lanes)?;
                forest.seal();
                self.forest = Some(forest);
            }
        }
        out.extend_from_slice(b"seal\n")
    }

    fn step<L: Ledger>(
        &mut self,
        txn: u32,
        role: Role,
        out: &mut Vec<u8>,
        steps: &mut Steps<L>,
    ) -> Result<(), AllocError>
        ensures next { OnOk result (self.new ≡ (step_answer self.old txn role).next) }
        ensures reply { OnOk result (out.new.items ≡ out.old.items ++ (step_answer self.old txn role).reply) }
        ensures ticks { steps.new ≡ steps.old + (step_answer self.old txn role).ticks }
    {
        match &mut self.forest {
            Some(forest) => step_in(forest, txn, role, out, steps),
            None => put_refusal(out, 25),
        }
    }

    fn run<L: Ledger>(&mut self, out: &mut Vec<u8>, steps: &mut Steps<L>) -> Result<(), AllocError>
        ensures next { OnOk result (self.new ≡ (run_answer self.old).next) }
        ensures reply { OnOk result (out.new.items ≡ out.old.items ++ (run_answer self.old).reply) }
        ensures ticks { steps.new ≡ steps.old + (run_answer self.old).ticks }
    {
        match &mut self.forest {
            Some(forest) => run_in(forest, out, steps),
            None => put_number_line(out, b"run ", 0),
        }
    }

    fn commit(&mut self, txn: u32, out: &mut Vec<u8>) -> Result<(), AllocError>
        ensures next { OnOk result (self.new ≡ (commit_answer self.old txn).next) }
        ensures reply { OnOk result (out.new.items ≡ out.old.items ++ (commit_answer self.old txn).reply) }
    {
        match &mut self.forest {
            Some(forest) => commit_in(forest, txn, out),
            None => put_refusal(out, 25),
        }
    }

    fn withdraw(&mut self, txn: u32, out: &mut Vec<u8>) -> Result<(), AllocError>
        ensures next { OnOk result (self.new ≡ (withdraw_answer self.old txn).next) }
        ensures reply { OnOk result (out.new.items ≡ out.old.items ++ (withdraw_answer self.old txn).reply) }
    {
        match &mut self.forest {
            Some(forest) => withdraw_in(forest, txn, out),
            None => put_refusal(out, 25),
        }
    }

    fn drain<L: Ledger>(
        &mut self,
        out: &mut Vec<u8>,
        steps: &mut Steps<L>,
    ) -> Result<(), AllocError>
        ensures next { OnOk result (self.new ≡ (drain_answer self.old).next) }
        ensures reply { OnOk result (out.new.items ≡ out.old.items ++ (drain_answer self.old).reply) }
        ensures ticks { OnOk result (steps.new ≡ steps.old + (drain_answer self.old).ticks) }
        ensures most { (steps.old ≤ steps.new) × (steps.new ≤ steps.old + (drain_answer self.old).ticks) }
    {
        match &mut self.forest {
            Some(forest) => drain_in(forest, out, steps),
            None => put_number_line(out, b"drain ", 0),
        }
    }

    fn show(&self, txn: u32, out: &mut Vec<u8>) -> Result<(), AllocError>
        ensures { OnOk result (out.new.items ≡ out.old.items ++ (show_answer self.now txn).reply) }
    {
        match &self.forest {
            Some(forest) => show_in(forest, self.setup.names(), txn, out),
            None => put_refusal(out, 25),
        }
    }

    fn dump(&self, name: &[u8], out: &mut Vec<u8>) -> Result<(), AllocError>
        ensures { OnOk result (out.new.items ≡ out.old.items ++ (dump_answer self.now name.now).reply) }
    {
        let Some(table) = self.setup.names().find(name) else {
            return put_refusal(out, 22);
        };
        put_row(out, name, self.tables().row(table.base, table.size))
    }

    fn journal(&self, out: &mut Vec<u8>) -> Result<(), AllocError>
        ensures { OnOk result (out.new.items ≡ out.old.items ++ (journal_answer self.now).reply) }
    {
        let names = self.setup.names();
        match &self.forest {
            Some(forest) => write_journal(names, forest.journal(), out),
            None => {
                let empty = Journal::new(self.alloc, Table::new(self.alloc, 0)?);
                write_journal(names, &empty, out)
            }
        }
    }

    // The present tables.
    fn tables(&self) -> &Table
        ensures values { result.now ≡ self.now.forest.tables }
        ensures items { length result.now ≡ items_of self.now.names }
    {
        match &self.forest {
            Some(forest) => forest.table(),
            None => self.setup.table(),
        }
    }

    // How many transactions were committed.
    fn commits(&self) -> u32
        ensures { result ≡ length (commits self.now.forest.journal) }
    {
        match &self.forest {
            Some(forest) => forest.journal().commits(),
            None => 0,
        }
    }

    /// Appends the lines at the end of the input, or, after want of memory, more or less of them.
    #[tactic(auto, unfolding(crate::specs::Text::end_lines))]
    pub fn put_end(&self, out: &mut Vec<u8>) -> Result<(), AllocError>
        ensures { OnOk result (out.new.items ≡ out.old.items ++ end_lines self.now) }
    {
        put_finals(self.setup.names(), self.tables(), out)?;
        put_end(out, self.commits())
    }
}

// Without a guard the optimistic shadow is meant.
fn role_of(guard: Option<u32>) -> Role
    ensures { result ≡ spec.role_of guard }
{
    match guard {
        Some(guard) => Role::Guard(guard),
        None => Role::Optimistic,
    }
}

// A forest over the tables as they were put.
fn open_forest(alloc: Global, setup: &Setup, k: u32, lanes: u32) -> Result<Forest, AllocError>
    requires least { 1 ≤ k }
    requires most { k ≤ 8 }
    requires some { 1 ≤ lanes }
    requires many { lanes ≤ 64 }
    ensures { IfOk result (λ f. f ≡ opened_view setup.now.tables k lanes) }
{
    Forest::open(alloc, setup.table().copy()?, k, lanes)
}

impl Machine for ScriptState {
    ghost use Rattle.line_loop.specs.Meaning.{behaviour_of};
    ghost use Rattle.scc_text.specs.declared.command.Dialect.TheVariants as dialects;
    ghost use Rattle.scc_script.specs.Text.{meaning};

    ghost most = { 8192 };

    ghost answers = { (behaviour_of (meaning dialects.Script)).answers };

    ghost works = { (behaviour_of (meaning dialects.Script)).works };

    ghost fails = { (behaviour_of (meaning dialects.Script)).fails };

    ghost ends = { (behaviour_of (meaning dialects.Script)).ends };

    fn answer<L: Ledger>(
        &mut self,
        line: &[u8],
        out: &mut Vec<u8>,
        steps: &mut Steps<L>,
    ) -> Result<Flow, AllocError> {
        self.answer_line(Dialect::Script, line, out, steps)?;
        Ok(Flow::GoOn)
    }

    #[tactic(auto, using(crate::proofs::Long::too_long))]
    fn answer_too_long(&mut self, out: &mut Vec<u8>) -> Result<Flow, AllocError> {
        put_refusal(out, 11)?;
        Ok(Flow::GoOn)
    }

    fn work<L: Ledger>(&mut self, _steps: &mut Steps<L>) {}

    fn finish(&self, out: &mut Vec<u8>) -> Result<(), AllocError> {
        self.put_end(out)
    }
}
