// The tables and programs so far, line by line.
ghost use Rattle.std.specs.Prelude.{◌≡◌, ◌≤◌, length, Ok, IfErr, IfOk, OnOk, OnErr};
ghost use Rattle.std.specs.List.{All};
ghost use Rattle.txn_runs.specs.Bounds.{reach};
ghost use Rattle.txn_names.specs.Tables.{items_of};
ghost use Rattle.txn_syntax.specs.Reads.{read_of};
ghost use Rattle.scc_text.specs.Command.{IsInRange};
ghost use Rattle.scc_text.specs.declared.command.Dialect.TheVariants as dialects;
ghost use Rattle.scc_setup.specs.Opening.{IsOpening, IsSetting};
ghost use Rattle.batch_input.specs.Input.{no_batch, after_setting, after_begin, after_command, after_line, unread_code};
ghost use Rattle.batch_input.specs.Taking.{IsCodeOf, IsFit, IsReason};

use crate::Request;
use item_table::Table;
use scc_setup::{Setup, SetupRefusal};
use scc_text::{Command, Dialect, program_text, read_command};
use std::alloc::{AllocError, Global};
use std::marker::Model;
use txn_names::Names;
use txn_syntax::{Program, ReadRefusal, read_program};

/// Why a line of a batch isn't taken in.
#[derive(Clone, Copy, Debug, PartialEq, Eq)]
pub enum LineRefusal {
    /// The number of the refusal (docs/FORMATS.md, "Refusals").
    Code(u8),
    /// Memory ran out.
    OutOfMemory,
}

/// The tables and programs that the lines of a batch have made so far.
#[derive(Drop)]
pub struct BatchInput {
    alloc: Global,
    setup: Setup,
    requests: Vec<Request>,
}

impl Model for BatchInput {
    ghost use Rattle.std.specs.Prelude.{length, ◌≤◌};
    ghost use Rattle.std.specs.List.{All};
    ghost use Rattle.std.specs.Coded.{codes};
    ghost use Rattle.batch_input.specs.contracts.request.Request as request;
    ghost use Rattle.batch_input.specs.Input.{Batch};
    ghost use Rattle.batch_input.specs.Taking.{IsFit};

    ghost Value = { Batch };

    ghost coded = { Prim.hlevel (codes, request.the_row.coded) };

    ghost view = { λ b. record { opening = b.setup; requests = b.requests.items } };

    ghost invariant = { λ b. (length b.requests.items ≤ 20000) × All (IsFit b.setup.names) b.requests.items };
}

impl BatchInput {
    /// Before the first line. Where memory runs out, `AllocError`.
    pub fn new(alloc: Global) -> Result<BatchInput, AllocError>
        ensures { IfOk result (λ batch. batch ≡ no_batch) }
    {
        Ok(BatchInput {
            alloc,
            setup: Setup::new(alloc)?,
            requests: Vec::new(alloc),
        })
    }

    /// Takes in a line of at most 8,192 bytes. `Code` is the number by which the line is refused, `OutOfMemory` tells want of
    /// memory; after both all is as before.
    #[tactic(auto, unfolding(crate::specs::Input::after_line))]
    pub fn accept(&mut self, line: &[u8]) -> Result<(), LineRefusal>
        requires { length line.now ≤ 8192 }
        ensures accepted { OnOk result (after_line self.old line.now ≡ Ok self.new) }
        ensures refused { IfErr result (λ refusal. IsReason refusal (after_line self.old line.now)) }
        ensures kept { OnErr result (self.new ≡ self.old) }
    {
        match read_command(Dialect::Batch, line) {
            Ok(command) => self.accept_command(line, command),
            Err(code) => Err(LineRefusal::Code(code)),
        }
    }

    /// Takes in the command that a line of at most 8,192 bytes spells, with the same answers: `Code` is 12 for every command but
    /// `table`, `put` and `begin`.
    pub fn accept_command(&mut self, line: &[u8], command: Command) -> Result<(), LineRefusal>
        requires { IsInRange (length line.now) command }
        ensures accepted { OnOk result (after_command self.old line.now (Ok command) ≡ Ok self.new) }
        ensures refused { IfErr result (λ refusal. IsReason refusal (after_command self.old line.now (Ok command))) }
        ensures kept { OnErr result (self.new ≡ self.old) }
    {
        match command {
            Command::Blank => Ok(()),
            Command::Table { .. } | Command::Put { .. } => self.set(line, &command),
            Command::Begin {
                deadline,
                program_at,
            } => self.begin(deadline, program_text(line, program_at)),
            _ => Err(LineRefusal::Code(12)),
        }
    }

    // A `table` or `put` line.
    fn set(&mut self, line: &[u8], command: &Command) -> Result<(), LineRefusal>
        requires { IsSetting (length line.now) command.now }
        ensures accepted { OnOk result (after_setting self.old line.now command.now ≡ Ok self.new) }
        ensures refused { IfErr result (λ refusal. IsReason refusal (after_setting self.old line.now command.now)) }
        ensures kept { OnErr result (self.new ≡ self.old) }
    {
        if !self.requests.is_empty() {
            return Err(LineRefusal::Code(21));
        }
        match self.setup.accept(line, command) {
            Ok(()) => Ok(()),
            Err(SetupRefusal::Code(code)) => Err(LineRefusal::Code(code)),
            Err(SetupRefusal::OutOfMemory) => Err(LineRefusal::OutOfMemory),
        }
    }

    fn begin(&mut self, deadline: u64, bytes: &[u8]) -> Result<(), LineRefusal>
        requires { deadline ≤ 1000000000000 }
        ensures accepted { OnOk result (after_begin self.old deadline (read_of self.old.opening.names bytes.now) ≡ Ok self.new) }
        ensures refused { IfErr result (λ refusal. IsReason refusal (after_begin self.old deadline (read_of self.old.opening.names bytes.now))) }
        ensures kept { OnErr result (self.new ≡ self.old) }
    {
        match read_program(self.alloc, self.setup.names(), bytes) {
            Ok(program) => self.push(deadline, program),
            Err(refusal) => Err(code_of(refusal)),
        }
    }

    fn push(&mut self, deadline: u64, program: Program) -> Result<(), LineRefusal>
        requires fits { reach program ≤ items_of self.old.opening.names }
        requires deadline { deadline ≤ 1000000000000 }
        ensures accepted { OnOk result (after_begin self.old deadline (Ok program) ≡ Ok self.new) }
        ensures refused { IfErr result (λ refusal. IsReason refusal (after_begin self.old deadline (Ok program))) }
        ensures kept { OnErr result (self.new ≡ self.old) }
    {
        if self.requests.len() >= 20_000 {
            return Err(LineRefusal::Code(23));
        }
        match self.requests.push(Request { deadline, program }) {
            Ok(()) => Ok(()),
            Err(_) => Err(LineRefusal::OutOfMemory),
        }
    }

    /// The tables' names, the value of each item, and the programs in the order of their lines.
    pub fn into_parts(self) -> (Names, Table, Vec<Request>)
        ensures names { result.0 ≡ self.opening.names }
        ensures values { result.1 ≡ self.opening.tables }
        ensures requests { result.2.items ≡ self.requests }
        ensures opening { IsOpening result.0 result.1 }
        ensures fit { All (IsFit result.0) result.2.items }
        ensures few { length result.2.items ≤ 20000 }
    {
        let (names, table) = self.setup.into_parts();
        (names, table, self.requests)
    }
}

// The number of the refusal of bytes that are no program.
fn code_of(refusal: ReadRefusal) -> LineRefusal
    ensures { IsCodeOf result refusal }
{
    match refusal {
        ReadRefusal::Syntax { .. } => LineRefusal::Code(14),
        ReadRefusal::UnknownTable { .. } => LineRefusal::Code(16),
        ReadRefusal::Limit { .. } => LineRefusal::Code(15),
        ReadRefusal::OutOfMemory => LineRefusal::OutOfMemory,
    }
}
