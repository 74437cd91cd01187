// What a line asks for, read before its turn, so that the turn is short.
ghost use Rattle.std.specs.Prelude.{◌≡◌, List, false, length, Ok, IfOk};
ghost use Rattle.txn_runs.specs.Run.{Tables};
ghost use Rattle.txn_names.specs.Tables.{items_of};
ghost use Rattle.scc_text.specs.declared.command.Command.TheVariants.{Begin};
ghost use Rattle.scc_text.specs.Command.{IsInRange, IsWithin};
ghost use Rattle.scc_setup.specs.Opening.{text_at};
ghost use Rattle.journal_core.specs.declared.entry.Entry.{Entry};
ghost use Rattle.line_server.specs.Answers.{is_blank, is_quit, table_answer};
ghost use Rattle.line_server.specs.Wishes.{Fits, IsWishOf, wish_answer, is_quit_wish};

use scc_text::{Command, Span, program_text};
use std::alloc::{AllocError, Global};
use txn_names::Names;
use txn_syntax::{Program, ReadRefusal, read_program};

/// What a line asks for.
#[derive(Drop)]
pub enum Wish {
    /// Nothing: it is refused by this number.
    Refusal { code: u8 },
    /// Nothing: its program is none.
    Unread { refusal: ReadRefusal },
    /// That a program begins.
    Begin { deadline: u64, program: Program },
    /// What became of a transaction.
    Ask { txn: u32 },
    /// The values of a table, whose name stands there in the line.
    Values { name: Span, base: u32, size: u32 },
    /// That a transaction is withdrawn.
    Withdraw { txn: u32 },
    /// That the session ends.
    Quit,
}

/// What a line asks for that spells this command, or is refused by a number. `AllocError` for want of memory.
pub fn wish_of(
    alloc: Global,
    names: &Names,
    line: &[u8],
    command: Result<Command, u8>,
) -> Result<Wish, AllocError>
    requires blank { is_blank command ≡ false }
    requires range { IfOk command (IsInRange (length line.now)) }
    ensures wish { IfOk result (IsWishOf names.now line.now command) }
    ensures fits { IfOk result (Fits (items_of names.now) (length line.now)) }
    ensures quit { IfOk result (λ wish. is_quit_wish wish ≡ is_quit command) }
{
    match command {
        Ok(command) => wish_by(alloc, names, line, command),
        Err(code) => Ok(Wish::Refusal { code }),
    }
}

// What a line with this command asks for.
fn wish_by(alloc: Global, names: &Names, line: &[u8], command: Command) -> Result<Wish, AllocError>
    requires blank { is_blank (Ok command) ≡ false }
    requires range { IsInRange (length line.now) command }
    ensures wish { IfOk result (IsWishOf names.now line.now (Ok command)) }
    ensures fits { IfOk result (Fits (items_of names.now) (length line.now)) }
    ensures quit { IfOk result (λ wish. is_quit_wish wish ≡ is_quit (Ok command)) }
{
    match command {
        Command::Begin {
            deadline,
            program_at,
        } => wish_to_begin(alloc, names, line, deadline, program_at),
        Command::Ask { txn } => Ok(Wish::Ask { txn }),
        Command::Dump { name } => Ok(wish_for_values(names, line, name)),
        Command::Withdraw { txn } => Ok(Wish::Withdraw { txn }),
        Command::Quit => Ok(Wish::Quit),
        _ => Ok(Wish::Refusal { code: 12 }),
    }
}

// A program is to begin, if the bytes are one.
fn wish_to_begin(
    alloc: Global,
    names: &Names,
    line: &[u8],
    deadline: u64,
    program_at: usize,
) -> Result<Wish, AllocError>
    requires { IsInRange (length line.now) (Begin deadline program_at) }
    ensures wish { IfOk result (IsWishOf names.now line.now (Ok (Begin deadline program_at))) }
    ensures fits { IfOk result (Fits (items_of names.now) (length line.now)) }
    ensures stays { IfOk result (λ wish. is_quit_wish wish ≡ false) }
{
    match read_program(alloc, names, program_text(line, program_at)) {
        Ok(program) => Ok(Wish::Begin { deadline, program }),
        Err(ReadRefusal::OutOfMemory) => Err(AllocError),
        Err(refusal) => Ok(Wish::Unread { refusal }),
    }
}

// The values of the table with this name, if there is one.
fn wish_for_values(names: &Names, line: &[u8], name: Span) -> Wish
    requires { IsWithin (length line.now) name }
    ensures wish { (opening : Tables) (journal : List Entry) → wish_answer opening journal line.now result ≡ table_answer names.now opening journal (text_at line.now name) }
    ensures fits { Fits (items_of names.now) (length line.now) result }
    ensures stays { is_quit_wish result ≡ false }
{
    match names.find(&line[name.from..name.to]) {
        Some(table) => Wish::Values {
            name,
            base: table.base,
            size: table.size,
        },
        None => Wish::Refusal { code: 22 },
    }
}
