// A wish is answered in its turn.
ghost use Rattle.std.specs.Prelude.{◌≡◌, ◌≤◌, ◌++◌, length, map, if◌then◌else◌, codes, OnOk};
ghost use Rattle.txn_runs.specs.Bounds.{reach};
ghost use Rattle.journal_core.specs.Journal.{committed_of};
ghost use Rattle.shadow_forest.specs.Listed.{happened, listed};
ghost use Rattle.line_server.specs.Answers.{begin_answer, withdraw_answer, ask_answer};
ghost use Rattle.line_server.specs.Wishes.{Fits, wish_answer, IsAddedOr};

use crate::wish::Wish;
use journal_core::put_reply;
use scc_replies::{put_number_line, put_refusal, put_row, put_unread};
use shadow_forest::{BeginRefusal, Forest, WithdrawRefusal};
use std::alloc::AllocError;
use txn_syntax::Program;

/// Answers a wish of a line: the reply is appended. After want of memory more or less of it was appended, and the entry that the line
/// adds, if it adds one, is in the journal or isn't.
pub fn answer_wish(
    forest: &mut Forest,
    line: &[u8],
    wish: Wish,
    out: &mut Vec<u8>,
) -> Result<(), AllocError>
    requires { Fits (length forest.old.numbers.opening) (length line.now) wish }
    ensures reply { OnOk result (out.new.items ≡ out.old.items ++ (wish_answer forest.old.numbers.opening forest.old.numbers.journal line.now wish).reply) }
    ensures list { OnOk result (listed forest.new ≡ listed forest.old ++ map happened (wish_answer forest.old.numbers.opening forest.old.numbers.journal line.now wish).adds) }
    ensures added { IsAddedOr (listed forest.old) (wish_answer forest.old.numbers.opening forest.old.numbers.journal line.now wish).adds (listed forest.new) }
{
    // that the tables are those of the journal, and as many as it opened with, comes with it
    let _ = forest.journal();
    match wish {
        Wish::Refusal { code } => put_refusal(out, code),
        Wish::Unread { refusal } => put_unread(out, refusal),
        Wish::Begin { deadline, program } => begin_in(forest, program, deadline, out),
        Wish::Ask { txn } => put_fate(forest, txn, out),
        Wish::Values { name, base, size } => {
            put_row(
                out,
                &line[name.from..name.to],
                forest.table().row(base, size),
            )
        }
        Wish::Withdraw { txn } => withdraw_in(forest, txn, out),
        Wish::Quit => out.extend_from_slice(b"bye\n"),
    }
}

// A transaction begins, where the forest takes it.
fn begin_in(
    forest: &mut Forest,
    program: Program,
    deadline: u64,
    out: &mut Vec<u8>,
) -> Result<(), AllocError>
    requires fits { reach program ≤ length forest.old.numbers.tables }
    requires deadline { deadline ≤ 1000000000000 }
    ensures reply { OnOk result (out.new.items ≡ out.old.items ++ (begin_answer forest.old.numbers.journal deadline program).reply) }
    ensures list { OnOk result (listed forest.new ≡ listed forest.old ++ map happened (begin_answer forest.old.numbers.journal deadline program).adds) }
    ensures added { IsAddedOr (listed forest.old) (begin_answer forest.old.numbers.journal deadline program).adds (listed forest.new) }
{
    match forest.begin(program, deadline) {
        Ok(txn) => put_number_line(out, b"begin ", txn as u64),
        Err(BeginRefusal::Sealed) => put_refusal(out, 24),
        Err(BeginRefusal::TooMany) => put_refusal(out, 23),
        Err(BeginRefusal::OutOfMemory) => Err(AllocError),
    }
}

// A transaction is withdrawn.
fn withdraw_in(forest: &mut Forest, txn: u32, out: &mut Vec<u8>) -> Result<(), AllocError>
    ensures reply { OnOk result (out.new.items ≡ out.old.items ++ (withdraw_answer forest.old.numbers.journal txn).reply) }
    ensures list { OnOk result (listed forest.new ≡ listed forest.old ++ map happened (withdraw_answer forest.old.numbers.journal txn).adds) }
    ensures added { IsAddedOr (listed forest.old) (withdraw_answer forest.old.numbers.journal txn).adds (listed forest.new) }
{
    match forest.withdraw(txn) {
        Ok(()) => put_number_line(out, b"withdraw ", txn as u64),
        Err(WithdrawRefusal::Unknown) => put_refusal(out, 25),
        Err(WithdrawRefusal::Sealed) => put_refusal(out, 24),
    }
}

// What became of a transaction.
fn put_fate(forest: &Forest, txn: u32, out: &mut Vec<u8>) -> Result<(), AllocError>
    ensures { OnOk result (out.new.items ≡ out.old.items ++ (ask_answer forest.now.numbers.journal txn).reply) }
{
    let journal = forest.journal();
    match journal.outcome_of(txn) {
        Some(outcome) => put_reply(txn, outcome, out),
        None => {
            let word = fate_word(journal.withdrawn(txn), journal.live(txn));
            put_number_line(out, word, txn as u64)
        }
    }
}

// How a transaction stands that wasn't committed.
fn fate_word(withdrawn: bool, live: bool) -> &'static [u8]
    ensures { result.now ≡ (if withdrawn then codes "withdrawn " else (if live then codes "pending " else codes "unknown ")) }
{
    if withdrawn {
        b"withdrawn "
    } else if live {
        b"pending "
    } else {
        b"unknown "
    }
}
