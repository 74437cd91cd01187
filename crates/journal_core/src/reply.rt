// The commit line.
ghost use Rattle.std.specs.Prelude.{◌≡◌, ◌++◌, length, take, OnOk, OnErr};
ghost use Rattle.journal_core.specs.Reply.{commit_line, outcome_words, fault_word as fault_word_of};

use itoa::Buffer;
use scc_text::{put_number, put_numbers};
use std::alloc::AllocError;
use txn_runs::{FaultKind, Outcome};

/// Appends the line that says that a transaction was committed, and how its run ended: `commit T done E1 E2 ..`,
/// `commit T failed CODE` or `commit T fault KIND`, and a newline. After want of memory `out` is as before.
pub fn put_reply(txn: u32, outcome: &Outcome, out: &mut Vec<u8>) -> Result<(), AllocError>
    ensures ok { OnOk result (out.new.items ≡ out.old.items ++ commit_line txn outcome.now) }
    ensures err { OnErr result (out.new.items ≡ out.old.items) }
{
    let before = out.len();
    if put_line(txn, outcome, out).is_err() {
        out.truncate(before);
        return Err(AllocError);
    }
    Ok(())
}

fn put_line(txn: u32, outcome: &Outcome, out: &mut Vec<u8>) -> Result<(), AllocError>
    ensures ok { OnOk result (out.new.items ≡ out.old.items ++ commit_line txn outcome.now) }
    ensures keeps { take (length out.old.items) out.new.items ≡ out.old.items }
{
    out.extend_from_slice(b"commit ")?;
    out.extend_from_slice(Buffer::new().format(txn).as_bytes())?;
    out.extend_from_slice(b" ")?;
    put_outcome(outcome, out)?;
    out.extend_from_slice(b"\n")
}

fn put_outcome(outcome: &Outcome, out: &mut Vec<u8>) -> Result<(), AllocError>
    ensures ok { OnOk result (out.new.items ≡ out.old.items ++ outcome_words outcome.now) }
    ensures keeps { take (length out.old.items) out.new.items ≡ out.old.items }
{
    match outcome {
        Outcome::Done { emits } => {
            out.extend_from_slice(b"done")?;
            put_numbers(out, emits.as_slice())
        }
        Outcome::Failed { code } => {
            out.extend_from_slice(b"failed ")?;
            put_number(out, *code)
        }
        Outcome::Fault { kind } => {
            out.extend_from_slice(b"fault ")?;
            out.extend_from_slice(fault_word(*kind))
        }
    }
}

fn fault_word(kind: FaultKind) -> &'static [u8]
    ensures { result.now ≡ fault_word_of kind }
{
    match kind {
        FaultKind::Overflow => b"overflow",
        FaultKind::Zero => b"zero",
        FaultKind::Range => b"range",
    }
}
