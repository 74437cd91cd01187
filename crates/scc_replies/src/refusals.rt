// The lines of refusals.
ghost use Rattle.std.specs.Prelude.{◌≡◌, ◌≢◌, ◌++◌, OnOk};
ghost use Rattle.scc_replies.specs.Lines.{refuse_line};
ghost use Rattle.scc_replies.specs.Unread.{refuse_at_line, refuse_limit_line, limit_word, unread_line};

use crate::lines::put_number_line;
use scc_text::put_count;
use std::alloc::AllocError;
use txn_syntax::{ReadRefusal, Which};

/// Appends the line of a refusal by its number. After want of memory more or less of it was appended.
pub fn put_refusal(out: &mut Vec<u8>, code: u8) -> Result<(), AllocError>
    ensures { OnOk result (out.new.items ≡ out.old.items ++ refuse_line code) }
{
    put_number_line(out, b"refuse ", code as u64)
}

/// Appends the line of a refusal of program bytes: 14 or 16 with the place in them, or 15 with the limit that they break. Want of
/// memory has no line: it is handed on. After it more or less of a line was appended.
pub fn put_unread(out: &mut Vec<u8>, refusal: ReadRefusal) -> Result<(), AllocError>
    ensures line { OnOk result (out.new.items ≡ out.old.items ++ unread_line refusal) }
    ensures memory { OnOk result (refusal ≢ ReadRefusal.OutOfMemory) }
{
    match refusal {
        ReadRefusal::Syntax { at } => put_refusal_at(out, 14, at),
        ReadRefusal::UnknownTable { at } => put_refusal_at(out, 16, at),
        ReadRefusal::Limit { which } => put_limit(out, which),
        ReadRefusal::OutOfMemory => Err(AllocError),
    }
}

// A refusal with a place in a program's text.
fn put_refusal_at(out: &mut Vec<u8>, code: u8, at: usize) -> Result<(), AllocError>
    ensures { OnOk result (out.new.items ≡ out.old.items ++ refuse_at_line code at) }
{
    out.extend_from_slice(b"refuse ")?;
    put_count(out, code as u64)?;
    put_number_line(out, b" ", at as u64)
}

// A limit that a program breaks.
fn put_limit(out: &mut Vec<u8>, which: Which) -> Result<(), AllocError>
    ensures { OnOk result (out.new.items ≡ out.old.items ++ refuse_limit_line which) }
{
    out.extend_from_slice(b"refuse 15 ")?;
    out.extend_from_slice(word_of(which))?;
    out.push(b'\n')?;
    Ok(())
}

fn word_of(which: Which) -> &'static [u8]
    ensures { result.now ≡ limit_word which }
{
    match which {
        Which::Literal => b"literal",
        Which::Loops => b"loops",
        Which::Statements => b"statements",
        Which::Depth => b"depth",
        Which::Steps => b"steps",
        Which::Emits => b"emits",
    }
}
