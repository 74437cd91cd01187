// Lines of a number and of a table, appended to what is there.
ghost use Rattle.std.specs.Prelude.{◌≡◌, ◌++◌, OnOk};
ghost use Rattle.scc_replies.specs.Lines.{number_line, row_line};

use scc_text::{put_count, put_numbers};
use std::alloc::AllocError;

/// Appends a word, a number and a newline. After want of memory more or less of the line was appended.
pub fn put_number_line(out: &mut Vec<u8>, word: &[u8], number: u64) -> Result<(), AllocError>
    ensures { OnOk result (out.new.items ≡ out.old.items ++ number_line word.now number) }
{
    out.extend_from_slice(word)?;
    put_count(out, number)?;
    out.push(b'\n')?;
    Ok(())
}

/// Appends a table's name and its values, each behind a blank. After want of memory more or less of the line was appended.
pub fn put_row(out: &mut Vec<u8>, name: &[u8], values: &[i64]) -> Result<(), AllocError>
    ensures { OnOk result (out.new.items ≡ out.old.items ++ row_line name.now values.now) }
{
    out.extend_from_slice(name)?;
    put_numbers(out, values)?;
    out.push(b'\n')?;
    Ok(())
}
