// The replies to `table` and `put` lines that were accepted.
ghost use Rattle.std.specs.Prelude.{◌≡◌, ◌++◌, length, OnOk};
ghost use Rattle.scc_setup.specs.Opening.{IsSetting};
ghost use Rattle.scc_setup.specs.Settings.{table_line, put_line, setting_line};

use scc_replies::put_number_line;
use scc_text::{Command, put_count, put_number};
use std::alloc::AllocError;

/// Appends the reply to a `table` or `put` command of a line. After want of memory more or less of it was appended.
pub fn put_setting(out: &mut Vec<u8>, line: &[u8], command: &Command) -> Result<(), AllocError>
    requires { IsSetting (length line.now) command.now }
    ensures { OnOk result (out.new.items ≡ out.old.items ++ setting_line line.now command.now) }
{
    match *command {
        Command::Table { name, size } => put_table(out, &line[name.from..name.to], size),
        Command::Put { name, index, value } => {
            put_value(out, &line[name.from..name.to], index, value)
        }
        _ => Ok(()),
    }
}

fn put_table(out: &mut Vec<u8>, name: &[u8], size: u32) -> Result<(), AllocError>
    ensures { OnOk result (out.new.items ≡ out.old.items ++ table_line name.now size) }
{
    out.extend_from_slice(b"table ")?;
    out.extend_from_slice(name)?;
    put_number_line(out, b" ", size as u64)
}

fn put_value(out: &mut Vec<u8>, name: &[u8], index: u32, value: i64) -> Result<(), AllocError>
    ensures { OnOk result (out.new.items ≡ out.old.items ++ put_line name.now index value) }
{
    out.extend_from_slice(b"put ")?;
    out.extend_from_slice(name)?;
    out.push(b' ')?;
    put_count(out, index as u64)?;
    out.push(b' ')?;
    put_number(out, value)?;
    out.push(b'\n')?;
    Ok(())
}
