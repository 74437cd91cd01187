// The lines that end a run over tables.
ghost use Rattle.std.specs.Prelude.{◌≡◌, ◌++◌, length, OnOk};
ghost use Rattle.txn_names.specs.Tables.{items_of};
ghost use Rattle.scc_replies.specs.Lines.{final_line, end_line};
ghost use Rattle.scc_replies.specs.Finals.{final_lines};

use crate::lines::{put_number_line, put_row};
use item_table::Table;
use std::alloc::AllocError;
use txn_names::Names;

/// Appends a line with the last values of each table, in the order of the names, which have as many items as there are values. After
/// want of memory more or less of the lines was appended.
pub fn put_finals(names: &Names, tables: &Table, out: &mut Vec<u8>) -> Result<(), AllocError>
    requires { length tables.now ≡ items_of names.now }
    ensures { OnOk result (out.new.items ≡ out.old.items ++ final_lines tables.now 0 names.now) }
{
    for number in 0..names.count() {
        let table = names.table(number);
        put_final(out, names.name(number), tables.row(table.base, table.size))?;
    }
    Ok(())
}

// The line of a table's last values.
fn put_final(out: &mut Vec<u8>, name: &[u8], values: &[i64]) -> Result<(), AllocError>
    ensures { OnOk result (out.new.items ≡ out.old.items ++ final_line name.now values.now) }
{
    out.extend_from_slice(b"final ")?;
    put_row(out, name, values)
}

/// Appends the line with the number of commits, the last of a run. After want of memory more or less of it was appended.
pub fn put_end(out: &mut Vec<u8>, commits: u32) -> Result<(), AllocError>
    ensures { OnOk result (out.new.items ≡ out.old.items ++ end_line commits) }
{
    put_number_line(out, b"end ", commits as u64)
}
