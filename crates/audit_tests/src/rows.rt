// Rows as they are written.
ghost use Rattle.std.specs.Prelude.{◌≡◌};
ghost use Rattle.txn_spelling.specs.Strangers.{strangers};

use crate::opening::one_table;
use item_table::Table;
use journal_core::{Entry, Journal};
use journal_table::{put_record, write_journal};
use std::alloc::Global;
use std::test::Fail;
use txn_names::Names;
use txn_runs::Program;
use txn_spelling::read_programs;
use txn_syntax::read_program;

// Appends the row of the begin of a program of these names.
fn put_begin(names: &Names, program: Program, out: &mut Vec<u8>) -> Result<(), Fail>
    requires { strangers names.now program ≡ 0 }
{
    let entry = Entry::Began {
        txn: 7,
        deadline: 1_000_000_000_000,
        program,
    };
    put_record(names, &entry, out)?;
    Ok(())
}

// The same of the program that the bytes spell, or nothing.
fn put_text(alloc: Global, names: &Names, bytes: &[u8], out: &mut Vec<u8>) -> Result<(), Fail> {
    read_programs();
    match read_program(alloc, names, bytes) {
        Ok(program) => put_begin(names, program, out),
        Err(_) => Ok(()),
    }
}

#[test]
fn a_row_has_no_newline(rt: HostRuntime) -> Result<(), Fail> {
    let alloc = rt.alloc();
    let names = one_table(alloc)?;
    let mut out = Vec::from_slice(alloc, b"> ")?;
    put_text(alloc, &names, b"{r0=a[0];emit r0;}", &mut out)?;
    assert!(rt; out.as_slice() == b"> began,7,1000000000000,{ r0 = a[0]; emit r0; }".as_slice());
    Ok(())
}

#[test]
fn a_journal_begins_with_its_heading(rt: HostRuntime) -> Result<(), Fail> {
    let alloc = rt.alloc();
    let names = one_table(alloc)?;
    let mut journal = Journal::new(alloc, Table::new(alloc, 4)?);
    journal.reserve(1)?;
    journal.push_reserved(Entry::Sealed);
    let mut out = Vec::from_slice(alloc, b"> ")?;
    write_journal(&names, &journal, &mut out)?;
    assert!(rt; out.as_slice() == b"> entry,txn,deadline,detail\nsealed,,,\n".as_slice());
    Ok(())
}
