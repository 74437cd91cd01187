// The lines of a report, appended to what is there.
ghost use Rattle.std.specs.Prelude.{◌≡◌, ◌++◌, ◌∷◌, [], List, length, OnOk};
ghost use Rattle.txn_runs.specs.declared.program.Program.{Program};
ghost use Rattle.txn_names.specs.Tables.{items_of};
ghost use Rattle.journal_core.specs.Journal.{commits, tables_after};
ghost use Rattle.journal_core.specs.Begins.{begins, commit_replies};
ghost use Rattle.report_text.specs.Report.{numbered, commit_lines, report};

use item_table::Table;
use journal_core::{Entry, Journal, put_reply};
use scc_replies::{put_end, put_finals};
use std::alloc::AllocError;
use txn_names::Names;

/// Appends the report of a journal, whose serial tables are given: its commits in the order of the journal, with the outcomes that
/// their programs have when they run alone in that order. After want of memory more or less of it was appended.
pub fn put_report(
    names: &Names,
    journal: &Journal,
    tables: &Table,
    out: &mut Vec<u8>,
) -> Result<(), AllocError>
    requires items { length tables.now ≡ items_of names.now }
    requires serial { tables.now ≡ tables_after journal.now.opening journal.now.entries }
    ensures { OnOk result ((programs : List Program) → begins journal.now.entries ≡ numbered 1 programs
        → out.new.items ≡ out.old.items ++ report names.now journal.now.opening programs (commits journal.now.entries)) }
{
    put_commits(journal, out)?;
    put_finals(names, tables, out)?;
    put_end(out, journal.commits())?;
    // a journal's commits have the outcomes of a serial run, since it is legal
    let _ = journal.len();
    Ok(())
}

// Appends the line of each commit, with the outcome that the journal has.
fn put_commits(journal: &Journal, out: &mut Vec<u8>) -> Result<(), AllocError>
    ensures { OnOk result (out.new.items ≡ out.old.items ++ commit_lines (commit_replies journal.now.entries)) }
{
    for place in 0..journal.len() {
        put_entry(journal.entry(place), out)?;
    }
    Ok(())
}

// Appends the line of an entry that is a commit, and else nothing.
fn put_entry(entry: &Entry, out: &mut Vec<u8>) -> Result<(), AllocError>
    ensures { OnOk result (out.new.items ≡ out.old.items ++ commit_lines (commit_replies (entry.now ∷ []))) }
{
    match entry {
        Entry::Committed { txn, outcome } => put_reply(*txn, outcome, out),
        _ => Ok(()),
    }
}
