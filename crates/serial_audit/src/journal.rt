// The audit of a journal.
ghost use Rattle.std.specs.Prelude.{◌≡◌, ◌≤◌, length, IfOk};
ghost use Rattle.txn_names.specs.Tables.{items_of};
ghost use Rattle.journal_table.specs.Spelled.{rows_in};
ghost use Rattle.serial_audit.specs.Tables.{IsTableVerdict};

use csv::ByteRecord;
use item_table::Table;
use journal_table::{Replay, is_heading, next_row, open_rows};
use report_check::Verdict;
use std::alloc::{AllocError, Global};
use std::sync::ledger::Ledger;
use step_count::Steps;
use txn_names::Names;

/// Audits a journal that these bytes are as `csv` reads them, and that opens with these tables, whose names have as many items.
///
/// `Yes`: they are the heading and a row for each entry of a legal journal, whose commits are counted. `No`: this row, the heading being
/// the first, is the first that no legal journal has behind those before it; 1 where there is no row. Each commit's program is run
/// once. Where memory runs out, `AllocError`.
pub fn audit_journal<L: Ledger>(
    alloc: Global,
    names: &Names,
    table: Table,
    bytes: &[u8],
    steps: &mut Steps<L>,
) -> Result<Verdict, AllocError>
    requires { items_of names.now ≡ length table }
    ensures verdict { IfOk result (λ verdict. IsTableVerdict names.now table (rows_in bytes.now) verdict) }
    ensures later { steps.old ≤ steps.new }
{
    let mut replay = Replay::open(alloc, table)?;
    let mut reader = open_rows(alloc, bytes);
    let mut row = ByteRecord::new(alloc);
    if !next_row(&mut reader, &mut row)? {
        return Ok(Verdict::No { line: 1 });
    }
    if !is_heading(&row) {
        return Ok(Verdict::No { line: 1 });
    }
    'rows: for line in 2..u64::MAX {
        if !next_row(&mut reader, &mut row)? {
            return Ok(Verdict::Yes {
                commits: replay.journal().commits(),
            });
        }
        if !replay.take(names, &row, steps)? {
            return Ok(Verdict::No { line });
        }
    }
    // no memory holds so many rows
    Err(AllocError)
}
