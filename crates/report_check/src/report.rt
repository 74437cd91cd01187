// The audit of a report, from the bytes of a source.
ghost use Rattle.std.specs.Prelude.{◌≡◌, ◌≤◌, ◌<◌, ◌^◌, ℕ, List, Option, length, Err};
ghost use Rattle.std.specs.List.{All};
ghost use Rattle.scc_ports.specs.Ports.{Rose};
ghost use Rattle.scc_text.specs.LinesRead.{LinesRead};
ghost use Rattle.txn_runs.specs.Bounds.{reach};
ghost use Rattle.txn_names.specs.Tables.{items_of};
ghost use Rattle.report_check.specs.Audited.{Audited};

use crate::check::Check;
use crate::{AuditEnd, Verdict};
use item_table::Table;
use scc_ports::Source;
use scc_text::{LineReader, Next};
use std::alloc::Global;
use std::sync::ledger::Ledger;
use step_count::Steps;
use txn_names::Names;
use txn_runs::Program;

/// Audits the report that the lines behind those which the reader has answered are, where these programs, each of which fits the
/// tables, were to run over them. From here on a line may have 32,768 bytes.
///
/// `Yes`: they are the report of the programs in the order that they name, each committed once. `No`: this line, counted from the
/// first of the input, is the first that no such report has behind those before it, or comes behind the last where the report is cut.
/// Each program is run once, when its commit is read. `ReadFault` comes only where the source's count of faults rose or stands at its
/// last value, `InputLimit` exactly where byte 67,108,865 was taken, and `OutOfMemory` for want of memory.
pub fn audit<S: Source, L: Ledger>(
    alloc: Global,
    names: &Names,
    programs: &[Program],
    table: Table,
    reader: &mut LineReader,
    source: &mut S,
    steps: &mut Steps<L>,
) -> Result<Verdict, AuditEnd>
    requires items { items_of names.now ≡ length table }
    requires fit { All (λ p. reach p ≤ length table) programs.now }
    requires few { length programs.now < 2 ^ 32 }

    // Whatever lines the reader had answered before: each end says what the lines behind them are.
    ensures audited { (left : Option (List ℕ)) (before : List ℕ) (done : List (List ℕ)) (pending : List ℕ) → reader.old.taken ≤ 67108864
        → LinesRead reader.old left (S.left source.old) before done pending → Audited names.now table programs.now done left (S.left source.new) result }

    // A fault is told only where the count of the source rose meanwhile, or can rise no more.
    ensures read_fault { result ≡ Err AuditEnd.ReadFault → Rose (S.faults source.old) (S.faults source.new) }
    ensures source_later { S.faults source.old ≤ S.faults source.new }
    ensures later { steps.old ≤ steps.new }
{
    // the limits of the names come with their number
    let _ = names.count();
    let Ok(mut check) = Check::open(alloc, names, programs, table) else {
        return Err(AuditEnd::OutOfMemory);
    };
    reader.set_most(32_768);
    'lines: loop {
        match reader.next_line(source) {
            Next::Line => match check.take(names, programs, reader.line(), steps) {
                Ok(true) => {}
                Ok(false) => return Ok(no(reader)),
                Err(_) => return Err(AuditEnd::OutOfMemory),
            },
            Next::TooLong => {
                check.too_long(names, programs);
                return Ok(no(reader));
            }
            Next::End => return Ok(check.verdict(names, reader.number())),
            Next::ReadFault => return Err(AuditEnd::ReadFault),
            Next::InputLimit => return Err(AuditEnd::InputLimit),
        }
    }
}

// The line that was answered last is wrong.
fn no(reader: &LineReader) -> Verdict
    ensures { result ≡ Verdict.No reader.now.number }
{
    Verdict::No {
        line: reader.number(),
    }
}
