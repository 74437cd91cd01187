// A forest for sessions, from the lines that make its tables.
ghost use Rattle.std.specs.Prelude.{◌≡◌, ◌≤◌, ◌∷◌, [], length, Some, Err, IfOk, IfErr};
ghost use Rattle.scc_ports.specs.Ports.{Gains, Rose};
ghost use Rattle.txn_names.specs.Tables.{items_of};
ghost use Rattle.scc_setup.specs.Opening.{Opening};
ghost use Rattle.turn_cell.specs.Passes.{IsOf, seen_by, turns_of, seats_of, all_seats};
ghost use Rattle.shadow_forest.specs.Listed.{items_in};
ghost use Rattle.line_server.specs.Prepared.{HasOpened, Prepared, Unprepared};

use batch_input::Unread;
use scc_ports::{Sink, Source};
use scc_setup::Setup;
use shadow_forest::Forest;
use std::alloc::{AllocError, Global};
use std::sync::ledger::Ledger;
use step_count::Steps;
use table_input::read_tables;
use turn_cell::{Pass, TurnCell};
use txn_names::Names;

/// Reads an input of `table` and `put` lines to its end, and opens a forest over its tables in a cell: for at most `k` shadows a
/// transaction, 1 to 8, and at most `lanes` started at once, 1 to 64. The pass has all the seats, at least 1, and the names are those of
/// the tables. Nothing is written: the sink is there for the loop over lines, which may tell its fault.
///
/// `Bad` exactly where a line is refused, another command by 12; `ReadFault` and `WriteFault` only where that object's count of faults
/// rose or stands at its last value; `InputLimit` exactly where byte 67,108,865 was taken; and `OutOfMemory` for want of memory.
pub fn prepare<S: Source, K: Sink, L: Ledger>(
    alloc: Global,
    k: u32,
    lanes: u32,
    seats: u32,
    source: &mut S,
    sink: &mut K,
    steps: &mut Steps<L>,
) -> Result<(TurnCell<Forest>, Pass<Forest>, Names), Unread>
    requires shadows { (1 ≤ k) × (k ≤ 8) }
    requires lanes { (1 ≤ lanes) × (lanes ≤ 64) }
    requires seats { 1 ≤ seats }

    // The whole input was read, and makes the tables of the one item that the pass has seen.
    ensures prepared { IfOk result (λ r. Prepared k lanes r.2 (seen_by r.1) (S.left source.old) (S.left source.new)) }
    ensures unprepared { IfErr result (λ end. Unprepared end (S.left source.old) (S.left source.new)) }
    ensures silent { Gains (K.written sink.old) (K.written sink.new) [] }

    // What a session asks of its cell, its pass and its names.
    ensures cell { IfOk result (λ r. IsOf r.1 r.0 × (all_seats r.0 ≡ seats)) }
    ensures pass { IfOk result (λ r. (seats_of r.1 ≡ seats) × (turns_of r.1 ≡ [])) }
    ensures items { IfOk result (λ r. (items_in (seen_by r.1) ≡ Some (items_of r.2)) × (items_of r.2 ≤ 1024)) }

    // A fault is told only where the count of that object rose meanwhile, or can rise no more.
    ensures read_fault { result ≡ Err Unread.ReadFault → Rose (S.faults source.old) (S.faults source.new) }
    ensures write_fault { result ≡ Err Unread.WriteFault → Rose (K.faults sink.old) (K.faults sink.new) }
    ensures source_later { S.faults source.old ≤ S.faults source.new }
    ensures sink_later { K.faults sink.old ≤ K.faults sink.new }
{
    match read_tables(alloc, source, sink, steps) {
        Ok(setup) => match opened(alloc, setup, k, lanes, seats) {
            Ok(prepared) => Ok(prepared),
            Err(_) => Err(Unread::OutOfMemory),
        },
        Err(end) => Err(end),
    }
}

// A forest over these tables, in a cell with so many seats.
fn opened(
    alloc: Global,
    setup: Setup,
    k: u32,
    lanes: u32,
    seats: u32,
) -> Result<(TurnCell<Forest>, Pass<Forest>, Names), AllocError>
    requires shadows { (1 ≤ k) × (k ≤ 8) }
    requires lanes { (1 ≤ lanes) × (lanes ≤ 64) }
    requires seats { 1 ≤ seats }
    ensures opened { IfOk result (λ r. HasOpened setup k lanes r.2 (seen_by r.1)) }
    ensures cell { IfOk result (λ r. IsOf r.1 r.0 × (all_seats r.0 ≡ seats)) }
    ensures pass { IfOk result (λ r. (seats_of r.1 ≡ seats) × (turns_of r.1 ≡ [])) }
    ensures items { IfOk result (λ r. (items_in (seen_by r.1) ≡ Some (items_of r.2)) × (items_of r.2 ≤ 1024)) }
{
    let (names, table) = setup.into_parts();
    let forest = Forest::open(alloc, table, k, lanes)?;
    let (cell, pass) = TurnCell::open(alloc, forest, seats)?;
    Ok((cell, pass, names))
}
