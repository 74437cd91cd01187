// A session, from the bytes of a source to those of a sink.
ghost use Rattle.std.specs.Prelude.{◌≡◌, Some, None, IsSome};
ghost use Rattle.scc_ports.specs.Ports.{Rose};
ghost use Rattle.txn_names.specs.Tables.{items_of};
ghost use Rattle.turn_cell.specs.Passes.{IsOf, seen_by, turns_of, seats_of};
ghost use Rattle.shadow_forest.specs.Listed.{items_in};
ghost use Rattle.line_server.specs.Ran.{SessionRan};
ghost use Rattle.line_server.specs.Stands.{end_of as end_of_loop};

use crate::SessionEnd;
use crate::talker::Talker;
use line_loop::{Ending, answer_lines};
use scc_ports::{Gate, Sink, Source};
use scc_text::LineReader;
use shadow_forest::{Bench, Forest};
use std::alloc::Global;
use std::sync::Wait;
use std::sync::ledger::Ledger;
use step_count::Steps;
use turn_cell::{Pass, TurnCell};
use txn_names::Names;

/// Answers each line of a source as it is read, each in one turn at the forest in the cell, and writes the reply outside the turn. Behind
/// each reply but `bye` it works `help` turns as worker 0. A blank line takes no turn and has no reply.
///
/// It waits for its turns, so its promises hold if it returns.
pub fn session<R: Wait, S: Source, K: Sink, G: Gate, L: Ledger>(
    rt: &R,
    alloc: Global,
    cell: &TurnCell<Forest>,
    names: &Names,
    pass: Pass<Forest>,
    bench: &mut Bench,
    gate: &G,
    help: u32,
    source: &mut S,
    sink: &mut K,
    steps: &mut Steps<L>,
) -> (Pass<Forest>, SessionEnd)
    requires cell { IsOf pass cell.now }
    requires empty { bench.old.outside ≡ None }
    requires items { items_in (seen_by pass) ≡ Some bench.old.items }
    requires names { items_of names.now ≡ bench.old.items }
    ensures cell { IsOf result.0 cell.now × (seats_of result.0 ≡ seats_of pass) }

    // Which turns were taken, what was read and what was written, by what the returned pass has seen.
    ensures ran { SessionRan names.now help (seen_by pass) (seen_by result.0) (turns_of pass) (turns_of result.0) result.1
        (S.left source.old) (S.left source.new) (K.written sink.old) (K.written sink.new) }
    ensures bench { bench.new ≡ bench.old }

    // A fault is told only where the count of that object rose meanwhile, or can rise no more.
    ensures read_fault { result.1 ≡ SessionEnd.ReadFault → Rose (S.faults source.old) (S.faults source.new) }
    ensures write_fault { result.1 ≡ SessionEnd.WriteFault → Rose (K.faults sink.old) (K.faults sink.new) }
{
    let Ok(mut reader) = LineReader::open(alloc) else {
        return (pass, SessionEnd::OutOfMemory);
    };
    let mut talker = Talker {
        rt,
        alloc,
        cell,
        names,
        pass: Some(pass),
        bench,
        gate,
        help,
    };
    let ending = answer_lines(alloc, &mut talker, &mut reader, source, sink, steps);
    // the reference to the bench is let go as a whole value, so that what it ends as is known
    let Talker { pass, bench, .. } = talker;
    let _ = bench;
    (pass_of(pass), end_of(ending))
}

// The pass, which is there between two lines.
fn pass_of(pass: Option<Pass<Forest>>) -> Pass<Forest>
    requires { IsSome pass }
    ensures { pass ≡ Some result }
{
    match pass {
        Some(pass) => pass,
        None => unreachable!(),
    }
}

// The end of a session by that of its loop over lines.
fn end_of(ending: Ending) -> SessionEnd
    ensures end { result ≡ end_of_loop ending }
    ensures read_fault { result ≡ SessionEnd.ReadFault → ending ≡ Ending.ReadFault }
    ensures write_fault { result ≡ SessionEnd.WriteFault → ending ≡ Ending.WriteFault }
{
    match ending {
        Ending::Done => SessionEnd::End,
        Ending::Stopped => SessionEnd::Quit,
        Ending::ReadFault => SessionEnd::ReadFault,
        Ending::WriteFault => SessionEnd::WriteFault,
        Ending::OutOfMemory => SessionEnd::OutOfMemory,
        Ending::InputLimit => SessionEnd::InputLimit,
    }
}
