// The path from bytes to bytes.
ghost use Rattle.std.specs.Prelude.{◌≡◌, ◌≤◌, ◌↔◌, ℕ, List, Option};
ghost use Rattle.scc_ports.specs.Ports.{Rose};
ghost use Rattle.scc_text.specs.LinesRead.{LinesRead};
ghost use Rattle.line_loop.specs.Account.{Looped};

use crate::reply::{answer_line, answer_too_long, finish};
use crate::{Ending, Flow, Machine};
use scc_ports::{Sink, Source};
use scc_text::{LineReader, Next};
use std::alloc::Global;
use std::sync::ledger::Ledger;
use step_count::Steps;

/// Answers each line of the source as it is read, and goes on until the machine stops or the input ends, where the machine's lines
/// for the end are written. The reader goes on from where it stands, and may be used further after `Stopped`; so may the machine.
/// `ReadFault` and `WriteFault` come only where that object's count of faults rose or stands at its last value, `InputLimit` exactly
/// where byte 67,108,865 was taken, and `OutOfMemory` for want of memory.
pub fn answer_lines<M: Machine, S: Source, K: Sink, L: Ledger>(
    alloc: Global,
    machine: &mut M,
    reader: &mut LineReader,
    source: &mut S,
    sink: &mut K,
    steps: &mut Steps<L>,
) -> Ending
    requires most { reader.old.most ≡ M.most }
    requires room { reader.old.taken ≤ 67108864 }

    // Whatever lines the reader had answered before: there are answered lines behind them, and each end says how it came.
    ensures looped { (left : Option (List ℕ)) (before : List ℕ) (done : List (List ℕ)) (pending : List ℕ) → LinesRead reader.old left (S.left source.old) before done pending
        → Looped (record { answers = M.answers; works = M.works; fails = M.fails; ends = M.ends }) machine.old machine.new result reader.new left (S.left source.new) done
        (K.written sink.old) (K.written sink.new) steps.old steps.new }
    ensures limit { (result ≡ Ending.InputLimit) ↔ (reader.new.taken ≡ 67108865) }
    ensures room { reader.new.taken ≤ 67108865 }
    ensures reader_most { reader.new.most ≡ reader.old.most }

    // A fault is told only where the count of that object rose meanwhile, or can rise no more.
    ensures read_fault { result ≡ Ending.ReadFault → Rose (S.faults source.old) (S.faults source.new) }
    ensures write_fault { result ≡ Ending.WriteFault → Rose (K.faults sink.old) (K.faults sink.new) }
    ensures source_later { S.faults source.old ≤ S.faults source.new }
    ensures sink_later { K.faults sink.old ≤ K.faults sink.new }
{
    let mut out = Vec::new(alloc);
    'lines: loop {
        match reader.next_line(source) {
            Next::Line => {
                let line = reader.line();
                match answer_line(machine, line, &mut out, sink, steps) {
                    Ok(Flow::GoOn) => {}
                    Ok(Flow::WorkOn) => machine.work(steps),
                    Ok(Flow::Stop) => return Ending::Stopped,
                    Err(status) => return status,
                }
            }
            Next::TooLong => match answer_too_long(machine, &mut out, sink) {
                Ok(Flow::GoOn) => {}
                Ok(Flow::WorkOn) => machine.work(steps),
                Ok(Flow::Stop) => return Ending::Stopped,
                Err(status) => return status,
            },
            Next::End => match finish(machine, &mut out, sink) {
                Ok(()) => return Ending::Done,
                Err(status) => return status,
            },
            Next::ReadFault => return Ending::ReadFault,
            Next::InputLimit => return Ending::InputLimit,
        }
    }
}
