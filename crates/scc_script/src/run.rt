// The script, from the bytes of a source to those of a sink.
ghost use Rattle.std.specs.Prelude.{◌≡◌, ◌≤◌, ℕ, List};
ghost use Rattle.scc_ports.specs.Ports.{Rose};
ghost use Rattle.scc_text.specs.Reader.{opened_reader};
ghost use Rattle.scc_text.specs.declared.command.Dialect.TheVariants as dialects;
ghost use Rattle.line_loop.specs.Meaning.{Ran};
ghost use Rattle.scc_script.specs.Ran as spec;
ghost use Rattle.scc_script.specs.Ran.{ScriptRan};
ghost use Rattle.scc_script.specs.Text.{meaning};

use crate::{ScriptState, Status};
use line_loop::{Ending, answer_lines};
use scc_ports::{Sink, Source};
use scc_text::LineReader;
use std::alloc::Global;
use std::sync::ledger::Ledger;
use step_count::Steps;

/// Answers each line of the source as it is read, and writes the final lines at its end.
/// A transaction has at most `k` shadows, 1 to 8, and at most `lanes` transactions are started at once, 1 to 64.
/// `ReadFault` and `WriteFault` come only where that object's count of faults rose or stands at its last value, `InputLimit` exactly
/// where byte 67,108,865 was taken, and `OutOfMemory` for want of memory.
pub fn script<S: Source, K: Sink, L: Ledger>(
    alloc: Global,
    k: u32,
    lanes: u32,
    source: &mut S,
    sink: &mut K,
    steps: &mut Steps<L>,
) -> Status
    requires least { 1 ≤ k }
    requires most { k ≤ 8 }
    requires some { 1 ≤ lanes }
    requires many { lanes ≤ 64 }

    // There are bytes that were read, and each end says what was written and how many steps were made.
    ensures ran { (read : List ℕ) × ScriptRan k lanes result read (S.left source.old) (S.left source.new)
        (K.written sink.old) (K.written sink.new) steps.old steps.new }

    // A fault is told only where the count of that object rose meanwhile, or can rise no more.
    ensures read_fault { result ≡ Status.ReadFault → Rose (S.faults source.old) (S.faults source.new) }
    ensures write_fault { result ≡ Status.WriteFault → Rose (K.faults sink.old) (K.faults sink.new) }
    ensures source_later { S.faults source.old ≤ S.faults source.new }
    ensures sink_later { K.faults sink.old ≤ K.faults sink.new }
{
    let Ok(mut machine) = ScriptState::new(alloc, k, lanes) else {
        return Status::OutOfMemory;
    };
    let Ok(mut reader) = LineReader::open(alloc) else {
        return Status::OutOfMemory;
    };
    let ending = answer_all(alloc, &mut machine, &mut reader, source, sink, steps);
    status_of(ending)
}

// Answers the lines of an input from its beginning. The machine is borrowed here, since a function that owns a forest is slow to prove.
fn answer_all<S: Source, K: Sink, L: Ledger>(
    alloc: Global,
    machine: &mut ScriptState,
    reader: &mut LineReader,
    source: &mut S,
    sink: &mut K,
    steps: &mut Steps<L>,
) -> Ending
    requires opened { reader.old ≡ opened_reader }
    ensures ran { (read : List ℕ) × Ran (meaning dialects.Script) machine.old result read (S.left source.old) (S.left source.new)
        (K.written sink.old) (K.written sink.new) steps.old steps.new }
    ensures read_fault { result ≡ Ending.ReadFault → Rose (S.faults source.old) (S.faults source.new) }
    ensures write_fault { result ≡ Ending.WriteFault → Rose (K.faults sink.old) (K.faults sink.new) }
    ensures source_later { S.faults source.old ≤ S.faults source.new }
    ensures sink_later { K.faults sink.old ≤ K.faults sink.new }
{
    answer_lines(alloc, machine, reader, source, sink, steps)
}

// A script never stops before the end of its input.
fn status_of(ending: Ending) -> Status
    ensures status { result ≡ spec.status_of ending }
    ensures read_fault { result ≡ Status.ReadFault → ending ≡ Ending.ReadFault }
    ensures write_fault { result ≡ Status.WriteFault → ending ≡ Ending.WriteFault }
{
    match ending {
        Ending::Done | Ending::Stopped => Status::Done,
        Ending::ReadFault => Status::ReadFault,
        Ending::WriteFault => Status::WriteFault,
        Ending::OutOfMemory => Status::OutOfMemory,
        Ending::InputLimit => Status::InputLimit,
    }
}
