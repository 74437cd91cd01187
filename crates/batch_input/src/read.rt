// The path from the bytes of a source to tables and programs.
ghost use Rattle.std.specs.Prelude.{◌≡◌, ◌≤◌, ◌<◌, ◌↔◌, ℕ, List, [], length, OnOk, OnErr, Err};
ghost use Rattle.scc_ports.specs.Ports.{Gains, Rose};
ghost use Rattle.scc_text.specs.Reader.{opened_reader};
ghost use Rattle.batch_input.specs.Input.{Batch, no_batch};
ghost use Rattle.batch_input.specs.Reading as spec;
ghost use Rattle.batch_input.specs.Reading.{behaviour};
ghost use Rattle.batch_input.specs.Unread.{ReadInput};

use crate::{BatchInput, LineRefusal};
use line_loop::{Ending, Flow, Machine, answer_lines};
use scc_ports::{Sink, Source};
use scc_text::LineReader;
use std::alloc::{AllocError, Global};
use std::sync::ledger::Ledger;
use step_count::Steps;

/// Why an input gave no batch.
#[derive(Clone, Copy, Debug, PartialEq, Eq)]
pub enum Unread {
    /// This line, counted from 1, is the first that is refused, by this number (docs/FORMATS.md, "Refusals").
    Bad { line: u64, code: u8 },
    /// The source failed.
    ReadFault,
    /// The sink failed.
    WriteFault,
    /// The input has more than 67,108,864 bytes.
    InputLimit,
    /// Memory ran out.
    OutOfMemory,
}

// A batch under way, and the number by which a line was refused, or 0.
#[derive(Drop)]
pub struct Reading {
    pub input: BatchInput,
    pub refusal: u8,
}

impl Machine for Reading {
    ghost use Rattle.batch_input.specs.Reading.{behaviour};

    ghost most = { 8192 };

    ghost answers = { behaviour.answers };

    ghost works = { behaviour.works };

    ghost fails = { behaviour.fails };

    ghost ends = { behaviour.ends };

    fn answer<L: Ledger>(
        &mut self,
        line: &[u8],
        _out: &mut Vec<u8>,
        _steps: &mut Steps<L>,
    ) -> Result<Flow, AllocError> {
        match self.input.accept(line) {
            Ok(()) => Ok(Flow::GoOn),
            Err(LineRefusal::Code(code)) => {
                self.refusal = code;
                Ok(Flow::Stop)
            }
            Err(LineRefusal::OutOfMemory) => Err(AllocError),
        }
    }

    #[tactic(auto, using(crate::proofs::Long::too_long))]
    fn answer_too_long(&mut self, _out: &mut Vec<u8>) -> Result<Flow, AllocError> {
        self.refusal = 11;
        Ok(Flow::Stop)
    }

    fn work<L: Ledger>(&mut self, _steps: &mut Steps<L>) {}

    fn finish(&self, _out: &mut Vec<u8>) -> Result<(), AllocError> {
        Ok(())
    }
}

/// Reads an input to its end, or up to the first line that is refused. Nothing is written: the sink is there for the loop over lines,
/// which may tell its fault. `ReadFault` and `WriteFault` come only where that object's count of faults rose or stands at its last
/// value, `InputLimit` exactly where byte 67,108,865 was taken, and `OutOfMemory` for want of memory.
pub fn read_input<S: Source, K: Sink, L: Ledger>(
    alloc: Global,
    source: &mut S,
    sink: &mut K,
    steps: &mut Steps<L>,
) -> Result<BatchInput, Unread>
    // There are bytes that were read, and each end says what they make.
    ensures read { (read : List ℕ) × ReadInput result read (S.left source.old) (S.left source.new) }
    ensures silent { Gains (K.written sink.old) (K.written sink.new) [] }

    // A fault is told only where the count of that object rose meanwhile, or can rise no more.
    ensures read_fault { result ≡ Err Unread.ReadFault → Rose (S.faults source.old) (S.faults source.new) }
    ensures write_fault { result ≡ Err Unread.WriteFault → Rose (K.faults sink.old) (K.faults sink.new) }
    ensures source_later { S.faults source.old ≤ S.faults source.new }
    ensures sink_later { K.faults sink.old ≤ K.faults sink.new }
{
    let Ok(input) = BatchInput::new(alloc) else {
        return Err(Unread::OutOfMemory);
    };
    let Ok(mut reader) = LineReader::open(alloc) else {
        return Err(Unread::OutOfMemory);
    };
    let mut reading = Reading { input, refusal: 0 };
    let ending = read_lines(alloc, &mut reading, &mut reader, source, sink, steps);
    made(ending, reading, reader.number())
}

// Takes in the lines of an input from its beginning.
fn read_lines<S: Source, K: Sink, L: Ledger>(
    alloc: Global,
    reading: &mut Reading,
    reader: &mut LineReader,
    source: &mut S,
    sink: &mut K,
    steps: &mut Steps<L>,
) -> Ending
    requires opened { reader.old ≡ opened_reader }
    requires empty { reading.old.input ≡ no_batch }
    ensures read { (read : List ℕ) × ReadInput (spec.made result reading.new reader.new.number) read (S.left source.old) (S.left source.new) }
    ensures silent { Gains (K.written sink.old) (K.written sink.new) [] }
    ensures read_fault { result ≡ Ending.ReadFault → Rose (S.faults source.old) (S.faults source.new) }
    ensures write_fault { result ≡ Ending.WriteFault → Rose (K.faults sink.old) (K.faults sink.new) }
    ensures source_later { S.faults source.old ≤ S.faults source.new }
    ensures sink_later { K.faults sink.old ≤ K.faults sink.new }
{
    answer_lines(alloc, reading, reader, source, sink, steps)
}

// What a reading that ended so has made, where so many lines were taken in or refused.
fn made(ending: Ending, reading: Reading, number: u64) -> Result<BatchInput, Unread>
    ensures { result ≡ spec.made ending reading number }
{
    match ending {
        Ending::Done => Ok(reading.input),
        Ending::Stopped => Err(Unread::Bad {
            line: number,
            code: reading.refusal,
        }),
        Ending::ReadFault => Err(Unread::ReadFault),
        Ending::WriteFault => Err(Unread::WriteFault),
        Ending::OutOfMemory => Err(Unread::OutOfMemory),
        Ending::InputLimit => Err(Unread::InputLimit),
    }
}
