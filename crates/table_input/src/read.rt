// The path from the bytes of a source to tables.
ghost use Rattle.std.specs.Prelude.{◌≡◌, ◌≤◌, ◌<◌, ◌↔◌, ℕ, List, [], length, OnOk, OnErr, Err};
ghost use Rattle.scc_ports.specs.Ports.{Gains, Rose};
ghost use Rattle.scc_text.specs.Reader.{opened_reader};
ghost use Rattle.scc_setup.specs.Opening.{no_tables};
ghost use Rattle.table_input.specs.Reading as spec;
ghost use Rattle.table_input.specs.Reading.{behaviour};
ghost use Rattle.table_input.specs.Unread.{ReadInput};

use crate::taking::accept;
use batch_input::{LineRefusal, Unread};
use line_loop::{Ending, Flow, Machine, answer_lines};
use scc_ports::{Sink, Source};
use scc_setup::Setup;
use scc_text::LineReader;
use std::alloc::{AllocError, Global};
use std::sync::ledger::Ledger;
use step_count::Steps;

// Tables under way, and the number by which a line was refused, or 0.
#[derive(Drop)]
pub struct Reading {
    pub setup: Setup,
    pub refusal: u8,
}

impl Machine for Reading {
    ghost use Rattle.table_input.specs.Reading.{behaviour};

    ghost most = { 8192 };

    ghost answers = { behaviour.answers };

    ghost works = { behaviour.works };

    ghost fails = { behaviour.fails };

    ghost ends = { behaviour.ends };

    fn answer<L: Ledger>(
        &mut self,
        line: &[u8],
        _out: &mut Vec<u8>,
        _steps: &mut Steps<L>,
    ) -> Result<Flow, AllocError> {
        match accept(&mut self.setup, line) {
            Ok(()) => Ok(Flow::GoOn),
            Err(LineRefusal::Code(code)) => {
                self.refusal = code;
                Ok(Flow::Stop)
            }
            Err(LineRefusal::OutOfMemory) => Err(AllocError),
        }
    }

    #[tactic(auto, using(crate::proofs::Long::too_long))]
    fn answer_too_long(&mut self, _out: &mut Vec<u8>) -> Result<Flow, AllocError> {
        self.refusal = 11;
        Ok(Flow::Stop)
    }

    fn work<L: Ledger>(&mut self, _steps: &mut Steps<L>) {}

    fn finish(&self, _out: &mut Vec<u8>) -> Result<(), AllocError> {
        Ok(())
    }
}

/// Reads an input of `table` and `put` lines to its end, or up to the first line that is refused; another command is refused by 12. Nothing is written: the sink is there for the loop over lines,
/// which may tell its fault. `ReadFault` and `WriteFault` come only where that object's count of faults rose or stands at its last
/// value, `InputLimit` exactly where byte 67,108,865 was taken, and `OutOfMemory` for want of memory.
pub fn read_tables<S: Source, K: Sink, L: Ledger>(
    alloc: Global,
    source: &mut S,
    sink: &mut K,
    steps: &mut Steps<L>,
) -> Result<Setup, Unread>
    // There are bytes that were read, and each end says what they make.
    ensures read { (read : List ℕ) × ReadInput result read (S.left source.old) (S.left source.new) }
    ensures silent { Gains (K.written sink.old) (K.written sink.new) [] }

    // A fault is told only where the count of that object rose meanwhile, or can rise no more.
    ensures read_fault { result ≡ Err Unread.ReadFault → Rose (S.faults source.old) (S.faults source.new) }
    ensures write_fault { result ≡ Err Unread.WriteFault → Rose (K.faults sink.old) (K.faults sink.new) }
    ensures source_later { S.faults source.old ≤ S.faults source.new }
    ensures sink_later { K.faults sink.old ≤ K.faults sink.new }
{
    let Ok(setup) = Setup::new(alloc) else {
        return Err(Unread::OutOfMemory);
    };
    let Ok(mut reader) = LineReader::open(alloc) else {
        return Err(Unread::OutOfMemory);
    };
    let mut reading = Reading { setup, refusal: 0 };
    let ending = read_lines(alloc, &mut reading, &mut reader, source, sink, steps);
    made(ending, reading, reader.number())
}

// Takes in the lines of an input from its beginning.
fn read_lines<S: Source, K: Sink, L: Ledger>(
    alloc: Global,
    reading: &mut Reading,
    reader: &mut LineReader,
    source: &mut S,
    sink: &mut K,
    steps: &mut Steps<L>,
) -> Ending
    requires opened { reader.old ≡ opened_reader }
    requires empty { reading.old.setup ≡ no_tables }
    ensures read { (read : List ℕ) × ReadInput (spec.made result reading.new reader.new.number) read (S.left source.old) (S.left source.new) }
    ensures silent { Gains (K.written sink.old) (K.written sink.new) [] }
    ensures read_fault { result ≡ Ending.ReadFault → Rose (S.faults source.old) (S.faults source.new) }
    ensures write_fault { result ≡ Ending.WriteFault → Rose (K.faults sink.old) (K.faults sink.new) }
    ensures source_later { S.faults source.old ≤ S.faults source.new }
    ensures sink_later { K.faults sink.old ≤ K.faults sink.new }
{
    answer_lines(alloc, reading, reader, source, sink, steps)
}

// What a reading that ended so has made, where so many lines were taken in or refused.
fn made(ending: Ending, reading: Reading, number: u64) -> Result<Setup, Unread>
    ensures { result ≡ spec.made ending reading number }
{
    match ending {
        Ending::Done => Ok(reading.setup),
        Ending::Stopped => Err(Unread::Bad {
            line: number,
            code: reading.refusal,
        }),
        Ending::ReadFault => Err(Unread::ReadFault),
        Ending::WriteFault => Err(Unread::WriteFault),
        Ending::OutOfMemory => Err(Unread::OutOfMemory),
        Ending::InputLimit => Err(Unread::InputLimit),
    }
}
