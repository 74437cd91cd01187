// A machine that stops at one line and works on behind another.
ghost use Rattle.std.specs.Prelude.{◌≡◌};

use line_loop::{Ending, Flow, Machine, answer_lines};
use scc_ports::{Sink, Source};
use scc_text::LineReader;
use std::alloc::{AllocError, Global};
use std::sync::ledger::{Blank, Ledger};
use step_count::Steps;

/// Whose lines are answered, and how often the machine worked on by itself.
#[derive(Drop)]
pub struct Tally {
    pub owner: u64,
    pub works: u64,
}

// Answers each line with `ok` and the end with `end`; stops at `quit`, and works on behind `work`.
#[derive(Drop)]
struct Counting<'a> {
    tally: &'a mut Tally,
}

impl<'a> Machine for Counting<'a> {
    ghost use Rattle.std.specs.Prelude.{◌≡◌, codes};
    ghost use Rattle.line_loop_tests.specs.Tallies.{KeepsOwner};

    ghost most = { 8192 };

    ghost answers = { λ old _ _ reply steps new. (reply ≡ codes "ok\n") × (steps ≡ 0) × KeepsOwner old.tally.ghost_name new.tally.ghost_name old.tally.now.owner new.tally.now.owner };

    ghost works = { λ old steps new. (steps ≡ 1) × KeepsOwner old.tally.ghost_name new.tally.ghost_name old.tally.now.owner new.tally.now.owner };

    ghost fails = { λ old _ steps new. (steps ≡ 0) × KeepsOwner old.tally.ghost_name new.tally.ghost_name old.tally.now.owner new.tally.now.owner };

    ghost ends = { λ _ text. text ≡ codes "end\n" };

    fn answer<L: Ledger>(
        &mut self,
        line: &[u8],
        out: &mut Vec<u8>,
        _steps: &mut Steps<L>,
    ) -> Result<Flow, AllocError> {
        out.extend_from_slice(b"ok\n")?;
        if line == b"quit".as_slice() {
            return Ok(Flow::Stop);
        }
        if line == b"work".as_slice() {
            return Ok(Flow::WorkOn);
        }
        Ok(Flow::GoOn)
    }

    fn answer_too_long(&mut self, out: &mut Vec<u8>) -> Result<Flow, AllocError> {
        out.extend_from_slice(b"ok\n")?;
        Ok(Flow::GoOn)
    }

    fn work<L: Ledger>(&mut self, steps: &mut Steps<L>) {
        steps.tick();
        self.tally.works = self.tally.works.wrapping_add(1);
    }

    fn finish(&self, out: &mut Vec<u8>) -> Result<(), AllocError> {
        out.extend_from_slice(b"end\n")
    }
}

/// How a run over this source and sink ends.
pub fn ending_over<L: Ledger, S: Source, K: Sink>(
    blank: Blank,
    alloc: Global,
    tally: &mut Tally,
    source: &mut S,
    sink: &mut K,
) -> Ending
    requires name { blank.name ≡ L.name }
    requires parts { blank.parts ≡ L.parts }
    requires one { blank.parts ≡ 1 }
    ensures { tally.new.owner ≡ tally.old.owner }
{
    let mut steps = Steps::<L>::new(blank);
    let Ok(mut reader) = LineReader::open(alloc) else {
        return Ending::OutOfMemory;
    };
    let mut machine = Counting { tally };
    answer_lines(alloc, &mut machine, &mut reader, source, sink, &mut steps)
}
