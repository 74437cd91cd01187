// Each end of the loop, over faulty sources and sinks.
use crate::machine::{Tally, ending_over};
use line_loop::Ending;
use scc_ports::{Failed, MemSink, MemSource, Source};
use std::alloc::{AllocError, Global};
use std::marker::Brand;
use std::sync::ledger::Blank;
use std::test::Fail;

// How a run ended, what was written, and how often the machine worked on.
#[derive(Drop)]
struct Outcome {
    ending: Ending,
    written: Vec<u8>,
    works: u64,
}

fn outcome_over<S: Source>(
    alloc: Global,
    source: &mut S,
    most: usize,
    sink_fails: &[u32],
) -> Result<Outcome, AllocError> {
    let mut sink = MemSink::with_room(alloc, 1_000, most.max(1), sink_fails.to_vec(alloc)?)?;
    let mut tally = Tally { owner: 7, works: 0 };
    let ending = ending_over::<Brand, _, _>(Blank::new(1), alloc, &mut tally, source, &mut sink);
    Ok(Outcome {
        ending,
        written: sink.into_bytes(),
        works: tally.works,
    })
}

// An input, the bytes a call gives or takes at most, the calls that fail, and how the run must end.
struct Case {
    input: &'static [u8],
    most: usize,
    source_fails: &'static [u32],
    sink_fails: &'static [u32],
    ending: Ending,
    written: &'static [u8],
    works: u64,
}

const CASES: [Case; 6] = [
    Case {
        input: b"a\n\nb",
        most: 2,
        source_fails: &[],
        sink_fails: &[],
        ending: Ending::Done,
        written: b"ok\nok\nok\nend\n",
        works: 0,
    },
    Case {
        input: b"",
        most: 100,
        source_fails: &[],
        sink_fails: &[],
        ending: Ending::Done,
        written: b"end\n",
        works: 0,
    },
    Case {
        input: b"a\n\nb",
        most: 3,
        source_fails: &[2],
        sink_fails: &[],
        ending: Ending::ReadFault,
        written: b"ok\nok\n",
        works: 0,
    },
    Case {
        input: b"a\n\nb",
        most: 2,
        source_fails: &[],
        sink_fails: &[4],
        ending: Ending::WriteFault,
        written: b"ok\nok",
        works: 0,
    },
    Case {
        input: b"a\nwork\nwork\nquit\nb\n",
        most: 100,
        source_fails: &[],
        sink_fails: &[],
        ending: Ending::Stopped,
        written: b"ok\nok\nok\nok\n",
        works: 2,
    },
    Case {
        input: b"work\nwork\n",
        most: 100,
        source_fails: &[],
        sink_fails: &[2],
        ending: Ending::WriteFault,
        written: b"ok\n",
        works: 1,
    },
];

fn ends_so(alloc: Global, case: &Case) -> Result<bool, AllocError> {
    let mut source = MemSource::new(
        case.input.to_vec(alloc)?,
        case.most.max(1),
        case.source_fails.to_vec(alloc)?,
    );
    let outcome = outcome_over(alloc, &mut source, case.most, case.sink_fails)?;
    Ok(
        outcome.ending == case.ending
            && outcome.written.as_slice() == case.written
            && outcome.works == case.works,
    )
}

fn long_lines_are_answered(alloc: Global) -> Result<bool, AllocError> {
    let long = vec![in alloc; b'x'; 9_000]?;
    let mut source = MemSource::new(long, 100, Vec::new(alloc));
    let outcome = outcome_over(alloc, &mut source, 100, &[])?;
    Ok(outcome.ending == Ending::Done && outcome.written.as_slice() == b"ok\nend\n".as_slice())
}

#[test]
fn each_end_writes_what_it_says(rt: HostRuntime) -> Result<(), Fail> {
    for (place, case) in CASES.iter().enumerate() {
        let right = ends_so(rt.alloc(), case)?;
        assert!(rt; right, "case {place}");
    }
    let right = long_lines_are_answered(rt.alloc())?;
    assert!(rt; right);
    Ok(())
}

// The bytes before those without an end.
const FRONT: &[u8] = b"a\n";

// These bytes one by one, and then zero bytes without an end.
#[derive(Drop)]
struct Endless {
    given: usize,
}

impl Source for Endless {
    ghost use Rattle.std.specs.Prelude.{None};

    ghost left = { λ _. None };

    ghost faults = { λ _. 0 };

    fn read(&mut self, into: &mut [u8]) -> Result<usize, Failed> {
        if self.given < FRONT.len() {
            into[0] = FRONT[self.given];
            self.given += 1;
            return Ok(1);
        }
        into.fill(0);
        Ok(into.len())
    }
}

#[test]
fn the_limit_ends_a_run_behind_the_whole_lines(rt: HostRuntime) -> Result<(), Fail> {
    let outcome = outcome_over(rt.alloc(), &mut Endless { given: 0 }, 1_000, &[])?;
    assert!(rt; outcome.ending == Ending::InputLimit);
    assert!(rt; outcome.written.as_slice() == b"ok\n".as_slice());
    Ok(())
}
