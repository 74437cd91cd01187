// Each line is answered before more is read, as one needs who types a line only after the last reply.
ghost use Rattle.std.specs.Prelude.{None};

use crate::machine::{Tally, ending_over};
use line_loop::Ending;
use scc_ports::{Failed, Sink, Source};
use std::alloc::Global;
use std::marker::Brand;
use std::sync::atomic::{AtomicU64, Ordering};
use std::sync::ledger::Blank;
use std::test::Fail;

// Gives one byte a call, and counts the lines that were given whole.
#[derive(Drop)]
struct Typed<'a> {
    bytes: &'static [u8],
    at: usize,
    lines: &'a AtomicU64,
}

impl Source for Typed<'_> {
    ghost left = { λ _. None };

    ghost faults = { λ _. 0 };

    fn read(&mut self, into: &mut [u8]) -> Result<usize, Failed> {
        let Some(byte) = self.bytes.get(self.at) else {
            return Ok(0);
        };
        into[0] = *byte;
        self.at = self.at.wrapping_add(1);
        if *byte == b'\n' {
            self.lines.fetch_add(1, Ordering::SeqCst);
        }
        Ok(1)
    }
}

// Counts the replies, and those before which exactly the lines up to their own were given.
#[derive(Drop)]
struct Watched<'a> {
    lines: &'a AtomicU64,
    replies: u64,
    prompt: u64,
}

impl Sink for Watched<'_> {
    ghost written = { λ _. None };

    ghost faults = { λ _. 0 };

    fn write(&mut self, piece: &[u8]) -> Result<usize, Failed> {
        self.replies = self.replies.wrapping_add(1);
        if self.lines.load(Ordering::SeqCst) == self.replies {
            self.prompt = self.prompt.wrapping_add(1);
        }
        Ok(piece.len())
    }
}

fn ended(alloc: Global, source: &mut Typed<'_>, sink: &mut Watched<'_>) -> Ending {
    let mut tally = Tally { owner: 7, works: 0 };
    ending_over::<Brand, _, _>(Blank::new(1), alloc, &mut tally, source, sink)
}

#[test]
fn each_line_is_answered_before_more_is_read(rt: HostRuntime) -> Result<(), Fail> {
    let lines = AtomicU64::new(0);
    let mut source = Typed {
        bytes: b"one\n\nthe third\nfour\n",
        at: 0,
        lines: &lines,
    };
    let mut sink = Watched {
        lines: &lines,
        replies: 0,
        prompt: 0,
    };
    let ending = ended(rt.alloc(), &mut source, &mut sink);
    assert_eq!(rt; ending, Ending::Done);
    // the lines at the end are a piece too
    assert_eq!(rt; sink.replies, 5);
    assert_eq!(rt; sink.prompt, 4);
    Ok(())
}
