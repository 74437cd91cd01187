// What an audit writes.
ghost use Rattle.std.specs.Prelude.{◌≡◌};

use scc_audit::audit_input;
use scc_ports::{MemSink, MemSource};
use scc_replies::Status;
use scc_text::put_count;
use std::alloc::{AllocError, Global};
use std::marker::Brand;
use std::sync::ledger::{Blank, Ledger};
use step_count::Steps;

/// These texts, one after another.
pub fn joined(alloc: Global, texts: &[&[u8]]) -> Result<Vec<u8>, AllocError> {
    let mut all = Vec::new(alloc);
    for text in texts {
        all.extend_from_slice(text)?;
    }
    Ok(all)
}

fn counted<L: Ledger>(
    blank: Blank,
    alloc: Global,
    source: &mut MemSource,
    sink: &mut MemSink,
) -> Status
    requires name { blank.name ≡ L.name }
    requires parts { blank.parts ≡ L.parts }
    requires one { blank.parts ≡ 1 }
{
    let mut steps = Steps::<L>::new(blank);
    audit_input(alloc, source, sink, &mut steps)
}

/// What is written of an input that comes in pieces of 1,000 bytes, and the end.
pub fn ended(alloc: Global, input: &[u8]) -> Result<(Vec<u8>, Status), AllocError> {
    let mut source = MemSource::new(input.to_vec(alloc)?, 1_000, Vec::new(alloc));
    let mut sink = MemSink::with_room(alloc, 1_000, 1_000, Vec::new(alloc))?;
    let status = counted::<Brand>(Blank::new(1), alloc, &mut source, &mut sink);
    Ok((sink.into_bytes(), status))
}

/// What is written of an input.
pub fn said(alloc: Global, input: &[u8]) -> Result<Vec<u8>, AllocError> {
    let (written, _) = ended(alloc, input)?;
    Ok(written)
}

/// A word and a number, as a line.
pub fn answer(alloc: Global, word: &[u8], number: u64) -> Result<Vec<u8>, AllocError> {
    let mut line = Vec::new(alloc);
    line.extend_from_slice(word)?;
    put_count(&mut line, number)?;
    line.push(b'\n')?;
    Ok(line)
}
