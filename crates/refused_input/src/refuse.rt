// The line that names a refused line.
ghost use Rattle.std.specs.Prelude.{◌≡◌, ◌≤◌, ◌++◌, OnOk};
ghost use Rattle.scc_ports.specs.Ports.{Rose};
ghost use Rattle.refused_input.specs.Refused.{HasRefused, bad_line};

use scc_ports::{Sink, write_all};
use scc_replies::{Status, put_number_line};
use scc_text::put_count;
use std::alloc::{AllocError, Global};

/// Writes, as one piece, that a line is refused by this number. `BadInput` where it was written, `WriteFault` only where the sink's count
/// of faults rose or stands at its last value, and `OutOfMemory` for want of memory, with nothing written.
pub fn refuse_input<K: Sink>(alloc: Global, line: u64, code: u8, sink: &mut K) -> Status
    ensures told { HasRefused result line code (K.written sink.old) (K.written sink.new) }
    ensures write_fault { result ≡ Status.WriteFault → Rose (K.faults sink.old) (K.faults sink.new) }
    ensures later { K.faults sink.old ≤ K.faults sink.new }
{
    let mut text = Vec::new(alloc);
    if put_bad(&mut text, line, code).is_err() {
        return Status::OutOfMemory;
    }
    match write_all(sink, &text) {
        Ok(()) => Status::BadInput { line },
        Err(_) => Status::WriteFault,
    }
}

// Appends the line of a refused line.
fn put_bad(out: &mut Vec<u8>, line: u64, code: u8) -> Result<(), AllocError>
    ensures { OnOk result (out.new.items ≡ out.old.items ++ bad_line line code) }
{
    out.extend_from_slice(b"bad ")?;
    put_count(out, line)?;
    put_number_line(out, b" ", code as u64)
}
