// The line that says a verdict.
ghost use Rattle.std.specs.Prelude.{◌≡◌, ◌≤◌, ◌++◌, OnOk};
ghost use Rattle.scc_ports.specs.Ports.{Rose};
ghost use Rattle.scc_audit.specs.Told.{verdict_line};
ghost use Rattle.scc_audit.specs.Judged.{HasSaid};

use scc_ports::{Sink, write_all};
use scc_replies::{Status, put_number_line};
use serial_audit::Verdict;
use std::alloc::{AllocError, Global};

// Writes a verdict, as one piece. `Done` or `AuditNo` where it was written, `WriteFault` only where the sink's count of faults rose or
// stands at its last value, and `OutOfMemory` for want of memory, with nothing written.
pub(crate) fn write_verdict<K: Sink>(alloc: Global, verdict: Verdict, sink: &mut K) -> Status
    ensures said { HasSaid result verdict (K.written sink.old) (K.written sink.new) }
    ensures write_fault { result ≡ Status.WriteFault → Rose (K.faults sink.old) (K.faults sink.new) }
    ensures later { K.faults sink.old ≤ K.faults sink.new }
{
    let mut text = Vec::new(alloc);
    if put_verdict(&mut text, verdict).is_err() {
        return Status::OutOfMemory;
    }
    match write_all(sink, &text) {
        Ok(()) => match verdict {
            Verdict::Yes { .. } => Status::Done,
            Verdict::No { line } => Status::AuditNo { line },
        },
        Err(_) => Status::WriteFault,
    }
}

// Appends the line that says a verdict.
fn put_verdict(out: &mut Vec<u8>, verdict: Verdict) -> Result<(), AllocError>
    ensures { OnOk result (out.new.items ≡ out.old.items ++ verdict_line verdict) }
{
    match verdict {
        Verdict::Yes { commits } => put_number_line(out, b"yes ", commits as u64),
        Verdict::No { line } => put_number_line(out, b"no ", line),
    }
}
