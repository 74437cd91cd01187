// An audit, from the bytes of a source to those of a sink.
ghost use Rattle.std.specs.Prelude.{◌≡◌, ◌≤◌, ℕ, List};
ghost use Rattle.scc_ports.specs.Ports.{Rose};
ghost use Rattle.scc_audit.specs.Told.{AuditTold};

use crate::answering::write_verdict;
use crate::judging::judge_input;
use audit_head::HeadEnd;
use refused_input::refuse_input;
use scc_ports::{Sink, Source};
use scc_replies::Status;
use std::alloc::Global;
use std::sync::ledger::Ledger;
use step_count::Steps;

/// Reads tables and programs up to a line `report` or `journal`, judges what follows, and writes one line, as one piece: `yes` with the
/// number of commits, `no` with the line or row that is wrong, or `bad` with the line before that is refused and the number.
///
/// `Done` exactly where `yes` was written, `AuditNo` exactly where `no` was, `BadInput` exactly where `bad` was; `ReadFault` and
/// `WriteFault` only where that object's count of faults rose or stands at its last value, `InputLimit` exactly where byte 67,108,865 was
/// taken, and `OutOfMemory` for want of memory. With `ReadFault`, `InputLimit` and `OutOfMemory` nothing is written.
pub fn audit_input<S: Source, K: Sink, L: Ledger>(
    alloc: Global,
    source: &mut S,
    sink: &mut K,
    steps: &mut Steps<L>,
) -> Status
    // There are bytes that were read, and each end says what they are and what was written.
    ensures told { (read : List ℕ) × AuditTold result read (S.left source.old) (S.left source.new) (K.written sink.old) (K.written sink.new) }

    // A fault is told only where the count of that object rose meanwhile, or can rise no more.
    ensures read_fault { result ≡ Status.ReadFault → Rose (S.faults source.old) (S.faults source.new) }
    ensures write_fault { result ≡ Status.WriteFault → Rose (K.faults sink.old) (K.faults sink.new) }
    ensures later { steps.old ≤ steps.new }
{
    match judge_input(alloc, source, steps) {
        Ok(verdict) => write_verdict(alloc, verdict, sink),
        Err(HeadEnd::Bad { line, code }) => refuse_input(alloc, line, code, sink),
        Err(HeadEnd::ReadFault) => Status::ReadFault,
        Err(HeadEnd::InputLimit) => Status::InputLimit,
        Err(HeadEnd::OutOfMemory) => Status::OutOfMemory,
    }
}
