// The verdict on an input, from the bytes of a source.
ghost use Rattle.std.specs.Prelude.{◌≡◌, ◌≤◌, ℕ, Bool, List, Option, false, Err};
ghost use Rattle.scc_ports.specs.Ports.{Rose};
ghost use Rattle.audit_head.specs.Reading.{IsHeadRead};
ghost use Rattle.scc_audit.specs.Judged as spec;
ghost use Rattle.scc_audit.specs.Judged.{InputJudged};

use crate::programs::programs_in;
use audit_head::{Form, HeadEnd, read_head};
use batch_input::BatchInput;
use scc_ports::Source;
use scc_text::{LineReader, Rest};
use serial_audit::{AuditEnd, Verdict, audit, audit_journal};
use std::alloc::Global;
use std::sync::ledger::Ledger;
use step_count::Steps;

// Judges what follows the head of an input. An end of a head serves for the end of all of it: `Bad` exactly where a line of the head is
// refused or the head doesn't end, `ReadFault` only where the source's count of faults rose or stands at its last value, `InputLimit`
// exactly where byte 67,108,865 was taken, and `OutOfMemory` for want of memory.
pub(crate) fn judge_input<S: Source, L: Ledger>(
    alloc: Global,
    source: &mut S,
    steps: &mut Steps<L>,
) -> Result<Verdict, HeadEnd>
    ensures judged { (read : List ℕ) × InputJudged result read (S.left source.old) (S.left source.new) }
    ensures read_fault { result ≡ Err HeadEnd.ReadFault → Rose (S.faults source.old) (S.faults source.new) }
    ensures later { steps.old ≤ steps.new }
{
    let Ok(mut reader) = LineReader::open(alloc) else {
        return Err(HeadEnd::OutOfMemory);
    };
    let (input, form, goes_on) = read_head(alloc, &mut reader, source)?;
    match form {
        Form::Report => judge_report(alloc, input, &mut reader, source, steps),
        Form::Journal => judge_journal(alloc, input, goes_on, &mut reader, source, steps),
    }
}

// Judges the report that stands behind a head.
fn judge_report<S: Source, L: Ledger>(
    alloc: Global,
    input: BatchInput,
    reader: &mut LineReader,
    source: &mut S,
    steps: &mut Steps<L>,
) -> Result<Verdict, HeadEnd>
    requires { reader.old.taken ≤ 67108864 }
    ensures judged { (left : Option (List ℕ)) (before : List ℕ) (goes_on : Bool) → IsHeadRead (input, Form.Report, goes_on) reader.old left (S.left source.old) before
        → (read : List ℕ) × InputJudged result read left (S.left source.new) }
    ensures read_fault { result ≡ Err HeadEnd.ReadFault → Rose (S.faults source.old) (S.faults source.new) }
    ensures later { steps.old ≤ steps.new }
{
    let (names, table, requests) = input.into_parts();
    let Ok(programs) = programs_in(alloc, requests) else {
        return Err(HeadEnd::OutOfMemory);
    };
    match audit(alloc, &names, &programs, table, reader, source, steps) {
        Ok(verdict) => Ok(verdict),
        Err(end) => Err(end_by(end)),
    }
}

// Judges the journal that stands behind a head; where nothing can, it has no row.
fn judge_journal<S: Source, L: Ledger>(
    alloc: Global,
    input: BatchInput,
    goes_on: bool,
    reader: &mut LineReader,
    source: &mut S,
    steps: &mut Steps<L>,
) -> Result<Verdict, HeadEnd>
    requires room { reader.old.taken ≤ 67108864 }
    requires ready { reader.old.skipping ≡ false }
    ensures judged { (left : Option (List ℕ)) (before : List ℕ) → IsHeadRead (input, Form.Journal, goes_on) reader.old left (S.left source.old) before
        → (read : List ℕ) × InputJudged result read left (S.left source.new) }
    ensures read_fault { result ≡ Err HeadEnd.ReadFault → Rose (S.faults source.old) (S.faults source.new) }
    ensures later { steps.old ≤ steps.new }
{
    let mut bytes = Vec::new(alloc);
    if goes_on {
        match reader.rest(source, &mut bytes) {
            Rest::End => {}
            Rest::ReadFault => return Err(HeadEnd::ReadFault),
            Rest::InputLimit => return Err(HeadEnd::InputLimit),
            Rest::OutOfMemory => return Err(HeadEnd::OutOfMemory),
        }
    }
    let (names, table, _) = input.into_parts();
    match audit_journal(alloc, &names, table, &bytes, steps) {
        Ok(verdict) => Ok(verdict),
        Err(_) => Err(HeadEnd::OutOfMemory),
    }
}

// The end of an input whose report ended so.
fn end_by(end: AuditEnd) -> HeadEnd
    ensures { result ≡ spec.end_by end }
{
    match end {
        AuditEnd::ReadFault => HeadEnd::ReadFault,
        AuditEnd::InputLimit => HeadEnd::InputLimit,
        AuditEnd::OutOfMemory => HeadEnd::OutOfMemory,
    }
}
