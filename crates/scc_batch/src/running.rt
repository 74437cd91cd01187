// A batch, from the bytes of a source to those of a sink.
ghost use Rattle.std.specs.Prelude.{◌≡◌, ◌≤◌, ℕ, List, [], ◌++◌, IfOk, OnOk};
ghost use Rattle.scc_ports.specs.Ports.{Rose};
ghost use Rattle.scc_batch.specs.Opened.{AreCommitted};
ghost use Rattle.scc_batch.specs.Told.{IsReport, HasRun, Batched};

use crate::opening::opened;
use crate::reporting::put_last_report;
use crate::working::worked;
use batch_input::{BatchInput, Unread, read_input};
use refused_input::refuse_input;
use scc_ports::{Gate, Sink, Source, write_all};
use scc_replies::Status;
use shadow_forest::Forest;
use std::alloc::{AllocError, Global};
use std::sync::Wait;
use std::sync::ledger::Ledger;
use std::thread::Threads;
use step_count::Steps;
use txn_names::Names;

/// Reads a whole input, runs its programs as one batch with so many workers, and writes the report as one piece; where a line is
/// refused, writes `bad` with that line and the number instead. A transaction has at most `k` shadows, 1 to 8, and at most `lanes`
/// are started at once, 1 to 64. `BadInput` exactly where a line is refused and `bad` is written, `ReadFault` and `WriteFault` only where
/// that object's count of faults rose or stands at its last value, `InputLimit` exactly where byte 67,108,865 was taken, and
/// `OutOfMemory` for want of memory, with nothing written. The counter tells nothing of the workers' steps.
///
/// The workers wait for their turns, so its promises hold if it returns.
pub fn batch<R: Threads + Wait + Sync, S: Source, K: Sink, G: Gate + Sync, L: Ledger>(
    rt: &R,
    alloc: Global,
    k: u32,
    lanes: u32,
    workers: u32,
    source: &mut S,
    sink: &mut K,
    gate: &G,
    steps: &mut Steps<L>,
) -> Status
    requires shadows { (1 ≤ k) × (k ≤ 8) }
    requires lanes { (1 ≤ lanes) × (lanes ≤ 64) }
    requires some { 1 ≤ workers }

    // There are bytes that were read, and each end says what they make and what was written.
    ensures ran { (read : List ℕ) × Batched result read (S.left source.old) (S.left source.new) (K.written sink.old) (K.written sink.new) }

    // A fault is told only where the count of that object rose meanwhile, or can rise no more.
    ensures read_fault { result ≡ Status.ReadFault → Rose (S.faults source.old) (S.faults source.new) }
    ensures write_fault { result ≡ Status.WriteFault → Rose (K.faults sink.old) (K.faults sink.new) }
{
    match read_input(alloc, source, sink, steps) {
        Ok(input) => run(rt, alloc, k, lanes, workers, input, sink, gate),
        Err(Unread::Bad { line, code }) => refuse_input(alloc, line, code, sink),
        Err(Unread::ReadFault) => Status::ReadFault,
        Err(Unread::WriteFault) => Status::WriteFault,
        Err(Unread::InputLimit) => Status::InputLimit,
        Err(Unread::OutOfMemory) => Status::OutOfMemory,
    }
}

// Runs a batch, and writes its report.
fn run<R: Threads + Wait + Sync, K: Sink, G: Gate + Sync>(
    rt: &R,
    alloc: Global,
    k: u32,
    lanes: u32,
    workers: u32,
    input: BatchInput,
    sink: &mut K,
    gate: &G,
) -> Status
    requires shadows { (1 ≤ k) × (k ≤ 8) }
    requires lanes { (1 ≤ lanes) × (lanes ≤ 64) }
    requires some { 1 ≤ workers }
    ensures told { HasRun result input (K.written sink.old) (K.written sink.new) }
    ensures write_fault { result ≡ Status.WriteFault → Rose (K.faults sink.old) (K.faults sink.new) }
    ensures later { K.faults sink.old ≤ K.faults sink.new }
{
    let mut text = Vec::new(alloc);
    if put_batch(rt, alloc, k, lanes, workers, input, gate, &mut text).is_err() {
        return Status::OutOfMemory;
    }
    match write_all(sink, &text) {
        Ok(()) => Status::Done,
        Err(_) => Status::WriteFault,
    }
}

// Runs a batch, and puts its report into an empty text.
fn put_batch<R: Threads + Wait + Sync, G: Gate + Sync>(
    rt: &R,
    alloc: Global,
    k: u32,
    lanes: u32,
    workers: u32,
    input: BatchInput,
    gate: &G,
    out: &mut Vec<u8>,
) -> Result<(), AllocError>
    requires shadows { (1 ≤ k) × (k ≤ 8) }
    requires lanes { (1 ≤ lanes) × (lanes ≤ 64) }
    requires some { 1 ≤ workers }
    requires empty { out.old.items ≡ [] }
    ensures { OnOk result (IsReport input.opening.names input.opening.tables input.requests out.new.items) }
{
    let (names, forest) = commit_all(rt, alloc, k, lanes, workers, input, gate)?;
    put_last_report(&names, &forest, out)
}

/// Runs the programs of a batch with so many workers, at least 1, until each is committed: the tables' names, and the forest. A
/// transaction has at most `k` shadows, 1 to 8, and at most `lanes` are started at once, 1 to 64. `AllocError` for want of memory.
///
/// The workers wait for their turns, so its promises hold if it returns.
pub fn commit_all<R: Threads + Wait + Sync, G: Gate + Sync>(
    rt: &R,
    alloc: Global,
    k: u32,
    lanes: u32,
    workers: u32,
    input: BatchInput,
    gate: &G,
) -> Result<(Names, Forest), AllocError>
    requires shadows { (1 ≤ k) × (k ≤ 8) }
    requires lanes { (1 ≤ lanes) × (lanes ≤ 64) }
    requires some { 1 ≤ workers }
    ensures names { IfOk result (λ r. r.0 ≡ input.opening.names) }
    ensures committed { IfOk result (λ r. AreCommitted input.opening.tables input.requests r.1.numbers) }
{
    let (names, table, requests) = input.into_parts();
    let forest = opened(alloc, table, requests, k, lanes)?;
    let forest = worked(rt, alloc, forest, workers, gate)?;
    // that its journal is legal comes with it
    let _ = forest.journal();
    Ok((names, forest))
}
