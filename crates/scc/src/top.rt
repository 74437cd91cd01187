// The calls that do all that the program does.
ghost use Rattle.std.specs.Prelude.{◌≡◌, ◌≤◌, ℕ, List, map, string_bytes, IfSome, IfNone};
ghost use Rattle.scc_ports.specs.Ports.{Rose};
ghost use Rattle.scc_script.specs.Ran.{ScriptRan};
ghost use Rattle.serial_text.specs.Told.{PrintedSerially};
ghost use Rattle.scc.specs.Generated.{HasGenerated};
ghost use Rattle.scc.specs.Served.{Served, outside};
ghost use Rattle.scc.specs.Exit.{exit_code_of};
ghost use Rattle.scc.specs.Words.{Spells, SpellsAlone, SpellsBatch, SpellsGen};

use crate::words::{BadWords, Mode, read_words};
use scc_audit::audit_input;
use scc_batch::batch;
use scc_gen::put_gen;
use scc_ports::{Gate, Sink, Source, write_all};
use scc_script::{Status, script};
use std::alloc::Global;
use std::sync::Wait;
use std::sync::ledger::{Blank, Ledger};
use std::thread::Threads;
use step_count::Steps;

/// Does what the words ask for: all modes, those with threads among them. `batch K LANES WORKERS` ends as `scc_batch::batch`, and the
/// other modes as in `scc_plain`. `BadWords` exactly where the words name none, with nothing done.
///
/// Workers wait for their turns, so its promises hold if it returns.
pub fn scc_top<R: Threads + Wait + Sync, S: Source, K: Sink, G: Gate + Sync, L: Ledger>(
    rt: &R,
    alloc: Global,
    words: &[String],
    source: &mut S,
    sink: &mut K,
    gate: &G,
    steps: &mut Steps<L>,
) -> Status
    ensures served { Served (Spells (map string_bytes words.now)) result
        (outside (S.left source.old) (S.faults source.old) (K.written sink.old) (K.faults sink.old) steps.old)
        (outside (S.left source.new) (S.faults source.new) (K.written sink.new) (K.faults sink.new) steps.new) }
    ensures nothing { result ≡ Status.BadWords → (source.new ≡ source.old) × (sink.new ≡ sink.old) × (steps.new ≡ steps.old) }
    ensures unread { (seed count : ℕ) → SpellsGen (map string_bytes words.now) seed count → (source.new ≡ source.old) × (steps.new ≡ steps.old) }
{
    match batch_words(words) {
        Some((k, lanes, workers)) => {
            batch(rt, alloc, k, lanes, workers, source, sink, gate, steps)
        }
        None => scc_plain(alloc, words, source, sink, steps),
    }
}

// K, LANES and WORKERS, where the words ask for a batch.
fn batch_words(words: &[String]) -> Option<(u32, u32, u32)>
    ensures some { IfSome result (λ sizes. SpellsBatch (map string_bytes words.now) sizes.0 sizes.1 sizes.2) }
    ensures none { IfNone result ((k lanes workers : ℕ) → ¬ SpellsBatch (map string_bytes words.now) k lanes workers) }
{
    match read_words(words) {
        Ok(Mode::Batch { k, lanes, workers }) => Some((k, lanes, workers)),
        Ok(Mode::Script { .. }) => None,
        Ok(Mode::Audit) => None,
        Ok(Mode::Gen { .. }) => None,
        Err(BadWords) => None,
    }
}

/// Does what the words ask for, where that needs no thread: `script K LANES` ends as `scc_script::script`, `audit` as
/// `scc_audit::audit_input`, and `gen SEED COUNT` with the generator's text written, in one piece, and nothing read. It always returns.
/// `BadWords` exactly where the words name none of these, with nothing done: also for `batch`, which needs threads.
pub fn scc_plain<S: Source, K: Sink, L: Ledger>(
    alloc: Global,
    words: &[String],
    source: &mut S,
    sink: &mut K,
    steps: &mut Steps<L>,
) -> Status
    ensures served { Served (SpellsAlone (map string_bytes words.now)) result
        (outside (S.left source.old) (S.faults source.old) (K.written sink.old) (K.faults sink.old) steps.old)
        (outside (S.left source.new) (S.faults source.new) (K.written sink.new) (K.faults sink.new) steps.new) }
    ensures nothing { result ≡ Status.BadWords → (source.new ≡ source.old) × (sink.new ≡ sink.old) × (steps.new ≡ steps.old) }
    ensures unread { (seed count : ℕ) → SpellsGen (map string_bytes words.now) seed count → (source.new ≡ source.old) × (steps.new ≡ steps.old) }
{
    match read_words(words) {
        Ok(Mode::Script { k, lanes }) => serial_script(alloc, k, lanes, source, sink, steps),
        Ok(Mode::Audit) => audit_input(alloc, source, sink, steps),
        Ok(Mode::Gen { seed, count }) => generate(alloc, seed, count, sink),
        Ok(Mode::Batch { .. }) => Status::BadWords,
        Err(BadWords) => Status::BadWords,
    }
}

// The generator's text, made whole and then handed to the sink as one piece.
fn generate<K: Sink>(alloc: Global, seed: u32, count: u32, sink: &mut K) -> Status
    requires seed { seed ≤ 65536 }
    requires some { 1 ≤ count }
    requires most { count ≤ 20000 }
    ensures text { HasGenerated result seed count (K.written sink.old) (K.written sink.new) }
    ensures write_fault { result ≡ Status.WriteFault → Rose (K.faults sink.old) (K.faults sink.new) }
{
    let mut text = Vec::new(alloc);
    if put_gen(seed, count, &mut text).is_err() {
        return Status::OutOfMemory;
    }
    match write_all(sink, &text) {
        Ok(()) => Status::Done,
        Err(_) => Status::WriteFault,
    }
}

// A script, whose text is that of a serial run.
fn serial_script<S: Source, K: Sink, L: Ledger>(
    alloc: Global,
    k: u32,
    lanes: u32,
    source: &mut S,
    sink: &mut K,
    steps: &mut Steps<L>,
) -> Status
    requires least { 1 ≤ k }
    requires most { k ≤ 8 }
    requires some { 1 ≤ lanes }
    requires many { lanes ≤ 64 }
    ensures ran { (read : List ℕ) × ScriptRan k lanes result read (S.left source.old) (S.left source.new) (K.written sink.old) (K.written sink.new) steps.old steps.new
        × PrintedSerially result read (K.written sink.old) (K.written sink.new) }
    ensures read_fault { result ≡ Status.ReadFault → Rose (S.faults source.old) (S.faults source.new) }
    ensures write_fault { result ≡ Status.WriteFault → Rose (K.faults sink.old) (K.faults sink.new) }
{
    script(alloc, k, lanes, source, sink, steps)
}

/// The exit status of an end: 0, or one from 2 to 8.
pub fn exit_code(status: Status) -> u8
    ensures { result ≡ exit_code_of status }
{
    match status {
        Status::Done => 0,
        Status::BadWords => 2,
        Status::BadInput { .. } => 3,
        Status::ReadFault => 4,
        Status::WriteFault => 5,
        Status::OutOfMemory => 6,
        Status::InputLimit => 7,
        Status::AuditNo { .. } => 8,
    }
}

/// All modes, with a counter that nobody reads.
pub fn top_uncounted<L: Ledger, R: Threads + Wait + Sync, S: Source, K: Sink, G: Gate + Sync>(
    blank: Blank,
    rt: &R,
    alloc: Global,
    words: &[String],
    source: &mut S,
    sink: &mut K,
    gate: &G,
) -> Status
    requires name { blank.name ≡ L.name }
    requires parts { blank.parts ≡ L.parts }
    requires one { blank.parts ≡ 1 }
    // There is a number of steps with which the same holds.
    ensures served { (steps : ℕ) × Served (Spells (map string_bytes words.now)) result
        (outside (S.left source.old) (S.faults source.old) (K.written sink.old) (K.faults sink.old) 0)
        (outside (S.left source.new) (S.faults source.new) (K.written sink.new) (K.faults sink.new) steps) }
    ensures nothing { result ≡ Status.BadWords → (source.new ≡ source.old) × (sink.new ≡ sink.old) }
    ensures unread { (seed count : ℕ) → SpellsGen (map string_bytes words.now) seed count → source.new ≡ source.old }
{
    let mut steps = Steps::<L>::new(blank);
    scc_top(rt, alloc, words, source, sink, gate, &mut steps)
}
