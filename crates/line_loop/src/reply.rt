// A reply, made whole and then handed to the sink as one piece.
ghost use Rattle.std.specs.Prelude.{◌≡◌, ◌≤◌, ◌<◌, ◌-◌, ℕ, List, [], length, OnOk, OnErr, IfOk, IfErr};
ghost use Rattle.scc_ports.specs.Ports.{Gains, GainsPrefix};
ghost use Rattle.line_loop.specs.Account.{Replied, Broke, EndBroke, IsBreak};

use crate::{Ending, Flow, Machine};
use scc_ports::{Sink, write_all};
use std::sync::ledger::Ledger;
use step_count::Steps;

/// Answers a line.
pub fn answer_line<M: Machine, K: Sink, L: Ledger>(
    machine: &mut M,
    line: &[u8],
    out: &mut Vec<u8>,
    sink: &mut K,
    steps: &mut Steps<L>,
) -> Result<Flow, Ending>
    requires { length line.now ≤ M.most }
    ensures ok { IfOk result (λ flow. Replied M.answers flow machine.old line.now (steps.new - steps.old) machine.new (K.written sink.old) (K.written sink.new)) }
    ensures err { IfErr result (λ status. Broke M.answers M.fails status machine.old line.now (steps.new - steps.old) machine.new (K.written sink.old) (K.written sink.new)) }
    ensures steps_later { steps.old ≤ steps.new }
    ensures cause { IfErr result (IsBreak (K.faults sink.old) (K.faults sink.new)) }
    ensures later { K.faults sink.old ≤ K.faults sink.new }
{
    out.clear();
    let Ok(flow) = machine.answer(line, out, steps) else {
        return Err(Ending::OutOfMemory);
    };
    write_reply(sink, out)?;
    Ok(flow)
}

/// Answers a line that is too long.
pub fn answer_too_long<M: Machine, K: Sink>(
    machine: &mut M,
    out: &mut Vec<u8>,
    sink: &mut K,
) -> Result<Flow, Ending>
    ensures ok { IfOk result (λ flow. (line : List ℕ) → M.most < length line → Replied M.answers flow machine.old line 0 machine.new (K.written sink.old) (K.written sink.new)) }
    ensures err { IfErr result (λ status. (line : List ℕ) → M.most < length line → Broke M.answers M.fails status machine.old line 0 machine.new (K.written sink.old) (K.written sink.new)) }
    ensures cause { IfErr result (IsBreak (K.faults sink.old) (K.faults sink.new)) }
    ensures later { K.faults sink.old ≤ K.faults sink.new }
{
    out.clear();
    let Ok(flow) = machine.answer_too_long(out) else {
        return Err(Ending::OutOfMemory);
    };
    write_reply(sink, out)?;
    Ok(flow)
}

/// Writes the lines at the end of the input.
pub fn finish<M: Machine, K: Sink>(
    machine: &M,
    out: &mut Vec<u8>,
    sink: &mut K,
) -> Result<(), Ending>
    ensures ok { OnOk result ((text : List ℕ) × M.ends machine.now text × Gains (K.written sink.old) (K.written sink.new) text) }
    ensures err { IfErr result (λ status. EndBroke M.ends status machine.now (K.written sink.old) (K.written sink.new)) }
    ensures cause { IfErr result (IsBreak (K.faults sink.old) (K.faults sink.new)) }
    ensures later { K.faults sink.old ≤ K.faults sink.new }
{
    out.clear();
    if machine.finish(out).is_err() {
        return Err(Ending::OutOfMemory);
    }
    write_reply(sink, out)
}

// Hands a reply to the sink.
fn write_reply<K: Sink>(sink: &mut K, reply: &[u8]) -> Result<(), Ending>
    ensures wrote { OnOk result (Gains (K.written sink.old) (K.written sink.new) reply.now) }
    ensures fault { IfErr result (λ status. status ≡ Ending.WriteFault) }
    ensures cause { IfErr result (IsBreak (K.faults sink.old) (K.faults sink.new)) }
    ensures part { OnErr result (GainsPrefix (K.written sink.old) (K.written sink.new) reply.now) }
    ensures later { K.faults sink.old ≤ K.faults sink.new }
{
    match write_all(sink, reply) {
        Ok(()) => Ok(()),
        Err(_) => Err(Ending::WriteFault),
    }
}
