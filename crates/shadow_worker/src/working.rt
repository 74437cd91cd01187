// Turns of work, one after another.
ghost use Rattle.std.specs.Prelude.{◌≡◌, ◌+◌, ◌≤◌, ℕ, Some, None, false};
ghost use Rattle.turn_cell.specs.Passes.{IsOf, seen_by, turns_of, seats_of};
ghost use Rattle.shadow_forest.specs.Listed.{items_in, journal_in};
ghost use Rattle.shadow_worker.specs.Worked.{Fits, HasWorked, HasEnded, AreMade, IsSameJob};
ghost use Rattle.shadow_worker.specs.declared.turn.After.TheVariants.{Ended};
ghost use Rattle.shadow_worker.specs.declared.working.Until.TheVariants.{AllEnded};

use crate::turn::{After, turn_over};
use scc_ports::Gate;
use shadow_forest::{Bench, Forest};
use std::sync::Wait;
use std::sync::ledger::Ledger;
use std::thread;
use std::time::Duration;
use step_count::Steps;
use turn_cell::{Pass, TurnCell};

/// How many local steps of a job are made outside a turn.
const MOST_LOCAL: u32 = 100_000;

/// From how many local steps on a run outside turns is long.
const LONG: u32 = 10_000;

/// How often a worker that finds the cell busy lets others run, before it stays away in between.
const YIELDS: u32 = 4;

/// How often one does that comes from a long run: others have long runs then too, and their turns are soon over.
const LONG_YIELDS: u32 = 64;

/// How often it stays away, before it draws a ticket at a cell that is busy still.
const RESTS: u32 = 64;

/// How long it stays away each time, in microseconds.
const REST: u64 = 100;

/// How long a worker works.
#[derive(Clone, Copy, Debug, PartialEq, Eq)]
pub enum Until {
    /// Until the journal is sealed and no transaction is live.
    AllEnded,
    /// For so many turns.
    Turns(u32),
}

/// Works at a forest in a cell: turn by turn as `one_turn` says, and between them it runs the job that it has, once the gate lets it
/// pass. `AllEnded` ends it behind the first turn that leaves a sealed journal in which nobody is live, `Turns` behind so many, the
/// last of which takes no job. The bench has no job before and after. Takes no memory.
///
/// It waits for its turns, so its promises hold if it returns.
pub fn work<R: Wait, G: Gate, L: Ledger>(
    rt: &R,
    cell: &TurnCell<Forest>,
    pass: Pass<Forest>,
    bench: &mut Bench,
    worker: u32,
    gate: &G,
    until: Until,
    steps: &mut Steps<L>,
) -> Pass<Forest>
    requires cell { IsOf pass cell.now }
    requires empty { bench.old.outside ≡ None }
    requires items { items_in (seen_by pass) ≡ Some bench.old.items }
    ensures cell { IsOf result cell.now × (seats_of result ≡ seats_of pass) }
    ensures worked { (n : ℕ) × AreMade until n × HasWorked (seen_by pass) (turns_of pass) n (seen_by result) (turns_of result) }
    ensures ended { until ≡ AllEnded → HasEnded (journal_in (seen_by result)) }
    ensures bench { bench.new ≡ bench.old }
    ensures later { steps.old ≤ steps.new }
{
    match until {
        Until::AllEnded => work_to_end(rt, cell, pass, bench, worker, gate, steps),
        Until::Turns(turns) => work_turns(rt, cell, pass, bench, worker, gate, turns, steps),
    }
}

// So many turns.
fn work_turns<R: Wait, G: Gate, L: Ledger>(
    rt: &R,
    cell: &TurnCell<Forest>,
    pass: Pass<Forest>,
    bench: &mut Bench,
    worker: u32,
    gate: &G,
    turns: u32,
    steps: &mut Steps<L>,
) -> Pass<Forest>
    requires cell { IsOf pass cell.now }
    requires empty { bench.old.outside ≡ None }
    requires items { items_in (seen_by pass) ≡ Some bench.old.items }
    ensures cell { IsOf result cell.now × (seats_of result ≡ seats_of pass) }
    ensures worked { HasWorked (seen_by pass) (turns_of pass) turns (seen_by result) (turns_of result) }
    ensures bench { bench.new ≡ bench.old }
    ensures later { steps.old ≤ steps.new }
{
    let mut pass = pass;
    for turn in 0..turns {
        let (next, _) = turn_at(rt, cell, pass, bench, turn + 1 < turns, steps);
        pass = next;
        run_outside(bench, worker, gate, steps);
    }
    pass
}

// Turns until the journal is sealed and no transaction is live.
fn work_to_end<R: Wait, G: Gate, L: Ledger>(
    rt: &R,
    cell: &TurnCell<Forest>,
    pass: Pass<Forest>,
    bench: &mut Bench,
    worker: u32,
    gate: &G,
    steps: &mut Steps<L>,
) -> Pass<Forest>
    requires cell { IsOf pass cell.now }
    requires empty { bench.old.outside ≡ None }
    requires items { items_in (seen_by pass) ≡ Some bench.old.items }
    ensures cell { IsOf result cell.now × (seats_of result ≡ seats_of pass) }
    ensures worked { (n : ℕ) × (1 ≤ n) × HasWorked (seen_by pass) (turns_of pass) n (seen_by result) (turns_of result) }
    ensures ended { HasEnded (journal_in (seen_by result)) }
    ensures bench { bench.new ≡ bench.old }
    ensures later { steps.old ≤ steps.new }
{
    let mut pass = pass;
    for _ in rt.forever() {
        let (next, after) = turn_at(rt, cell, pass, bench, true, steps);
        pass = next;
        if let After::Ended = after {
            return pass;
        }
        go_on(rt, cell, bench, worker, gate, after, steps);
    }
    unreachable!()
}

// One turn. It is given back at its end, and the bench's job runs later.
fn turn_at<R: Wait, L: Ledger>(
    rt: &R,
    cell: &TurnCell<Forest>,
    pass: Pass<Forest>,
    bench: &mut Bench,
    more: bool,
    steps: &mut Steps<L>,
) -> (Pass<Forest>, After)
    requires cell { IsOf pass cell.now }
    requires fits { Fits (seen_by pass) bench.old }
    ensures cell { IsOf result.0 cell.now × (seats_of result.0 ≡ seats_of pass) }
    ensures worked { HasWorked (seen_by pass) (turns_of pass) 1 (seen_by result.0) (turns_of result.0) }
    ensures fits { Fits (seen_by result.0) bench.new }
    ensures room { bench.new.items ≡ bench.old.items }
    ensures last { more ≡ false → bench.new.outside ≡ None }
    ensures ended { result.1 ≡ Ended → HasEnded (journal_in (seen_by result.0)) × (bench.new.outside ≡ None) }
    ensures later { steps.old ≤ steps.new }
{
    let mut held = cell.take_turn(rt, pass);
    let after = turn_over(&mut held.value, bench, more, steps);
    (cell.give_turn(held), after)
}

// What a worker does between two turns.
fn go_on<R: Wait, G: Gate, L: Ledger>(
    rt: &R,
    cell: &TurnCell<Forest>,
    bench: &mut Bench,
    worker: u32,
    gate: &G,
    after: After,
    steps: &mut Steps<L>,
)
    ensures items { bench.new.items ≡ bench.old.items }
    ensures job { IsSameJob bench.old.outside bench.new.outside }
    ensures later { steps.old ≤ steps.new }
{
    let made = run_outside(bench, worker, gate, steps);
    if let After::Idle = after {
        cell.stay_away(rt, Duration::from_micros(REST));
    }
    let yields = if made < LONG { YIELDS } else { LONG_YIELDS };
    wait_while_busy(rt, cell, yields);
}

// The bench's job, if it has one, passes the gate, and then makes its local steps. Answers their number.
fn run_outside<G: Gate, L: Ledger>(
    bench: &mut Bench,
    worker: u32,
    gate: &G,
    steps: &mut Steps<L>,
) -> u32
    ensures items { bench.new.items ≡ bench.old.items }
    ensures job { IsSameJob bench.old.outside bench.new.outside }
    ensures ticks { steps.new ≡ steps.old + result }
{
    if let Some(job) = bench.job() {
        gate.pass(worker, job.txn);
        return bench.run_local(MOST_LOCAL, steps);
    }
    0
}

// Waits for the cell to be free, but not for long: whoever draws a ticket while another works makes that one wake it.
fn wait_while_busy<R: Wait>(rt: &R, cell: &TurnCell<Forest>, yields: u32) {
    for _ in 0..yields {
        if !cell.is_busy() {
            return;
        }
        thread::yield_now();
    }
    for _ in 0..RESTS {
        if !cell.is_busy() {
            return;
        }
        cell.stay_away(rt, Duration::from_micros(REST));
    }
}
