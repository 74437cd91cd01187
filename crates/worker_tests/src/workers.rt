// Workers at a cell, in one thread and in two.
ghost use Rattle.std.specs.Prelude.{◌≡◌, ◌<◌, List, None, Some, IfOk};
ghost use denote.Param.Send.{IsSync};
ghost use mathlib.Core.List.{IsPrefix};
ghost use Rattle.turn_cell.specs.Passes.{IsOf, seen_by, seats_of};
ghost use Rattle.shadow_forest.specs.Listed.{listed, items_in};
ghost use Rattle.shadow_forest.specs.declared.kept.Item.{Item};
ghost use Rattle.shadow_worker.specs.Worked.{Fits, IsSameJob};

use block_rule::Role;
use scc_ports::{Gate, OpenGate};
use shadow_forest::{Bench, Forest, Given, Job};
use shadow_worker::{Until, one_turn, work};
use std::alloc::{AllocError, Global};
use std::marker::Brand;
use std::process::Abort;
use std::rt::Clock;
use std::sync::Wait;
use std::sync::atomic::{AtomicBool, Ordering};
use std::sync::ledger::{Blank, Ledger};
use std::thread;
use std::thread::Threads;
use std::time::Duration;
use step_count::Steps;
use turn_cell::{Pass, TurnCell};

// How long a test may take: a hundredth of it is ample, and the runner's own limit is twice as long.
const LIMIT_SECONDS: u32 = 30;

const LOOKS_A_SECOND: u32 = 100;

/// A bench with no job, over as many items as the forest's tables.
pub fn bench_for(alloc: Global, forest: &Forest) -> Result<Bench, AllocError>
    ensures { IfOk result (λ b. Fits (listed forest.now) b × (b.outside ≡ None)) }
{
    let bench = Bench::open(alloc, forest.table().len());
    // that the number of items stays comes with the journal
    let _ = forest.journal();
    bench
}

fn counted_step<L: Ledger>(blank: Blank, forest: &mut Forest, txn: u32, role: Role)
    requires { (blank.name ≡ L.name) × (blank.parts ≡ L.parts) × (0 < blank.parts) }
{
    let mut steps: Steps<L> = Steps::new(blank);
    forest.step(txn, role, &mut steps);
}

/// The optimistic shadow of a transaction makes a step.
pub fn step(forest: &mut Forest, txn: u32) {
    let blank = Blank::new(1);
    counted_step::<Brand>(blank, forest, txn, Role::Optimistic);
}

fn counted_run<L: Ledger>(blank: Blank, bench: &mut Bench) -> Option<u32>
    requires { (blank.name ≡ L.name) × (blank.parts ≡ L.parts) × (0 < blank.parts) }
    ensures items { bench.new.items ≡ bench.old.items }
    ensures job { IsSameJob bench.old.outside bench.new.outside }
{
    let mut steps: Steps<L> = Steps::new(blank);
    if let Some(_job) = bench.job() {
        Some(bench.run_local(100, &mut steps))
    } else {
        None
    }
}

/// A bench's job makes its local steps. None where it has none.
pub fn run(bench: &mut Bench) -> Option<u32>
    ensures { (seen : List Item) → Fits seen bench.old → Fits seen bench.new }
{
    let blank = Blank::new(1);
    counted_run::<Brand>(blank, bench)
}

/// Gives a bench's job back. None where it has none.
pub fn give(forest: &mut Forest, bench: &mut Bench) -> Option<Given>
    requires { Fits (listed forest.old) bench.old }
{
    // that the number of items stays comes with the journal
    let _ = forest.journal();
    if bench.job().is_some() {
        Some(forest.give(bench))
    } else {
        None
    }
}

fn counted_turn<L: Ledger>(
    blank: Blank,
    forest: &mut Forest,
    bench: &mut Bench,
    more: bool,
) -> Option<Job>
    requires name { (blank.name ≡ L.name) × (blank.parts ≡ L.parts) × (0 < blank.parts) }
    requires fits { Fits (listed forest.old) bench.old }
    ensures { Fits (listed forest.new) bench.new }
{
    // that the number of items stays comes with the journal
    let _ = forest.journal();
    let mut steps: Steps<L> = Steps::new(blank);
    one_turn(forest, bench, more, &mut steps)
}

/// One turn, whose steps nobody counts.
pub fn turn(forest: &mut Forest, bench: &mut Bench, more: bool) -> Option<Job>
    requires { Fits (listed forest.old) bench.old }
    ensures { Fits (listed forest.new) bench.new }
{
    let blank = Blank::new(1);
    counted_turn::<Brand>(blank, forest, bench, more)
}

/// A worker works, and then a job that was taken before is given back: the forest, and what became of the job.
pub fn given_after_work<R: Wait>(
    rt: &R,
    alloc: Global,
    forest: Forest,
    bench: &mut Bench,
    until: Until,
) -> Result<(Forest, Option<Given>), AllocError>
    requires { Fits (listed forest) bench.old }
{
    let mut forest = worked(rt, alloc, forest, &OpenGate, until)?;
    let given = give(&mut forest, bench);
    Ok((forest, given))
}

fn counted_work<R: Wait, G: Gate, L: Ledger>(
    rt: &R,
    blank: Blank,
    cell: &TurnCell<Forest>,
    pass: Pass<Forest>,
    bench: Bench,
    worker: u32,
    gate: &G,
    until: Until,
) -> Pass<Forest>
    requires name { (blank.name ≡ L.name) × (blank.parts ≡ L.parts) × (0 < blank.parts) }
    requires cell { IsOf pass cell.now }
    requires empty { bench.outside ≡ None }
    requires items { items_in (seen_by pass) ≡ Some bench.items }
    ensures cell { IsOf result cell.now × (seats_of result ≡ seats_of pass) }
    ensures seen { IsPrefix (seen_by pass) (seen_by result) }
{
    let mut bench = bench;
    let mut steps: Steps<L> = Steps::new(blank);
    work(rt, cell, pass, &mut bench, worker, gate, until, &mut steps)
}

// Works at a cell; nobody counts the steps.
fn work_with<R: Wait, G: Gate>(
    rt: &R,
    cell: &TurnCell<Forest>,
    pass: Pass<Forest>,
    bench: Bench,
    worker: u32,
    gate: &G,
    until: Until,
) -> Pass<Forest>
    requires cell { IsOf pass cell.now }
    requires empty { bench.outside ≡ None }
    requires items { items_in (seen_by pass) ≡ Some bench.items }
    ensures cell { IsOf result cell.now × (seats_of result ≡ seats_of pass) }
    ensures seen { IsPrefix (seen_by pass) (seen_by result) }
{
    let blank = Blank::new(1);
    counted_work::<R, G, Brand>(rt, blank, cell, pass, bench, worker, gate, until)
}

/// The forest after one worker's work.
pub fn worked<R: Wait, G: Gate>(
    rt: &R,
    alloc: Global,
    forest: Forest,
    gate: &G,
    until: Until,
) -> Result<Forest, AllocError>
    ensures { IfOk result (λ f. IsPrefix (listed forest) (listed f)) }
{
    let bench = bench_for(alloc, &forest)?;
    let (cell, pass) = TurnCell::open(alloc, forest, 1)?;
    let pass = work_with(rt, &cell, pass, bench, 0, gate, until);
    Ok(cell.close(pass))
}

// Two workers in two threads, at a cell with two seats.
fn work_by_two<R: Threads + Wait + Sync, G: Gate + Sync>(
    rt: &R,
    cell: &TurnCell<Forest>,
    pass: Pass<Forest>,
    first: Bench,
    second: Bench,
    gate: &G,
    until: Until,
) -> Pass<Forest>
    requires cell { IsOf pass cell.now × (seats_of pass ≡ 2) }
    requires empty { (first.outside ≡ None) × (second.outside ≡ None) }
    requires items { (items_in (seen_by pass) ≡ Some first.items) × (items_in (seen_by pass) ≡ Some second.items) }
    ensures cell { IsOf result cell.now × (seats_of result ≡ seats_of pass) }
    ensures seen { IsPrefix (seen_by pass) (seen_by result) }
{
    let mut mine = pass;
    let other = cell.split(&mut mine);
    let (mut mine, other) = thread::join(
        rt,
        || -> Pass<Forest>
            requires { IsOf mine cell.now × (first.outside ≡ None) × (items_in (seen_by mine) ≡ Some first.items) }
            ensures { IsOf result cell.entry.now × (seats_of result ≡ seats_of mine) × IsPrefix (seen_by mine) (seen_by result) }
        { work_with(rt, cell, mine, first, 0, gate, until) },
        || -> Pass<Forest>
            requires { IsOf other cell.now × (second.outside ≡ None) × (items_in (seen_by other) ≡ Some second.items) }
            ensures { IsOf result cell.entry.now × (seats_of result ≡ seats_of other) × IsPrefix (seen_by other) (seen_by result) }
        { work_with(rt, cell, other, second, 1, gate, until) },
    );
    cell.join(&mut mine, other);
    mine
}

/// The forest after two workers' work in two threads.
pub fn worked_by_two<R: Threads + Wait + Sync, G: Gate + Sync>(
    rt: &R,
    alloc: Global,
    forest: Forest,
    gate: &G,
    until: Until,
) -> Result<Forest, AllocError>
    ensures { IfOk result (λ f. IsPrefix (listed forest) (listed f)) }
{
    let first = bench_for(alloc, &forest)?;
    let second = bench_for(alloc, &forest)?;
    let (cell, pass) = TurnCell::open(alloc, forest, 2)?;
    let pass = work_by_two(rt, &cell, pass, first, second, gate, until);
    Ok(cell.close(pass))
}

/// Whether it is done at one of so many looks, a hundred a second.
pub fn is_done_within<R: Clock>(rt: &R, done: &AtomicBool, looks: u32) -> bool {
    for _ in 0..looks {
        if done.load(Ordering::SeqCst) {
            return true;
        }
        thread::sleep(rt, Duration::from_millis(10));
    }
    false
}

/// Ends the test as failed where its work isn't done within the limit, as where a thread waits that nobody wakes.
pub fn watch<R: Clock + Abort>(rt: &R, done: &AtomicBool) {
    if !is_done_within(rt, done, LIMIT_SECONDS * LOOKS_A_SECOND) {
        panic!(rt; "the work isn't done within the limit: a thread waits that nobody wakes");
    }
}

/// The forest after two workers' work in two threads; the test fails where it takes too long.
pub fn watched<R: Threads + Wait + Clock + Abort + Sync, G: Gate + Sync>(
    rt: &R,
    alloc: Global,
    forest: Forest,
    gate: &G,
    until: Until,
) -> Result<Forest, AllocError> {
    let done = AtomicBool::new(false);
    let (forest, ()) = thread::join(
        rt,
        || -> Result<Forest, AllocError>
            requires { IsSync R.row × IsSync G.row }
        {
            let forest = worked_by_two(rt, alloc, forest, gate, until);
            done.store(true, Ordering::SeqCst);
            forest
        },
        || watch(rt, &done),
    );
    forest
}
