//! The calls of a forest and a bench: each but those that open and begin.
ghost use Rattle.std.specs.Prelude.{◌≡◌, length, None};

use crate::watch::Watch;
use block_rule::Role;
use item_table::Table;
use shadow_forest::{BeginRefusal, Bench, Forest};
use std::alloc::Global;
use std::sync::ledger::Ledger;
use std::test::Fail;
use step_count::Steps;
use txn_names::Names;
use txn_runs::Program;
use txn_syntax::read_program;

/// A call, or a job from its taking to its giving back.
#[derive(Clone, Copy)]
pub enum Call {
    Step(u32, Role),
    Commit(u32),
    Withdraw(u32),
    Recall,
    /// What is taken makes at most so many steps on the bench, and is given back.
    Job(u32),
    /// What is taken is called home, and only then given back.
    LateJob,
    GateStep,
    Run,
    DrainStep,
    NextCommit,
    Drain,
    Seal,
}

/// The programs that begin, over a table `a` of four items, for two lanes and three shadows.
static PROGRAMS: [&str; 8] = [
    "{ r5 = 2; r0 = a[0]; r5 = r5 * r5; r1 = a[1]; emit r0; }",
    "{ a[1] = 6; a[0] = 5; }",
    "{ r0 = a[2]; r0 = r0 + 1; a[3] = r0; emit r0; }",
    "{ r0 = a[0]; loop 3 { r0 = r0 + 1; } a[0] = r0; }",
    "{ a[2] = 1; fail 3; }",
    "{ r1 = a[3]; emit r1; a[2] = r1; }",
    "{ r1 = a[2]; emit r1; }",
    "{ r1 = 1; r1 = r1 + 1; a[1] = r1; }",
];

/// The calls, in order.
static CALLS: [Call; 41] = [
    Call::Job(1),
    Call::Step(1, Role::Optimistic),
    Call::Step(1, Role::Optimistic),
    Call::Step(2, Role::Optimistic),
    Call::Step(1, Role::Guard(2)),
    Call::Step(1, Role::Optimistic),
    Call::Step(2, Role::Optimistic),
    Call::Step(2, Role::Optimistic),
    Call::Step(1, Role::Guard(2)),
    Call::Step(1, Role::Guard(2)),
    Call::Step(3, Role::Optimistic),
    Call::Step(9, Role::Optimistic),
    Call::Commit(1),
    Call::Commit(3),
    Call::Commit(2),
    Call::LateJob,
    Call::Job(7),
    Call::GateStep,
    Call::GateStep,
    Call::Recall,
    Call::Run,
    Call::Commit(1),
    Call::Withdraw(9),
    Call::Withdraw(5),
    Call::Withdraw(3),
    Call::Job(0),
    Call::GateStep,
    Call::DrainStep,
    Call::DrainStep,
    Call::Step(6, Role::Guard(4)),
    Call::NextCommit,
    Call::DrainStep,
    Call::Run,
    Call::GateStep,
    Call::Seal,
    Call::Withdraw(7),
    Call::Drain,
    Call::Seal,
    Call::NextCommit,
    Call::Commit(6),
    Call::LateJob,
];

/// Opens a forest and a bench, lets the programs begin, and makes the calls. Answers how many transactions were
/// committed.
pub fn play_forest<L: Ledger>(
    alloc: Global,
    watch: &mut Watch,
    steps: &mut Steps<L>,
) -> Result<u32, Fail> {
    let mut forest = Forest::open(alloc, Table::new(alloc, 4)?, 3, 2)?;
    let mut bench = Bench::open(alloc, 4)?;
    begin_all(alloc, &mut forest)?;
    make_calls(&mut forest, &mut bench, 4, watch, steps);
    Ok(forest.journal().commits())
}

// The loop stands apart from what owns the forest, which is proved sooner so.
fn begin_all(alloc: Global, forest: &mut Forest) -> Result<(), Fail> {
    for text in &PROGRAMS {
        begin(forest, read(alloc, text)?)?;
    }
    Ok(())
}

/// Opens a forest, and lets a transaction begin, as a call that is watched. Answers whether it began, or there was no
/// memory for it.
pub fn play_begin(alloc: Global, watch: &mut Watch) -> Result<bool, Fail> {
    let program = read(alloc, PROGRAMS[0])?;
    let mut forest = Forest::open(alloc, Table::new(alloc, 4)?, 1, 1)?;
    watch.before();
    let began = begin(&mut forest, program);
    watch.after();
    began
}

// A program over the table `a`.
fn read(alloc: Global, text: &str) -> Result<Program, Fail> {
    let mut names = Names::new(alloc);
    let _a = names.add(b"a", 4)?;
    Ok(read_program(alloc, &names, text.as_bytes())?)
}

// Lets a program begin. Answers whether it began, or there was no memory for it.
fn begin(forest: &mut Forest, program: Program) -> Result<bool, Fail> {
    if !program.fits(forest.table().len()) {
        return Err(Fail::new("a program of other tables"));
    }
    match forest.begin(program, 10) {
        Ok(_) => Ok(true),
        Err(BeginRefusal::OutOfMemory) => Ok(false),
        Err(_) => Err(Fail::new("a begin that is refused")),
    }
}

// Makes the calls of the list, in order.
fn make_calls<L: Ledger>(
    forest: &mut Forest,
    bench: &mut Bench,
    items: u32,
    watch: &mut Watch,
    steps: &mut Steps<L>,
)
    requires { bench.old.items ≡ items }
{
    for call in &CALLS {
        let call = *call;
        match call {
            Call::Job(_) | Call::LateJob => job(forest, bench, items, call, watch, steps),
            _ => {
                watch.before();
                make(forest, call, steps);
                watch.after();
            }
        }
    }
}

// Makes a call of the forest alone.
fn make<L: Ledger>(forest: &mut Forest, call: Call, steps: &mut Steps<L>) {
    match call {
        Call::Step(txn, role) => {
            let _stepped = forest.step(txn, role, steps);
        }
        Call::Commit(txn) => {
            let _committed = forest.commit(txn);
        }
        Call::Withdraw(txn) => {
            let _withdrew = forest.withdraw(txn);
        }
        Call::GateStep => {
            let _did = forest.gate_step(steps);
        }
        Call::DrainStep => {
            let _did = forest.drain_step(steps);
        }
        _ => make_long(forest, call, steps),
    }
}

// Makes a call of which several steps may come, or none.
fn make_long<L: Ledger>(forest: &mut Forest, call: Call, steps: &mut Steps<L>) {
    match call {
        Call::Run => {
            let _made = forest.run_idle(steps);
        }
        Call::NextCommit => {
            let _next = forest.next_commit(steps);
        }
        Call::Recall => forest.recall(),
        Call::Drain => forest.drain(steps),
        Call::Seal => forest.seal(),
        _ => {}
    }
}

// What is taken goes to the bench, and is given back.
fn job<L: Ledger>(
    forest: &mut Forest,
    bench: &mut Bench,
    items: u32,
    call: Call,
    watch: &mut Watch,
    steps: &mut Steps<L>,
)
    requires { bench.old.items ≡ items }
    ensures { bench.new.items ≡ items }
{
    watch.before();
    bench.clear();
    watch.after();
    if forest.table().len() != items {
        return;
    }
    match call {
        Call::Job(most) => work(forest, bench, most, watch, steps),
        _ => come_late(forest, bench, watch),
    }
}

// What is taken makes at most so many steps, and is given back.
fn work<L: Ledger>(
    forest: &mut Forest,
    bench: &mut Bench,
    most: u32,
    watch: &mut Watch,
    steps: &mut Steps<L>,
)
    requires empty { bench.old.outside ≡ None }
    requires items { bench.old.items ≡ length forest.old.numbers.tables }
    ensures { bench.new.items ≡ bench.old.items }
{
    watch.before();
    let Some(job) = forest.take(bench) else {
        watch.after();
        return;
    };
    watch.after();
    let _txn = job.txn;
    watch.before();
    let _made = bench.run_local(most, steps);
    watch.after();
    watch.before();
    let _given = forest.give(bench);
    watch.after();
}

// What is taken is called home, and only then given back.
fn come_late(forest: &mut Forest, bench: &mut Bench, watch: &mut Watch)
    requires empty { bench.old.outside ≡ None }
    requires items { bench.old.items ≡ length forest.old.numbers.tables }
    ensures { bench.new.items ≡ bench.old.items }
{
    watch.before();
    let Some(job) = forest.take(bench) else {
        watch.after();
        return;
    };
    watch.after();
    let _txn = job.txn;
    watch.before();
    forest.recall();
    watch.after();
    watch.before();
    let _given = forest.give(bench);
    watch.after();
}
