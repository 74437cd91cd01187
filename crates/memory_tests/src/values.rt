//! The values that take room once: logs, write sets, codes and states.
ghost use Rattle.std.specs.Prelude.{◌≡◌, ◌≤◌, length, IfOk};
ghost use Rattle.txn_runs.specs.Bounds.{reach};
ghost use Rattle.txn_code.specs.Nodes.{nodes_of};
ghost use Rattle.txn_interp.specs.State.{Runs};

use crate::watch::Watch;
use access_sets::{ReadLog, WriteSet};
use item_table::Table;
use std::alloc::{AllocError, Global};
use std::sync::ledger::Ledger;
use std::test::Fail;
use step_count::Steps;
use txn_code::{Code, link};
use txn_interp::{Kind, State};
use txn_names::Names;
use txn_runs::Program;
use txn_syntax::read_program;

// A program that writes each of the two items, reads both, and makes local steps.
const PROGRAM: &str =
    "{ r0 = a[0]; r1 = a[1]; loop 2 { r0 = r0 + r1; emit r0; } a[1] = r0; a[0] = r1; emit r1; }";

// More steps than the program makes.
const MOST_STEPS: u32 = 16;

/// Logs with room for two items: filled, compared, copied and cleared.
pub fn play_logs(alloc: Global, watch: &mut Watch) -> Result<(), AllocError> {
    let mut log = ReadLog::with_room(alloc, 2)?;
    let mut other = ReadLog::with_room(alloc, 2)?;
    let writes = WriteSet::with_room(alloc, 2)?;
    let table = Table::new(alloc, 2)?;
    watch.before();
    log.note(3, 1, 50);
    watch.after();
    watch.before();
    log.note(7, 0, 20);
    watch.after();
    watch.before();
    other.copy_from(&log);
    watch.after();
    watch.before();
    let _agrees = log.agrees(&table);
    watch.after();
    watch.before();
    let _same = other.same(&log);
    watch.after();
    watch.before();
    let _first = log.first_in(&writes);
    watch.after();
    watch.before();
    log.clear();
    watch.after();
    Ok(())
}

/// Write sets with room for two items: filled, laid over a table, copied and cleared.
pub fn play_writes(alloc: Global, watch: &mut Watch) -> Result<(), AllocError> {
    let mut writes = WriteSet::with_room(alloc, 2)?;
    let mut other = WriteSet::with_room(alloc, 2)?;
    let mut table = Table::new(alloc, 2)?;
    watch.before();
    writes.set(1, 50);
    watch.after();
    watch.before();
    writes.set(0, 20);
    watch.after();
    watch.before();
    writes.set(1, 51);
    watch.after();
    watch.before();
    other.copy_from(&writes);
    watch.after();
    watch.before();
    other.lay_over(&mut table);
    watch.after();
    watch.before();
    writes.clear();
    watch.after();
    Ok(())
}

/// A code with room becomes that of a program, and states run on it.
pub fn play_states<L: Ledger>(
    alloc: Global,
    watch: &mut Watch,
    steps: &mut Steps<L>,
) -> Result<(), Fail> {
    let program = read(alloc)?;
    let linked = link(alloc, &program)?;
    let mut code = Code::room(alloc)?;
    watch.before();
    code.copy_from(&linked);
    watch.after();
    watch.release();
    play_run(alloc, &program, &code, watch, steps)?;
    Ok(())
}

// A program that lies in two items.
fn read(alloc: Global) -> Result<Program, Fail>
    ensures fits { IfOk result (λ program. reach program ≤ 2) }
{
    let mut names = Names::new(alloc);
    let _a = names.add(b"a", 2)?;
    let program = read_program(alloc, &names, PROGRAM.as_bytes())?;
    if !program.fits(2) {
        return Err(Fail::new("a program of other tables"));
    }
    Ok(program)
}

// A state runs to its end, and another becomes its copy after each step; then it starts again.
fn play_run<L: Ledger>(
    alloc: Global,
    program: &Program,
    code: &Code,
    watch: &mut Watch,
    steps: &mut Steps<L>,
) -> Result<(), AllocError>
    requires fits { reach program.now ≤ 2 }
    requires code { code.now.nodes ≡ nodes_of program.now }
{
    let table = Table::new(alloc, 2)?;
    let mut state = begun(alloc, program, code, 2)?;
    let mut copy = begun(alloc, program, code, 2)?;
    run_on(&mut state, &mut copy, code, &table, watch, steps);
    watch.before();
    state.reset(code);
    watch.after();
    watch.before();
    let _made = state.run_local(code, MOST_STEPS, steps);
    watch.after();
    Ok(())
}

// The first state of a program over the tables of so many items, in which it lies.
fn begun(alloc: Global, program: &Program, code: &Code, items: u32) -> Result<State, AllocError>
    requires small { items ≤ 1024 }
    requires fits { reach program.now ≤ items }
    requires code { code.now.nodes ≡ nodes_of program.now }
    ensures runs { IfOk result (λ s. Runs code.now.nodes s) }
    ensures room { IfOk result (λ s. s.log.room ≡ items) }
{
    let _limits = program.body();
    let mut state = State::room(alloc, items)?;
    state.reset(code);
    Ok(state)
}

// Makes the steps of a run, and lets another state become its copy after each.
fn run_on<L: Ledger>(
    state: &mut State,
    copy: &mut State,
    code: &Code,
    table: &Table,
    watch: &mut Watch,
    steps: &mut Steps<L>,
)
    requires runs { Runs code.now.nodes state.old }
    requires room { state.old.log.room ≡ length table.now }
    requires copy { copy.old.log.room ≡ length table.now }
    ensures runs { Runs code.now.nodes state.new }
    ensures room { state.new.log.room ≡ length table.now }
{
    for _ in 0..MOST_STEPS {
        watch.before();
        step_once(state, code, table, steps);
        watch.after();
        watch.before();
        copy.copy_from(state);
        watch.after();
    }
}

// Makes the next step, if the run hasn't ended.
fn step_once<L: Ledger>(state: &mut State, code: &Code, table: &Table, steps: &mut Steps<L>)
    requires runs { Runs code.now.nodes state.old }
    requires room { state.old.log.room ≡ length table.now }
    ensures runs { Runs code.now.nodes state.new }
    ensures room { state.new.log.room ≡ length table.now }
{
    match state.next_kind(code) {
        Kind::Local => state.step_local(code, steps),
        Kind::TableRead { item } => state.step_read(code, table.get(item), steps),
        Kind::Write { .. } => state.step_write(code, steps),
        Kind::Ended => {}
    }
}
