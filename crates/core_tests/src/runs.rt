// Programs made ready to run on copied states, and their runs set beside plain walks.
ghost use Rattle.std.specs.Prelude.{◌≡◌, ◌≤◌, length, IfOk, IsTrue};
ghost use Rattle.txn_runs.specs.Bounds.{reach};
ghost use Rattle.txn_code.specs.Nodes.{nodes_of};
ghost use Rattle.txn_interp.specs.State.{Runs};

use item_table::Table;
use journal_core::put_reply;
use plain_runs::{PlainRun, plain_run};
use plain_walk::{Walk, is_same, walk_program};
use std::alloc::{AllocError, Global};
use std::sync::ledger::{Blank, Ledger};
use std::test::Fail;
use step_count::Steps;
use txn_code::{Code, link};
use txn_interp::{Kind, State};
use txn_names::Names;
use txn_runs::{EmitRoom, Outcome, Program};
use txn_syntax::read_program;

/// Makes the next step, if the run hasn't ended.
pub fn step_once<L: Ledger>(
    state: &mut State,
    code: &Code,
    tables: &Table,
    steps: &mut Steps<L>,
) -> bool
    requires runs { Runs code.now.nodes state.old }
    requires room { state.old.log.room ≡ length tables.now }
    ensures runs { Runs code.now.nodes state.new }
    ensures room { state.new.log.room ≡ length tables.now }
{
    match state.next_kind(code) {
        Kind::Local => state.step_local(code, steps),
        Kind::TableRead { item } => state.step_read(code, tables.get(item), steps),
        Kind::Write { .. } => state.step_write(code, steps),
        Kind::Ended => return false,
    }
    true
}

/// The first state of a program over the tables of so many items, in which it lies.
pub fn begin(alloc: Global, program: &Program, code: &Code, items: u32) -> Result<State, AllocError>
    requires small { items ≤ 1024 }
    requires fits { reach program.now ≤ items }
    requires code { code.now.nodes ≡ nodes_of program.now }
    ensures runs { IfOk result (λ s. Runs code.now.nodes s) }
    ensures room { IfOk result (λ s. s.log.room ≡ items) }
{
    let _limits = program.body();
    let mut state = State::room(alloc, items)?;
    state.reset(code);
    Ok(state)
}

// Whether the plain run is where the walk is.
fn same_run(walk: &Walk, run: &PlainRun) -> bool {
    run.ended() != walk.cut
        && run.end() == walk.end
        && run.registers() == &walk.registers
        && run.emits() == walk.emits.as_slice()
        && run.writes() == walk.writes.as_slice()
        && same_run_reads(walk, run)
}

fn same_run_reads(walk: &Walk, run: &PlainRun) -> bool {
    let reads = run.reads();
    if reads.len() != walk.reads.len() {
        return false;
    }
    for i in 0..reads.len() {
        let (n, item, value) = walk.reads[i];
        if reads[i] != (n, u64::from(item), value) {
            return false;
        }
    }
    true
}

// Whether the state, a walk and the plain run are all where so many steps lead.
fn stands(
    alloc: Global,
    program: &Program,
    state: &State,
    tables: &Table,
    made: u32,
) -> Result<bool, AllocError> {
    let walk = walk_program(alloc, program, tables, made)?;
    let run = plain_run(alloc, program, tables, made)?;
    Ok(is_same(alloc, state, &walk)? && same_run(&walk, &run))
}

/// How a run has ended: the reads in its log, and its commit line. What it has written is laid over the tables,
/// where it is done.
pub fn settle(
    alloc: Global,
    state: &State,
    tables: &mut Table,
) -> Result<(u32, Vec<u8>), AllocError>
    requires done { IsTrue state.now.done }
    requires room { state.now.log.room ≡ length tables.old }
{
    let room = EmitRoom::new(alloc, state.emits().as_slice().len() as u32)?;
    let outcome = state.outcome(room);
    let mut line = Vec::new(alloc);
    put_reply(1, &outcome, &mut line)?;
    if matches!(outcome, Outcome::Done { .. }) {
        state.writes().lay_over(tables);
    }
    Ok((state.reads().len(), line))
}

/// Goes on until so many steps are made. Whether each of the first states, and the last, is where a walk and the plain run are.
fn goes_on<L: Ledger>(
    alloc: Global,
    program: &Program,
    state: &mut State,
    code: &Code,
    tables: &Table,
    until: u32,
    steps: &mut Steps<L>,
) -> Result<bool, AllocError>
    requires runs { Runs code.now.nodes state.old }
    requires room { state.old.log.room ≡ length tables.now }
    ensures runs { Runs code.now.nodes state.new }
    ensures room { state.new.log.room ≡ length tables.now }
{
    for n in state.position()..until {
        if n <= 300 && !stands(alloc, program, state, tables, n)? {
            return Ok(false);
        }
        if !step_once(state, code, tables, steps) {
            return Ok(false);
        }
    }
    stands(alloc, program, state, tables, until)
}

/// Runs a program, which ends after so many steps: the reads in its log, and its commit line. None where it doesn't end there,
/// or a state isn't where a walk is.
pub fn ending<L: Ledger>(
    blank: Blank,
    alloc: Global,
    names: &Names,
    text: &[u8],
    tables: &mut Table,
    until: u32,
) -> Result<Option<(u32, Vec<u8>)>, Fail>
    requires name { blank.name ≡ L.name }
    requires parts { blank.parts ≡ L.parts }
    requires one { blank.parts ≡ 1 }
{
    let program = read_program(alloc, names, text)?;
    if !program.fits(tables.len()) {
        return Ok(None);
    }
    let code = link(alloc, &program)?;
    let mut state = begin(alloc, &program, &code, tables.len())?;
    let mut steps = Steps::<L>::new(blank);
    let same = goes_on(
        alloc, &program, &mut state, &code, tables, until, &mut steps,
    )?;
    if !same || !state.ended() {
        return Ok(None);
    }
    Ok(Some(settle(alloc, &state, tables)?))
}

/// Copies a run after so many steps, and lets the copy go on to its end with a code copied too, and then its source. Whether all
/// their states are where walks are.
pub fn copied<L: Ledger>(
    blank: Blank,
    alloc: Global,
    names: &Names,
    text: &[u8],
    tables: &Table,
    at: u32,
    until: u32,
) -> Result<bool, Fail>
    requires name { blank.name ≡ L.name }
    requires parts { blank.parts ≡ L.parts }
    requires one { blank.parts ≡ 1 }
{
    let program = read_program(alloc, names, text)?;
    if !program.fits(tables.len()) {
        return Ok(false);
    }
    let code = link(alloc, &program)?;
    let mut state = begin(alloc, &program, &code, tables.len())?;
    let mut steps = Steps::<L>::new(blank);
    Ok(copy_goes_on(
        alloc, &program, &mut state, &code, tables, at, until, &mut steps,
    )?)
}

// Copies a run and its code after so many steps, and lets both go on.
fn copy_goes_on<L: Ledger>(
    alloc: Global,
    program: &Program,
    state: &mut State,
    code: &Code,
    tables: &Table,
    at: u32,
    until: u32,
    steps: &mut Steps<L>,
) -> Result<bool, AllocError>
    requires runs { Runs code.now.nodes state.old }
    requires room { state.old.log.room ≡ length tables.now }
{
    let mut second_code = Code::room(alloc)?;
    second_code.copy_from(code);
    let mut second = State::room(alloc, tables.len())?;
    let before = goes_on(alloc, program, state, code, tables, at, steps)?;
    second.copy_from(state);
    let both = both_go_on(
        alloc,
        program,
        state,
        code,
        &mut second,
        &second_code,
        tables,
        until,
        steps,
    )?;
    Ok(before && both)
}

// Lets a copy go on to the end, and then its source.
fn both_go_on<L: Ledger>(
    alloc: Global,
    program: &Program,
    state: &mut State,
    code: &Code,
    second: &mut State,
    second_code: &Code,
    tables: &Table,
    until: u32,
    steps: &mut Steps<L>,
) -> Result<bool, AllocError>
    requires runs { Runs code.now.nodes state.old }
    requires room { state.old.log.room ≡ length tables.now }
    requires second_runs { Runs second_code.now.nodes second.old }
    requires second_room { second.old.log.room ≡ length tables.now }
{
    let copy = goes_on(alloc, program, second, second_code, tables, until, steps)?;
    let source = goes_on(alloc, program, state, code, tables, until, steps)?;
    Ok(copy && source && second.ended() && state.ended())
}

// Runs a state by its local steps, at most so many at once, and one step by hand behind each such run, to its end: how many local
// steps were made each time.
fn runs_by_parts<L: Ledger>(
    alloc: Global,
    state: &mut State,
    code: &Code,
    tables: &Table,
    most: u32,
    steps: &mut Steps<L>,
) -> Result<Vec<u32>, AllocError>
    requires runs { Runs code.now.nodes state.old }
    requires room { state.old.log.room ≡ length tables.now }
{
    let mut made = Vec::new(alloc);
    for _ in 0..100u32 {
        made.push(state.run_local(code, most, steps))?;
        if !step_once(state, code, tables, steps) {
            break;
        }
    }
    Ok(made)
}

/// Runs a program in the same way.
pub fn local_runs<L: Ledger>(
    blank: Blank,
    alloc: Global,
    names: &Names,
    text: &[u8],
    tables: &Table,
    most: u32,
) -> Result<Vec<u32>, Fail>
    requires name { blank.name ≡ L.name }
    requires parts { blank.parts ≡ L.parts }
    requires one { blank.parts ≡ 1 }
{
    let program = read_program(alloc, names, text)?;
    if !program.fits(tables.len()) {
        return Ok(Vec::new(alloc));
    }
    let code = link(alloc, &program)?;
    let mut state = begin(alloc, &program, &code, tables.len())?;
    let mut steps = Steps::<L>::new(blank);
    let made = runs_by_parts(alloc, &mut state, &code, tables, most, &mut steps)?;
    Ok(made)
}
