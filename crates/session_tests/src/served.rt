// Sessions over memory, at a forest over one table `a` of four items.
ghost use Rattle.std.specs.Prelude.{◌≡◌, ◌≤◌, ◌<◌, None, Some, IfOk};
ghost use Rattle.txn_names.specs.Tables.{items_of};
ghost use Rattle.turn_cell.specs.Passes.{IsOf, seen_by, seats_of};
ghost use Rattle.shadow_forest.specs.Listed.{listed, items_in};

use item_table::Table;
use line_server::{SessionEnd, session};
use scc_ports::{MemSink, MemSource, OpenGate};
use shadow_forest::{Bench, Forest};
use std::alloc::{AllocError, Global};
use std::marker::Brand;
use std::sync::Wait;
use std::sync::ledger::{Blank, Ledger};
use std::test::Fail;
use step_count::Steps;
use turn_cell::{Pass, TurnCell};
use txn_names::Names;

// How many bytes a call of a source gives at most, and how many a call of a sink takes.
const READ_AT_ONCE: usize = 8;

const WRITTEN_AT_ONCE: usize = 4;

/// What a session is given: the turns that it works behind a reply, its input, and which calls of its source and of its sink fail.
#[derive(Clone, Copy)]
pub struct Given<'a> {
    pub help: u32,
    pub input: &'a [u8],
    pub reads_fail: &'a [u32],
    pub writes_fail: &'a [u32],
}

/// What a session wrote, and how it ended.
pub type Said = (Vec<u8>, SessionEnd);

/// A session with this help and this input, whose ports don't fail.
pub fn with_help(help: u32, input: &[u8]) -> Given<'_> {
    Given {
        help,
        input,
        reads_fail: &[],
        writes_fail: &[],
    }
}

/// Whether a session wrote this and ended so.
pub fn is_said(said: &Said, written: &[u8], end: SessionEnd) -> bool {
    said.0.as_slice() == written && said.1 == end
}

fn names_of(alloc: Global) -> Result<Names, Fail> {
    let mut names = Names::new(alloc);
    let _a = names.add(b"a", 4)?;
    Ok(names)
}

// A forest that none began in, with two shadows a transaction and two lanes.
fn forest_of(alloc: Global, sealed: bool) -> Result<Forest, AllocError> {
    let table = Table::new(alloc, 4)?;
    let mut forest = Forest::open(alloc, table, 2, 2)?;
    if sealed {
        forest.seal();
    }
    Ok(forest)
}

// A bench with no job, over as many items as the forest's tables and the names have.
fn bench_for(alloc: Global, names: &Names, forest: &Forest) -> Result<Bench, Fail>
    ensures { IfOk result (λ b. (b.outside ≡ None) × (items_in (listed forest.now) ≡ Some b.items) × (items_of names.now ≡ b.items)) }
{
    let items = names.items();
    if items != forest.table().len() {
        return Err(Fail::new("names of other tables"));
    }
    // that the number of items stays comes with the journal
    let _ = forest.journal();
    Ok(Bench::open(alloc, items)?)
}

fn counted_session<R: Wait, L: Ledger>(
    rt: &R,
    blank: Blank,
    alloc: Global,
    cell: &TurnCell<Forest>,
    names: &Names,
    pass: Pass<Forest>,
    bench: &mut Bench,
    help: u32,
    source: &mut MemSource,
    sink: &mut MemSink,
) -> (Pass<Forest>, SessionEnd)
    requires name { (blank.name ≡ L.name) × (blank.parts ≡ L.parts) × (0 < blank.parts) }
    requires cell { IsOf pass cell.now }
    requires empty { bench.old.outside ≡ None }
    requires items { items_in (seen_by pass) ≡ Some bench.old.items }
    requires names { items_of names.now ≡ bench.old.items }
    ensures cell { IsOf result.0 cell.now × (seats_of result.0 ≡ seats_of pass) }
    ensures items { items_in (seen_by result.0) ≡ Some bench.old.items }
    ensures bench { bench.new ≡ bench.old }
{
    let mut steps: Steps<L> = Steps::new(blank);
    session(
        rt, alloc, cell, names, pass, bench, &OpenGate, help, source, sink, &mut steps,
    )
}

// A session at a cell; nobody counts its steps.
fn said_at<R: Wait>(
    rt: &R,
    alloc: Global,
    cell: &TurnCell<Forest>,
    names: &Names,
    pass: Pass<Forest>,
    bench: &mut Bench,
    given: &Given<'_>,
) -> Result<(Pass<Forest>, Said), AllocError>
    requires cell { IsOf pass cell.now }
    requires empty { bench.old.outside ≡ None }
    requires items { items_in (seen_by pass) ≡ Some bench.old.items }
    requires names { items_of names.now ≡ bench.old.items }
    ensures cell { IfOk result (λ r. IsOf r.0 cell.now × (seats_of r.0 ≡ seats_of pass)) }
    ensures items { IfOk result (λ r. items_in (seen_by r.0) ≡ Some bench.old.items) }
    ensures bench { bench.new ≡ bench.old }
{
    let mut source = MemSource::new(
        given.input.to_vec(alloc)?,
        READ_AT_ONCE,
        given.reads_fail.to_vec(alloc)?,
    );
    let mut sink = MemSink::with_room(
        alloc,
        100_000,
        WRITTEN_AT_ONCE,
        given.writes_fail.to_vec(alloc)?,
    )?;
    let blank = Blank::new(1);
    let (pass, end) = counted_session::<R, Brand>(
        rt,
        blank,
        alloc,
        cell,
        names,
        pass,
        bench,
        given.help,
        &mut source,
        &mut sink,
    );
    Ok((pass, (sink.into_bytes(), end)))
}

/// What a session writes at a new forest, and how it ends.
pub fn said<R: Wait>(rt: &R, alloc: Global, sealed: bool, given: &Given<'_>) -> Result<Said, Fail> {
    let names = names_of(alloc)?;
    let forest = forest_of(alloc, sealed)?;
    let mut bench = bench_for(alloc, &names, &forest)?;
    let (cell, pass) = TurnCell::open(alloc, forest, 1)?;
    let (_pass, said) = said_at(rt, alloc, &cell, &names, pass, &mut bench, given)?;
    Ok(said)
}

// A pass that has seen what this one has: one that is split from it, or itself.
fn next_pass(cell: &TurnCell<Forest>, pass: Pass<Forest>, split: bool) -> Pass<Forest>
    requires cell { IsOf pass cell.now }
    requires seats { 2 ≤ seats_of pass }
    ensures { IsOf result cell.now × (seen_by result ≡ seen_by pass) }
{
    let mut pass = pass;
    if split { cell.split(&mut pass) } else { pass }
}

/// What two sessions at one new forest say, one behind the other. The second has the pass that the first returned, or one split from it.
pub fn both_said<R: Wait>(
    rt: &R,
    alloc: Global,
    first: &Given<'_>,
    second: &Given<'_>,
    split: bool,
) -> Result<(Said, Said), Fail> {
    let names = names_of(alloc)?;
    let forest = forest_of(alloc, false)?;
    let mut bench = bench_for(alloc, &names, &forest)?;
    let (cell, pass) = TurnCell::open(alloc, forest, 2)?;
    let (pass, before) = said_at(rt, alloc, &cell, &names, pass, &mut bench, first)?;
    let pass = next_pass(&cell, pass, split);
    let (_pass, behind) = said_at(rt, alloc, &cell, &names, pass, &mut bench, second)?;
    Ok((before, behind))
}
