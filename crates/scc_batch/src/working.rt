// Workers over a forest, each in a thread of its own where one can be made.
ghost use Rattle.std.specs.Prelude.{◌≡◌, ◌≤◌, ◌<◌, None, Some, length, IfOk};
ghost use Rattle.std.specs.List.{All};
ghost use denote.Param.Send.{IsSync};
ghost use mathlib.Core.List.{IsPrefix};
ghost use Rattle.turn_cell.specs.Passes.{IsOf, all_seats, seen_by, seats_of};
ghost use Rattle.shadow_forest.specs.Listed.{listed, items_in, journal_in};
ghost use Rattle.forest_model.specs.Grown.{IsLonger};
ghost use Rattle.shadow_worker.specs.Worked.{HasEnded};
ghost use Rattle.scc_batch.specs.Benches.{IsFreeFor};

use scc_ports::Gate;
use shadow_forest::{Bench, Forest};
use shadow_worker::{Until, work};
use std::alloc::{AllocError, Global};
use std::marker::Brand;
use std::sync::Wait;
use std::sync::ledger::{Blank, Ledger};
use std::thread;
use std::thread::Threads;
use step_count::Steps;
use turn_cell::{Pass, TurnCell};

// The forest after so many workers, at least 1, worked on it until its journal was sealed and no transaction was live. A worker for
// whom no thread can be made works after the others. `AllocError` for want of memory, before any worker works; then the forest is
// dropped.
//
// It waits for turns, so its promises hold if it returns.
pub(crate) fn worked<R: Threads + Wait + Sync, G: Gate + Sync>(
    rt: &R,
    alloc: Global,
    forest: Forest,
    workers: u32,
    gate: &G,
) -> Result<Forest, AllocError>
    requires some { 1 ≤ workers }
    requires small { length forest.numbers.opening ≤ 1024 }
    ensures longer { IfOk result (λ f. IsLonger forest.numbers f.numbers) }
    ensures ended { IfOk result (λ f. HasEnded f.numbers.journal) }
{
    // that its number of items stays comes with the journal
    let _ = forest.journal();
    let items = forest.table().len();
    let bench = Bench::open(alloc, items)?;
    let others = benches_for(alloc, items, workers - 1)?;
    let (cell, pass) = TurnCell::open(alloc, forest, workers)?;
    let pass = fan_out(rt, &cell, pass, bench, others, gate);
    Ok(closed(cell, pass))
}

// The forest of a cell whose workers have all ended.
fn closed(cell: TurnCell<Forest>, pass: Pass<Forest>) -> Forest
    requires cell { IsOf pass cell }
    requires all { seats_of pass ≡ all_seats cell }
    requires ended { HasEnded (journal_in (seen_by pass)) }
    ensures seen { IsPrefix (seen_by pass) (listed result) }
    ensures ended { HasEnded result.numbers.journal }
{
    let forest = cell.close(pass);
    // that its journal is legal comes with it
    let _ = forest.journal();
    forest
}

// So many benches, over so many items.
fn benches_for(alloc: Global, items: u32, workers: u32) -> Result<Vec<Bench>, AllocError>
    requires { items ≤ 1024 }
    ensures number { IfOk result (λ benches. length benches.items ≡ workers) }
    ensures each { IfOk result (λ benches. All (IsFreeFor (Some items)) benches.items) }
{
    let mut benches = Vec::new(alloc);
    for _worker in 0..workers {
        benches.push(Bench::open(alloc, items)?)?;
    }
    Ok(benches)
}

// A worker with this bench, and one with each of the others, each in a thread of its own. Each has a seat of its own.
#[tactic(auto, using(crate::proofs::Over::ended_either))]
fn fan_out<R: Threads + Wait + Sync, G: Gate + Sync>(
    rt: &R,
    cell: &TurnCell<Forest>,
    pass: Pass<Forest>,
    bench: Bench,
    others: Vec<Bench>,
    gate: &G,
) -> Pass<Forest>
    requires cell { IsOf pass cell.now }
    requires few { length others.items < 4294967295 }
    requires seats { length others.items < seats_of pass }
    requires free { IsFreeFor (items_in (seen_by pass)) bench }
    requires all_free { All (IsFreeFor (items_in (seen_by pass))) others.items }
    ensures cell { IsOf result cell.now × (seats_of result ≡ seats_of pass) }
    ensures seen { IsPrefix (seen_by pass) (seen_by result) }
    ensures ended { HasEnded (journal_in (seen_by result)) }
{
    let mut others = others;
    let worker = others.len() as u32;
    let Some(next) = others.pop() else {
        return work_with(rt, cell, pass, bench, worker, gate);
    };
    let mut rest = pass;
    let mine = cell.split(&mut rest);
    // The first goes to the new thread, so that this one starts all.
    let (mine, mut rest) = thread::join(
        rt,
        || -> Pass<Forest>
            requires { IsOf mine cell.now × IsFreeFor (items_in (seen_by mine)) bench }
            ensures { IsOf result cell.entry.now × (seats_of result ≡ seats_of mine) × IsPrefix (seen_by mine) (seen_by result) × HasEnded (journal_in (seen_by result)) }
        { work_with(rt, cell, mine, bench, worker, gate) },
        || -> Pass<Forest>
            requires { IsOf rest cell.now × (length others.items < 4294967295) × (length others.items < seats_of rest) × IsFreeFor (items_in (seen_by rest)) next × All (IsFreeFor (items_in (seen_by rest))) others.items × IsSync R.row × IsSync G.row }
            ensures { IsOf result cell.entry.now × (seats_of result ≡ seats_of rest) × IsPrefix (seen_by rest) (seen_by result) × HasEnded (journal_in (seen_by result)) }
        { fan_out(rt, cell, rest, next, others, gate) },
    );
    cell.join(&mut rest, mine);
    rest
}

// One worker's work; nobody counts its steps.
fn work_with<R: Wait, G: Gate>(
    rt: &R,
    cell: &TurnCell<Forest>,
    pass: Pass<Forest>,
    bench: Bench,
    worker: u32,
    gate: &G,
) -> Pass<Forest>
    requires cell { IsOf pass cell.now }
    requires free { IsFreeFor (items_in (seen_by pass)) bench }
    ensures cell { IsOf result cell.now × (seats_of result ≡ seats_of pass) }
    ensures seen { IsPrefix (seen_by pass) (seen_by result) }
    ensures ended { HasEnded (journal_in (seen_by result)) }
{
    counted_work::<R, G, Brand>(rt, Blank::new(1), cell, pass, bench, worker, gate)
}

fn counted_work<R: Wait, G: Gate, L: Ledger>(
    rt: &R,
    blank: Blank,
    cell: &TurnCell<Forest>,
    pass: Pass<Forest>,
    bench: Bench,
    worker: u32,
    gate: &G,
) -> Pass<Forest>
    requires name { (blank.name ≡ L.name) × (blank.parts ≡ L.parts) × (0 < blank.parts) }
    requires cell { IsOf pass cell.now }
    requires free { IsFreeFor (items_in (seen_by pass)) bench }
    ensures cell { IsOf result cell.now × (seats_of result ≡ seats_of pass) }
    ensures seen { IsPrefix (seen_by pass) (seen_by result) }
    ensures ended { HasEnded (journal_in (seen_by result)) }
{
    let mut bench = bench;
    let mut steps: Steps<L> = Steps::new(blank);
    work(
        rt,
        cell,
        pass,
        &mut bench,
        worker,
        gate,
        Until::AllEnded,
        &mut steps,
    )
}
