use crate::forests::{begin, opened};
use crate::meeting::Meeting;
use crate::workers::{
    bench_for, given_after_work, is_done_within, run, step, turn, watched, worked,
};
use block_rule::{Role, Standing};
use scc_ports::OpenGate;
use shadow_forest::{Forest, Given, Job, Resumed};
use shadow_worker::Until;
use std::alloc::Global;
use std::format;
use std::sync::atomic::AtomicBool;
use std::test::Fail;

const LOOP: &str = "{ loop 10 { r0 = r0 + 1; } emit r0; }";

#[test]
fn a_turn_takes_the_pick_and_the_next_gives_it_back_and_commits(
    rt: HostRuntime,
) -> Result<(), Fail> {
    let alloc = rt.alloc();
    let mut forest = opened(alloc, 1, 1)?;
    begin(alloc, &mut forest, 10, LOOP)?;
    let mut bench = bench_for(alloc, &forest)?;
    assert_eq!(rt; turn(&mut forest, &mut bench, false), None);
    let job = turn(&mut forest, &mut bench, true);
    assert_eq!(rt; job, Some(Job { txn: 1, from: 0 }));
    assert_eq!(rt; bench.job(), job);
    // ten turns of a loop with a step each, eleven arrivals at it, and the last step
    assert_eq!(rt; run(&mut bench), Some(22));
    let none = turn(&mut forest, &mut bench, false);
    assert_eq!(rt; none, None);
    assert_eq!(rt; bench.job(), None);
    assert_eq!(rt; forest.journal().commits(), 1);
    Ok(())
}

// A shadow as it is shown.
fn shown(forest: &Forest, txn: u32, place: u32) -> Option<(Role, u32, Standing)> {
    let view = forest.shadow(txn, place)?;
    Some((view.role, view.position, view.standing))
}

#[test]
fn a_worker_steps_the_shadow_that_waits_and_commits_the_other(rt: HostRuntime) -> Result<(), Fail> {
    let alloc = rt.alloc();
    let mut forest = opened(alloc, 2, 2)?;
    begin(alloc, &mut forest, 10, "{ r0 = a[0]; r1 = a[1]; emit r1; }")?;
    begin(alloc, &mut forest, 20, "{ a[1] = 7; emit 1; }")?;
    for txn in [1, 1, 2] {
        step(&mut forest, txn);
    }
    assert_eq!(rt;
        shown(&forest, 1, 1),
        Some((Role::Guard(2), 0, Standing::Runnable))
    );
    let mut old = bench_for(alloc, &forest)?;
    let job = turn(&mut forest, &mut old, true);
    assert_eq!(rt; job, Some(Job { txn: 1, from: 2 }));
    let (forest, given) = given_after_work(&rt, alloc, forest, &mut old, Until::Turns(2))?;
    assert_eq!(rt; given, Some(Given::Gone));
    assert_eq!(rt; forest.journal().commits(), 1);
    assert!(rt;
        forest.resumed()
            == [Resumed {
                txn: 1,
                position: 1
            }]
            .as_slice()
    );
    assert_eq!(rt; forest.shadows(1), 1);
    assert_eq!(rt;
        shown(&forest, 1, 0),
        Some((Role::Optimistic, 1, Standing::Runnable))
    );
    Ok(())
}

#[test]
fn no_turn_changes_nothing(rt: HostRuntime) -> Result<(), Fail> {
    let alloc = rt.alloc();
    let mut forest = opened(alloc, 1, 1)?;
    begin(alloc, &mut forest, 10, "{ emit 1; }")?;
    let forest = worked(&rt, alloc, forest, &OpenGate, Until::Turns(0))?;
    assert_eq!(rt; forest.journal().len(), 1);
    assert_eq!(rt;
        shown(&forest, 1, 0),
        Some((Role::Optimistic, 0, Standing::Runnable))
    );
    Ok(())
}

// `count` transfers among four items, at deadlines in turn.
fn with_transfers(alloc: Global, k: u32, lanes: u32, count: u32) -> Result<Forest, Fail> {
    let mut forest = opened(alloc, k, lanes)?;
    for i in 0..count {
        let from = i % 4;
        let to = (i / 3 + 1) % 4;
        let text = format!(in alloc;
            "{{ r0 = a[{from}]; r1 = r0 - 1; a[{from}] = r1; r2 = a[{to}]; loop 5 {{ r3 = r3 + 1; }} r2 = r2 + 1; a[{to}] = r2; emit r2; }}"
        )?;
        begin(alloc, &mut forest, u64::from(i % 7), &text)?;
    }
    forest.seal();
    Ok(forest)
}

// Whether all that began was committed, and the transfers left the sum at 0.
fn is_whole(forest: &Forest, count: u32) -> bool {
    let mut sum: i64 = 0;
    for value in forest.table().row(0, forest.table().len()) {
        sum = sum.wrapping_add(*value);
    }
    forest.journal().commits() == count && forest.started_at(0).is_none() && sum == 0
}

#[test]
fn one_worker_commits_all(rt: HostRuntime) -> Result<(), Fail> {
    let forest = with_transfers(rt.alloc(), 3, 4, 100)?;
    let forest = worked(&rt, rt.alloc(), forest, &OpenGate, Until::AllEnded)?;
    assert!(rt; is_whole(&forest, 100));
    Ok(())
}

#[test]
fn two_workers_commit_all(rt: HostRuntime) -> Result<(), Fail> {
    let forest = with_transfers(rt.alloc(), 3, 4, 400)?;
    let forest = watched(&rt, rt.alloc(), forest, &OpenGate, Until::AllEnded)?;
    assert!(rt; is_whole(&forest, 400));
    Ok(())
}

#[test]
fn two_workers_hold_jobs_at_once(rt: HostRuntime) -> Result<(), Fail> {
    let alloc = rt.alloc();
    let mut forest = opened(alloc, 1, 2)?;
    begin(alloc, &mut forest, 1, LOOP)?;
    begin(alloc, &mut forest, 1, LOOP)?;
    forest.seal();
    let gate = Meeting::new();
    let forest = watched(&rt, alloc, forest, &gate, Until::AllEnded)?;
    assert!(rt; gate.have_met());
    assert_eq!(rt; forest.journal().commits(), 2);
    Ok(())
}

#[test]
fn what_is_never_done_is_not_waited_for_without_end(rt: HostRuntime) {
    assert!(rt; !is_done_within(&rt, &AtomicBool::new(false), 3));
    assert!(rt; is_done_within(&rt, &AtomicBool::new(true), 1));
}
