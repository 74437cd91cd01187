use crate::histories::HISTORIES;
use crate::history::History;
use crate::job_lists::{JOB_LISTS, JOBS_CAME, WORKED_CAME, WORKED_LISTS};
use crate::lists::{CAME, LISTS, List};
use crate::opening::{begin, one_table};
use crate::stage::Stage;
use crate::tally::{NOTHING, Tally};
use crate::{events, history};
use item_table::Table;
use shadow_forest::Forest;
use std::alloc::Global;
use std::marker::Brand;
use std::sync::ledger::Blank;
use std::test::Fail;

fn played(alloc: Global, history: &History) -> Result<Option<usize>, Fail> {
    let blank = Blank::new(1);
    history::first_wrong::<Brand>(blank, alloc, history)
}

#[test]
fn worked_histories_end_as_they_must(rt: HostRuntime) -> Result<(), Fail> {
    let alloc = rt.alloc();
    for history in &HISTORIES {
        let wrong = played(alloc, history)?;
        assert_eq!(rt; wrong, None, "in {}", history.name);
    }
    Ok(())
}

fn happened(alloc: Global, list: &List, tally: &mut Tally) -> Result<Option<usize>, Fail> {
    let blank = Blank::new(1);
    events::first_wrong::<Brand>(blank, alloc, list, tally)
}

// The place of the first list in which something goes wrong, and of the event.
fn all_happened(
    alloc: Global,
    lists: &[List],
    tally: &mut Tally,
) -> Result<Option<(usize, usize)>, Fail> {
    for (place, list) in lists.iter().enumerate() {
        if let Some(wrong) = happened(alloc, list, tally)? {
            return Ok(Some((place, wrong)));
        }
    }
    Ok(None)
}

#[test]
fn shadows_are_runs_from_the_start_after_each_event(rt: HostRuntime) -> Result<(), Fail> {
    let alloc = rt.alloc();
    let all: [(&[List], Tally); 3] = [
        (&LISTS, CAME),
        (&JOB_LISTS, JOBS_CAME),
        (&WORKED_LISTS, WORKED_CAME),
    ];
    for (lists, came) in all {
        let mut tally = NOTHING;
        let wrong = all_happened(alloc, lists, &mut tally)?;
        assert_eq!(rt; wrong, None);
        assert_eq!(rt; tally, came);
    }
    Ok(())
}

#[test]
fn calls_that_take_memory_answer(rt: HostRuntime) -> Result<(), Fail> {
    let alloc = rt.alloc();
    let names = one_table(alloc)?;
    let mut stage = Stage::open(alloc, &[0, 0, 0, 0], 8, 64)?.ok_or("limits")?;
    let first = begin(alloc, &names, &mut stage, 1, "{ emit 1; }")?;
    assert_eq!(rt; first, Ok(1));
    assert_eq!(rt; stage.forest().shadows(1), 1);
    Ok(())
}

#[test]
fn ample_memory_grants_each_shadow(rt: HostRuntime) -> Result<(), Fail> {
    let alloc = rt.alloc();
    let forest = Forest::open_lean(alloc, Table::new(alloc, 4)?, 3, 2)?;
    assert_eq!(rt; forest.k(), 3);
    Ok(())
}
