// Which transactions are started, and which wait.
use journal_core::{Entry, Journal};
use shadow_forest::{Forest, Life};

/// Whether exactly the live transactions are started or wait, those that are started are told in the order of their numbers and
/// have shadows, and none waits where a lane is free.
pub fn are_started(forest: &Forest) -> bool {
    let mut started = 0u32;
    let mut waits = false;
    for before in 0..forest.journal().began() {
        let txn = before.wrapping_add(1);
        let life = forest.life(txn);
        if (life == Life::Unknown) == forest.journal().live(txn)
            || (life == Life::Started) == (forest.shadows(txn) == 0)
        {
            return false;
        }
        if life == Life::Started {
            if forest.started_at(started) != Some(txn) {
                return false;
            }
            started = started.wrapping_add(1);
        }
        waits = waits || life == Life::Waiting;
    }
    let full = started == forest.lanes();
    forest.started_at(started).is_none() && started <= forest.lanes() && (full || !waits)
}

/// Whether none that still waits comes before the one that was started, by deadline and number.
pub fn is_first(forest: &Forest, txn: u32) -> bool {
    for before in 0..forest.journal().began() {
        let other = before.wrapping_add(1);
        if forest.life(other) == Life::Waiting && !comes_before(forest.journal(), txn, other) {
            return false;
        }
    }
    true
}

fn comes_before(journal: &Journal, txn: u32, other: u32) -> bool {
    match (deadline_of(journal, txn), deadline_of(journal, other)) {
        (Some(mine), Some(its)) => mine < its || (mine == its && txn < other),
        _ => false,
    }
}

fn deadline_of(journal: &Journal, of: u32) -> Option<u64> {
    for place in 0..journal.len() {
        match journal.entry(place) {
            Entry::Began { txn, deadline, .. } if *txn == of => return Some(*deadline),
            _ => {}
        }
    }
    None
}
