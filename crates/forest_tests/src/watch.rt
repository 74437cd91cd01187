// A forest set beside plain walks of its programs from their starts.
use crate::conflicts::{Reader, are_wanted};
use crate::serial::{is_serial, program_of};
use crate::starts::are_started;
use block_rule::Standing;
use plain_walk::{Walk, is_same, walk_program};
use shadow_forest::Forest;
use std::alloc::{AllocError, Global};

/// Whether each shadow of each transaction is where the plain walk of its program over the present tables is after as many steps,
/// the shadows are those that these walks ask for, the tables and the outcomes are those of the serial order, those are started
/// that may be, and no more shadows are there than may be.
pub fn is_right(alloc: Global, forest: &Forest) -> Result<bool, AllocError> {
    let mut readers = Vec::new(alloc);
    for before in 0..forest.journal().began() {
        let txn = before.wrapping_add(1);
        if forest.shadows(txn) > forest.k() || !all_same(alloc, forest, txn)? {
            return Ok(false);
        }
        if let Some(walk) = walk_at(alloc, forest, txn, 0)? {
            readers.push(Reader { txn, walk })?;
        }
    }
    Ok(are_started(forest) && are_wanted(forest, readers.as_slice()) && is_serial(alloc, forest)?)
}

/// Whether no shadow may make a step that isn't out.
pub fn is_idle(forest: &Forest) -> bool {
    for before in 0..forest.journal().began() {
        let txn = before.wrapping_add(1);
        for place in 0..forest.shadows(txn) {
            if is_runnable(forest, txn, place) {
                return false;
            }
        }
    }
    true
}

fn is_runnable(forest: &Forest, txn: u32, place: u32) -> bool {
    match forest.shadow(txn, place) {
        Some(view) => view.standing == Standing::Runnable && !view.out,
        None => false,
    }
}

fn all_same(alloc: Global, forest: &Forest, txn: u32) -> Result<bool, AllocError> {
    let shadows = forest.shadows(txn);
    for place in 0..shadows {
        if !is_same_at(alloc, forest, txn, place)? {
            return Ok(false);
        }
    }
    Ok(forest.shadow(txn, shadows).is_none())
}

fn is_same_at(alloc: Global, forest: &Forest, txn: u32, place: u32) -> Result<bool, AllocError> {
    match (
        forest.shadow(txn, place),
        walk_at(alloc, forest, txn, place)?,
    ) {
        (Some(view), Some(walk)) => {
            Ok(view.position == walk.made && is_same(alloc, view.state, &walk)?)
        }
        _ => Ok(false),
    }
}

// The plain walk of as many steps as a shadow has made.
fn walk_at(
    alloc: Global,
    forest: &Forest,
    txn: u32,
    place: u32,
) -> Result<Option<Walk>, AllocError> {
    match (forest.shadow(txn, place), program_of(forest.journal(), txn)) {
        (Some(view), Some(program)) => {
            let walk = walk_program(alloc, program, forest.table(), view.position)?;
            Ok(Some(walk))
        }
        _ => Ok(None),
    }
}
