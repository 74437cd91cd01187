// The serial order of a journal, walked from its opening tables.
use item_table::Table;
use journal_core::{Entry, Journal};
use plain_walk::{Walk, walk_program};
use shadow_forest::Forest;
use std::alloc::{AllocError, Global};
use txn_runs::{End, Outcome, Program};

/// Whether each outcome is that of its program over the tables which those before it have left, and the tables of now are those
/// which the last one has left.
pub fn is_serial(alloc: Global, forest: &Forest) -> Result<bool, AllocError> {
    let journal = forest.journal();
    let mut tables = journal.opening().copy()?;
    for place in 0..journal.len() {
        if let Entry::Committed { txn, outcome } = journal.entry(place) {
            if !goes_on(alloc, journal, *txn, outcome, &mut tables)? {
                return Ok(false);
            }
        }
    }
    Ok(tables.row(0, tables.len()) == forest.table().row(0, forest.table().len()))
}

// Whether a program comes to this outcome over these tables, which it changes.
fn goes_on(
    alloc: Global,
    journal: &Journal,
    txn: u32,
    outcome: &Outcome,
    tables: &mut Table,
) -> Result<bool, AllocError> {
    let Some(program) = program_of(journal, txn) else {
        return Ok(false);
    };
    let walk = walk_program(alloc, program, tables, u32::MAX)?;
    match outcome {
        Outcome::Done { emits } => {
            lay(&walk, tables);
            Ok(walk.end == End::Going && emits.as_slice() == walk.emits.as_slice())
        }
        Outcome::Failed { code } => Ok(walk.end == End::Failed { code: *code }),
        Outcome::Fault { kind } => Ok(walk.end == End::Fault { kind: *kind }),
    }
}

fn lay(walk: &Walk, tables: &mut Table) {
    for item in 0..tables.len() {
        let written = walk.writes.get(item as usize).copied().flatten();
        match written {
            Some(value) if item < tables.len() => tables.set(item, value),
            _ => {}
        }
    }
}

/// The program with which a transaction began.
pub fn program_of(journal: &Journal, txn: u32) -> Option<&Program> {
    for place in 0..journal.len() {
        match journal.entry(place) {
            Entry::Began {
                txn: other,
                program,
                ..
            } if *other == txn => return Some(program),
            _ => {}
        }
    }
    None
}
