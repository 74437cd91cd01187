// Copied executions set beside plain walks.
use crate::Walk;
use std::alloc::{AllocError, Global};
use txn_interp::State;
use txn_runs::{EmitRoom, End, Outcome};

/// Whether the state is where the walk is.
pub fn is_same(alloc: Global, state: &State, walk: &Walk) -> Result<bool, AllocError> {
    let same = state.position() == walk.made
        && state.ended() != walk.cut
        && state.emits().as_slice() == walk.emits.as_slice()
        && same_registers(state, walk)
        && same_reads(state, walk)
        && same_writes(state, walk);
    Ok(same && same_end(alloc, state, walk)?)
}

fn same_end(alloc: Global, state: &State, walk: &Walk) -> Result<bool, AllocError> {
    if !state.ended() {
        return Ok(walk.end == End::Going);
    }
    let room = EmitRoom::new(alloc, state.emits().as_slice().len() as u32)?;
    match state.outcome(room) {
        Outcome::Done { emits } => {
            Ok(walk.end == End::Going && emits.as_slice() == walk.emits.as_slice())
        }
        Outcome::Failed { code } => Ok(walk.end == End::Failed { code }),
        Outcome::Fault { kind } => Ok(walk.end == End::Fault { kind }),
    }
}

fn same_registers(state: &State, walk: &Walk) -> bool {
    for n in 0..16u8 {
        if state.reg(n) != walk.registers[n as usize] {
            return false;
        }
    }
    true
}

fn same_reads(state: &State, walk: &Walk) -> bool {
    let log = state.reads();
    if log.len() as usize != walk.reads.len() {
        return false;
    }
    for i in 0..log.len() {
        if walk.reads.get(i as usize) != Some(&log.nth(i)) {
            return false;
        }
    }
    true
}

fn same_writes(state: &State, walk: &Walk) -> bool {
    let set = state.writes();
    let mut found = 0u32;
    for item in 0..set.room() {
        let written = set.get(item);
        if written.is_some() {
            found = found.wrapping_add(1);
        }
        if walk.writes.get(item as usize).copied() != Some(written) {
            return false;
        }
    }
    found == set.len()
}
