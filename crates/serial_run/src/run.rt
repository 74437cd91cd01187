// A state's run to its end.
ghost use Rattle.std.specs.Prelude.{◌≡◌, ◌+◌, length, false};
ghost use Rattle.txn_interp.specs.State.{Runs};
ghost use Rattle.serial_run.specs.Ran.{RunsOut, StepsOver};

use item_table::Table;
use std::sync::ledger::Ledger;
use step_count::Steps;
use txn_code::Code;
use txn_interp::{Kind, State};

// More steps than any program makes.
const ALL: u32 = 100_000;

/// Runs a state over tables until its program has ended.
pub(crate) fn run_out<L: Ledger>(
    state: &mut State,
    code: &Code,
    tables: &Table,
    steps: &mut Steps<L>,
)
    requires runs { Runs code.now.nodes state.old }
    requires items { length tables.now ≡ state.old.log.room }
    ensures runs { Runs code.now.nodes state.new }
    ensures out { RunsOut code.now.nodes tables.now state.old state.new }
    ensures ticks { steps.new + state.old.position ≡ steps.old + state.new.position }
{
    'turns: loop {
        state.run_local(code, ALL, steps);
        if state.ended() {
            return;
        }
        step(state, code, tables, steps);
    }
}

// Makes the next step, whatever it is.
fn step<L: Ledger>(state: &mut State, code: &Code, tables: &Table, steps: &mut Steps<L>)
    requires runs { Runs code.now.nodes state.old }
    requires goes { state.old.done ≡ false }
    requires items { length tables.now ≡ state.old.log.room }
    ensures runs { Runs code.now.nodes state.new }
    ensures step { StepsOver code.now.nodes tables.now state.old state.new }
    ensures tick { steps.new ≡ steps.old + 1 }
{
    match state.next_kind(code) {
        Kind::Local => state.step_local(code, steps),
        Kind::TableRead { item } => state.step_read(code, tables.get(item), steps),
        Kind::Write { .. } => state.step_write(code, steps),
        Kind::Ended => unreachable!(),
    }
}
