// What a turn does to the forest.
ghost use Rattle.std.specs.Prelude.{◌≡◌, ◌+◌, ◌≤◌, ◌↔◌, true, false, None, length, option_map, IfSome};
ghost use Rattle.journal_core.specs.Journal.{is_live};
ghost use Rattle.forest_model.specs.Drain.{gate_step as gate_step_of};
ghost use Rattle.shadow_forest.specs.View.{gate_step_view};
ghost use Rattle.shadow_forest.specs.Answers.{did_ticks};
ghost use Rattle.shadow_forest.specs.Bench.{told, job_in, IsOfRun};
ghost use Rattle.shadow_forest.specs.Listed.{listed};
ghost use Rattle.shadow_worker.specs.Turn.{IsOfProgram, given_view, taken_view, taken_job, turn_view, turn_did, turn_job};
ghost use Rattle.shadow_worker.specs.Worked.{Fits, IsAtMostCommitted, HasEnded};
ghost use Rattle.shadow_worker.specs.declared.turn.After.TheVariants.{Ended};

use shadow_forest::{Bench, Forest, Job};
use std::sync::ledger::Ledger;
use step_count::Steps;

/// What one turn does: the bench's job, if it has one, is given back; one step is made under the gate; and where `more` holds the pick
/// is taken. Answers the job taken: `None` exactly where `more` is false or there is no pick after the step. Takes no memory.
pub fn one_turn<L: Ledger>(
    forest: &mut Forest,
    bench: &mut Bench,
    more: bool,
    steps: &mut Steps<L>,
) -> Option<Job>
    requires job { IfSome bench.old.outside (IsOfProgram forest.old.numbers) }
    requires items { bench.old.items ≡ length forest.old.numbers.tables }
    ensures answer { result ≡ option_map told bench.new.outside }
    ensures next { forest.new ≡ turn_view forest.old bench.old.outside more }
    ensures grown { IsAtMostCommitted (listed forest.old) (listed forest.new) }
    ensures taken { option_map (job_in forest.new.numbers) bench.new.outside ≡ turn_job forest.old bench.old.outside more }
    ensures runs { IfSome bench.new.outside (IsOfRun forest.new.numbers) }
    ensures live { IfSome bench.new.outside (λ x. is_live forest.new.numbers.journal x.number ≡ true) }
    ensures room { bench.new.items ≡ bench.old.items }
    ensures ticks { steps.new ≡ steps.old + did_ticks (turn_did forest.old bench.old.outside) }
{
    give_back(forest, bench);
    step_gated(forest, steps);
    take_if(forest, bench, more)
}

// The bench's job, if it has one, is given back.
fn give_back(forest: &mut Forest, bench: &mut Bench)
    requires job { IfSome bench.old.outside (IsOfProgram forest.old.numbers) }
    requires items { bench.old.items ≡ length forest.old.numbers.tables }
    ensures next { forest.new ≡ given_view forest.old bench.old.outside }
    ensures list { listed forest.new ≡ listed forest.old }
    ensures size { length forest.new.numbers.tables ≡ length forest.old.numbers.tables }
    ensures bench { bench.new ≡ record bench.old { outside = None } }
{
    if bench.job().is_some() {
        let _given = forest.give(bench);
    }
}

// One step under the gate.
fn step_gated<L: Ledger>(forest: &mut Forest, steps: &mut Steps<L>)
    ensures next { forest.new ≡ gate_step_view forest.old }
    ensures grown { IsAtMostCommitted (listed forest.old) (listed forest.new) }
    ensures size { length forest.new.numbers.tables ≡ length forest.old.numbers.tables }
    ensures ticks { steps.new ≡ steps.old + did_ticks (gate_step_of forest.old.numbers).0 }
{
    // that the forest is sound comes with its journal
    let _ = forest.journal();
    forest.gate_step(steps);
}

// The pick is taken, where one is to be taken.
fn take_if(forest: &mut Forest, bench: &mut Bench, more: bool) -> Option<Job>
    requires empty { bench.old.outside ≡ None }
    requires items { bench.old.items ≡ length forest.old.numbers.tables }
    ensures answer { result ≡ option_map told bench.new.outside }
    ensures next { forest.new ≡ taken_view more forest.old }
    ensures list { listed forest.new ≡ listed forest.old }
    ensures taken { option_map (job_in forest.new.numbers) bench.new.outside ≡ taken_job more forest.old.numbers }
    ensures runs { IfSome bench.new.outside (IsOfRun forest.new.numbers) }
    ensures live { IfSome bench.new.outside (λ x. is_live forest.new.numbers.journal x.number ≡ true) }
    ensures room { bench.new.items ≡ bench.old.items }
{
    // that the forest is sound comes with its journal
    let _ = forest.journal();
    if more { forest.take(bench) } else { None }
}

/// What comes after a turn.
#[derive(Clone, Copy)]
pub(crate) enum After {
    /// The bench has a job to run.
    Taken,
    /// There was no job to take, but a commit was made.
    Committed,
    /// There was no job to take, and nothing was committed.
    Idle,
    /// The journal is sealed, and no transaction is live.
    Ended,
}

// One turn, and what comes after it.
pub(crate) fn turn_over<L: Ledger>(
    forest: &mut Forest,
    bench: &mut Bench,
    more: bool,
    steps: &mut Steps<L>,
) -> After
    requires fits { Fits (listed forest.old) bench.old }
    ensures grown { IsAtMostCommitted (listed forest.old) (listed forest.new) }
    ensures fits { Fits (listed forest.new) bench.new }
    ensures room { bench.new.items ≡ bench.old.items }
    ensures last { more ≡ false → bench.new.outside ≡ None }
    ensures ended { result ≡ Ended → HasEnded forest.new.numbers.journal × (bench.new.outside ≡ None) }
    ensures later { steps.old ≤ steps.new }
{
    let entries = forest.journal().len();
    let job = one_turn(forest, bench, more, steps);
    if has_ended(forest) {
        After::Ended
    } else if job.is_some() {
        After::Taken
    } else if forest.journal().len() > entries {
        After::Committed
    } else {
        After::Idle
    }
}

// Whether the journal is sealed and no transaction is live.
fn has_ended(forest: &Forest) -> bool
    ensures { (result ≡ true) ↔ HasEnded forest.now.numbers.journal }
{
    // the limits: with a lane there is nobody who waits while nobody is started
    let _ = forest.lanes();
    forest.journal().sealed() && forest.started_at(0).is_none()
}
