// What happens to a forest, how a word tells it, and how a list of events happens.
ghost use Rattle.std.specs.Prelude.{◌≡◌};

use crate::lists::{List, OPENING, PROGRAMS};
use crate::opening::{begin, one_table};
use crate::shown::Shown;
use crate::stage::Stage;
use crate::starts::is_first;
use crate::tally::Tally;
use crate::watch::{is_idle, is_right};
use block_rule::Role;
use shadow_forest::{BeginRefusal, Did, Forest, Given, Stepped};
use std::alloc::Global;
use std::sync::ledger::{Blank, Ledger};
use std::test::Fail;
use step_count::Steps;
use txn_names::Names;

/// What happens to a forest.
#[derive(Clone, Copy)]
pub enum Event {
    /// The program of this number begins, with this deadline.
    Begin(u32, u32),
    Step(u32, Role),
    Commit(u32),
    Withdraw(u32),
    Run,
    Recall,
    Seal,
    Gate,
    /// The bench of this number takes a job.
    Take(usize),
    /// Its job makes at most so many steps.
    Local(usize, u32),
    Give(usize),
}

impl Event {
    /// The event that a word tells: `b3.1` that the program 3 begins with the deadline 1, `s2` a step of the optimistic
    /// shadow of 2, `s2.1` one of its shadow that waits for 1, `c2` a commit, `w2` a withdrawal, `t0` that the bench 0 takes a
    /// job, `l0.5` that this makes at most 5 steps, `g0` that it is given back, and `run`, `recall`, `seal`, `gate`.
    pub fn read(word: &str) -> Option<Event> {
        match word {
            "run" => return Some(Event::Run),
            "recall" => return Some(Event::Recall),
            "seal" => return Some(Event::Seal),
            "gate" => return Some(Event::Gate),
            _ => {}
        }
        let (letter, numbers) = word.split_at_checked(1)?;
        let Some((first, second)) = numbers.split_once('.') else {
            let txn = numbers.parse::<u32>().ok()?;
            return match letter {
                "s" => Some(Event::Step(txn, Role::Optimistic)),
                "c" => Some(Event::Commit(txn)),
                "w" => Some(Event::Withdraw(txn)),
                "t" => Some(Event::Take(txn as usize)),
                "g" => Some(Event::Give(txn as usize)),
                _ => None,
            };
        };
        let first = first.parse::<u32>().ok()?;
        let second = second.parse::<u32>().ok()?;
        match letter {
            "b" => Some(Event::Begin(first, second)),
            "s" => Some(Event::Step(first, Role::Guard(second))),
            "l" => Some(Event::Local(first as usize, second)),
            _ => None,
        }
    }
}

/// Lets the events of a list happen to a forest, and then drains it. The place of the first after which it isn't right, and the
/// number of the events where only the drain goes wrong.
pub fn first_wrong<L: Ledger>(
    blank: Blank,
    alloc: Global,
    list: &List,
    tally: &mut Tally,
) -> Result<Option<usize>, Fail>
    requires name { blank.name ≡ L.name }
    requires parts { blank.parts ≡ L.parts }
    requires one { blank.parts ≡ 1 }
{
    let names = one_table(alloc)?;
    let mut steps = Steps::<L>::new(blank);
    let mut stage = Stage::open(alloc, &OPENING, list.k, list.lanes)?.ok_or("limits")?;
    goes_wrong(alloc, &names, &mut stage, list.events, tally, &mut steps)
}

// The place of the first event after which a forest isn't right. The loop stands apart from what owns the forest, which is proved
// sooner so.
fn goes_wrong<L: Ledger>(
    alloc: Global,
    names: &Names,
    stage: &mut Stage,
    events: &str,
    tally: &mut Tally,
    steps: &mut Steps<L>,
) -> Result<Option<usize>, Fail> {
    let mut place = 0usize;
    for word in events.split_whitespace() {
        if !is_right_after(alloc, names, stage, word, tally, steps)? {
            return Ok(Some(place));
        }
        place = place.wrapping_add(1);
    }
    stage.drain(steps);
    if stage.forest().started_at(0).is_some() || !is_right(alloc, stage.forest())? {
        return Ok(Some(place));
    }
    Ok(None)
}

// Lets an event happen. Whether the forest is right, and is as it was where the event was refused.
fn is_right_after<L: Ledger>(
    alloc: Global,
    names: &Names,
    stage: &mut Stage,
    word: &str,
    tally: &mut Tally,
    steps: &mut Steps<L>,
) -> Result<bool, Fail> {
    let event = Event::read(word).ok_or("a word that tells no event")?;
    let before = Shown::of(alloc, stage.forest())?;
    let accepted = happen(alloc, names, stage, event, tally, steps)?;
    let shown = Shown::of(alloc, stage.forest())?;
    tally.look(&shown);
    let same = shown.is_same(&before);
    Ok(is_right(alloc, stage.forest())? && is_answered(stage.forest(), event, accepted, same))
}

// Whether nothing has changed where the event was refused, and else what the event alone promises holds.
fn is_answered(forest: &Forest, event: Event, accepted: bool, same: bool) -> bool {
    match event {
        _ if !accepted => same,
        Event::Run => is_idle(forest),
        Event::Commit(_) | Event::Withdraw(_) => match forest.started() {
            Some(txn) => is_first(forest, txn),
            None => true,
        },
        _ => true,
    }
}

// Lets an event happen. Whether it may have changed the forest.
fn happen<L: Ledger>(
    alloc: Global,
    names: &Names,
    stage: &mut Stage,
    event: Event,
    tally: &mut Tally,
    steps: &mut Steps<L>,
) -> Result<bool, Fail> {
    Ok(match event {
        Event::Begin(number, deadline) => {
            let text = PROGRAMS
                .get(number as usize)
                .ok_or("no program of this number")?;
            match begin(alloc, names, stage, deadline, text)? {
                Ok(_) => true,
                Err(BeginRefusal::Sealed) => {
                    tally.sealed();
                    false
                }
                Err(refusal) => return Err(Fail::from(refusal)),
            }
        }
        Event::Step(txn, role) => {
            let answer = stage.step(txn, role, steps);
            tally.stepped(answer, role != Role::Optimistic);
            matches!(answer, Stepped::Stepped { .. })
        }
        Event::Commit(txn) => {
            let answer = stage.commit(txn);
            tally.committed(answer, stage.forest());
            answer.is_ok()
        }
        Event::Withdraw(txn) => {
            let answer = stage.withdraw(txn);
            tally.withdrew(answer, stage.forest());
            answer.is_ok()
        }
        Event::Run => {
            tally.ran(stage.run_idle(steps));
            true
        }
        Event::Recall => {
            stage.recall();
            true
        }
        Event::Seal => {
            stage.seal();
            true
        }
        _ => goes_on(stage, event, tally, steps)?,
    })
}

// The same of a step under a gate and of the events of jobs.
fn goes_on<L: Ledger>(
    stage: &mut Stage,
    event: Event,
    tally: &mut Tally,
    steps: &mut Steps<L>,
) -> Result<bool, Fail> {
    Ok(match event {
        Event::Gate => {
            let did = stage.gate_step(steps);
            tally.gated(did, stage.forest());
            did != Did::Nothing
        }
        Event::Take(bench) => {
            let job = stage.take(bench)?;
            tally.took(job);
            job.is_some()
        }
        Event::Local(bench, most) => {
            let made = stage.run_local(bench, most, steps).ok_or("no job")?;
            tally.went_on(made);
            false
        }
        Event::Give(bench) => {
            let given = stage.give(bench).ok_or("no job")?;
            tally.gave(given);
            given == Given::Stored
        }
        _ => return Err(Fail::new("no such event")),
    })
}
