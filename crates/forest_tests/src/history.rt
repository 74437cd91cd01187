// Worked histories as data, and how they are played on a forest.
ghost use Rattle.std.specs.Prelude.{◌≡◌};

use crate::opening::{begin, one_table};
use crate::stage::Stage;
use crate::watch::is_right;
use block_rule::{Role, Standing};
use journal_core::{Entry, put_reply};
use shadow_forest::{
    BeginRefusal, CommitRefusal, Did, Forest, Given, Job, Life, Resumed, Stepped, WithdrawRefusal,
};
use std::alloc::{AllocError, Global};
use std::sync::ledger::{Blank, Ledger};
use std::test::Fail;
use step_count::Steps;
use txn_interp::State;
use txn_names::Names;

/// A shadow as it must be shown: its role, its position, its point and its standing.
pub type Look = (Role, u32, Option<u32>, Standing);

/// What a state holds: the registers that aren't 0, the items that its run has written, and what it has given out.
pub type Holding = (&'static [(u8, i64)], &'static [(u32, i64)], &'static [i64]);

/// What is done to a forest, and what must come of it.
pub enum Act {
    /// A program with this deadline begins, and is started or waits.
    Begin(u32, &'static str, Life),
    NoBegin(BeginRefusal),
    Seal,
    /// A step, and the position after it.
    Step(u32, Role, u32),
    NoStep(u32, Role, Stepped),
    /// A commit, with its reply, whom it takes back and to where, and whom it starts.
    Commit(u32, &'static str, &'static [Resumed], Option<u32>),
    NoCommit(u32, CommitRefusal),
    /// A withdrawal, and whom it starts.
    Withdraw(u32, Option<u32>),
    NoWithdraw(u32, WithdrawRefusal),
    /// Whom the last accepted commit or withdrawal took back and to where, and whom it started.
    Tells(&'static [Resumed], Option<u32>),
    /// So many steps are made until there is no pick.
    Run(u64),
    DrainStep(Did, Option<u32>),
    /// A step under a gate, and whom it started.
    Gate(Did, Option<u32>),
    /// What a bench takes.
    Take(usize, Option<Job>),
    /// A bench's job makes at most so many steps, and makes this many.
    Local(usize, u32, u32),
    /// A bench gives its job back.
    Give(usize, Given),
    Drain,
    /// The shadows of a transaction.
    Show(u32, &'static [Look]),
    /// What the state of the shadow at a place of a transaction holds.
    Holds(u32, u32, Holding),
    Lives(u32, Life),
}

/// A forest with these values at its opening, what is done to it, and the values and the order of commits at the end.
pub struct History {
    pub name: &'static str,
    pub k: u32,
    pub lanes: u32,
    pub opening: [i64; 4],
    pub acts: &'static [Act],
    pub last: [i64; 4],
    pub order: &'static [u32],
}

/// The place of the first act of which something else comes, and the number of acts where only the end is wrong.
pub fn first_wrong<L: Ledger>(
    blank: Blank,
    alloc: Global,
    history: &History,
) -> Result<Option<usize>, Fail>
    requires name { blank.name ≡ L.name }
    requires parts { blank.parts ≡ L.parts }
    requires one { blank.parts ≡ 1 }
{
    let names = one_table(alloc)?;
    let mut steps = Steps::<L>::new(blank);
    let Some(mut stage) = Stage::open(alloc, &history.opening, history.k, history.lanes)? else {
        return Ok(Some(0));
    };
    plays(alloc, &names, &mut stage, history, &mut steps)
}

// The place of the first act of which something else comes. The loop stands apart from what owns the forest, which is proved sooner
// so.
fn plays<L: Ledger>(
    alloc: Global,
    names: &Names,
    stage: &mut Stage,
    history: &History,
    steps: &mut Steps<L>,
) -> Result<Option<usize>, Fail> {
    for place in 0..history.acts.len() {
        let act = &history.acts[place];
        if !does(alloc, names, stage, act, steps)? || !is_right(alloc, stage.forest())? {
            return Ok(Some(place));
        }
    }
    let table = stage.forest().table();
    if table.row(0, table.len()) != history.last.as_slice()
        || commits(alloc, stage.forest())?.as_slice() != history.order
    {
        return Ok(Some(history.acts.len()));
    }
    Ok(None)
}

// The committed transactions in their order.
fn commits(alloc: Global, forest: &Forest) -> Result<Vec<u32>, AllocError> {
    let journal = forest.journal();
    let mut order = Vec::new(alloc);
    for place in 0..journal.len() {
        if let Entry::Committed { txn, .. } = journal.entry(place) {
            order.push(*txn)?;
        }
    }
    Ok(order)
}

// Whether what must come of an act comes of it.
fn does<L: Ledger>(
    alloc: Global,
    names: &Names,
    stage: &mut Stage,
    act: &Act,
    steps: &mut Steps<L>,
) -> Result<bool, Fail> {
    Ok(match act {
        Act::Begin(deadline, text, life) => {
            let answer = begin(alloc, names, stage, *deadline, text)?;
            lives(stage.forest(), answer, *life)
        }
        Act::NoBegin(refusal) => begin(alloc, names, stage, 1, "{ }")? == Err(*refusal),
        Act::Seal => {
            stage.seal();
            stage.forest().journal().sealed()
        }
        Act::Step(txn, role, position) => { stands(stage.step(*txn, *role, steps), *position) }
        Act::NoStep(txn, role, refusal) => stage.step(*txn, *role, steps) == *refusal,
        Act::Commit(txn, reply, resumed, starts) => {
            stage.commit(*txn).is_ok()
                && says(alloc, stage.forest(), *txn, reply)?
                && tells(stage.forest(), resumed, *starts)
        }
        Act::NoCommit(txn, refusal) => stage.commit(*txn) == Err(*refusal),
        Act::Withdraw(txn, starts) => {
            stage.withdraw(*txn).is_ok()
                && stage.forest().journal().withdrawn(*txn)
                && tells(stage.forest(), &[], *starts)
        }
        Act::NoWithdraw(txn, refusal) => stage.withdraw(*txn) == Err(*refusal),
        Act::Run(made) => stage.run_idle(steps) == *made,
        Act::DrainStep(did, starts) => {
            stage.drain_step(steps) == *did && stage.forest().started() == *starts
        }
        Act::Drain => {
            stage.drain(steps);
            stage.forest().started_at(0).is_none()
        }
        Act::Gate(did, starts) => {
            stage.gate_step(steps) == *did && stage.forest().started() == *starts
        }
        Act::Take(bench, job) => stage.take(*bench)? == *job,
        Act::Local(bench, most, made) => stage.run_local(*bench, *most, steps) == Some(*made),
        Act::Give(bench, given) => stage.give(*bench) == Some(*given),
        _ => is_seen(stage.forest(), act),
    })
}

// Whether a forest shows what must be seen.
fn is_seen(forest: &Forest, act: &Act) -> bool {
    match act {
        Act::Tells(resumed, starts) => tells(forest, resumed, *starts),
        Act::Show(txn, looks) => shows(forest, *txn, looks),
        Act::Holds(txn, place, holding) => match forest.shadow(*txn, *place) {
            Some(view) => holds(view.state, *holding),
            None => false,
        },
        Act::Lives(txn, life) => forest.life(*txn) == *life,
        _ => false,
    }
}

// Whether a transaction began, and stands so.
fn lives(forest: &Forest, answer: Result<u32, BeginRefusal>, life: Life) -> bool {
    match answer {
        Ok(txn) => forest.life(txn) == life,
        Err(_) => false,
    }
}

// Whether a step was made, to this position.
fn stands(answer: Stepped, at: u32) -> bool {
    matches!(answer, Stepped::Stepped { position } if position == at)
}

// Whether these were taken back, and this one was started.
fn tells(forest: &Forest, resumed: &[Resumed], starts: Option<u32>) -> bool {
    forest.resumed() == resumed && forest.started() == starts
}

// Whether this is the line of a transaction's commit.
fn says(alloc: Global, forest: &Forest, txn: u32, reply: &str) -> Result<bool, AllocError> {
    let Some(outcome) = forest.journal().outcome_of(txn) else {
        return Ok(false);
    };
    let mut line = Vec::new(alloc);
    put_reply(txn, outcome, &mut line)?;
    Ok(line.as_slice() == reply.as_bytes())
}

// Whether these are the shadows of a transaction, none of which is out.
fn shows(forest: &Forest, txn: u32, looks: &[Look]) -> bool {
    if forest.shadows(txn) as usize != looks.len() {
        return false;
    }
    for place in 0..looks.len() {
        match forest.shadow(txn, place as u32) {
            Some(view) => {
                if view.out
                    || (view.role, view.position, view.point, view.standing) != looks[place]
                {
                    return false;
                }
            }
            None => return false,
        }
    }
    true
}

// Whether a state holds this.
fn holds(state: &State, holding: Holding) -> bool {
    let (registers, writes, emits) = holding;
    for n in 0..16u8 {
        if state.reg(n) != register(registers, n) {
            return false;
        }
    }
    for write in writes {
        if state.writes().get(write.0) != Some(write.1) {
            return false;
        }
    }
    state.writes().len() as usize == writes.len() && state.emits().as_slice() == emits
}

// What a register has, where those that aren't 0 are these.
fn register(registers: &[(u8, i64)], n: u8) -> i64 {
    for each in registers {
        if each.0 == n {
            return each.1;
        }
    }
    0
}
