ghost use Rattle.std.specs.Prelude.{◌≡◌, ◌<◌, ◌≤◌, ◌+◌, None, Some, option_map, IfOk, IfSome};
ghost use Rattle.txn_interp.specs.State.{Held};
ghost use Rattle.txn_interp.specs.Kind.{HasKind};
ghost use Rattle.txn_runs.specs.declared.kind.Kind.TheVariants.{Local};
ghost use Rattle.shadow_forest.specs.Bench.{Outside, Benched, benched, told, IsOutside, IsFurther};

use std::alloc::{AllocError, Global};
use std::marker::Model;
use std::sync::ledger::Ledger;
use step_count::Steps;
use txn_code::Code;
use txn_interp::State;

/// A shadow that was handed out: its transaction, and where it stood.
#[derive(Clone, Copy, Debug, PartialEq, Eq)]
pub struct Job {
    pub txn: u32,
    pub from: u32,
}

/// What became of a job that was given back.
#[derive(Clone, Copy, Debug, PartialEq, Eq)]
pub enum Given {
    /// A shadow goes on from it.
    Stored,
    /// No shadow takes it.
    Gone,
}

/// Room outside the forest for the state of one shadow, which makes steps there that need no tables.
#[derive(Drop)]
pub struct Bench {
    job: Option<Job>,
    state: State,
    code: Code,
}

impl Model for Bench {
    ghost use Rattle.std.specs.Prelude.{◌≡◌, IfSome};
    ghost use Rattle.shadow_forest.specs.Bench.{Benched, benched, IsOutside};

    ghost Value = { Benched };

    ghost view = { λ b. benched b.job b.code.nodes b.state };

    ghost invariant = { λ b. (b.code.room ≡ 257) × IfSome (benched b.job b.code.nodes b.state).outside IsOutside };
}

impl Bench {
    /// Room for a state over so many items, at most 1,024, with no job. No later call takes memory.
    ///
    /// # Errors
    /// Where memory runs out.
    pub fn open(alloc: Global, items: u32) -> Result<Bench, AllocError>
        requires { items ≤ 1024 }
        ensures { IfOk result (λ b. b ≡ record { items = items; outside = None }) }
    {
        let state = State::room(alloc, items)?;
        let code = Code::room(alloc)?;
        Ok(Bench {
            job: None,
            state,
            code,
        })
    }

    /// The job that it has, if it has one. By the type its state is that of a run of its program, and each step since it was taken was
    /// one that needs no tables.
    pub fn job(&self) -> Option<Job>
        ensures job { result ≡ option_map told self.now.outside }
        ensures runs { IfSome self.now.outside IsOutside }
    {
        self.job
    }

    /// Makes steps of its job that need no tables, until the next one does or so many are made, and answers their number. Each ticks
    /// once. It has a job.
    pub fn run_local<L: Ledger>(&mut self, most: u32, steps: &mut Steps<L>) -> u32
        requires { (x : Outside) × (self.old.outside ≡ Some x) }
        ensures further { (x : Outside) → self.old.outside ≡ Some x → (state : Held) × (self.new ≡ record self.old { outside = Some (record x { state = state }) }) × IsFurther x.nodes result x.state state }
        ensures most { result ≤ most }
        ensures stops { (x : Outside) → self.new.outside ≡ Some x → result < most → HasKind x.nodes x.state Local → ⊥ }
        ensures ticks { steps.new ≡ steps.old + result }
    {
        self.state.run_local(&self.code, most, steps)
    }

    /// Forgets its job.
    pub fn clear(&mut self)
        ensures { self.new ≡ record self.old { outside = None } }
    {
        self.job = None;
    }

    // Has this job from now on.
    pub(crate) fn load(&mut self, job: Job, state: &State, code: &Code)
        requires room { state.now.log.room ≡ self.old.items }
        requires outside { IsOutside (record { number = job.txn; from = job.from; nodes = code.now.nodes; state = state.now }) }
        ensures { self.new ≡ benched (Some job) code.now.nodes state.now }
    {
        self.state.copy_from(state);
        self.code.copy_from(code);
        self.job = Some(job);
    }

    // The state of its job.
    pub(crate) fn state(&self) -> &State
        ensures state { (x : Outside) → self.now.outside ≡ Some x → result.now ≡ x.state }
        ensures room { result.now.log.room ≡ self.now.items }
    {
        &self.state
    }
}
