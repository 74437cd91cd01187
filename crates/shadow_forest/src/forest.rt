mod running;

ghost use Rattle.std.specs.Prelude.{[], ◌≡◌, ◌+◌, ◌≤◌, ◌<◌, ◌↔◌, ℕ, true, false, None, Some, Err, length, map, slice_get, option_map, IsOk, IfOk, IfErr, IfSome, OnOk, OnErr};
ghost use Rattle.std.specs.List.{AllByRecursion};
ghost use Rattle.txn_runs.specs.Bounds.{reach};
ghost use Rattle.txn_runs.specs.Serial.{outcome_of};
ghost use Rattle.txn_interp.specs.State.{IsRun};
ghost use Rattle.journal_core.specs.Journal.{began, is_live, is_sealed, program_of, committed_of};
ghost use Rattle.block_rule.specs.declared.role.Role.TheVariants.{Optimistic, Guard};
ghost use Rattle.forest_model.specs.Forest.{Started, find_started, length_of, is_ended};
ghost use Rattle.forest_model.specs.Told.{looks};
ghost use Rattle.forest_model.specs.Runs.{is_done as is_done_of};
ghost use Rattle.forest_model.specs.Sound.{IsSound, IsHome, IsIdle};
ghost use Rattle.forest_model.specs.Events.{begin as begin_of, seal as seal_of, step as step_of, commit as commit_of, withdraw as withdraw_of, step_role, committed};
ghost use Rattle.forest_model.specs.Drain.{after_step, run_idle as run_idle_of, first_ended as first_ended_of, drain_step as drain_step_of, until_commit, drain as drain_of, gate_by, gate_step as gate_step_of, state_of};
ghost use Rattle.forest_model.specs.Jobs.{recall as recall_of};
ghost use Rattle.shadow_forest.specs.View.{View, opened_view, IsOpenedLean, with_numbers, commit_view, withdraw_view, gate_step_view, drain_step_view, drain_view, told_commit};
ghost use Rattle.shadow_forest.specs.Answers.{begin_refusal, step_answer, step_ticks, commit_refusal, withdraw_refusal, did_ticks, life_of, resumed_pair, looks_of, outs, IsWithin};
ghost use Rattle.shadow_forest.specs.declared.answers.BeginRefusal.TheVariants.{Sealed, TooMany};
ghost use Rattle.shadow_forest.specs.declared.answers.ShadowView.{ShadowView as ShadowViewOf};
ghost use Rattle.shadow_forest.specs.Parts.{slot_of};
ghost use Rattle.forest_model.specs.Jobs.{taken, take_pick, job_of, give as give_of};
ghost use Rattle.forest_model.specs.Pick.{pick as pick_of};
ghost use Rattle.forest_model.specs.Runs.{is_local as is_local_of};
ghost use Rattle.txn_code.specs.Nodes.{nodes_of};
ghost use Rattle.shadow_forest.specs.declared.bench.Given.TheVariants.{Stored};
ghost use Rattle.shadow_forest.specs.Bench.{Outside, told, outside_of, job_in, given_answer, after_give, IsOutside, IsOfRun, IsPresent};

use crate::answers::{
    BeginRefusal, CommitRefusal, Life, Resumed, ShadowView, Stepped, WithdrawRefusal,
};
use crate::bench::{Bench, Given, Job};
use crate::committing::{cut_others, start_waiting};
use crate::giving::slot_out;
use crate::opening::granted_lanes;
use crate::picking::{pick, role_at};
use crate::priority::first_ended;
use crate::rooms::{free_room, take_room};
use crate::settling::renew_marked;
use crate::txn::{Txn, code_of, deadline_of, free_code};
use block_rule::{Role, Row, Standing, status};
use forest_model::Did;
use indexed_lanes::IndexedLanes;
use item_table::Table;
use journal_core::{Entry, Journal};
use std::alloc::{AllocError, Global};
use std::marker::Model;
use std::sync::ledger::Ledger;
use step_count::Steps;
use txn_code::link;
use txn_interp::{Kind, State};
use txn_runs::{EmitRoom, Outcome, Program};
use wait_list::WaitList;

/// How many transactions may begin.
const MOST_TRANSACTIONS: u32 = 20_000;

/// Transactions under way, as shadows. Contracts see it in numbers: the journal, the present tables, and how far each shadow
/// has come. The type keeps it sound, and keeps each state equal to what its program, run anew over the present tables, has
/// reached after as many steps.
#[derive(Drop)]
pub struct Forest {
    alloc: Global,
    journal: Journal,
    tables: Table,
    // what is kept of each, number 1 first; of who has ended, no code
    txns: Vec<Txn>,
    // for what each transaction emits, number 1 first; who has ended has none
    rooms: Vec<EmitRoom>,
    waiting: WaitList,
    lanes: IndexedLanes,
    resumed: Vec<Resumed>,
    starts: Option<u32>,
}

impl Model for Forest {
    ghost use Rattle.std.specs.Prelude.{map, length, ◌≤◌};
    ghost use Rattle.std.specs.Vec.{vec_capacity};
    ghost use Rattle.std.specs.Coded.{codes};
    ghost use Rattle.journal_core.specs.contracts.entry.Entry as entry;
    ghost use Rattle.shadow_forest.specs.View.{View};
    ghost use Rattle.shadow_forest.specs.Answers.{resumed_pair};
    ghost use Rattle.shadow_forest.specs.Kept.{forest_of, numbers_waiting, IsForest, AreQueued, HaveRooms};

    ghost Value = { View };

    ghost coded = { Prim.hlevel (codes, entry.the_row.coded) };

    ghost view = { λ f. record {
      numbers = forest_of f.journal f.tables f.lanes;
      resumed = map resumed_pair f.resumed.items;
      starts = f.starts;
    } };

    ghost invariant = { λ f. IsForest f.journal f.tables f.txns.items (numbers_waiting f.waiting) f.lanes × (f.lanes.lanes ≤ vec_capacity f.resumed) × AreQueued f.txns.items f.waiting × HaveRooms f.journal.entries f.rooms.items };
}

impl Forest {
    /// A forest over these tables, in which nothing began, for at most `k` shadows a transaction, 1 to 8, and at most `lanes` started
    /// transactions, 1 to 64. Takes the memory for all states; where that runs out, `AllocError`.
    pub fn open(alloc: Global, table: Table, k: u32, lanes: u32) -> Result<Forest, AllocError>
        requires least { 1 ≤ k }
        requires most { k ≤ 8 }
        requires some { 1 ≤ lanes }
        requires lanes { lanes ≤ 64 }
        ensures { IfOk result (λ f. f ≡ opened_view table k lanes) }
    {
        let items = table.len();
        let lines = IndexedLanes::open(alloc, items, k, lanes)?;
        Forest::over(alloc, table, lines)
    }

    /// As `open`, with as many shadows a transaction as there is memory for: `k`, or else `k - 1`, and so on down to 1. What was refused
    /// is given back before fewer are asked for. `Forest::k` answers how many were granted; `AllocError` where there is no room for one.
    pub fn open_lean(alloc: Global, table: Table, k: u32, lanes: u32) -> Result<Forest, AllocError>
        requires least { 1 ≤ k }
        requires most { k ≤ 8 }
        requires some { 1 ≤ lanes }
        requires lanes { lanes ≤ 64 }
        ensures { IfOk result (IsOpenedLean table k lanes) }
    {
        let items = table.len();
        let lines = granted_lanes(alloc, items, k, lanes)?;
        Forest::over(alloc, table, lines)
    }

    // A forest over these tables, in which nothing began, on lanes where nobody is started.
    fn over(alloc: Global, table: Table, lines: IndexedLanes) -> Result<Forest, AllocError>
        requires unstarted { lines.seats ≡ [] }
        requires items { lines.items ≡ length table }
        ensures { IfOk result (λ f. f ≡ opened_view table lines.most lines.lanes) }
    {
        // the limits come with the number of the started
        let _ = lines.len();
        let lanes = lines.lanes();
        let opening = table.copy()?;
        let mut journal = Journal::new(alloc, opening);
        journal.reserve(1)?;
        let resumed = Vec::with_capacity(alloc, lanes as usize)?;
        Ok(Forest {
            alloc,
            journal,
            tables: table,
            txns: Vec::new(alloc),
            rooms: Vec::new(alloc),
            waiting: WaitList::new(alloc),
            lanes: lines,
            resumed,
            starts: None,
        })
    }

    /// How many shadows a transaction has, at most.
    pub fn k(&self) -> u32
        ensures k { result ≡ self.now.numbers.k }
        ensures least { 1 ≤ result }
        ensures most { result ≤ 8 }
    {
        // the limits come with the number of the started
        let _ = self.lanes.len();
        self.lanes.most()
    }

    /// How many transactions are started at once, at most.
    pub fn lanes(&self) -> u32
        ensures lanes { result ≡ self.now.numbers.lanes }
        ensures some { 1 ≤ result }
        ensures many { result ≤ 64 }
    {
        // the limits come with the number of the started
        let _ = self.lanes.len();
        self.lanes.lanes()
    }

    /// The present tables: those after the committed programs were run alone, one after another.
    pub fn table(&self) -> &Table
        ensures { result.now ≡ self.now.numbers.tables }
    {
        &self.tables
    }

    /// What happened since the forest was opened. By the type the forest is sound, each program fits the tables, and each deadline
    /// is within its limit.
    pub fn journal(&self) -> &Journal
        ensures opening { result.now.opening ≡ self.now.numbers.opening }
        ensures entries { result.now.entries ≡ self.now.numbers.journal }
        ensures sound { IsSound self.now.numbers }
        ensures items { length self.now.numbers.tables ≡ length self.now.numbers.opening }
        ensures within { AllByRecursion (IsWithin (length self.now.numbers.opening)) self.now.numbers.journal }
    {
        &self.journal
    }

    /// Whom the last accepted commit or withdrawal took back, in the order of numbers.
    pub fn resumed(&self) -> &[Resumed]
        ensures { map resumed_pair result.now ≡ self.now.resumed }
    {
        &self.resumed
    }

    /// Whom the last accepted commit or withdrawal started, if it did.
    pub fn started(&self) -> Option<u32>
        ensures { result ≡ self.now.starts }
    {
        self.starts
    }

    /// The started transaction at a place, from 0, in the order of numbers. `None` exactly where there are not so many.
    pub fn started_at(&self, place: u32) -> Option<u32>
        ensures { result ≡ option_map (λ (r : Started). r.number) (slice_get self.now.numbers.started place) }
    {
        if place < self.lanes.len() {
            Some(self.lanes.number(place))
        } else {
            None
        }
    }

    /// How a transaction stands.
    pub fn life(&self, txn: u32) -> Life
        ensures { result ≡ life_of self.now.numbers txn }
    {
        if !self.journal.live(txn) {
            Life::Unknown
        } else if self.lanes.find(txn).is_some() {
            Life::Started
        } else {
            Life::Waiting
        }
    }

    /// How many shadows a transaction has; 0 where it is not started.
    pub fn shadows(&self, txn: u32) -> u32
        ensures { result ≡ length (looks_of self.now.numbers txn) }
    {
        // the limits come with the number of the started
        let _ = self.lanes.len();
        match self.lanes.find(txn) {
            None => 0,
            Some(place) => self.lanes.conflicts(place).len() as u32 + 1,
        }
    }

    /// A shadow of a transaction; place 0 is the optimistic one. Its state is its program's run from the start over the present
    /// tables, stopped at its position. None exactly where there are not so many.
    pub fn shadow(&self, txn: u32, place: u32) -> Option<ShadowView<'_>>
        ensures look { option_map (λ (v : ShadowViewOf). (v.role, (v.position, (v.point, v.standing)))) result ≡ slice_get (looks_of self.now.numbers txn) place }
        ensures out { option_map (λ (v : ShadowViewOf). v.out) result ≡ slice_get (outs (find_started self.now.numbers.started txn)) place }
        ensures position { IfSome result (λ v. v.position ≡ v.state.now.position) }
        ensures runs { IfSome result (λ v. IsRun (program_of self.now.numbers.journal txn) self.now.numbers.tables v.state.now) }
    {
        match self.lanes.find(txn) {
            None => None,
            Some(at) => self.view(at, place),
        }
    }

    /// Begins a transaction and answers its number: it is started where a lane is free, and waits else. Takes the memory for its
    /// whole life. The program fits the tables, and the deadline is at most 1,000,000,000,000. `Sealed` exactly where the journal is
    /// sealed, else `TooMany` exactly where 20,000 began; `OutOfMemory` comes last. A refusal leaves all as it was.
    pub fn begin(&mut self, program: Program, deadline: u64) -> Result<u32, BeginRefusal>
        requires fits { reach program ≤ length self.old.numbers.tables }
        requires deadline { deadline ≤ 1000000000000 }
        ensures number { IfOk result (λ txn. txn ≡ began self.old.numbers.journal + 1) }
        ensures accepted { OnOk result (begin_refusal (begin_of self.old.numbers program deadline) ≡ None) }
        ensures next { OnOk result (self.new ≡ with_numbers (after_step self.old.numbers (begin_of self.old.numbers program deadline)) self.old) }
        ensures refused { OnErr result (self.new ≡ self.old) }
        ensures sealed { (result ≡ Err Sealed) ↔ (begin_refusal (begin_of self.old.numbers program deadline) ≡ Some Sealed) }
        ensures too_many { (result ≡ Err TooMany) ↔ (begin_refusal (begin_of self.old.numbers program deadline) ≡ Some TooMany) }
    {
        if self.journal.sealed() {
            return Err(BeginRefusal::Sealed);
        }
        if self.journal.began() == MOST_TRANSACTIONS {
            return Err(BeginRefusal::TooMany);
        }
        match self.enter(program, deadline) {
            Ok(txn) => Ok(txn),
            Err(_) => Err(BeginRefusal::OutOfMemory),
        }
    }

    /// From now on no transaction may begin or be withdrawn.
    pub fn seal(&mut self)
        ensures { self.new ≡ with_numbers (seal_of self.old.numbers) self.old }
    {
        if !self.journal.sealed() {
            self.journal.push_reserved(Entry::Sealed);
        }
    }

    /// One step of a shadow over the present tables, which takes its mark away. After one of an optimistic shadow each transaction
    /// has the shadows that it wants then. It ticks once. Refused, in this order, with `Unknown`, `NotStarted`, `NoShadow`, and `Ended`
    /// or `Blocked`; then nothing changes, and it does not tick.
    pub fn step<L: Ledger>(&mut self, txn: u32, role: Role, steps: &mut Steps<L>) -> Stepped
        ensures answer { result ≡ step_answer (step_of self.old.numbers txn role) }
        ensures next { self.new ≡ with_numbers (after_step self.old.numbers (step_of self.old.numbers txn role)) self.old }
        ensures ticks { steps.new ≡ steps.old + step_ticks (step_of self.old.numbers txn role) }
    {
        if !self.journal.live(txn) {
            return Stepped::Unknown;
        }
        match (self.lanes.find(txn), role) {
            (None, _) => Stepped::NotStarted,
            (Some(place), Role::Optimistic) => self.step_optimistic(place, txn, steps),
            (Some(place), Role::Guard(guard)) => self.step_waiting(place, txn, guard, steps),
        }
    }

    /// Commits a transaction whose optimistic shadow has run to its end. Takes no memory and no step. `Unknown` where it isn't live,
    /// `NotStarted` where it waits, `NotEnded` where its optimistic shadow isn't at its end. A refused one changes nothing.
    pub fn commit(&mut self, txn: u32) -> Result<(), CommitRefusal>
        ensures accepted { IsOk result ↔ (commit_refusal (commit_of self.old.numbers txn) ≡ None) }
        ensures refusal { IfErr result (λ e. commit_refusal (commit_of self.old.numbers txn) ≡ Some e) }
        ensures next { self.new ≡ commit_view self.old txn }
        ensures reply { OnOk result (committed_of self.new.numbers.journal txn ≡ Some (outcome_of (program_of self.old.numbers.journal txn) self.old.numbers.tables)) }
        ensures never_refused { (u : Started) → is_live self.old.numbers.journal txn ≡ true → find_started self.old.numbers.started txn ≡ Some u → u.position ≡ length_of self.old.numbers u → IsOk result }
    {
        if !self.journal.live(txn) {
            return Err(CommitRefusal::Unknown);
        }
        match self.lanes.find(txn) {
            None => Err(CommitRefusal::NotStarted),
            Some(place) => {
                if !self.lanes.state(place, 0).ended() {
                    return Err(CommitRefusal::NotEnded);
                }
                self.finish(place, txn);
                Ok(())
            }
        }
    }

    /// Withdraws a live transaction. The tables stay; its lane, if it held one, is given to the first that waits. `Unknown` where it
    /// isn't live, else `Sealed` where the journal is sealed. A refused one changes nothing.
    pub fn withdraw(&mut self, txn: u32) -> Result<(), WithdrawRefusal>
        ensures accepted { IsOk result ↔ (withdraw_refusal (withdraw_of self.old.numbers txn) ≡ None) }
        ensures refusal { IfErr result (λ e. withdraw_refusal (withdraw_of self.old.numbers txn) ≡ Some e) }
        ensures next { self.new ≡ withdraw_view self.old txn }
    {
        if !self.journal.live(txn) {
            return Err(WithdrawRefusal::Unknown);
        }
        if self.journal.sealed() {
            return Err(WithdrawRefusal::Sealed);
        }
        self.leave(txn);
        Ok(())
    }

    /// Nothing is out any more.
    pub fn recall(&mut self)
        ensures { self.new ≡ with_numbers (recall_of self.old.numbers) self.old }
    {
        self.lanes.recall();
    }

    /// Hands the state of the pick out to a bench, and the shadow is out from then on. The bench has no job, and room for as many
    /// items as there are. `None` exactly where there is no pick; then nothing changes.
    pub fn take(&mut self, bench: &mut Bench) -> Option<Job>
        requires empty { bench.old.outside ≡ None }
        requires items { bench.old.items ≡ length self.old.numbers.tables }
        ensures answer { result ≡ option_map told bench.new.outside }
        ensures next { self.new ≡ with_numbers (take_pick self.old.numbers) self.old }
        ensures taken { option_map (job_in self.old.numbers) bench.new.outside ≡ option_map (job_of self.old.numbers) (pick_of self.old.numbers) }
        ensures runs { IfSome bench.new.outside (IsOfRun self.old.numbers) }
        ensures room { bench.new.items ≡ bench.old.items }
    {
        match pick(&self.lanes, &self.txns) {
            None => None,
            Some(row) => Some(self.hand_out(&row, bench)),
        }
    }

    /// Gives a job back to the first shadow of its transaction that takes it, the optimistic one first: that stands where the job was
    /// taken, is out, and has read the same. It goes on from the bench's state, and is not out any more. `Gone` exactly where there is
    /// none; then nothing changes. The job's program is its transaction's. The bench has no job afterwards.
    pub fn give(&mut self, bench: &mut Bench) -> Given
        requires job { (x : Outside) × (bench.old.outside ≡ Some x) × (x.nodes ≡ nodes_of (program_of self.old.numbers.journal x.number)) }
        requires items { bench.old.items ≡ length self.old.numbers.tables }
        ensures answer { (x : Outside) → bench.old.outside ≡ Some x → result ≡ given_answer (give_of self.old.numbers (job_in self.old.numbers x)) }
        ensures next { (x : Outside) → bench.old.outside ≡ Some x → self.new ≡ with_numbers (after_give self.old.numbers (give_of self.old.numbers (job_in self.old.numbers x))) self.old }
        ensures stored { (x : Outside) → bench.old.outside ≡ Some x → result ≡ Stored → IsPresent self.old.numbers x }
        ensures bench { bench.new ≡ record bench.old { outside = None } }
    {
        let given = match bench.job() {
            Some(job) => self.store(job, bench.state()),
            None => Given::Gone,
        };
        bench.clear();
        given
    }

    /// One step under a gate: the commit of the first by deadline and number that has run to its end, else the pick's step where that
    /// reads the tables or writes, else nothing.
    pub fn gate_step<L: Ledger>(&mut self, steps: &mut Steps<L>) -> Did
        ensures did { result ≡ (gate_step_of self.old.numbers).0 }
        ensures next { self.new ≡ gate_step_view self.old }
        ensures ticks { steps.new ≡ steps.old + did_ticks result }
    {
        match first_ended(&self.lanes, &self.txns) {
            Some(txn) => {
                let _accepted = self.commit(txn);
                Did::Committed { txn }
            }
            None => match pick(&self.lanes, &self.txns) {
                Some(row) => self.step_gated(row, steps),
                None => Did::Nothing,
            },
        }
    }

    /// Makes steps of the pick as long as there is one, and tells how many they were. Each ticks once. Where no shadow was out, the
    /// forest is idle afterwards: every optimistic shadow is at its end, and every waiting one at its point.
    pub fn run_idle<L: Ledger>(&mut self, steps: &mut Steps<L>) -> u64
        ensures made { result ≡ (run_idle_of self.old.numbers).0 }
        ensures next { self.new ≡ with_numbers (run_idle_of self.old.numbers).1 self.old }
        ensures idle { IsHome self.old.numbers → IsIdle self.new.numbers }
        ensures ticks { steps.new ≡ steps.old + result }
    {
        // with these limits the steps can be counted
        let _ = (self.k(), self.lanes());
        let mut made = 0;
        loop {
            match pick(&self.lanes, &self.txns) {
                None => return made,
                Some(row) => made += self.run_pick(row, steps),
            }
        }
    }

    /// One step of a drain: the commit of the first by deadline and number that has run to its end, else a step of the pick, else
    /// nothing.
    pub fn drain_step<L: Ledger>(&mut self, steps: &mut Steps<L>) -> Did
        ensures did { result ≡ (drain_step_of self.old.numbers).0 }
        ensures next { self.new ≡ drain_step_view self.old }
        ensures ticks { steps.new ≡ steps.old + did_ticks result }
    {
        match first_ended(&self.lanes, &self.txns) {
            Some(txn) => {
                let _accepted = self.commit(txn);
                Did::Committed { txn }
            }
            None => match pick(&self.lanes, &self.txns) {
                Some(row) => {
                    self.step(row.txn, row.role, steps);
                    Did::Stepped {
                        txn: row.txn,
                        role: row.role,
                    }
                }
                None => Did::Nothing,
            },
        }
    }

    /// The steps of a drain up to its next commit, and that commit: of the first by deadline and number that has run to its end. Each
    /// step ticks once. Tells whose commit it was; `None` where nothing is left to do.
    pub fn next_commit<L: Ledger>(&mut self, steps: &mut Steps<L>) -> Option<u32>
        ensures commit { result ≡ first_ended_of (until_commit self.old.numbers).1 }
        ensures next { self.new ≡ drain_step_view (with_numbers (until_commit self.old.numbers).1 self.old) }
        ensures ticks { steps.new ≡ steps.old + (until_commit self.old.numbers).0 }
    {
        loop {
            // with these limits the steps can be counted
            let _ = (self.k(), self.lanes());
            match first_ended(&self.lanes, &self.txns) {
                Some(txn) => {
                    let _accepted = self.commit(txn);
                    return Some(txn);
                }
                None => match pick(&self.lanes, &self.txns) {
                    Some(row) => self.run_pick(row, steps),
                    None => return None,
                },
            };
        }
    }

    /// Calls all home, and then commits and makes steps until nothing is left to do. It leaves no transaction live.
    pub fn drain<L: Ledger>(&mut self, steps: &mut Steps<L>)
        ensures next { self.new ≡ (drain_view self.old).1 }
        ensures numbers { self.new.numbers ≡ (drain_of self.old.numbers).1 }
        ensures empty { (t : ℕ) → is_live self.new.numbers.journal t ≡ false }
        ensures ticks { steps.new ≡ steps.old + (drain_of self.old.numbers).0 }
    {
        // the limits come with the number of the started: there is a lane, so nobody waits for ever
        let _ = self.lanes.len();
        self.recall();
        loop {
            match self.next_commit(steps) {
                Some(_) => {}
                None => return,
            }
        }
    }

    // The state of the pick is handed out to a bench with room for it.
    fn hand_out(&mut self, row: &Row, bench: &mut Bench) -> Job
        requires pick { pick_of self.old.numbers ≡ Some row.now }
        requires items { bench.old.items ≡ length self.old.numbers.tables }
        ensures next { self.new ≡ with_numbers (taken self.old.numbers (Some row.now)) self.old }
        ensures job { (x : Outside) × (bench.new ≡ record { items = bench.old.items; outside = Some x }) × (result ≡ told x) × (job_in self.old.numbers x ≡ job_of self.old.numbers row.now) × IsOfRun self.old.numbers x }
    {
        let place = self.place_of(row);
        let state = self.lanes.state(place, row.place);
        let job = Job {
            txn: row.txn,
            from: state.position(),
        };
        bench.load(job, state, code_of(&self.txns, row.txn));
        self.lanes.set_out(place, row.place, true);
        job
    }

    // The first shadow that takes a job goes on from this state.
    fn store(&mut self, job: Job, state: &State) -> Given
        requires outside { IsOutside (outside_of self.old.numbers job state.now) }
        requires room { state.now.log.room ≡ length self.old.numbers.tables }
        ensures answer { result ≡ given_answer (give_of self.old.numbers (job_in self.old.numbers (outside_of self.old.numbers job state.now))) }
        ensures next { self.new ≡ with_numbers (after_give self.old.numbers (give_of self.old.numbers (job_in self.old.numbers (outside_of self.old.numbers job state.now)))) self.old }
        ensures stored { result ≡ Stored → IsPresent self.old.numbers (outside_of self.old.numbers job state.now) }
    {
        let Some(place) = self.lanes.find(job.txn) else {
            return Given::Gone;
        };
        match slot_out(&self.lanes, place, job.from, state) {
            None => Given::Gone,
            Some(slot) => {
                self.lanes.store(place, slot, state);
                Given::Stored
            }
        }
    }

    // The step of the pick, where it reads the tables or writes.
    fn step_gated<L: Ledger>(&mut self, row: Row, steps: &mut Steps<L>) -> Did
        requires pick { pick_of self.old.numbers ≡ Some row }
        requires sound { IsSound self.old.numbers }
        ensures did { result ≡ (gate_by self.old.numbers None (Some row)).0 }
        ensures next { self.new ≡ with_numbers (gate_by self.old.numbers None (Some row)).1 self.old }
        ensures ticks { steps.new ≡ steps.old + did_ticks result }
    {
        if self.is_local(&row) {
            return Did::Nothing;
        }
        self.step(row.txn, row.role, steps);
        Did::Stepped {
            txn: row.txn,
            role: row.role,
        }
    }

    // Whether the next step of the pick needs no tables.
    fn is_local(&self, row: &Row) -> bool
        requires { pick_of self.now.numbers ≡ Some row.now }
        ensures { result ≡ is_local_of (state_of self.now.numbers row.now) }
    {
        let place = self.place_of(row);
        let code = code_of(&self.txns, row.txn);
        matches!(
            self.lanes.state(place, row.place).next_kind(code),
            Kind::Local
        )
    }

    // The place of the transaction of the pick.
    fn place_of(&self, row: &Row) -> u32
        requires { pick_of self.now.numbers ≡ Some row.now }
        ensures { (r : Started) × (slice_get self.now.numbers.started result ≡ Some r) × (find_started self.now.numbers.started row.now.txn ≡ Some r) × (row.now.place ≤ length r.shadows) }
    {
        match self.lanes.find(row.txn) {
            Some(place) => place,
            None => unreachable!(),
        }
    }

    // The shadow in a slot of the transaction at a place.
    fn view(&self, at: u32, slot: u32) -> Option<ShadowView<'_>>
        requires { at < length self.now.numbers.started }
        ensures look { (r : Started) → slice_get self.now.numbers.started at ≡ Some r → option_map (λ (v : ShadowViewOf). (v.role, (v.position, (v.point, v.standing)))) result ≡ slice_get (looks self.now.numbers (Some r)) slot }
        ensures out { (r : Started) → slice_get self.now.numbers.started at ≡ Some r → option_map (λ (v : ShadowViewOf). v.out) result ≡ slice_get (outs (Some r)) slot }
        ensures position { IfSome result (λ v. v.position ≡ v.state.now.position) }
        ensures runs { (r : Started) → slice_get self.now.numbers.started at ≡ Some r → IfSome result (λ v. IsRun (program_of self.now.numbers.journal r.number) self.now.numbers.tables v.state.now) }
    {
        if slot as usize > self.lanes.conflicts(at).len() {
            return None;
        }
        let (role, point) = role_at(&self.lanes, at, slot);
        let state = self.lanes.state(at, slot);
        Some(ShadowView {
            role,
            position: state.position(),
            point,
            standing: status(role, state.position(), point, state.ended()),
            out: self.lanes.out(at, slot),
            state,
        })
    }

    // Begins a transaction where one may begin.
    fn enter(&mut self, program: Program, deadline: u64) -> Result<u32, AllocError>
        requires fits { reach program ≤ length self.old.numbers.tables }
        requires deadline { deadline ≤ 1000000000000 }
        requires open { is_sealed self.old.numbers.journal ≡ false }
        requires few { began self.old.numbers.journal < 20000 }
        ensures number { IfOk result (λ txn. txn ≡ began self.old.numbers.journal + 1) }
        ensures next { OnOk result (self.new ≡ with_numbers (after_step self.old.numbers (begin_of self.old.numbers program deadline)) self.old) }
        ensures refused { OnErr result (self.new ≡ self.old) }
    {
        let code = link(self.alloc, &program)?;
        let room = EmitRoom::new(self.alloc, program.emits_max())?;
        let live = self.lanes.len() + self.waiting.len() as u32;
        self.journal.reserve(live + 3)?;
        self.txns.reserve(1)?;
        self.rooms.reserve(1)?;
        let txn = self.journal.began() + 1;
        if self.lanes.len() < self.lanes.lanes() {
            self.lanes.start(txn, &code);
        } else {
            self.waiting.add(txn, deadline)?;
        }
        self.txns.push_reserved(Txn { deadline, code });
        self.journal.push_reserved(Entry::Began {
            txn,
            deadline,
            program,
        });
        self.rooms.push_reserved(room);
        Ok(txn)
    }

    // The optimistic shadow of the transaction at a place makes a step, unless it has ended.
    fn step_optimistic<L: Ledger>(&mut self, place: u32, txn: u32, steps: &mut Steps<L>) -> Stepped
        requires place { (r : Started) × (slice_get self.old.numbers.started place ≡ Some r) × (find_started self.old.numbers.started txn ≡ Some r) }
        ensures answer { (r : Started) → find_started self.old.numbers.started txn ≡ Some r → result ≡ step_answer (step_role self.old.numbers Optimistic r) }
        ensures next { (r : Started) → find_started self.old.numbers.started txn ≡ Some r → self.new ≡ with_numbers (after_step self.old.numbers (step_role self.old.numbers Optimistic r)) self.old }
        ensures ticks { (r : Started) → find_started self.old.numbers.started txn ≡ Some r → steps.new ≡ steps.old + step_ticks (step_role self.old.numbers Optimistic r) }
    {
        let code = code_of(&self.txns, txn);
        let state = self.lanes.state(place, 0);
        let position = state.position() + 1;
        match state.next_kind(code) {
            Kind::Ended => return Stepped::Ended,
            Kind::Local => self.lanes.step(place, 0, code, &self.tables, steps),
            Kind::TableRead { item } => {
                self.lanes.read(place, item, code, &self.tables, steps);
                self.lanes.settled()
            }
            Kind::Write { .. } => {
                self.lanes.step(place, 0, code, &self.tables, steps);
                renew_marked(&mut self.lanes, &self.txns)
            }
        }
        Stepped::Stepped { position }
    }

    // The shadow of the transaction at a place that waits for this guard makes a step, if there is one that may.
    fn step_waiting<L: Ledger>(
        &mut self,
        place: u32,
        txn: u32,
        guard: u32,
        steps: &mut Steps<L>,
    ) -> Stepped
        requires place { (r : Started) × (slice_get self.old.numbers.started place ≡ Some r) × (find_started self.old.numbers.started txn ≡ Some r) }
        ensures answer { (r : Started) → find_started self.old.numbers.started txn ≡ Some r → result ≡ step_answer (step_role self.old.numbers (Guard guard) r) }
        ensures next { (r : Started) → find_started self.old.numbers.started txn ≡ Some r → self.new ≡ with_numbers (after_step self.old.numbers (step_role self.old.numbers (Guard guard) r)) self.old }
        ensures ticks { (r : Started) → find_started self.old.numbers.started txn ≡ Some r → steps.new ≡ steps.old + step_ticks (step_role self.old.numbers (Guard guard) r) }
    {
        let Some(slot) = slot_for(self.lanes.conflicts(place), guard) else {
            return Stepped::NoShadow;
        };
        let (_, point) = self.lanes.conflicts(place)[slot as usize - 1];
        let position = self.lanes.state(place, slot).position();
        match status(Role::Guard(guard), position, Some(point), false) {
            Standing::Runnable => {
                let code = code_of(&self.txns, txn);
                self.lanes.step(place, slot, code, &self.tables, steps);
                Stepped::Stepped {
                    position: position + 1,
                }
            }
            _ => Stepped::Blocked,
        }
    }

    // Commits the transaction at a place, whose optimistic shadow has run to its end.
    fn finish(&mut self, place: u32, txn: u32)
        requires place { (u : Started) × (slice_get self.old.numbers.started place ≡ Some u) × (find_started self.old.numbers.started txn ≡ Some u) × (is_ended self.old.numbers u ≡ true) }
        ensures { (u : Started) → find_started self.old.numbers.started txn ≡ Some u → self.new ≡ told_commit self.old txn (committed self.old.numbers u) }
    {
        let room = take_room(&mut self.rooms, txn, self.alloc);
        let state = self.lanes.state(place, 0);
        let outcome = state.outcome(room);
        self.resumed.clear();
        if is_done(&outcome) {
            state.writes().lay_over(&mut self.tables);
            cut_others(&mut self.lanes, place, &self.txns, &mut self.resumed);
        }
        self.journal
            .push_reserved(Entry::Committed { txn, outcome });
        self.lanes.remove(txn);
        self.starts = start_waiting(&mut self.lanes, &mut self.waiting, &self.txns);
        renew_marked(&mut self.lanes, &self.txns);
        free_code(&mut self.txns, txn, self.alloc);
    }

    // Withdraws a live transaction.
    fn leave(&mut self, txn: u32)
        requires live { is_live self.old.numbers.journal txn ≡ true }
        requires open { is_sealed self.old.numbers.journal ≡ false }
        ensures { self.new ≡ withdraw_view self.old txn }
    {
        free_room(&mut self.rooms, txn, self.alloc);
        self.resumed.clear();
        self.journal.push_reserved(Entry::Withdrawn { txn });
        self.lanes.remove(txn);
        self.waiting.remove(txn, deadline_of(&self.txns, txn));
        self.starts = start_waiting(&mut self.lanes, &mut self.waiting, &self.txns);
        renew_marked(&mut self.lanes, &self.txns);
        free_code(&mut self.txns, txn, self.alloc);
    }
}

// The slot of the shadow for this guard, if there is one.
fn slot_for(conflicts: &[(u32, u32)], guard: u32) -> Option<u32>
    requires { length conflicts.now ≤ 7 }
    ensures { result ≡ slot_of conflicts.now guard }
{
    for i in 0..conflicts.len() {
        if conflicts[i].0 == guard {
            return Some(i as u32 + 1);
        }
    }
    None
}

// Whether a run was neither failed nor faulted.
fn is_done(outcome: &Outcome) -> bool
    ensures { result ≡ is_done_of outcome.now }
{
    matches!(outcome, Outcome::Done { .. })
}
