ghost use Rattle.std.specs.Prelude.{◌≡◌, ◌≢◌, ℕ, ◌+◌, ◌<◌, ◌≤◌, ◌^◌, ℤ, true, false, List, [], ◌∷◌, ◌++◌, nat_eq, slice_set, length, pos, None, IfOk, IsTrue, ◌↔◌, slice_index_or, if◌then◌else◌};
ghost use Rattle.txn_runs.specs.declared.outcome.End.TheVariants.{Going, Failed};
ghost use Rattle.txn_interp.specs.State.{is_finish};

use crate::counters::Counters;
use access_sets::{ReadLog, WriteSet};
use std::alloc::{AllocError, Global};
use std::marker::Model;
use std::sync::ledger::Ledger;
use step_count::Steps;
use txn_code::{Act, Code, Node};
use txn_runs::{Cmp, EmitRoom, Emits, Emitted, End, Kind, Op, Operand, Outcome, TableRef, item_at};

/// An execution of a program, which can be copied.
#[derive(Drop)]
pub struct State {
    position: u32,
    node: u32,
    counters: Counters,
    registers: [i64; 16],
    reads: ReadLog,
    writes: WriteSet,
    emits: Emits,
    end: End,
    done: bool,
}

impl Model for State {
    ghost use Rattle.txn_interp.specs.State.{Held, IsSized};

    ghost Value = { Held };

    ghost view = { λ s. record { position = s.position; node = s.node; counters = s.counters; registers = s.registers; log = s.reads; writes = s.writes; emits = s.emits; end = s.end; done = s.done } };

    ghost invariant = { λ s. IsSized s.reads s.writes s.emits };
}

impl State {
    ghost use Rattle.std.specs.Prelude.{slice_get};
    ghost use Rattle.txn_interp.specs.State.{is_last, fresh_state, Held, Carries, Runs, RunsOver, IsRun, Tracks, IsSafe};
    ghost use Rattle.txn_runs.specs.Reads.{AreBefore};
    ghost use Rattle.txn_interp.specs.Advance.{operand, moved, settle, put_in, turn_by, advance, known_of};
    ghost use Rattle.txn_interp.specs.Kind.{held_kind, MakesLocal};
    ghost use Rattle.txn_runs.specs.declared.kind.Kind.TheVariants.{Local, TableRead, Write};
    ghost use Rattle.txn_code.specs.declared.node.Act.TheVariants.{Read as ReadTable, Write as WriteTable};
    ghost use Rattle.txn_runs.specs.Run.{Tables};
    ghost use Rattle.txn_runs.specs.Value.{calc, holds};
    ghost use Rattle.txn_runs.specs.Bounds.{after_register};

    /// Room for a run over this many items, at most 1,024: the run of the empty program, which has ended. No later call takes
    /// memory.
    ///
    /// # Errors
    /// Where memory runs out.
    pub fn room(alloc: Global, items: u32) -> Result<State, AllocError>
        requires { items ≤ 1024 }
        ensures room { IfOk result (λ s. s.log.room ≡ items) }
        ensures position { IfOk result (λ s. s.position ≡ 0) }
        ensures empty { IfOk result (λ s. (tables : Tables) → length tables ≡ items → IsRun [] tables s) }
    {
        let reads = ReadLog::with_room(alloc, items)?;
        let writes = WriteSet::with_room(alloc, items)?;
        Ok(State {
            position: 0,
            node: 0,
            counters: Counters::new(),
            registers: [0; 16],
            reads,
            writes,
            emits: Emits::new(),
            end: End::Going,
            done: true,
        })
    }

    /// How many steps are made, at most 100,000.
    pub fn position(&self) -> u32
        ensures { result ≡ self.now.position }
    {
        self.position
    }

    /// The table reads so far: position, item and value. A read of what the run has written or read before is none.
    pub fn reads(&self) -> &ReadLog
        ensures { result.now ≡ self.now.log }
    {
        &self.reads
    }

    /// What the run has written so far: of each item the last value. They have the same room as the reads.
    pub fn writes(&self) -> &WriteSet
        ensures set { result.now ≡ self.now.writes }
        ensures same { length self.now.writes ≡ self.now.log.room }
    {
        &self.writes
    }

    /// What the run has emitted, at most 64 numbers.
    pub fn emits(&self) -> &Emits
        ensures list { result.now ≡ self.now.emits }
        ensures most { length self.now.emits ≤ 64 }
    {
        &self.emits
    }

    /// The value of a register, by its number from 0 to 15.
    pub fn reg(&self, n: u8) -> i64
        requires { n < 16 }
        ensures { result ≡ slice_index_or self.now.registers n (pos 0) }
    {
        self.registers[n as usize]
    }

    fn operand(&self, from: Operand) -> i64
        requires { after_register from ≤ 16 }
        ensures { result ≡ operand self.now from }
    {
        match from {
            Operand::Reg(n) => self.registers[n as usize],
            Operand::Lit(value) => value,
        }
    }

    fn move_to(&mut self, next: u32)
        requires { self.old.position ≤ 100000 }
        ensures { self.new ≡ moved next self.old }
    {
        self.position += 1;
        self.node = next;
    }

    fn put(&mut self, to: u8, value: i64)
        requires { to < 16 }
        ensures { self.new ≡ put_in to value self.old }
    {
        self.registers[to as usize] = value;
    }

    fn fail(&mut self, end: End)
        ensures { self.new ≡ record self.old { end = end } }
    {
        self.end = end;
    }

    #[inline(always)]
    fn calculate(&mut self, to: u8, left: Operand, op: Op, right: Operand)
        requires to { to < 16 }
        requires left { after_register left ≤ 16 }
        requires right { after_register right ≤ 16 }
        ensures { self.new ≡ settle (calc op (operand self.old left) (operand self.old right)) self.old (λ x. put_in to x self.old) }
    {
        match txn_runs::calc(op, self.operand(left), self.operand(right)) {
            Ok(value) => self.put(to, value),
            Err(kind) => self.fail(End::Fault { kind }),
        }
    }

    fn assign(&mut self, to: u8, from: Operand)
        requires to { to < 16 }
        requires from { after_register from ≤ 16 }
        ensures { self.new ≡ put_in to (operand self.old from) self.old }
    {
        let value = self.operand(from);
        self.put(to, value);
    }

    fn emit(&mut self, from: Operand)
        requires room { length self.old.emits < 64 }
        requires from { after_register from ≤ 16 }
        ensures { self.new ≡ record self.old { emits = self.old.emits ++ operand self.old from ∷ [] } }
    {
        let value = self.operand(from);
        self.emits.push(value);
    }

    fn fail_with(&mut self, code: Operand)
        requires { after_register code ≤ 16 }
        ensures { self.new ≡ record self.old { end = Failed (operand self.old code) } }
    {
        let code = self.operand(code);
        self.fail(End::Failed { code });
    }

    fn test(&mut self, left: Operand, cmp: Cmp, right: Operand, next: u32, other: u32)
        requires position { self.old.position ≤ 100000 }
        requires left { after_register left ≤ 16 }
        requires right { after_register right ≤ 16 }
        ensures { self.new ≡ moved (if holds cmp (operand self.old left) (operand self.old right) then next else other) self.old }
    {
        if txn_runs::holds(cmp, self.operand(left), self.operand(right)) {
            self.move_to(next);
        } else {
            self.move_to(other);
        }
    }

    fn turn(&mut self, count: u32, depth: u8, next: u32, other: u32)
        requires position { self.old.position ≤ 100000 }
        requires depth { depth < 8 }
        requires inside { depth ≤ length self.old.counters }
        requires near { length self.old.counters ≤ depth + 1 }
        ensures { self.new ≡ turn_by (nat_eq (length self.old.counters) depth) count self.old.counters next other self.old }
    {
        let turns = if self.counters.len() == depth {
            count
        } else {
            self.counters.pop()
        };
        if turns == 0 {
            self.move_to(other);
        } else {
            self.counters.push(turns - 1);
            self.move_to(next);
        }
    }

    // What the run has written or read of an item.
    fn known(&self, item: u32) -> Option<i64>
        ensures { result ≡ known_of self.now item }
    {
        match self.writes.get(item) {
            Some(own) => Some(own),
            None => self.reads.get(item),
        }
    }

    // Makes the step of a read where it is Local: of what the run knows, or a fault. Tells whether it was.
    fn read_known(&mut self, to: u8, table: TableRef, at: Operand, next: u32) -> bool
        requires to { to < 16 }
        requires at { after_register at ≤ 16 }
        requires position { self.old.position ≤ 100000 }
        requires within { table.base + table.size ≤ self.old.log.room }
        requires small { table.base + table.size < 2 ^ 32 }
        ensures { MakesLocal (ReadTable to table at) next next self.old self.new result }
    {
        match item_at(table, self.operand(at)) {
            Ok(item) => match self.known(item as u32) {
                Some(value) => {
                    self.move_to(next);
                    self.put(to, value)
                }
                None => return false,
            },
            Err(kind) => {
                self.move_to(next);
                self.fail(End::Fault { kind })
            }
        }
        true
    }

    // Makes the step of a write where it is Local, being a fault. Tells whether it was.
    fn write_nowhere(&mut self, table: TableRef, at: Operand, from: Operand, next: u32) -> bool
        requires at { after_register at ≤ 16 }
        requires position { self.old.position ≤ 100000 }
        requires small { table.base + table.size < 2 ^ 32 }
        ensures { MakesLocal (WriteTable table at from) next next self.old self.new result }
    {
        match item_at(table, self.operand(at)) {
            Ok(_) => return false,
            Err(kind) => {
                self.move_to(next);
                self.fail(End::Fault { kind })
            }
        }
        true
    }

    // Makes the step of this node where it is Local, and tells whether it was.
    #[inline(always)]
    fn apply(&mut self, node: &Node) -> bool
        requires safe { IsSafe node.now.act self.old }
        requires position { self.old.position ≤ 100000 }
        requires small { self.old.log.room ≤ 1024 }
        ensures { MakesLocal node.now.act node.now.next node.now.other self.old self.new result }
    {
        match node.act {
            Act::Calc {
                to,
                left,
                op,
                right,
            } => {
                self.move_to(node.next);
                self.calculate(to, left, op, right)
            }
            Act::Move { to, from } => {
                self.move_to(node.next);
                self.assign(to, from)
            }
            Act::Read { to, table, at } => return self.read_known(to, table, at, node.next),
            Act::Write { table, at, from } => {
                return self.write_nowhere(table, at, from, node.next);
            }
            Act::Test { left, cmp, right } => self.test(left, cmp, right, node.next, node.other),
            Act::Turn { count, depth } => self.turn(count, depth, node.next, node.other),
            Act::Emit { from } => {
                self.move_to(node.next);
                self.emit(from)
            }
            Act::Fail { code } => {
                self.move_to(node.next);
                self.fail_with(code)
            }
            Act::End => return false,
        }
        true
    }

    // The step of this node, which reads an item of the tables, where it finds `value`.
    fn read(&mut self, node: &Node, value: i64)
        requires safe { IsSafe node.now.act self.old }
        requires kind { (item : ℕ) × (held_kind self.old node.now.act ≡ TableRead item) }
        requires position { self.old.position < 100000 }
        requires before { AreBefore self.old.position self.old.log.reads }
        requires small { self.old.log.room ≤ 1024 }
        ensures { self.new ≡ advance node.now.act node.now.next node.now.other value self.old }
    {
        let position = self.position;
        match node.act {
            Act::Read { to, table, at } => match item_at(table, self.operand(at)) {
                Ok(item) => {
                    self.reads.note(position, item as u32, value);
                    self.move_to(node.next);
                    self.put(to, value)
                }
                Err(_) => unreachable!(),
            },
            _ => unreachable!(),
        }
    }

    // The step of this node, which writes an item of the tables.
    fn write(&mut self, node: &Node)
        requires safe { IsSafe node.now.act self.old }
        requires kind { (item : ℕ) × (value : ℤ) × (held_kind self.old node.now.act ≡ Write item value) }
        requires position { self.old.position < 100000 }
        requires small { self.old.log.room ≤ 1024 }
        ensures { self.new ≡ advance node.now.act node.now.next node.now.other (pos 0) self.old }
    {
        match node.act {
            Act::Write { table, at, from } => match item_at(table, self.operand(at)) {
                Ok(item) => {
                    let value = self.operand(from);
                    self.move_to(node.next);
                    self.writes.set(item as u32, value)
                }
                Err(_) => unreachable!(),
            },
            _ => unreachable!(),
        }
    }

    ghost use Rattle.txn_runs.specs.declared.kind.Kind.TheVariants.{Ended};
    ghost use Rattle.txn_runs.specs.Kind.{kind_of};
    ghost use Rattle.txn_interp.specs.Kind.{HasKind};
    ghost use Rattle.txn_interp.specs.State.{IsFresh};
    ghost use Rattle.txn_code.specs.declared.node.Node.{Node};
    ghost use Rattle.txn_runs.specs.Run.{after, stored};
    ghost use Rattle.txn_runs.specs.declared.program.Stmt.{Stmt};

    fn kind(&self, act: &Act) -> Kind
        requires safe { IsSafe act.now self.now }
        requires small { self.now.log.room ≤ 1024 }
        ensures { result ≡ held_kind self.now act.now }
    {
        match *act {
            Act::Read { table, at, .. } => match item_at(table, self.operand(at)) {
                Ok(item) => {
                    let item = item as u32;
                    if self.known(item).is_some() {
                        Kind::Local
                    } else {
                        Kind::TableRead { item }
                    }
                }
                Err(_) => Kind::Local,
            },
            Act::Write { table, at, from } => match item_at(table, self.operand(at)) {
                Ok(item) => Kind::Write {
                    item: item as u32,
                    value: self.operand(from),
                },
                Err(_) => Kind::Local,
            },
            Act::End => Kind::Ended,
            _ => Kind::Local,
        }
    }

    /// Whether the state is at the end of its run, by its end and its node.
    fn at_end(&self, code: &Code) -> bool
        requires within { self.now.node < length code.now.nodes }
        ensures node { self.now.end ≡ Going → result ≡ is_last (slice_get code.now.nodes self.now.node) }
        ensures tracks { (body : List Stmt) (tables : Tables) → Tracks code.now.nodes body tables self.now → result ≡ has_ended (after body tables self.now.position) }
    {
        match self.end {
            End::Going => is_end(&code.node(self.node).act),
            _ => true,
        }
    }

    /// What the next step is. The code is that of the run's program.
    pub fn next_kind(&self, code: &Code) -> Kind
        requires { Runs code.now.nodes self.now }
        ensures kind { HasKind code.now.nodes self.now result }
        ensures ended { (result ≡ Ended) ↔ IsTrue self.now.done }
        ensures read_within { (item : ℕ) → result ≡ TableRead item → item < self.now.log.room }
        ensures write_within { (item : ℕ) (value : ℤ) → result ≡ Write item value → item < self.now.log.room }
    {
        match self.end {
            End::Going => self.kind(&code.node(self.node).act),
            _ => Kind::Ended,
        }
    }

    ghost use Rattle.txn_runs.specs.Serial.{has_ended, outcome_of};
    ghost use Rattle.txn_interp.specs.State.{Advances, AdvancesWhere};
    ghost use Rattle.txn_interp.specs.Kind.{StepsOn, RunsOn};
    ghost use Rattle.txn_runs.specs.Bounds.{IsProgram};
    ghost use Rattle.txn_code.specs.Nodes.{nodes_of};

    // Makes the next step where it is Local, and tells whether it was. The run has not ended.
    fn step_on(&mut self, code: &Code) -> bool
        requires runs { Runs code.now.nodes self.old }
        requires goes { self.old.done ≡ false }
        ensures { StepsOn code.now.nodes self.old self.new result }
    {
        let local = self.apply(code.node(self.node));
        if local {
            self.done = self.at_end(code);
        }
        local
    }

    /// Makes a step that is Local. The code is that of the run's program.
    pub fn step_local<L: Ledger>(&mut self, code: &Code, steps: &mut Steps<L>)
        requires runs { Runs code.now.nodes self.old }
        requires kind { HasKind code.now.nodes self.old Local }
        ensures runs { Runs code.now.nodes self.new }
        ensures step { Advances code.now.nodes self.old self.new }
        ensures log { self.new.log ≡ self.old.log }
        ensures writes { self.new.writes ≡ self.old.writes }
        ensures tick { steps.new ≡ steps.old + 1 }
    {
        steps.tick();
        let _made = self.step_on(code);
    }

    /// Makes the read of an item of the tables, which have this value there. The code is that of the run's program.
    pub fn step_read<L: Ledger>(&mut self, code: &Code, value: i64, steps: &mut Steps<L>)
        requires runs { Runs code.now.nodes self.old }
        requires kind { (item : ℕ) × HasKind code.now.nodes self.old (TableRead item) }
        ensures runs { Runs code.now.nodes self.new }
        ensures step { AdvancesWhere code.now.nodes (λ tables. (item : ℕ) → HasKind code.now.nodes self.old (TableRead item) → stored tables item ≡ value) self.old self.new }
        ensures log { (item : ℕ) → HasKind code.now.nodes self.old (TableRead item) → self.new.log ≡ record self.old.log { reads = self.old.log.reads ++ (self.old.position, item, value) ∷ [] } }
        ensures writes { self.new.writes ≡ self.old.writes }
        ensures tick { steps.new ≡ steps.old + 1 }
    {
        steps.tick();
        self.read(code.node(self.node), value);
        self.done = self.at_end(code);
    }

    /// Makes a write. The code is that of the run's program.
    pub fn step_write<L: Ledger>(&mut self, code: &Code, steps: &mut Steps<L>)
        requires runs { Runs code.now.nodes self.old }
        requires kind { (item : ℕ) × (value : ℤ) × HasKind code.now.nodes self.old (Write item value) }
        ensures runs { Runs code.now.nodes self.new }
        ensures step { Advances code.now.nodes self.old self.new }
        ensures log { self.new.log ≡ self.old.log }
        ensures writes { (item : ℕ) (value : ℤ) → HasKind code.now.nodes self.old (Write item value) → self.new.writes ≡ slice_set self.old.writes item (Some value) }
        ensures tick { steps.new ≡ steps.old + 1 }
    {
        steps.tick();
        self.write(code.node(self.node));
        self.done = self.at_end(code);
    }

    /// Becomes the state before the first step of the code's program, which fits the room. The room stays.
    pub fn reset(&mut self, code: &Code)
        requires { Carries code.now.nodes self.old.log.room }
        ensures fresh { self.new ≡ fresh_state code.now.nodes self.old.log.room }
        ensures room { self.new.log.room ≡ self.old.log.room }
        ensures runs { Runs code.now.nodes self.new }
        ensures over { (body : List Stmt) (tables : Tables) → code.now.nodes ≡ nodes_of body → IsProgram body → length tables ≡ self.old.log.room → RunsOver code.now.nodes body tables self.new }
        ensures position { self.new.position ≡ 0 }
    {
        self.rewind();
        self.done = self.at_end(code);
    }

    fn rewind(&mut self)
        ensures fresh { IsFresh self.old.log.room self.new }
    {
        self.position = 0;
        self.node = 0;
        self.counters.clear();
        self.registers = [0; 16];
        self.reads.clear();
        self.writes.clear();
        self.emits.clear();
        self.end = End::Going;
    }

    /// Becomes the other state, in time that grows with its reads, writes and emits, and not with the room.
    pub fn copy_from(&mut self, other: &State)
        requires { self.old.log.room ≡ other.now.log.room }
        ensures { self.new ≡ other.now }
    {
        self.position = other.position;
        self.node = other.node;
        self.counters.copy_from(&other.counters);
        self.registers = other.registers;
        self.reads.copy_from(&other.reads);
        self.writes.copy_from(&other.writes);
        self.emits.copy_from(&other.emits);
        self.end = other.end;
        self.done = other.done;
    }

    /// Makes Local steps until the next one is not Local or so many are made, and answers their number. The code is that of the run's
    /// program.
    pub fn run_local<L: Ledger>(&mut self, code: &Code, most: u32, steps: &mut Steps<L>) -> u32
        requires runs { Runs code.now.nodes self.old }
        ensures runs { Runs code.now.nodes self.new }
        ensures made { self.new.position ≡ self.old.position + result }
        ensures most { result ≤ most }
        ensures stops { result < most → HasKind code.now.nodes self.new Local → ⊥ }
        ensures local { (body : List Stmt) (tables : Tables) (n : ℕ) → RunsOver code.now.nodes body tables self.old → n < result → kind_of (after body tables (self.old.position + n)) ≡ Local }
        ensures same { (body : List Stmt) (tables : Tables) → RunsOver code.now.nodes body tables self.old → RunsOver code.now.nodes body tables self.new }
        ensures log { self.new.log ≡ self.old.log }
        ensures writes { self.new.writes ≡ self.old.writes }
        ensures ticks { steps.new ≡ steps.old + result }
    {
        if self.done {
            return 0;
        }
        let made = self.run_on(code, most, steps);
        self.done = self.at_end(code);
        made
    }

    // Makes Local steps until the next one is not Local or so many are made, and answers their number. The run has not ended before
    // them; whether it has afterwards is not told.
    fn run_on<L: Ledger>(&mut self, code: &Code, most: u32, steps: &mut Steps<L>) -> u32
        requires runs { Runs code.now.nodes self.old }
        requires goes { self.old.done ≡ false }
        ensures run { RunsOn code.now.nodes most self.old self.new result }
        ensures ticks { steps.new ≡ steps.old + result }
    {
        let mut made = 0;
        while made < most && self.goes() {
            if !self.apply(code.node(self.node)) {
                return made;
            }
            steps.tick();
            made += 1;
        }
        made
    }

    // Whether the run has neither failed nor faulted.
    fn goes(&self) -> bool
        ensures goes { IsTrue result → self.now.end ≡ Going }
        ensures over { result ≡ false → self.now.end ≢ Going }
    {
        matches!(self.end, End::Going)
    }

    /// Whether the run has ended.
    pub fn ended(&self) -> bool
        ensures done { result ≡ self.now.done }
        ensures over { (nodes : List Node) (body : List Stmt) (tables : Tables) → RunsOver nodes body tables self.now → result ≡ has_ended (after body tables self.now.position) }
    {
        self.done
    }

    /// How the run has ended; it has. What it has emitted is laid into the room, which is large enough for it. Takes no memory.
    pub fn outcome(&self, room: EmitRoom) -> Outcome
        requires done { IsTrue self.now.done }
        requires room { length self.now.emits ≤ room }
        ensures { (nodes : List Node) (body : List Stmt) (tables : Tables) → RunsOver nodes body tables self.now → result ≡ outcome_of body tables }
    {
        match self.end {
            End::Going => Outcome::Done {
                emits: Emitted::in_room(&self.emits, room),
            },
            End::Failed { code } => Outcome::Failed { code },
            End::Fault { kind } => Outcome::Fault { kind },
        }
    }
}

fn is_end(act: &Act) -> bool
    ensures { result ≡ is_finish act.now }
{
    matches!(act, Act::End)
}
