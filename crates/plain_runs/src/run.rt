ghost use Rattle.std.specs.Prelude.{◌≡◌, ◌++◌, ◌∷◌, [], if◌then◌else◌, IfOk, OnOk};
ghost use Rattle.txn_runs.specs.declared.program.Stmt.{out-Stmt};
ghost use Rattle.txn_runs.specs.declared.outcome.End.TheVariants.{Failed, Fault};
ghost use Rattle.txn_runs.specs.Value.{calc};
ghost use Rattle.txn_runs.specs.Run.{start, register, value_of, item_at, own, logged, stored, or_fault, put, read, write, turns, act, step, after};
ghost use Rattle.txn_runs.specs.Serial.{has_ended};
ghost use Rattle.plain_runs.specs.Left.{as_stmt};

use crate::left::{Left, Rest};
use item_table::Table;
use std::alloc::{AllocError, Global};
use std::marker::Model;
use txn_runs::{Block, Cmp, End, FaultKind, Op, Operand, Program, Stmt, TableRef};

/// Where a run is after some steps.
#[derive(Drop)]
pub struct PlainRun<'a> {
    rest: Rest<'a>,
    registers: [i64; 16],
    writes: Vec<Option<i64>>,
    reads: Vec<(u32, u64, i64)>,
    emits: Vec<i64>,
    end: End,
}

impl<'a> Model for PlainRun<'a> {
    ghost use Rattle.std.specs.Coded.{codes};
    ghost use Rattle.txn_runs.specs.contracts.program.Stmt as stmt;
    ghost use Rattle.txn_runs.specs.Run.{Running};

    ghost Value = { Running };

    ghost coded = { Prim.hlevel (codes, stmt.the_row.coded) };

    ghost view = { λ s. record { rest = s.rest; registers = s.registers; writes = s.writes.items; reads = s.reads.items; emits = s.emits.items; end = s.end } };
}

/// The run of a program from its start over a table, after so many steps.
///
/// It makes each step as the definition says it, so it takes time for each, and it is right for any program and any table.
///
/// # Errors
/// Where memory runs out.
pub fn plain_run<'a>(
    alloc: Global,
    program: &'a Program,
    table: &Table,
    steps: u32,
) -> Result<PlainRun<'a>, AllocError>
    ensures { IfOk result (λ run. run ≡ after program.now table.now steps) }
{
    let mut run = PlainRun::start(alloc, program, table.len())?;
    for n in 0..steps {
        run.step(table, n)?;
    }
    Ok(run)
}

impl<'a> PlainRun<'a> {
    fn start(alloc: Global, program: &'a Program, items: u32) -> Result<PlainRun<'a>, AllocError>
        ensures { IfOk result (λ run. run ≡ start program.now items) }
    {
        let mut rest = Rest::new(alloc);
        rest.push_block(program.body())?;
        let writes = vec![in alloc; None; items as usize]?;
        Ok(PlainRun {
            rest,
            registers: [0; 16],
            writes,
            reads: Vec::new(alloc),
            emits: Vec::new(alloc),
            end: End::Going,
        })
    }

    /// The value of each register.
    pub fn registers(&self) -> &[i64; 16]
        ensures { result.now ≡ self.now.registers }
    {
        &self.registers
    }

    /// For each item what the run has written, if anything.
    pub fn writes(&self) -> &[Option<i64>]
        ensures { result.now ≡ self.now.writes }
    {
        &self.writes
    }

    /// The reads of the table in their order: the number of steps before it, the item, and the value found.
    pub fn reads(&self) -> &[(u32, u64, i64)]
        ensures { result.now ≡ self.now.reads }
    {
        &self.reads
    }

    /// What the run has emitted.
    pub fn emits(&self) -> &[i64]
        ensures { result.now ≡ self.now.emits }
    {
        &self.emits
    }

    /// Whether it goes on, or why it has failed.
    pub fn end(&self) -> End
        ensures { result ≡ self.now.end }
    {
        self.end
    }

    /// Whether no step is left: it has failed, or has made all its statements.
    pub fn ended(&self) -> bool
        ensures { result ≡ has_ended self.now }
    {
        self.end != End::Going || self.rest.is_empty()
    }

    fn value(&self, of: Operand) -> i64
        ensures { result ≡ value_of self.now of }
    {
        match of {
            Operand::Reg(n) => self.register(n),
            Operand::Lit(value) => value,
        }
    }

    fn register(&self, n: u8) -> i64
        ensures { result ≡ register self.now n }
    {
        self.registers.get(n as usize).copied().unwrap_or(0)
    }

    fn put(&mut self, to: u8, value: i64)
        ensures { self.new ≡ put to value self.old }
    {
        if to < 16 {
            self.registers[to as usize] = value;
        }
    }

    fn fault(&mut self, kind: FaultKind)
        ensures { self.new ≡ record self.old { end = Fault kind } }
    {
        self.end = End::Fault { kind };
    }

    fn calculate(&mut self, to: u8, left: Operand, op: Op, right: Operand)
        ensures { self.new ≡ or_fault (calc op (value_of self.old left) (value_of self.old right)) self.old (λ v. put to v self.old) }
    {
        match txn_runs::calc(op, self.value(left), self.value(right)) {
            Ok(value) => self.put(to, value),
            Err(kind) => self.fault(kind),
        }
    }

    fn own(&self, item: u64) -> Option<i64>
        ensures { result ≡ own self.now.writes item }
    {
        self.writes.get(item as usize).copied().unwrap_or(None)
    }

    fn read(
        &mut self,
        table: &Table,
        n: u32,
        to: u8,
        from: TableRef,
        at: Operand,
    ) -> Result<(), AllocError>
        ensures { OnOk result (self.new ≡ or_fault (item_at from (value_of self.old at)) self.old (read table.now n to self.old)) }
    {
        match txn_runs::item_at(from, self.value(at)) {
            Ok(item) => self.fetch(table, n, to, item),
            Err(kind) => {
                self.fault(kind);
                Ok(())
            }
        }
    }

    fn fetch(&mut self, table: &Table, n: u32, to: u8, item: u64) -> Result<(), AllocError>
        ensures { OnOk result (self.new ≡ read table.now n to self.old item) }
    {
        match self.own(item) {
            Some(own) => self.put(to, own),
            None => match logged(&self.reads, item) {
                Some(logged) => self.put(to, logged),
                None => {
                    let value = stored(table, item);
                    self.reads.push((n, item, value))?;
                    self.put(to, value);
                }
            },
        }
        Ok(())
    }

    fn write(&mut self, table: TableRef, at: Operand, from: Operand)
        ensures { self.new ≡ or_fault (item_at table (value_of self.old at)) self.old (write (value_of self.old from) self.old) }
    {
        let value = self.value(from);
        match txn_runs::item_at(table, self.value(at)) {
            Ok(item) => self.set(item, value),
            Err(kind) => self.fault(kind),
        }
    }

    fn set(&mut self, item: u64, value: i64)
        ensures { self.new ≡ write value self.old item }
    {
        let item = item as usize;
        if item < self.writes.len() {
            self.writes[item] = Some(value);
        }
    }

    fn choose(&mut self, holds: bool, yes: &'a Block, no: &'a Block) -> Result<(), AllocError>
        ensures { OnOk result (self.new ≡ record self.old { rest = (if holds then yes.now.stmts else no.now.stmts) ++ self.old.rest }) }
    {
        if holds {
            self.rest.push_block(yes)
        } else {
            self.rest.push_block(no)
        }
    }

    fn turn(&mut self, count: u32, body: &'a Block) -> Result<(), AllocError>
        ensures { OnOk result (self.new ≡ record self.old { rest = turns count body.now ++ self.old.rest }) }
    {
        if count == 0 {
            return Ok(());
        }
        self.rest.push_turn(count - 1, body)?;
        self.rest.push_block(body)
    }

    fn emit(&mut self, from: Operand) -> Result<(), AllocError>
        ensures { OnOk result (self.new ≡ record self.old { emits = self.old.emits ++ value_of self.old from ∷ [] }) }
    {
        let value = self.value(from);
        self.emits.push(value)?;
        Ok(())
    }

    fn perform(&mut self, stmt: &'a Stmt, table: &Table, n: u32) -> Result<(), AllocError>
        ensures { OnOk result (self.new ≡ act table.now n self.old (out-Stmt stmt.now)) }
    {
        match stmt {
            Stmt::Calc {
                to,
                left,
                op,
                right,
            } => self.calculate(*to, *left, *op, *right),
            Stmt::Move { to, from } => {
                let value = self.value(*from);
                self.put(*to, value);
            }
            Stmt::Read {
                to,
                table: from,
                at,
            } => self.read(table, n, *to, *from, *at)?,
            Stmt::Write { table, at, from } => self.write(*table, *at, *from),
            Stmt::If {
                left,
                cmp,
                right,
                yes,
                no,
            } => {
                let holds = txn_runs::holds(*cmp, self.value(*left), self.value(*right));
                self.choose(holds, yes, no)?;
            }
            Stmt::Loop { count, body } => self.turn(*count, body)?,
            Stmt::Emit { from } => self.emit(*from)?,
            Stmt::Fail { code } => self.fail(*code),
        }
        Ok(())
    }

    fn fail(&mut self, code: Operand)
        ensures { self.new ≡ record self.old { end = Failed (value_of self.old code) } }
    {
        let code = self.value(code);
        self.end = End::Failed { code };
    }

    fn next(&mut self, left: Left<'a>, table: &Table, n: u32) -> Result<(), AllocError>
        ensures { OnOk result (self.new ≡ act table.now n self.old (out-Stmt (as_stmt left.entry))) }
    {
        match left {
            Left::One(stmt) => self.perform(stmt, table, n),
            Left::Turn { count, body } => self.turn(count, body),
        }
    }

    fn step(&mut self, table: &Table, n: u32) -> Result<(), AllocError>
        ensures { OnOk result (self.new ≡ step table.now n self.old) }
    {
        if self.end != End::Going {
            return Ok(());
        }
        match self.rest.pop() {
            Some(left) => self.next(left, table, n),
            None => Ok(()),
        }
    }
}

fn logged(reads: &[(u32, u64, i64)], item: u64) -> Option<i64>
    ensures { result ≡ logged reads.now item }
{
    for read in reads {
        if read.1 == item {
            return Some(read.2);
        }
    }
    None
}

fn stored(table: &Table, item: u64) -> i64
    ensures { result ≡ stored table.now item }
{
    if item < u64::from(table.len()) {
        table.get(item as u32)
    } else {
        0
    }
}
