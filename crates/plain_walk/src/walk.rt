// The plain interpreter: it walks the statements of a program from its start.
use item_table::Table;
use std::alloc::{AllocError, Global};
use txn_runs::{Cmp, End, FaultKind, Op, Operand, Program, Stmt, TableRef};

/// What a program has done when its walk stops.
#[derive(Drop)]
pub struct Walk {
    left: u32,
    /// How many steps were made.
    pub made: u32,
    /// Whether a statement is left for which there was no step.
    pub cut: bool,
    pub registers: [i64; 16],
    tables: Vec<i64>,
    /// What it has written to each item.
    pub writes: Vec<Option<i64>>,
    /// The position, the item and the value of each first read of an item that it hadn't written.
    pub reads: Vec<(u32, u32, i64)>,
    pub emits: Vec<i64>,
    /// Whether it has failed or faulted.
    pub end: End,
}

/// Walks a program over these tables, which it leaves as they are, for at most so many steps.
///
/// # Errors
/// Where memory runs out.
pub fn walk_program(
    alloc: Global,
    program: &Program,
    tables: &Table,
    most: u32,
) -> Result<Walk, AllocError> {
    let mut walk = Walk {
        left: most,
        made: 0,
        cut: false,
        registers: [0; 16],
        tables: tables.row(0, tables.len()).to_vec(alloc)?,
        writes: vec![in alloc; None; tables.len() as usize]?,
        reads: Vec::new(alloc),
        emits: Vec::new(alloc),
        end: End::Going,
    };
    walk.block(program.body().stmts(), 8)?;
    Ok(walk)
}

fn calculated(op: Op, a: i64, b: i64) -> Result<i64, FaultKind> {
    match op {
        Op::Add => a.checked_add(b).ok_or(FaultKind::Overflow),
        Op::Sub => a.checked_sub(b).ok_or(FaultKind::Overflow),
        Op::Mul => a.checked_mul(b).ok_or(FaultKind::Overflow),
        Op::Div | Op::Rem if b == 0 => Err(FaultKind::Zero),
        Op::Div if b == -1 => 0i64.checked_sub(a).ok_or(FaultKind::Overflow),
        Op::Rem if b == -1 => Ok(0),
        Op::Div => Ok(a / b),
        Op::Rem => Ok(a % b),
        Op::Min => Ok(if a < b { a } else { b }),
        Op::Max => Ok(if a < b { b } else { a }),
    }
}

fn compared(cmp: Cmp, a: i64, b: i64) -> bool {
    match cmp {
        Cmp::Eq => a == b,
        Cmp::Ne => a != b,
        Cmp::Lt => a < b,
        Cmp::Le => a <= b,
        Cmp::Gt => a > b,
        Cmp::Ge => a >= b,
    }
}

impl Walk {
    // Takes a step, where the run goes on and there is one.
    fn steps(&mut self) -> bool {
        if self.end != End::Going {
            return false;
        }
        if self.left == 0 {
            self.cut = true;
            return false;
        }
        self.left -= 1;
        self.made = self.made.wrapping_add(1);
        true
    }

    // Walks a block, in which others stand at most so deep.
    #[cycle(walk)]
    fn block(&mut self, stmts: &[Stmt], depth: u8) -> Result<(), AllocError> {
        for stmt in stmts {
            self.stmt(stmt, depth)?;
        }
        Ok(())
    }

    #[cycle(walk)]
    fn stmt(&mut self, stmt: &Stmt, depth: u8) -> Result<(), AllocError> {
        if !self.steps() {
            return Ok(());
        }
        match stmt {
            Stmt::If {
                left,
                cmp,
                right,
                yes,
                no,
            } if depth > 0 => {
                let (left, right) = (self.value(*left), self.value(*right));
                if compared(*cmp, left, right) {
                    self.block(yes.stmts(), depth - 1)
                } else {
                    self.block(no.stmts(), depth - 1)
                }
            }
            Stmt::Loop { count, body } if depth > 0 => {
                for _ in 0..*count {
                    self.block(body.stmts(), depth - 1)?;
                    if !self.steps() {
                        return Ok(());
                    }
                }
                Ok(())
            }
            _ => self.leaf(stmt),
        }
    }

    // A statement without blocks.
    fn leaf(&mut self, stmt: &Stmt) -> Result<(), AllocError> {
        match stmt {
            Stmt::Calc {
                to,
                left,
                op,
                right,
            } => {
                let (left, right) = (self.value(*left), self.value(*right));
                match calculated(*op, left, right) {
                    Ok(value) => self.put(*to, value),
                    Err(kind) => self.end = End::Fault { kind },
                }
            }
            Stmt::Move { to, from } => {
                let value = self.value(*from);
                self.put(*to, value);
            }
            Stmt::Read { to, table, at } => {
                let at = self.value(*at);
                return self.read(*to, *table, at);
            }
            Stmt::Write { table, at, from } => {
                let (at, value) = (self.value(*at), self.value(*from));
                self.write(*table, at, value);
            }
            Stmt::Emit { from } => {
                let value = self.value(*from);
                self.emits.push(value)?;
            }
            Stmt::Fail { code } => {
                let code = self.value(*code);
                self.end = End::Failed { code };
            }
            _ => {}
        }
        Ok(())
    }

    fn value(&self, operand: Operand) -> i64 {
        match operand {
            Operand::Reg(n) => self.registers.get(n as usize).copied().unwrap_or(0),
            Operand::Lit(value) => value,
        }
    }

    fn put(&mut self, to: u8, value: i64) {
        if let Some(register) = self.registers.get_mut(to as usize) {
            *register = value;
        }
    }

    // The item at a place of a table; outside it the run faults.
    fn item(&mut self, table: TableRef, at: i64) -> Option<u32> {
        if at < 0 || at >= i64::from(table.size) {
            self.end = End::Fault {
                kind: FaultKind::Range,
            };
            return None;
        }
        Some(table.base.wrapping_add(at as u32))
    }

    fn write(&mut self, table: TableRef, at: i64, value: i64) {
        if let Some(item) = self.item(table, at) {
            if let Some(place) = self.writes.get_mut(item as usize) {
                *place = Some(value);
            }
        }
    }

    fn read(&mut self, to: u8, table: TableRef, at: i64) -> Result<(), AllocError> {
        let Some(item) = self.item(table, at) else {
            return Ok(());
        };
        let own = self.writes.get(item as usize).copied().unwrap_or(None);
        let stored = self.tables.get(item as usize).copied().unwrap_or(0);
        let value = own.unwrap_or(stored);
        if own.is_none() && !self.reads.iter().any(|read| read.1 == item) {
            self.reads.push((self.made.wrapping_sub(1), item, value))?;
        }
        self.put(to, value);
        Ok(())
    }
}
