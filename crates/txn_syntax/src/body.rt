ghost use Rattle.std.specs.Prelude.{◌≡◌, ◌≤◌, [], true, OnOk};
ghost use Rattle.txn_syntax.specs.Bodies.{Adds};
ghost use Rattle.txn_syntax.specs.Measures as spec;
ghost use Rattle.txn_syntax.specs.Meaning.{negative as spec_negative, operand_of, table_of, statement_of, choice_of, turns_of, term_fits, plain_fits, test_fits};

use crate::measure::Measure;
use crate::place::{Plain, Term, Test};
use sqlite_items::Items;
use std::alloc::{AllocError, Global};
use txn_runs::{Block, Operand, Stmt, TableRef};

/// The statements of a block: what the limits speak of, and where they are kept, the statements themselves.
#[derive(Drop)]
pub struct Body {
    pub measure: Measure,
    pub stmts: Vec<Stmt>,
}

impl Body {
    pub fn new(alloc: Global) -> Body
        ensures measure { result.measure ≡ spec.none }
        ensures stmts { result.stmts.items ≡ [] }
    {
        Body {
            measure: Measure::none(),
            stmts: Vec::new(alloc),
        }
    }

    /// Adds a statement without blocks, inside so many blocks.
    pub fn push_plain(&mut self, plain: Plain, level: usize) -> Result<(), AllocError>
        ensures { OnOk result (Adds level self.old self.new (spec.of_plain plain) (statement_of plain)) }
    {
        self.measure = self.measure.then(Measure::of_plain(plain));
        if self.measure.is_kept(level) {
            self.stmts.push(statement_of(plain))?;
        }
        Ok(())
    }

    /// Adds an `if` over two blocks, inside so many blocks.
    pub fn push_choice(
        &mut self,
        test: Test,
        first: Body,
        second: Body,
        level: usize,
    ) -> Result<(), AllocError>
        ensures { OnOk result (Adds level self.old self.new (spec.of_choice test first.measure second.measure) (choice_of test first.stmts.items second.stmts.items)) }
    {
        let more = Measure::of_choice(test, first.measure, second.measure);
        self.measure = self.measure.then(more);
        if self.measure.is_kept(level) {
            self.stmts.push(choice_of(test, first.stmts, second.stmts))?;
        }
        Ok(())
    }

    /// Adds a loop over a block, inside so many blocks.
    pub fn push_turns(&mut self, count: u64, body: Body, level: usize) -> Result<(), AllocError>
        ensures { OnOk result (Adds level self.old self.new (spec.of_turns count body.measure) (turns_of count body.stmts.items)) }
    {
        self.measure = self.measure.then(Measure::of_turns(count, body.measure));
        if self.measure.is_kept(level) {
            self.stmts.push(turns_of(count, body.stmts))?;
        }
        Ok(())
    }
}

/// The block of these statements, which keeps no more room than they take.
pub fn block_of(mut stmts: Vec<Stmt>) -> Block
    ensures { result.stmts ≡ stmts.items }
{
    stmts.shrink_to_fit();
    Block::new(Items::from_vec(stmts))
}

// The `if`, where its literals have 64 bits.
fn choice_of(test: Test, first: Vec<Stmt>, second: Vec<Stmt>) -> Stmt
    ensures { test_fits test ≡ true → result ≡ choice_of test first.items second.items }
{
    Stmt::If {
        left: operand_of(test.left),
        cmp: test.cmp,
        right: operand_of(test.right),
        yes: block_of(first),
        no: block_of(second),
    }
}

// The loop, where its count is within the limit.
fn turns_of(count: u64, body: Vec<Stmt>) -> Stmt
    ensures { count ≤ 1000 → result ≡ turns_of count body.items }
{
    Stmt::Loop {
        count: small_count(count),
        body: block_of(body),
    }
}

// A loop's count, where it is within the limit.
fn small_count(count: u64) -> u32
    ensures { count ≤ 1000 → result ≡ count }
{
    if count <= 1000 { count as u32 } else { 0 }
}

// The operand that is written, where it has 64 bits.
fn operand_of(term: Term) -> Operand
    ensures { term_fits term ≡ true → result ≡ operand_of term }
{
    match term {
        Term::Register(register) => Operand::Reg(register),
        Term::Number(number) => Operand::Lit(if number < 1 << 63 { number as i64 } else { 0 }),
        Term::Minus(number) => Operand::Lit(negative(number)),
    }
}

// What is below 0 by a number.
fn negative(number: u64) -> i64
    ensures { term_fits (Term.Minus number) ≡ true → result ≡ spec_negative number }
{
    if number < 1 << 63 {
        -(number as i64)
    } else {
        i64::MIN
    }
}

fn table_of(table: Option<TableRef>) -> TableRef
    ensures { result ≡ table_of table }
{
    table.unwrap_or(TableRef {
        number: 0,
        base: 0,
        size: 0,
    })
}

fn statement_of(plain: Plain) -> Stmt
    ensures { plain_fits plain ≡ true → result ≡ statement_of plain }
{
    match plain {
        Plain::Calc {
            to,
            left,
            op,
            right,
        } => Stmt::Calc {
            to,
            left: operand_of(left),
            op,
            right: operand_of(right),
        },
        Plain::Move { to, from } => Stmt::Move {
            to,
            from: operand_of(from),
        },
        Plain::Read { to, table, at } => Stmt::Read {
            to,
            table: table_of(table),
            at: operand_of(at),
        },
        Plain::Write { table, at, from } => Stmt::Write {
            table: table_of(table),
            at: operand_of(at),
            from: operand_of(from),
        },
        Plain::Emit { from } => Stmt::Emit {
            from: operand_of(from),
        },
        Plain::Fail { code } => Stmt::Fail {
            code: operand_of(code),
        },
    }
}
