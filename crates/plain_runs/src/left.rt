ghost use Rattle.std.specs.Prelude.{◌≡◌, [], ◌∷◌, ◌++◌, OnOk, MatchOption, IsTrue, ◌↔◌};
ghost use Rattle.txn_runs.specs.declared.program.Stmt.TheVariants.{Loop};
ghost use Rattle.plain_runs.specs.Left.{as_stmt};

use std::alloc::{AllocError, Global};
use std::marker::Model;
use txn_runs::{Block, Stmt};

/// What stands next: a statement of the program, or one of its loops with so many turns to go.
#[derive(Clone, Copy)]
pub(crate) enum Left<'a> {
    One(&'a Stmt),
    Turn { count: u32, body: &'a Block },
}

/// The rest of a run, seen as its statements, the next one first.
#[derive(Drop)]
pub(crate) struct Rest<'a> {
    stack: Vec<Left<'a>>,
}

impl<'a> Model for Rest<'a> {
    ghost use Rattle.std.specs.Prelude.{List};
    ghost use Rattle.std.specs.Coded.{coded_list, codes};
    ghost use Rattle.txn_runs.specs.declared.program.Stmt.{Stmt};
    ghost use Rattle.txn_runs.specs.contracts.program.Stmt as stmt;
    ghost use Rattle.plain_runs.specs.Left.{as_rest};

    ghost Value = { List Stmt };

    ghost coded = { coded_list (Prim.hlevel (codes, stmt.the_row.coded)) };

    ghost view = { λ r. as_rest r.stack.items };
}

impl<'a> Rest<'a> {
    pub(crate) fn new(alloc: Global) -> Rest<'a>
        ensures { result ≡ [] }
    {
        Rest {
            stack: Vec::new(alloc),
        }
    }

    /// Whether nothing is left.
    pub(crate) fn is_empty(&self) -> bool
        ensures { IsTrue result ↔ (self.now ≡ []) }
    {
        self.stack.is_empty()
    }

    /// Takes the next one away.
    pub(crate) fn pop(&mut self) -> Option<Left<'a>>
        ensures { MatchOption result ((self.old ≡ []) × (self.new ≡ [])) (λ next. self.old ≡ as_stmt next ∷ self.new) }
    {
        self.stack.pop()
    }

    fn push(&mut self, next: Left<'a>) -> Result<(), AllocError>
        ensures { OnOk result (self.new ≡ as_stmt next.entry ∷ self.old) }
    {
        self.stack.push(next)?;
        Ok(())
    }

    /// Puts a loop with so many turns to go in front.
    pub(crate) fn push_turn(&mut self, count: u32, body: &'a Block) -> Result<(), AllocError>
        ensures { OnOk result (self.new ≡ Loop count body.now ∷ self.old) }
    {
        self.push(Left::Turn { count, body })
    }

    /// Puts the statements of a block in front.
    pub(crate) fn push_block(&mut self, block: &'a Block) -> Result<(), AllocError>
        ensures { OnOk result (self.new ≡ block.now.stmts ++ self.old) }
    {
        let stmts = block.stmts();
        let mut at = stmts.len();
        while at > 0 {
            at -= 1;
            self.push(Left::One(&stmts[at]))?;
        }
        Ok(())
    }
}
