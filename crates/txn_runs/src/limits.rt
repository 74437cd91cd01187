// The bounds of programs, computed.
ghost use Rattle.std.specs.Prelude.{◌≡◌, ◌<◌, ◌≤◌, ◌^◌, ◌+◌, ◌*◌, IsTrue, ◌↔◌};
ghost use Rattle.txn_runs.specs.Fold.{of_stmt};
ghost use Rattle.txn_runs.specs.Bounds.{plus, greater, steps_row, emits_row, reach_row, steps_max, emits_max, reach};

use crate::program::{Block, Stmt, TableRef};

#[cycle(steps)]
#[tactic(auto, using(crate::proofs::Rows::steps_if, crate::proofs::Rows::steps_loop, crate::proofs::Rows::steps_drop))]
pub(crate) fn block_steps(block: &Block) -> u32
    requires fits { steps_max block.now.stmts < 2 ^ 32 }
    ensures { result ≡ steps_max block.now.stmts }
{
    all_steps(block.stmts())
}

#[cycle(steps)]
#[tactic(auto, using(crate::proofs::Rows::steps_if, crate::proofs::Rows::steps_loop, crate::proofs::Rows::steps_drop, crate::proofs::Rows::size_drop))]
fn all_steps(stmts: &[Stmt]) -> u32
    requires fits { steps_max stmts.now < 2 ^ 32 }
    ensures { result ≡ steps_max stmts.now }
{
    let mut total = 0;
    for stmt in stmts {
        total += stmt_steps(stmt);
    }
    total
}

#[cycle(steps)]
#[tactic(auto, using(crate::proofs::Rows::steps_if, crate::proofs::Rows::steps_loop, crate::proofs::Rows::size_if, crate::proofs::Rows::size_loop))]
fn stmt_steps(stmt: &Stmt) -> u32
    requires fits { of_stmt steps_row plus stmt.now < 2 ^ 32 }
    ensures { result ≡ of_stmt steps_row plus stmt.now }
{
    match stmt {
        Stmt::If { yes, no, .. } => 1 + block_steps(yes).max(block_steps(no)),
        Stmt::Loop { count, body } => turns_steps(*count, body),
        _ => 1,
    }
}

/// The steps of a loop. A body that is never entered may have any bound.
#[cycle(steps)]
#[tactic(auto, using(crate::proofs::Rows::factor_fits))]
fn turns_steps(count: u32, body: &Block) -> u32
    requires fits { 1 + count * (1 + steps_max body.now.stmts) < 2 ^ 32 }
    ensures { result ≡ 1 + count * (1 + steps_max body.now.stmts) }
{
    if count == 0 {
        1
    } else {
        1 + count * (1 + block_steps(body))
    }
}

#[cycle(emits)]
#[tactic(auto, using(crate::proofs::Rows::emits_if, crate::proofs::Rows::emits_loop, crate::proofs::Rows::emits_drop))]
pub(crate) fn block_emits(block: &Block) -> u32
    requires fits { emits_max block.now.stmts < 2 ^ 32 }
    ensures { result ≡ emits_max block.now.stmts }
{
    all_emits(block.stmts())
}

#[cycle(emits)]
#[tactic(auto, using(crate::proofs::Rows::emits_if, crate::proofs::Rows::emits_loop, crate::proofs::Rows::emits_drop, crate::proofs::Rows::size_drop))]
fn all_emits(stmts: &[Stmt]) -> u32
    requires fits { emits_max stmts.now < 2 ^ 32 }
    ensures { result ≡ emits_max stmts.now }
{
    let mut total = 0;
    for stmt in stmts {
        total += stmt_emits(stmt);
    }
    total
}

#[cycle(emits)]
#[tactic(auto, using(crate::proofs::Rows::emits_if, crate::proofs::Rows::emits_loop, crate::proofs::Rows::emits_emit, crate::proofs::Rows::size_if, crate::proofs::Rows::size_loop))]
fn stmt_emits(stmt: &Stmt) -> u32
    requires fits { of_stmt emits_row plus stmt.now < 2 ^ 32 }
    ensures { result ≡ of_stmt emits_row plus stmt.now }
{
    match stmt {
        Stmt::If { yes, no, .. } => block_emits(yes).max(block_emits(no)),
        Stmt::Loop { count, body } => turns_emits(*count, body),
        Stmt::Emit { .. } => 1,
        _ => 0,
    }
}

/// The emits of a loop. A body that is never entered may have any bound.
#[cycle(emits)]
#[tactic(auto, using(crate::proofs::Rows::factor_fits))]
fn turns_emits(count: u32, body: &Block) -> u32
    requires fits { count * emits_max body.now.stmts < 2 ^ 32 }
    ensures { result ≡ count * emits_max body.now.stmts }
{
    if count == 0 {
        0
    } else {
        count * block_emits(body)
    }
}

/// Whether all tables of a block lie within so many items.
#[cycle(reach)]
#[tactic(auto, using(crate::proofs::Rows::reach_if, crate::proofs::Rows::reach_loop, crate::proofs::Rows::reach_drop))]
pub(crate) fn block_fits(block: &Block, items: u32) -> bool
    ensures { IsTrue result ↔ (reach block.now.stmts ≤ items) }
{
    all_fit(block.stmts(), items)
}

#[cycle(reach)]
#[tactic(auto, using(crate::proofs::Rows::reach_if, crate::proofs::Rows::reach_loop, crate::proofs::Rows::reach_drop, crate::proofs::Rows::size_drop))]
fn all_fit(stmts: &[Stmt], items: u32) -> bool
    ensures { IsTrue result ↔ (reach stmts.now ≤ items) }
{
    for stmt in stmts {
        if !stmt_fits(stmt, items) {
            return false;
        }
    }
    true
}

#[cycle(reach)]
#[tactic(auto, using(crate::proofs::Rows::reach_if, crate::proofs::Rows::reach_loop, crate::proofs::Rows::reach_read, crate::proofs::Rows::reach_write, crate::proofs::Rows::size_if, crate::proofs::Rows::size_loop))]
fn stmt_fits(stmt: &Stmt, items: u32) -> bool
    ensures { IsTrue result ↔ (of_stmt reach_row greater stmt.now ≤ items) }
{
    match stmt {
        Stmt::Read { table, .. } => table_fits(*table, items),
        Stmt::Write { table, .. } => table_fits(*table, items),
        Stmt::If { yes, no, .. } => block_fits(yes, items) && block_fits(no, items),
        Stmt::Loop { body, .. } => block_fits(body, items),
        _ => true,
    }
}

fn table_fits(table: TableRef, items: u32) -> bool
    ensures { IsTrue result ↔ (table.base + table.size ≤ items) }
{
    u64::from(table.base) + u64::from(table.size) <= u64::from(items)
}
