ghost use Rattle.std.specs.Prelude.{◌≡◌, [], ◌∷◌, pos, IfOk};
ghost use Rattle.txn_runs.specs.declared.program.Operand.TheVariants.{Lit};
ghost use Rattle.txn_runs.specs.declared.program.Stmt.TheVariants.{Fail as FailOf};

use item_table::Table;
use journal_core::{Entry, Journal, put_reply};
use sqlite_items::Items;
use std::alloc::{AllocError, Global};
use std::test::Fail;
use txn_runs::{Block, EmitRoom, Emits, Emitted, FaultKind, Operand, Outcome, Program, Stmt};

// The program that does nothing.
fn nothing(alloc: Global) -> Program
    ensures { result ≡ [] }
{
    Program::new(Block::new(Items::new(alloc)))
}

// No numbers.
fn none(alloc: Global) -> Emitted
    ensures { result ≡ [] }
{
    Emitted::in_room(&Emits::new(), EmitRoom::none(alloc))
}

// The program `{ fail 7; }`.
fn failing(alloc: Global) -> Result<Program, AllocError>
    ensures { IfOk result (λ program. program ≡ FailOf (Lit (pos 7)) ∷ []) }
{
    let mut stmts = Vec::new(alloc);
    stmts.push(Stmt::Fail {
        code: Operand::Lit(7),
    })?;
    Ok(Program::new(Block::new(Items::from_vec(stmts))))
}

#[test]
fn tells_what_was_recorded(rt: HostRuntime) -> Result<(), Fail> {
    let mut journal = Journal::new(rt.alloc(), Table::new(rt.alloc(), 2)?);
    journal.reserve(5)?;
    journal.push_reserved(Entry::Began {
        txn: 1,
        deadline: 10,
        program: nothing(rt.alloc()),
    });
    journal.push_reserved(Entry::Began {
        txn: 2,
        deadline: 10,
        program: nothing(rt.alloc()),
    });
    assert!(rt; journal.live(1) && journal.live(2) && !journal.live(3));
    assert!(rt; journal.outcome_of(1).is_none());
    journal.push_reserved(Entry::Committed {
        txn: 1,
        outcome: Outcome::Done {
            emits: none(rt.alloc()),
        },
    });
    journal.push_reserved(Entry::Withdrawn { txn: 2 });
    assert!(rt; !journal.sealed());
    journal.push_reserved(Entry::Sealed);
    assert!(rt; !journal.live(1) && !journal.live(2));
    assert!(rt; matches!(journal.outcome_of(1), Some(Outcome::Done { .. })));
    assert!(rt; journal.outcome_of(2).is_none() && journal.outcome_of(3).is_none());
    assert!(rt; journal.withdrawn(2) && !journal.withdrawn(1));
    assert!(rt; journal.sealed());
    assert_eq!(rt; journal.began(), 2);
    assert_eq!(rt; journal.commits(), 1);
    assert_eq!(rt; journal.len(), 5);
    assert_eq!(rt; journal.spare(), 0);
    assert!(rt; matches!(journal.entry(3), Entry::Withdrawn { txn: 2 }));
    assert_eq!(rt; journal.opening().len(), 2);
    Ok(())
}

#[test]
fn a_commit_may_follow_the_seal(rt: HostRuntime) -> Result<(), Fail> {
    let mut journal = Journal::new(rt.alloc(), Table::new(rt.alloc(), 2)?);
    journal.reserve(4)?;
    journal.push_reserved(Entry::Began {
        txn: 1,
        deadline: 10,
        program: failing(rt.alloc())?,
    });
    journal.push_reserved(Entry::Sealed);
    assert!(rt; journal.live(1) && journal.outcome_of(1).is_none());
    journal.push_reserved(Entry::Committed {
        txn: 1,
        outcome: Outcome::Failed { code: 7 },
    });
    assert!(rt; !journal.live(1) && journal.sealed());
    assert!(rt; matches!(journal.outcome_of(1), Some(Outcome::Failed { code: 7 })));
    // nobody has the number 0
    assert!(rt; !journal.live(0) && !journal.withdrawn(0) && journal.outcome_of(0).is_none());
    assert_eq!(rt; journal.commits(), 1);
    assert_eq!(rt; journal.spare(), 1);
    Ok(())
}

#[test]
fn prints_commit_lines(rt: HostRuntime) -> Result<(), Fail> {
    let mut emits = Emits::new();
    emits.push(-5);
    emits.push(9223372036854775807);
    let mut out = Vec::new(rt.alloc());
    put_reply(
        1,
        &Outcome::Done {
            emits: none(rt.alloc()),
        },
        &mut out,
    )?;
    let emits = Emitted::in_room(&emits, EmitRoom::new(rt.alloc(), 2)?);
    put_reply(20, &Outcome::Done { emits }, &mut out)?;
    put_reply(3, &Outcome::Failed { code: -7 }, &mut out)?;
    put_reply(
        4,
        &Outcome::Fault {
            kind: FaultKind::Overflow,
        },
        &mut out,
    )?;
    put_reply(
        5,
        &Outcome::Fault {
            kind: FaultKind::Zero,
        },
        &mut out,
    )?;
    put_reply(
        4294967295,
        &Outcome::Fault {
            kind: FaultKind::Range,
        },
        &mut out,
    )?;
    let want =
        b"commit 1 done\ncommit 20 done -5 9223372036854775807\ncommit 3 failed -7\ncommit 4 fault overflow\ncommit 5 fault zero\ncommit 4294967295 fault range\n";
    assert!(rt; out.as_slice() == want.as_slice());
    Ok(())
}
