// The journals that scripts print, audited.
ghost use Rattle.std.specs.Prelude.{◌≡◌, ◌≤◌};

use crate::runs::{joined, judged, printed};
use scc_gen::put_gen;
use serial_audit::Verdict;
use std::alloc::{AllocError, Global};
use std::test::Fail;

// How many bytes are the same at the front of both.
fn same_front(one: &[u8], other: &[u8]) -> usize {
    let mut same = 0;
    for place in 0..one.len().min(other.len()) {
        if one[place] != other[place] {
            return same;
        }
        same = place + 1;
    }
    same
}

// The journal that a script prints behind these lines, which have a table.
fn journal_of(alloc: Global, k: u32, lanes: u32, input: &[u8]) -> Result<Vec<u8>, AllocError>
    requires shadows { (1 ≤ k) × (k ≤ 8) }
    requires lanes { (1 ≤ lanes) × (lanes ≤ 64) }
{
    let without = printed(alloc, k, lanes, input)?;
    let with = printed(alloc, k, lanes, &joined(alloc, &[input, b"journal\n"])?)?;
    let from = same_front(&without, &with);
    let size = with.len().saturating_sub(without.len());
    let rest = with.get(from..).unwrap_or(b"");
    Ok(rest.get(..size).unwrap_or(b"").to_vec(alloc)?)
}

// The two tables of each list of events.
const SETTINGS: [&[u8]; 4] = [
    b"table a 4",
    b"put a 1 7",
    b"table bc_1 2",
    b"put bc_1 0 -3",
];

// What an audit says of the journal that a script prints behind these events; `None` where it may not have so many shadows or lanes,
// or prints no journal.
fn said(alloc: Global, k: u32, lanes: u32, events: &[u8]) -> Result<Option<Verdict>, AllocError> {
    if k < 1 || 8 < k || lanes < 1 || 64 < lanes {
        return Ok(None);
    }
    let tables = b"table a 4\nput a 1 7\ntable bc_1 2\nput bc_1 0 -3\n";
    let rows = journal_of(alloc, k, lanes, &joined(alloc, &[tables, events])?)?;
    if !rows.starts_with(b"entry,") {
        return Ok(None);
    }
    Ok(Some(judged(alloc, &SETTINGS, &rows)?))
}

#[test]
fn printed_journals_are_right(rt: HostRuntime) -> Result<(), Fail> {
    let alloc = rt.alloc();
    let rows: [(u32, u32, &[u8], u32); 12] = [
        (1, 1, b"", 0),
        (1, 1, b"seal\nseal\n", 0),
        (
            2,
            2,
            b"begin 10 { r0 = a[0]; emit r0; }\nbegin 20 { a[0] = 5; }\nstep 1\nstep 2\ncommit 2\nrun\ncommit 1\n",
            2,
        ),
        (
            2,
            2,
            b"begin 10 { r0 = a[0]; emit r0; }\nbegin 20 { a[0] = 5; }\nrun\ncommit 1\n",
            1,
        ),
        (
            2,
            2,
            b"begin 10 { r0 = a[0]; emit r0; }\nbegin 20 { a[0] = 5; }\nwithdraw 1\nseal\ndrain\n",
            1,
        ),
        (
            1,
            1,
            b"begin 1 { fail -7; }\nbegin 1 { emit 9223372036854775807; emit -9223372036854775808; }\nbegin 1 { r0 = 5 % 0; }\nbegin 1 { a[4] = 1; }\nbegin 1 { r0 = 9223372036854775807 + 1; }\ndrain\n",
            5,
        ),
        (
            1,
            1,
            b"begin 30 { }\nbegin 20 { }\nbegin 1000000000000 { }\nwithdraw 2\ndrain\n",
            2,
        ),
        (
            3,
            3,
            b"begin 1 { r0 = a[1]; r1 = bc_1[0]; r2 = r0 * r1; a[0] = r2; emit r2; }\nbegin 2 { a[1] = 1; }\nbegin 3 { bc_1[0] = 2; }\nrun\ncommit 3\nrun\ncommit 2\ndrain\n",
            3,
        ),
        (
            8,
            4,
            b"begin 1 { loop 3 { r0 = r0 + 1; } if r0 >= 3 { emit r0; } else { fail 1; } }\nbegin 1 { if r0 != 0 { } else { if 1 < 2 { a[0] = -1; } } }\ndrain\n",
            2,
        ),
        (
            8,
            4,
            b"begin 1 { r15 = 7 / -2; r3 = r15 min 0; r4 = r3 max -1; r5 = r4 - r3; r6 = r5 % 3; emit r6; }\ndrain\n",
            1,
        ),
        (
            2,
            3,
            b"begin 1 { a[0] = 1; r0 = a[1]; }\nbegin 1 { a[1] = 1; r0 = a[0]; }\nbegin 1 { emit 1; }\nrun\nwithdraw 3\ncommit 2\ndrain\nbegin 9 { r0 = a[0]; emit r0; }\ndrain\n",
            3,
        ),
        (
            1,
            1,
            b"begin 1 {}\nbegin 2 {{}}\nbegin 3 {emit 1;}\ncommit 7\ndrain\n",
            2,
        ),
    ];
    for (k, lanes, events, commits) in rows {
        let verdict = said(alloc, k, lanes, events)?;
        assert!(rt; verdict == Some(Verdict::Yes { commits }));
    }
    Ok(())
}

#[test]
fn a_long_journal_is_right(rt: HostRuntime) -> Result<(), Fail> {
    let alloc = rt.alloc();
    let mut made = Vec::new(alloc);
    put_gen(7, 300, &mut made)?;
    let rows = journal_of(alloc, 3, 16, &joined(alloc, &[&made, b"drain\n"])?)?;
    assert!(rt; rows.starts_with(b"entry,"));
    let verdict = judged(alloc, &[b"table acct 64"], &rows)?;
    assert_eq!(rt; verdict, Verdict::Yes { commits: 300 });
    Ok(())
}
