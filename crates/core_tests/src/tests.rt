use crate::runs::{copied, ending, local_runs};
use access_sets::{ReadLog, WriteSet};
use item_table::Table;
use std::alloc::{AllocError, Global};
use std::marker::Brand;
use std::sync::ledger::Blank;
use std::test::Fail;
use txn_code::{Code, link};
use txn_interp::State;
use txn_names::Names;
use txn_runs::{FaultKind, TableRef, item_at};
use txn_syntax::read_program;

// A table `a` of four items and a table `b` of two behind it.
fn two_tables(alloc: Global) -> Result<Names, Fail> {
    let mut names = Names::new(alloc);
    let _a = names.add(b"a", 4)?;
    let _b = names.add(b"b", 2)?;
    Ok(names)
}

const OPENING: [i64; 6] = [10, 20, 30, 40, 5, 6];

fn opening(alloc: Global) -> Result<Table, AllocError> {
    let mut tables = Table::new(alloc, 6)?;
    for i in 0..6u32 {
        if i < tables.len() {
            tables.set(i, OPENING[i as usize]);
        }
    }
    Ok(tables)
}

// A program, and what its run must come to: its steps, its table reads, its commit line and the tables after it.
type Case = (&'static str, u32, u32, &'static str, [i64; 6]);

const CASES: [Case; 20] = [
    (
        "{ r0 = 9223372036854775807 + 1; }",
        1,
        0,
        "commit 1 fault overflow\n",
        OPENING,
    ),
    (
        "{ r0 = -9223372036854775808 / -1; }",
        1,
        0,
        "commit 1 fault overflow\n",
        OPENING,
    ),
    ("{ r0 = 5 % 0; }", 1, 0, "commit 1 fault zero\n", OPENING),
    ("{ a[4] = 1; }", 1, 0, "commit 1 fault range\n", OPENING),
    (
        "{ r0 = -9223372036854775808 % -1; r1 = -7 / 2; r2 = -7 % 2; emit r0; emit r1; emit r2; }",
        6,
        0,
        "commit 1 done 0 -3 -1\n",
        OPENING,
    ),
    (
        "{ loop 271 { loop 367 { } } }",
        100000,
        0,
        "commit 1 done\n",
        OPENING,
    ),
    (
        "{ loop 0 { fail 1; } emit 1; }",
        2,
        0,
        "commit 1 done 1\n",
        OPENING,
    ),
    ("{ }", 0, 0, "commit 1 done\n", OPENING),
    (
        "{ a[1] = 7; r0 = a[1]; emit r0; }",
        3,
        0,
        "commit 1 done 7\n",
        [10, 7, 30, 40, 5, 6],
    ),
    (
        "{ r0 = b[1]; r1 = b[1]; emit r1; emit r0; }",
        4,
        1,
        "commit 1 done 6 6\n",
        OPENING,
    ),
    (
        "{ a[1] = 7; r0 = a[2]; fail r0; emit 1; }",
        3,
        1,
        "commit 1 failed 30\n",
        OPENING,
    ),
    (
        "{ b[0] = 1; b[2] = 9; }",
        2,
        0,
        "commit 1 fault range\n",
        OPENING,
    ),
    ("{ r0 = b[-1]; }", 1, 0, "commit 1 fault range\n", OPENING),
    (
        "{ r0 = -5 min 3; r1 = -5 max 3; r2 = 4 - 9; r3 = 3037000500 * 3037000500; }",
        4,
        0,
        "commit 1 fault overflow\n",
        OPENING,
    ),
    (
        "{ if 1 < 1 { emit 1; } if 1 <= 1 { emit 2; } if 2 > 1 { emit 3; } else { emit 4; } if 1 >= 2 { } else { emit 5; } if 1 != 1 { emit 6; } }",
        8,
        0,
        "commit 1 done 2 3 5\n",
        OPENING,
    ),
    (
        "{ if -2 < 1 { emit 1; } if 2 <= 1 { emit 2; } if 1 > 1 { emit 3; } if 1 >= 1 { emit 4; } if 1 != 2 { emit 5; } if 3 == 3 { emit 6; } if 3 == 4 { emit 7; } }",
        11,
        0,
        "commit 1 done 1 4 5 6\n",
        OPENING,
    ),
    (
        "{ r0 = 3037000499 * 3037000499; r1 = 6 * -7; emit r0; emit r1; }",
        4,
        0,
        "commit 1 done 9223372030926249001 -42\n",
        OPENING,
    ),
    (
        "{ r0 = 6 * -7; emit r0; r1 = 1 / 0; }",
        3,
        0,
        "commit 1 fault zero\n",
        OPENING,
    ),
    (
        "{ loop 3 { r0 = r0 + 1; if r0 == 2 { r1 = a[r0]; a[0] = r1; } else { loop 2 { r2 = r2 + r0; } } } emit r1; emit r2; }",
        24,
        1,
        "commit 1 done 30 8\n",
        [30, 20, 30, 40, 5, 6],
    ),
    (
        "{ r0 = a[0]; r1 = 0 - r0; b[1] = r1; b[1] = 2; r2 = b[1]; r3 = r1 % 3; r4 = 7 % -3; emit r2; emit r3; emit r4; }",
        10,
        1,
        "commit 1 done 2 -1 1\n",
        [10, 20, 30, 40, 5, 2],
    ),
];

// Whether a program's run comes to what the case says.
fn comes_to(alloc: Global, names: &Names, case: &Case) -> Result<bool, Fail> {
    let (text, steps, reads, line, after) = case;
    let mut tables = opening(alloc)?;
    let blank = Blank::new(1);
    let Some((logged, said)) = ending::<Brand>(
        blank,
        alloc,
        names,
        text.as_bytes(),
        &mut tables,
        *steps,
    )?
    else {
        return Ok(false);
    };
    Ok(
        logged == *reads
            && said.as_slice() == line.as_bytes()
            && tables.row(0, tables.len()) == after.as_slice(),
    )
}

#[test]
fn programs_run_as_they_are_written(rt: HostRuntime) -> Result<(), Fail> {
    let alloc = rt.alloc();
    let names = two_tables(alloc)?;
    for case in &CASES {
        let right = comes_to(alloc, &names, case)?;
        assert!(rt; right, "in {}", case.0);
    }
    Ok(())
}

#[test]
fn places_are_counted_in_their_table(rt: HostRuntime) {
    let table = TableRef {
        number: 1,
        base: 4,
        size: 2,
    };
    assert_eq!(rt; item_at(table, 0), Ok(4));
    assert_eq!(rt; item_at(table, 1), Ok(5));
    assert_eq!(rt; item_at(table, 2), Err(FaultKind::Range));
    assert_eq!(rt; item_at(table, -1), Err(FaultKind::Range));
}

// Two loops, one in the other, around a read, a write and an emit: 37 steps.
const NESTED: &str =
    "{ loop 3 { r0 = r0 + 1; loop 2 { r1 = a[0]; r1 = r1 + r0; a[1] = r1; } emit r1; } }";

// Whether a copy that is taken after so many steps goes on as its source.
fn goes_on(alloc: Global, names: &Names, tables: &Table, at: u32) -> Result<bool, Fail> {
    let blank = Blank::new(1);
    copied::<Brand>(blank, alloc, names, NESTED.as_bytes(), tables, at, 37)
}

#[test]
fn a_copy_goes_on_as_its_source(rt: HostRuntime) -> Result<(), Fail> {
    let alloc = rt.alloc();
    let names = two_tables(alloc)?;
    let tables = opening(alloc)?;
    for at in 0..38u32 {
        let right = goes_on(alloc, &names, &tables, at)?;
        assert!(rt; right, "after {at} steps");
    }
    Ok(())
}

// An own read, a repeated read, a test and a fault are local; a first read and a write that succeeds are not.
const LOCAL: &str =
    "{ r0 = 1 + 1; a[1] = r0; r1 = a[1]; r2 = a[2]; r3 = a[2]; if r3 < 9 { } else { b[9] = 1; } }";

// Whether these many local steps are made each time, at most so many at once.
fn runs_locally(alloc: Global, most: u32, want: &[u32]) -> Result<bool, Fail> {
    let names = two_tables(alloc)?;
    let tables = opening(alloc)?;
    let blank = Blank::new(1);
    let made = local_runs::<Brand>(blank, alloc, &names, LOCAL.as_bytes(), &tables, most)?;
    Ok(made.as_slice() == want)
}

#[test]
fn local_steps_stop_before_reads_and_writes(rt: HostRuntime) -> Result<(), Fail> {
    let cases: [(u32, &[u32]); 4] = [
        (100, &[1, 1, 3]),
        (3, &[1, 1, 3]),
        (2, &[1, 1, 2, 0]),
        (0, &[0, 0, 0, 0, 0, 0, 0, 0]),
    ];
    for (most, want) in cases {
        let right = runs_locally(rt.alloc(), most, want)?;
        assert!(rt; right, "at most {most} at once");
    }
    Ok(())
}

// Whether a program is linked, and a code and a state get their room.
fn program_has_room(alloc: Global) -> Result<bool, Fail> {
    let names = two_tables(alloc)?;
    let program = read_program(alloc, &names, b"{ emit 1; }")?;
    let _code = link(alloc, &program)?;
    let _room = Code::room(alloc)?;
    Ok(State::room(alloc, 6)?.position() == 0)
}

// Whether tables, a log and writes get their room.
fn tables_have_room(alloc: Global) -> Result<bool, Fail> {
    let table = Table::new(alloc, 6)?.copy()?;
    let reads = ReadLog::with_room(alloc, 6)?;
    let writes = WriteSet::with_room(alloc, 6)?;
    Ok(table.len() == 6 && reads.len() == 0 && writes.len() == 0)
}

#[test]
fn calls_that_take_memory_answer(rt: HostRuntime) -> Result<(), Fail> {
    let alloc = rt.alloc();
    let one = program_has_room(alloc)?;
    assert!(rt; one);
    let other = tables_have_room(alloc)?;
    assert!(rt; other);
    Ok(())
}
