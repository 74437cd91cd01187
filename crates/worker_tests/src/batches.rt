// Batches over memory: what is read, what is written, and how each ends.
ghost use Rattle.std.specs.Prelude.{◌≡◌, ◌≤◌, ◌<◌};
ghost use denote.Param.Send.{IsSync};
ghost use Rattle.worker_tests.specs.Shape.{IsShape};

use crate::meeting::Meeting;
use crate::workers::watch;
use scc_batch::batch;
use scc_gen::put_gen;
use scc_ports::{Gate, MemSink, MemSource, OpenGate};
use scc_replies::Status;
use scc_text::put_count;
use std::alloc::{AllocError, Global};
use std::marker::Brand;
use std::process::Abort;
use std::rt::Clock;
use std::sync::Wait;
use std::sync::atomic::{AtomicBool, Ordering};
use std::sync::ledger::{Blank, Ledger};
use std::test::Fail;
use std::thread;
use std::thread::Threads;
use step_count::Steps;

// How many shadows a transaction may have, how many lanes and how many workers there are.
#[derive(Clone, Copy)]
struct Shape {
    k: u32,
    lanes: u32,
    workers: u32,
}

// What a source gives and which calls fail.
#[derive(Clone, Copy)]
struct Given<'a> {
    input: &'a [u8],
    source_fails: &'a [u32],
    sink_fails: &'a [u32],
}

fn counted_batch<R: Threads + Wait + Sync, G: Gate + Sync, L: Ledger>(
    rt: &R,
    blank: Blank,
    alloc: Global,
    shape: Shape,
    source: &mut MemSource,
    sink: &mut MemSink,
    gate: &G,
) -> Status
    requires name { (blank.name ≡ L.name) × (blank.parts ≡ L.parts) × (0 < blank.parts) }
    requires limits { IsShape shape.k shape.lanes shape.workers }
{
    let Shape { k, lanes, workers } = shape;
    let mut steps: Steps<L> = Steps::new(blank);
    batch(rt, alloc, k, lanes, workers, source, sink, gate, &mut steps)
}

// How a batch ends, and what it writes.
fn ran<R: Threads + Wait + Sync, G: Gate + Sync>(
    rt: &R,
    alloc: Global,
    shape: Shape,
    given: &Given<'_>,
    gate: &G,
) -> Result<(Status, Vec<u8>), AllocError>
    requires { IsShape shape.k shape.lanes shape.workers }
{
    let mut source = MemSource::new(
        given.input.to_vec(alloc)?,
        1000,
        given.source_fails.to_vec(alloc)?,
    );
    let mut sink = MemSink::with_room(alloc, 100_000, 1000, given.sink_fails.to_vec(alloc)?)?;
    let blank = Blank::new(1);
    let status = counted_batch::<R, G, Brand>(
        rt,
        blank,
        alloc,
        shape,
        &mut source,
        &mut sink,
        gate,
    );
    Ok((status, sink.into_bytes()))
}

// The same; the test fails where it takes too long.
fn watched<R: Threads + Wait + Clock + Abort + Sync, G: Gate + Sync>(
    rt: &R,
    alloc: Global,
    shape: Shape,
    given: &Given<'_>,
    gate: &G,
) -> Result<(Status, Vec<u8>), AllocError>
    requires { IsShape shape.k shape.lanes shape.workers }
{
    let done = AtomicBool::new(false);
    let (answer, ()) = thread::join(
        rt,
        || -> Result<(Status, Vec<u8>), AllocError>
            requires { IsSync R.row × IsSync G.row × IsShape shape.k shape.lanes shape.workers }
        {
            let answer = ran(rt, alloc, shape, given, gate);
            done.store(true, Ordering::SeqCst);
            answer
        },
        || watch(rt, &done),
    );
    answer
}

// Whether a batch of these bytes ends so, with this written.
fn ends_so<R: Threads + Wait + Sync>(
    rt: &R,
    alloc: Global,
    given: &Given<'_>,
    status: Status,
    written: &[u8],
) -> Result<bool, AllocError> {
    let shape = Shape {
        k: 2,
        lanes: 2,
        workers: 1,
    };
    let (ended, text) = ran(rt, alloc, shape, given, &OpenGate)?;
    Ok(ended == status && text.as_slice() == written)
}

fn all_of(input: &[u8]) -> Given<'_> {
    Given {
        input,
        source_fails: &[],
        sink_fails: &[],
    }
}

#[test]
fn a_batch_is_reported(rt: HostRuntime) -> Result<(), Fail> {
    let rows: [(&[u8], &[u8]); 5] = [
        (
            b"table a 2\nbegin 1 { a[1] = 3; emit 3; }\n",
            b"commit 1 done 3\nfinal a 0 3\nend 1\n",
        ),
        (b"", b"end 0\n"),
        (
            b"# no program\n\ntable a 1\nput a 0 -7",
            b"final a -7\nend 0\n",
        ),
        (
            b"table a 1\nbegin 2 { a[0] = 1; fail 6; }\nbegin 3 { emit 1; r0 = 1 / 0; }\nbegin 4 { }",
            b"commit 1 failed 6\ncommit 2 fault zero\ncommit 3 done\nfinal a 0\nend 3\n",
        ),
        (
            b"table a 1\ntable b 2\nput b 1 5\nbegin 1 { r0 = b[1]; a[0] = r0; emit r0; emit -1; }\n",
            b"commit 1 done 5 -1\nfinal a 5\nfinal b 0 5\nend 1\n",
        ),
    ];
    for (input, written) in rows {
        assert!(rt; ends_so(&rt, rt.alloc(), &all_of(input), Status::Done, written)?);
    }
    Ok(())
}

#[test]
fn the_first_refused_line_is_told(rt: HostRuntime) -> Result<(), Fail> {
    let rows: [(&[u8], u64, &[u8]); 22] = [
        (
            b"table a 2\nstep 1\nbegin 1 { a[1] = 3; emit 3; }\n",
            2,
            b"bad 2 12\n",
        ),
        (b"run\n", 1, b"bad 1 12\n"),
        (b"report\n", 1, b"bad 1 12\n"),
        (b"seal", 1, b"bad 1 12\n"),
        (b"table a\n", 1, b"bad 1 13\n"),
        (b"# a\n\nbegin x { }\n", 3, b"bad 3 13\n"),
        (b"begin 1 { emit 1 }\n", 1, b"bad 1 14\n"),
        (b"begin 1\n", 1, b"bad 1 14\n"),
        (b"begin 1 { loop 1001 { } }\n", 1, b"bad 1 15\n"),
        (b"begin 1 { r0 = b[0]; }\n", 1, b"bad 1 16\n"),
        (b"table a 0\n", 1, b"bad 1 17\n"),
        (b"begin 1000000000001 { }\n", 1, b"bad 1 17\n"),
        (b"table r1 4\n", 1, b"bad 1 18\n"),
        (b"table a 1\ntable a 2\n", 2, b"bad 2 19\n"),
        (b"table a 1024\ntable b 1\n", 2, b"bad 2 20\n"),
        (b"table a 1\nbegin 1 { }\ntable b 1\n", 3, b"bad 3 21\n"),
        (b"table a 1\nbegin 1 { }\nput a 0 1\n", 3, b"bad 3 21\n"),
        (b"begin 1 { }\nput b 0 1\n", 2, b"bad 2 21\n"),
        (b"put b 0 1\n", 1, b"bad 1 22\n"),
        (b"table a 4\nput a 4 1\n", 2, b"bad 2 31\n"),
        // of two the first, whatever its number
        (b"table a 4\nput a 4 1\nfrob\n", 2, b"bad 2 31\n"),
        (b"begin 1 { }\nbegin 1 { }\nfrob", 3, b"bad 3 12\n"),
    ];
    for (input, line, written) in rows {
        assert!(rt;
            ends_so(
                &rt,
                rt.alloc(),
                &all_of(input),
                Status::BadInput { line },
                written
            )?
        );
    }
    Ok(())
}

// So many lines.
fn lines(alloc: Global, line: &[u8], count: u32) -> Result<Vec<u8>, AllocError> {
    let mut input = Vec::new(alloc);
    for _ in 0..count {
        input.extend_from_slice(line)?;
    }
    Ok(input)
}

#[test]
fn limits_of_a_batch(rt: HostRuntime) -> Result<(), Fail> {
    let alloc = rt.alloc();
    let many = lines(alloc, b"begin 1 { }\n", 20_001)?;
    let bad = Status::BadInput { line: 20_001 };
    assert!(rt; ends_so(&rt, alloc, &all_of(&many), bad, b"bad 20001 23\n")?);
    let mut long = b"table a 4".to_vec(alloc)?;
    long.resize(8193, b' ')?;
    let bad = Status::BadInput { line: 1 };
    assert!(rt; ends_so(&rt, alloc, &all_of(&long), bad, b"bad 1 11\n")?);
    long.truncate(8192);
    assert!(rt;
        ends_so(
            &rt,
            alloc,
            &all_of(&long),
            Status::Done,
            b"final a 0 0 0 0\nend 0\n"
        )?
    );
    Ok(())
}

#[test]
fn a_fault_ends_a_batch(rt: HostRuntime) -> Result<(), Fail> {
    let input: &[u8] = b"table a 2\nbegin 1 { a[1] = 3; emit 3; }\n";
    let alloc = rt.alloc();
    let read = Given {
        source_fails: &[1],
        ..all_of(input)
    };
    assert!(rt; ends_so(&rt, alloc, &read, Status::ReadFault, b"")?);
    let late = Given {
        source_fails: &[2],
        ..all_of(input)
    };
    assert!(rt; ends_so(&rt, alloc, &late, Status::ReadFault, b"")?);
    let write = Given {
        sink_fails: &[1],
        ..all_of(input)
    };
    assert!(rt; ends_so(&rt, alloc, &write, Status::WriteFault, b"")?);
    let bad = Given {
        sink_fails: &[1],
        ..all_of(b"frob\n")
    };
    assert!(rt; ends_so(&rt, alloc, &bad, Status::WriteFault, b"")?);
    Ok(())
}

// How often these bytes stand in a text.
fn occurrences(text: &[u8], bytes: &[u8]) -> u32 {
    let mut count = 0u32;
    for at in 0..text.len() {
        if text[at..].starts_with(bytes) {
            count = count.saturating_add(1);
        }
    }
    count
}

// Whether a report has the line of each of so many commits once, where each gives out a number, and their number at its end.
fn names_each_once(alloc: Global, report: &[u8], count: u64) -> Result<bool, AllocError> {
    for earlier in 0..count {
        let mut line = b"commit ".to_vec(alloc)?;
        put_count(&mut line, earlier + 1)?;
        line.extend_from_slice(b" done ")?;
        if occurrences(report, &line) != 1 {
            return Ok(false);
        }
    }
    let mut end = b"\nend ".to_vec(alloc)?;
    put_count(&mut end, count)?;
    end.push(b'\n')?;
    Ok(report.ends_with(&end) && u64::from(occurrences(report, b"commit ")) == count)
}

#[test]
fn each_program_is_committed_once(rt: HostRuntime) -> Result<(), Fail> {
    let alloc = rt.alloc();
    let mut input = Vec::new(alloc);
    put_gen(7, 40, &mut input)?;
    for workers in [1, 4] {
        let shape = Shape {
            k: 2,
            lanes: 8,
            workers,
        };
        let (status, report) = watched(&rt, alloc, shape, &all_of(&input), &OpenGate)?;
        assert!(rt; status == Status::Done);
        assert!(rt; names_each_once(alloc, &report, 40)?);
    }
    Ok(())
}

#[test]
fn two_workers_of_a_batch_hold_jobs_at_once(rt: HostRuntime) -> Result<(), Fail> {
    let alloc = rt.alloc();
    let input = lines(alloc, b"begin 1 { loop 10 { r0 = r0 + 1; } emit r0; }\n", 2)?;
    let gate = Meeting::new();
    let shape = Shape {
        k: 1,
        lanes: 2,
        workers: 2,
    };
    let (status, _report) = watched(&rt, alloc, shape, &all_of(&input), &gate)?;
    assert!(rt; status == Status::Done);
    assert!(rt; gate.have_met());
    Ok(())
}
