// Runs over memory: what was written, and how each ended.
use crate::top::top_uncounted;
use scc_ports::{Failed, MemSink, MemSource, OpenGate, Source};
use scc_script::Status;
use scc_text::put_count;
use std::alloc::{AllocError, Global};
use std::marker::Brand;
use std::sync::Wait;
use std::sync::ledger::Blank;
use std::test::Fail;
use std::thread::Threads;

const ROW_1: &[u8] =
    b"table a 4\nbegin 10 { r0 = a[0]; r0 = r0 + 5; a[0] = r0; emit r0; }\nrun\ncommit 1\ndump a\n";

const REPLY_1: &[u8] =
    b"table a 4\nbegin 1 started\nrun 4\ncommit 1 done 5\na 5 0 0 0\nfinal a 5 0 0 0\nend 1\n";

// A run: its input, how many bytes a call moves, which calls fail, and what must come of it.
#[derive(Clone, Copy)]
pub struct Case<'a> {
    pub input: &'a [u8],
    pub most: usize,
    pub source_fails: &'a [u32],
    pub sink_fails: &'a [u32],
    pub status: Status,
    pub written: &'a [u8],
}

// A run that no call of the source or the sink disturbs.
pub fn plain<'a>(input: &'a [u8], written: &'a [u8]) -> Case<'a> {
    Case {
        input,
        most: 1000,
        source_fails: &[],
        sink_fails: &[],
        status: Status::Done,
        written,
    }
}

fn words_of(alloc: Global, words: &[&str]) -> Result<Vec<String>, AllocError> {
    let mut given = Vec::new(alloc);
    for word in words {
        given.push(String::from_str(alloc, word)?)?;
    }
    Ok(given)
}

// How the words end over this source and sink.
fn status_over<R: Threads + Wait + Sync + AllocGlobal, S: Source>(
    rt: &R,
    words: &[&str],
    source: &mut S,
    sink: &mut MemSink,
) -> Result<Status, AllocError> {
    let alloc = rt.alloc();
    let words = words_of(alloc, words)?;
    Ok(top_uncounted::<Brand, _, _, _, _>(
        Blank::new(1),
        rt,
        alloc,
        &words,
        source,
        sink,
        &OpenGate,
    ))
}

// Whether the words and the case's input end as the case says, with what it says written.
pub fn ends_so<R: Threads + Wait + Sync + AllocGlobal>(
    rt: &R,
    words: &[&str],
    case: Case<'_>,
) -> Result<bool, AllocError> {
    let alloc = rt.alloc();
    let most = case.most.max(1);
    let mut source = MemSource::new(
        case.input.to_vec(alloc)?,
        most,
        case.source_fails.to_vec(alloc)?,
    );
    let mut sink = MemSink::with_room(alloc, 100_000, most, case.sink_fails.to_vec(alloc)?)?;
    let status = status_over(rt, words, &mut source, &mut sink)?;
    Ok(status == case.status && sink.into_bytes().as_slice() == case.written)
}

const SCRIPT: [&str; 3] = ["script", "1", "1"];

// Whether they end so in large pieces, and byte by byte.
pub fn ends_alike<R: Threads + Wait + Sync + AllocGlobal>(
    rt: &R,
    words: &[&str],
    case: Case<'_>,
) -> Result<bool, AllocError> {
    let whole = ends_so(rt, words, case)?;
    let bytewise = ends_so(rt, words, Case { most: 1, ..case })?;
    Ok(whole && bytewise)
}

// The words and the input give this output, in pieces of any size.
pub fn gives<R: Threads + Wait + Sync + AllocGlobal>(
    rt: &R,
    words: &[&str],
    input: &[u8],
    written: &[u8],
) -> Result<bool, AllocError> {
    ends_alike(rt, words, plain(input, written))
}

#[test]
fn a_fault_ends_a_run(rt: HostRuntime) -> Result<(), Fail> {
    let row = plain(ROW_1, REPLY_1);
    let cases = [
        Case {
            source_fails: &[1],
            status: Status::ReadFault,
            written: b"",
            ..row
        },
        Case {
            most: 20,
            source_fails: &[2],
            status: Status::ReadFault,
            written: b"table a 4\n",
            ..row
        },
        Case {
            sink_fails: &[1],
            status: Status::WriteFault,
            written: b"",
            ..row
        },
        Case {
            sink_fails: &[2],
            status: Status::WriteFault,
            written: b"table a 4\n",
            ..row
        },
        Case {
            most: 3,
            sink_fails: &[2],
            status: Status::WriteFault,
            written: b"tab",
            ..row
        },
    ];
    for case in cases {
        assert!(rt; ends_so(&rt, &SCRIPT, case)?);
    }
    Ok(())
}

#[test]
fn a_reply_is_one_piece(rt: HostRuntime) -> Result<(), Fail> {
    // A line without an answer makes no call, and all lines that answer one line are one piece.
    let row = plain(
        b"# a\n\nbegin 2 { }\nbegin 1 { }\ndrain\n",
        b"begin 1 started\nbegin 2 waiting\ncommit 1 done\nstart 2\ncommit 2 done\ndrain 2\nend 2\n",
    );
    let stopped = Case {
        status: Status::WriteFault,
        ..row
    };
    let cases = [
        Case {
            sink_fails: &[1],
            written: b"",
            ..stopped
        },
        Case {
            sink_fails: &[3],
            written: b"begin 1 started\nbegin 2 waiting\n",
            ..stopped
        },
        Case {
            sink_fails: &[4],
            written: b"begin 1 started\nbegin 2 waiting\ncommit 1 done\nstart 2\ncommit 2 done\ndrain 2\n",
            ..stopped
        },
        Case {
            sink_fails: &[5],
            ..row
        },
    ];
    for case in cases {
        assert!(rt; ends_so(&rt, &SCRIPT, case)?);
    }
    Ok(())
}

// Appends the values of so many items that are 0.
pub fn put_zeros(out: &mut Vec<u8>, items: u32) -> Result<(), AllocError> {
    for _ in 0..items {
        out.extend_from_slice(b" 0")?;
    }
    Ok(())
}

// What is read and what is written where a shadow with a thousand written items is shown.
fn long_show(alloc: Global) -> Result<(Vec<u8>, Vec<u8>), AllocError> {
    let input =
        b"table abcdefghijklmnop 1024\nbegin 1 { loop 1000 { abcdefghijklmnop[r0] = -9223372036854775808; r0 = r0 + 1; } fail 1; }\nrun\nshow 1\n";
    let mut written =
        b"table abcdefghijklmnop 1024\nbegin 1 started\nrun 3002\nshadow 1 o at 3002 ended r0=1000".to_vec(
            alloc,
        )?;
    for item in 0..1000u64 {
        written.extend_from_slice(b" abcdefghijklmnop[")?;
        put_count(&mut written, item)?;
        written.extend_from_slice(b"]=-9223372036854775808")?;
    }
    written.extend_from_slice(b"\nfinal abcdefghijklmnop")?;
    put_zeros(&mut written, 1024)?;
    written.extend_from_slice(b"\nend 0\n")?;
    Ok((input.to_vec(alloc)?, written))
}

#[test]
fn a_shown_line_may_be_long(rt: HostRuntime) -> Result<(), Fail> {
    let (input, written) = long_show(rt.alloc())?;
    assert!(rt; written.len() > 40_000);
    assert!(rt; gives(&rt, &SCRIPT, &input, &written)?);
    Ok(())
}

// Appends a line: a text, a number, and a text.
fn put_told(out: &mut Vec<u8>, front: &[u8], number: u64, back: &[u8]) -> Result<(), AllocError> {
    out.extend_from_slice(front)?;
    put_count(out, number)?;
    out.extend_from_slice(back)
}

// What is read and what is written where 63 transactions have read what the 64th writes and commits.
fn many_taken_back(alloc: Global) -> Result<(Vec<u8>, Vec<u8>), AllocError> {
    let mut input = b"table a 1\n".to_vec(alloc)?;
    let mut written = b"table a 1\n".to_vec(alloc)?;
    for txn in 1..65u64 {
        let program: &[u8] = if txn < 64 {
            b"begin 2 { r0 = a[0]; emit r0; }\n"
        } else {
            b"begin 1 { a[0] = 5; }\n"
        };
        input.extend_from_slice(program)?;
        put_told(&mut written, b"begin ", txn, b" started\n")?;
    }
    for txn in 1..65u64 {
        put_told(&mut input, b"step ", txn, b"\n")?;
        put_told(&mut written, b"step ", txn, b" o at 1\n")?;
    }
    input.extend_from_slice(b"commit 64\n")?;
    written.extend_from_slice(b"commit 64 done\n")?;
    for txn in 1..64u64 {
        put_told(&mut written, b"resume ", txn, b" 0\n")?;
    }
    written.extend_from_slice(b"final a 5\nend 1\n")?;
    Ok((input, written))
}

#[test]
fn a_commit_takes_63_back(rt: HostRuntime) -> Result<(), Fail> {
    let (input, written) = many_taken_back(rt.alloc())?;
    assert!(rt; gives(&rt, &["script", "8", "64"], &input, &written)?);
    Ok(())
}

// The bytes before those without an end.
const FRONT: &[u8] = b"dump a\n";

// These bytes one by one, and then zero bytes without an end.
#[derive(Drop)]
struct Endless {
    given: usize,
}

impl Source for Endless {
    ghost use Rattle.std.specs.Prelude.{None};

    ghost left = { λ _. None };

    ghost faults = { λ _. 0 };

    fn read(&mut self, into: &mut [u8]) -> Result<usize, Failed> {
        if self.given < FRONT.len() {
            into[0] = FRONT[self.given];
            self.given += 1;
            return Ok(1);
        }
        into.fill(0);
        Ok(into.len())
    }
}

#[test]
fn the_limit_ends_a_run_behind_the_whole_lines(rt: HostRuntime) -> Result<(), Fail> {
    let alloc = rt.alloc();
    let mut source = Endless { given: 0 };
    let mut sink = MemSink::with_room(alloc, 1_000, 1_000, Vec::new(alloc))?;
    let status = status_over(&rt, &SCRIPT, &mut source, &mut sink)?;
    assert!(rt; status == Status::InputLimit);
    assert_eq!(rt; sink.into_bytes().as_slice(), b"refuse 22\n".as_slice());
    Ok(())
}

// A line of so many bytes: some text, and blanks.
fn long_line(alloc: Global, text: &[u8], bytes: usize) -> Result<Vec<u8>, AllocError> {
    let mut line = text.to_vec(alloc)?;
    line.resize(bytes, b' ')?;
    Ok(line)
}

#[test]
fn a_line_has_at_most_8192_bytes(rt: HostRuntime) -> Result<(), Fail> {
    let alloc = rt.alloc();
    let whole = b"table a 4\nfinal a 0 0 0 0\nend 0\n";
    let refused = b"refuse 11\nend 0\n";
    assert!(rt; gives(&rt, &SCRIPT, &long_line(alloc, b"table a 4", 8192)?, whole)?);
    assert!(rt;
        gives(
            &rt,
            &SCRIPT,
            &long_line(alloc, b"table a 4", 8193)?,
            refused
        )?
    );
    assert!(rt; gives(&rt, &SCRIPT, &long_line(alloc, b"# table", 8193)?, refused)?);
    assert!(rt;
        gives(
            &rt,
            &SCRIPT,
            &long_line(alloc, b"# table", 8192)?,
            b"end 0\n"
        )?
    );
    Ok(())
}

// The generator's text for the seed 7 and two programs.
const GENERATED: &[u8] =
    b"table acct 64\nbegin 61 { r0 = acct[23]; r1 = r0 - 6; acct[23] = r1; r2 = acct[7]; r3 = r2 + 6; acct[7] = r3; loop 1 { r4 = r4 + 1; } emit 6; }\nbegin 607 { r0 = acct[14]; r1 = r0 - 7; acct[14] = r1; r2 = acct[62]; r3 = r2 + 7; acct[62] = r3; loop 2 { r4 = r4 + 1; } emit 7; }\n";

#[test]
fn the_generator_reads_nothing(rt: HostRuntime) -> Result<(), Fail> {
    // The text is one piece, and no call of the source is made that could fail.
    let row = Case {
        source_fails: &[1],
        ..plain(b"dump a\n", GENERATED)
    };
    let stopped = Case {
        status: Status::WriteFault,
        ..row
    };
    let cases = [
        row,
        Case { most: 1, ..row },
        Case {
            sink_fails: &[2],
            ..row
        },
        Case {
            sink_fails: &[1],
            written: b"",
            ..stopped
        },
        Case {
            most: 13,
            sink_fails: &[2],
            written: b"table acct 64",
            ..stopped
        },
    ];
    for case in cases {
        assert!(rt; ends_so(&rt, &["gen", "7", "2"], case)?);
    }
    Ok(())
}

#[test]
fn a_batch_ends_by_its_report_or_by_a_refused_line(rt: HostRuntime) -> Result<(), Fail> {
    let row = plain(
        b"table a 2\nbegin 1 { a[1] = 3; emit 3; }\n",
        b"commit 1 done 3\nfinal a 0 3\nend 1\n",
    );
    assert!(rt; ends_so(&rt, &["batch", "2", "2", "1"], row)?);
    assert!(rt; ends_so(&rt, &["batch", "8", "64", "16"], row)?);
    let refused = Case {
        input: b"table a 2\nstep 1\nbegin 1 { a[1] = 3; emit 3; }\n",
        status: Status::BadInput { line: 2 },
        written: b"bad 2 12\n",
        ..row
    };
    assert!(rt; ends_so(&rt, &["batch", "2", "2", "1"], refused)?);
    Ok(())
}

#[test]
fn words_name_a_mode(rt: HostRuntime) -> Result<(), Fail> {
    let good = plain(ROW_1, REPLY_1);
    let bad = Case {
        status: Status::BadWords,
        written: b"",
        ..good
    };
    for mode in [
        ["script", "0000000001", "1"],
        ["script", "8", "64"],
        ["script", "0000000008", "0000000064"],
    ] {
        assert!(rt; ends_so(&rt, &mode, good)?);
    }
    let words: [[&str; 3]; 13] = [
        ["script", "9", "1"],
        ["script", "0", "1"],
        ["script", "1", "0"],
        ["script", "1", "65"],
        ["script", "1", ""],
        ["script", "+1", "1"],
        ["script", "1", "00000000001"],
        ["Script", "1", "1"],
        ["batch", "1", "1"],
        ["gen", "65537", "1"],
        ["gen", "1", "0"],
        ["gen", "1", "20001"],
        ["gen", "-1", "1"],
    ];
    for mode in words {
        assert!(rt; ends_so(&rt, &mode, bad)?);
    }
    assert!(rt; ends_so(&rt, &["script", "1"], bad)?);
    for mode in [
        ["batch", "9", "1", "1"],
        ["batch", "1", "65", "1"],
        ["batch", "1", "1", "0"],
        ["batch", "1", "1", "17"],
        ["script", "1", "1", "1"],
    ] {
        assert!(rt; ends_so(&rt, &mode, bad)?);
    }
    assert!(rt; ends_so(&rt, &["audit", "1"], bad)?);
    assert!(rt; ends_so(&rt, &["Audit"], bad)?);
    assert!(rt; ends_so(&rt, &[], bad)?);
    Ok(())
}
