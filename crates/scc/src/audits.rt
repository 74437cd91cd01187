// Audits worked out by hand: what stands behind tables and programs, and what is said of it.
use crate::tests::{Case, ends_alike, ends_so, plain};
use scc_script::Status;
use std::alloc::AllocError;
use std::sync::Wait;
use std::test::Fail;
use std::thread::Threads;

// Whether an audit of this input ends so, with this written.
fn audited<R: Threads + Wait + Sync + AllocGlobal>(
    rt: &R,
    input: &[u8],
    status: Status,
    written: &[u8],
) -> Result<bool, AllocError> {
    let case = Case {
        status,
        ..plain(input, written)
    };
    ends_alike(rt, &["audit"], case)
}

// Three lines: a table, and two programs of which the first reads what the second writes.
const HEAD: &[u8] = b"table a 4\nbegin 10 { r0 = a[0]; emit r0; }\nbegin 20 { a[0] = 5; }\n";

// The same of an input that begins with them.
fn says<R: Threads + Wait + Sync + AllocGlobal>(
    rt: &R,
    behind: &[u8],
    status: Status,
    written: &[u8],
) -> Result<bool, AllocError> {
    let mut input = HEAD.to_vec(rt.alloc())?;
    input.extend_from_slice(behind)?;
    audited(rt, &input, status, written)
}

#[test]
fn a_report_is_right_or_a_line_is_wrong(rt: HostRuntime) -> Result<(), Fail> {
    let rows: [(&[u8], Status, &[u8]); 10] = [
        (
            b"report\ncommit 2 done\ncommit 1 done 5\nfinal a 5 0 0 0\nend 2\n",
            Status::Done,
            b"yes 2\n",
        ),
        // the other order, and a last line without its newline
        (
            b"report\ncommit 1 done 0\ncommit 2 done\nfinal a 5 0 0 0\nend 2",
            Status::Done,
            b"yes 2\n",
        ),
        (
            b"report\ncommit 2 done\ncommit 1 done 0\nfinal a 5 0 0 0\nend 2\n",
            Status::AuditNo { line: 6 },
            b"no 6\n",
        ),
        (
            b"report\ncommit 2 done\ncommit 2 done\ncommit 1 done 5\nfinal a 5 0 0 0\nend 2\n",
            Status::AuditNo { line: 6 },
            b"no 6\n",
        ),
        (
            b"report\ncommit 2 done\n",
            Status::AuditNo { line: 6 },
            b"no 6\n",
        ),
        (
            b"report\ncommit 2 done\nfinal a 5 0 0 0\nend 1\n",
            Status::AuditNo { line: 6 },
            b"no 6\n",
        ),
        (
            b"report\ncommit 02 done\ncommit 1 done 5\nfinal a 5 0 0 0\nend 2\n",
            Status::AuditNo { line: 5 },
            b"no 5\n",
        ),
        (
            b"report\ncommit 2 done\ncommit 1 done 5\nfinal a 5 0 0 1\nend 2\n",
            Status::AuditNo { line: 7 },
            b"no 7\n",
        ),
        // behind `report` no line is without meaning
        (
            b"# a\n\nreport\n\ncommit 2 done\n",
            Status::AuditNo { line: 7 },
            b"no 7\n",
        ),
        (
            b"report\ncommit 2 done\ncommit 1 done 5\nfinal a 5 0 0 0\nend 2\n\n",
            Status::AuditNo { line: 9 },
            b"no 9\n",
        ),
    ];
    for (behind, status, written) in rows {
        assert!(rt; says(&rt, behind, status, written)?);
    }
    Ok(())
}

#[test]
fn a_journal_is_right_or_a_row_is_wrong(rt: HostRuntime) -> Result<(), Fail> {
    let rows: [(&[u8], Status, &[u8]); 6] = [
        (
            b"journal\nentry,txn,deadline,detail\nbegan,1,10,{ r0 = a[0]; emit r0; }\nbegan,2,20,{ a[0] = 5; }\ncommitted,2,,done\ncommitted,1,,done 5\n",
            Status::Done,
            b"yes 2\n",
        ),
        (
            b"journal\nentry,txn,deadline,detail\nbegan,1,10,{ r0 = a[0]; emit r0; }\nbegan,2,20,{ a[0] = 5; }\ncommitted,2,,done\ncommitted,1,,done 4\n",
            Status::AuditNo { line: 5 },
            b"no 5\n",
        ),
        // other programs than those before it, and a front of a journal
        (
            b"journal\nentry,txn,deadline,detail\nbegan,1,5,{ a[3] = 7; }\ncommitted,1,,done\nbegan,2,5,{ }\n",
            Status::Done,
            b"yes 1\n",
        ),
        (
            b"journal\nentry,txn,deadline,detail",
            Status::Done,
            b"yes 0\n",
        ),
        (
            b"journal\nentry,txn,deadline\n",
            Status::AuditNo { line: 1 },
            b"no 1\n",
        ),
        (b"journal\n", Status::AuditNo { line: 1 }, b"no 1\n"),
    ];
    for (behind, status, written) in rows {
        assert!(rt; says(&rt, behind, status, written)?);
    }
    Ok(())
}

#[test]
fn an_audit_may_have_no_head(rt: HostRuntime) -> Result<(), Fail> {
    let refused: [(&[u8], u64, &[u8]); 8] = [
        (b"", 1, b"bad 1 13\n"),
        (b"table a 4\n", 2, b"bad 2 13\n"),
        (b"table a 4", 2, b"bad 2 13\n"),
        (b"report x\n", 1, b"bad 1 13\n"),
        (b"step 1\nreport\nend 0\n", 1, b"bad 1 12\n"),
        (b"# a\n\ntable a 0\nfrob\n", 3, b"bad 3 17\n"),
        (b"begin 1 { }\ntable a 1\nreport\n", 2, b"bad 2 21\n"),
        (b"begin 1 { r0 = a[0]; }\nreport\n", 1, b"bad 1 16\n"),
    ];
    for (input, line, written) in refused {
        assert!(rt; audited(&rt, input, Status::BadInput { line }, written)?);
    }
    // a head without programs
    let cut = Status::AuditNo { line: 3 };
    assert!(rt; audited(&rt, b"table a 4\nreport\n", cut, b"no 3\n")?);
    assert!(rt;
        audited(
            &rt,
            b"table a 4\n report \nfinal a 0 0 0 0\nend 0\n",
            Status::Done,
            b"yes 0\n"
        )?
    );
    Ok(())
}

#[test]
fn a_fault_ends_an_audit(rt: HostRuntime) -> Result<(), Fail> {
    let row = plain(
        b"table a 4\nbegin 1 { }\nreport\ncommit 1 done\nfinal a 0 0 0 0\nend 1\n",
        b"yes 1\n",
    );
    let read_fault = Case {
        status: Status::ReadFault,
        written: b"",
        ..row
    };
    let write_fault = Case {
        status: Status::WriteFault,
        ..row
    };
    let cases = [
        row,
        Case {
            source_fails: &[1],
            ..read_fault
        },
        // the head is read whole, and what follows isn't
        Case {
            most: 40,
            source_fails: &[2],
            ..read_fault
        },
        Case {
            sink_fails: &[1],
            written: b"",
            ..write_fault
        },
        Case {
            most: 3,
            sink_fails: &[2],
            written: b"yes",
            ..write_fault
        },
    ];
    for case in cases {
        assert!(rt; ends_so(&rt, &["audit"], case)?);
    }
    Ok(())
}
