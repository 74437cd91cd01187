// Inputs that are to be audited, as they come and as one wouldn't send them. What is written of each stands beside it.
use crate::said::{ended, joined};
use scc_replies::Status;
use std::alloc::{AllocError, Global};
use std::test::Fail;

// A head; bytes that come so often behind it; what is behind those; and what is written.
type Row = (
    &'static [u8],
    &'static [u8],
    u32,
    &'static [u8],
    &'static [u8],
);

const NOTHING: &[u8] = b"";

const REPORT: &[u8] =
    b"table a 4\nbegin 10 { r0 = a[0]; emit r0; }\nbegin 20 { a[0] = 5; }\nreport\n";

const JOURNAL: &[u8] =
    b"table a 4\nbegin 10 { r0 = a[0]; emit r0; }\nbegin 20 { a[0] = 5; }\njournal\n";

const ROWS: [Row; 70] = [
    // a report
    (
        REPORT,
        b"",
        0,
        b"commit 2 done\ncommit 1 done 5\nfinal a 5 0 0 0\nend 2\n",
        b"yes 2\n",
    ),
    // the other order
    (
        REPORT,
        b"",
        0,
        b"commit 1 done 0\ncommit 2 done\nfinal a 5 0 0 0\nend 2\n",
        b"yes 2\n",
    ),
    // a wrong number emitted
    (
        REPORT,
        b"",
        0,
        b"commit 2 done\ncommit 1 done 0\nfinal a 5 0 0 0\nend 2\n",
        b"no 6\n",
    ),
    // a number twice
    (
        REPORT,
        b"",
        0,
        b"commit 2 done\ncommit 2 done\nfinal a 5 0 0 0\nend 2\n",
        b"no 6\n",
    ),
    // cut behind a commit
    (REPORT, b"", 0, b"commit 2 done\n", b"no 6\n"),
    // no end
    (
        REPORT,
        b"",
        0,
        b"commit 2 done\ncommit 1 done 5\nfinal a 5 0 0 0\n",
        b"no 8\n",
    ),
    // no newline at the end
    (
        REPORT,
        b"",
        0,
        b"commit 2 done\ncommit 1 done 5\nfinal a 5 0 0 0\nend 2",
        b"yes 2\n",
    ),
    // a commit too few at the end
    (
        REPORT,
        b"",
        0,
        b"commit 2 done\ncommit 1 done 5\nfinal a 5 0 0 0\nend 1\n",
        b"no 8\n",
    ),
    // nothing behind the head
    (REPORT, b"", 0, b"", b"no 5\n"),
    // a zero before a number
    (
        REPORT,
        b"",
        0,
        b"commit 2 done\ncommit 01 done 5\nfinal a 5 0 0 0\nend 2\n",
        b"no 6\n",
    ),
    // a number that is no program's
    (REPORT, b"", 0, b"commit 2 done\ncommit 3 done\n", b"no 6\n"),
    // the last values too early
    (
        REPORT,
        b"",
        0,
        b"commit 2 done\nfinal a 5 0 0 0\nend 2\n",
        b"no 6\n",
    ),
    // an empty line behind the end
    (
        REPORT,
        b"",
        0,
        b"commit 2 done\ncommit 1 done 5\nfinal a 5 0 0 0\nend 2\n\n",
        b"no 9\n",
    ),
    // the end twice
    (
        REPORT,
        b"",
        0,
        b"commit 2 done\ncommit 1 done 5\nfinal a 5 0 0 0\nend 2\nend 2\n",
        b"no 9\n",
    ),
    // an empty line between
    (
        REPORT,
        b"",
        0,
        b"commit 2 done\n\ncommit 1 done 5\nfinal a 5 0 0 0\nend 2\n",
        b"no 6\n",
    ),
    // a blank before
    (
        REPORT,
        b"",
        0,
        b"commit 2 done\n commit 1 done 5\nfinal a 5 0 0 0\nend 2\n",
        b"no 6\n",
    ),
    // a carriage return
    (
        REPORT,
        b"",
        0,
        b"commit 2 done\ncommit 1 done 5\r\nfinal a 5 0 0 0\nend 2\n",
        b"no 6\n",
    ),
    // a blank behind
    (
        REPORT,
        b"",
        0,
        b"commit 2 done\ncommit 1 done 5 \nfinal a 5 0 0 0\nend 2\n",
        b"no 6\n",
    ),
    // a number beyond all
    (
        REPORT,
        b"",
        0,
        b"commit 2 done\ncommit 18446744073709551617 done 5\nfinal a 5 0 0 0\nend 2\n",
        b"no 6\n",
    ),
    // a remark is no line of a report
    (
        REPORT,
        b"",
        0,
        b"commit 2 done\n#\ncommit 1 done 5\nfinal a 5 0 0 0\nend 2\n",
        b"no 6\n",
    ),
    // a line as long as one may be
    (REPORT, b"9", 32761, b"\n", b"no 5\n"),
    // a line too long
    (REPORT, b"9", 32762, b"\n", b"no 5\n"),
    // many empty lines
    (REPORT, b"\n", 40000, b"", b"no 5\n"),
    // a journal
    (
        JOURNAL,
        b"",
        0,
        b"entry,txn,deadline,detail\nbegan,1,10,{ r0 = a[0]; emit r0; }\ncommitted,1,,done 0\n",
        b"yes 1\n",
    ),
    // a mark of byte order in front
    (
        JOURNAL,
        b"",
        0,
        b"\xef\xbb\xbfentry,txn,deadline,detail\nbegan,1,10,{ r0 = a[0]; emit r0; }\ncommitted,1,,done 0\n",
        b"yes 1\n",
    ),
    // two of them
    (
        JOURNAL,
        b"",
        0,
        b"\xef\xbb\xbf\xef\xbb\xbfentry,txn,deadline,detail\nbegan,1,10,{ r0 = a[0]; emit r0; }\ncommitted,1,,done 0\n",
        b"no 1\n",
    ),
    // fields in quotes
    (
        JOURNAL,
        b"",
        0,
        b"\"entry\",txn,deadline,detail\n\"began\",\"1\",\"10\",\"{ r0 = a[0]; emit r0; }\"\ncommitted,1,,done 0\n",
        b"yes 1\n",
    ),
    // a quote that stays open
    (
        JOURNAL,
        b"",
        0,
        b"entry,txn,deadline,detail\nbegan,1,10,\"{ r0 = a[0]; emit r0; }",
        b"yes 0\n",
    ),
    // quotes in a field
    (
        JOURNAL,
        b"",
        0,
        b"entry,txn,deadline,detail\nbegan,1,10,{ r0 = a[0]; emit \"\"r0; }\n",
        b"no 2\n",
    ),
    // lone carriage returns
    (
        JOURNAL,
        b"",
        0,
        b"entry,txn,deadline,detail\rbegan,1,10,{ r0 = a[0]; emit r0; }\rcommitted,1,,done 0\r",
        b"yes 1\n",
    ),
    // carriage returns and newlines
    (
        JOURNAL,
        b"",
        0,
        b"entry,txn,deadline,detail\r\nbegan,1,10,{ r0 = a[0]; emit r0; }\r\ncommitted,1,,done 0\r\n",
        b"yes 1\n",
    ),
    // empty lines
    (
        JOURNAL,
        b"",
        0,
        b"entry,txn,deadline,detail\n\n\nbegan,1,10,{ r0 = a[0]; emit r0; }\n\ncommitted,1,,done 0\n",
        b"yes 1\n",
    ),
    // a number beyond all
    (
        JOURNAL,
        b"",
        0,
        b"entry,txn,deadline,detail\nbegan,18446744073709551617,10,{ }\n",
        b"no 2\n",
    ),
    // a zero before a number
    (
        JOURNAL,
        b"",
        0,
        b"entry,txn,deadline,detail\nbegan,01,10,{ }\n",
        b"no 2\n",
    ),
    // a deadline beyond all
    (
        JOURNAL,
        b"",
        0,
        b"entry,txn,deadline,detail\nbegan,1,1000000000001,{ }\n",
        b"no 2\n",
    ),
    // the last deadline
    (
        JOURNAL,
        b"",
        0,
        b"entry,txn,deadline,detail\nbegan,1,1000000000000,{ }\n",
        b"yes 0\n",
    ),
    // a zero before a deadline
    (
        JOURNAL,
        b"",
        0,
        b"entry,txn,deadline,detail\nbegan,1,010,{ }\n",
        b"no 2\n",
    ),
    // the second first
    (
        JOURNAL,
        b"",
        0,
        b"entry,txn,deadline,detail\nbegan,2,10,{ }\n",
        b"no 2\n",
    ),
    // a table that isn't there
    (
        JOURNAL,
        b"",
        0,
        b"entry,txn,deadline,detail\nbegan,1,10,{ b[0] = 1; }\n",
        b"no 2\n",
    ),
    // begun behind the seal
    (
        JOURNAL,
        b"",
        0,
        b"entry,txn,deadline,detail\nsealed,,,\nbegan,1,10,{ r0 = a[0]; emit r0; }\n",
        b"no 3\n",
    ),
    // withdrawn behind the seal
    (
        JOURNAL,
        b"",
        0,
        b"entry,txn,deadline,detail\nbegan,1,10,{ r0 = a[0]; emit r0; }\nsealed,,,\nwithdrawn,1,,\n",
        b"no 4\n",
    ),
    // sealed twice
    (
        JOURNAL,
        b"",
        0,
        b"entry,txn,deadline,detail\nbegan,1,10,{ r0 = a[0]; emit r0; }\nsealed,,,\nsealed,,,\n",
        b"no 4\n",
    ),
    // committed behind its withdrawal
    (
        JOURNAL,
        b"",
        0,
        b"entry,txn,deadline,detail\nbegan,1,10,{ r0 = a[0]; emit r0; }\nwithdrawn,1,,\ncommitted,1,,done 0\n",
        b"no 4\n",
    ),
    // committed twice
    (
        JOURNAL,
        b"",
        0,
        b"entry,txn,deadline,detail\nbegan,1,10,{ r0 = a[0]; emit r0; }\ncommitted,1,,done 0\ncommitted,1,,done 0\n",
        b"no 4\n",
    ),
    // another outcome
    (
        JOURNAL,
        b"",
        0,
        b"entry,txn,deadline,detail\nbegan,1,10,{ r0 = a[0]; emit r0; }\ncommitted,1,,done 1\n",
        b"no 3\n",
    ),
    // a field more
    (
        JOURNAL,
        b"",
        0,
        b"entry,txn,deadline,detail\nbegan,1,10,{ r0 = a[0]; emit r0; }\ncommitted,1,,done 0,\n",
        b"no 3\n",
    ),
    // a field less
    (
        JOURNAL,
        b"",
        0,
        b"entry,txn,deadline,detail\nbegan,1,10,{ r0 = a[0]; emit r0; }\ncommitted,1,\n",
        b"no 3\n",
    ),
    // a deadline of a commit
    (
        JOURNAL,
        b"",
        0,
        b"entry,txn,deadline,detail\nbegan,1,10,{ r0 = a[0]; emit r0; }\ncommitted,1,7,done 0\n",
        b"no 3\n",
    ),
    // a blank behind
    (
        JOURNAL,
        b"",
        0,
        b"entry,txn,deadline,detail\nbegan,1,10,{ r0 = a[0]; emit r0; }\ncommitted,1,,done 0 \n",
        b"no 3\n",
    ),
    // the heading alone
    (JOURNAL, b"", 0, b"entry,txn,deadline,detail\n", b"yes 0\n"),
    // no heading
    (JOURNAL, b"", 0, b"", b"no 1\n"),
    // rows without a heading
    (
        JOURNAL,
        b"",
        0,
        b"began,1,10,{ r0 = a[0]; emit r0; }\ncommitted,1,,done 0\n",
        b"no 1\n",
    ),
    // a heading with a field less
    (
        JOURNAL,
        b"",
        0,
        b"entry,txn,deadline\nbegan,1,10,{ r0 = a[0]; emit r0; }\n",
        b"no 1\n",
    ),
    // an entry of another name
    (
        JOURNAL,
        b"",
        0,
        b"entry,txn,deadline,detail\ndropped,1,,\n",
        b"no 2\n",
    ),
    // a row of a million fields
    (
        JOURNAL,
        b",",
        1000000,
        b"\nentry,txn,deadline,detail\n",
        b"no 1\n",
    ),
    // many empty lines in front
    (
        JOURNAL,
        b"\n",
        100000,
        b"entry,txn,deadline,detail\nbegan,1,10,{ r0 = a[0]; emit r0; }\ncommitted,1,,done 0\n",
        b"yes 1\n",
    ),
    // neither a report nor a journal
    (NOTHING, b"", 0, b"table a 4\n", b"bad 2 13\n"),
    // no line
    (NOTHING, b"", 0, b"", b"bad 1 13\n"),
    // the word without a newline
    (NOTHING, b"", 0, b"table a 4\nreport", b"no 3\n"),
    // no program
    (
        NOTHING,
        b"",
        0,
        b"table a 4\nreport\nfinal a 0 0 0 0\nend 0\n",
        b"yes 0\n",
    ),
    // a word too many
    (NOTHING, b"", 0, b"table a 4\nreport x\n", b"bad 2 13\n"),
    // the word twice
    (NOTHING, b"", 0, b"table a 4\nreport\nreport\n", b"no 3\n"),
    // the other word twice
    (NOTHING, b"", 0, b"table a 4\njournal\njournal\n", b"no 1\n"),
    // no table
    (NOTHING, b"", 0, b"report\nend 0\n", b"yes 0\n"),
    // a journal over no table
    (
        NOTHING,
        b"",
        0,
        b"journal\nentry,txn,deadline,detail\n",
        b"yes 0\n",
    ),
    // a put behind a begin
    (
        NOTHING,
        b"",
        0,
        b"table a 4\nbegin 5 { }\nput a 0 1\nreport\n",
        b"bad 3 21\n",
    ),
    // a line of another mode
    (NOTHING, b"", 0, b"table a 4\nrun 3\n", b"bad 2 12\n"),
    // a program that isn't one
    (
        NOTHING,
        b"",
        0,
        b"table a 4\nbegin 5 { b[0] = 1; }\nreport\n",
        b"bad 2 16\n",
    ),
    // blanks and remarks in a head
    (
        NOTHING,
        b"",
        0,
        b"# words\n\n table\ta 4 \r\nreport\nfinal a 0 0 0 0\nend 0\n",
        b"yes 0\n",
    ),
    // a line of a head that is too long
    (NOTHING, b"x", 8193, b"\nreport\n", b"bad 1 11\n"),
];

fn input_of(alloc: Global, row: &Row) -> Result<Vec<u8>, AllocError> {
    let (head, unit, times, back, _) = row;
    let mut input = joined(alloc, &[head])?;
    for _ in 0..*times {
        input.extend_from_slice(unit)?;
    }
    input.extend_from_slice(back)?;
    Ok(input)
}

// Whether the end fits what is written.
fn fits(written: &[u8], status: Status) -> bool {
    match status {
        Status::Done => written.starts_with(b"yes "),
        Status::AuditNo { .. } => written.starts_with(b"no "),
        Status::BadInput { .. } => written.starts_with(b"bad "),
        _ => false,
    }
}

#[test]
fn answers_are_as_stated(rt: HostRuntime) -> Result<(), Fail> {
    let alloc = rt.alloc();
    for row in &ROWS {
        let (written, status) = ended(alloc, &input_of(alloc, row)?)?;
        assert!(rt; written.as_slice() == row.4);
        assert!(rt; fits(&written, status));
    }
    Ok(())
}
