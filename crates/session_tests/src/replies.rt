use crate::served::{Given, is_said, said, with_help};
use line_server::SessionEnd;
use std::test::Fail;

#[test]
fn sessions_are_answered(rt: HostRuntime) -> Result<(), Fail> {
    let rows: [(u32, &[u8], &[u8], SessionEnd); 12] = [
        (0, b"", b"", SessionEnd::End),
        (0, b"\n  \n# result 1\n\t\n#", b"", SessionEnd::End),
        (0, b"quit\nresult 1\n", b"bye\n", SessionEnd::Quit),
        (0, b"\nquit", b"bye\n", SessionEnd::Quit),
        (
            0,
            b"begin 1 { }\n\nbegin 2 { emit 1; }\nresult 2\nresult 3",
            b"begin 1\nbegin 2\npending 2\nunknown 3\n",
            SessionEnd::End,
        ),
        (
            0,
            b"begin 5 { emit 3; }\nwithdraw 1\nresult 1\nwithdraw 1\nbegin 5 { }\n",
            b"begin 1\nwithdraw 1\nwithdrawn 1\nrefuse 25\nbegin 2\n",
            SessionEnd::End,
        ),
        (
            256,
            b"begin 5 { a[2] = -7; emit 3; emit -1; }\nresult 1\ntable a\nwithdraw 1\nquit\n",
            b"begin 1\ncommit 1 done 3 -1\na 0 0 -7 0\nrefuse 25\nbye\n",
            SessionEnd::Quit,
        ),
        (
            256,
            b"begin 5 { a[0] = 1; fail 6; }\nresult 1\nbegin 5 { r0 = 1 / 0; }\nresult 2\ntable a\n",
            b"begin 1\ncommit 1 failed 6\nbegin 2\ncommit 2 fault zero\na 0 0 0 0\n",
            SessionEnd::End,
        ),
        (
            256,
            b"begin 5 { r0 = a[3]; r0 = r0 + 1; a[3] = r0; }\nbegin 5 { r0 = a[3]; r0 = r0 + 1; a[3] = r0; }\nresult 2\ntable a\n",
            b"begin 1\nbegin 2\ncommit 2 done\na 0 0 0 2\n",
            SessionEnd::End,
        ),
        (
            256,
            b"result 1\nbegin 5 { }\nresult 1\nresult 0\n",
            b"unknown 1\nbegin 1\ncommit 1 done\nunknown 0\n",
            SessionEnd::End,
        ),
        (
            0,
            b"result 4294967295\nwithdraw 4294967295\n",
            b"unknown 4294967295\nrefuse 25\n",
            SessionEnd::End,
        ),
        (
            0,
            b"begin 1 { }\nbegin 1 { }\nbegin 1 { }\nwithdraw 2\nresult 3\nresult 2\n",
            b"begin 1\nbegin 2\nbegin 3\nwithdraw 2\npending 3\nwithdrawn 2\n",
            SessionEnd::End,
        ),
    ];
    for (help, input, written, end) in rows {
        let said = said(&rt, rt.alloc(), false, &with_help(help, input))?;
        assert!(rt; is_said(&said, written, end));
    }
    Ok(())
}

#[test]
fn refused_lines_are_told(rt: HostRuntime) -> Result<(), Fail> {
    let rows: [(&[u8], &[u8]); 19] = [
        (b"frob", b"refuse 12\n"),
        (b"run", b"refuse 12\n"),
        (b"put a 0 1", b"refuse 12\n"),
        (b"report", b"refuse 12\n"),
        (b"table a 4", b"refuse 13\n"),
        (b"table", b"refuse 13\n"),
        (b"result", b"refuse 13\n"),
        (b"result x", b"refuse 13\n"),
        (b"quit 1", b"refuse 13\n"),
        (b"begin x { }", b"refuse 13\n"),
        (b"begin 1", b"refuse 14 0\n"),
        (b"begin 1 { emit 1 }", b"refuse 14 9\n"),
        (b"begin 1 { r0 = b[0]; }", b"refuse 16 7\n"),
        (b"begin 1 { loop 1001 { } }", b"refuse 15 loops\n"),
        (b"begin 1000000000001 { }", b"refuse 17\n"),
        (b"result 4294967296", b"refuse 17\n"),
        (b"table b", b"refuse 22\n"),
        (b"withdraw 1", b"refuse 25\n"),
        (b"withdraw 0", b"refuse 25\n"),
    ];
    for (input, written) in rows {
        let said = said(&rt, rt.alloc(), false, &with_help(0, input))?;
        assert!(rt; is_said(&said, written, SessionEnd::End));
    }
    Ok(())
}

#[test]
fn nothing_begins_in_a_sealed_forest(rt: HostRuntime) -> Result<(), Fail> {
    let given = with_help(2, b"begin 1 { }\nresult 1\nwithdraw 1\ntable a\nquit\n");
    let said = said(&rt, rt.alloc(), true, &given)?;
    assert!(rt;
        is_said(
            &said,
            b"refuse 24\nunknown 1\nrefuse 25\na 0 0 0 0\nbye\n",
            SessionEnd::Quit
        )
    );
    Ok(())
}

#[test]
fn a_line_of_too_many_bytes_is_refused(rt: HostRuntime) -> Result<(), Fail> {
    let alloc = rt.alloc();
    // a comment, which is blank where it isn't too long
    let mut input = b"#".to_vec(alloc)?;
    input.resize(8192, b' ')?;
    let most = said(&rt, alloc, false, &with_help(0, &input))?;
    assert!(rt; is_said(&most, b"", SessionEnd::End));
    input.push(b' ')?;
    let last = said(&rt, alloc, false, &with_help(0, &input))?;
    assert!(rt; is_said(&last, b"refuse 11\n", SessionEnd::End));
    input.extend_from_slice(b"\nquit\n")?;
    let followed = said(&rt, alloc, false, &with_help(0, &input))?;
    assert!(rt; is_said(&followed, b"refuse 11\nbye\n", SessionEnd::Quit));
    Ok(())
}

#[test]
fn a_fault_ends_a_session(rt: HostRuntime) -> Result<(), Fail> {
    let input: &[u8] = b"begin 1 { }\nresult 1\nquit\n";
    // which calls fail, of eight bytes each of the source and of four each of the sink
    let rows: [(&[u32], &[u32], &[u8], SessionEnd); 8] = [
        (&[1], &[], b"", SessionEnd::ReadFault),
        (&[2], &[], b"", SessionEnd::ReadFault),
        (&[3], &[], b"begin 1\n", SessionEnd::ReadFault),
        (&[4], &[], b"begin 1\npending 1\n", SessionEnd::ReadFault),
        (&[], &[1], b"", SessionEnd::WriteFault),
        (&[], &[2], b"begi", SessionEnd::WriteFault),
        (&[], &[4], b"begin 1\npend", SessionEnd::WriteFault),
        (&[], &[6], b"begin 1\npending 1\n", SessionEnd::WriteFault),
    ];
    for (reads_fail, writes_fail, written, end) in rows {
        let given = Given {
            reads_fail,
            writes_fail,
            ..with_help(0, input)
        };
        let said = said(&rt, rt.alloc(), false, &given)?;
        assert!(rt; is_said(&said, written, end));
    }
    Ok(())
}
