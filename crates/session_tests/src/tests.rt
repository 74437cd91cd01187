use crate::served::{both_said, is_said, with_help};
use line_server::SessionEnd;
use std::test::Fail;

const FIVE_LINES: &[u8] = b"begin 10 { r0 = a[0]; emit r0; }\nresult 1\nresult 2\ntable a\nquit\n";

#[test]
fn a_session_that_works_not_leaves_its_begin_pending(rt: HostRuntime) -> Result<(), Fail> {
    let first = with_help(0, FIVE_LINES);
    let second = with_help(0, b"result 1\n");
    for split in [false, true] {
        let (before, behind) = both_said(&rt, rt.alloc(), &first, &second, split)?;
        assert!(rt;
            is_said(
                &before,
                b"begin 1\npending 1\nunknown 2\na 0 0 0 0\nbye\n",
                SessionEnd::Quit
            )
        );
        assert!(rt; is_said(&behind, b"pending 1\n", SessionEnd::End));
    }
    Ok(())
}

#[test]
fn a_session_that_works_commits_what_it_began(rt: HostRuntime) -> Result<(), Fail> {
    let first = with_help(256, FIVE_LINES);
    let second = with_help(0, b"result 1\n");
    for split in [false, true] {
        let (before, behind) = both_said(&rt, rt.alloc(), &first, &second, split)?;
        assert!(rt;
            is_said(
                &before,
                b"begin 1\ncommit 1 done 0\nunknown 2\na 0 0 0 0\nbye\n",
                SessionEnd::Quit
            )
        );
        assert!(rt; is_said(&behind, b"commit 1 done 0\n", SessionEnd::End));
    }
    Ok(())
}
