// What lines are answered that are refused, or that stand where they have no effect.
use crate::tests::{gives, put_zeros};
use std::test::Fail;

#[test]
fn before_the_first_transaction(rt: HostRuntime) -> Result<(), Fail> {
    let rows: [(&[u8], &[u8]); 5] = [
        (
            b"step 1\nstep 1 2\ncommit 1\nwithdraw 1\nshow 1\nrun\ndrain\ntable a 1\n",
            b"refuse 25\nrefuse 25\nrefuse 25\nrefuse 25\nrefuse 25\nrun 0\ndrain 0\ntable a 1\nfinal a 0\nend 0\n",
        ),
        (
            b"table a 2\nput a 1 5\nput a 1 -7\nput a 0 -0\ndump a\n",
            b"table a 2\nput a 1 5\nput a 1 -7\nput a 0 0\na 0 -7\nfinal a 0 -7\nend 0\n",
        ),
        (
            b"begin 1 {\nbegin 1 { r0 = b[0]; }\nbegin 1 { loop 1001 { } }\ntable a 1\n",
            b"refuse 14 1\nrefuse 16 7\nrefuse 15 loops\ntable a 1\nfinal a 0\nend 0\n",
        ),
        (
            b"seal\ntable a 1\nput a 0 1\nseal\nbegin 1 { }\n",
            b"seal\nrefuse 21\nrefuse 21\nseal\nrefuse 24\nend 0\n",
        ),
        (
            b"begin 1 { }\ntable min 4\ntable a 1\nput b 0 1\ntable a 0\n",
            b"begin 1 started\nrefuse 21\nrefuse 21\nrefuse 21\nrefuse 17\nend 0\n",
        ),
    ];
    for (input, written) in rows {
        assert!(rt; gives(&rt, &["script", "1", "1"], input, written)?);
    }
    Ok(())
}

#[test]
fn tables_have_1024_items(rt: HostRuntime) -> Result<(), Fail> {
    let mut written = b"table a 1024\nrefuse 20\nrefuse 19\nrefuse 18\nfinal a".to_vec(rt.alloc())?;
    put_zeros(&mut written, 1024)?;
    written.extend_from_slice(b"\nend 0\n")?;
    let input = b"table a 1024\ntable b 1\ntable a 1\ntable min 1\n";
    assert!(rt; gives(&rt, &["script", "1", "1"], input, &written)?);
    Ok(())
}

#[test]
fn transactions_wait_for_lanes(rt: HostRuntime) -> Result<(), Fail> {
    let rows: [(&[u8], &[u8]); 5] = [
        (
            b"begin 1 { emit 1; }\nstep 1 1\nstep 1 0\nstep 2 2\nstep 0\n",
            b"begin 1 started\nrefuse 29\nrefuse 29\nrefuse 25\nrefuse 25\nend 0\n",
        ),
        (
            b"begin 1 { }\nbegin 2 { }\nbegin 3 { }\nwithdraw 2\nwithdraw 1\nwithdraw 1\n",
            b"begin 1 started\nbegin 2 waiting\nbegin 3 waiting\nwithdraw 2\nwithdraw 1\nstart 3\nrefuse 25\nend 0\n",
        ),
        (
            b"begin 1 { }\nbegin 2 { }\nshow 2\nshow 3\nstep 2\ncommit 2\n",
            b"begin 1 started\nbegin 2 waiting\nshow 2 waiting\nrefuse 25\nrefuse 26\nrefuse 26\nend 0\n",
        ),
        (
            b"begin 9 { }\nbegin 5 { }\nbegin 5 { }\ncommit 1\ncommit 2\ncommit 3\n",
            b"begin 1 started\nbegin 2 waiting\nbegin 3 waiting\ncommit 1 done\nstart 2\ncommit 2 done\nstart 3\ncommit 3 done\nend 3\n",
        ),
        (
            b"begin 1 { emit 2; }\nseal\nwithdraw 1\nwithdraw 2\ncommit 1\ndrain\nrun\n",
            b"begin 1 started\nseal\nrefuse 24\nrefuse 25\nrefuse 30\ncommit 1 done 2\ndrain 1\nrun 0\nend 1\n",
        ),
    ];
    for (input, written) in rows {
        assert!(rt; gives(&rt, &["script", "1", "1"], input, written)?);
    }
    Ok(())
}

#[test]
fn lines_are_refused_alone(rt: HostRuntime) -> Result<(), Fail> {
    let rows: [(&[u8], &[u8]); 8] = [
        (b"\n \t\r\n# a\n#a", b"end 0\n"),
        (
            b"journal\njournal x\nreport\nresult 1\nquit\ntable a\x0b 1\n\x0btable a 1\n",
            b"entry,txn,deadline,detail\nrefuse 13\nrefuse 12\nrefuse 12\nrefuse 12\nrefuse 18\nrefuse 12\nend 0\n",
        ),
        (
            b"run x\ndump\nseal x\ndrain x\nshow\nstep\nstep 1 2 3\ntable a\nput a 9999 x\nbegin\nbegin x { }\nbegin 10{ }\n",
            b"refuse 13\nrefuse 13\nrefuse 13\nrefuse 13\nrefuse 13\nrefuse 13\nrefuse 13\nrefuse 13\nrefuse 13\nrefuse 13\nrefuse 13\nrefuse 13\nend 0\n",
        ),
        (
            b"begin 10\nbegin 1000000000001\nbegin 10 x\n",
            b"refuse 14 0\nrefuse 17\nrefuse 14 0\nend 0\n",
        ),
        (
            b"step -1\nstep +1\nstep 4294967296\nstep 1 4294967296\nstep 4294967295\nput a 1024 1\nput a 0 9223372036854775808\nput a 0 +5\n",
            b"refuse 13\nrefuse 13\nrefuse 17\nrefuse 17\nrefuse 25\nrefuse 17\nrefuse 17\nrefuse 13\nend 0\n",
        ),
        (
            b"table a 02\nput a 00 -0007\nbegin 007 { emit 03; }\nstep 0001\nrun\ncommit 01\nput a 0 1\ndump b\n",
            b"table a 2\nput a 0 -7\nbegin 1 started\nstep 1 o at 1\nrun 0\ncommit 1 done 3\nrefuse 21\nrefuse 22\nfinal a -7 0\nend 1\n",
        ),
        // No table has a name that isn't allowed.
        (
            b"table a 1\nput min 0 1\nput r1 0 1\ndump loop\ndump a!\ndump abcdefghijklmnopq\n",
            b"table a 1\nrefuse 22\nrefuse 22\nrefuse 22\nrefuse 22\nrefuse 22\nfinal a 0\nend 0\n",
        ),
        // Form feed and 0 are no blanks.
        (b"table a\0 4\n\x0crun\n", b"refuse 18\nrefuse 12\nend 0\n"),
    ];
    for (input, written) in rows {
        assert!(rt; gives(&rt, &["script", "1", "1"], input, written)?);
    }
    Ok(())
}

#[test]
fn a_drain_tells_each_commit(rt: HostRuntime) -> Result<(), Fail> {
    let input =
        b"table a 4\nbegin 30 { r0 = a[0]; emit r0; }\nbegin 20 { r0 = a[0]; emit r0; }\nbegin 10 { a[0] = 5; }\nstep 1\nstep 2\ndrain\n";
    let written =
        b"table a 4\nbegin 1 started\nbegin 2 started\nbegin 3 started\nstep 1 o at 1\nstep 2 o at 1\ncommit 3 done\nresume 1 0\nresume 2 0\ncommit 2 done 5\ncommit 1 done 5\ndrain 3\nfinal a 5 0 0 0\nend 3\n";
    assert!(rt; gives(&rt, &["script", "1", "3"], input, written)?);
    Ok(())
}

#[test]
fn a_shadow_shows_what_it_holds(rt: HostRuntime) -> Result<(), Fail> {
    let input =
        b"table ab 2\ntable c 3\nbegin 1 { r15 = -3; r2 = 7; r2 = 0; c[2] = 4; ab[1] = -9; c[0] = 0; emit -1; emit 2; fail 6; }\nrun\nshow 1\ncommit 1\n";
    let written =
        b"table ab 2\ntable c 3\nbegin 1 started\nrun 9\nshadow 1 o at 9 ended r15=-3 ab[1]=-9 c[0]=0 c[2]=4 emit=-1 emit=2\ncommit 1 failed 6\nfinal ab 0 0\nfinal c 0 0 0\nend 1\n";
    assert!(rt; gives(&rt, &["script", "1", "1"], input, written)?);
    Ok(())
}
