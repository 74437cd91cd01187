// Histories worked out by hand: commands, and what each of them is answered.
use crate::tests::gives;
use std::test::Fail;

#[test]
fn one_transaction_after_another(rt: HostRuntime) -> Result<(), Fail> {
    let rows: [([&str; 3], &[u8], &[u8]); 9] = [
        (
            ["script", "1", "1"],
            b"table a 4\nbegin 10 { r0 = a[0]; r0 = r0 + 5; a[0] = r0; emit r0; }\nrun\ncommit 1\ndump a\n",
            b"table a 4\nbegin 1 started\nrun 4\ncommit 1 done 5\na 5 0 0 0\nfinal a 5 0 0 0\nend 1\n",
        ),
        (["script", "1", "1"], b"", b"end 0\n"),
        (
            ["script", "1", "1"],
            b"begin 1 { }\nshow 1\ncommit 1\n",
            b"begin 1 started\nshadow 1 o at 0 ended\ncommit 1 done\nend 1\n",
        ),
        (
            ["script", "1", "2"],
            b"table a 4\nbegin 10 { r0 = a[0]; emit r0; }\nbegin 20 { a[0] = 5; }\nstep 1\nstep 2\ncommit 2\nshow 1\nrun\ncommit 1\n",
            b"table a 4\nbegin 1 started\nbegin 2 started\nstep 1 o at 1\nstep 2 o at 1\ncommit 2 done\nresume 1 0\nshadow 1 o at 0 runnable\nrun 2\ncommit 1 done 5\nfinal a 5 0 0 0\nend 2\n",
        ),
        (
            ["script", "1", "1"],
            b"table a 4\nbegin 1 { r0 = 9223372036854775807 + 1; }\nbegin 1 { r0 = -9223372036854775808 / -1; }\nbegin 1 { r0 = 5 % 0; }\nbegin 1 { a[4] = 1; }\nbegin 1 { r0 = -9223372036854775808 % -1; r1 = -7 / 2; r2 = -7 % 2; emit r0; emit r1; emit r2; }\ndrain\n",
            b"table a 4\nbegin 1 started\nbegin 2 waiting\nbegin 3 waiting\nbegin 4 waiting\nbegin 5 waiting\ncommit 1 fault overflow\nstart 2\ncommit 2 fault overflow\nstart 3\ncommit 3 fault zero\nstart 4\ncommit 4 fault range\nstart 5\ncommit 5 done 0 -3 -1\ndrain 5\nfinal a 0 0 0 0\nend 5\n",
        ),
        (
            ["script", "1", "2"],
            b"begin 1 { loop 271 { loop 367 { } } }\nbegin 1 { loop 271 { loop 367 { } } emit 1; }\nbegin 1 { loop 1001 { } }\nbegin 2 { loop 0 { fail 1; } emit 1; }\nrun\ndrain\n",
            b"begin 1 started\nrefuse 15 steps\nrefuse 15 loops\nbegin 2 started\nrun 100002\ncommit 1 done\ncommit 2 done 1\ndrain 2\nend 2\n",
        ),
        (
            ["script", "1", "1"],
            b"begin 1 { emit 2;",
            b"refuse 14 9\nend 0\n",
        ),
        (
            ["script", "1", "2"],
            b"table r1 4\ntable a 0\ntable a 4\ntable a 2\nput a 4 1\nput b 0 1\nfrob\nput a 0\nbegin 1 { emit 1 }\nbegin 1 { r0 = b[0]; }\nbegin 1 { }\nput a 0 1\nseal\nbegin 1 { }\nwithdraw 1\ncommit 1\n",
            b"refuse 18\nrefuse 17\ntable a 4\nrefuse 19\nrefuse 31\nrefuse 22\nrefuse 12\nrefuse 13\nrefuse 14 9\nrefuse 16 7\nbegin 1 started\nrefuse 21\nseal\nrefuse 24\nrefuse 24\ncommit 1 done\nfinal a 0 0 0 0\nend 1\n",
        ),
        (
            ["script", "1", "1"],
            b"begin 30 { }\nbegin 20 { }\nbegin 10 { }\ndrain\n",
            b"begin 1 started\nbegin 2 waiting\nbegin 3 waiting\ncommit 1 done\nstart 3\ncommit 3 done\nstart 2\ncommit 2 done\ndrain 3\nend 3\n",
        ),
    ];
    for (words, input, written) in rows {
        assert!(rt; gives(&rt, &words, input, written)?);
    }
    Ok(())
}

#[test]
fn a_conflict_has_a_shadow(rt: HostRuntime) -> Result<(), Fail> {
    let rows: [([&str; 3], &[u8], &[u8]); 7] = [
        (
            ["script", "2", "2"],
            b"table a 4\nbegin 10 { r0 = a[0]; emit r0; }\nbegin 20 { a[0] = 5; }\nstep 1\nstep 2\nshow 1\n",
            b"table a 4\nbegin 1 started\nbegin 2 started\nstep 1 o at 1\nstep 2 o at 1\nshadow 1 o at 1 runnable\nshadow 1 2 at 0 point 0 blocked\nfinal a 0 0 0 0\nend 0\n",
        ),
        (
            ["script", "2", "2"],
            b"table a 4\nbegin 10 { r1 = 1 + 1; r0 = a[0]; emit r0; }\nbegin 20 { a[0] = 5; }\nstep 2\nstep 1\nstep 1\nshow 1\ncommit 2\nshow 1\nrun\ncommit 1\n",
            b"table a 4\nbegin 1 started\nbegin 2 started\nstep 2 o at 1\nstep 1 o at 1\nstep 1 o at 2\nshadow 1 o at 2 runnable r1=2\nshadow 1 2 at 1 point 1 blocked r1=2\ncommit 2 done\nresume 1 1\nshadow 1 o at 1 runnable r1=2\nrun 2\ncommit 1 done 5\nfinal a 5 0 0 0\nend 2\n",
        ),
        (
            ["script", "2", "2"],
            b"table a 4\nbegin 10 { a[0] = 1; r0 = a[0]; emit r0; }\nbegin 20 { a[0] = 5; }\nstep 1\nstep 1\nstep 2\ncommit 2\nshow 1\nrun\ncommit 1\n",
            b"table a 4\nbegin 1 started\nbegin 2 started\nstep 1 o at 1\nstep 1 o at 2\nstep 2 o at 1\ncommit 2 done\nshadow 1 o at 2 runnable r0=1 a[0]=1\nrun 1\ncommit 1 done 1\nfinal a 1 0 0 0\nend 2\n",
        ),
        (
            ["script", "2", "2"],
            b"table a 4\nput a 0 3\nbegin 10 { r0 = a[0]; r1 = a[0]; r2 = r0 + r1; emit r2; }\nbegin 20 { a[1] = 9; }\nstep 1\nstep 2\ncommit 2\nrun\ncommit 1\n",
            b"table a 4\nput a 0 3\nbegin 1 started\nbegin 2 started\nstep 1 o at 1\nstep 2 o at 1\ncommit 2 done\nrun 3\ncommit 1 done 6\nfinal a 3 9 0 0\nend 2\n",
        ),
        (
            ["script", "2", "2"],
            b"table a 4\nbegin 10 { a[0] = 4; fail 7; }\nbegin 20 { r0 = a[0]; emit r0; }\nstep 2\nstep 1\nstep 1\nshow 2\ncommit 1\nshow 2\nrun\ncommit 2\n",
            b"table a 4\nbegin 1 started\nbegin 2 started\nstep 2 o at 1\nstep 1 o at 1\nstep 1 o at 2\nshadow 2 o at 1 runnable\nshadow 2 1 at 0 point 0 blocked\ncommit 1 failed 7\nshadow 2 o at 1 runnable\nrun 1\ncommit 2 done 0\nfinal a 0 0 0 0\nend 2\n",
        ),
        (
            ["script", "2", "2"],
            b"table a 4\nbegin 10 { r0 = a[0]; emit r0; }\nbegin 20 { a[0] = 5; }\nbegin 30 { }\nstep 1\nstep 2\nstep 1 2\nstep 1 3\nstep 2\ncommit 1\nstep 3\ncommit 3\nstep 9\ncommit 9\n",
            b"table a 4\nbegin 1 started\nbegin 2 started\nbegin 3 waiting\nstep 1 o at 1\nstep 2 o at 1\nrefuse 28\nrefuse 29\nrefuse 27\nrefuse 30\nrefuse 26\nrefuse 26\nrefuse 25\nrefuse 25\nfinal a 0 0 0 0\nend 0\n",
        ),
        (
            ["script", "2", "2"],
            b"table a 4\nbegin 10 { r0 = a[0]; a[1] = 1; }\nbegin 20 { r0 = a[1]; a[0] = 1; }\nstep 1\nstep 2\nstep 1\nstep 2\nshow 1\nshow 2\ncommit 1\nshow 2\nrun\ncommit 2\n",
            b"table a 4\nbegin 1 started\nbegin 2 started\nstep 1 o at 1\nstep 2 o at 1\nstep 1 o at 2\nstep 2 o at 2\nshadow 1 o at 2 ended a[1]=1\nshadow 1 2 at 0 point 0 blocked\nshadow 2 o at 2 ended a[0]=1\nshadow 2 1 at 0 point 0 blocked\ncommit 1 done\nresume 2 0\nshadow 2 o at 0 runnable\nrun 2\ncommit 2 done\nfinal a 1 1 0 0\nend 2\n",
        ),
    ];
    for (words, input, written) in rows {
        assert!(rt; gives(&rt, &words, input, written)?);
    }
    Ok(())
}

#[test]
fn the_earliest_points_have_shadows(rt: HostRuntime) -> Result<(), Fail> {
    let rows: [([&str; 3], &[u8], &[u8]); 3] = [
        (
            ["script", "2", "3"],
            b"table a 4\nbegin 10 { r0 = a[0]; r1 = a[1]; emit r1; }\nbegin 20 { a[1] = 7; }\nbegin 30 { a[0] = 9; }\nstep 1\nstep 1\nstep 2\nshow 1\nstep 3\nshow 1\ncommit 2\nshow 1\n",
            b"table a 4\nbegin 1 started\nbegin 2 started\nbegin 3 started\nstep 1 o at 1\nstep 1 o at 2\nstep 2 o at 1\nshadow 1 o at 2 runnable\nshadow 1 2 at 0 point 1 runnable\nstep 3 o at 1\nshadow 1 o at 2 runnable\nshadow 1 3 at 0 point 0 blocked\ncommit 2 done\nresume 1 0\nshadow 1 o at 0 runnable\nfinal a 0 7 0 0\nend 1\n",
        ),
        (
            ["script", "3", "3"],
            b"table a 4\nbegin 10 { r0 = a[0]; r1 = a[1]; emit r1; }\nbegin 20 { a[1] = 7; }\nbegin 30 { a[0] = 9; }\nstep 1\nstep 1\nstep 2\nstep 3\nrun\nshow 1\ncommit 2\nshow 1\n",
            b"table a 4\nbegin 1 started\nbegin 2 started\nbegin 3 started\nstep 1 o at 1\nstep 1 o at 2\nstep 2 o at 1\nstep 3 o at 1\nrun 2\nshadow 1 o at 3 ended emit=0\nshadow 1 3 at 0 point 0 blocked\nshadow 1 2 at 1 point 1 blocked\ncommit 2 done\nresume 1 1\nshadow 1 o at 1 runnable\nshadow 1 3 at 0 point 0 blocked\nfinal a 0 7 0 0\nend 1\n",
        ),
        (
            ["script", "2", "3"],
            b"table a 4\nbegin 10 { r5 = 3; r0 = a[0]; r1 = a[1]; emit r1; }\nbegin 20 { a[1] = 7; }\nbegin 30 { a[0] = 9; }\nstep 2\nstep 1\nstep 1\nstep 1\nstep 3\nstep 1 3\nwithdraw 3\nshow 1\n",
            b"table a 4\nbegin 1 started\nbegin 2 started\nbegin 3 started\nstep 2 o at 1\nstep 1 o at 1\nstep 1 o at 2\nstep 1 o at 3\nstep 3 o at 1\nstep 1 3 at 1\nwithdraw 3\nshadow 1 o at 3 runnable r5=3\nshadow 1 2 at 1 point 2 runnable r5=3\nfinal a 0 0 0 0\nend 0\n",
        ),
    ];
    for (words, input, written) in rows {
        assert!(rt; gives(&rt, &words, input, written)?);
    }
    Ok(())
}

#[test]
fn shadows_follow_what_others_wrote(rt: HostRuntime) -> Result<(), Fail> {
    let rows: [([&str; 3], &[u8], &[u8]); 5] = [
        // Whom a commit took back is told by number, though 4 runs in the lane that was 1's.
        (
            ["script", "1", "3"],
            b"table a 1\nbegin 10 { }\nbegin 20 { r0 = a[0]; emit r0; }\nbegin 15 { a[0] = 5; }\nbegin 40 { r0 = a[0]; emit r0; }\ncommit 1\nstep 2\nstep 4\ndrain\n",
            b"table a 1\nbegin 1 started\nbegin 2 started\nbegin 3 started\nbegin 4 waiting\ncommit 1 done\nstart 4\nstep 2 o at 1\nstep 4 o at 1\ncommit 3 done\nresume 2 0\nresume 4 0\ncommit 2 done 5\ncommit 4 done 5\ndrain 3\nfinal a 5\nend 4\n",
        ),
        // A fault behind a write changes no table, so nobody is taken back.
        (
            ["script", "2", "2"],
            b"table a 4\nbegin 10 { a[0] = 4; r0 = 1 / 0; }\nbegin 20 { r0 = a[0]; emit r0; }\nstep 2\nstep 1\nstep 1\nshow 2\ncommit 1\nshow 2\nrun\ncommit 2\n",
            b"table a 4\nbegin 1 started\nbegin 2 started\nstep 2 o at 1\nstep 1 o at 1\nstep 1 o at 2\nshadow 2 o at 1 runnable\nshadow 2 1 at 0 point 0 blocked\ncommit 1 fault zero\nshadow 2 o at 1 runnable\nrun 1\ncommit 2 done 0\nfinal a 0 0 0 0\nend 2\n",
        ),
        // A shadow that has gone beyond a point which is lowered is made anew.
        (
            ["script", "2", "2"],
            b"table a 4\nbegin 10 { r0 = a[0]; r1 = a[1]; emit r1; }\nbegin 20 { a[1] = 7; a[0] = 9; }\nstep 1\nstep 1\nstep 2\nstep 1 2\nshow 1\nstep 2\nshow 1\n",
            b"table a 4\nbegin 1 started\nbegin 2 started\nstep 1 o at 1\nstep 1 o at 2\nstep 2 o at 1\nstep 1 2 at 1\nshadow 1 o at 2 runnable\nshadow 1 2 at 1 point 1 blocked\nstep 2 o at 2\nshadow 1 o at 2 runnable\nshadow 1 2 at 0 point 0 blocked\nfinal a 0 0 0 0\nend 0\n",
        ),
        // The shadow that waited for who failed is what the next one is copied from.
        (
            ["script", "2", "3"],
            b"table a 4\nbegin 10 { r5 = 3; r0 = a[0]; r1 = a[1]; emit r1; }\nbegin 20 { a[0] = 9; fail 1; }\nbegin 30 { a[1] = 7; }\nstep 3\nstep 1\nstep 1\nstep 1\nstep 2\nstep 1 2\nshow 1\nstep 2\ncommit 2\nshow 1\n",
            b"table a 4\nbegin 1 started\nbegin 2 started\nbegin 3 started\nstep 3 o at 1\nstep 1 o at 1\nstep 1 o at 2\nstep 1 o at 3\nstep 2 o at 1\nstep 1 2 at 1\nshadow 1 o at 3 runnable r5=3\nshadow 1 2 at 1 point 1 blocked r5=3\nstep 2 o at 2\ncommit 2 failed 1\nshadow 1 o at 3 runnable r5=3\nshadow 1 3 at 1 point 2 runnable r5=3\nfinal a 0 0 0 0\nend 1\n",
        ),
        // Nobody waits for itself, for nobody, or for who has read nothing of it.
        (
            ["script", "2", "2"],
            b"table a 4\nbegin 10 { r0 = a[0]; emit r0; }\nbegin 20 { a[0] = 5; }\nstep 1\nstep 2\nstep 1 1\nstep 1 0\nstep 1 2\nstep 2 1\n",
            b"table a 4\nbegin 1 started\nbegin 2 started\nstep 1 o at 1\nstep 2 o at 1\nrefuse 29\nrefuse 29\nrefuse 28\nrefuse 29\nfinal a 0 0 0 0\nend 0\n",
        ),
    ];
    for (words, input, written) in rows {
        assert!(rt; gives(&rt, &words, input, written)?);
    }
    Ok(())
}
