use block_rule::{Role, Row, Standing};
use ready_order::{earlier, folding, is_earlier, is_ready, pick};

// A runnable shadow that is not out.
fn row(txn: u32, deadline: u64, role: Role, place: u32) -> Row {
    Row {
        txn,
        deadline,
        role,
        place,
        standing: Standing::Runnable,
        out: false,
    }
}

#[test]
fn picks_by_deadline_number_role_and_place(rt: HostRuntime) {
    let first = row(1, 10, Role::Optimistic, 0);
    let guarded = row(1, 10, Role::Guard(2), 2);
    let blocked = Row {
        standing: Standing::Blocked,
        ..row(1, 10, Role::Guard(3), 1)
    };
    let ended = Row {
        standing: Standing::Ended,
        ..first
    };
    let out = Row { out: true, ..first };
    let second = row(2, 20, Role::Optimistic, 0);
    // shadows of one transaction and another one's, and the pick
    let cases: [(&[Row], Option<(u32, Role)>); 8] = [
        (
            &[first, blocked, guarded, second],
            Some((1, Role::Optimistic)),
        ),
        (
            &[ended, blocked, guarded, second],
            Some((1, Role::Guard(2))),
        ),
        (&[out, blocked, guarded, second], Some((1, Role::Guard(2)))),
        (&[ended, blocked, second], Some((2, Role::Optimistic))),
        (
            &[second, row(3, 10, Role::Guard(2), 1)],
            Some((3, Role::Guard(2))),
        ),
        (
            &[row(4, 10, Role::Guard(2), 1), guarded],
            Some((1, Role::Guard(2))),
        ),
        // of equal ones the first
        (
            &[row(5, 5, Role::Guard(7), 1), row(5, 5, Role::Guard(6), 1)],
            Some((5, Role::Guard(7))),
        ),
        (&[ended, blocked, out], None),
    ];
    for (rows, want) in cases {
        assert!(rt; pick(rows) == want);
    }
    assert!(rt; is_ready(&first) && !is_ready(&out) && !is_ready(&blocked));
    assert!(rt; is_earlier(&first, &guarded) && !is_earlier(&first, &first));
    assert!(rt; earlier(earlier(None, guarded), first) == Some(first));
    folding();
}
