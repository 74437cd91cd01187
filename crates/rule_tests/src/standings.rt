use block_rule::{Role, Standing, status};

#[test]
fn stands_as_the_rule_says(rt: HostRuntime) {
    // role, position, point, whether the run has ended, and how the shadow stands
    let cases: [(Role, u32, Option<u32>, bool, Standing); 10] = [
        (Role::Optimistic, 0, None, false, Standing::Runnable),
        (Role::Optimistic, 3, None, false, Standing::Runnable),
        (Role::Optimistic, 3, None, true, Standing::Ended),
        // a point says nothing of the optimistic one
        (Role::Optimistic, 3, Some(1), false, Standing::Runnable),
        (Role::Optimistic, 1, Some(1), true, Standing::Ended),
        (Role::Guard(2), 0, Some(1), false, Standing::Runnable),
        (Role::Guard(2), 1, Some(1), false, Standing::Blocked),
        (Role::Guard(2), 0, Some(0), false, Standing::Blocked),
        // and an end says nothing of a guard's
        (Role::Guard(2), 2, Some(2), true, Standing::Blocked),
        (Role::Guard(2), 1, Some(2), true, Standing::Runnable),
    ];
    for (role, position, point, ended, want) in cases {
        assert!(rt; status(role, position, point, ended) == want);
    }
}
