use block_rule::{Origin, Role};
use fork_rule::{copied, origin};

const OPTIMISTIC: Role = Role::Optimistic;

#[test]
fn copies_the_furthest_that_has_not_passed_the_point(rt: HostRuntime) {
    // roles and positions, guard and point, and where the shadow comes from
    let cases: [(&[(Role, u32)], u32, u32, Origin); 9] = [
        // the writer is behind the read
        (&[(OPTIMISTIC, 1)], 2, 0, Origin::Fresh),
        // the reader is about to read what was written
        (&[(OPTIMISTIC, 1)], 2, 1, Origin::From(OPTIMISTIC)),
        (
            &[(OPTIMISTIC, 2), (Role::Guard(2), 0)],
            3,
            0,
            Origin::From(Role::Guard(2)),
        ),
        (
            &[(OPTIMISTIC, 3), (Role::Guard(3), 1)],
            2,
            2,
            Origin::From(Role::Guard(3)),
        ),
        (
            &[(OPTIMISTIC, 4), (Role::Guard(4), 1), (Role::Guard(2), 2)],
            3,
            3,
            Origin::From(Role::Guard(2)),
        ),
        (
            &[(OPTIMISTIC, 4), (Role::Guard(4), 1), (Role::Guard(2), 2)],
            4,
            1,
            Origin::Keep,
        ),
        // its own shadow has passed the point
        (
            &[(OPTIMISTIC, 4), (Role::Guard(4), 0), (Role::Guard(2), 2)],
            2,
            1,
            Origin::From(Role::Guard(4)),
        ),
        // of several the first
        (
            &[(OPTIMISTIC, 4), (Role::Guard(4), 2), (Role::Guard(2), 2)],
            3,
            3,
            Origin::From(Role::Guard(4)),
        ),
        (&[], 2, 5, Origin::Fresh),
    ];
    for (positions, guard, point, want) in cases {
        assert!(rt; origin(positions, guard, point) == want);
    }
    assert!(rt; copied(&[(OPTIMISTIC, 4), (Role::Guard(2), 2)], 3) == Origin::From(Role::Guard(2)));
}
