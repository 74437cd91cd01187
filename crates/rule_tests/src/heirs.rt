use block_rule::{Origin, Role};
use promotion::heir;

const OPTIMISTIC: Role = Role::Optimistic;

#[test]
fn promotes_the_furthest_survivor(rt: HostRuntime) {
    // roles and positions, the cut, and who goes on
    let cases: [(&[(Role, u32)], u32, Origin); 8] = [
        (&[(OPTIMISTIC, 1)], 0, Origin::Fresh),
        (
            &[(OPTIMISTIC, 2), (Role::Guard(2), 1)],
            1,
            Origin::From(Role::Guard(2)),
        ),
        (
            &[(OPTIMISTIC, 2), (Role::Guard(3), 0)],
            1,
            Origin::From(Role::Guard(3)),
        ),
        (
            &[(OPTIMISTIC, 3), (Role::Guard(3), 0), (Role::Guard(2), 1)],
            1,
            Origin::From(Role::Guard(2)),
        ),
        // of several the first
        (
            &[(OPTIMISTIC, 3), (Role::Guard(3), 1), (Role::Guard(2), 1)],
            2,
            Origin::From(Role::Guard(3)),
        ),
        (
            &[(OPTIMISTIC, 3), (Role::Guard(3), 2), (Role::Guard(2), 1)],
            0,
            Origin::Fresh,
        ),
        // the optimistic shadow stands at the cut, or before it
        (
            &[(OPTIMISTIC, 1), (Role::Guard(2), 1)],
            1,
            Origin::From(OPTIMISTIC),
        ),
        (
            &[(OPTIMISTIC, 1), (Role::Guard(2), 0), (Role::Guard(3), 3)],
            2,
            Origin::From(OPTIMISTIC),
        ),
    ];
    for (positions, cut, want) in cases {
        assert!(rt; heir(positions, cut) == want);
    }
}
