use replacement::wanted;

#[test]
fn keeps_what_blocks_first(rt: HostRuntime) {
    // guard and point of each conflict, k, and what is wanted
    let cases: [(&[(u32, u32)], u32, &[(u32, u32)]); 9] = [
        (&[], 8, &[]),
        (&[(2, 1)], 1, &[]),
        (&[(2, 1)], 2, &[(2, 1)]),
        (&[(2, 1), (3, 0)], 2, &[(3, 0)]),
        (&[(2, 1), (3, 0)], 3, &[(3, 0), (2, 1)]),
        (&[(2, 2), (3, 3), (4, 1)], 3, &[(4, 1), (2, 2)]),
        (&[(2, 2), (3, 3)], 3, &[(2, 2), (3, 3)]),
        // at the same point the smaller guard
        (&[(9, 2), (3, 2), (7, 1)], 3, &[(7, 1), (3, 2)]),
        (
            &[
                (1, 8),
                (2, 7),
                (3, 6),
                (4, 5),
                (5, 4),
                (6, 3),
                (7, 2),
                (8, 1),
            ],
            8,
            &[(8, 1), (7, 2), (6, 3), (5, 4), (4, 5), (3, 6), (2, 7)],
        ),
    ];
    for (points, k, want) in cases {
        assert!(rt; wanted(points, k).as_slice() == want);
    }
}
