use access_sets::{ReadLog, WriteSet};
use commit_rule::{cut, survives};
use std::test::Fail;

#[test]
fn cuts_at_the_earliest_read_that_changes(rt: HostRuntime) -> Result<(), Fail> {
    let mut reads = ReadLog::with_room(rt.alloc(), 4)?;
    reads.note(0, 3, 30);
    reads.note(2, 1, 10);
    let mut effect = WriteSet::with_room(rt.alloc(), 4)?;
    // what changes nothing cuts nothing
    assert_eq!(rt; cut(&reads, &effect), None);
    effect.set(0, 5);
    assert_eq!(rt; cut(&reads, &effect), None);
    effect.set(1, 5);
    assert_eq!(rt; cut(&reads, &effect), Some(2));
    effect.set(3, 5);
    assert_eq!(rt; cut(&reads, &effect), Some(0));
    Ok(())
}

#[test]
fn what_stands_at_the_cut_survives(rt: HostRuntime) {
    let cases = [
        (9, None, true),
        (0, Some(0), true),
        (1, Some(2), true),
        (2, Some(2), true),
        (3, Some(2), false),
    ];
    for (position, cut, want) in cases {
        assert!(rt; survives(position, cut) == want);
    }
}
