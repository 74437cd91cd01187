use crate::calls::{Came, first_wrong};
use crate::lists::LISTS;
use crate::more_lists::MORE_LISTS;
use conflict_index::Index;
use std::alloc::Global;
use std::test::Fail;

#[test]
fn points_fall_and_go(rt: HostRuntime) -> Result<(), Fail> {
    let mut index = Index::open(rt.alloc(), 4, 2)?;
    index.note_read(0, 3, 1);
    index.note_read(0, 5, 2);
    index.note_write(1, 2);
    assert_eq!(rt; index.point_of(0, 1), Some(5));
    index.note_write(1, 1);
    assert_eq!(rt; index.point_of(0, 1), Some(3));
    assert!(rt; index.changed(0) && !index.changed(1));
    index.settled();
    assert!(rt; !index.changed(0));
    index.forget(1);
    assert_eq!(rt; index.point_of(0, 1), None);
    assert!(rt; index.changed(0) && !index.changed(1));
    Ok(())
}

#[test]
fn what_changes_no_point_marks_nobody(rt: HostRuntime) -> Result<(), Fail> {
    let mut index = Index::open(rt.alloc(), 4, 3)?;
    index.note_write(1, 2);
    index.note_read(1, 0, 2);
    assert!(rt; !index.changed(0) && !index.changed(1) && !index.changed(2));
    assert!(rt; index.fills(0, 2) && !index.fills(0, 3) && !index.fills(1, 2));
    // the read fills a point, the later one of another written item doesn't lower it
    index.note_read(0, 4, 2);
    assert!(rt; index.changed(0) && !index.changed(1));
    index.settled();
    index.note_write(1, 3);
    assert!(rt; !index.fills(0, 3) && index.fills(2, 3));
    index.note_read(0, 6, 3);
    assert_eq!(rt; index.point_of(0, 1), Some(4));
    assert!(rt; !index.changed(0));
    // nor does the item that was read already, at a smaller position
    index.note_read(0, 1, 2);
    assert_eq!(rt; index.point_of(0, 1), Some(4));
    assert!(rt; !index.changed(0));
    // a lane that is forgotten and noted again is marked
    index.forget(0);
    index.note_read(0, 4, 2);
    assert_eq!(rt; index.point_of(0, 1), Some(4));
    assert!(rt; index.changed(0));
    Ok(())
}

// The place of the first list in which something goes wrong, and of the call.
fn all_right(alloc: Global, lists: &str, came: &mut Came) -> Result<Option<(usize, usize)>, Fail> {
    for (place, list) in lists.split(';').enumerate() {
        if let Some(wrong) = first_wrong(alloc, list, came)? {
            return Ok(Some((place, wrong)));
        }
    }
    Ok(None)
}

#[test]
fn points_and_marks_are_those_of_a_plain_search(rt: HostRuntime) -> Result<(), Fail> {
    let alloc = rt.alloc();
    let mut came = Came {
        marked: 0,
        stood: 0,
    };
    assert_eq!(rt; all_right(alloc, LISTS, &mut came)?, None);
    assert_eq!(rt; all_right(alloc, MORE_LISTS, &mut came)?, None);
    assert_eq!(rt;
        came,
        Came {
            marked: 1_006,
            stood: 16_730
        }
    );
    Ok(())
}
