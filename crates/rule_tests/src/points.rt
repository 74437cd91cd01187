use access_sets::{ReadLog, WriteSet};
use conflict_table::point;
use std::test::Fail;

#[test]
fn points_at_the_earliest_read_of_a_written_item(rt: HostRuntime) -> Result<(), Fail> {
    // { r5 = 3; r0 = a[0]; r1 = a[1]; emit r1; }
    let mut reads = ReadLog::with_room(rt.alloc(), 4)?;
    reads.note(1, 0, 0);
    reads.note(2, 1, 0);
    let mut writes = WriteSet::with_room(rt.alloc(), 4)?;
    assert_eq!(rt; point(&reads, &writes), None);
    writes.set(3, 7);
    assert_eq!(rt; point(&reads, &writes), None);
    // a write of the value that was read is a write
    writes.set(1, 0);
    assert_eq!(rt; point(&reads, &writes), Some(2));
    writes.set(0, 9);
    assert_eq!(rt; point(&reads, &writes), Some(1));
    Ok(())
}

#[test]
fn points_at_a_first_step_that_reads(rt: HostRuntime) -> Result<(), Fail> {
    // { r0 = a[0]; r1 = a[4]; r2 = a[1]; }, of which nobody writes a[4]
    let mut reads = ReadLog::with_room(rt.alloc(), 8)?;
    reads.note(0, 0, 5);
    reads.note(1, 4, 0);
    reads.note(2, 1, 0);
    let mut writes = WriteSet::with_room(rt.alloc(), 8)?;
    assert_eq!(rt; point(&reads, &writes), None);
    writes.set(1, 3);
    assert_eq!(rt; point(&reads, &writes), Some(2));
    writes.set(0, 6);
    assert_eq!(rt; point(&reads, &writes), Some(0));
    Ok(())
}
