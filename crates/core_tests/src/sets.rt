use access_sets::{ReadLog, WriteSet, agreeing_tables};
use item_table::Table;
use std::test::Fail;

#[test]
fn writes_are_a_map_in_ascending_order(rt: HostRuntime) -> Result<(), Fail> {
    let mut writes = WriteSet::with_room(rt.alloc(), 8)?;
    writes.set(5, 50);
    writes.set(2, 20);
    writes.set(5, 51);
    assert_eq!(rt; writes.get(5), Some(51));
    assert_eq!(rt; writes.get(3), None);
    assert_eq!(rt; writes.len(), 2);
    assert_eq!(rt; writes.nth(0), (2, 20));
    assert_eq!(rt; writes.nth(1), (5, 51));
    let mut other = WriteSet::with_room(rt.alloc(), 8)?;
    other.copy_from(&writes);
    assert_eq!(rt; other.get(2), Some(20));
    let mut table = Table::new(rt.alloc(), 8)?;
    writes.lay_over(&mut table);
    assert_eq!(rt; table.get(5), 51);
    assert_eq!(rt; table.get(3), 0);
    writes.clear();
    assert_eq!(rt; writes.get(5), None);
    Ok(())
}

#[test]
fn a_log_keeps_what_was_read(rt: HostRuntime) -> Result<(), Fail> {
    let mut log = ReadLog::with_room(rt.alloc(), 8)?;
    log.note(3, 5, 50);
    log.note(7, 2, 20);
    assert_eq!(rt; log.len(), 2);
    assert_eq!(rt; log.get(2), Some(20));
    assert_eq!(rt; log.nth(0), (3, 5, 50));
    assert_eq!(rt; log.nth(1), (7, 2, 20));
    let mut writes = WriteSet::with_room(rt.alloc(), 8)?;
    assert_eq!(rt; log.first_in(&writes), None);
    writes.set(2, 1);
    assert_eq!(rt; log.first_in(&writes), Some(7));
    let mut other = ReadLog::with_room(rt.alloc(), 8)?;
    other.copy_from(&log);
    assert!(rt; other.same(&log));
    other.clear();
    assert!(rt; !other.same(&log));
    Ok(())
}

#[test]
fn a_log_agrees_with_tables_that_have_what_was_read(rt: HostRuntime) -> Result<(), Fail> {
    agreeing_tables();
    let mut log = ReadLog::with_room(rt.alloc(), 8)?;
    log.note(3, 5, 50);
    log.note(7, 2, 20);
    let mut table = Table::new(rt.alloc(), 8)?;
    table.set(5, 50);
    assert!(rt; !log.agrees(&table));
    table.set(2, 20);
    assert!(rt; log.agrees(&table));
    table.set(2, 21);
    assert!(rt; !log.agrees(&table));
    table.set(2, 19);
    assert!(rt; !log.agrees(&table));
    Ok(())
}
