use std::test::Fail;
use wait_list::WaitList;

#[test]
fn the_smallest_deadline_is_first(rt: HostRuntime) -> Result<(), Fail> {
    let mut list = WaitList::new(rt.alloc());
    assert_eq!(rt; list.first(), None);
    list.add(2, 30)?;
    list.add(3, 10)?;
    list.add(5, 10)?;
    list.add(9, 20)?;
    assert_eq!(rt; list.len(), 4);
    assert_eq!(rt; list.first(), Some(3));
    // nobody waits with this number and deadline
    list.remove(3, 20);
    assert_eq!(rt; list.first(), Some(3));
    list.remove(3, 10);
    assert_eq!(rt; list.first(), Some(5));
    list.remove(5, 10);
    list.remove(2, 30);
    assert_eq!(rt; list.first(), Some(9));
    list.remove(9, 20);
    assert_eq!(rt; list.first(), None);
    assert_eq!(rt; list.len(), 0);
    Ok(())
}
