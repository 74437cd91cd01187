use item_table::Table;
use std::test::Fail;

#[test]
fn keeps_and_copies(rt: HostRuntime) -> Result<(), Fail> {
    let mut table = Table::new(rt.alloc(), 4)?;
    assert_eq!(rt; table.len(), 4);
    assert_eq!(rt; table.get(3), 0);
    table.set(1, -9223372036854775808);
    table.set(2, 9223372036854775807);
    let copy = table.copy()?;
    table.set(1, 5);
    assert_eq!(rt; table.get(1), 5);
    assert_eq!(rt; copy.get(1), -9223372036854775808);
    let row = copy.row(1, 2);
    assert_eq!(rt; row.len(), 2);
    assert_eq!(rt; row[1], 9223372036854775807);
    let grown = copy.grown(2)?;
    let values = [0, -9223372036854775808, 9223372036854775807, 0, 0, 0];
    assert_eq!(rt; grown.len(), 6);
    assert!(rt; grown.row(0, 6) == values.as_slice());
    Ok(())
}
