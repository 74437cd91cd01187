// What the tests begin with.
use std::alloc::Global;
use std::test::Fail;
use txn_names::Names;

/// A table `a` of four items.
pub fn one_table(alloc: Global) -> Result<Names, Fail> {
    let mut names = Names::new(alloc);
    let _added = names.add(b"a", 4);
    Ok(names)
}
