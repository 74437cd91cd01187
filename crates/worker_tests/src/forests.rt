// Forests over one table of four items.
use item_table::Table;
use shadow_forest::Forest;
use std::alloc::Global;
use std::test::Fail;
use txn_names::Names;
use txn_syntax::read_program;

const LATEST: u64 = 1_000_000_000_000;

/// A forest over a table `a` of four items.
pub fn opened(alloc: Global, k: u32, lanes: u32) -> Result<Forest, Fail> {
    if k < 1 || k > 8 || lanes < 1 || lanes > 64 {
        return Err(Fail::new("beyond the limits"));
    }
    let table = Table::new(alloc, 4)?;
    Ok(Forest::open(alloc, table, k, lanes)?)
}

/// Begins a program at a deadline.
pub fn begin(alloc: Global, forest: &mut Forest, deadline: u64, text: &str) -> Result<u32, Fail> {
    let mut names = Names::new(alloc);
    let _a = names.add(b"a", 4)?;
    let program = read_program(alloc, &names, text.as_bytes())?;
    if deadline > LATEST || !program.fits(forest.table().len()) {
        return Err(Fail::new("a program of other tables, or beyond the limits"));
    }
    match forest.begin(program, deadline) {
        Ok(txn) => Ok(txn),
        Err(_) => Err(Fail::new("no transaction begins")),
    }
}
