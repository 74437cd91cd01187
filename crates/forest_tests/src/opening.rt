// The table that forests stand over, and the programs that begin in them.
use crate::stage::Stage;
use item_table::Table;
use shadow_forest::BeginRefusal;
use std::alloc::{AllocError, Global};
use std::test::Fail;
use txn_names::Names;
use txn_syntax::read_program;

/// The name of a table `a` of four items.
pub fn one_table(alloc: Global) -> Result<Names, Fail> {
    let mut names = Names::new(alloc);
    let _a = names.add(b"a", 4)?;
    Ok(names)
}

/// That table with these values.
pub fn filled(alloc: Global, values: &[i64; 4]) -> Result<Table, AllocError> {
    let mut table = Table::new(alloc, 4)?;
    for i in 0..4u32 {
        if i < table.len() {
            table.set(i, values[i as usize]);
        }
    }
    Ok(table)
}

/// Begins a program, and gives the answer.
pub fn begin(
    alloc: Global,
    names: &Names,
    stage: &mut Stage,
    deadline: u32,
    text: &str,
) -> Result<Result<u32, BeginRefusal>, Fail> {
    let program = read_program(alloc, names, text.as_bytes())?;
    stage.begin(program, deadline)
}
