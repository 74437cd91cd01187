// What keeps the lines of reports short. Each program and each value has its limits by its type; they are known where it was read.
ghost use Rattle.report_check.specs.Limits.{AreLimited, AreNarrowTables};

use item_table::Table;
use txn_runs::Program;

/// Reads programs, and leaves all as it is.
pub(crate) fn read_programs(programs: &[Program])
    ensures { AreLimited programs.now }
{
    for place in 0..programs.len() {
        let _ = programs[place].body();
    }
}

/// Reads the values of tables, and leaves all as it is.
pub(crate) fn read_values(table: &Table)
    ensures { AreNarrowTables table.now }
{
    for item in 0..table.len() {
        let _ = table.get(item);
    }
}
