// The report at the end of a batch.
ghost use Rattle.std.specs.Prelude.{◌≡◌, ◌++◌, ℕ, List, length, OnOk};
ghost use Rattle.txn_names.specs.Tables.{items_of};
ghost use Rattle.batch_input.specs.declared.request.Request.{Request as RequestOf};
ghost use Rattle.scc_batch.specs.Opened.{AreCommitted};
ghost use Rattle.scc_batch.specs.Told.{IsReport};

use batch_report::put_report;
use shadow_forest::Forest;
use std::alloc::AllocError;
use txn_names::Names;

// Appends the report of a forest in which all are committed. After want of memory more or less of it was appended.
pub(crate) fn put_last_report(
    names: &Names,
    forest: &Forest,
    out: &mut Vec<u8>,
) -> Result<(), AllocError>
    requires { length forest.now.numbers.opening ≡ items_of names.now }
    ensures { OnOk result ((requests : List RequestOf) → AreCommitted forest.now.numbers.opening requests forest.now.numbers
        → (text : List ℕ) × IsReport names.now forest.now.numbers.opening requests text × (out.new.items ≡ out.old.items ++ text)) }
{
    // that no name has a newline comes with their number
    let _ = names.count();
    put_report(names, forest.journal(), forest.table(), out)
}
