//! Where a reader conflicts with a writer.
//!
//! The rules stand in docs/RULES.md, what is proved in docs/PROMISES.md.
#![tactic(auto)]

ghost use Rattle.std.specs.Prelude.{◌≡◌, ◌↔◌};
ghost use Rattle.std.specs.List.{AllByRecursion};
ghost use Rattle.txn_runs.specs.Run.{own};
ghost use Rattle.forest_model.specs.Point.{point as point_of};

use access_sets::{ReadLog, WriteSet};

/// The least position of a table read whose item is among the writes, where there is one: the number of steps before
/// that read. `None` exactly where no item was both read and written.
pub fn point(reads: &ReadLog, writes: &WriteSet) -> Option<u32>
    ensures point { result ≡ point_of reads.now.reads writes.now }
    ensures none { (result ≡ None) ↔ AllByRecursion (λ r. own writes.now r.1 ≡ None) reads.now.reads }
{
    reads.first_in(writes)
}
