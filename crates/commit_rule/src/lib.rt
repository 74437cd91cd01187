//! What a commit leaves of the shadows of another transaction.
//!
//! The rules stand in docs/RULES.md, what is proved in docs/PROMISES.md.
#![tactic(auto)]

ghost use Rattle.std.specs.Prelude.{◌≡◌, ◌↔◌};
ghost use Rattle.std.specs.List.{AllByRecursion};
ghost use Rattle.txn_runs.specs.Run.{own};
ghost use Rattle.forest_model.specs.Point.{point as point_of};
ghost use Rattle.forest_model.specs.Cut.{survives as survives_of};

use access_sets::{ReadLog, WriteSet};
use conflict_table::point;

/// The least position of a table read whose item the committed effect changes, where there is one: the number of steps
/// before that read. `None` exactly where nothing that was read is changed. Against a transaction that is done it is the
/// point, else there is none (`forest_model::survival`).
pub fn cut(reads: &ReadLog, effect: &WriteSet) -> Option<u32>
    ensures cut { result ≡ point_of reads.now.reads effect.now }
    ensures none { (result ≡ None) ↔ AllByRecursion (λ r. own effect.now r.1 ≡ None) reads.now.reads }
{
    point(reads, effect)
}

/// Whether a shadow that stands here survives the cut: at or before it, and everywhere where there is none. What survives
/// stands on the same run over the new tables (`forest_model::survival`).
pub fn survives(position: u32, cut: Option<u32>) -> bool
    ensures { result ≡ survives_of cut position }
{
    match cut {
        Some(at) => position <= at,
        None => true,
    }
}
