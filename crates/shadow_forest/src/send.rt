//! What may go to another thread.
ghost use Rattle.std.specs.Prelude.{◌≡◌};
ghost use denote.Param.Send.{IsSend};
ghost use Rattle.shadow_forest.specs.contracts.forest.Forest.{the_row as forest_row};
ghost use Rattle.shadow_forest.specs.contracts.bench.Bench.{the_row as bench_row};

use crate::{Bench, Forest};

fn sends<T: Send>(value: T) -> T
    ensures kept { result ≡ value }
    ensures send { IsSend T.row }
{
    value
}

/// A forest may go to another thread.
pub fn send_forest(forest: Forest) -> Forest
    ensures kept { result ≡ forest }
    ensures send { IsSend forest_row }
{
    sends(forest)
}

/// A bench may go to another thread.
pub fn send_bench(bench: Bench) -> Bench
    ensures kept { result ≡ bench }
    ensures send { IsSend bench_row }
{
    sends(bench)
}
