// The lanes of a forest that takes as many shadows as there is memory for.
ghost use Rattle.std.specs.Prelude.{◌≡◌, ◌≤◌, ℕ, [], IfOk};

use indexed_lanes::IndexedLanes;
use std::alloc::{AllocError, Global};

// Lanes where nobody is started, with k shadows a transaction, or else k - 1, and so on down to 1. `AllocError` where there is no room
// for one.
pub(crate) fn granted_lanes(
    alloc: Global,
    items: u32,
    k: u32,
    lanes: u32,
) -> Result<IndexedLanes, AllocError>
    requires items { items ≤ 1024 }
    requires least { 1 ≤ k }
    requires most { k ≤ 8 }
    requires some { 1 ≤ lanes }
    requires lanes { lanes ≤ 64 }
    ensures { IfOk result (λ l. (granted : ℕ) × (1 ≤ granted) × (granted ≤ k) × (l ≡ record { most = granted; lanes = lanes; items = items; seats = [] })) }
{
    for refused in 0..k {
        if let Ok(lines) = IndexedLanes::open(alloc, items, k - refused, lanes) {
            return Ok(lines);
        }
    }
    Err(AllocError)
}
