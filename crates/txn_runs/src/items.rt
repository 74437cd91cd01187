ghost use Rattle.std.specs.Prelude.{◌≡◌, ◌<◌, ◌+◌, IfOk};
ghost use Rattle.txn_runs.specs.Run.{item_at};

use crate::outcome::FaultKind;
use crate::program::TableRef;

/// The item at a place of a table, whose places begin with 0: an item of the table, by its number among those of all tables.
///
/// # Errors
/// `FaultKind::Range` where the place is negative, or not below the table's size.
pub fn item_at(table: TableRef, place: i64) -> Result<u64, FaultKind>
    ensures item { result ≡ item_at table place }
    ensures within { IfOk result (λ item. item < table.base + table.size) }
{
    if place < 0 || place >= i64::from(table.size) {
        Err(FaultKind::Range)
    } else {
        Ok(u64::from(table.base) + place as u64)
    }
}
