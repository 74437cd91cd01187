ghost use Rattle.std.specs.Prelude.{◌≡◌, ◌≤◌, ◌-◌, length, slice_set};
ghost use Rattle.shadow_forest.specs.Kept.{room_at};

use std::alloc::Global;
use std::mem;
use txn_runs::EmitRoom;

/// Takes out the room of a transaction, of which number 1 stands first, and leaves room for none.
pub(crate) fn take_room(rooms: &mut Vec<EmitRoom>, txn: u32, alloc: Global) -> EmitRoom
    requires least { 1 ≤ txn }
    requires most { txn ≤ length rooms.old.items }
    ensures room { result ≡ room_at rooms.old.items txn }
    ensures left { rooms.new.items ≡ slice_set rooms.old.items (txn - 1) 0 }
{
    mem::replace(&mut rooms[txn as usize - 1], EmitRoom::none(alloc))
}

/// Gives the room of a transaction back, and leaves room for none.
pub(crate) fn free_room(rooms: &mut Vec<EmitRoom>, txn: u32, alloc: Global)
    requires least { 1 ≤ txn }
    requires most { txn ≤ length rooms.old.items }
    ensures { rooms.new.items ≡ slice_set rooms.old.items (txn - 1) 0 }
{
    rooms[txn as usize - 1] = EmitRoom::none(alloc);
}
