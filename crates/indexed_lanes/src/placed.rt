ghost use Rattle.std.specs.Prelude.{◌≡◌, ◌≢◌, ◌<◌, ◌≤◌, ◌↔◌, replicate, false, length, IfOk, IsTrue};
ghost use Rattle.std.specs.Vec.{vec_capacity};
ghost use Rattle.conflict_index.specs.Index.{lane_at, is_marked, point_at, forgotten, with_read, with_write, lanes_with, Fills};
ghost use Rattle.shadow_lanes.specs.Kept.{AreAll};
ghost use Rattle.indexed_lanes.specs.Placed.{moved, AreUnmoved};

use conflict_index::Index;
use std::alloc::{AllocError, Global};
use std::marker::Model;

/// An index whose lanes stand in an order that can be changed, seen with the lanes at their places in it.
#[derive(Drop)]
pub struct PlacedIndex {
    index: Index,
    // at each place the lane of the index that stands there
    order: Vec<u32>,
}

impl Model for PlacedIndex {
    ghost use Rattle.std.specs.Prelude.{length};
    ghost use Rattle.std.specs.Vec.{vec_capacity};
    ghost use Rattle.conflict_index.specs.Index as of;
    ghost use Rattle.shadow_lanes.specs.Kept.{AreAll};
    ghost use Rattle.indexed_lanes.specs.Placed.{in_places};

    ghost Value = { of.Index };

    ghost view = { λ p. in_places p.index p.order.items };

    ghost invariant = { λ p. AreAll (length p.index.lanes) p.order.items (vec_capacity p.order) };
}

impl PlacedIndex {
    /// The index of so many lanes, 1 to 64, that have read and written nothing, for so many items, at most 1,024. No later call takes
    /// memory.
    ///
    /// # Errors
    /// Where memory runs out.
    pub fn open(alloc: Global, items: u32, lanes: u32) -> Result<PlacedIndex, AllocError>
        requires items { items ≤ 1024 }
        requires lanes { (1 ≤ lanes) × (lanes ≤ 64) }
        ensures { IfOk result (λ p. p ≡ record { items = items; lanes = replicate lanes forgotten; marks = replicate lanes false }) }
    {
        let index = Index::open(alloc, items, lanes)?;
        let order = all_lanes(alloc, lanes)?;
        Ok(PlacedIndex { index, order })
    }

    /// Adds a read to the lane at a place: its position and its item.
    pub fn note_read(&mut self, place: u32, position: u32, item: u32)
        requires place { place < length self.old.lanes }
        requires item { item < self.old.items }
        ensures items { self.new.items ≡ self.old.items }
        ensures lanes { self.new.lanes ≡ lanes_with self.old place (with_read (lane_at self.old place) (position, item)) }
        ensures marks { length self.new.marks ≡ length self.old.marks }
        ensures unmoved { AreUnmoved self.old self.new }
    {
        let lane = self.order[place as usize];
        self.index.note_read(lane, position, item);
    }

    /// Adds an item to what the lane at a place has written.
    pub fn note_write(&mut self, place: u32, item: u32)
        requires place { place < length self.old.lanes }
        requires item { item < self.old.items }
        ensures items { self.new.items ≡ self.old.items }
        ensures lanes { self.new.lanes ≡ lanes_with self.old place (with_write (lane_at self.old place) item) }
        ensures marks { length self.new.marks ≡ length self.old.marks }
        ensures unmoved { AreUnmoved self.old self.new }
    {
        let lane = self.order[place as usize];
        self.index.note_write(lane, item);
    }

    /// Forgets what the lane at a place has read and written.
    pub fn forget(&mut self, place: u32)
        requires place { place < length self.old.lanes }
        ensures items { self.new.items ≡ self.old.items }
        ensures lanes { self.new.lanes ≡ lanes_with self.old place forgotten }
        ensures marks { length self.new.marks ≡ length self.old.marks }
        ensures unmoved { AreUnmoved self.old self.new }
    {
        let lane = self.order[place as usize];
        self.index.forget(lane);
    }

    /// The point of the lane at a place against the one at another.
    pub fn point_of(&self, reader: u32, writer: u32) -> Option<u32>
        requires reader { reader < length self.now.lanes }
        requires writer { writer < length self.now.lanes }
        requires different { reader ≢ writer }
        ensures { result ≡ point_at self.now reader writer }
    {
        let from = self.order[reader as usize];
        let to = self.order[writer as usize];
        self.index.point_of(from, to)
    }

    /// Whether a read of the item, behind all others of the lane at a place, would give it a point against one against which it has none.
    pub fn fills(&self, place: u32, item: u32) -> bool
        requires place { place < length self.now.lanes }
        requires item { item < self.now.items }
        ensures { IsTrue result ↔ Fills self.now place item }
    {
        self.index.fills(self.order[place as usize], item)
    }

    /// Whether a point of the lane at a place has moved since the marks were settled.
    pub fn changed(&self, place: u32) -> bool
        requires { place < length self.now.lanes }
        ensures { result ≡ is_marked self.now place }
    {
        self.index.changed(self.order[place as usize])
    }

    /// Takes the mark from every lane.
    pub fn settled(&mut self)
        ensures { self.new ≡ record self.old { marks = replicate (length self.old.marks) false } }
    {
        self.index.settled();
    }

    /// The lane at a place stands at another from now on, and those between them each one place on.
    pub fn move_to(&mut self, from: u32, to: u32)
        requires from { from < length self.old.lanes }
        requires to { to < length self.old.lanes }
        ensures items { self.new.items ≡ self.old.items }
        ensures lanes { self.new.lanes ≡ moved from to self.old.lanes }
        ensures marks { self.new.marks ≡ moved from to self.old.marks }
    {
        let lane = self.order.remove(from as usize);
        let _placed = self.order.insert(to as usize, lane);
    }
}

// The numbers of all lanes, with room for as many.
fn all_lanes(alloc: Global, lanes: u32) -> Result<Vec<u32>, AllocError>
    ensures { IfOk result (λ v. AreAll lanes v.items (vec_capacity v)) }
{
    let mut order = Vec::with_capacity(alloc, lanes as usize)?;
    for lane in 0..lanes {
        order.push_reserved(lane);
    }
    Ok(order)
}
