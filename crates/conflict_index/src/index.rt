ghost use Rattle.std.specs.Prelude.{◌≡◌, ◌≢◌, ℕ, ◌+◌, ◌*◌, ◌<◌, ◌≤◌, ◌++◌, ◌∷◌, [], length, replicate, true, false, IsTrue, ◌↔◌, Option, Some, None, IfOk};
ghost use Rattle.std.specs.List.{AllByRecursion};
ghost use Rattle.conflict_index.specs.Index.{lane_at, is_marked, is_sooner, point_at, forgotten, with_read, with_write, lanes_with, MarksMoved, Fills};

use crate::mask::{contains, union, with, with_where, without, without_each};
use crate::points::{cell, empty_column, empty_row, has_empty, lower_column, lower_row};
use std::alloc::{AllocError, Global};
use std::marker::Model;

/// What lanes have read and written, seen as the lists of it, with the point of each lane against each other one at
/// hand, and a mark at each lane of which a point has moved. All memory is taken once.
#[derive(Drop)]
pub struct Index {
    lanes: u32,
    // at each item the lanes that have read it
    readers: Vec<u64>,
    // at each item the lanes that have written it
    writers: Vec<u64>,
    // at each item and lane the position of the read, where there is one
    positions: Vec<u32>,
    // at each reading lane and writing lane the point
    points: Vec<Option<u32>>,
    // the lanes that are marked
    marks: u64,
}

impl Model for Index {
    ghost use Rattle.conflict_index.specs.Index as of;
    ghost use Rattle.conflict_index.specs.Kept.{index_of, IsKept};

    ghost Value = { of.Index };

    ghost view = { λ i. index_of i.lanes i.readers.items i.writers.items i.positions.items i.marks };

    ghost invariant = { λ i. IsKept i.lanes i.readers.items i.writers.items i.positions.items i.points.items };
}

impl Index {
    /// The index of lanes that have read and written nothing, for so many items, at most 1,024, and 1 to 64 lanes. No
    /// later call takes memory.
    ///
    /// # Errors
    /// Where memory runs out.
    pub fn open(alloc: Global, items: u32, lanes: u32) -> Result<Index, AllocError>
        requires items { items ≤ 1024 }
        requires lanes { (1 ≤ lanes) × (lanes ≤ 64) }
        ensures { IfOk result (λ index. index ≡ record { items = items; lanes = replicate lanes forgotten; marks = replicate lanes false }) }
    {
        let readers = vec![in alloc; 0u64; items as usize]?;
        let writers = vec![in alloc; 0u64; items as usize]?;
        let positions = vec![in alloc; 0u32; items as usize * lanes as usize]?;
        let points = vec![in alloc; None; lanes as usize * lanes as usize]?;
        Ok(Index {
            lanes,
            readers,
            writers,
            positions,
            points,
            marks: 0,
        })
    }

    /// Adds a read to a lane: its position and its item. One of an item that the lane has read already changes nothing.
    pub fn note_read(&mut self, lane: u32, position: u32, item: u32)
        requires lane { lane < length self.old.lanes }
        requires item { item < self.old.items }
        ensures items { self.new.items ≡ self.old.items }
        ensures lanes { self.new.lanes ≡ lanes_with self.old lane (with_read (lane_at self.old lane) (position, item)) }
        ensures last { AllByRecursion (λ read. (read.1 ≢ item) × (is_sooner read (position, item) ≡ true)) (lane_at self.old lane).reads
            → (lane_at self.new lane).reads ≡ (lane_at self.old lane).reads ++ (position, item) ∷ [] }
        ensures marks { MarksMoved self.old self.new }
    {
        let place = item as usize;
        let lanes = self.lanes;
        if !contains(self.readers[place], lane) {
            self.readers[place] = with(self.readers[place], lane);
            self.positions[cell(item, lanes, lane)] = position;
            let writers = without(self.writers[place], lane);
            let moved = lower_row(&mut self.points, cell(lane, lanes, 0), writers, position);
            self.marks = with_where(self.marks, lane, moved != 0);
        }
    }

    /// Adds an item to what a lane has written. One that is there changes nothing.
    pub fn note_write(&mut self, lane: u32, item: u32)
        requires lane { lane < length self.old.lanes }
        requires item { item < self.old.items }
        ensures items { self.new.items ≡ self.old.items }
        ensures lanes { self.new.lanes ≡ lanes_with self.old lane (with_write (lane_at self.old lane) item) }
        ensures marks { MarksMoved self.old self.new }
    {
        let place = item as usize;
        let lanes = self.lanes;
        if !contains(self.writers[place], lane) {
            self.writers[place] = with(self.writers[place], lane);
            let start = cell(item, lanes, 0);
            let positions = &self.positions[start..start + lanes as usize];
            let readers = without(self.readers[place], lane);
            let moved = lower_column(&mut self.points, lanes, lane, readers, positions);
            self.marks = union(self.marks, moved);
        }
    }

    /// Forgets what a lane has read and written.
    pub fn forget(&mut self, lane: u32)
        requires lane { lane < length self.old.lanes }
        ensures items { self.new.items ≡ self.old.items }
        ensures lanes { self.new.lanes ≡ lanes_with self.old lane forgotten }
        ensures marks { MarksMoved self.old self.new }
    {
        without_each(&mut self.readers, lane);
        without_each(&mut self.writers, lane);
        let own = empty_row(&mut self.points, self.lanes, lane);
        let others = empty_column(&mut self.points, self.lanes, lane);
        self.marks = with_where(union(self.marks, others), lane, own != 0);
    }

    /// The point of a lane against another: the least position of a read of the one whose item the other has written,
    /// where there is one.
    pub fn point_of(&self, reader: u32, writer: u32) -> Option<u32>
        requires reader { reader < length self.now.lanes }
        requires writer { writer < length self.now.lanes }
        requires different { reader ≢ writer }
        ensures { result ≡ point_at self.now reader writer }
    {
        self.points[cell(reader, self.lanes, writer)]
    }

    /// Whether a read of the item, behind all others of the lane, would give the lane a point against one against which
    /// it has none.
    pub fn fills(&self, lane: u32, item: u32) -> bool
        requires lane { lane < length self.now.lanes }
        requires item { item < self.now.items }
        ensures { IsTrue result ↔ Fills self.now lane item }
    {
        let writers = without(self.writers[item as usize], lane);
        has_empty(&self.points, cell(lane, self.lanes, 0), writers)
    }

    /// Whether a point of the lane has moved since the marks were settled.
    pub fn changed(&self, lane: u32) -> bool
        requires { lane < length self.now.lanes }
        ensures { result ≡ is_marked self.now lane }
    {
        contains(self.marks, lane)
    }

    /// Takes the mark from every lane.
    pub fn settled(&mut self)
        ensures { self.new ≡ record self.old { marks = replicate (length self.old.lanes) false } }
    {
        self.marks = 0;
    }
}
