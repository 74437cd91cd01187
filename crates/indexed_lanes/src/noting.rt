// What a transaction has read and written, noted at its place.
ghost use Rattle.std.specs.Prelude.{◌≡◌, ◌≢◌, ◌<◌, ℕ, false, [], length, None};
ghost use Rattle.conflict_index.specs.Index.{lane_at, is_marked, point_at, forgotten, lanes_with};
ghost use Rattle.index_laws.specs.Noted.{noted, written, lane_of_run};
ghost use Rattle.indexed_lanes.specs.Noted.{lane_after, IsKindWithin};
ghost use Rattle.indexed_lanes.specs.Placed.{AreUnmoved};

use crate::placed::PlacedIndex;
use access_sets::{ReadLog, WriteSet};
use txn_interp::{Kind, State};

/// Notes at a place a step of this kind, which was made at this position.
pub fn note_step(index: &mut PlacedIndex, place: u32, position: u32, kind: Kind)
    requires place { place < length index.old.lanes }
    requires within { IsKindWithin index.old.items kind }
    ensures items { index.new.items ≡ index.old.items }
    ensures lanes { index.new.lanes ≡ lanes_with index.old place (lane_after kind position (lane_at index.old place)) }
    ensures marks { length index.new.marks ≡ length index.old.marks }
    ensures unmoved { AreUnmoved index.old index.new }
{
    match kind {
        Kind::TableRead { item } => index.note_read(place, position, item),
        Kind::Write { item, .. } => index.note_write(place, item),
        Kind::Local | Kind::Ended => {}
    }
}

/// Forgets what was noted at a place, and notes what this state's run has read and written.
pub fn note_anew(index: &mut PlacedIndex, place: u32, state: &State)
    requires place { place < length index.old.lanes }
    requires room { state.now.log.room ≡ index.old.items }
    ensures items { index.new.items ≡ index.old.items }
    ensures lanes { index.new.lanes ≡ lanes_with index.old place (lane_of_run state.now.log.reads state.now.writes) }
    ensures marks { length index.new.marks ≡ length index.old.marks }
    ensures unmoved { AreUnmoved index.old index.new }
    ensures gone { is_marked index.new place ≡ false → (writer : ℕ) → writer < length index.old.lanes → writer ≢ place → point_at index.old place writer ≡ None }
{
    index.forget(place);
    note_reads(index, place, state.reads());
    note_writes(index, place, state.writes());
}

// Notes the reads of a log at a place where nothing is noted.
fn note_reads(index: &mut PlacedIndex, place: u32, log: &ReadLog)
    requires place { place < length index.old.lanes }
    requires room { log.now.room ≡ index.old.items }
    requires empty { lane_at index.old place ≡ forgotten }
    ensures items { index.new.items ≡ index.old.items }
    ensures lanes { index.new.lanes ≡ lanes_with index.old place (record { reads = noted log.now.reads; writes = [] }) }
    ensures marks { length index.new.marks ≡ length index.old.marks }
    ensures unmoved { AreUnmoved index.old index.new }
{
    for i in 0..log.len() {
        let (position, item, _) = log.nth(i);
        index.note_read(place, position, item);
    }
}

// Notes the items that were written at a place where no write is noted.
fn note_writes(index: &mut PlacedIndex, place: u32, writes: &WriteSet)
    requires place { place < length index.old.lanes }
    requires room { length writes.now ≡ index.old.items }
    requires empty { (lane_at index.old place).writes ≡ [] }
    ensures items { index.new.items ≡ index.old.items }
    ensures lanes { index.new.lanes ≡ lanes_with index.old place (record { reads = (lane_at index.old place).reads; writes = written writes.now }) }
    ensures marks { length index.new.marks ≡ length index.old.marks }
    ensures unmoved { AreUnmoved index.old index.new }
{
    for i in 0..writes.len() {
        let (item, _) = writes.nth(i);
        index.note_write(place, item);
    }
}
