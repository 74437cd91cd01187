// Points that lie at places, and the lanes whose points a call changes.

ghost use Rattle.std.specs.Prelude.{◌≡◌, ◌≢◌, true, ℕ, ◌+◌, ◌*◌, ◌<◌, ◌≤◌, length, nat_lt, Option, Some, None, slice_index_or, slice_set, IsTrue, ◌↔◌};
ghost use Rattle.conflict_index.specs.Index.{less_or};
ghost use Rattle.conflict_index.specs.Masks.{has};
ghost use Rattle.conflict_index.specs.Kept.{AreChanged};

use crate::mask::{first, with_where, without};

// Where the entry of a row and a column lies, in rows of so many columns.
pub fn cell(row: u32, columns: u32, column: u32) -> usize
    requires few { columns ≤ 64 }
    requires column { column < columns }
    ensures { result ≡ row * columns + column }
{
    row as usize * columns as usize + column as usize
}

// Lowers the point at a place to the position, where it is empty or greater, and whether it was.
fn lower(points: &mut [Option<u32>], place: usize, position: u32) -> bool
    requires { place < length points.old }
    ensures lowered { points.new ≡ slice_set points.old place (Some (less_or (slice_index_or points.old place None) position)) }
    ensures moved { IsTrue result ↔ (slice_index_or points.new place None ≢ slice_index_or points.old place None) }
{
    match points[place] {
        Some(old) if old <= position => false,
        _ => {
            points[place] = Some(position);
            true
        }
    }
}

// Lowers the points of the row that begins at a place, at the lanes of the mask, to the position; the lanes where that
// changed one.
pub fn lower_row(points: &mut [Option<u32>], start: usize, writers: u64, position: u32) -> u64
    requires { (writer : ℕ) → has writers writer ≡ true → start + writer < length points.old }
    ensures { AreChanged (has writers) (λ writer. start + writer) (λ writer point. Some (less_or point position)) points.old points.new result }
{
    let mut moved = 0;
    let mut left = writers;
    while left != 0 {
        let writer = first(left);
        let changed = lower(points, start + writer as usize, position);
        moved = with_where(moved, writer, changed);
        left = without(left, writer);
    }
    moved
}

// Whether a point of the row that begins at a place is empty, at a lane of the mask.
pub fn has_empty(points: &[Option<u32>], start: usize, writers: u64) -> bool
    requires { (writer : ℕ) → has writers writer ≡ true → start + writer < length points.now }
    ensures { IsTrue result ↔ ((writer : ℕ) × (has writers writer ≡ true) × (slice_index_or points.now (start + writer) None ≡ None)) }
{
    let mut left = writers;
    while left != 0 {
        let writer = first(left);
        if points[start + writer as usize].is_none() {
            return true;
        }
        left = without(left, writer);
    }
    false
}

// Lowers the points against a writer, of the lanes of the mask, each to its position; the lanes where that changed one.
pub fn lower_column(
    points: &mut [Option<u32>],
    lanes: u32,
    writer: u32,
    readers: u64,
    positions: &[u32],
) -> u64
    requires few { lanes ≤ 64 }
    requires writer { writer < lanes }
    requires readers { (reader : ℕ) → has readers reader ≡ true → reader < lanes }
    requires positions { length positions.now ≡ lanes }
    requires square { length points.old ≡ lanes * lanes }
    ensures { AreChanged (has readers) (λ reader. reader * lanes + writer) (λ reader point. Some (less_or point (slice_index_or positions.now reader 0))) points.old points.new result }
{
    let mut moved = 0;
    let mut left = readers;
    while left != 0 {
        let reader = first(left);
        let changed = lower(
            points,
            cell(reader, lanes, writer),
            positions[reader as usize],
        );
        moved = with_where(moved, reader, changed);
        left = without(left, reader);
    }
    moved
}

// Empties the point at a place, and whether there was one.
fn empty(points: &mut [Option<u32>], place: usize) -> bool
    requires { place < length points.old }
    ensures emptied { points.new ≡ slice_set points.old place None }
    ensures moved { IsTrue result ↔ (slice_index_or points.new place None ≢ slice_index_or points.old place None) }
{
    let was = points[place].is_some();
    points[place] = None;
    was
}

// Empties the points of a lane; the lanes against which it had one.
pub fn empty_row(points: &mut [Option<u32>], lanes: u32, reader: u32) -> u64
    requires few { lanes ≤ 64 }
    requires reader { reader < lanes }
    requires square { length points.old ≡ lanes * lanes }
    ensures { AreChanged (λ writer. nat_lt writer lanes) (λ writer. reader * lanes + writer) (λ writer point. None) points.old points.new result }
{
    let mut moved = 0;
    for writer in 0..lanes {
        let changed = empty(points, cell(reader, lanes, writer));
        moved = with_where(moved, writer, changed);
    }
    moved
}

// Empties the points against a lane; the lanes that had one.
pub fn empty_column(points: &mut [Option<u32>], lanes: u32, writer: u32) -> u64
    requires few { lanes ≤ 64 }
    requires writer { writer < lanes }
    requires square { length points.old ≡ lanes * lanes }
    ensures { AreChanged (λ reader. nat_lt reader lanes) (λ reader. reader * lanes + writer) (λ reader point. None) points.old points.new result }
{
    let mut moved = 0;
    for reader in 0..lanes {
        let changed = empty(points, cell(reader, lanes, writer));
        moved = with_where(moved, reader, changed);
    }
    moved
}
