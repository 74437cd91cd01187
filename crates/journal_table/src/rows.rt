// The rows of bytes in memory.
ghost use Rattle.std.specs.Prelude.{◌≡◌, ◌↔◌, IsTrue, [], ◌∷◌, Some, IfOk, OnOk, MatchOption};
ghost use Rattle.csv.specs.Reading.{ReadRecord, reader_state, source_of, strip_bom};
ghost use Rattle.csv.specs.Records.{fields_of};
ghost use Rattle.csv.specs.declared.parser.State.TheVariants as st;
ghost use Rattle.journal_table.specs.Rows.{Row, heading};
ghost use Rattle.journal_table.specs.Spelled.{rows_in, IsReading};

use crate::read::{field, is_same};
use csv::{ByteRecord, Reader, ReaderBuilder};
use std::alloc::{AllocError, Global};

/// A reader of the rows of these bytes.
pub fn open_rows(alloc: Global, bytes: &[u8]) -> Reader<&[u8]>
    ensures reading { IsReading result }
    ensures source { source_of (λ s. Some s.now) result ≡ Some (strip_bom bytes.now) }
    ensures start { reader_state result ≡ st.StartRecord }
{
    ReaderBuilder::new()
        .has_headers(false)
        .flexible(true)
        .from_reader(alloc, bytes)
}

/// Reads the next row, and tells whether there was one. Over bytes in memory a reading fails for want of memory alone.
pub fn next_row(reader: &mut Reader<&[u8]>, row: &mut ByteRecord) -> Result<bool, AllocError>
    requires { IsReading reader.old }
    ensures reads { IfOk result (λ found. ReadRecord (λ s. Some s.now) reader.old reader.new found (fields_of row.new)) }
    ensures reading { OnOk result (IsReading reader.new) }
{
    match reader.read_byte_record(row) {
        Ok(found) => Ok(found),
        Err(_) => Err(AllocError),
    }
}

/// Whether a row is the heading of a journal.
pub fn is_heading(row: &ByteRecord) -> bool
    ensures { IsTrue result ↔ (fields_of row.now ≡ heading) }
{
    row.len() == 4
        && is_same(field(row, 0), b"entry")
        && is_same(field(row, 1), b"txn")
        && is_same(field(row, 2), b"deadline")
        && is_same(field(row, 3), b"detail")
}

/// The row that the bytes are, where they are one.
pub(crate) fn only_row(alloc: Global, bytes: &[u8]) -> Result<Option<ByteRecord>, AllocError>
    ensures { IfOk result (λ only. MatchOption only ((row : Row) → rows_in bytes.now ≡ row ∷ [] → ⊥) (λ row. rows_in bytes.now ≡ fields_of row ∷ [])) }
{
    let mut reader = open_rows(alloc, bytes);
    let mut row = ByteRecord::new(alloc);
    let mut more = ByteRecord::new(alloc);
    if !next_row(&mut reader, &mut row)? {
        return Ok(None);
    }
    if next_row(&mut reader, &mut more)? {
        return Ok(None);
    }
    Ok(Some(row))
}
