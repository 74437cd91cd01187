// The fields of a row, judged.
ghost use Rattle.std.specs.Prelude.{◌≡◌, ◌≤◌, ◌↔◌, IsTrue, slice_index_or, [], ◌∷◌, ℕ, codes, decimal, MatchOption};
ghost use Rattle.csv.specs.Records.{fields_of};
ghost use Rattle.journal_table.specs.Judged.{IsRead};

use csv::ByteRecord;
use itoa::Buffer;
use scc_text::read_natural;

/// A row of the form of an entry's.
#[derive(Clone, Copy)]
pub(crate) enum Row<'a> {
    Began {
        txn: u64,
        deadline: u64,
        spelling: &'a [u8],
    },
    Sealed,
    Committed {
        txn: u64,
        words: &'a [u8],
    },
    Withdrawn {
        txn: u64,
    },
}

/// What the fields of a row say, where they have the form of an entry's; a transaction's number has 64 bits.
pub(crate) fn read_row(row: &ByteRecord) -> Option<Row<'_>>
    ensures { IsRead (fields_of row.now) result }
{
    if row.len() != 4 {
        return None;
    }
    read_fields(field(row, 0), field(row, 1), field(row, 2), field(row, 3))
}

/// A field by its place; no bytes where the row has fewer.
pub(crate) fn field(row: &ByteRecord, place: usize) -> &[u8]
    ensures { result.now ≡ slice_index_or (fields_of row.now) place [] }
{
    match row.get(place) {
        Some(field) => field,
        None => b"",
    }
}

fn read_fields<'a>(entry: &[u8], txn: &[u8], deadline: &[u8], detail: &'a [u8]) -> Option<Row<'a>>
    ensures { IsRead (entry.now ∷ txn.now ∷ deadline.now ∷ detail.now ∷ []) result }
{
    if is_same(entry, b"began") {
        return read_begun(txn, deadline, detail);
    }
    if is_same(entry, b"committed") {
        return read_committed(txn, deadline, detail);
    }
    if is_same(entry, b"withdrawn") {
        return read_withdrawn(txn, deadline, detail);
    }
    if is_same(entry, b"sealed") {
        return read_sealed(txn, deadline, detail);
    }
    None
}

fn read_begun<'a>(txn: &[u8], deadline: &[u8], detail: &'a [u8]) -> Option<Row<'a>>
    ensures { IsRead (codes "began" ∷ txn.now ∷ deadline.now ∷ detail.now ∷ []) result }
{
    let txn = read_number(txn, u64::MAX)?;
    let deadline = read_number(deadline, 1_000_000_000_000)?;
    Some(Row::Began {
        txn,
        deadline,
        spelling: detail,
    })
}

fn read_committed<'a>(txn: &[u8], deadline: &[u8], detail: &'a [u8]) -> Option<Row<'a>>
    ensures { IsRead (codes "committed" ∷ txn.now ∷ deadline.now ∷ detail.now ∷ []) result }
{
    if !deadline.is_empty() {
        return None;
    }
    let txn = read_number(txn, u64::MAX)?;
    Some(Row::Committed { txn, words: detail })
}

fn read_withdrawn<'a>(txn: &[u8], deadline: &[u8], detail: &'a [u8]) -> Option<Row<'a>>
    ensures { IsRead (codes "withdrawn" ∷ txn.now ∷ deadline.now ∷ detail.now ∷ []) result }
{
    if !deadline.is_empty() || !detail.is_empty() {
        return None;
    }
    let txn = read_number(txn, u64::MAX)?;
    Some(Row::Withdrawn { txn })
}

fn read_sealed<'a>(txn: &[u8], deadline: &[u8], detail: &'a [u8]) -> Option<Row<'a>>
    ensures { IsRead (codes "sealed" ∷ txn.now ∷ deadline.now ∷ detail.now ∷ []) result }
{
    if !txn.is_empty() || !deadline.is_empty() || !detail.is_empty() {
        return None;
    }
    Some(Row::Sealed)
}

/// Whether two texts are the same.
pub(crate) fn is_same(field: &[u8], text: &[u8]) -> bool
    ensures { IsTrue result ↔ (field.now ≡ text.now) }
{
    field == text
}

// The number up to this one that a field spells without leading zeros.
fn read_number(field: &[u8], most: u64) -> Option<u64>
    ensures { MatchOption result ((n : ℕ) → n ≤ most → field.now ≡ decimal n → ⊥) (λ n. (n ≤ most) × (field.now ≡ decimal n)) }
{
    let Some(number) = read_natural(field) else {
        return None;
    };
    if number > most {
        return None;
    }
    let mut buffer = Buffer::new();
    if is_same(buffer.format(number).as_bytes(), field) {
        Some(number)
    } else {
        None
    }
}
