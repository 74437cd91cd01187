// Rows as text.
ghost use Rattle.std.specs.Prelude.{◌≡◌, ◌++◌, ◌∷◌, [], map, drop, codes, decimal, Some, OnOk, OnErr, IfOk};
ghost use Rattle.std.specs.List.{AllByRecursion};
ghost use Rattle.csv.specs.Writing.{text_written};
ghost use Rattle.txn_spelling.specs.Canonical.{canonical};
ghost use Rattle.txn_spelling.specs.Strangers.{strangers};
ghost use Rattle.journal_core.specs.Reply.{outcome_words};
ghost use Rattle.journal_table.specs.Rows.{row_of, record_text, journal_text, IsKnown};
ghost use Rattle.journal_table.specs.Writes.{IsBetween, PutsRows};

use csv::Writer;
use itoa::Buffer;
use journal_core::{Entry, Journal, put_reply};
use std::alloc::{AllocError, Global};
use txn_names::Names;
use txn_runs::{Outcome, Program};
use txn_spelling::write_program;

/// Appends the row of an entry, as `csv` writes it, without its newline. The tables of the entry's program are those of the names.
/// After want of memory `out` is as before.
pub fn put_record(names: &Names, entry: &Entry, out: &mut Vec<u8>) -> Result<(), AllocError>
    requires { IsKnown names.now entry.now }
    ensures ok { OnOk result (out.new.items ≡ out.old.items ++ record_text names.now entry.now) }
    ensures err { OnErr result (out.new.items ≡ out.old.items) }
{
    let alloc = *out.allocator();
    let mut writer = Writer::from_writer(Vec::new(alloc));
    put_entry(alloc, names, entry, &mut writer)?;
    let mut text = text_of(writer)?;
    // a row of four fields ends with a newline alone
    let _newline = text.pop();
    out.extend_from_slice(&text)
}

/// Appends the text of a journal: the heading, and a row for each entry. The tables of its programs are those of the names. After want
/// of memory `out` is as before.
pub fn write_journal(names: &Names, journal: &Journal, out: &mut Vec<u8>) -> Result<(), AllocError>
    requires { AllByRecursion (IsKnown names.now) journal.now.entries }
    ensures ok { OnOk result (out.new.items ≡ out.old.items ++ journal_text names.now journal.now.entries) }
    ensures err { OnErr result (out.new.items ≡ out.old.items) }
{
    let alloc = *out.allocator();
    let mut writer = Writer::from_writer(Vec::new(alloc));
    put_row(&mut writer, b"entry", b"txn", b"deadline", b"detail")?;
    put_entries(alloc, names, journal, &mut writer)?;
    let text = text_of(writer)?;
    out.extend_from_slice(&text)
}

// Writes the row of each entry.
fn put_entries(
    alloc: Global,
    names: &Names,
    journal: &Journal,
    writer: &mut Writer<Vec<u8>>,
) -> Result<(), AllocError>
    requires known { AllByRecursion (IsKnown names.now) journal.now.entries }
    requires between { IsBetween writer.old }
    ensures { OnOk result (PutsRows (λ v. Some v.items) writer.old writer.new (map (row_of names.now) journal.now.entries)) }
{
    for place in 0..journal.len() {
        put_entry(alloc, names, journal.entry(place), writer)?;
    }
    Ok(())
}

// Writes the row of an entry.
fn put_entry(
    alloc: Global,
    names: &Names,
    entry: &Entry,
    writer: &mut Writer<Vec<u8>>,
) -> Result<(), AllocError>
    requires known { IsKnown names.now entry.now }
    requires between { IsBetween writer.old }
    ensures { OnOk result (PutsRows (λ v. Some v.items) writer.old writer.new (row_of names.now entry.now ∷ [])) }
{
    match entry {
        Entry::Began {
            txn,
            deadline,
            program,
        } => put_began(alloc, names, *txn, *deadline, program, writer),
        Entry::Sealed => put_row(writer, b"sealed", b"", b"", b""),
        Entry::Committed { txn, outcome } => put_committed(alloc, *txn, outcome, writer),
        Entry::Withdrawn { txn } => {
            let mut number = Buffer::new();
            put_row(
                writer,
                b"withdrawn",
                number.format(*txn).as_bytes(),
                b"",
                b"",
            )
        }
    }
}

fn put_began(
    alloc: Global,
    names: &Names,
    txn: u32,
    deadline: u64,
    program: &Program,
    writer: &mut Writer<Vec<u8>>,
) -> Result<(), AllocError>
    requires known { strangers names.now program.now ≡ 0 }
    requires between { IsBetween writer.old }
    ensures { OnOk result (PutsRows (λ v. Some v.items) writer.old writer.new ((codes "began" ∷ decimal txn ∷ decimal deadline ∷ canonical names.now program.now ∷ []) ∷ [])) }
{
    let mut spelling = Vec::new(alloc);
    write_program(names, program, &mut spelling)?;
    let (mut number, mut time) = (Buffer::new(), Buffer::new());
    put_row(
        writer,
        b"began",
        number.format(txn).as_bytes(),
        time.format(deadline).as_bytes(),
        &spelling,
    )
}

fn put_committed(
    alloc: Global,
    txn: u32,
    outcome: &Outcome,
    writer: &mut Writer<Vec<u8>>,
) -> Result<(), AllocError>
    requires { IsBetween writer.old }
    ensures { OnOk result (PutsRows (λ v. Some v.items) writer.old writer.new ((codes "committed" ∷ decimal txn ∷ [] ∷ outcome_words outcome.now ∷ []) ∷ [])) }
{
    let words = words_of(alloc, outcome)?;
    let mut number = Buffer::new();
    put_row(
        writer,
        b"committed",
        number.format(txn).as_bytes(),
        b"",
        &words,
    )
}

/// How a run ended, as the words of a commit line behind the number.
pub(crate) fn words_of(alloc: Global, outcome: &Outcome) -> Result<Vec<u8>, AllocError>
    ensures { IfOk result (λ words. words.items ≡ outcome_words outcome.now) }
{
    let mut line = Vec::new(alloc);
    put_reply(0, outcome, &mut line)?;
    let _newline = line.pop();
    Vec::from_slice(alloc, behind(&line, b"commit 0 ".len()))
}

// The bytes behind the first so many.
fn behind(bytes: &[u8], front: usize) -> &[u8]
    ensures { result.now ≡ drop front bytes.now }
{
    &bytes[front.min(bytes.len())..]
}

// Writes a row of four fields.
fn put_row(
    writer: &mut Writer<Vec<u8>>,
    entry: &[u8],
    txn: &[u8],
    deadline: &[u8],
    detail: &[u8],
) -> Result<(), AllocError>
    requires { IsBetween writer.old }
    ensures { OnOk result (PutsRows (λ v. Some v.items) writer.old writer.new ((entry.now ∷ txn.now ∷ deadline.now ∷ detail.now ∷ []) ∷ [])) }
{
    match writer.write_fields(&[entry, txn, deadline, detail]) {
        Ok(()) => Ok(()),
        Err(_) => Err(AllocError),
    }
}

// What a writer between two rows has written.
fn text_of(writer: Writer<Vec<u8>>) -> Result<Vec<u8>, AllocError>
    ensures { IfOk result (λ text. text_written (λ v. Some v.items) writer ≡ Some text.items) }
{
    match writer.into_inner() {
        Ok(text) => Ok(text),
        Err(_) => Err(AllocError),
    }
}
