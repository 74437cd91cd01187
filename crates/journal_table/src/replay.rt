// A journal that is taken in row by row.
ghost use Rattle.std.specs.Prelude.{◌≡◌, ◌≤◌, ℕ, true, false, List, [], ◌∷◌, codes, decimal, length, IfOk, OnErr, MatchOption};
ghost use Rattle.csv.specs.Records.{fields_of};
ghost use Rattle.txn_names.specs.Tables.{Named, items_of};
ghost use Rattle.journal_core.specs.Journal.{is_live, program_of, tables_after};
ghost use Rattle.journal_table.specs.Replayed.{TakesRow, TakesBytes, IsBegin};

use crate::read::{Row, is_same, read_row};
use crate::rows::only_row;
use crate::write::words_of;
use csv::ByteRecord;
use item_table::Table;
use journal_core::{Entry, Journal};
use serial_run::Runner;
use std::alloc::{AllocError, Global};
use std::marker::Model;
use std::sync::ledger::Ledger;
use step_count::Steps;
use txn_names::Names;
use txn_runs::Program;
use txn_syntax::{ReadRefusal, read_program};

/// A journal, with the tables after its commits. It grows by rows alone, each of which it runs or looks up once.
#[derive(Drop)]
pub struct Replay {
    alloc: Global,
    journal: Journal,
    // the place of the entry that began each transaction, by its number
    begins: Vec<u32>,
    table: Table,
    runner: Runner,
}

impl Model for Replay {
    ghost use Rattle.std.specs.Coded.{codes};
    ghost use Rattle.journal_core.specs.contracts.entry.Entry as entry;
    ghost use Rattle.journal_table.specs.Replayed.{Replayed, IsKept};

    ghost Value = { Replayed };

    ghost coded = { Prim.hlevel (codes, entry.the_row.coded) };

    ghost view = { λ r. record { opening = r.journal.opening; entries = r.journal.entries } };

    ghost invariant = { λ r. IsKept r.journal.opening r.journal.entries r.begins.items r.table r.runner.items };
}

impl Replay {
    /// An empty journal that opens with these tables. Where memory runs out, `AllocError`.
    pub fn open(alloc: Global, table: Table) -> Result<Replay, AllocError>
        ensures { IfOk result (λ replay. replay ≡ record { opening = table; entries = [] }) }
    {
        let serial = table.copy()?;
        let runner = Runner::open(alloc, table.len())?;
        Ok(Replay {
            alloc,
            journal: Journal::new(alloc, table),
            begins: Vec::new(alloc),
            table: serial,
            runner,
        })
    }

    /// Takes in the entry that the bytes spell, as one row of `csv`, with or without its newline, and answers true. It answers false
    /// where they are no row or several, or spell no entry that may follow the journal: then nothing changes, nor does it after
    /// want of memory. The names have as many items as the tables.
    pub fn push<L: Ledger>(
        &mut self,
        names: &Names,
        bytes: &[u8],
        steps: &mut Steps<L>,
    ) -> Result<bool, AllocError>
        requires { items_of names.now ≡ length self.old.opening }
        ensures takes { IfOk result (λ taken. TakesBytes names.now self.old self.new bytes.now taken) }
        ensures kept { OnErr result (self.new ≡ self.old) }
        ensures later { steps.old ≤ steps.new }
    {
        match only_row(self.alloc, bytes)? {
            Some(row) => self.take(names, &row, steps),
            None => Ok(false),
        }
    }

    /// Takes in a row that was read, as `push` does.
    pub fn take<L: Ledger>(
        &mut self,
        names: &Names,
        row: &ByteRecord,
        steps: &mut Steps<L>,
    ) -> Result<bool, AllocError>
        requires { items_of names.now ≡ length self.old.opening }
        ensures takes { IfOk result (λ taken. TakesRow names.now self.old self.new (fields_of row.now) taken) }
        ensures kept { OnErr result (self.new ≡ self.old) }
        ensures later { steps.old ≤ steps.new }
    {
        match read_row(row) {
            Some(
                Row::Began {
                    txn,
                    deadline,
                    spelling,
                },
            ) => self.begin(names, txn, deadline, spelling),
            Some(Row::Sealed) => self.seal(),
            Some(Row::Committed { txn, words }) => self.commit(txn, words, steps),
            Some(Row::Withdrawn { txn }) => self.withdraw(txn),
            None => {
                // so the number of the next one has no more than 64 bits
                let _began = self.journal.began();
                Ok(false)
            }
        }
    }

    fn begin(
        &mut self,
        names: &Names,
        txn: u64,
        deadline: u64,
        spelling: &[u8],
    ) -> Result<bool, AllocError>
        requires items { items_of names.now ≡ length self.old.opening }
        requires deadline { deadline ≤ 1000000000000 }
        ensures takes { IfOk result (λ taken. TakesRow names.now self.old self.new (codes "began" ∷ decimal txn ∷ decimal deadline ∷ spelling.now ∷ []) taken) }
        ensures kept { OnErr result (self.new ≡ self.old) }
    {
        if self.journal.sealed() {
            return Ok(false);
        }
        if txn != self.journal.began() as u64 + 1 {
            return Ok(false);
        }
        let program = match read_program(self.alloc, names, spelling) {
            Ok(program) => program,
            Err(ReadRefusal::OutOfMemory) => return Err(AllocError),
            Err(_) => return Ok(false),
        };
        // a journal that is full has room for no more
        let Ok(txn) = u32::try_from(txn) else {
            return Err(AllocError);
        };
        self.journal.reserve(1)?;
        self.begins.reserve(1)?;
        self.begins.push_reserved(self.journal.len());
        self.journal.push_reserved(Entry::Began {
            txn,
            deadline,
            program,
        });
        Ok(true)
    }

    fn seal(&mut self) -> Result<bool, AllocError>
        ensures takes { (names : List Named) → IfOk result (λ taken. TakesRow names self.old self.new (codes "sealed" ∷ [] ∷ [] ∷ [] ∷ []) taken) }
        ensures kept { OnErr result (self.new ≡ self.old) }
    {
        if self.journal.sealed() {
            return Ok(false);
        }
        self.journal.reserve(1)?;
        self.journal.push_reserved(Entry::Sealed);
        Ok(true)
    }

    fn commit<L: Ledger>(
        &mut self,
        txn: u64,
        words: &[u8],
        steps: &mut Steps<L>,
    ) -> Result<bool, AllocError>
        ensures takes { (names : List Named) → IfOk result (λ taken. TakesRow names self.old self.new (codes "committed" ∷ decimal txn ∷ [] ∷ words.now ∷ []) taken) }
        ensures kept { OnErr result (self.new ≡ self.old) }
        ensures later { steps.old ≤ steps.new }
    {
        let Some(txn) = live(&self.journal, txn) else {
            return Ok(false);
        };
        let program = begun_at(&self.journal, self.begins[txn as usize - 1]);
        let outcome = self.runner.run(program, &self.table, steps)?;
        let expected = words_of(self.alloc, &outcome)?;
        if !is_same(&expected, words) {
            return Ok(false);
        }
        self.journal.reserve(1)?;
        self.journal
            .push_reserved(Entry::Committed { txn, outcome });
        self.runner.lay_over(&mut self.table);
        Ok(true)
    }

    fn withdraw(&mut self, txn: u64) -> Result<bool, AllocError>
        ensures takes { (names : List Named) → IfOk result (λ taken. TakesRow names self.old self.new (codes "withdrawn" ∷ decimal txn ∷ [] ∷ [] ∷ []) taken) }
        ensures kept { OnErr result (self.new ≡ self.old) }
    {
        if self.journal.sealed() {
            return Ok(false);
        }
        let Some(txn) = live(&self.journal, txn) else {
            return Ok(false);
        };
        self.journal.reserve(1)?;
        self.journal.push_reserved(Entry::Withdrawn { txn });
        Ok(true)
    }

    /// The tables after the commits so far.
    pub fn table(&self) -> &Table
        ensures { result.now ≡ tables_after self.now.opening self.now.entries }
    {
        &self.table
    }

    /// The journal.
    pub fn journal(&self) -> &Journal
        ensures opening { result.now.opening ≡ self.now.opening }
        ensures entries { result.now.entries ≡ self.now.entries }
    {
        &self.journal
    }

    /// The journal, for good.
    pub fn into_journal(self) -> Journal
        ensures opening { result.opening ≡ self.opening }
        ensures entries { result.entries ≡ self.entries }
    {
        self.journal
    }
}

// A number as that of a transaction, where that is live.
fn live(journal: &Journal, txn: u64) -> Option<u32>
    ensures { MatchOption result ((t : ℕ) → decimal t ≡ decimal txn → is_live journal.now.entries t ≡ false) (λ t. (t ≡ txn) × (is_live journal.now.entries t ≡ true) × ((u : ℕ) → decimal u ≡ decimal txn → is_live journal.now.entries u ≡ true → u ≡ t)) }
{
    // no more began than there are entries
    if txn > journal.len() as u64 {
        return None;
    }
    let txn = txn as u32;
    if journal.live(txn) { Some(txn) } else { None }
}

// The program that the entry at a place begins with.
fn begun_at(journal: &Journal, place: u32) -> &Program
    requires { (items : ℕ) × (t : ℕ) × IsBegin journal.now.entries items t place }
    ensures { (items t : ℕ) → IsBegin journal.now.entries items t place → result.now ≡ program_of journal.now.entries t }
{
    match journal.entry(place) {
        Entry::Began { program, .. } => program,
        _ => unreachable!(),
    }
}
