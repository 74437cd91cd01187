ghost use Rattle.std.specs.Prelude.{◌≡◌, ◌↔◌, ◌+◌, ◌≤◌, ◌<◌, false, None, ◌∷◌, ◌++◌, [], length, slice_get, option_copied, MatchOption, OnOk};
ghost use Rattle.std.specs.List.{AllByRecursion};
ghost use Rattle.journal_core.specs.Journal.{began, reply_in as reply_of, commits, is_sealed, is_live, is_withdrawn, is_commit_of, committed_of, Continues, IsLegal};

use crate::entry::Entry;
use crate::life::Life;
use item_table::Table;
use std::alloc::{AllocError, Global};
use std::marker::Model;
use txn_runs::Outcome;

/// The opening tables and what was recorded since. Each entry continues those before it: transactions are numbered 1, 2, ..,
/// a commit or a withdrawal names a live one, a commit carries the outcome of its program over the serial tables so far,
/// and once sealed only commits follow.
#[derive(Drop)]
pub struct Journal {
    opening: Table,
    entries: Vec<Entry>,
    lives: Vec<Life>,
    commits: u32,
    sealed: bool,
    spare: u32,
}

impl Model for Journal {
    ghost use Rattle.std.specs.Vec.{vec_capacity};
    ghost use Rattle.std.specs.Coded.{codes};
    ghost use Rattle.journal_core.specs.contracts.entry.Entry as entry;
    ghost use Rattle.journal_core.specs.Recorded.{Recorded};
    ghost use Rattle.journal_core.specs.Lives.{IsKept};

    ghost Value = { Recorded };

    ghost coded = { Prim.hlevel (codes, entry.the_row.coded) };

    ghost view = { λ j. record { opening = j.opening; entries = j.entries.items; spare = j.spare } };

    ghost invariant = { λ j. IsKept j.opening j.entries.items j.lives.items j.commits j.sealed j.spare (vec_capacity j.entries) (vec_capacity j.lives) };
}

impl Journal {
    ghost use Rattle.journal_core.specs.Recorded.{Recorded};
    ghost use Rattle.journal_core.specs.Lives.{IsLife, IsUnbegun};

    /// A journal without entries. Takes no memory.
    pub fn new(alloc: Global, opening: Table) -> Journal
        ensures { result ≡ record { opening = opening; entries = []; spare = 0 } }
    {
        Journal {
            opening,
            entries: Vec::new(alloc),
            lives: Vec::new(alloc),
            commits: 0,
            sealed: false,
            spare: 0,
        }
    }

    /// For how many more entries memory is taken.
    pub fn spare(&self) -> u32
        ensures { result ≡ self.now.spare }
    {
        self.spare
    }

    /// Makes room for at least so many more entries. After want of memory the entries are as before. A journal has at most
    /// 4,294,967,295 entries; room for more is answered as want of memory.
    pub fn reserve(&mut self, more: u32) -> Result<(), AllocError>
        ensures opening { self.new.opening ≡ self.old.opening }
        ensures entries { self.new.entries ≡ self.old.entries }
        ensures grows { self.old.spare ≤ self.new.spare }
        ensures room { OnOk result (more ≤ self.new.spare) }
    {
        if more <= self.spare {
            return Ok(());
        }
        if self.entries.len() + more as usize > u32::MAX as usize {
            return Err(AllocError);
        }
        self.entries.reserve(more as usize)?;
        self.lives.reserve(more as usize)?;
        self.spare = more;
        Ok(())
    }

    /// Appends an entry that continues the journal. Takes no memory.
    pub fn push_reserved(&mut self, entry: Entry)
        requires room { 0 < self.old.spare }
        requires continues { Continues self.old.opening self.old.entries entry }
        ensures opening { self.new.opening ≡ self.old.opening }
        ensures entries { self.new.entries ≡ self.old.entries ++ entry ∷ [] }
        ensures room { self.new.spare + 1 ≡ self.old.spare }
    {
        match &entry {
            Entry::Began { .. } => self.lives.push_reserved(Life::Live),
            Entry::Sealed => self.sealed = true,
            Entry::Committed { txn, .. } => {
                let place = self.entries.len() as u32;
                self.lives[*txn as usize - 1] = Life::Committed { place };
                self.commits += 1;
            }
            Entry::Withdrawn { txn } => self.lives[*txn as usize - 1] = Life::Withdrawn,
        }
        self.entries.push_reserved(entry);
        self.spare -= 1;
    }

    /// The number of entries. Each continues those before it.
    pub fn len(&self) -> u32
        ensures value { result ≡ length self.now.entries }
        ensures legal { IsLegal self.now.opening self.now.entries }
    {
        self.entries.len() as u32
    }

    /// The entry at a place, from 0.
    pub fn entry(&self, place: u32) -> &Entry
        requires { place < length self.now.entries }
        ensures { slice_get self.now.entries place ≡ Some result.now }
    {
        &self.entries[place as usize]
    }

    /// How many transactions began.
    pub fn began(&self) -> u32
        ensures { result ≡ began self.now.entries }
    {
        self.lives.len() as u32
    }

    /// How many transactions were committed.
    pub fn commits(&self) -> u32
        ensures { result ≡ length (commits self.now.entries) }
    {
        self.commits
    }

    /// Whether no more transactions may begin or be withdrawn.
    pub fn sealed(&self) -> bool
        ensures { result ≡ is_sealed self.now.entries }
    {
        self.sealed
    }

    // How a transaction stands, if it began.
    fn life(&self, txn: u32) -> Option<Life>
        ensures { MatchOption result (IsUnbegun self.now.entries txn) (IsLife self.now.entries txn) }
    {
        let lives = &self.lives;
        if txn == 0 || txn as usize > lives.len() {
            return None;
        }
        Some(lives[txn as usize - 1])
    }

    /// Whether a transaction began and was neither committed nor withdrawn. Takes the same time in a long journal, as the two
    /// calls below do.
    pub fn live(&self, txn: u32) -> bool
        ensures { result ≡ is_live self.now.entries txn }
    {
        matches!(self.life(txn), Some(Life::Live))
    }

    /// Whether a transaction was withdrawn.
    pub fn withdrawn(&self, txn: u32) -> bool
        ensures { result ≡ is_withdrawn self.now.entries txn }
    {
        matches!(self.life(txn), Some(Life::Withdrawn))
    }

    /// The outcome that a transaction was committed with. `None` exactly where no entry commits it.
    pub fn outcome_of(&self, txn: u32) -> Option<&Outcome>
        ensures value { option_copied result ≡ committed_of self.now.entries txn }
        ensures none { (result ≡ None) ↔ AllByRecursion (λ e. is_commit_of txn e ≡ false) self.now.entries }
    {
        match self.life(txn) {
            Some(Life::Committed { place }) => reply_in(&self.entries[place as usize]),
            _ => None,
        }
    }

    /// The tables that the journal opened with.
    pub fn opening(&self) -> &Table
        ensures { result.now ≡ self.now.opening }
    {
        &self.opening
    }
}

// The outcome that an entry carries.
fn reply_in(entry: &Entry) -> Option<&Outcome>
    ensures { option_copied result ≡ reply_of entry.now }
{
    match entry {
        Entry::Committed { outcome, .. } => Some(outcome),
        _ => None,
    }
}
