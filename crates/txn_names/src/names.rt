ghost use Rattle.std.specs.Prelude.{◌≡◌, ◌≤◌, ◌<◌, ◌∷◌, [], ◌++◌, length, IfOk, OnErr, OnOk, option_map, slice_get, Some};
ghost use Rattle.txn_names.specs.Tables.{items_of, table_named, table_at, added, CanAdd, IsNames};
ghost use Rattle.txn_names.specs.Refusal.{add_refusal, IsRefusedBy};

use crate::refusal::NameRefusal;
use crate::word::is_table_name;
use indexmap::IndexMap;
use std::alloc::{AllocError, Global};
use std::marker::Model;
use txn_runs::TableRef;

const TABLES_MAX: u32 = 16;

const ITEMS_MAX: u32 = 1024;

/// The tables that programs name, seen as the list of their names and sizes in the order in which they were added.
#[derive(Drop)]
pub struct Names {
    alloc: Global,
    tables: IndexMap<Vec<u8>, TableRef>,
    items: u32,
}

impl Model for Names {
    ghost use Rattle.txn_names.specs.Tables.{Named};
    ghost use Rattle.txn_names.specs.Kept.{names_of, IsKept};
    ghost use Rattle.std.specs.Prelude.{List};

    ghost Value = { List Named };

    ghost view = { λ n. names_of n.tables.entries };

    ghost invariant = { λ n. IsKept n.tables.entries n.items };
}

impl Names {
    /// No tables. What is added is kept in memory from `alloc`.
    pub fn new(alloc: Global) -> Names
        ensures { result ≡ [] }
    {
        Names {
            alloc,
            tables: IndexMap::new(alloc),
            items: 0,
        }
    }

    /// Adds a table behind the others. The refusals, the first that applies: `Name` for a name that no table may have, `Twice`
    /// for one that a table has, `Full` for a 17th table or more than 1,024 items together, `OutOfMemory` for want of memory.
    /// A refusal changes nothing.
    pub fn add(&mut self, name: &[u8], size: u32) -> Result<TableRef, NameRefusal>
        requires some { 1 ≤ size }
        requires most { size ≤ 1024 }
        ensures table { IfOk result (λ table. table ≡ record { number = length self.old; base = items_of self.old; size = size }) }
        ensures ok { OnOk result (self.new ≡ added name.now size self.old) }
        ensures refused { IsRefusedBy (add_refusal self.old name.now size) result }
        ensures err { OnErr result (self.new ≡ self.old) }
    {
        if let Some(refusal) = self.refusal(name, size) {
            return Err(refusal);
        }
        let table = TableRef {
            number: self.count(),
            base: self.items(),
            size,
        };
        if self.push(name, table).is_err() {
            return Err(NameRefusal::OutOfMemory);
        }
        Ok(table)
    }

    /// The first reason not to add a table of this name and size, or `None` where there is none, so that `add` refuses it for want
    /// of memory alone. Takes no memory.
    pub fn refusal(&self, name: &[u8], size: u32) -> Option<NameRefusal>
        requires some { 1 ≤ size }
        requires most { size ≤ 1024 }
        ensures { result ≡ add_refusal self.now name.now size }
    {
        if !is_table_name(name) {
            return Some(NameRefusal::Name);
        }
        if self.find(name).is_some() {
            return Some(NameRefusal::Twice);
        }
        if self.count() == TABLES_MAX || size > ITEMS_MAX - self.items() {
            return Some(NameRefusal::Full);
        }
        None
    }

    fn push(&mut self, name: &[u8], table: TableRef) -> Result<(), AllocError>
        requires can { CanAdd self.old name.now table.size }
        requires place { table ≡ record { number = length self.old; base = items_of self.old; size = table.size } }
        ensures ok { OnOk result (self.new ≡ added name.now table.size self.old) }
        ensures err { OnErr result (self.new ≡ self.old) }
    {
        let key = Vec::from_slice(self.alloc, name)?;
        self.tables.insert(key, table)?;
        self.items += table.size;
        Ok(())
    }

    /// The table of a name, or `None` where no table has it. Takes no memory.
    pub fn find(&self, name: &[u8]) -> Option<TableRef>
        ensures { result ≡ table_named self.now name.now }
    {
        self.tables.get(name).copied()
    }

    /// The name of a table by its number, from 0, which is below `count`.
    pub fn name(&self, number: u32) -> &[u8]
        requires { number < length self.now }
        ensures { option_map (λ table. table.0) (slice_get self.now number) ≡ Some result.now }
    {
        match self.tables.get_index(number as usize) {
            Some((name, _)) => name.as_slice(),
            None => unreachable!(),
        }
    }

    /// A table by its number, from 0, which is below `count`.
    pub fn table(&self, number: u32) -> TableRef
        requires { number < length self.now }
        ensures { table_at self.now number ≡ Some result }
    {
        match self.tables.get_index(number as usize) {
            Some((_, table)) => *table,
            None => unreachable!(),
        }
    }

    /// How many tables there are, at most 16.
    pub fn count(&self) -> u32
        ensures value { result ≡ length self.now }
        ensures limits { IsNames self.now }
    {
        self.tables.len() as u32
    }

    /// How many items the tables have together, at most 1,024.
    pub fn items(&self) -> u32
        ensures value { result ≡ items_of self.now }
        ensures limits { IsNames self.now }
    {
        self.items
    }
}
