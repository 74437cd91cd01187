// The tables before the forest is opened.
ghost use Rattle.std.specs.Prelude.{◌≡◌, ◌≤◌, ◌<◌, length, Ok, IfErr, IfOk, OnOk, OnErr};
ghost use Rattle.scc_setup.specs.Opening.{Opening, no_tables, name_code, table_after, put_after, opening_after, IsOpening, IsSetting, IsReason};

use item_table::Table;
use scc_text::Command;
use std::alloc::{AllocError, Global};
use std::marker::Model;
use txn_names::{NameRefusal, Names};

/// Why a `table` or `put` line is not accepted.
#[derive(Clone, Copy, Debug, PartialEq, Eq)]
pub enum SetupRefusal {
    /// The number of the refusal: 18, 19 or 20 for a table, 22 or 31 for a value.
    Code(u8),
    /// Memory ran out.
    OutOfMemory,
}

/// What the `table` and `put` lines before the forest is opened make: the tables' names, and the value of each item.
#[derive(Drop)]
pub struct Setup {
    names: Names,
    table: Table,
}

impl Model for Setup {
    ghost use Rattle.scc_setup.specs.Opening.{Opening, IsOpening};

    ghost Value = { Opening };

    ghost view = { λ s. record { names = s.names; tables = s.table } };

    ghost invariant = { λ s. IsOpening s.names s.table };
}

impl Setup {
    /// No tables. Where memory runs out, `AllocError`.
    pub fn new(alloc: Global) -> Result<Setup, AllocError>
        ensures { IfOk result (λ setup. setup ≡ no_tables) }
    {
        let table = Table::new(alloc, 0)?;
        Ok(Setup {
            names: Names::new(alloc),
            table,
        })
    }

    /// Takes in the `table` or `put` command of a line. `Code` is the first of these that applies: for a table 18, the name isn't
    /// allowed, 19, it is there, 20, a 17th table or more than 1,024 items; for a value 22, no such table, 31, no such place.
    /// `OutOfMemory` comes only where none of them applies. Neither changes anything.
    pub fn accept(&mut self, line: &[u8], command: &Command) -> Result<(), SetupRefusal>
        requires { IsSetting (length line.now) command.now }
        ensures accepted { OnOk result (opening_after self.old line.now command.now ≡ Ok self.new) }
        ensures refused { IfErr result (λ refusal. IsReason refusal (opening_after self.old line.now command.now)) }
        ensures kept { OnErr result (self.new ≡ self.old) }
        ensures opening { IsOpening self.new.names self.new.tables }
    {
        match *command {
            Command::Table { name, size } => self.add_table(&line[name.from..name.to], size),
            Command::Put { name, index, value } => {
                self.put(&line[name.from..name.to], index, value)
            }
            _ => Ok(()),
        }
    }

    fn add_table(&mut self, name: &[u8], size: u32) -> Result<(), SetupRefusal>
        requires some { 1 ≤ size }
        requires most { size ≤ 1024 }
        ensures accepted { OnOk result (table_after self.old name.now size ≡ Ok self.new) }
        ensures refused { IfErr result (λ refusal. IsReason refusal (table_after self.old name.now size)) }
        ensures kept { OnErr result (self.new ≡ self.old) }
        ensures opening { IsOpening self.new.names self.new.tables }
    {
        if let Some(refusal) = self.names.refusal(name, size) {
            return Err(SetupRefusal::Code(code_of(refusal)));
        }
        // Room for the items comes before the name, so that a table that has a name has its items too.
        let Ok(grown) = self.table.grown(size) else {
            return Err(SetupRefusal::OutOfMemory);
        };
        if self.names.add(name, size).is_err() {
            return Err(SetupRefusal::OutOfMemory);
        }
        self.table = grown;
        Ok(())
    }

    fn put(&mut self, name: &[u8], index: u32, value: i64) -> Result<(), SetupRefusal>
        ensures accepted { OnOk result (put_after self.old name.now index value ≡ Ok self.new) }
        ensures refused { IfErr result (λ refusal. IsReason refusal (put_after self.old name.now index value)) }
        ensures kept { OnErr result (self.new ≡ self.old) }
        ensures opening { IsOpening self.new.names self.new.tables }
    {
        let Some(table) = self.names.find(name) else {
            return Err(SetupRefusal::Code(22));
        };
        if index >= table.size {
            return Err(SetupRefusal::Code(31));
        }
        self.table.set(table.base + index, value);
        Ok(())
    }

    /// The tables' names.
    pub fn names(&self) -> &Names
        ensures { result.now ≡ self.now.names }
    {
        &self.names
    }

    /// The value of each item.
    pub fn table(&self) -> &Table
        ensures values { result.now ≡ self.now.tables }
        ensures opening { IsOpening self.now.names self.now.tables }
    {
        &self.table
    }

    /// The tables' names, and the value of each item.
    pub fn into_parts(self) -> (Names, Table)
        ensures names { result.0 ≡ self.names }
        ensures values { result.1 ≡ self.tables }
        ensures opening { IsOpening result.0 result.1 }
    {
        (self.names, self.table)
    }
}

// The number of the refusal of a name or a size. Want of memory never comes here.
fn code_of(refusal: NameRefusal) -> u8
    ensures { result ≡ name_code refusal }
{
    match refusal {
        NameRefusal::Name => 18,
        NameRefusal::Twice => 19,
        NameRefusal::Full | NameRefusal::OutOfMemory => 20,
    }
}
