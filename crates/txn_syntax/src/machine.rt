ghost use Rattle.std.specs.Prelude.{◌≡◌, OnOk, None, length};
ghost use Rattle.txn_syntax.specs.Reading.{Blocks, Progress, Opener, Before as BeforeAll, settled, begun, closed, opened, grown};
ghost use Rattle.txn_syntax.specs.Machines.{IsOpening, HasBlocks, IsMachine, FinishesAs};

use crate::body::Body;
use crate::place::{Item, Test};
use std::alloc::{AllocError, Global};
use std::mem;

/// Where a machine is in the text.
#[derive(Clone, Copy)]
pub enum Stage {
    /// Before the first brace.
    Before,
    /// Between two items.
    Within,
    /// Behind the last brace.
    Behind,
}

/// What has opened a block.
#[derive(Drop)]
pub enum Opening {
    Yes(Test),
    /// An `else`, and the first block.
    No(Test, Body),
    Turns(u64),
}

/// An open block: the statements before it, and what has opened it.
#[derive(Drop)]
pub struct Open {
    pub before: Body,
    pub opening: Opening,
}

/// Takes the items of a program one after the other.
#[derive(Drop)]
pub struct Machine {
    pub alloc: Global,
    pub stage: Stage,
    /// The statements of the innermost block so far.
    pub current: Body,
    /// The `if` whose first block has just been closed.
    pub choice: Option<(Test, Body)>,
    /// The open blocks, the innermost last.
    pub opens: Vec<Open>,
}

impl Machine {
    pub fn new(alloc: Global) -> Machine
        ensures { IsMachine result BeforeAll }
    {
        Machine {
            alloc,
            stage: Stage::Before,
            current: Body::new(alloc),
            choice: None,
            opens: Vec::new(alloc),
        }
    }

    /// What has been read, where it is a whole program.
    pub fn finish(self) -> Option<Body>
        ensures { (p : Progress) → IsMachine self p → FinishesAs result p }
    {
        match self.stage {
            Stage::Behind => Some(self.current),
            Stage::Before | Stage::Within => None,
        }
    }

    /// An item has been read.
    pub fn grow(&mut self, item: Item) -> Result<(), AllocError>
        ensures { OnOk result ((b : Blocks) → HasBlocks self.old b → IsMachine self.new (grown item b)) }
    {
        match item {
            Item::Plain(plain) => {
                self.settle()?;
                let level = self.opens.len();
                self.current.push_plain(plain, level)?;
                self.begin();
                Ok(())
            }
            Item::If(test) => {
                self.settle()?;
                self.open(Opening::Yes(test))
            }
            Item::Else => match self.choice.take() {
                Some((test, first)) => self.open(Opening::No(test, first)),
                None => {
                    self.begin();
                    Ok(())
                }
            },
            Item::Loop(count) => {
                self.settle()?;
                self.open(Opening::Turns(count))
            }
            Item::Close => {
                self.settle()?;
                self.close()
            }
        }
    }

    /// An item comes next.
    pub fn begin(&mut self)
        ensures { (b : Blocks) → HasBlocks self.old b → IsMachine self.new (begun b) }
    {
        self.stage = Stage::Within;
    }

    // No `else` follows.
    fn settle(&mut self) -> Result<(), AllocError>
        ensures { OnOk result ((b : Blocks) → HasBlocks self.old b → HasBlocks self.new (record { current = settled b; choice = None; frames = b.frames })) }
    {
        if let Some((test, first)) = self.choice.take() {
            let second = Body::new(self.alloc);
            let level = self.opens.len();
            self.current.push_choice(test, first, second, level)?;
        }
        Ok(())
    }

    // Opens a block behind the statements so far.
    fn open(&mut self, opening: Opening) -> Result<(), AllocError>
        ensures { OnOk result ((b : Blocks) (opener : Opener) → HasBlocks self.old b → b.choice ≡ None → IsOpening (length b.frames) opening opener → IsMachine self.new (opened b.current opener b.frames)) }
    {
        let before = mem::replace(&mut self.current, Body::new(self.alloc));
        self.opens.push(Open { before, opening })?;
        self.begin();
        Ok(())
    }

    // Closes the innermost block.
    fn close(&mut self) -> Result<(), AllocError>
        ensures { OnOk result ((b : Blocks) → HasBlocks self.old b → b.choice ≡ None → IsMachine self.new (closed b.frames b.current)) }
    {
        let Some(Open { before, opening }) = self.opens.pop() else {
            self.stage = Stage::Behind;
            return Ok(());
        };
        let body = mem::replace(&mut self.current, before);
        let level = self.opens.len();
        match opening {
            Opening::Yes(test) => self.choice = Some((test, body)),
            Opening::No(test, first) => self.current.push_choice(test, first, body, level)?,
            Opening::Turns(count) => self.current.push_turns(count, body, level)?,
        }
        self.begin();
        Ok(())
    }
}
