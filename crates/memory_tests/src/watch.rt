//! What is done about memory around each call.
use crate::hoard::Hoard;
use std::alloc::{AllocError, Global};

/// What memory there is for the calls.
#[derive(Clone, Copy, PartialEq, Eq)]
pub enum Memory {
    /// Enough.
    Ample,
    /// None: all was taken.
    Refused,
    /// One large block, which must be there again after the call.
    Counted,
}

/// The calls so far, and around how many of them there was no memory, or some was taken.
#[derive(Drop)]
pub struct Watch {
    memory: Memory,
    hoard: Option<Hoard>,
    calls: u32,
    starved: u32,
    took: u32,
}

impl Watch {
    /// No call yet.
    pub fn new(alloc: Global, memory: Memory) -> Result<Watch, AllocError> {
        let hoard = match memory {
            Memory::Ample => None,
            _ => Some(Hoard::new(alloc)?),
        };
        Ok(Watch {
            memory,
            hoard,
            calls: 0,
            starved: 0,
            took: 0,
        })
    }

    /// A call follows.
    pub fn before(&mut self) {
        self.calls = self.calls.saturating_add(1);
        if let Some(hoard) = &mut self.hoard {
            if hoard.take_all() {
                self.starved = self.starved.saturating_add(1);
            }
            if self.memory == Memory::Counted {
                hoard.spare();
            }
        }
    }

    /// A call was made. Answers whether it is seen that it took memory.
    pub fn after(&mut self) -> bool {
        if self.memory != Memory::Counted {
            return false;
        }
        let Some(hoard) = &mut self.hoard else {
            return false;
        };
        let took = !hoard.regain();
        if took {
            self.took = self.took.saturating_add(1);
        }
        took
    }

    /// There is memory again, for what is opened next.
    pub fn release(&mut self) {
        if let Some(hoard) = &mut self.hoard {
            hoard.release();
        }
    }

    /// How many calls were made.
    pub fn calls(&self) -> u32 {
        self.calls
    }

    /// Before how many calls all memory was taken.
    pub fn starved(&self) -> u32 {
        self.starved
    }

    /// How many calls are seen to have taken memory.
    pub fn took(&self) -> u32 {
        self.took
    }
}
