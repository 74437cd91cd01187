//! All memory that a process may have.
use std::alloc::{AllocError, Global};

// So many bytes are always asked of the system by themselves, and go back to it as soon as they are given back.
const LARGE: usize = 40 << 20;

// More large blocks than this aren't had where memory is limited as it must be.
const MOST_LARGE: usize = 16;

// Blocks for what is left below a large one, and then for what is left below them.
const MIDDLE: [usize; 2] = [1 << 16, 1 << 12];

// Below this the sizes go down by 8 bytes, so that no block that was given back is overlooked.
const SMALL: usize = 2048;

const MOST_BLOCKS: usize = 1 << 14;

/// Blocks of all sizes, taken until each size is refused.
#[derive(Drop)]
pub struct Hoard {
    alloc: Global,
    large: Vec<Vec<u8>>,
    blocks: Vec<Vec<u8>>,
}

impl Hoard {
    /// A hoard without blocks, with room for all.
    pub fn new(alloc: Global) -> Result<Hoard, AllocError> {
        let large = Vec::with_capacity(alloc, MOST_LARGE)?;
        let blocks = Vec::with_capacity(alloc, MOST_BLOCKS)?;
        Ok(Hoard {
            alloc,
            large,
            blocks,
        })
    }

    /// Takes all memory that is left, and answers whether each size is refused now.
    pub fn take_all(&mut self) -> bool {
        self.release();
        let mut refused = self.take_large();
        for size in MIDDLE {
            refused = self.take(size) && refused;
        }
        for eighth in 0..SMALL / 8 {
            refused = self.take(SMALL - eighth * 8) && refused;
        }
        refused
    }

    /// Gives one large block back, if there is one.
    pub fn spare(&mut self) {
        let _block = self.large.pop();
    }

    /// Whether a large block can be taken again. It can't where something else was taken since, be it given back or not.
    pub fn regain(&mut self) -> bool {
        let Ok(block) = Vec::with_capacity(self.alloc, LARGE) else {
            return false;
        };
        self.large.push(block).is_ok()
    }

    /// Gives all back.
    pub fn release(&mut self) {
        self.blocks.clear();
        self.large.clear();
    }

    // Takes large blocks until one is refused, and answers whether one was, behind at least one that was had.
    fn take_large(&mut self) -> bool {
        for _ in 0..MOST_LARGE {
            if !self.regain() {
                return self.large.len() > 0;
            }
        }
        false
    }

    // Takes blocks of this size until one is refused, and answers whether one was.
    fn take(&mut self, size: usize) -> bool {
        for _ in 0..MOST_BLOCKS {
            if self.blocks.len() >= MOST_BLOCKS {
                return false;
            }
            let Ok(block) = Vec::with_capacity(self.alloc, size) else {
                return true;
            };
            if self.blocks.push(block).is_err() {
                return false;
            }
        }
        false
    }
}
