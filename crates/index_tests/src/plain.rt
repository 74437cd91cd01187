// What lanes have read and written as plain lists, which are searched from the front for each point.
use std::alloc::{AllocError, Global};

#[derive(Clone, Copy)]
struct Read {
    lane: u32,
    position: u32,
    item: u32,
}

#[derive(Clone, Copy)]
struct Write {
    lane: u32,
    item: u32,
}

/// The reads and writes of all lanes, and the lanes that are marked.
#[derive(Drop)]
pub struct Plain {
    alloc: Global,
    reads: Vec<Read>,
    writes: Vec<Write>,
    marked: Vec<u32>,
}

impl Plain {
    pub fn new(alloc: Global) -> Plain {
        Plain {
            alloc,
            reads: Vec::new(alloc),
            writes: Vec::new(alloc),
            marked: Vec::new(alloc),
        }
    }

    pub fn note_read(&mut self, lane: u32, position: u32, item: u32) -> Result<(), AllocError> {
        for read in &self.reads {
            if read.lane == lane && read.item == item {
                return Ok(());
            }
        }
        self.reads.push(Read {
            lane,
            position,
            item,
        })?;
        Ok(())
    }

    pub fn note_write(&mut self, lane: u32, item: u32) -> Result<(), AllocError> {
        if !self.has_written(lane, item) {
            self.writes.push(Write { lane, item })?;
        }
        Ok(())
    }

    pub fn forget(&mut self, lane: u32) -> Result<(), AllocError> {
        let mut reads = Vec::new(self.alloc);
        for read in &self.reads {
            if read.lane != lane {
                reads.push(*read)?;
            }
        }
        let mut writes = Vec::new(self.alloc);
        for write in &self.writes {
            if write.lane != lane {
                writes.push(*write)?;
            }
        }
        self.reads = reads;
        self.writes = writes;
        Ok(())
    }

    pub fn settled(&mut self) {
        self.marked.clear();
    }

    fn has_written(&self, lane: u32, item: u32) -> bool {
        for write in &self.writes {
            if write.lane == lane && write.item == item {
                return true;
            }
        }
        false
    }

    /// The least position of a read of the one lane whose item the other has written.
    pub fn point_of(&self, reader: u32, writer: u32) -> Option<u32> {
        let mut least = None;
        for read in &self.reads {
            if read.lane == reader && self.has_written(writer, read.item) {
                least = match least {
                    Some(position) if position <= read.position => least,
                    _ => Some(read.position),
                };
            }
        }
        least
    }

    /// The point of each lane against each other one, row by row.
    pub fn points(&self, lanes: u32) -> Result<Vec<Option<u32>>, AllocError> {
        let mut points = Vec::new(self.alloc);
        for reader in 0..lanes {
            for writer in 0..lanes {
                if reader != writer {
                    points.push(self.point_of(reader, writer))?;
                }
            }
        }
        Ok(points)
    }

    /// Marks the lane, and whether it wasn't.
    pub fn mark(&mut self, lane: u32) -> Result<bool, AllocError> {
        if self.is_marked(lane) {
            return Ok(false);
        }
        self.marked.push(lane)?;
        Ok(true)
    }

    pub fn is_marked(&self, lane: u32) -> bool {
        for marked in &self.marked {
            if *marked == lane {
                return true;
            }
        }
        false
    }
}
