// What a forest shows, so that two looks at it can be set beside each other.
use shadow_forest::{Forest, Resumed};
use std::alloc::{AllocError, Global};

/// Where the shadows of each transaction stand and whether they are out, how long the journal is, and what was told last.
#[derive(Drop)]
pub struct Shown {
    shadows: Vec<(u32, u32, bool)>,
    entries: u32,
    resumed: Vec<Resumed>,
    started: Option<u32>,
}

impl Shown {
    pub fn of(alloc: Global, forest: &Forest) -> Result<Shown, AllocError> {
        let mut shadows = Vec::new(alloc);
        for before in 0..forest.journal().began() {
            let txn = before.wrapping_add(1);
            for place in 0..forest.shadows(txn) {
                if let Some(view) = forest.shadow(txn, place) {
                    shadows.push((txn, view.position, view.out))?;
                }
            }
        }
        let mut resumed = Vec::new(alloc);
        for each in forest.resumed() {
            resumed.push(*each)?;
        }
        Ok(Shown {
            shadows,
            entries: forest.journal().len(),
            resumed,
            started: forest.started(),
        })
    }

    pub fn is_same(&self, other: &Shown) -> bool {
        self.shadows.as_slice() == other.shadows.as_slice()
            && self.entries == other.entries
            && self.resumed.as_slice() == other.resumed.as_slice()
            && self.started == other.started
    }

    /// The positions of all shadows, added up.
    pub fn stood(&self) -> u32 {
        let mut sum = 0u32;
        for shadow in &self.shadows {
            sum = sum.wrapping_add(shadow.1);
        }
        sum
    }
}
