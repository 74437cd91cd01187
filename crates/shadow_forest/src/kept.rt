// What a forest stands for at a turn cell.
use crate::Forest;
use item_table::Table;
use journal_core::Entry;
use turn_cell::Kept;

/// A member of the list that a forest stands for: what it was opened with, or what happened since.
#[derive(Drop)]
pub enum Item {
    Opening { table: Table, k: u32, lanes: u32 },
    Happened { entry: Entry },
}

impl Kept for Forest {
    ghost use Rattle.shadow_forest.specs.Listed.{listed};

    type Item = Item;

    ghost items = { listed };
}
