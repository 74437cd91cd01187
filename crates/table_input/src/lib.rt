//! Tables from an input that has `table` and `put` lines alone, or the first line that is refused.
//!
//! It stands on the lines that come before a forest and knows no forest itself. The formats and refusals stand in docs/FORMATS.md.
#![tactic(auto)]

mod read;
mod taking;

pub use read::read_tables;
