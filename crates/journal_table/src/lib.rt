//! A journal as a table of rows: written, and taken in again row by row.
//!
//! The format stands in docs/FORMATS.md, what is proved in docs/PROMISES.md.
#![tactic(auto)]

mod read;
mod replay;
mod rows;
mod write;

pub use replay::Replay;
pub use rows::{is_heading, next_row, open_rows};
pub use write::{put_record, write_journal};
