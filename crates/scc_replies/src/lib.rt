//! What several modes tell in the same words: the lines of tables, counts and refusals, and how a run ended.
//!
//! It stands on tables with their names and knows no forest. Each call appends exactly the lines that its definition says, and their
//! formats stand in docs/FORMATS.md.
#![tactic(auto)]

mod finals;
mod lines;
mod refusals;
mod status;

pub use finals::{put_end, put_finals};
pub use lines::{put_number_line, put_row};
pub use refusals::{put_refusal, put_unread};
pub use status::Status;
