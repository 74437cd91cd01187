//! The mode that runs programs as one batch: all begin, workers run them, and a report tells their commits.
//!
//! Its lines stand in docs/FORMATS.md, what is proved in docs/PROMISES.md.
#![tactic(auto)]

mod opening;
mod reporting;
mod running;
mod working;

pub use running::{batch, commit_all};
