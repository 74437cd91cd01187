//! The journal of a forest: what began, was committed or withdrawn, and in which order.
//!
//! What is proved stands in docs/PROMISES.md.
#![tactic(auto)]

mod entry;
mod journal;
mod laws;
mod life;
mod reply;

pub use entry::Entry;
pub use journal::Journal;
pub use laws::{begun_programs, commits_with_outcomes, legal_journals, longer_journals};
pub use reply::put_reply;
