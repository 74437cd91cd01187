//! The report of a batch: its commits in the order of the journal, the last tables, and how many commits there are.
//!
//! It stands on the journal and knows no forest. Its lines stand in docs/FORMATS.md, what it says in docs/PROMISES.md.
#![tactic(auto)]

mod laws;
mod report;

pub use laws::{each_is_committed_once, sealed_journals};
pub use report::put_report;
