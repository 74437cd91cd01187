//! The check of a batch's report, line by line.
//!
//! It runs each program once, alone, and knows no forest. The lines stand in docs/FORMATS.md, what is proved in docs/PROMISES.md.
#![tactic(auto)]

mod check;
mod laws;
mod limits;
mod lines;
mod report;
mod verdict;

pub use laws::{one_verdict, reports_pass};
pub use report::audit;
pub use verdict::{AuditEnd, Verdict};
