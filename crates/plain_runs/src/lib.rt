//! The plain slow run of a program: it does what the definition says, statement by statement, from the start.
//!
//! The language and its limits stand in docs/LANGUAGE.md, what is proved in docs/PROMISES.md.
#![tactic(auto)]

mod left;
mod run;

pub use run::{PlainRun, plain_run};
