//! Copied executions of programs.
//!
//! The language and its limits stand in docs/LANGUAGE.md, what is proved in docs/PROMISES.md.
#![tactic(auto)]

mod counters;
mod laws;
mod state;

pub use laws::{agreeing, fresh};
pub use state::State;
pub use txn_runs::Kind;
