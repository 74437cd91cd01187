//! Workers: threads that take turns at a forest in a cell, and run its jobs outside their turns.
//!
//! The rules stand in docs/RULES.md, what is proved in docs/PROMISES.md.
#![tactic(auto)]

mod turn;
mod working;

pub use turn::one_turn;
pub use working::{Until, work};
