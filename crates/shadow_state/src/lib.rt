//! States of shadows, in lanes of two sides each.
//!
//! The rules stand in docs/RULES.md, what is proved in docs/PROMISES.md.
#![tactic(auto)]

mod bank;
mod lane;
mod slot;

pub use bank::Bank;
