//! The started transactions with an index of their conflicts.
//!
//! The rules stand in docs/RULES.md, what is proved in docs/PROMISES.md.
#![tactic(auto)]

mod lanes;
mod noting;
mod placed;
mod wanting;

pub use lanes::IndexedLanes;
