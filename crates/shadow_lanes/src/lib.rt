//! The started transactions and the states of their shadows.
//!
//! The rules stand in docs/RULES.md, what is proved in docs/PROMISES.md.
#![tactic(auto)]

mod fill;
mod lanes;
mod positions;
mod seat;

pub use lanes::Lanes;
