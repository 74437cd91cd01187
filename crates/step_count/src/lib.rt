//! A counter of interpreter steps that takes no bytes and no time when the program runs.
//!
//! What is proved stands in docs/PROMISES.md.
#![tactic(auto)]

mod steps;

pub use steps::Steps;
