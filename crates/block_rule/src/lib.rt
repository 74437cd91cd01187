//! Shadows as the rules see them: what they are for, and whether they may make a step.
//!
//! The rules stand in docs/RULES.md, what is proved in docs/PROMISES.md.
#![tactic(auto)]

mod role;
mod standing;

pub use role::{Origin, Role, Row};
pub use standing::{Standing, status};
