//! The conflicts of running transactions, by lane: what each has read and written, each reader's point against each
//! writer, and whose points have moved.
//!
//! The rules stand in docs/RULES.md, what is proved in docs/PROMISES.md.
#![tactic(auto)]

mod index;
mod mask;
mod points;

pub use index::Index;
