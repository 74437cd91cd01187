//! Transactions that run as shadows, and commit in one serial order.
//!
//! The rules stand in docs/RULES.md, what is proved in docs/PROMISES.md.
#![tactic(auto)]

mod answers;
mod bench;
mod committing;
mod forest;
mod giving;
mod kept;
mod opening;
mod picking;
mod priority;
mod rooms;
mod send;
mod settling;
mod txn;

pub use answers::{
    BeginRefusal, CommitRefusal, Life, Resumed, ShadowView, Stepped, WithdrawRefusal,
};
pub use bench::{Bench, Given, Job};
pub use forest::Forest;
pub use forest_model::Did;
pub use kept::Item;
