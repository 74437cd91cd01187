//! The rules of the forest in numbers, and their laws.
//!
//! The rules stand in docs/RULES.md, what is proved in docs/PROMISES.md.
#![tactic(auto)]

mod did;
mod laws;
mod worked;
mod wrong;

pub use did::Did;
pub use laws::{
    draining, gating, growing, idling, jobs, origins, reset, resuming, soundness, staying,
    survival, untouched, wanting,
};
pub use worked::{worked_conflicts, worked_lists, worked_orders, worked_reads};
pub use wrong::wrong_rules;
