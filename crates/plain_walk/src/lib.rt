//! A plain interpreter, slow and apart from linked code, that tests set beside copied executions.
#![tactic(auto)]

mod same;
mod walk;

pub use same::is_same;
pub use walk::{Walk, walk_program};
