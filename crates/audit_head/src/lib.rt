//! The head of what is audited: the lines that make tables and programs, and the line that says what follows them.
//!
//! It stands on the lines of a batch. The formats and refusals stand in docs/FORMATS.md.
#![tactic(auto)]

mod form;
mod read;
mod take;

pub use form::{Form, HeadEnd};
pub use read::read_head;
