//! The answer to an input of which a line is refused.
//!
//! Its line stands in docs/FORMATS.md.
#![tactic(auto)]

mod refuse;

pub use refuse::refuse_input;
