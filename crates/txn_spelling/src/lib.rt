//! The canonical spelling of programs.
//!
//! The language and its limits stand in docs/LANGUAGE.md, what is proved in docs/PROMISES.md.
#![tactic(auto)]

mod laws;
#[cfg(test)]
mod tests;
mod words;
mod writer;

pub use laws::{canonical_spelling, read_programs};
pub use writer::write_program;
