//! The generator: an input for batches, as a function of a seed and a count.
//!
//! Its text stands in docs/FORMATS.md, "The generator".
#![tactic(auto)]

mod draws;
mod lines;
#[cfg(test)]
mod tests;
mod text;
mod worked;

pub use text::put_gen;
pub use worked::worked_texts;
