//! The lines that come before a forest: the tables that `table` and `put` lines make.
//!
//! It stands on the reader of lines and on tables with their names. Each line is taken in or refused exactly as its definition says,
//! in every mode; the formats and refusals stand in docs/FORMATS.md.
#![tactic(auto)]

mod settings;
mod setup;
#[cfg(test)]
mod tests;

pub use settings::put_setting;
pub use setup::{Setup, SetupRefusal};
