//! Whole runs of programs over tables, one program after another.
//!
//! The language and its limits stand in docs/LANGUAGE.md, what is proved in docs/PROMISES.md.
#![tactic(auto)]

mod run;
mod runner;

pub use runner::Runner;
