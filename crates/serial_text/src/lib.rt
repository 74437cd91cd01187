//! What a printed text says to a reader who knows the commands, how programs are spelled, and what a serial run is.
//!
//! Its formats and limits stand in docs/FORMATS.md, what is proved in docs/PROMISES.md.
#![tactic(auto)]

mod laws;

pub use laws::{printed, printed_by_runs, readings_agree, readings_are_one, refused_texts};
