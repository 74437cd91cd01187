//! The mode that audits: what follows a head of tables and programs, a report or a journal, is judged, and one line says how.
//!
//! Its lines stand in docs/FORMATS.md, what is proved in docs/PROMISES.md.
#![tactic(auto)]

mod answering;
mod judging;
mod programs;
mod running;

pub use running::audit_input;
