//! Where bytes come from and where they go, and what happened where a call failed.
//!
//! What is proved stands in docs/PROMISES.md.
#![tactic(auto)]

mod adapters;
mod memory;
mod ports;
mod sure;
#[cfg(test)]
mod tests;

pub use adapters::{ReadSource, WriteSink};
pub use memory::{MemSink, MemSource};
pub use ports::{Failed, Gate, OpenGate, Sink, Source, write_all};
pub use sure::{SureSink, SureSource};
