//! The input of a batch: its tables, and its programs with their deadlines, or the first line that is refused.
//!
//! It stands on the lines that come before a forest and knows no forest itself. The formats and refusals stand in docs/FORMATS.md.
#![tactic(auto)]

mod read;
mod request;
mod taking;

pub use read::{Unread, read_input};
pub use request::Request;
pub use taking::{BatchInput, LineRefusal};
