//! The report of a batch as a text: what it says, its lines, and the order that is read off them.
//!
//! It says which text a report is, and knows no journal and no forest. Its lines stand in docs/FORMATS.md, what they say in
//! docs/PROMISES.md.
#![tactic(auto)]

mod laws;

pub use laws::order_is_told;
