//! Words of the program text, and the tables by their names.
//!
//! The language and its limits stand in docs/LANGUAGE.md, what is proved in docs/PROMISES.md.
#![tactic(auto)]

mod names;
mod refusal;
mod send_sync;
mod word;

pub use names::Names;
pub use refusal::NameRefusal;
pub use send_sync::{send_names, share_names};
pub use word::{is_reserved, is_table_name, is_word_byte, register_of, same_bytes};

#[cfg(test)]
mod tests;
