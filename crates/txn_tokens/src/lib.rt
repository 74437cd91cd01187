//! The tokens of a program text.
//!
//! The language and its limits stand in docs/LANGUAGE.md, what is proved in docs/PROMISES.md.
#![tactic(auto)]

mod byte_kind;
mod front;
mod number;
mod token;
mod tokens;

pub use token::{Placed, Token};
pub use tokens::Tokens;

#[cfg(test)]
mod tests;
