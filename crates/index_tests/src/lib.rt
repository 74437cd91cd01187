//! Tests of the index of conflicts: worked rows, and stated lists of calls set beside a plain search.
//!
//! What is proved stands in docs/PROMISES.md.
#![tactic(auto)]

#[cfg(test)]
mod calls;
#[cfg(test)]
mod lists;
#[cfg(test)]
mod more_lists;
#[cfg(test)]
mod plain;
#[cfg(test)]
mod tests;
