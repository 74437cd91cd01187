//! Tests of audits, from the bytes of an input to those that are written.
#![tactic(auto)]

#[cfg(test)]
mod changes;
#[cfg(test)]
mod hostile;
#[cfg(test)]
mod said;
