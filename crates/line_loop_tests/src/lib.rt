//! Tests of the loop over lines, with a machine that stops, works on and borrows what it counts in.
#![tactic(auto)]

#[cfg(test)]
mod machine;
#[cfg(test)]
mod prompt;
#[cfg(test)]
mod tests;
