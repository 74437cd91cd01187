//! Tests of tables, sets and journals, and of what crosses the crates of programs and runs.
#![tactic(auto)]

#[cfg(test)]
mod journals;
#[cfg(test)]
mod runs;
#[cfg(test)]
mod sets;
#[cfg(test)]
mod tables;
#[cfg(test)]
mod tests;
