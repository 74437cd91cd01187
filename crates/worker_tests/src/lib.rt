//! Tests of workers from outside: worked turns, and threads that work on one forest.
#![tactic(auto)]

#[cfg(test)]
mod batches;
#[cfg(test)]
mod forests;
#[cfg(test)]
mod meeting;
#[cfg(test)]
mod tests;
#[cfg(test)]
mod workers;
