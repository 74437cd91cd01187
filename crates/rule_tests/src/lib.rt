//! Tests of the rules of the scheme, of who waits, and of the states of shadows.
//!
//! The rules stand in docs/RULES.md.
#![tactic(auto)]

#[cfg(test)]
mod banks;
#[cfg(test)]
mod copies;
#[cfg(test)]
mod cuts;
#[cfg(test)]
mod heirs;
#[cfg(test)]
mod indexed;
#[cfg(test)]
mod picks;
#[cfg(test)]
mod points;
#[cfg(test)]
mod ready;
#[cfg(test)]
mod seats;
#[cfg(test)]
mod standings;
#[cfg(test)]
mod waiting;
#[cfg(test)]
mod wanted_lists;
