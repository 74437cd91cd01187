//! Tests of journals as tables, and of their audits.
#![tactic(auto)]

#[cfg(test)]
mod journals;
#[cfg(test)]
mod opening;
#[cfg(test)]
mod replays;
#[cfg(test)]
mod rows;
