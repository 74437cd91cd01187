//! Tests of the journals that scripts print: each is audited over the tables that its script has put.
#![tactic(auto)]

#[cfg(test)]
mod printed;
#[cfg(test)]
mod runs;
