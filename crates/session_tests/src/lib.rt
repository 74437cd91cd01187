//! Tests of sessions from outside: what they write and how they end, over memory.
#![tactic(auto)]

#[cfg(test)]
mod replies;
#[cfg(test)]
mod served;
#[cfg(test)]
mod tests;
