//! Sessions: clients that begin transactions in a forest that workers share, and ask what became of them.
//!
//! Its lines stand in docs/FORMATS.md, what is proved in docs/PROMISES.md.
#![tactic(auto)]

mod answers;
mod end;
mod preparing;
mod run;
mod talker;
mod wish;

pub use end::SessionEnd;
pub use preparing::prepare;
pub use run::session;
