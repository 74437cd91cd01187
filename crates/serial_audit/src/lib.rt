//! Audits of what was printed: of a report, and of a journal as a table.
//!
//! It runs each program once, alone, and knows no forest. The formats stand in docs/FORMATS.md, what is proved in docs/PROMISES.md.
#![tactic(auto)]

mod journal;
mod laws;

pub use journal::audit_journal;
pub use journal_table::{Replay, put_record, write_journal};
pub use laws::written_journals;
pub use report_check::{AuditEnd, Verdict, audit, one_verdict, reports_pass};
