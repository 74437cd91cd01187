use txn_runs::{Outcome, Program};

/// What a journal records.
#[derive(Drop)]
pub enum Entry {
    /// A transaction began, with its deadline and its program.
    Began {
        txn: u32,
        deadline: u64,
        program: Program,
    },
    /// No more transactions may begin or be withdrawn.
    Sealed,
    /// A transaction was committed with this outcome.
    Committed {
        txn: u32,
        outcome: Outcome,
    },
    /// A transaction was withdrawn.
    Withdrawn {
        txn: u32,
    },
}
