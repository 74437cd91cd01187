use block_rule::Role;

/// What a step of a drain did.
#[derive(Clone, Copy, Debug, PartialEq, Eq)]
pub enum Did {
    /// It committed this transaction, whose optimistic shadow had ended.
    Committed { txn: u32 },
    /// It made one step of this shadow of the transaction.
    Stepped { txn: u32, role: Role },
    /// It had nothing to do.
    Nothing,
}
