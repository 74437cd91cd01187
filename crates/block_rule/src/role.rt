use crate::standing::Standing;

/// What a shadow of a transaction is for.
#[derive(Clone, Copy, Debug, PartialEq, Eq)]
pub enum Role {
    /// It runs on as if no other transaction would commit before its own.
    Optimistic,
    /// It waits in front of its first read of what the transaction of this number has written.
    Guard(u32),
}

/// Where the state of a shadow comes from.
#[derive(Clone, Copy, Debug, PartialEq, Eq)]
pub enum Origin {
    /// The shadow that is there already.
    Keep,
    /// A copy of the shadow with this role.
    From(Role),
    /// The start of the program.
    Fresh,
}

/// What the pick sees of a shadow: its transaction with its deadline, its role and its place in its transaction's
/// list, with 0 for the optimistic one, whether it may make a step, and whether it is out.
#[derive(Clone, Copy, Debug, PartialEq, Eq)]
pub struct Row {
    pub txn: u32,
    pub deadline: u64,
    pub role: Role,
    pub place: u32,
    pub standing: Standing,
    pub out: bool,
}
