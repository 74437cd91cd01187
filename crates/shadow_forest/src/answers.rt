use block_rule::{Role, Standing};
use txn_interp::State;

/// Why a transaction does not begin.
#[derive(Clone, Copy, Debug, PartialEq, Eq)]
pub enum BeginRefusal {
    /// The journal is sealed.
    Sealed,
    /// 20,000 transactions began.
    TooMany,
    /// There is not the memory that its whole life takes.
    OutOfMemory,
}

/// What a step was answered.
#[derive(Clone, Copy, Debug, PartialEq, Eq)]
pub enum Stepped {
    /// The shadow made a step, and stands here now.
    Stepped { position: u32 },
    /// The transaction is not live.
    Unknown,
    /// It waits for a lane.
    NotStarted,
    /// It has no shadow for this guard.
    NoShadow,
    /// Its optimistic shadow has run to the end.
    Ended,
    /// The shadow stands at its point.
    Blocked,
}

/// Why a transaction is not committed.
#[derive(Clone, Copy, Debug, PartialEq, Eq)]
pub enum CommitRefusal {
    /// It is not live.
    Unknown,
    /// It waits for a lane.
    NotStarted,
    /// Its optimistic shadow has not run to the end.
    NotEnded,
}

/// Why a transaction is not withdrawn.
#[derive(Clone, Copy, Debug, PartialEq, Eq)]
pub enum WithdrawRefusal {
    /// It is not live.
    Unknown,
    /// The journal is sealed.
    Sealed,
}

/// A transaction that a commit took back, and the position where its optimistic shadow stands since.
#[derive(Clone, Copy, Debug, PartialEq, Eq)]
pub struct Resumed {
    pub txn: u32,
    pub position: u32,
}

/// How a transaction stands.
#[derive(Clone, Copy, Debug, PartialEq, Eq)]
pub enum Life {
    /// It did not begin, or was committed or withdrawn.
    Unknown,
    /// It waits for a lane.
    Waiting,
    /// It holds a lane.
    Started,
}

/// A shadow as it is shown: its role, its position, its point where it waits for a guard, whether it may make a step, whether it is
/// out, and its state.
#[derive(Drop)]
pub struct ShadowView<'a> {
    pub role: Role,
    pub position: u32,
    pub point: Option<u32>,
    pub standing: Standing,
    pub out: bool,
    pub state: &'a State,
}
