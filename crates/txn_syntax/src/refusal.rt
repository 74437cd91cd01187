use thiserror::Error;

/// A limit of programs, in the order in which they are judged.
#[derive(Clone, Copy, Debug, PartialEq, Eq)]
pub enum Which {
    /// A literal has 64 bits.
    Literal,
    /// A loop has at most 1,000 turns.
    Loops,
    /// At most 256 statements.
    Statements,
    /// At most 8 blocks of `if` and `loop` in one another.
    Depth,
    /// At most 100,000 steps.
    Steps,
    /// At most 64 emitted numbers.
    Emits,
}

/// Why bytes aren't read as a program, in the order in which the reasons are judged.
#[derive(Clone, Copy, Debug, PartialEq, Eq, Error)]
pub enum ReadRefusal {
    /// No program begins with the tokens up to the one at this offset.
    #[error("Syntax")]
    Syntax { at: usize },
    /// No table has the name at this offset.
    #[error("UnknownTable")]
    UnknownTable { at: usize },
    /// The program breaks this limit.
    #[error("Limit")]
    Limit { which: Which },
    /// Memory ran out.
    #[error("OutOfMemory")]
    OutOfMemory,
}
