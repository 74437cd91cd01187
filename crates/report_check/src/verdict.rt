/// What an audit says.
#[derive(Clone, Copy, Debug, PartialEq, Eq)]
pub enum Verdict {
    /// All is as it must be, with so many commits.
    Yes { commits: u32 },
    /// This line, or of a journal this row, counted from 1, is the first that is wrong; or it is missing.
    No { line: u64 },
}

/// Why an audit of a report says nothing.
#[derive(Clone, Copy, Debug, PartialEq, Eq)]
pub enum AuditEnd {
    /// The source failed.
    ReadFault,
    /// The input has more than 67,108,864 bytes.
    InputLimit,
    /// Memory ran out.
    OutOfMemory,
}
