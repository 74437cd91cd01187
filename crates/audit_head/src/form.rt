/// What follows a head.
#[derive(Clone, Copy, Debug, PartialEq, Eq)]
pub enum Form {
    /// The report of a batch, line by line.
    Report,
    /// A journal as a table.
    Journal,
}

/// Why an input has no head.
#[derive(Clone, Copy, Debug, PartialEq, Eq)]
pub enum HeadEnd {
    /// This line, counted from 1, is the first that is refused, by this number (docs/FORMATS.md, "Refusals"); or the input ends before
    /// it without a line `report` or `journal`, which is refused by 13.
    Bad { line: u64, code: u8 },
    /// The source failed.
    ReadFault,
    /// The input has more than 67,108,864 bytes.
    InputLimit,
    /// Memory ran out.
    OutOfMemory,
}
