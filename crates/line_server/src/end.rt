/// How a session ended.
#[derive(Clone, Copy, Debug, PartialEq, Eq)]
pub enum SessionEnd {
    /// The line `quit` was answered.
    Quit,
    /// The input was read to its end, and every line was answered.
    End,
    /// The source failed.
    ReadFault,
    /// The sink failed.
    WriteFault,
    /// The input has more than 67,108,864 bytes.
    InputLimit,
    /// Memory ran out.
    OutOfMemory,
}
