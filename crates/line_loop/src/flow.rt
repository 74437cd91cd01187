/// What a machine does behind the reply to a line.
#[derive(Clone, Copy, Debug, PartialEq, Eq)]
pub enum Flow {
    /// It waits for the next line.
    GoOn,
    /// It works on by itself, once, and then waits for the next line.
    WorkOn,
    /// It takes no further line.
    Stop,
}
