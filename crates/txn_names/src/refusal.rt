use thiserror::Error;

/// Why a table can't be added, in the order in which the reasons are judged.
#[derive(Clone, Copy, Debug, PartialEq, Eq, Error)]
pub enum NameRefusal {
    /// The name isn't allowed.
    #[error("Name")]
    Name,
    /// A table has this name.
    #[error("Twice")]
    Twice,
    /// It would be the 17th table, or more than 1,024 items together.
    #[error("Full")]
    Full,
    /// Memory is wanting.
    #[error("OutOfMemory")]
    OutOfMemory,
}
