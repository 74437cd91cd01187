/// How a transaction that began stands.
#[derive(Clone, Copy, Debug, PartialEq, Eq)]
pub(crate) enum Life {
    Live,
    /// The place of the entry that committed it.
    Committed { place: u32 },
    Withdrawn,
}
