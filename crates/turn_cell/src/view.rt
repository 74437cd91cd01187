//! What a pass knows. It exists in proofs alone.
use std::collections::LinkedList;

/// What the pass is doing.
pub enum Stage<I> {
    Idle,
    /// It has drawn this ticket.
    Waits(u64),
    /// It holds the slot with this ticket. The list is that of the value when it was taken.
    Holds(u64, LinkedList<I>),
    /// It took in another pass. The lists are what the two had seen.
    Joined(LinkedList<I>, LinkedList<I>),
}

/// What a pass knows. No value of it is made.
pub struct View<I> {
    pub seen: LinkedList<I>,
    /// Of each turn the length of the list that it found, and of the list that it left.
    pub turns: LinkedList<(u64, u64)>,
    pub seats: u32,
    pub stage: Stage<I>,
}
