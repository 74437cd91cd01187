// Looks at the cell without a ticket. No pass takes part, and what is seen may be otherwise right after.
use crate::Kept;
use crate::cell::TurnCell;
use crate::ticket_lock::{NEXT, SERVING};
use std::sync::Wait;
use std::time::Duration;

impl<V: Kept> TurnCell<V> {
    /// Whether a turn was under way, or a pass waited for one, when this looked. Takes no ticket.
    pub fn is_busy(&self) -> bool {
        self.table.shared.peek(SERVING) != self.table.shared.peek(NEXT)
    }

    /// Sleeps for so long at most. It ends sooner where a turn is given back and wakes those that wait. Takes no ticket.
    pub fn stay_away<R: Wait>(&self, rt: &R, at_most: Duration) {
        let serving = self.table.shared.peek(SERVING);
        self.table
            .shared
            .park_timeout(rt, SERVING, (serving % (1 << 32)) as u32, at_most);
    }
}
