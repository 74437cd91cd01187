//! The table that all threads share, and its rule. Word 0 is the next ticket, word 1 the ticket that is served, and the slot has the value while nobody holds it.
use crate::Kept;
use crate::view::View;
use atomic_table::{Seat, Table, TableRule};
use std::alloc::Global;
use std::snapshot::Snapshot;

pub(crate) const NEXT: usize = 0;

pub(crate) const SERVING: usize = 1;

/// What the cell was opened with.
#[derive(Drop)]
pub struct Opening<V> {
    pub value: Snapshot<V>,
    pub seats: u32,
}

/// The rule: the tickets are served in order, and the value goes with the ticket that is served.
pub struct TicketLock;

impl<V: Kept> TableRule<Option<V>, View<V::Item>, Opening<V>> for TicketLock {
    ghost use Rattle.turn_cell.specs.Views.{first_view};
    ghost use Rattle.turn_cell.specs.TicketLock.{InTurn};

    ghost holds = { λ key. InTurn V.items key.seats };

    ghost first = { λ key. first_view (V.items key.value.value) key.seats };
}

pub type LockTable<V> = Table<Option<V>, View<<V as Kept>::Item>, Opening<V>, TicketLock, Global>;

pub type LockSeat<V> = Seat<Option<V>, View<<V as Kept>::Item>>;
