//! The eight kinds of atomic step at the cell, and how each changes what the pass knows. Each keeps the rule of the lock.
ghost use Rattle.std.specs.Prelude.{◌≡◌, ◌≤◌, ◌∷◌, [], Some, None};
ghost use Rattle.turn_cell.specs.Views.{without_one_seat, one_seat_of, joined, spent};
ghost use Rattle.turn_cell.specs.Steps.{SitsAt, IsIdle, IsWaiting, IsOut, HasValue, HasLaid, HasJoined, Drew, Looked, PassedOn, Met};

use crate::ticket_lock::{LockSeat, NEXT, SERVING};
use crate::view::View;
use crate::{Kept, TurnCell};
use atomic_table::{Join, Play, Split};

pub(crate) struct Draw;

impl<V, I> Play<Option<V>, View<I>> for Draw {
    ghost then = { λ _ m found n. Drew m found n };
}

pub(crate) struct Look;

impl<V: Kept> Play<Option<V>, View<V::Item>> for Look {
    ghost then = { λ _ m found n. Looked V.items m found n };
}

pub(crate) struct PassOn;

impl<V: Kept> Play<Option<V>, View<V::Item>> for PassOn {
    ghost then = { λ _ m _ n. PassedOn V.items m n };
}

pub(crate) struct Meet;

impl<V, I> Play<Option<V>, View<I>> for Meet {
    ghost then = { λ _ m _ n. Met m n };
}

pub(crate) struct OneSeat;

impl<I> Split<View<I>> for OneSeat {
    ghost left = { without_one_seat };

    ghost right = { one_seat_of };
}

pub(crate) struct Both;

impl<I> Join<View<I>> for Both {
    ghost both = { joined };

    ghost spent = { spent };
}

impl<V: Kept> TurnCell<V> {
    /// Adds 1 to the next ticket, and has the number found.
    pub(crate) fn draw(&self, seat: &mut LockSeat<V>) -> u64
        requires cell { SitsAt seat.old self.now.table.shared.table_id }
        requires idle { IsIdle seat.old }
        ensures cell { SitsAt seat.new self.now.table.shared.table_id }
        ensures ticket { Drew seat.old.me result seat.new.me }
    {
        self.table.shared.fetch_add::<Draw>(seat, NEXT, 1)
    }

    /// Reads which ticket is served, and holds the slot where it is the own one.
    pub(crate) fn look(&self, seat: &mut LockSeat<V>) -> u64
        requires cell { SitsAt seat.old self.now.table.shared.table_id }
        requires waiting { IsWaiting seat.old }
        ensures cell { SitsAt seat.new self.now.table.shared.table_id }
        ensures slot { Looked V.items seat.old.me result seat.new.me }
    {
        self.table.shared.load::<Look>(seat, SERVING)
    }

    /// Takes the value out of the slot that it holds.
    pub(crate) fn lift(&self, seat: &mut LockSeat<V>) -> V
        requires cell { SitsAt seat.old self.now.table.shared.table_id }
        requires holds { HasValue seat.old }
        ensures cell { SitsAt seat.new self.now.table.shared.table_id }
        ensures value { seat.old.me.1 ≡ (0, Some result) ∷ [] }
        ensures view { seat.new.me ≡ (seat.old.me.0, (0, None) ∷ []) }
    {
        self.table.shared.exchange(seat, 0, None).unwrap()
    }

    /// Puts the value into the slot that it holds.
    pub(crate) fn lay(&self, seat: &mut LockSeat<V>, value: V)
        requires cell { SitsAt seat.old self.now.table.shared.table_id }
        requires out { IsOut seat.old }
        ensures cell { SitsAt seat.new self.now.table.shared.table_id }
        ensures view { seat.new.me ≡ (seat.old.me.0, (0, Some value) ∷ []) }
    {
        let None = self.table.shared.exchange(seat, 0, Some(value)) else {
            unreachable!()
        };
    }

    /// Adds 1 to the ticket that is served, and has the number found. The slot goes home with its value.
    pub(crate) fn pass_on(&self, seat: &mut LockSeat<V>) -> u64
        requires cell { SitsAt seat.old self.now.table.shared.table_id }
        requires laid { HasLaid V.items seat.old }
        ensures cell { SitsAt seat.new self.now.table.shared.table_id }
        ensures turn { PassedOn V.items seat.old.me seat.new.me }
    {
        self.table.shared.fetch_add::<PassOn>(seat, SERVING, 1)
    }

    /// Gives one of the seats to a new pass, which has seen the same and has no turns.
    #[tactic(auto, using(crate::proofs::StepLemmas::splits))]
    pub(crate) fn split_seat(&self, seat: &mut LockSeat<V>) -> LockSeat<V>
        requires cell { SitsAt seat.old self.now.table.shared.table_id }
        requires idle { IsIdle seat.old }
        requires seats { 2 ≤ seat.old.me.0.seats }
        ensures cell { SitsAt seat.new self.now.table.shared.table_id × SitsAt result self.now.table.shared.table_id }
        ensures kept { seat.new.me ≡ (without_one_seat seat.old.me.0, []) }
        ensures given { result.me ≡ (one_seat_of seat.old.me.0, []) }
    {
        self.table.shared.split_seat::<OneSeat>(seat)
    }

    /// Takes the other's seats, and has seen the longer list. What both had seen is known until they meet.
    #[tactic(auto, using(crate::proofs::StepLemmas::joins))]
    pub(crate) fn join_seat(&self, seat: &mut LockSeat<V>, other: LockSeat<V>)
        requires cell { SitsAt seat.old self.now.table.shared.table_id × SitsAt other self.now.table.shared.table_id }
        requires idle { IsIdle seat.old × IsIdle other }
        ensures cell { SitsAt seat.new self.now.table.shared.table_id }
        ensures view { seat.new.me ≡ (joined seat.old.me.0 other.me.0, []) }
    {
        self.table.shared.join_seat::<Both>(seat, other)
    }

    /// Lets the two lists go, of which each is a beginning of what is seen.
    pub(crate) fn meet(&self, seat: &mut LockSeat<V>)
        requires cell { SitsAt seat.old self.now.table.shared.table_id }
        requires joined { HasJoined seat.old }
        ensures cell { SitsAt seat.new self.now.table.shared.table_id }
        ensures lists { Met seat.old.me seat.new.me }
    {
        self.table.shared.load::<Meet>(seat, NEXT);
    }
}
