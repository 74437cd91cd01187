//! What a pass does at the cell.
ghost use Rattle.std.specs.Prelude.{◌≡◌, ◌+◌, ◌≤◌, [], ◌∷◌, ◌++◌, length, IfOk};
ghost use mathlib.Core.List.{IsPrefix};
ghost use Rattle.turn_cell.specs.Views.{longer};
ghost use Rattle.turn_cell.specs.Passes.{all_seats, IsOf, seen_by, turns_of, seats_of, IsTurnOf, found_by, turns_before, seats_behind};

use crate::Kept;
use crate::cell::{Held, Pass, TurnCell};
use crate::ticket_lock::{NEXT, Opening, SERVING};
use atomic_table::Table;
use std::alloc::{AllocError, Global};
use std::snapshot::Snapshot;
use std::sync::Wait;

impl<V: Kept> TurnCell<V> {
    /// A cell with this value, and a pass that has all its seats, at least 1. Where memory runs out, `AllocError`, and the value is
    /// dropped.
    #[tactic(auto, using(crate::proofs::StepLemmas::opens))]
    pub fn open(alloc: Global, value: V, seats: u32) -> Result<(TurnCell<V>, Pass<V>), AllocError>
        requires { 1 ≤ seats }
        ensures cell { IfOk result (λ r. (all_seats r.0 ≡ seats) × IsOf r.1 r.0) }
        ensures pass { IfOk result (λ r. (seats_of r.1 ≡ seats) × (seen_by r.1 ≡ V.items value) × (turns_of r.1 ≡ [])) }
    {
        let about = Opening {
            value: Snapshot::of(&value),
            seats,
        };
        let mut slots = Vec::with_capacity(alloc, 1)?;
        slots.push(Some(value))?;
        let (table, seat) = Table::new(alloc, &[0, 0], slots, &about).map_err(|_| AllocError)?;
        Ok((TurnCell { table }, Pass { seat }))
    }

    /// A new pass with one of the seats, of which the pass has at least 2. It has seen the same and has no turns. Takes no memory.
    pub fn split(&self, pass: &mut Pass<V>) -> Pass<V>
        requires cell { IsOf pass.old self.now }
        requires seats { 2 ≤ seats_of pass.old }
        ensures kept { IsOf pass.new self.now × (seats_of pass.new + 1 ≡ seats_of pass.old) × (seen_by pass.new ≡ seen_by pass.old) × (turns_of pass.new ≡ turns_of pass.old) }
        ensures given { IsOf result self.now × (seats_of result ≡ 1) × (seen_by result ≡ seen_by pass.old) × (turns_of result ≡ []) }
    {
        let seat = self.split_seat(&mut pass.seat);
        Pass { seat }
    }

    /// The pass has the other's seats too, and has seen the longer of the two lists. Its turns stay its own.
    pub fn join(&self, pass: &mut Pass<V>, other: Pass<V>)
        requires cell { IsOf pass.old self.now × IsOf other self.now }
        ensures kept { IsOf pass.new self.now × (seats_of pass.new ≡ seats_of pass.old + seats_of other) × (turns_of pass.new ≡ turns_of pass.old) }
        ensures longer { seen_by pass.new ≡ longer (seen_by pass.old) (seen_by other) }
        ensures seen { IsPrefix (seen_by pass.old) (seen_by pass.new) × IsPrefix (seen_by other) (seen_by pass.new) }
    {
        let Pass { seat } = other;
        self.join_seat(&mut pass.seat, seat);
        self.meet(&mut pass.seat);
    }

    /// Waits for the pass's turn. Its promises hold if it returns; nothing is promised of when, or of who comes first.
    pub fn take_turn<R: Wait>(&self, rt: &R, pass: Pass<V>) -> Held<V>
        requires { IsOf pass self.now }
        ensures pass { IsTurnOf result self.now × (seats_behind result ≡ seats_of pass) × (turns_before result ≡ turns_of pass) }
        ensures value { found_by result ≡ V.items result.value }
        ensures seen { IsPrefix (seen_by pass) (V.items result.value) }
    {
        let Pass { mut seat } = pass;
        let ticket = self.draw(&mut seat);
        for _ in rt.forever() {
            let serving = self.look(&mut seat);
            if serving == ticket {
                let value = self.lift(&mut seat);
                return Held { value, seat };
            }
            self.table
                .shared
                .park(rt, SERVING, (serving % (1 << 32)) as u32);
        }
        unreachable!()
    }

    /// Puts the value back, and lets the next pass have it. The turn joins the pass's turns.
    pub fn give_turn(&self, held: Held<V>) -> Pass<V>
        requires cell { IsTurnOf held self.now }
        requires grown { IsPrefix (found_by held) (V.items held.value) }
        ensures pass { IsOf result self.now × (seats_of result ≡ seats_behind held) }
        ensures seen { seen_by result ≡ V.items held.value }
        ensures turns { turns_of result ≡ turns_before held ++ (length (found_by held), length (V.items held.value)) ∷ [] }
    {
        let Held { value, mut seat } = held;
        self.lay(&mut seat, value);
        let served = self.pass_on(&mut seat);
        // A thread that draws after this look finds its own ticket served, or one that wakes it.
        if self.table.shared.peek(NEXT) != served.wrapping_add(1) {
            self.table.shared.wake_all(SERVING);
        }
        Pass { seat }
    }

    /// Gives the value to the pass that has all seats.
    pub fn close(self, pass: Pass<V>) -> V
        requires cell { IsOf pass self }
        requires all { seats_of pass ≡ all_seats self }
        ensures { IsPrefix (seen_by pass) (V.items result) }
    {
        let TurnCell { table } = self;
        let Pass { seat } = pass;
        let mut closed = table.close_with(seat);
        let slot = closed.take(0);
        closed.free();
        slot.unwrap()
    }
}
