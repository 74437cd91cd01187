ghost use Rattle.std.specs.Prelude.{◌≡◌, ◌≢◌, ◌<◌, ◌≤◌, ◌+◌, [], None, Some, false, length, map, slice_get, option_map, IfOk, MatchOption};
ghost use Rattle.txn_runs.specs.declared.kind.Kind.TheVariants.{TableRead};
ghost use Rattle.txn_interp.specs.Kind.{HasKind};
ghost use Rattle.txn_interp.specs.State.{Held, Carries, Runs};
ghost use Rattle.forest_model.specs.Point.{point as point_of};
ghost use Rattle.shadow_state.specs.Bank.{Slot, at_place, marked_slot};
ghost use Rattle.shadow_lanes.specs.Seats.{Seat, AreSeats, find_seat, seats_with, seats_without, slots_of, slot_at, conflicts_of, stepped_slot, seat_with, recalled_seat, promoted_seat, StepsOver, RunsLocal};
ghost use Rattle.indexed_lanes.specs.Noted.{RunsHere, HasSameLists};
ghost use Rattle.indexed_lanes.specs.Wanted.{wanted_among, renewed, AreWanted};

use crate::noting::{note_anew, note_step};
use crate::placed::PlacedIndex;
use crate::wanting::{have, have_before_read, wanted_at};
use conflict_table::point;
use item_table::Table;
use shadow_lanes::Lanes;
use std::alloc::{AllocError, Global};
use std::marker::Model;
use std::sync::ledger::Ledger;
use step_count::Steps;
use txn_code::Code;
use txn_interp::State;

/// The started transactions in rising order of their numbers, each with the states of its shadows, and an index of what each has read
/// and written at its optimistic position. The index marks whose points move: by the type who isn't marked has the shadows that it
/// wants. All memory is taken at opening.
#[derive(Drop)]
pub struct IndexedLanes {
    lanes: Lanes,
    // with one shadow a transaction nobody waits for another, and there is none
    index: Option<PlacedIndex>,
}

impl Model for IndexedLanes {
    ghost use Rattle.shadow_lanes.specs.Seats.{Seated};
    ghost use Rattle.indexed_lanes.specs.Wanted.{IsIndexed};

    ghost Value = { Seated };

    ghost view = { λ l. l.lanes };

    ghost invariant = { λ l. IsIndexed l.lanes l.index };
}

impl IndexedLanes {
    /// Room for so many started transactions, 1 to 64, with so many shadows each, 1 to 8, over so many items, at most 1,024; nobody
    /// is started. No other call takes memory.
    ///
    /// # Errors
    /// Where memory runs out.
    pub fn open(alloc: Global, items: u32, k: u32, lanes: u32) -> Result<IndexedLanes, AllocError>
        requires items { items ≤ 1024 }
        requires least { 1 ≤ k }
        requires most { k ≤ 8 }
        requires some { 1 ≤ lanes }
        requires lanes { lanes ≤ 64 }
        ensures { IfOk result (λ l. l ≡ record { most = k; lanes = lanes; items = items; seats = [] }) }
    {
        let opened = Lanes::open(alloc, items, k, lanes)?;
        if k == 1 {
            return Ok(IndexedLanes {
                lanes: opened,
                index: None,
            });
        }
        let index = PlacedIndex::open(alloc, items, lanes)?;
        Ok(IndexedLanes {
            lanes: opened,
            index: Some(index),
        })
    }

    /// How many shadows a transaction has, at most.
    pub fn most(&self) -> u32
        ensures { result ≡ self.now.most }
    {
        self.lanes.most()
    }

    /// How many transactions are started at once, at most.
    pub fn lanes(&self) -> u32
        ensures { result ≡ self.now.lanes }
    {
        self.lanes.lanes()
    }

    /// How many transactions are started.
    pub fn len(&self) -> u32
        ensures len { result ≡ length self.now.seats }
        ensures seats { AreSeats self.now }
    {
        self.lanes.len()
    }

    /// The number of the started transaction at a place.
    pub fn number(&self, place: u32) -> u32
        requires { place < length self.now.seats }
        ensures { option_map (λ (r : Seat). r.number) (slice_get self.now.seats place) ≡ Some result }
    {
        self.lanes.number(place)
    }

    /// The place of a started transaction, if it is one.
    pub fn find(&self, number: u32) -> Option<u32>
        ensures { MatchOption result (find_seat self.now.seats number ≡ None) (λ place. (place < length self.now.seats) × (slice_get self.now.seats place ≡ find_seat self.now.seats number)) }
    {
        self.lanes.find(number)
    }

    /// The guards and the points that the transaction at a place has shadows for, in order.
    pub fn conflicts(&self, place: u32) -> &[(u32, u32)]
        requires { place < length self.now.seats }
        ensures { option_map conflicts_of (slice_get self.now.seats place) ≡ Some result.now }
    {
        self.lanes.conflicts(place)
    }

    /// The state of a shadow of the transaction at a place; slot 0 is the optimistic one.
    pub fn state(&self, place: u32, slot: u32) -> &State
        requires place { place < length self.now.seats }
        requires slot { (r : Seat) → slice_get self.now.seats place ≡ Some r → slot < length (slots_of r) }
        ensures state { option_map (λ (s : Slot). s.state) (slot_at self.now.seats place slot) ≡ Some result.now }
        ensures room { result.now.log.room ≡ self.now.items }
    {
        self.lanes.state(place, slot)
    }

    /// Whether that shadow is out.
    pub fn out(&self, place: u32, slot: u32) -> bool
        requires place { place < length self.now.seats }
        requires slot { (r : Seat) → slice_get self.now.seats place ≡ Some r → slot < length (slots_of r) }
        ensures { option_map (λ (s : Slot). s.out) (slot_at self.now.seats place slot) ≡ Some result }
    {
        self.lanes.out(place, slot)
    }

    /// The point of the transaction at a place against the one at another: the position of its earliest read of an item that the
    /// other has written, at their optimistic positions.
    pub fn point_between(&self, reader: u32, writer: u32) -> Option<u32>
        requires reader { reader < length self.now.seats }
        requires writer { writer < length self.now.seats }
        requires different { reader ≢ writer }
        ensures { (r u : Seat) → slice_get self.now.seats reader ≡ Some r → slice_get self.now.seats writer ≡ Some u → result ≡ point_of r.optimistic.state.log.reads u.optimistic.state.writes }
    {
        match &self.index {
            Some(index) => index.point_of(reader, writer),
            None => point(
                self.lanes.state(reader, 0).reads(),
                self.lanes.state(writer, 0).writes(),
            ),
        }
    }

    /// Marks that shadow as out, or as not out.
    pub fn set_out(&mut self, place: u32, slot: u32, out: bool)
        requires place { place < length self.old.seats }
        requires slot { (r : Seat) → slice_get self.old.seats place ≡ Some r → slot < length (slots_of r) }
        ensures { self.new ≡ record self.old { seats = at_place place (seat_with slot (marked_slot out)) self.old.seats } }
    {
        self.lanes.set_out(place, slot, out);
    }

    /// Nothing is out any more.
    pub fn recall(&mut self)
        ensures { self.new ≡ record self.old { seats = map recalled_seat self.old.seats } }
    {
        self.lanes.recall();
    }

    /// A transaction starts, with one shadow at the start of its program.
    pub fn start(&mut self, number: u32, code: &Code)
        requires room { length self.old.seats < self.old.lanes }
        requires new { find_seat self.old.seats number ≡ None }
        requires carries { Carries code.now.nodes self.old.items }
        ensures { self.new ≡ record self.old { seats = seats_with number code.now.nodes self.old.items self.old.seats } }
    {
        let free = self.lanes.len();
        self.lanes.start(number, code);
        if let Some(index) = &mut self.index {
            if let Some(place) = self.lanes.find(number) {
                index.move_to(free, place);
            }
        }
    }

    /// A transaction is not started any more.
    pub fn remove(&mut self, number: u32)
        ensures { self.new ≡ record self.old { seats = seats_without number self.old.seats } }
    {
        if let Some(index) = &mut self.index {
            if let Some(place) = self.lanes.find(number) {
                let last = self.lanes.len() - 1;
                index.forget(place);
                index.move_to(place, last);
            }
        }
        self.lanes.remove(number);
    }

    /// Whether the transaction at a place may want other shadows than it has.
    pub fn changed(&self, place: u32) -> bool
        requires { place < length self.now.seats }
        ensures { result ≡ false → (r : Seat) → slice_get self.now.seats place ≡ Some r → conflicts_of r ≡ wanted_among self.now.most None self.now.seats r }
    {
        match &self.index {
            Some(index) => index.changed(place),
            None => {
                // the limits come with the number of the started
                let _ = self.lanes.len();
                false
            }
        }
    }

    /// Where each transaction has the shadows that it wants, none may want others any more.
    pub fn settled(&mut self)
        requires { AreWanted self.old }
        ensures { self.new ≡ self.old }
    {
        if let Some(index) = &mut self.index {
            index.settled();
        }
    }

    /// The transaction at a place has exactly the shadows that it wants, out of those that it has: one for the same guard that is not
    /// past its point stays, and any other is a copy of the furthest that is not past the point, or fresh.
    pub fn renew(&mut self, place: u32, code: &Code)
        requires place { place < length self.old.seats }
        requires carries { Carries code.now.nodes self.old.items }
        ensures { (r : Seat) → slice_get self.old.seats place ≡ Some r
            → self.new ≡ record self.old { seats = at_place place (renewed code.now.nodes self.old.items (wanted_among self.old.most None self.old.seats r)) self.old.seats } }
    {
        match &self.index {
            Some(index) => {
                let conflicts = wanted_at(&self.lanes, index, place, None);
                have(&mut self.lanes, place, conflicts.as_slice(), code);
            }
            None => {
                // the limits come with the number of the started
                let _ = self.lanes.len();
            }
        }
    }

    /// The furthest shadow at or before the cut is the optimistic one from now on, with its mark, and the others at or before
    /// the cut stay; where there is none, a fresh one is.
    pub fn promote(&mut self, place: u32, cut: u32, code: &Code)
        requires place { place < length self.old.seats }
        requires carries { Carries code.now.nodes self.old.items }
        ensures { self.new ≡ record self.old { seats = at_place place (promoted_seat code.now.nodes self.old.items cut) self.old.seats } }
    {
        self.lanes.promote(place, cut, code);
        if let Some(index) = &mut self.index {
            note_anew(index, place, self.lanes.state(place, 0));
        }
    }

    /// A shadow of the transaction at a place makes a step over these tables, of which its state is a run, and is not out. It ticks
    /// once.
    pub fn step<L: Ledger>(
        &mut self,
        place: u32,
        slot: u32,
        code: &Code,
        tables: &Table,
        steps: &mut Steps<L>,
    )
        requires place { place < length self.old.seats }
        requires slot { (r : Seat) → slice_get self.old.seats place ≡ Some r → slot < length (slots_of r) }
        requires runs { (s : Slot) → slot_at self.old.seats place slot ≡ Some s → RunsHere code.now.nodes tables.now s.state × (s.state.done ≡ false) }
        requires tables { length tables.now ≡ self.old.items }
        ensures seats { (s : Slot) × (state : Held) × ((slot_at self.old.seats place slot ≡ Some s) × ((self.new ≡ record self.old { seats = at_place place (seat_with slot (stepped_slot state)) self.old.seats }) × StepsOver code.now.nodes tables.now s.state state)) }
        ensures tick { steps.new ≡ steps.old + 1 }
    {
        let state = self.lanes.state(place, slot);
        let position = state.position();
        let kind = state.next_kind(code);
        self.lanes.step(place, slot, code, tables, steps);
        if slot == 0 {
            if let Some(index) = &mut self.index {
                note_step(index, place, position, kind);
            }
        }
    }

    /// The optimistic shadow of the transaction at a place reads an item of these tables, over which its state is a run, and is not out;
    /// before the step the transaction gets the shadows that it wants after it. It ticks once.
    pub fn read<L: Ledger>(
        &mut self,
        place: u32,
        item: u32,
        code: &Code,
        tables: &Table,
        steps: &mut Steps<L>,
    )
        requires place { place < length self.old.seats }
        requires runs { (r : Seat) → slice_get self.old.seats place ≡ Some r → RunsHere code.now.nodes tables.now r.optimistic.state × HasKind code.now.nodes r.optimistic.state (TableRead item) × (r.optimistic.state.done ≡ false) }
        requires tables { length tables.now ≡ self.old.items }
        requires item { item < self.old.items }
        requires carries { Carries code.now.nodes self.old.items }
        ensures seats { (r : Seat) × (state : Held) × ((slice_get self.old.seats place ≡ Some r)
            × ((self.new ≡ record self.old { seats = at_place place (seat_with 0 (stepped_slot state)) (at_place place (renewed code.now.nodes self.old.items (wanted_among self.old.most (Some item) self.old.seats r)) self.old.seats) })
            × StepsOver code.now.nodes tables.now r.optimistic.state state)) }
        ensures tick { steps.new ≡ steps.old + 1 }
    {
        // the limits come with the number of the started
        let _ = self.lanes.len();
        let position = self.lanes.state(place, 0).position();
        if let Some(index) = &mut self.index {
            have_before_read(&mut self.lanes, index, place, item, code);
            index.note_read(place, position, item);
        }
        self.lanes.step(place, 0, code, tables, steps);
    }

    /// A shadow of the transaction at a place makes Local steps until its next one is not Local or so many are made, and is not out.
    /// Answers their number. Each ticks once.
    pub fn run_local<L: Ledger>(
        &mut self,
        place: u32,
        slot: u32,
        code: &Code,
        most: u32,
        steps: &mut Steps<L>,
    ) -> u32
        requires place { place < length self.old.seats }
        requires slot { (r : Seat) → slice_get self.old.seats place ≡ Some r → slot < length (slots_of r) }
        requires runs { (s : Slot) → slot_at self.old.seats place slot ≡ Some s → Runs code.now.nodes s.state }
        ensures seats { (s : Slot) × (state : Held) × ((slot_at self.old.seats place slot ≡ Some s) × ((self.new ≡ record self.old { seats = at_place place (seat_with slot (stepped_slot state)) self.old.seats }) × RunsLocal code.now.nodes most s.state state result)) }
        ensures ticks { steps.new ≡ steps.old + result }
    {
        self.lanes.run_local(place, slot, code, most, steps)
    }

    /// The state of a shadow of the transaction at a place becomes a copy of this one, and the shadow is not out. One for the optimistic
    /// shadow has read and written the same.
    pub fn store(&mut self, place: u32, slot: u32, state: &State)
        requires place { place < length self.old.seats }
        requires slot { (r : Seat) → slice_get self.old.seats place ≡ Some r → slot < length (slots_of r) }
        requires room { state.now.log.room ≡ self.old.items }
        requires same { (r : Seat) → slot ≡ 0 → slice_get self.old.seats place ≡ Some r → HasSameLists r.optimistic.state state.now }
        ensures { self.new ≡ record self.old { seats = at_place place (seat_with slot (stepped_slot state.now)) self.old.seats } }
    {
        self.lanes.store(place, slot, state);
    }
}
