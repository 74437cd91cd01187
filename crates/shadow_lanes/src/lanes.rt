ghost use Rattle.std.specs.Prelude.{◌≡◌, ◌<◌, ◌≤◌, ◌+◌, suc, [], None, Some, false, length, map, slice_get, option_map, IfOk, MatchOption};
ghost use Rattle.txn_interp.specs.State.{Held, Carries, Runs};
ghost use Rattle.shadow_state.specs.Bank.{Slot, at_place, marked_slot};
ghost use Rattle.shadow_lanes.specs.Seats.{Seat, Seated, AreSeats, find_seat, seats_with, seats_without, slots_of, slot_at, conflicts_of, stepped_slot, seat_with, recalled_seat, settled_seat, promoted_seat, started_of, StepsOver, RunsLocal};
ghost use Rattle.shadow_lanes.specs.Kept.{AreAll, place_in, succeeded, begun_again};
ghost use Rattle.forest_model.specs.Origin.{placed_of};
ghost use Rattle.std.specs.Vec.{vec_capacity};

use crate::fill::{cut_slots, settle_slots};
use crate::positions::Positions;
use crate::seat::KeptSeat;
use block_rule::{Origin, Role};
use item_table::Table;
use promotion::heir;
use shadow_state::Bank;
use std::alloc::{AllocError, Global};
use std::marker::Model;
use std::sync::ledger::Ledger;
use step_count::Steps;
use txn_code::Code;
use txn_interp::State;

/// The started transactions in rising order of their numbers, each with the states of its shadows. All memory is taken at
/// opening.
#[derive(Drop)]
pub struct Lanes {
    bank: Bank,
    seats: Vec<KeptSeat>,
    free: Vec<u32>,
}

impl Model for Lanes {
    ghost use Rattle.std.specs.Vec.{vec_capacity};
    ghost use Rattle.shadow_lanes.specs.Seats.{Seated};
    ghost use Rattle.shadow_lanes.specs.Kept.{seated_in, AreKept};

    ghost Value = { Seated };

    ghost view = { λ l. seated_in l.bank l.seats.items };

    ghost invariant = { λ l. AreKept l.bank l.seats.items l.free.items (vec_capacity l.seats) (vec_capacity l.free) };
}

impl Lanes {
    /// Room for so many started transactions, 1 to 64, with so many shadows each, 1 to 8, over so many items, at most 1,024; nobody
    /// is started. Where memory runs out, `AllocError`; no other call takes memory.
    pub fn open(alloc: Global, items: u32, k: u32, lanes: u32) -> Result<Lanes, AllocError>
        requires items { items ≤ 1024 }
        requires least { 1 ≤ k }
        requires most { k ≤ 8 }
        requires some { 1 ≤ lanes }
        requires lanes { lanes ≤ 64 }
        ensures { IfOk result (λ l. l ≡ record { most = k; lanes = lanes; items = items; seats = [] }) }
    {
        let bank = Bank::open(alloc, items, k, lanes)?;
        Lanes::over(alloc, bank)
    }

    /// Room for as many started transactions as the bank has lanes; nobody is started. Where memory runs out, `AllocError`, and
    /// the bank's own goes back.
    pub fn over(alloc: Global, bank: Bank) -> Result<Lanes, AllocError>
        ensures { IfOk result (λ l. l ≡ record { most = bank.most; lanes = length bank.sides; items = bank.items; seats = [] }) }
    {
        let lanes = bank.lanes();
        let seats = Vec::with_capacity(alloc, lanes as usize)?;
        let free = all_lanes(alloc, lanes)?;
        Ok(Lanes { bank, seats, free })
    }

    /// How many shadows a transaction has, at most.
    pub fn most(&self) -> u32
        ensures { result ≡ self.now.most }
    {
        self.bank.most()
    }

    /// How many transactions are started at once, at most.
    pub fn lanes(&self) -> u32
        ensures { result ≡ self.now.lanes }
    {
        self.bank.lanes()
    }

    /// How many transactions are started.
    pub fn len(&self) -> u32
        ensures len { result ≡ length self.now.seats }
        ensures seats { AreSeats self.now }
    {
        self.seats.len() as u32
    }

    /// The number of the started transaction at a place.
    pub fn number(&self, place: u32) -> u32
        requires { place < length self.now.seats }
        ensures { option_map (λ (r : Seat). r.number) (slice_get self.now.seats place) ≡ Some result }
    {
        self.seats[place as usize].number()
    }

    /// The place of a started transaction, if it is one.
    pub fn find(&self, number: u32) -> Option<u32>
        ensures { MatchOption result (find_seat self.now.seats number ≡ None) (λ place. (place < length self.now.seats) × (slice_get self.now.seats place ≡ find_seat self.now.seats number)) }
    {
        for place in 0..self.len() {
            if self.number(place) == number {
                return Some(place);
            }
        }
        None
    }

    /// The guards and the points that the transaction at a place has shadows for, in order.
    pub fn conflicts(&self, place: u32) -> &[(u32, u32)]
        requires { place < length self.now.seats }
        ensures { option_map conflicts_of (slice_get self.now.seats place) ≡ Some result.now }
    {
        self.seats[place as usize].conflicts()
    }

    /// The state of a shadow of the transaction at a place; slot 0 is the optimistic one.
    pub fn state(&self, place: u32, slot: u32) -> &State
        requires place { place < length self.now.seats }
        requires slot { (r : Seat) → slice_get self.now.seats place ≡ Some r → slot < length (slots_of r) }
        ensures state { option_map (λ (s : Slot). s.state) (slot_at self.now.seats place slot) ≡ Some result.now }
        ensures room { result.now.log.room ≡ self.now.items }
    {
        let lane = self.seats[place as usize].lane();
        self.bank.state(lane, slot)
    }

    /// Whether that shadow is out.
    pub fn out(&self, place: u32, slot: u32) -> bool
        requires place { place < length self.now.seats }
        requires slot { (r : Seat) → slice_get self.now.seats place ≡ Some r → slot < length (slots_of r) }
        ensures { option_map (λ (s : Slot). s.out) (slot_at self.now.seats place slot) ≡ Some result }
    {
        let lane = self.seats[place as usize].lane();
        self.bank.out(lane, slot)
    }

    /// Marks that shadow as out, or as not out.
    pub fn set_out(&mut self, place: u32, slot: u32, out: bool)
        requires place { place < length self.old.seats }
        requires slot { (r : Seat) → slice_get self.old.seats place ≡ Some r → slot < length (slots_of r) }
        ensures { self.new ≡ record self.old { seats = at_place place (seat_with slot (marked_slot out)) self.old.seats } }
    {
        let lane = self.seats[place as usize].lane();
        self.bank.set_out(lane, slot, out);
    }

    /// Nothing is out any more.
    pub fn recall(&mut self)
        ensures { self.new ≡ record self.old { seats = map recalled_seat self.old.seats } }
    {
        for place in 0..self.len() {
            self.recall_seat(place);
        }
    }

    /// A transaction starts, with one shadow at the start of its program.
    pub fn start(&mut self, number: u32, code: &Code)
        requires room { length self.old.seats < self.old.lanes }
        requires new { find_seat self.old.seats number ≡ None }
        requires carries { Carries code.now.nodes self.old.items }
        ensures { self.new ≡ record self.old { seats = seats_with number code.now.nodes self.old.items self.old.seats } }
    {
        let Some(lane) = self.free.pop() else {
            unreachable!()
        };
        self.bank.start(lane, code);
        let place = place_before(&self.seats, number);
        let _placed = self.seats.insert(place, KeptSeat::new(number, lane));
    }

    /// A transaction is not started any more.
    pub fn remove(&mut self, number: u32)
        ensures { self.new ≡ record self.old { seats = seats_without number self.old.seats } }
    {
        if let Some(place) = self.find(number) {
            let seat = self.seats.remove(place as usize);
            self.free.push_reserved(seat.lane());
        }
    }

    /// The transaction at a place has exactly the shadows for these guards and points, out of those that it has: one for the
    /// same guard that is not past its point stays, and any other is a copy of the furthest that is not past the point, or fresh.
    pub fn settle(&mut self, place: u32, conflicts: &[(u32, u32)], code: &Code)
        requires place { place < length self.old.seats }
        requires few { suc (length conflicts.now) ≤ self.old.most }
        requires carries { Carries code.now.nodes self.old.items }
        ensures { self.new ≡ record self.old { seats = at_place place (settled_seat code.now.nodes self.old.items conflicts.now) self.old.seats } }
    {
        let rows = self.positions(place);
        let lane = self.seats[place as usize].lane();
        self.bank.swap_sides(lane);
        settle_slots(
            &mut self.bank,
            &self.seats[place as usize],
            rows.as_slice(),
            conflicts,
            code,
        );
        self.seats[place as usize].set_conflicts(conflicts);
    }

    /// The furthest shadow at or before the cut is the optimistic one from now on, with its mark, and the others at or before
    /// the cut stay; where there is none, a fresh one is.
    pub fn promote(&mut self, place: u32, cut: u32, code: &Code)
        requires place { place < length self.old.seats }
        requires carries { Carries code.now.nodes self.old.items }
        ensures { self.new ≡ record self.old { seats = at_place place (promoted_seat code.now.nodes self.old.items cut) self.old.seats } }
    {
        let rows = self.positions(place);
        match heir(rows.as_slice(), cut) {
            Origin::Keep => {}
            Origin::From(role) => self.succeed(place, rows.as_slice(), role, cut),
            Origin::Fresh => self.begin_again(place, code),
        }
    }

    /// A shadow of the transaction at a place makes a step over these tables, and is not out. It ticks once.
    pub fn step<L: Ledger>(
        &mut self,
        place: u32,
        slot: u32,
        code: &Code,
        tables: &Table,
        steps: &mut Steps<L>,
    )
        requires place { place < length self.old.seats }
        requires slot { (r : Seat) → slice_get self.old.seats place ≡ Some r → slot < length (slots_of r) }
        requires runs { (s : Slot) → slot_at self.old.seats place slot ≡ Some s → Runs code.now.nodes s.state × (s.state.done ≡ false) }
        requires tables { length tables.now ≡ self.old.items }
        ensures seats { (s : Slot) × (state : Held) × ((slot_at self.old.seats place slot ≡ Some s) × ((self.new ≡ record self.old { seats = at_place place (seat_with slot (stepped_slot state)) self.old.seats }) × StepsOver code.now.nodes tables.now s.state state)) }
        ensures tick { steps.new ≡ steps.old + 1 }
    {
        let lane = self.seats[place as usize].lane();
        self.bank.step(lane, slot, code, tables, steps);
        self.bank.set_out(lane, slot, false);
    }

    /// A shadow of the transaction at a place makes Local steps until its next one is not Local or so many are made, and is not out.
    /// Answers their number. Each ticks once.
    pub fn run_local<L: Ledger>(
        &mut self,
        place: u32,
        slot: u32,
        code: &Code,
        most: u32,
        steps: &mut Steps<L>,
    ) -> u32
        requires place { place < length self.old.seats }
        requires slot { (r : Seat) → slice_get self.old.seats place ≡ Some r → slot < length (slots_of r) }
        requires runs { (s : Slot) → slot_at self.old.seats place slot ≡ Some s → Runs code.now.nodes s.state }
        ensures seats { (s : Slot) × (state : Held) × ((slot_at self.old.seats place slot ≡ Some s) × ((self.new ≡ record self.old { seats = at_place place (seat_with slot (stepped_slot state)) self.old.seats }) × RunsLocal code.now.nodes most s.state state result)) }
        ensures ticks { steps.new ≡ steps.old + result }
    {
        let own = self.seats[place as usize].lane();
        let made = self.bank.run_local(own, slot, code, most, steps);
        self.bank.set_out(own, slot, false);
        made
    }

    /// The state of a shadow of the transaction at a place becomes a copy of this one, and the shadow is not out.
    pub fn store(&mut self, place: u32, slot: u32, state: &State)
        requires place { place < length self.old.seats }
        requires slot { (r : Seat) → slice_get self.old.seats place ≡ Some r → slot < length (slots_of r) }
        requires room { state.now.log.room ≡ self.old.items }
        ensures { self.new ≡ record self.old { seats = at_place place (seat_with slot (stepped_slot state.now)) self.old.seats } }
    {
        let lane = self.seats[place as usize].lane();
        self.bank.store(lane, slot, state);
    }

    fn recall_seat(&mut self, place: u32)
        requires { place < length self.old.seats }
        ensures { self.new ≡ record self.old { seats = at_place place recalled_seat self.old.seats } }
    {
        self.set_out(place, 0, false);
        for i in 0..self.waiters(place) {
            self.set_out(place, i + 1, false);
        }
    }

    /// The roles and positions of the shadows of the transaction at a place.
    fn positions(&self, place: u32) -> Positions
        requires { place < length self.now.seats }
        ensures { option_map (λ (r : Seat). placed_of (started_of r)) (slice_get self.now.seats place) ≡ Some result }
    {
        let mut rows = Positions::new();
        rows.push(Role::Optimistic, self.state(place, 0).position());
        let conflicts = self.conflicts(place);
        for i in 0..self.waiters(place) {
            let state = self.state(place, i + 1);
            rows.push(Role::Guard(conflicts[i as usize].0), state.position());
        }
        rows
    }

    /// How many shadows of the transaction at a place wait.
    fn waiters(&self, place: u32) -> u32
        requires { place < length self.now.seats }
        ensures number { (r : Seat) → slice_get self.now.seats place ≡ Some r → result ≡ length r.waiters }
        ensures few { result ≤ 7 }
    {
        self.seats[place as usize].conflicts().len() as u32
    }

    /// The shadow with this role becomes the optimistic one.
    fn succeed(&mut self, place: u32, rows: &[(Role, u32)], role: Role, cut: u32)
        requires place { place < length self.old.seats }
        requires rows { option_map (λ (r : Seat). placed_of (started_of r)) (slice_get self.old.seats place) ≡ Some rows.now }
        ensures { self.new ≡ record self.old { seats = at_place place (succeeded role cut) self.old.seats } }
    {
        let lane = self.seats[place as usize].lane();
        self.bank.swap_sides(lane);
        let stay = cut_slots(&mut self.bank, &self.seats[place as usize], rows, role, cut);
        self.seats[place as usize].set_conflicts(stay.as_slice());
    }

    /// The transaction at a place has one shadow, at the start of its program.
    fn begin_again(&mut self, place: u32, code: &Code)
        requires place { place < length self.old.seats }
        requires carries { Carries code.now.nodes self.old.items }
        ensures { self.new ≡ record self.old { seats = at_place place (begun_again code.now.nodes self.old.items) self.old.seats } }
    {
        let lane = self.seats[place as usize].lane();
        self.bank.start(lane, code);
        self.seats[place as usize].set_conflicts(&[]);
    }
}

/// The numbers of all lanes, with room for as many.
fn all_lanes(alloc: Global, lanes: u32) -> Result<Vec<u32>, AllocError>
    ensures { IfOk result (λ v. AreAll lanes v.items (vec_capacity v)) }
{
    let mut free = Vec::with_capacity(alloc, lanes as usize)?;
    for lane in 0..lanes {
        free.push_reserved(lane);
    }
    Ok(free)
}

/// The place of a new number in the order.
fn place_before(seats: &[KeptSeat], number: u32) -> usize
    ensures { result ≡ place_in number seats.now }
{
    for i in 0..seats.len() {
        if seats[i].number() >= number {
            return i;
        }
    }
    seats.len()
}
