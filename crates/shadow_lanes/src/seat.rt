ghost use Rattle.std.specs.Prelude.{◌≡◌, ◌<◌, ◌≤◌, [], List, length, slice_get, Some};
ghost use Rattle.shadow_state.specs.Bank.{Slot};
ghost use Rattle.shadow_lanes.specs.Seats.{role_slot};
ghost use Rattle.block_rule.specs.declared.role.Role.TheVariants.{Guard};
ghost use Rattle.shadow_lanes.specs.Kept.{seat_of};

use arrayvec::ArrayVec;
use block_rule::Role;
use std::marker::Model;

/// A started transaction: its number, the lane with its states, and the conflicts that it has shadows for, at most 7.
#[derive(Drop)]
pub struct KeptSeat {
    number: u32,
    lane: u32,
    conflicts: ArrayVec<(u32, u32), 7>,
}

impl Model for KeptSeat {
    ghost use Rattle.shadow_lanes.specs.Kept.{Kept};

    ghost Value = { Kept };

    ghost view = { λ s. record { number = s.number; lane = s.lane; conflicts = s.conflicts.items } };
}

impl KeptSeat {
    pub fn new(number: u32, lane: u32) -> KeptSeat
        ensures { result ≡ record { number = number; lane = lane; conflicts = [] } }
    {
        KeptSeat {
            number,
            lane,
            conflicts: ArrayVec::new(),
        }
    }

    pub fn number(&self) -> u32
        ensures { result ≡ self.now.number }
    {
        self.number
    }

    pub fn lane(&self) -> u32
        ensures { result ≡ self.now.lane }
    {
        self.lane
    }

    pub fn conflicts(&self) -> &[(u32, u32)]
        ensures conflicts { result.now ≡ self.now.conflicts }
        ensures few { length result.now ≤ 7 }
    {
        self.conflicts.as_slice()
    }

    pub fn set_conflicts(&mut self, conflicts: &[(u32, u32)])
        requires { length conflicts.now ≤ 7 }
        ensures { self.new ≡ record self.old { conflicts = conflicts.now } }
    {
        self.conflicts.clear();
        let _copied = self.conflicts.try_extend_from_slice(conflicts);
    }

    /// The slot of the shadow with this role; where there is none, that of the optimistic one.
    pub fn slot_of(&self, role: Role) -> u32
        ensures within { result ≤ length self.now.conflicts }
        ensures slot { (slots : List Slot) → length self.now.conflicts < length slots → slice_get slots result ≡ Some (role_slot role (seat_of self.now slots)) }
    {
        match role {
            Role::Optimistic => 0,
            Role::Guard(guard) => self.guard_slot(guard),
        }
    }

    fn guard_slot(&self, guard: u32) -> u32
        ensures within { result ≤ length self.now.conflicts }
        ensures slot { (slots : List Slot) → length self.now.conflicts < length slots → slice_get slots result ≡ Some (role_slot (Guard guard) (seat_of self.now slots)) }
    {
        let conflicts = self.conflicts();
        for i in 0..conflicts.len() {
            if conflicts[i].0 == guard {
                return i as u32 + 1;
            }
        }
        0
    }
}
