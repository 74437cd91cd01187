//! The transactions that wait for a lane.
//!
//! The rules stand in docs/RULES.md, what is proved in docs/PROMISES.md.
#![tactic(auto)]

ghost use Rattle.std.specs.Prelude.{◌≡◌, ◌↔◌, None, ◌<◌, ◌++◌, [], ◌∷◌, not, length, filter, option_map, OnOk, OnErr};
ghost use Rattle.std.specs.List.{AllByRecursion};
ghost use Rattle.forest_model.specs.Choose.{first_by};
ghost use Rattle.wait_list.specs.Waiting.{Waiting as WaitingOf, comes_first, is_same};

use std::alloc::{AllocError, Global};
use std::collections::BTreeSet;
use std::marker::Model;

/// Transactions that wait, each with its deadline, seen as a list in rising order of their numbers. To find the first by deadline
/// takes time that grows with the logarithm of how many wait. Memory is taken where one is added, and nowhere else.
#[derive(Drop)]
pub struct WaitList {
    line: BTreeSet<(u64, u32)>,
}

impl Model for WaitList {
    ghost use Rattle.std.specs.Prelude.{List};
    ghost use Rattle.wait_list.specs.Waiting.{Waiting, AreInLine, by_number};

    ghost Value = { List Waiting };

    ghost view = { λ w. by_number w.line.keys };

    ghost invariant = { λ w. AreInLine w.line.keys };
}

impl WaitList {
    /// Nobody waits.
    pub fn new(alloc: Global) -> WaitList
        ensures { result ≡ [] }
    {
        WaitList {
            line: BTreeSet::new(alloc),
        }
    }

    /// How many wait.
    pub fn len(&self) -> usize
        ensures { result ≡ length self.now }
    {
        self.line.len()
    }

    /// One more waits, of a greater number than all others. After want of memory all is as before.
    pub fn add(&mut self, txn: u32, deadline: u64) -> Result<(), AllocError>
        requires { AllByRecursion (λ (w : WaitingOf). w.1 < txn) self.old }
        ensures ok { OnOk result (self.new ≡ self.old ++ (deadline, txn) ∷ []) }
        ensures err { OnErr result (self.new ≡ self.old) }
    {
        match self.line.insert((deadline, txn)) {
            Ok(_) => Ok(()),
            Err(_) => Err(AllocError),
        }
    }

    /// The number of the first by deadline, and of equal ones by number. `None` exactly where nobody waits.
    pub fn first(&self) -> Option<u32>
        ensures value { result ≡ option_map (λ (w : WaitingOf). w.1) (first_by comes_first self.now) }
        ensures none { (result ≡ None) ↔ (self.now ≡ []) }
    {
        match self.line.first() {
            Some(first) => Some(first.1),
            None => None,
        }
    }

    /// The transaction of this number and deadline, if it is there, doesn't wait any more.
    pub fn remove(&mut self, txn: u32, deadline: u64)
        ensures { self.new ≡ filter (λ (w : WaitingOf). not (is_same w (deadline, txn))) self.old }
    {
        let _waited = self.line.remove(&(deadline, txn));
    }
}
