//! The rows of the shadows that may make a step, kept in the order of the pick.
//!
//! The rules stand in docs/RULES.md, what is proved in docs/PROMISES.md.
#![tactic(auto)]

ghost use Rattle.std.specs.Prelude.{◌≡◌, ◌↔◌, ◌*◌, ◌≤◌, ◌<◌, ◌++◌, ◌∷◌, IsTrue, List, true, false, None, [], not, length, filter, option_map, IfOk};
ghost use Rattle.std.specs.List.{AllByRecursion, list_any, insert, position};
ghost use Rattle.block_rule.specs.declared.role.Row.{Row as RowOf};
ghost use Rattle.forest_model.specs.Choose.{put_in_order, in_order};
ghost use Rattle.forest_model.specs.Pick.{pick_of, is_earlier as is_earlier_of, is_ready as is_ready_of};
ghost use Rattle.ready_rows.specs.Rows.{is_at, AreApart, IsInOrder};

use block_rule::{Role, Row};
use ready_order::is_earlier;
use std::alloc::{AllocError, Global};
use std::marker::Model;

/// Rows of shadows that are runnable and not out, seen as a list in the order of the pick. Room for them is taken once.
#[derive(Drop)]
pub struct Ready {
    room: u32,
    rows: Vec<Row>,
}

impl Model for Ready {
    ghost use Rattle.std.specs.Vec.{vec_capacity};
    ghost use Rattle.ready_rows.specs.Rows as of;
    ghost use Rattle.ready_rows.specs.Rows.{AreReady};

    ghost Value = { of.Rows };

    ghost view = { λ r. record { room = r.room; rows = r.rows.items } };

    ghost invariant = { λ r. AreReady r.room (vec_capacity r.rows) r.rows.items };
}

impl Ready {
    /// No rows, with room for those of so many lanes, 1 to 64, with k shadows each, 1 to 8. No later call takes memory.
    ///
    /// # Errors
    /// Where memory runs out.
    pub fn open(alloc: Global, lanes: u32, k: u32) -> Result<Ready, AllocError>
        requires lanes { (1 ≤ lanes) × (lanes ≤ 64) }
        requires k { (1 ≤ k) × (k ≤ 8) }
        ensures { IfOk result (λ ready. ready ≡ record { room = lanes * k; rows = [] }) }
    {
        let room = lanes * k;
        let rows = Vec::with_capacity(alloc, room as usize)?;
        Ok(Ready { room, rows })
    }

    /// Adds a row, of a shadow that is runnable, isn't out and has no row.
    pub fn put(&mut self, row: Row)
        requires room { length self.old.rows < self.old.room }
        requires ready { IsTrue (is_ready_of row) }
        requires new { AllByRecursion (λ other. is_at row.txn row.place other ≡ false) self.old.rows }
        ensures { self.new ≡ record self.old { rows = put_in_order is_earlier_of row self.old.rows } }
    {
        let place = place_for(&self.rows, &row);
        let _put = self.rows.insert(place, row);
    }

    /// Takes out the row of the shadow at a place of a transaction; whether there was one.
    pub fn take_out(&mut self, txn: u32, place: u32) -> bool
        ensures rows { self.new ≡ record self.old { rows = filter (λ row. not (is_at txn place row)) self.old.rows } }
        ensures was { result ≡ list_any (is_at txn place) self.old.rows }
    {
        match place_of(&self.rows, txn, place) {
            Some(at) => {
                let _row = self.rows.remove(at);
                true
            }
            None => false,
        }
    }

    /// The transaction and the role of the shadow that makes the next step: the pick of the rows. `None` exactly where
    /// there are no rows.
    pub fn first(&self) -> Option<(u32, Role)>
        ensures pick { result ≡ option_map (λ row. (row.txn, row.role)) (pick_of self.now.rows) }
        ensures none { (result ≡ None) ↔ (self.now.rows ≡ []) }
    {
        match self.rows.first() {
            Some(row) => Some((row.txn, row.role)),
            None => None,
        }
    }
}

// The place where a row belongs among rows in order, found by halving.
fn place_for(rows: &[Row], row: &Row) -> usize
    requires { IsInOrder rows.now }
    ensures within { result ≤ length rows.now }
    ensures place { put_in_order is_earlier_of row.now rows.now ≡ insert rows.now result row.now }
{
    rows.partition_point(|other| is_earlier(other, row))
}

// The place of the first row of the shadow at a place of a transaction.
fn place_of(rows: &[Row], txn: u32, place: u32) -> Option<usize>
    ensures { result ≡ position (is_at txn place) rows.now }
{
    rows.iter()
        .position(|row| row.txn == txn && row.place == place)
}

/// How the rows in order follow all rows of shadows: the pick is theirs, and where one row comes in between others it is
/// put in order, and is taken out again as it goes.
pub fn following()
    ensures pick { (rows : List RowOf) → AreApart rows → pick_of (in_order is_earlier_of (filter is_ready_of rows)) ≡ pick_of rows }
    ensures put { (xs ys : List RowOf) (row : RowOf) → is_ready_of row ≡ true → AllByRecursion (λ other. is_at row.txn row.place other ≡ false) ys
        → in_order is_earlier_of (filter is_ready_of (xs ++ row ∷ ys)) ≡ put_in_order is_earlier_of row (in_order is_earlier_of (filter is_ready_of (xs ++ ys))) }
    ensures out { (xs ys : List RowOf) (row : RowOf) → AllByRecursion (λ other. is_at row.txn row.place other ≡ false) xs → AllByRecursion (λ other. is_at row.txn row.place other ≡ false) ys
        → filter (λ other. not (is_at row.txn row.place other)) (in_order is_earlier_of (filter is_ready_of (xs ++ row ∷ ys))) ≡ in_order is_earlier_of (filter is_ready_of (xs ++ ys)) }
{}
