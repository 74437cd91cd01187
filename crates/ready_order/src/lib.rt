//! Which shadow makes the next step.
//!
//! The rules stand in docs/RULES.md, what is proved in docs/PROMISES.md.
#![tactic(auto)]

ghost use Rattle.std.specs.Prelude.{◌≡◌, ◌↔◌, true, false, [], ◌∷◌, ◌++◌, List, option_map, option_to_list};
ghost use Rattle.std.specs.List.{AllByRecursion};
ghost use Rattle.block_rule.specs.declared.role.Row.{Row as RowOf};
ghost use Rattle.forest_model.specs.Choose.{first_by};
ghost use Rattle.forest_model.specs.Pick.{pick_of, rank as rank_of, is_earlier as is_earlier_of, is_ready as is_ready_of};

pub use block_rule::Row;
use block_rule::{Role, Standing};

/// The transaction and the role of the shadow that makes the next step: the first of those that are runnable and not
/// out, by deadline, number, optimistic before the others, and place; of several that are equal in all four the first
/// in the list. `None` exactly where none is ready.
pub fn pick(rows: &[Row]) -> Option<(u32, Role)>
    ensures pick { result ≡ option_map (λ row. (row.txn, row.role)) (pick_of rows.now) }
    ensures none { (result ≡ None) ↔ AllByRecursion (λ row. is_ready_of row ≡ false) rows.now }
{
    first_ready(rows).map(|row| (row.txn, row.role))
}

fn first_ready(rows: &[Row]) -> Option<Row>
    ensures { result ≡ pick_of rows.now }
{
    let mut best: Option<Row> = None;
    for row in rows {
        if is_ready(row) {
            best = earlier(best, *row);
        }
    }
    best
}

/// The pick so far and one ready row more: the row where it comes before the pick, and else the pick. `folding` says
/// that the pick of a list comes out where this is called for its ready rows in their order, from `None` on.
pub fn earlier(best: Option<Row>, row: Row) -> Option<Row>
    ensures { result ≡ first_by is_earlier_of (option_to_list best ++ row ∷ []) }
{
    match best {
        Some(old) if !is_earlier(&row, &old) => Some(old),
        _ => Some(row),
    }
}

/// Whether the shadow may make a step now: it is runnable and not out.
pub fn is_ready(row: &Row) -> bool
    ensures { result ≡ is_ready_of row.now }
{
    row.standing == Standing::Runnable && !row.out
}

/// Whether a comes before b: by deadline, number, optimistic before the others, and place.
pub fn is_earlier(a: &Row, b: &Row) -> bool
    ensures { result ≡ is_earlier_of a.now b.now }
{
    (a.deadline, a.txn, rank(a.role), a.place) < (b.deadline, b.txn, rank(b.role), b.place)
}

fn rank(role: Role) -> u32
    ensures { result ≡ rank_of role }
{
    match role {
        Role::Optimistic => 0,
        Role::Guard(_) => 1,
    }
}

/// The pick of a list and one row more: `earlier` of the pick and the row where it is ready, and else the pick.
pub fn folding()
    ensures ready { (rows : List RowOf) (row : RowOf) → is_ready_of row ≡ true
        → pick_of (rows ++ row ∷ []) ≡ first_by is_earlier_of (option_to_list (pick_of rows) ++ row ∷ []) }
    ensures other { (rows : List RowOf) (row : RowOf) → is_ready_of row ≡ false
        → pick_of (rows ++ row ∷ []) ≡ pick_of rows }
{}
