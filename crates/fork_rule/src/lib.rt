//! Where the state of a shadow comes from.
//!
//! The rules stand in docs/RULES.md, what is proved in docs/PROMISES.md.
#![tactic(auto)]

ghost use Rattle.std.specs.Prelude.{◌≡◌, ◌<◌, ◌↔◌, [], ◌∷◌, ◌++◌, option_to_list};
ghost use Rattle.std.specs.List.{AllByRecursion, list_any};
ghost use Rattle.block_rule.specs.declared.role.Origin.TheVariants.{Fresh};
ghost use Rattle.forest_model.specs.Choose.{first_by};
ghost use Rattle.forest_model.specs.Origin.{origin as origin_of, successor, from_found, furthest as furthest_of, is_further as is_further_of, is_kept as is_kept_of};

use block_rule::{Origin, Role};

/// Where the shadow of a transaction for a guard and its point comes from, by the roles and positions of the
/// transaction's shadows in their order: one for that guard that has not passed the point is kept; else it is a copy of
/// the furthest that has not passed it, and of several the first. `Fresh` exactly where all have passed the point.
/// `forest_model::origins` says that settling takes the state from there.
pub fn origin(positions: &[(Role, u32)], guard: u32, point: u32) -> Origin
    ensures origin { result ≡ origin_of positions.now guard point }
    ensures fresh { (result ≡ Fresh) ↔ AllByRecursion (λ x. point < x.1) positions.now }
{
    if has_kept(positions, guard, point) {
        Origin::Keep
    } else {
        copied(positions, point)
    }
}

/// A copy of the furthest shadow at or before a position, of several the first. `Fresh` exactly where there is none.
/// `forest_model::origins` says that settling, where no shadow is kept, and a cut take the state from there.
pub fn copied(positions: &[(Role, u32)], limit: u32) -> Origin
    ensures copied { result ≡ successor positions.now limit }
    ensures fresh { (result ≡ Fresh) ↔ AllByRecursion (λ x. limit < x.1) positions.now }
{
    copy_of(furthest(positions, limit))
}

fn copy_of(found: Option<(Role, u32)>) -> Origin
    ensures { result ≡ from_found found }
{
    match found {
        Some((role, _)) => Origin::From(role),
        None => Origin::Fresh,
    }
}

fn has_kept(positions: &[(Role, u32)], guard: u32, point: u32) -> bool
    ensures { result ≡ list_any (is_kept_of guard point) positions.now }
{
    for placed in positions {
        if is_kept(placed, guard, point) {
            return true;
        }
    }
    false
}

// It waits for this guard, and has not passed the point.
fn is_kept(placed: &(Role, u32), guard: u32, point: u32) -> bool
    ensures { result ≡ is_kept_of guard point placed.now }
{
    placed.0 == Role::Guard(guard) && placed.1 <= point
}

fn furthest(positions: &[(Role, u32)], limit: u32) -> Option<(Role, u32)>
    ensures { result ≡ furthest_of positions.now limit }
{
    let mut found: Option<(Role, u32)> = None;
    for placed in positions {
        if placed.1 <= limit {
            found = further(found, *placed);
        }
    }
    found
}

// The one that was found, or the other one where that stands further.
fn further(found: Option<(Role, u32)>, placed: (Role, u32)) -> Option<(Role, u32)>
    ensures { result ≡ first_by is_further_of (option_to_list found ++ placed ∷ []) }
{
    match found {
        Some(old) if old.1 >= placed.1 => Some(old),
        _ => Some(placed),
    }
}
