//! Which shadow is the optimistic one after a commit.
//!
//! The rules stand in docs/RULES.md, what is proved in docs/PROMISES.md.
#![tactic(auto)]

ghost use Rattle.std.specs.Prelude.{◌≡◌, ◌≢◌, ◌<◌, ◌↔◌};
ghost use Rattle.std.specs.List.{AllByRecursion};
ghost use Rattle.block_rule.specs.declared.role.Origin.TheVariants.{Keep, Fresh};
ghost use Rattle.forest_model.specs.Origin.{successor};

use block_rule::{Origin, Role};
use fork_rule::copied;

/// Where the optimistic shadow of a transaction comes from after a commit with a cut that the old one does not survive,
/// by the roles and positions of the transaction's shadows in their order: the furthest that survives, and of several
/// the first. Never `Keep`, and `Fresh` exactly where all have passed the cut. `forest_model::origins` says that a cut
/// takes the state from there.
pub fn heir(positions: &[(Role, u32)], cut: u32) -> Origin
    ensures heir { result ≡ successor positions.now cut }
    ensures moves { result ≢ Keep }
    ensures fresh { (result ≡ Fresh) ↔ AllByRecursion (λ x. cut < x.1) positions.now }
{
    copied(positions, cut)
}
