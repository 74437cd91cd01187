ghost use Rattle.std.specs.Prelude.{◌≡◌, IsTrue};
ghost use Rattle.block_rule.specs.Standing.{standing, has_point};

use crate::role::Role;

/// Whether a shadow may make a step.
#[derive(Clone, Copy, Debug, PartialEq, Eq)]
pub enum Standing {
    Runnable,
    /// It stands at its point.
    Blocked,
    /// Its run has ended.
    Ended,
}

/// How a shadow with this role stands at this position, given its point where it is a guard's, and whether its run
/// has ended where it is the optimistic one.
pub fn status(role: Role, position: u32, point: Option<u32>, ended: bool) -> Standing
    requires { IsTrue (has_point role point) }
    ensures { result ≡ standing role position point ended }
{
    match (role, point) {
        (Role::Optimistic, _) => {
            if ended {
                Standing::Ended
            } else {
                Standing::Runnable
            }
        }
        (Role::Guard(_), Some(at)) => {
            if position < at {
                Standing::Runnable
            } else {
                Standing::Blocked
            }
        }
        (Role::Guard(_), None) => Standing::Runnable,
    }
}
