ghost use Rattle.std.specs.Prelude.{◌≡◌};
ghost use Rattle.txn_runs.specs.Value.{calc, holds};

use crate::outcome::FaultKind;
use crate::program::{Cmp, Op};

/// The exact result of a calculation.
///
/// # Errors
/// `FaultKind::Zero` where the divisor of `Div` or `Rem` is 0, and `FaultKind::Overflow` where the result isn't a number of 64 bits.
pub fn calc(op: Op, a: i64, b: i64) -> Result<i64, FaultKind>
    ensures { result ≡ calc op a b }
{
    match op {
        Op::Add => a.checked_add(b).ok_or(FaultKind::Overflow),
        Op::Sub => a.checked_sub(b).ok_or(FaultKind::Overflow),
        Op::Mul => a.checked_mul(b).ok_or(FaultKind::Overflow),
        Op::Div => {
            if b == 0 {
                Err(FaultKind::Zero)
            } else {
                a.checked_div(b).ok_or(FaultKind::Overflow)
            }
        }
        Op::Rem => {
            if b == 0 {
                Err(FaultKind::Zero)
            } else {
                Ok(a.wrapping_rem(b))
            }
        }
        Op::Min => Ok(a.min(b)),
        Op::Max => Ok(a.max(b)),
    }
}

/// Whether a comparison holds.
pub fn holds(cmp: Cmp, a: i64, b: i64) -> bool
    ensures { result ≡ holds cmp a b }
{
    match cmp {
        Cmp::Eq => a == b,
        Cmp::Ne => a != b,
        Cmp::Lt => a < b,
        Cmp::Le => a <= b,
        Cmp::Gt => a > b,
        Cmp::Ge => a >= b,
    }
}
