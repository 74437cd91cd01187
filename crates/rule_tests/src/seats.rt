ghost use Rattle.std.specs.Prelude.{◌≡◌, ◌≤◌, IfOk};
ghost use Rattle.txn_interp.specs.State.{Carries};

use shadow_lanes::Lanes;
use std::alloc::{AllocError, Global};
use std::test::Fail;
use txn_code::Code;

// The code of the program without statements.
fn nothing(alloc: Global) -> Result<Code, AllocError>
    ensures { IfOk result (λ code. Carries code.nodes 4) }
{
    Code::room(alloc)
}

#[test]
fn transactions_stand_in_the_order_of_their_numbers(rt: HostRuntime) -> Result<(), Fail> {
    let code = nothing(rt.alloc())?;
    let mut lanes = Lanes::open(rt.alloc(), 4, 3, 2)?;
    lanes.start(7, &code);
    lanes.start(5, &code);
    assert_eq!(rt; lanes.len(), 2);
    assert_eq!(rt; lanes.find(7), Some(1));
    lanes.remove(5);
    assert_eq!(rt; lanes.find(7), Some(0));
    Ok(())
}

#[test]
fn a_kept_shadow_keeps_its_mark(rt: HostRuntime) -> Result<(), Fail> {
    let code = nothing(rt.alloc())?;
    let mut lanes = Lanes::open(rt.alloc(), 4, 3, 2)?;
    lanes.start(7, &code);
    lanes.settle(0, &[(5, 0)], &code);
    lanes.set_out(0, 1, true);
    lanes.settle(0, &[(6, 0), (5, 0)], &code);
    assert_eq!(rt; lanes.conflicts(0).len(), 2);
    assert!(rt; !lanes.out(0, 1));
    assert!(rt; lanes.out(0, 2));
    lanes.promote(0, 0, &code);
    assert!(rt; lanes.out(0, 2));
    lanes.recall();
    assert!(rt; !lanes.out(0, 2));
    assert_eq!(rt; lanes.state(0, 2).position(), 0);
    Ok(())
}
