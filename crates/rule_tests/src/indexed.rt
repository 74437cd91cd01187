ghost use Rattle.std.specs.Prelude.{◌≡◌, ◌≤◌, IfOk};
ghost use Rattle.txn_interp.specs.State.{Carries};

use indexed_lanes::IndexedLanes;
use std::alloc::{AllocError, Global};
use std::test::Fail;
use txn_code::Code;

// The code of the program without statements.
fn nothing(alloc: Global) -> Result<Code, AllocError>
    ensures { IfOk result (λ code. Carries code.nodes 4) }
{
    Code::room(alloc)
}

#[test]
fn who_has_read_nothing_has_no_point(rt: HostRuntime) -> Result<(), Fail> {
    let code = nothing(rt.alloc())?;
    for k in 1..3 {
        let mut lanes = IndexedLanes::open(rt.alloc(), 4, k, 2)?;
        lanes.start(7, &code);
        lanes.start(5, &code);
        assert_eq!(rt; lanes.point_between(0, 1), None);
        assert_eq!(rt; lanes.point_between(1, 0), None);
        lanes.promote(1, 0, &code);
        lanes.remove(5);
        assert_eq!(rt; lanes.find(7), Some(0));
    }
    Ok(())
}
