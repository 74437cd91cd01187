ghost use Rattle.std.specs.Prelude.{◌≡◌, ◌≤◌, IfOk};
ghost use Rattle.txn_interp.specs.State.{Carries};

use shadow_state::Bank;
use std::alloc::{AllocError, Global};
use std::test::Fail;
use txn_code::Code;

// The code of the program without statements.
fn nothing(alloc: Global) -> Result<Code, AllocError>
    ensures { IfOk result (λ code. Carries code.nodes 4) }
{
    Code::room(alloc)
}

#[test]
#[tactic(auto, using(shadow_state::proofs::Places::length_at))]
fn a_copy_has_the_mark_and_a_fresh_slot_has_none(rt: HostRuntime) -> Result<(), Fail> {
    let code = nothing(rt.alloc())?;
    let mut bank = Bank::open(rt.alloc(), 4, 3, 2)?;
    assert_eq!(rt; bank.lanes(), 2);
    assert_eq!(rt; bank.most(), 3);
    bank.start(1, &code);
    bank.set_out(1, 0, true);
    bank.swap_sides(1);
    bank.fork_into(1, 0, 2);
    assert!(rt; bank.out(1, 2));
    bank.fresh_into(1, 2, &code);
    assert!(rt; !bank.out(1, 2));
    assert_eq!(rt; bank.state(1, 2).position(), 0);
    assert!(rt; bank.state(1, 2).ended());
    Ok(())
}
