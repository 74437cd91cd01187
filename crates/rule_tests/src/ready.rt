ghost use Rattle.std.specs.Prelude.{◌≡◌, IsTrue};
ghost use Rattle.forest_model.specs.Pick.{is_ready};

use block_rule::{Role, Row, Standing};
use ready_rows::Ready;
use std::test::Fail;

// The row of an optimistic shadow that may step.
fn row(txn: u32, deadline: u64) -> Row
    ensures number { result.txn ≡ txn }
    ensures place { result.place ≡ 0 }
    ensures ready { IsTrue (is_ready result) }
{
    Row {
        txn,
        deadline,
        role: Role::Optimistic,
        place: 0,
        standing: Standing::Runnable,
        out: false,
    }
}

#[test]
fn the_first_row_is_the_pick(rt: HostRuntime) -> Result<(), Fail> {
    let mut ready = Ready::open(rt.alloc(), 2, 2)?;
    assert_eq!(rt; ready.first(), None);
    ready.put(row(1, 20));
    ready.put(row(2, 10));
    assert_eq!(rt; ready.first(), Some((2, Role::Optimistic)));
    assert!(rt; ready.take_out(2, 0));
    assert_eq!(rt; ready.first(), Some((1, Role::Optimistic)));
    assert!(rt; !ready.take_out(2, 0));
    assert_eq!(rt; ready.first(), Some((1, Role::Optimistic)));
    Ok(())
}
