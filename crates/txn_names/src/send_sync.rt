//! What may go to another thread, and what threads may share.
ghost use Rattle.std.specs.Prelude.{◌≡◌};
ghost use denote.Param.Send.{IsSend, IsSync};
ghost use Rattle.txn_names.specs.contracts.names.Names.{the_row as names_row};

use crate::Names;

fn sends<T: Send>(value: T) -> T
    ensures kept { result ≡ value }
    ensures send { IsSend T.row }
{
    value
}

fn shares<T: Sync>(value: &T) -> &T
    ensures kept { result.now ≡ value.now }
    ensures sync { IsSync T.row }
{
    value
}

/// Names may go to another thread.
pub fn send_names(names: Names) -> Names
    ensures kept { result ≡ names }
    ensures send { IsSend names_row }
{
    sends(names)
}

/// Threads may share names.
pub fn share_names(names: &Names) -> &Names
    ensures kept { result.now ≡ names.now }
    ensures sync { IsSync names_row }
{
    shares(names)
}
