ghost use Rattle.std.specs.Prelude.{◌≡◌, ◌≤◌, ◌-◌, length};
ghost use Rattle.shadow_state.specs.Bank.{at_place};
ghost use Rattle.shadow_forest.specs.Parts.{nodes_at, deadline_at, without_code};

use std::alloc::Global;
use txn_code::Code;

/// What is kept of a transaction that began; of one that has ended, no code.
#[derive(Drop)]
pub(crate) struct Txn {
    pub(crate) deadline: u64,
    pub(crate) code: Code,
}

/// The code of a transaction, of which number 1 stands first.
pub(crate) fn code_of(txns: &[Txn], txn: u32) -> &Code
    requires least { 1 ≤ txn }
    requires most { txn ≤ length txns.now }
    ensures { result.now.nodes ≡ nodes_at txns.now txn }
{
    &txns[txn as usize - 1].code
}

pub(crate) fn deadline_of(txns: &[Txn], txn: u32) -> u64
    requires least { 1 ≤ txn }
    requires most { txn ≤ length txns.now }
    ensures { result ≡ deadline_at txns.now txn }
{
    txns[txn as usize - 1].deadline
}

/// Gives the memory of a transaction's code back, of which number 1 stands first.
pub(crate) fn free_code(txns: &mut Vec<Txn>, txn: u32, alloc: Global)
    requires least { 1 ≤ txn }
    requires most { txn ≤ length txns.old.items }
    ensures { txns.new.items ≡ at_place (txn - 1) without_code txns.old.items }
{
    txns[txn as usize - 1].code = Code::none(alloc);
}
