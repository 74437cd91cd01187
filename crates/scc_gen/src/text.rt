// The generator's text.
ghost use Rattle.std.specs.Prelude.{◌≡◌, ◌≤◌, ◌++◌, OnOk, OnErr};
ghost use Rattle.scc_gen.specs.Generated.{behind, drawn, transfer, gen_text};
ghost use Rattle.scc_gen.specs.Grown.{HasGrown};

use crate::draws::Draws;
use crate::lines::{Transfer, put_transfer};
use std::alloc::AllocError;

/// Appends an input for batches: a table `acct` of 64 items, and `count` programs, 1 to 20,000, which a seed of at most 65,536
/// determines. Each moves an amount from one item to another (docs/FORMATS.md, "The generator"). After want of memory `out` is as
/// before.
pub fn put_gen(seed: u32, count: u32, out: &mut Vec<u8>) -> Result<(), AllocError>
    requires seed { seed ≤ 65536 }
    requires some { 1 ≤ count }
    requires most { count ≤ 20000 }
    ensures ok { OnOk result (out.new.items ≡ out.old.items ++ gen_text seed count) }
    ensures err { OnErr result (out.new.items ≡ out.old.items) }
{
    let before = out.len();
    let appended = put_text(seed, count, out);
    if appended.is_err() {
        out.truncate(before);
    }
    appended
}

// The same; after want of memory more or less of the text was appended.
#[tactic(auto, unfolding(crate::specs::Generated::gen_text))]
fn put_text(seed: u32, count: u32, out: &mut Vec<u8>) -> Result<(), AllocError>
    requires { seed ≤ 65536 }
    ensures ok { OnOk result (out.new.items ≡ out.old.items ++ gen_text seed count) }
    ensures grown { HasGrown out.old.items out.new.items }
{
    out.extend_from_slice(b"table acct 64\n")?;
    let mut draws = Draws { last: seed };
    for _number in 0..count {
        put_transfer(out, draw_transfer(&mut draws))?;
    }
    Ok(())
}

// The transfer that the next five draws give.
fn draw_transfer(draws: &mut Draws) -> Transfer
    requires { draws.old.last ≤ 65536 }
    ensures transfer { result ≡ transfer draws.old.last 0 }
    ensures last { draws.new.last ≡ drawn draws.old.last 5 }
    ensures room { draws.new.last ≤ 65536 }
{
    let from = draws.below(64);
    let to = draws.below(64);
    let amount = 1 + draws.below(9);
    let turns = draws.below(4);
    let deadline = draws.below(1000);
    Transfer {
        from,
        to,
        amount,
        turns,
        deadline,
    }
}
