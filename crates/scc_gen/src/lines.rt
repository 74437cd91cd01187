// The lines of the generator's programs.
ghost use Rattle.std.specs.Prelude.{◌≡◌, ◌++◌, OnOk};
ghost use Rattle.scc_gen.specs.Generated.{part, taking, giving, transfer_line};
ghost use Rattle.scc_gen.specs.Grown.{HasGrown};

use scc_text::put_count;
use std::alloc::AllocError;

// An amount that goes from one item to another, a loop of so many turns behind that, and a deadline.
#[derive(Clone, Copy)]
pub struct Transfer {
    pub from: u32,
    pub to: u32,
    pub amount: u32,
    pub turns: u32,
    pub deadline: u32,
}

// Appends the line that begins a transfer. After want of memory more or less of it was appended.
#[tactic(auto, unfolding(crate::specs::Generated::transfer_line))]
pub fn put_transfer(out: &mut Vec<u8>, transfer: Transfer) -> Result<(), AllocError>
    ensures line { OnOk result (out.new.items ≡ out.old.items ++ transfer_line transfer) }
    ensures grown { HasGrown out.old.items out.new.items }
{
    put_part(out, b"begin ", transfer.deadline, b" {")?;
    put_taking(out, transfer)?;
    put_giving(out, transfer)?;
    put_part(out, b" loop ", transfer.turns, b" { r4 = r4 + 1; }")?;
    put_part(out, b" emit ", transfer.amount, b"; }\n")
}

fn put_taking(out: &mut Vec<u8>, transfer: Transfer) -> Result<(), AllocError>
    ensures part { OnOk result (out.new.items ≡ out.old.items ++ taking transfer) }
    ensures grown { HasGrown out.old.items out.new.items }
{
    put_part(out, b" r0 = acct[", transfer.from, b"];")?;
    put_part(out, b" r1 = r0 - ", transfer.amount, b";")?;
    put_part(out, b" acct[", transfer.from, b"] = r1;")?;
    Ok(())
}

fn put_giving(out: &mut Vec<u8>, transfer: Transfer) -> Result<(), AllocError>
    ensures part { OnOk result (out.new.items ≡ out.old.items ++ giving transfer) }
    ensures grown { HasGrown out.old.items out.new.items }
{
    put_part(out, b" r2 = acct[", transfer.to, b"];")?;
    put_part(out, b" r3 = r2 + ", transfer.amount, b";")?;
    put_part(out, b" acct[", transfer.to, b"] = r3;")?;
    Ok(())
}

// Appends a number between two texts.
#[tactic(auto, unfolding(crate::specs::Generated::part))]
fn put_part(out: &mut Vec<u8>, before: &[u8], number: u32, behind: &[u8]) -> Result<(), AllocError>
    ensures part { OnOk result (out.new.items ≡ out.old.items ++ part before.now number behind.now) }
    ensures grown { HasGrown out.old.items out.new.items }
{
    out.extend_from_slice(before)?;
    put_count(out, number as u64)?;
    out.extend_from_slice(behind)
}
