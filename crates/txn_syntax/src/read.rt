ghost use Rattle.std.specs.Prelude.{◌≡◌, ◌≤◌, ◌∷◌, length, IfOk, OnOk};
ghost use Rattle.txn_names.specs.Tables.{items_of};
ghost use Rattle.txn_runs.specs.Bounds.{reach};
ghost use Rattle.txn_tokens.specs.Tokens.{tokens};
ghost use Rattle.txn_syntax.specs.Reading.{Progress};
ghost use Rattle.txn_syntax.specs.Reads.{first_unknown, text_of, read_of, Gives, GivesBody};
ghost use Rattle.txn_syntax.specs.Machines.{IsMachine};
ghost use Rattle.txn_syntax.specs.Items.{KeepsOffsets, Took};

use crate::body::{Body, block_of};
use crate::item_reader::ItemReader;
use crate::machine::{Machine, Stage};
use crate::refusal::ReadRefusal;
use std::alloc::Global;
use txn_names::Names;
use txn_runs::Program;
use txn_tokens::{Placed, Token};

/// The program that bytes spell. Refused as `Syntax` where they spell none, whatever names and numbers mean, with the offset of
/// the first token with which no program begins, or the number of bytes where the tokens end too early; else as `UnknownTable`
/// with the offset of the first name that no table has; else as `Limit` with the first limit that is broken. Offsets count bytes
/// from 0. `OutOfMemory` for want of memory, which may come before the others (docs/DECISIONS.md). Statements are kept only
/// within the limits, so no tree is ever deeper than 8, whatever the bytes.
pub fn read_program(alloc: Global, names: &Names, bytes: &[u8]) -> Result<Program, ReadRefusal>
    ensures reads { Gives result (read_of names.now bytes.now) }
    ensures within { IfOk result (λ program. reach program ≤ items_of names.now) }
{
    let (body, unknown) = read_body(alloc, names, bytes)?;
    if let Some(at) = unknown {
        return Err(ReadRefusal::UnknownTable { at });
    }
    if let Some(which) = body.measure.broken() {
        return Err(ReadRefusal::Limit { which });
    }
    Ok(Program::new(block_of(body.stmts)))
}

// Reads the whole text once: its statements, and the offset of the first name that no table has.
fn read_body(
    alloc: Global,
    names: &Names,
    bytes: &[u8],
) -> Result<(Body, Option<usize>), ReadRefusal>
    ensures body { GivesBody result (text_of names.now bytes.now) }
    ensures unknown { IfOk result (λ read. read.1 ≡ first_unknown (tokens names.now bytes.now)) }
{
    let mut items = ItemReader::new(names, bytes);
    let mut machine = Machine::new(alloc);
    while let Some(first) = items.next() {
        take(&mut machine, &mut items, first)?;
    }
    let unknown = items.unknown();
    match machine.finish() {
        Some(body) => Ok((body, unknown)),
        None => Err(ReadRefusal::Syntax { at: bytes.len() }),
    }
}

// Takes what begins with a token: the first brace, or an item.
fn take(machine: &mut Machine, items: &mut ItemReader, first: Placed) -> Result<(), ReadRefusal>
    ensures took { (p : Progress) → IsMachine machine.old p → Took result machine.new p (first ∷ items.old.tokens) items.new }
    ensures fewer { OnOk result (length items.new.tokens ≤ length items.old.tokens) }
    ensures stays { KeepsOffsets items.old items.new }
{
    match machine.stage {
        Stage::Before => match first.token {
            Token::OpenBlock => {
                machine.begin();
                Ok(())
            }
            _ => Err(ReadRefusal::Syntax { at: first.at }),
        },
        Stage::Within => match items.item(first, machine.choice.is_some()) {
            Ok(item) => match machine.grow(item) {
                Ok(()) => Ok(()),
                Err(_) => Err(ReadRefusal::OutOfMemory),
            },
            Err(at) => Err(ReadRefusal::Syntax { at }),
        },
        Stage::Behind => Err(ReadRefusal::Syntax { at: first.at }),
    }
}
