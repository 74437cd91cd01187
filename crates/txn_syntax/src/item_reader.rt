ghost use Rattle.std.specs.Prelude.{◌≡◌, ℕ, [], ◌∷◌, Option, None, Ok, length, MatchOption};
ghost use Rattle.txn_runs.specs.declared.program.TableRef.{TableRef};
ghost use Rattle.txn_tokens.specs.Tokens.{tokens};
ghost use Rattle.txn_syntax.specs.declared.place.Item.TheVariants as i;
ghost use Rattle.txn_syntax.specs.declared.place.Plain.TheVariants as p;
ghost use Rattle.txn_syntax.specs.Places.{Slot, Place, Start, To, Value, ReadName, WriteName, Wants, Signed, BehindLeft, ReadClose, WriteClose, WriteAssign, WriteFrom, ReadAt, WriteAt, IfLeft, OpenIf, Count, OpenLoop, OpenElse, End, filled};
ghost use Rattle.txn_syntax.specs.Reads.{first_of, unknown_at, first_unknown};
ghost use Rattle.txn_syntax.specs.declared.place.Term.{Term};
ghost use Rattle.txn_syntax.specs.declared.place.Test.{Test};
ghost use Rattle.txn_syntax.specs.Items.{KeepsOffsets, next_item, item_by, Leads};

use crate::place::{Item, Plain, Term, Test};
use std::marker::Model;
use txn_names::Names;
use txn_runs::{Op, TableRef};
use txn_tokens::{Placed, Token, Tokens};

/// A reader of items, one after the other, which notes the first name that no table has.
#[derive(Drop)]
pub struct ItemReader<'a> {
    left: Tokens<'a>,
    bytes: usize,
    noted: Option<usize>,
}

impl<'a> Model for ItemReader<'a> {
    ghost use Rattle.txn_syntax.specs.Reads.{first_of, first_unknown};
    ghost use Rattle.txn_syntax.specs.Items.{Unread};

    ghost Value = { Unread };

    ghost view = { λ r. record { tokens = r.left; end = r.bytes; unknown = first_of r.noted (first_unknown r.left) } };
}

impl<'a> ItemReader<'a> {
    /// The items that bytes spell, with the names that they may speak of.
    pub fn new(names: &'a Names, bytes: &'a [u8]) -> ItemReader<'a>
        ensures tokens { result.tokens ≡ tokens names.now bytes.now }
        ensures end { result.end ≡ length bytes.now }
        ensures unknown { result.unknown ≡ first_unknown (tokens names.now bytes.now) }
    {
        ItemReader {
            left: Tokens::new(names, bytes),
            bytes: bytes.len(),
            noted: None,
        }
    }

    /// The offset of the first name that no table has, once all tokens have been taken.
    pub fn unknown(&self) -> Option<usize>
        ensures { self.now.tokens ≡ [] → result ≡ self.now.unknown }
    {
        self.noted
    }

    /// Takes the next token.
    pub fn next(&mut self) -> Option<Placed>
        ensures tokens { MatchOption result ((self.old.tokens ≡ []) × (self.new.tokens ≡ [])) (λ placed. self.old.tokens ≡ placed ∷ self.new.tokens) }
        ensures stays { KeepsOffsets self.old self.new }
    {
        match self.left.next() {
            Some(placed) => {
                self.noted = unknown_with(self.noted, placed);
                Some(placed)
            }
            None => None,
        }
    }

    // The next token, or the offset of the end.
    fn token(&mut self) -> Result<Placed, usize>
        ensures reads { (place : Place) → Leads result (next_item place self.old) (λ x. item_by place x self.new) }
        ensures stays { KeepsOffsets self.old self.new }
    {
        match self.next() {
            Some(placed) => Ok(placed),
            None => Err(self.bytes),
        }
    }

    /// The item that begins with a token, which may be an `else` only behind the first block of an `if`.
    pub fn item(&mut self, first: Placed, behind_if: bool) -> Result<Item, usize>
        ensures reads { Leads result (item_by (Start behind_if) first self.old) (λ item. Ok (item, self.new.tokens)) }
        ensures stays { KeepsOffsets self.old self.new }
    {
        match first.token {
            Token::Register(to) => {
                self.assign()?;
                self.value(to)
            }
            Token::Name(table) => self.written(table),
            Token::If => self.test(),
            Token::Loop => self.turns(),
            Token::Emit => {
                let from = self.operand()?;
                self.ended(Plain::Emit { from })
            }
            Token::Fail => {
                let code = self.operand()?;
                self.ended(Plain::Fail { code })
            }
            Token::CloseBlock => Ok(Item::Close),
            Token::Else if behind_if => {
                self.open_block()?;
                Ok(Item::Else)
            }
            _ => Err(first.at),
        }
    }

    // What a register is given.
    fn value(&mut self, to: u8) -> Result<Item, usize>
        ensures reads { Leads result (next_item (Value to) self.old) (λ item. Ok (item, self.new.tokens)) }
        ensures stays { KeepsOffsets self.old self.new }
    {
        let first = self.token()?;
        match first.token {
            Token::Name(table) => {
                let at = self.place()?;
                self.ended(Plain::Read { to, table, at })
            }
            _ => {
                let left = self.operand_from(first)?;
                self.behind_left(to, left)
            }
        }
    }

    // What follows the first operand that a register is given.
    fn behind_left(&mut self, to: u8, left: Term) -> Result<Item, usize>
        ensures reads { Leads result (next_item (BehindLeft to left) self.old) (λ item. Ok (item, self.new.tokens)) }
        ensures stays { KeepsOffsets self.old self.new }
    {
        let next = self.token()?;
        match next.token {
            Token::Semicolon => Ok(Item::Plain(Plain::Move { to, from: left })),
            Token::Op(op) => {
                let right = self.operand()?;
                self.ended(Plain::Calc {
                    to,
                    left,
                    op,
                    right,
                })
            }
            _ => Err(next.at),
        }
    }

    // A write, behind the table's name.
    fn written(&mut self, table: Option<TableRef>) -> Result<Item, usize>
        ensures reads { Leads result (next_item (WriteName table) self.old) (λ item. Ok (item, self.new.tokens)) }
        ensures stays { KeepsOffsets self.old self.new }
    {
        let at = self.place()?;
        self.assign()?;
        let from = self.operand()?;
        self.ended(Plain::Write { table, at, from })
    }

    // What an `if` asks.
    fn test(&mut self) -> Result<Item, usize>
        ensures reads { Leads result (next_item (Wants IfLeft) self.old) (λ item. Ok (item, self.new.tokens)) }
        ensures stays { KeepsOffsets self.old self.new }
    {
        let left = self.operand()?;
        let next = self.token()?;
        match next.token {
            Token::Cmp(cmp) => {
                let right = self.operand()?;
                self.open_block()?;
                Ok(Item::If(Test { left, cmp, right }))
            }
            _ => Err(next.at),
        }
    }

    // The count of a loop.
    fn turns(&mut self) -> Result<Item, usize>
        ensures reads { Leads result (next_item Count self.old) (λ item. Ok (item, self.new.tokens)) }
        ensures stays { KeepsOffsets self.old self.new }
    {
        let next = self.token()?;
        match next.token {
            Token::Number(count) => {
                self.open_block()?;
                Ok(Item::Loop(count))
            }
            _ => Err(next.at),
        }
    }

    // The operand between two brackets.
    fn place(&mut self) -> Result<Term, usize>
        ensures read { (to : ℕ) (table : Option TableRef) → Leads result (next_item (ReadName to table) self.old) (λ at. next_item (End (p.Read to table at)) self.new) }
        ensures written { (table : Option TableRef) → Leads result (next_item (WriteName table) self.old) (λ at. next_item (WriteAssign table at) self.new) }
        ensures stays { KeepsOffsets self.old self.new }
    {
        self.open_index()?;
        let at = self.operand()?;
        self.close_index()?;
        Ok(at)
    }

    fn operand(&mut self) -> Result<Term, usize>
        ensures reads { (slot : Slot) → Leads result (next_item (Wants slot) self.old) (λ x. next_item (filled slot x) self.new) }
        ensures stays { KeepsOffsets self.old self.new }
    {
        let first = self.token()?;
        self.operand_from(first)
    }

    // The operand that begins with a token.
    fn operand_from(&mut self, first: Placed) -> Result<Term, usize>
        ensures reads { (slot : Slot) → Leads result (item_by (Wants slot) first self.old) (λ x. next_item (filled slot x) self.new) }
        ensures stays { KeepsOffsets self.old self.new }
    {
        match first.token {
            Token::Register(register) => Ok(Term::Register(register)),
            Token::Number(number) => Ok(Term::Number(number)),
            Token::Op(Op::Sub) => self.signed(),
            _ => Err(first.at),
        }
    }

    // The number behind a sign of its own.
    fn signed(&mut self) -> Result<Term, usize>
        ensures reads { (slot : Slot) → Leads result (next_item (Signed slot) self.old) (λ x. next_item (filled slot x) self.new) }
        ensures stays { KeepsOffsets self.old self.new }
    {
        let next = self.token()?;
        match next.token {
            Token::Number(number) => Ok(Term::Minus(number)),
            _ => Err(next.at),
        }
    }

    fn assign(&mut self) -> Result<(), usize>
        ensures register { (to : ℕ) → Leads result (next_item (To to) self.old) (λ _. next_item (Value to) self.new) }
        ensures place { (table : Option TableRef) (at : Term) → Leads result (next_item (WriteAssign table at) self.old) (λ _. next_item (Wants (WriteFrom table at)) self.new) }
        ensures stays { KeepsOffsets self.old self.new }
    {
        let next = self.token()?;
        match next.token {
            Token::Assign => Ok(()),
            _ => Err(next.at),
        }
    }

    fn open_index(&mut self) -> Result<(), usize>
        ensures read { (to : ℕ) (table : Option TableRef) → Leads result (next_item (ReadName to table) self.old) (λ _. next_item (Wants (ReadAt to table)) self.new) }
        ensures written { (table : Option TableRef) → Leads result (next_item (WriteName table) self.old) (λ _. next_item (Wants (WriteAt table)) self.new) }
        ensures stays { KeepsOffsets self.old self.new }
    {
        let next = self.token()?;
        match next.token {
            Token::OpenIndex => Ok(()),
            _ => Err(next.at),
        }
    }

    fn close_index(&mut self) -> Result<(), usize>
        ensures read { (to : ℕ) (table : Option TableRef) (at : Term) → Leads result (next_item (ReadClose to table at) self.old) (λ _. next_item (End (p.Read to table at)) self.new) }
        ensures written { (table : Option TableRef) (at : Term) → Leads result (next_item (WriteClose table at) self.old) (λ _. next_item (WriteAssign table at) self.new) }
        ensures stays { KeepsOffsets self.old self.new }
    {
        let next = self.token()?;
        match next.token {
            Token::CloseIndex => Ok(()),
            _ => Err(next.at),
        }
    }

    fn open_block(&mut self) -> Result<(), usize>
        ensures choice { (test : Test) → Leads result (next_item (OpenIf test) self.old) (λ _. Ok (i.If test, self.new.tokens)) }
        ensures turns { (count : ℕ) → Leads result (next_item (OpenLoop count) self.old) (λ _. Ok (i.Loop count, self.new.tokens)) }
        ensures other { Leads result (next_item OpenElse self.old) (λ _. Ok (i.Else, self.new.tokens)) }
        ensures stays { KeepsOffsets self.old self.new }
    {
        let next = self.token()?;
        match next.token {
            Token::OpenBlock => Ok(()),
            _ => Err(next.at),
        }
    }

    // The end of a statement without blocks.
    fn ended(&mut self, plain: Plain) -> Result<Item, usize>
        ensures reads { Leads result (next_item (End plain) self.old) (λ item. Ok (item, self.new.tokens)) }
        ensures stays { KeepsOffsets self.old self.new }
    {
        let next = self.token()?;
        match next.token {
            Token::Semicolon => Ok(Item::Plain(plain)),
            _ => Err(next.at),
        }
    }
}

// The offset of the first name that no table has, with one token more.
fn unknown_with(unknown: Option<usize>, placed: Placed) -> Option<usize>
    ensures { result ≡ first_of unknown (unknown_at placed.token placed.at None) }
{
    match (unknown, placed.token) {
        (None, Token::Name(None)) => Some(placed.at),
        (unknown, _) => unknown,
    }
}
