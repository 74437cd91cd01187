ghost use Rattle.std.specs.Prelude.{◌≡◌, ◌^◌, ◌<◌, [], ◌∷◌, length, MatchOption};
ghost use Rattle.txn_tokens.specs.Tokens.{tokens};

use crate::byte_kind::{ByteKind, run_len};
use crate::front::front_of;
use crate::token::Placed;
use std::marker::Model;
use txn_names::Names;

/// A reader of tokens, seen as the list of those that are left.
#[derive(Drop)]
pub struct Tokens<'a> {
    names: &'a Names,
    rest: &'a [u8],
    at: usize,
}

impl<'a> Model for Tokens<'a> {
    ghost use Rattle.std.specs.Prelude.{◌+◌, ◌^◌, ◌<◌, List, length};
    ghost use Rattle.txn_tokens.specs.declared.token.Placed.{Placed};
    ghost use Rattle.txn_tokens.specs.Tokens.{tokens_from};

    ghost Value = { List Placed };

    ghost view = { λ t. tokens_from t.names.now t.at 0 t.rest.now };

    ghost invariant = { λ t. t.at + length t.rest.now < 2 ^ 64 };
}

impl<'a> Tokens<'a> {
    /// The tokens of bytes, with the names that they may speak of.
    pub fn new(names: &'a Names, bytes: &'a [u8]) -> Tokens<'a>
        ensures { result ≡ tokens names.now bytes.now }
    {
        Tokens {
            names,
            rest: bytes,
            at: 0,
        }
    }

    /// Takes the next token. Where there is none, none is left.
    pub fn next(&mut self) -> Option<Placed>
        ensures { MatchOption result ((self.old ≡ []) × (self.new ≡ [])) (λ placed. self.old ≡ placed ∷ self.new) }
    {
        let blanks = run_len(self.rest, ByteKind::Blank);
        let (_, rest) = self.rest.split_at(blanks);
        if rest.is_empty() {
            self.rest = rest;
            self.at += blanks;
            return None;
        }
        let front = front_of(self.names, rest);
        let at = self.at + blanks;
        let (_, after) = rest.split_at(front.len);
        self.rest = after;
        self.at = at + front.len;
        Some(Placed {
            at,
            token: front.token,
        })
    }
}
