// The longest token at the front of bytes.
ghost use Rattle.std.specs.Prelude.{◌≡◌, ◌<◌, ◌≤◌, length, drop, slice_index};
ghost use Rattle.txn_tokens.specs.Front as spec;

use crate::byte_kind::{ByteKind, run_len};
use crate::number::number_of;
use crate::token::Token;
use txn_names::{Names, is_reserved, register_of, same_bytes};
use txn_runs::{Cmp, Op};

/// A token, and how many bytes it has.
#[derive(Clone, Copy)]
pub struct Front {
    pub token: Token,
    pub len: usize,
}

/// The token that begins with the first byte.
pub fn front_of(names: &Names, bytes: &[u8]) -> Front
    requires { 0 < length bytes.now }
    ensures value { result ≡ spec.front_of names.now (slice_index bytes.now 0) (drop 1 bytes.now) }
    ensures some { 1 ≤ result.len }
    ensures within { result.len ≤ length bytes.now }
{
    let first = bytes[0];
    if first.is_ascii_lowercase() {
        let len = run_len(bytes, ByteKind::Word);
        return Front {
            token: word_token(names, &bytes[..len]),
            len,
        };
    }
    if first.is_ascii_digit() {
        let len = run_len(bytes, ByteKind::Digit);
        return Front {
            token: Token::Number(number_of(&bytes[..len])),
            len,
        };
    }
    sign_front(bytes)
}

fn sign_front(bytes: &[u8]) -> Front
    requires { 0 < length bytes.now }
    ensures value { result ≡ spec.sign_front (slice_index bytes.now 0) (drop 1 bytes.now) }
    ensures some { 1 ≤ result.len }
    ensures within { result.len ≤ length bytes.now }
{
    match bytes {
        [first, b'=', ..] => match long_sign(*first) {
            Some(token) => Front { token, len: 2 },
            None => Front {
                token: short_sign(*first),
                len: 1,
            },
        },
        _ => Front {
            token: short_sign(bytes[0]),
            len: 1,
        },
    }
}

// Registers are asked for first, since most words are one; no keyword begins as they do.
fn word_token(names: &Names, word: &[u8]) -> Token
    ensures { result ≡ spec.word_token names.now word.now }
{
    match word {
        [b'r', ..] => other_word(names, word),
        _ => keyword_or_name(names, word),
    }
}

fn keyword_or_name(names: &Names, word: &[u8]) -> Token
    ensures { result ≡ spec.word_token names.now word.now }
{
    if same_bytes(word, b"if") {
        Token::If
    } else if same_bytes(word, b"else") {
        Token::Else
    } else if same_bytes(word, b"loop") {
        Token::Loop
    } else if same_bytes(word, b"emit") {
        Token::Emit
    } else if same_bytes(word, b"fail") {
        Token::Fail
    } else if same_bytes(word, b"min") {
        Token::Op(Op::Min)
    } else if same_bytes(word, b"max") {
        Token::Op(Op::Max)
    } else {
        other_word(names, word)
    }
}

fn other_word(names: &Names, word: &[u8]) -> Token
    ensures { result ≡ spec.other_word names.now word.now }
{
    if let Some(number) = register_of(word) {
        return Token::Register(number);
    }
    if is_reserved(word) {
        return Token::Stray;
    }
    Token::Name(names.find(word))
}

// The sign that a byte spells with `=` behind it.
fn long_sign(first: u8) -> Option<Token>
    ensures { result ≡ spec.long_sign first }
{
    match first {
        b'=' => Some(Token::Cmp(Cmp::Eq)),
        b'!' => Some(Token::Cmp(Cmp::Ne)),
        b'<' => Some(Token::Cmp(Cmp::Le)),
        b'>' => Some(Token::Cmp(Cmp::Ge)),
        _ => None,
    }
}

// The sign that a byte spells alone.
fn short_sign(byte: u8) -> Token
    ensures { result ≡ spec.short_sign byte }
{
    match byte {
        b'+' => Token::Op(Op::Add),
        b'-' => Token::Op(Op::Sub),
        b'*' => Token::Op(Op::Mul),
        b'/' => Token::Op(Op::Div),
        b'%' => Token::Op(Op::Rem),
        b'<' => Token::Cmp(Cmp::Lt),
        b'>' => Token::Cmp(Cmp::Gt),
        _ => mark(byte),
    }
}

fn mark(byte: u8) -> Token
    ensures { result ≡ spec.mark byte }
{
    match byte {
        b'{' => Token::OpenBlock,
        b'}' => Token::CloseBlock,
        b'[' => Token::OpenIndex,
        b']' => Token::CloseIndex,
        b';' => Token::Semicolon,
        b'=' => Token::Assign,
        _ => Token::Stray,
    }
}
