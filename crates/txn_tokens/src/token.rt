use txn_runs::{Cmp, Op, TableRef};

/// A token of a program text.
#[derive(Clone, Copy, Debug, PartialEq, Eq)]
pub enum Token {
    /// `r0` to `r15`, by the number.
    Register(u8),
    /// A name, with its table where there is one of this name.
    Name(Option<TableRef>),
    /// A number, or 2^64 - 1 where it is greater: more than any limit allows.
    Number(u64),
    /// `+ - * / %`, `min` or `max`. The sign before a number is `Op(Op::Sub)`.
    Op(Op),
    /// `== != < <= >` or `>=`.
    Cmp(Cmp),
    If,
    Else,
    Loop,
    Emit,
    Fail,
    OpenBlock,
    CloseBlock,
    OpenIndex,
    CloseIndex,
    Semicolon,
    Assign,
    /// A byte that begins no token, or a word that has no use in a program, as `sum` and `r16`.
    Stray,
}

/// A token, and the offset of its first byte.
#[derive(Clone, Copy, Debug, PartialEq, Eq)]
pub struct Placed {
    pub at: usize,
    pub token: Token,
}
