// The pieces that a program is read in.
use txn_runs::{Cmp, Op, TableRef};

/// An operand as it is written.
#[derive(Clone, Copy)]
pub enum Term {
    Register(u8),
    Number(u64),
    /// A number behind a sign of its own.
    Minus(u64),
}

/// A statement without blocks.
#[derive(Clone, Copy)]
pub enum Plain {
    Calc {
        to: u8,
        left: Term,
        op: Op,
        right: Term,
    },
    Move {
        to: u8,
        from: Term,
    },
    Read {
        to: u8,
        table: Option<TableRef>,
        at: Term,
    },
    Write {
        table: Option<TableRef>,
        at: Term,
        from: Term,
    },
    Emit {
        from: Term,
    },
    Fail {
        code: Term,
    },
}

/// What an `if` asks.
#[derive(Clone, Copy)]
pub struct Test {
    pub left: Term,
    pub cmp: Cmp,
    pub right: Term,
}

/// A piece of a program: a statement without blocks, what opens a block, or what closes one.
#[derive(Clone, Copy)]
pub enum Item {
    Plain(Plain),
    If(Test),
    Else,
    Loop(u64),
    Close,
}
