ghost use Rattle.std.specs.Prelude.{◌≡◌, ◌+◌, ◌++◌, OnOk, OnErr};
ghost use Rattle.txn_runs.specs.Fold.{of_stmt};
ghost use Rattle.txn_runs.specs.Bounds.{plus};
ghost use Rattle.txn_spelling.specs.Canonical.{canonical, braced, calc_text, move_text, read_text, write_text, test_text, choice_text, turns_text, emit_text, fail_text, stmt_text, stmts_text};
ghost use Rattle.txn_spelling.specs.Strangers.{stranger, stranger_row, strangers};

use crate::words::{put_cmp, put_op, put_operand, put_place, put_target};
use itoa::Buffer;
use std::alloc::AllocError;
use txn_names::Names;
use txn_runs::{Block, Cmp, Op, Operand, Program, Stmt, TableRef};

/// Appends the canonical spelling of a program whose tables are those of `names`. After want of memory `out` is as before.
pub fn write_program(names: &Names, program: &Program, out: &mut Vec<u8>) -> Result<(), AllocError>
    requires { strangers names.now program.now ≡ 0 }
    ensures ok { OnOk result (out.new.items ≡ out.old.items ++ canonical names.now program.now) }
    ensures err { OnErr result (out.new.items ≡ out.old.items) }
{
    // Put together apart, so that `out` gets all of it or nothing.
    let mut text = Vec::new(*out.allocator());
    put_block(names, &mut text, program.body())?;
    out.extend_from_slice(&text)
}

// A block in its braces.
#[cycle(put)]
fn put_block(names: &Names, out: &mut Vec<u8>, block: &Block) -> Result<(), AllocError>
    requires { strangers names.now block.now.stmts ≡ 0 }
    ensures { OnOk result (out.new.items ≡ out.old.items ++ braced (stmts_text names.now block.now.stmts)) }
{
    out.extend_from_slice(b"{ ")?;
    put_stmts(names, out, block.stmts())?;
    out.extend_from_slice(b"}")
}

// Statements, each with a blank behind it.
#[cycle(put)]
fn put_stmts(names: &Names, out: &mut Vec<u8>, stmts: &[Stmt]) -> Result<(), AllocError>
    requires { strangers names.now stmts.now ≡ 0 }
    ensures { OnOk result (out.new.items ≡ out.old.items ++ stmts_text names.now stmts.now) }
{
    for stmt in stmts {
        put_stmt(names, out, stmt)?;
        out.push(b' ')?;
    }
    Ok(())
}

#[cycle(put)]
fn put_stmt(names: &Names, out: &mut Vec<u8>, stmt: &Stmt) -> Result<(), AllocError>
    requires { of_stmt (stranger_row names.now) plus stmt.now ≡ 0 }
    ensures { OnOk result (out.new.items ≡ out.old.items ++ stmt_text names.now stmt.now) }
{
    match stmt {
        Stmt::Calc {
            to,
            left,
            op,
            right,
        } => put_calc(out, *to, *left, *op, *right),
        Stmt::Move { to, from } => put_move(out, *to, *from),
        Stmt::Read { to, table, at } => put_read(names, out, *to, *table, *at),
        Stmt::Write { table, at, from } => put_write(names, out, *table, *at, *from),
        Stmt::If {
            left,
            cmp,
            right,
            yes,
            no,
        } => {
            put_test(out, *left, *cmp, *right)?;
            put_choice(names, out, yes, no)
        }
        Stmt::Loop { count, body } => put_loop(names, out, *count, body),
        Stmt::Emit { from } => put_emit(out, *from),
        Stmt::Fail { code } => put_fail(out, *code),
    }
}

// The blocks of an `if`. An empty second block isn't written.
#[cycle(put)]
fn put_choice(names: &Names, out: &mut Vec<u8>, yes: &Block, no: &Block) -> Result<(), AllocError>
    requires yes { strangers names.now yes.now.stmts ≡ 0 }
    requires no { strangers names.now no.now.stmts ≡ 0 }
    ensures { OnOk result (out.new.items ≡ out.old.items ++ choice_text (stmts_text names.now yes.now.stmts) (stmts_text names.now no.now.stmts)) }
{
    put_block(names, out, yes)?;
    match no.stmts() {
        [] => Ok(()),
        [_, ..] => {
            out.extend_from_slice(b" else ")?;
            put_block(names, out, no)
        }
    }
}

#[cycle(put)]
fn put_loop(names: &Names, out: &mut Vec<u8>, count: u32, body: &Block) -> Result<(), AllocError>
    requires { strangers names.now body.now.stmts ≡ 0 }
    ensures { OnOk result (out.new.items ≡ out.old.items ++ (turns_text count ++ braced (stmts_text names.now body.now.stmts))) }
{
    let mut buffer = Buffer::new();
    out.extend_from_slice(b"loop ")?;
    out.extend_from_slice(buffer.format(count).as_bytes())?;
    out.extend_from_slice(b" ")?;
    put_block(names, out, body)
}

fn put_calc(
    out: &mut Vec<u8>,
    to: u8,
    left: Operand,
    op: Op,
    right: Operand,
) -> Result<(), AllocError>
    ensures { OnOk result (out.new.items ≡ out.old.items ++ calc_text to left op right) }
{
    put_target(out, to)?;
    put_operand(out, left)?;
    out.extend_from_slice(b" ")?;
    put_op(out, op)?;
    out.extend_from_slice(b" ")?;
    put_operand(out, right)?;
    out.extend_from_slice(b";")
}

fn put_move(out: &mut Vec<u8>, to: u8, from: Operand) -> Result<(), AllocError>
    ensures { OnOk result (out.new.items ≡ out.old.items ++ move_text to from) }
{
    put_target(out, to)?;
    put_operand(out, from)?;
    out.extend_from_slice(b";")
}

fn put_read(
    names: &Names,
    out: &mut Vec<u8>,
    to: u8,
    table: TableRef,
    at: Operand,
) -> Result<(), AllocError>
    requires { stranger names.now table ≡ 0 }
    ensures { OnOk result (out.new.items ≡ out.old.items ++ read_text names.now to table at) }
{
    put_target(out, to)?;
    put_place(names, out, table, at)?;
    out.extend_from_slice(b";")
}

fn put_write(
    names: &Names,
    out: &mut Vec<u8>,
    table: TableRef,
    at: Operand,
    from: Operand,
) -> Result<(), AllocError>
    requires { stranger names.now table ≡ 0 }
    ensures { OnOk result (out.new.items ≡ out.old.items ++ write_text names.now table at from) }
{
    put_place(names, out, table, at)?;
    out.extend_from_slice(b" = ")?;
    put_operand(out, from)?;
    out.extend_from_slice(b";")
}

// An `if` up to the blank before its first block.
fn put_test(out: &mut Vec<u8>, left: Operand, cmp: Cmp, right: Operand) -> Result<(), AllocError>
    ensures { OnOk result (out.new.items ≡ out.old.items ++ test_text left cmp right) }
{
    out.extend_from_slice(b"if ")?;
    put_operand(out, left)?;
    out.extend_from_slice(b" ")?;
    put_cmp(out, cmp)?;
    out.extend_from_slice(b" ")?;
    put_operand(out, right)?;
    out.extend_from_slice(b" ")
}

fn put_emit(out: &mut Vec<u8>, from: Operand) -> Result<(), AllocError>
    ensures { OnOk result (out.new.items ≡ out.old.items ++ emit_text from) }
{
    out.extend_from_slice(b"emit ")?;
    put_operand(out, from)?;
    out.extend_from_slice(b";")
}

fn put_fail(out: &mut Vec<u8>, code: Operand) -> Result<(), AllocError>
    ensures { OnOk result (out.new.items ≡ out.old.items ++ fail_text code) }
{
    out.extend_from_slice(b"fail ")?;
    put_operand(out, code)?;
    out.extend_from_slice(b";")
}
