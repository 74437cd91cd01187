// The parts of a statement, appended. After want of memory more or less of a part was appended.
ghost use Rattle.std.specs.Prelude.{◌≡◌, ◌<◌, ◌++◌, OnOk, length};
ghost use Rattle.txn_spelling.specs.Canonical.{operand_text, op_text, cmp_text, target_text, place_text};

use itoa::Buffer;
use std::alloc::AllocError;
use txn_names::Names;
use txn_runs::{Cmp, Op, Operand, TableRef};

pub(crate) fn put_operand(out: &mut Vec<u8>, operand: Operand) -> Result<(), AllocError>
    ensures { OnOk result (out.new.items ≡ out.old.items ++ operand_text operand) }
{
    let mut buffer = Buffer::new();
    match operand {
        Operand::Reg(register) => {
            out.extend_from_slice(b"r")?;
            out.extend_from_slice(buffer.format(register).as_bytes())
        }
        Operand::Lit(value) => out.extend_from_slice(buffer.format(value).as_bytes()),
    }
}

pub(crate) fn put_target(out: &mut Vec<u8>, register: u8) -> Result<(), AllocError>
    ensures { OnOk result (out.new.items ≡ out.old.items ++ target_text register) }
{
    let mut buffer = Buffer::new();
    out.extend_from_slice(b"r")?;
    out.extend_from_slice(buffer.format(register).as_bytes())?;
    out.extend_from_slice(b" = ")
}

pub(crate) fn put_place(
    names: &Names,
    out: &mut Vec<u8>,
    table: TableRef,
    at: Operand,
) -> Result<(), AllocError>
    requires { table.number < length names.now }
    ensures { OnOk result (out.new.items ≡ out.old.items ++ place_text names.now table at) }
{
    out.extend_from_slice(names.name(table.number))?;
    out.extend_from_slice(b"[")?;
    put_operand(out, at)?;
    out.extend_from_slice(b"]")
}

pub(crate) fn put_op(out: &mut Vec<u8>, op: Op) -> Result<(), AllocError>
    ensures { OnOk result (out.new.items ≡ out.old.items ++ op_text op) }
{
    match op {
        Op::Add => out.extend_from_slice(b"+"),
        Op::Sub => out.extend_from_slice(b"-"),
        Op::Mul => out.extend_from_slice(b"*"),
        Op::Div => out.extend_from_slice(b"/"),
        Op::Rem => out.extend_from_slice(b"%"),
        Op::Min => out.extend_from_slice(b"min"),
        Op::Max => out.extend_from_slice(b"max"),
    }
}

pub(crate) fn put_cmp(out: &mut Vec<u8>, cmp: Cmp) -> Result<(), AllocError>
    ensures { OnOk result (out.new.items ≡ out.old.items ++ cmp_text cmp) }
{
    match cmp {
        Cmp::Eq => out.extend_from_slice(b"=="),
        Cmp::Ne => out.extend_from_slice(b"!="),
        Cmp::Lt => out.extend_from_slice(b"<"),
        Cmp::Le => out.extend_from_slice(b"<="),
        Cmp::Gt => out.extend_from_slice(b">"),
        Cmp::Ge => out.extend_from_slice(b">="),
    }
}
