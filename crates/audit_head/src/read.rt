// The path from the bytes of a source to the head.
ghost use Rattle.std.specs.Prelude.{◌≡◌, ◌≤◌, ◌↔◌, Err};
ghost use Rattle.scc_ports.specs.Ports.{Rose};
ghost use Rattle.scc_text.specs.Reader.{opened_reader};
ghost use Rattle.batch_input.specs.Input.{no_batch};
ghost use Rattle.audit_head.specs.Reading.{HeadRead, with_form};

use crate::take::take_line;
use crate::{Form, HeadEnd};
use batch_input::{BatchInput, LineRefusal};
use scc_ports::Source;
use scc_text::{LineReader, Next};
use std::alloc::Global;

/// Reads the head of an input: its tables and programs, what follows, and whether anything can, which is where the newline of the line
/// that says so was read. The reader has just answered that line, and what follows is still to be read.
///
/// `Bad` exactly where a line is refused or the input ends without such a line; `ReadFault` only where the source's count of faults rose
/// or stands at its last value, `InputLimit` exactly where byte 67,108,865 was taken, and `OutOfMemory` for want of memory.
pub fn read_head<S: Source>(
    alloc: Global,
    reader: &mut LineReader,
    source: &mut S,
) -> Result<(BatchInput, Form, bool), HeadEnd>
    requires { reader.old ≡ opened_reader }
    ensures read { HeadRead result reader.new (S.left source.old) (S.left source.new) }
    ensures limit { (result ≡ Err HeadEnd.InputLimit) ↔ (reader.new.taken ≡ 67108865) }
    ensures room { reader.new.taken ≤ 67108865 }
    ensures read_fault { result ≡ Err HeadEnd.ReadFault → Rose (S.faults source.old) (S.faults source.new) }
    ensures later { S.faults source.old ≤ S.faults source.new }
{
    let Ok(mut input) = BatchInput::new(alloc) else {
        return Err(HeadEnd::OutOfMemory);
    };
    let (form, goes_on) = take_lines(&mut input, reader, source)?;
    Ok((input, form, goes_on))
}

// Takes in the lines of a head from its beginning.
fn take_lines<S: Source>(
    input: &mut BatchInput,
    reader: &mut LineReader,
    source: &mut S,
) -> Result<(Form, bool), HeadEnd>
    requires opened { reader.old ≡ opened_reader }
    requires empty { input.old ≡ no_batch }
    ensures read { HeadRead (with_form input.new result) reader.new (S.left source.old) (S.left source.new) }
    ensures limit { (result ≡ Err HeadEnd.InputLimit) ↔ (reader.new.taken ≡ 67108865) }
    ensures room { reader.new.taken ≤ 67108865 }
    ensures read_fault { result ≡ Err HeadEnd.ReadFault → Rose (S.faults source.old) (S.faults source.new) }
    ensures later { S.faults source.old ≤ S.faults source.new }
{
    // how many bytes the lines have, each with a newline
    let mut spelled = 0;
    'lines: loop {
        match reader.next_line(source) {
            Next::Line => {
                spelled += reader.line().len() as u64 + 1;
                match take_line(input, reader.line()) {
                    Ok(None) => {}
                    Ok(Some(form)) => return Ok((form, spelled <= reader.taken())),
                    Err(LineRefusal::Code(code)) => {
                        return Err(HeadEnd::Bad {
                            line: reader.number(),
                            code,
                        });
                    }
                    Err(LineRefusal::OutOfMemory) => return Err(HeadEnd::OutOfMemory),
                }
            }
            Next::TooLong => {
                return Err(HeadEnd::Bad {
                    line: reader.number(),
                    code: 11,
                });
            }
            Next::End => {
                return Err(HeadEnd::Bad {
                    line: reader.number() + 1,
                    code: 13,
                });
            }
            Next::ReadFault => return Err(HeadEnd::ReadFault),
            Next::InputLimit => return Err(HeadEnd::InputLimit),
        }
    }
}
