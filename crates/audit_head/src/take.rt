// One line of a head.
ghost use Rattle.std.specs.Prelude.{◌≤◌, length};
ghost use Rattle.audit_head.specs.Reading.{Takes};

use crate::Form;
use batch_input::{BatchInput, LineRefusal};
use scc_text::{Command, Dialect, read_command};

/// Takes in a line of at most 8,192 bytes, or tells what follows it. After a refusal and want of memory all is as before.
#[tactic(auto, unfolding(crate::specs::Head::after_line, crate::specs::Head::form_named))]
pub fn take_line(input: &mut BatchInput, line: &[u8]) -> Result<Option<Form>, LineRefusal>
    requires { length line.now ≤ 8192 }
    ensures { Takes result input.old line.now input.new }
{
    match read_command(Dialect::Audit, line) {
        Ok(Command::Report) => Ok(Some(Form::Report)),
        Ok(Command::Journal) => Ok(Some(Form::Journal)),
        Ok(command) => {
            input.accept_command(line, command)?;
            Ok(None)
        }
        Err(code) => Err(LineRefusal::Code(code)),
    }
}
