// One line of an input that makes tables.
ghost use Rattle.std.specs.Prelude.{◌≡◌, ◌≤◌, length, Ok, IfErr, OnOk, OnErr};
ghost use Rattle.scc_text.specs.Command.{IsInRange};
ghost use Rattle.scc_text.specs.Words.{words_of};
ghost use Rattle.table_input.specs.Tables.{after_line, after_command, begins};
ghost use Rattle.table_input.specs.Taking.{IsReason};

use batch_input::LineRefusal;
use scc_setup::{Setup, SetupRefusal};
use scc_text::{Command, Dialect, next_word, read_command};

/// Takes in a line of at most 8,192 bytes. `Code` is the number by which the line is refused, `OutOfMemory` tells want of memory; after
/// both all is as before.
#[tactic(auto, unfolding(crate::specs::Tables::after_line))]
pub fn accept(setup: &mut Setup, line: &[u8]) -> Result<(), LineRefusal>
    requires { length line.now ≤ 8192 }
    ensures accepted { OnOk result (after_line setup.old line.now ≡ Ok setup.new) }
    ensures refused { IfErr result (λ refusal. IsReason refusal (after_line setup.old line.now)) }
    ensures kept { OnErr result (setup.new ≡ setup.old) }
{
    if is_begin(line) {
        return Err(LineRefusal::Code(12));
    }
    match read_command(Dialect::Batch, line) {
        Ok(command) => accept_command(setup, line, &command),
        Err(code) => Err(LineRefusal::Code(code)),
    }
}

// Whether the first word is `begin`.
#[tactic(auto, unfolding(crate::specs::Tables::begins))]
fn is_begin(line: &[u8]) -> bool
    ensures { result ≡ begins (words_of line.now) }
{
    match next_word(line, 0) {
        Some(word) => &line[word.from..word.to] == b"begin".as_slice(),
        None => false,
    }
}

// The command that a line spells.
fn accept_command(setup: &mut Setup, line: &[u8], command: &Command) -> Result<(), LineRefusal>
    requires { IsInRange (length line.now) command.now }
    ensures accepted { OnOk result (after_command setup.old line.now (Ok command.now) ≡ Ok setup.new) }
    ensures refused { IfErr result (λ refusal. IsReason refusal (after_command setup.old line.now (Ok command.now))) }
    ensures kept { OnErr result (setup.new ≡ setup.old) }
{
    match command {
        Command::Blank => Ok(()),
        Command::Table { .. } | Command::Put { .. } => match setup.accept(line, command) {
            Ok(()) => Ok(()),
            Err(SetupRefusal::Code(code)) => Err(LineRefusal::Code(code)),
            Err(SetupRefusal::OutOfMemory) => Err(LineRefusal::OutOfMemory),
        },
        _ => Err(LineRefusal::Code(12)),
    }
}
