// Scripts over memory, and audits of what they print.
ghost use Rattle.std.specs.Prelude.{◌≡◌, ◌≤◌, length};
ghost use Rattle.scc_text.specs.Command.{IsInRange};

use scc_ports::{MemSink, MemSource};
use scc_replies::Status;
use scc_script::script;
use scc_setup::Setup;
use scc_text::{Command, Dialect, read_command};
use serial_audit::{Verdict, audit_journal};
use std::alloc::{AllocError, Global};
use std::marker::Brand;
use std::sync::ledger::{Blank, Ledger};
use step_count::Steps;

/// These texts, one after another.
pub fn joined(alloc: Global, texts: &[&[u8]]) -> Result<Vec<u8>, AllocError> {
    let mut all = Vec::new(alloc);
    for text in texts {
        all.extend_from_slice(text)?;
    }
    Ok(all)
}

fn counted_script<L: Ledger>(
    blank: Blank,
    alloc: Global,
    k: u32,
    lanes: u32,
    source: &mut MemSource,
    sink: &mut MemSink,
) -> Status
    requires name { blank.name ≡ L.name }
    requires parts { blank.parts ≡ L.parts }
    requires one { blank.parts ≡ 1 }
    requires shadows { (1 ≤ k) × (k ≤ 8) }
    requires lanes { (1 ≤ lanes) × (lanes ≤ 64) }
{
    let mut steps = Steps::<L>::new(blank);
    script(alloc, k, lanes, source, sink, &mut steps)
}

/// What a script prints that ends as it should.
pub fn printed(alloc: Global, k: u32, lanes: u32, input: &[u8]) -> Result<Vec<u8>, AllocError>
    requires shadows { (1 ≤ k) × (k ≤ 8) }
    requires lanes { (1 ≤ lanes) × (lanes ≤ 64) }
{
    let mut source = MemSource::new(input.to_vec(alloc)?, 1_000, Vec::new(alloc));
    let mut sink = MemSink::with_room(alloc, 1_000_000, 1_000_000, Vec::new(alloc))?;
    let blank = Blank::new(1);
    let status = counted_script::<Brand>(blank, alloc, k, lanes, &mut source, &mut sink);
    if status != Status::Done {
        return Ok(Vec::new(alloc));
    }
    Ok(sink.into_bytes())
}

// Takes in a line that is a setting, and no other.
fn set(setup: &mut Setup, line: &[u8], command: Command)
    requires { IsInRange (length line.now) command }
{
    match command {
        Command::Table { .. } | Command::Put { .. } => {
            let _taken = setup.accept(line, &command);
        }
        _ => {}
    }
}

fn counted_audit<L: Ledger>(
    blank: Blank,
    alloc: Global,
    setup: Setup,
    rows: &[u8],
) -> Result<Verdict, AllocError>
    requires name { blank.name ≡ L.name }
    requires parts { blank.parts ≡ L.parts }
    requires one { blank.parts ≡ 1 }
{
    let mut steps = Steps::<L>::new(blank);
    let (names, table) = setup.into_parts();
    audit_journal(alloc, &names, table, rows, &mut steps)
}

/// What an audit says of these rows, over the tables that these lines make.
pub fn judged(alloc: Global, settings: &[&[u8]], rows: &[u8]) -> Result<Verdict, AllocError> {
    let mut setup = Setup::new(alloc)?;
    for line in settings {
        if line.len() <= 8192 {
            if let Ok(command) = read_command(Dialect::Batch, line) {
                set(&mut setup, line, command);
            }
        }
    }
    let blank = Blank::new(1);
    counted_audit::<Brand>(blank, alloc, setup, rows)
}
