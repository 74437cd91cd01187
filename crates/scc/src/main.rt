//! A transaction server with speculative concurrency control, as a program over standard input and output.
//!
//! Its formats and limits stand in docs/FORMATS.md, what is proved in docs/PROMISES.md.
#![tactic(auto)]

#[cfg(test)]
mod audits;
#[cfg(test)]
mod refusals;
#[cfg(test)]
mod rows;
#[cfg(test)]
mod tests;
mod top;
mod words;

use scc_ports::{OpenGate, ReadSource, WriteSink};
use scc_script::Status;
use std::marker::Brand;
use std::process::ExitCode;
use std::rt::Env;
use std::sync::ledger::Blank;
use std::{env, io};
use top::{exit_code, top_uncounted};

const USAGE: &str =
    "usage: scc script K LANES | batch K LANES WORKERS | audit | gen SEED COUNT | soak SEED COUNT K WORKERS | serve K LANES WORKERS ADDR";

fn main(rt: HostRuntime) -> ExitCode {
    let words = match command_words(&rt) {
        Ok(words) => words,
        Err(error) if error.kind() == io::ErrorKind::OutOfMemory => {
            return ExitCode::from(exit_code(Status::OutOfMemory));
        }
        // words that are no text name no mode
        Err(_) => Vec::new(rt.alloc()),
    };
    let mut source = ReadSource::new(rt.stdin());
    let mut sink = WriteSink::new(rt.stdout());
    let status = top_uncounted::<Brand, _, _, _, _>(
        Blank::new(1),
        &rt,
        rt.alloc(),
        &words,
        &mut source,
        &mut sink,
        &OpenGate,
    );
    if status == Status::BadWords {
        let _ = eprintln!(rt; "{USAGE}");
    }
    ExitCode::from(exit_code(status))
}

// The words behind the program's name.
fn command_words<R: Env + AllocGlobal>(rt: &R) -> io::Result<Vec<String>> {
    let mut words = Vec::new(rt.alloc());
    for word in env::args(rt)?.skip(1) {
        words.push(word)?;
    }
    Ok(words)
}
