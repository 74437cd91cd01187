//! Makes the calls that are to take no memory, and tells around how many of them there was none.
//!
//! Without a word behind the program's name there is ample memory. The two words are for a process whose memory is
//! limited, and `examples/check` says them: with `refused` all memory is taken before each call, and with `counted`
//! all but one block, which must be there again after it.
#![tactic(auto)]

ghost use Rattle.std.specs.Prelude.{◌≡◌};

mod calls;
mod hoard;
mod values;
mod watch;

use calls::{play_begin, play_forest};
use std::alloc::Global;
use std::env;
use std::marker::Brand;
use std::rt::Env;
use std::sync::ledger::{Blank, Ledger};
use std::test::Fail;
use step_count::Steps;
use values::{play_logs, play_states, play_writes};
use watch::{Memory, Watch};

fn main(rt: HostRuntime) -> Result<(), Fail> {
    let alloc = rt.alloc();
    let memory = memory_of(&rt)?;
    let mut watch = Watch::new(alloc, memory)?;
    let commits = play_all(alloc, &mut watch)?;
    watch.release();
    println!(rt;
        "{} calls: all memory was taken before {}, {} took some, {commits} commits",
        watch.calls(),
        watch.starved(),
        watch.took()
    )?;
    let mut watch = Watch::new(alloc, memory)?;
    let began = play_begin(alloc, &mut watch)?;
    watch.release();
    println!(rt;
        "{} begin: all memory was taken before {}, {} took some, began: {began}",
        watch.calls(),
        watch.starved(),
        watch.took()
    )?;
    Ok(())
}

// What the word behind the program's name asks for.
fn memory_of<R: Env + AllocGlobal>(rt: &R) -> Result<Memory, Fail> {
    match env::args(rt)?.nth(1) {
        None => Ok(Memory::Ample),
        Some(word) => match word.as_str() {
            "refused" => Ok(Memory::Refused),
            "counted" => Ok(Memory::Counted),
            _ => Err(Fail::new("no such word")),
        },
    }
}

// Makes all calls with a counter of their own, and answers how many transactions were committed.
fn play_all(alloc: Global, watch: &mut Watch) -> Result<u32, Fail> {
    let blank = Blank::new(1);
    played::<Brand>(blank, alloc, watch)
}

fn played<L: Ledger>(blank: Blank, alloc: Global, watch: &mut Watch) -> Result<u32, Fail>
    requires name { blank.name ≡ L.name }
    requires parts { blank.parts ≡ L.parts }
    requires one { blank.parts ≡ 1 }
{
    let mut steps = Steps::<L>::new(blank);
    play_logs(alloc, watch)?;
    watch.release();
    play_writes(alloc, watch)?;
    watch.release();
    play_states(alloc, watch, &mut steps)?;
    watch.release();
    play_forest(alloc, watch, &mut steps)
}
