// A session as a machine that answers lines.
ghost use Rattle.std.specs.Prelude.{◌≡◌, ◌≤◌, ◌++◌, ℕ, List, Some, None, false, length, OnOk};
ghost use Rattle.txn_names.specs.Tables.{items_of};
ghost use Rattle.turn_cell.specs.Passes.{IsOf, seen_by, turns_of, seats_of};
ghost use Rattle.shadow_forest.specs.Listed.{items_in};
ghost use Rattle.shadow_forest.specs.declared.kept.Item.{Item};
ghost use Rattle.shadow_worker.specs.Worked.{HasWorked};
ghost use Rattle.line_server.specs.Answers.{is_blank as is_blank_of};
ghost use Rattle.line_server.specs.Stands as spec;
ghost use Rattle.line_server.specs.Stands.{seats_in, cell_in, seen_in, turns_in, HasTurned, HasTurnedOr};
ghost use Rattle.line_server.specs.Wishes.{Fits, wish_at, is_quit_wish};

use crate::answers::answer_wish;
use crate::wish::{Wish, wish_of};
use line_loop::{Flow, Machine};
use scc_ports::Gate;
use scc_text::{Command, Dialect, read_command};
use shadow_forest::{Bench, Forest};
use shadow_worker::{Until, work};
use std::alloc::{AllocError, Global};
use std::sync::Wait;
use std::sync::ledger::Ledger;
use step_count::Steps;
use turn_cell::{Pass, TurnCell};
use txn_names::Names;

/// A session under way: each line that isn't blank is answered in a turn, and behind each reply but the last it works so many turns.
#[derive(Drop)]
pub struct Talker<'a, R: Wait, G: Gate> {
    pub rt: &'a R,
    pub alloc: Global,
    pub cell: &'a TurnCell<Forest>,
    pub names: &'a Names,
    pub pass: Option<Pass<Forest>>,
    pub bench: &'a mut Bench,
    pub gate: &'a G,
    pub help: u32,
    ghost here: { cell_in pass ≡ Some cell.now.table.shared.table_id },
    ghost room: { items_in (seen_in pass) ≡ Some bench.now.items },
    ghost named: { items_of names.now ≡ bench.now.items },
    ghost empty: { bench.now.outside ≡ None },
}

impl<'a, R: Wait, G: Gate> Machine for Talker<'a, R, G> {
    ghost use Rattle.std.specs.Prelude.{◌≡◌, [], Some};
    ghost use Rattle.turn_cell.specs.Passes.{seen_by, turns_of, seats_of};
    ghost use Rattle.line_server.specs.Stands.{stand, Answers, Works, Fails, IsSameSession, IsSameBench};

    ghost most = { 8192 };

    ghost answers = { λ old line flow reply _ new. Answers (stand old.names.now old.help old.pass) line flow reply (stand new.names.now new.help new.pass) × IsSameSession (stand old.names.now old.help old.pass) (stand new.names.now new.help new.pass) × IsSameBench old.bench.ghost_name new.bench.ghost_name old.bench.now new.bench.now };

    ghost works = { λ old _ new. Works (stand old.names.now old.help old.pass) (stand new.names.now new.help new.pass) × IsSameSession (stand old.names.now old.help old.pass) (stand new.names.now new.help new.pass) × IsSameBench old.bench.ghost_name new.bench.ghost_name old.bench.now new.bench.now };

    ghost fails = { λ old line _ new. Fails (stand old.names.now old.help old.pass) line (stand new.names.now new.help new.pass) × IsSameSession (stand old.names.now old.help old.pass) (stand new.names.now new.help new.pass) × IsSameBench old.bench.ghost_name new.bench.ghost_name old.bench.now new.bench.now };

    ghost ends = { λ _ text. text ≡ [] };

    fn answer<L: Ledger>(
        &mut self,
        line: &[u8],
        out: &mut Vec<u8>,
        _steps: &mut Steps<L>,
    ) -> Result<Flow, AllocError> {
        let command = read_command(Dialect::Session, line);
        if is_blank(&command) {
            return Ok(Flow::GoOn);
        }
        let wish = wish_of(self.alloc, self.names, line, command)?;
        let flow = flow_of(&wish);
        take_turn(self.rt, self.cell, &mut self.pass, line, wish, out)?;
        Ok(flow)
    }

    fn answer_too_long(&mut self, out: &mut Vec<u8>) -> Result<Flow, AllocError> {
        let wish = Wish::Refusal { code: 11 };
        take_turn(self.rt, self.cell, &mut self.pass, b"", wish, out)?;
        Ok(Flow::WorkOn)
    }

    fn work<L: Ledger>(&mut self, steps: &mut Steps<L>) {
        help_out(
            self.rt,
            self.cell,
            &mut self.pass,
            self.bench,
            self.gate,
            self.help,
            steps,
        );
    }

    fn finish(&self, _out: &mut Vec<u8>) -> Result<(), AllocError> {
        Ok(())
    }
}

// Whether nobody answers the line of this command.
fn is_blank(command: &Result<Command, u8>) -> bool
    ensures { result ≡ is_blank_of command.now }
{
    matches!(command, Ok(Command::Blank))
}

// What comes behind the reply to a wish.
fn flow_of(wish: &Wish) -> Flow
    ensures { result ≡ spec.flow_of (is_quit_wish wish.now) }
{
    match wish {
        Wish::Quit => Flow::Stop,
        _ => Flow::WorkOn,
    }
}

// One turn, in which a wish of a line is answered.
fn take_turn<R: Wait>(
    rt: &R,
    cell: &TurnCell<Forest>,
    place: &mut Option<Pass<Forest>>,
    line: &[u8],
    wish: Wish,
    out: &mut Vec<u8>,
) -> Result<(), AllocError>
    requires cell { cell_in place.old ≡ Some cell.now.table.shared.table_id }
    requires fits { (n : ℕ) × (items_in (seen_in place.old) ≡ Some n) × Fits n (length line.now) wish }
    ensures cell { (cell_in place.new ≡ cell_in place.old) × (seats_in place.new ≡ seats_in place.old) }
    ensures turned { OnOk result ((found : List Item) × HasTurned (seen_in place.old) (turns_in place.old) found (wish_at found line.now wish).adds (seen_in place.new) (turns_in place.new)
        × (out.new.items ≡ out.old.items ++ (wish_at found line.now wish).reply)) }
    ensures part { (found : List Item) × HasTurnedOr (seen_in place.old) (turns_in place.old) found (wish_at found line.now wish).adds (seen_in place.new) (turns_in place.new) }
{
    match place.take() {
        Some(pass) => {
            let (pass, answered) = turn_at(rt, cell, pass, line, wish, out);
            *place = Some(pass);
            answered
        }
        None => unreachable!(),
    }
}

// The same with a pass that is there.
fn turn_at<R: Wait>(
    rt: &R,
    cell: &TurnCell<Forest>,
    pass: Pass<Forest>,
    line: &[u8],
    wish: Wish,
    out: &mut Vec<u8>,
) -> (Pass<Forest>, Result<(), AllocError>)
    requires cell { IsOf pass cell.now }
    requires fits { (n : ℕ) × (items_in (seen_by pass) ≡ Some n) × Fits n (length line.now) wish }
    ensures cell { IsOf result.0 cell.now × (seats_of result.0 ≡ seats_of pass) }
    ensures turned { OnOk result.1 ((found : List Item) × HasTurned (seen_by pass) (turns_of pass) found (wish_at found line.now wish).adds (seen_by result.0) (turns_of result.0)
        × (out.new.items ≡ out.old.items ++ (wish_at found line.now wish).reply)) }
    ensures part { (found : List Item) × HasTurnedOr (seen_by pass) (turns_of pass) found (wish_at found line.now wish).adds (seen_by result.0) (turns_of result.0) }
{
    let mut held = cell.take_turn(rt, pass);
    let answered = answer_wish(&mut held.value, line, wish, out);
    (cell.give_turn(held), answered)
}

// So many turns of work.
fn help_out<R: Wait, G: Gate, L: Ledger>(
    rt: &R,
    cell: &TurnCell<Forest>,
    place: &mut Option<Pass<Forest>>,
    bench: &mut Bench,
    gate: &G,
    help: u32,
    steps: &mut Steps<L>,
)
    requires cell { cell_in place.old ≡ Some cell.now.table.shared.table_id }
    requires empty { bench.old.outside ≡ None }
    requires items { items_in (seen_in place.old) ≡ Some bench.old.items }
    ensures cell { (cell_in place.new ≡ cell_in place.old) × (seats_in place.new ≡ seats_in place.old) }
    ensures worked { HasWorked (seen_in place.old) (turns_in place.old) help (seen_in place.new) (turns_in place.new) }
    ensures bench { bench.new ≡ bench.old }
    ensures later { steps.old ≤ steps.new }
{
    match place.take() {
        Some(pass) => {
            *place = Some(work(rt, cell, pass, bench, 0, gate, Until::Turns(help), steps));
        }
        None => unreachable!(),
    }
}
