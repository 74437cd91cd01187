// A machine that answers lines.
ghost use Rattle.std.specs.Prelude.{◌≡◌, ◌≤◌, ◌<◌, ◌-◌, ℕ, List, [], length, IfOk, OnOk, OnErr};
ghost use Rattle.line_loop.specs.declared.flow.Flow.{Flow};

use crate::Flow;
use std::alloc::AllocError;
use std::sync::ledger::Ledger;
use step_count::Steps;

/// A machine that answers lines, one after another. What it does may depend on more than the line and what it stands for, so its
/// members say what it may do.
pub trait Machine {
    /// How many bytes a line may have.
    ghost most: { ℕ };

    /// From this state, at this line, it may answer so, with these bytes as its reply, after so many steps, in that state.
    ghost answers: { Self → List ℕ → Flow → List ℕ → ℕ → Self → Type 0 };

    /// Behind a reply that was written it may work on by itself, with so many steps, to that state.
    ghost works: { Self → ℕ → Self → Type 0 };

    /// Where memory runs out at a line, it may be in that state, after so many steps.
    ghost fails: { Self → List ℕ → ℕ → Self → Type 0 };

    /// At the end of the input its lines may be these.
    ghost ends: { Self → List ℕ → Type 0 };

    /// Answers a line, with the reply, whole lines, in `out`. After want of memory it is not to be asked further.
    fn answer<L: Ledger>(
        &mut self,
        line: &[u8],
        out: &mut Vec<u8>,
        steps: &mut Steps<L>,
    ) -> Result<Flow, AllocError>
        requires short { length line.now ≤ most }
        requires empty { out.old.items ≡ [] }
        ensures answers { IfOk result (λ flow. answers self.old line.now flow out.new.items (steps.new - steps.old) self.new) }
        ensures fails { OnErr result (fails self.old line.now (steps.new - steps.old) self.new) }
        ensures later { steps.old ≤ steps.new };

    /// Answers a line that is too long, which makes no step. After want of memory as `answer`.
    fn answer_too_long(&mut self, out: &mut Vec<u8>) -> Result<Flow, AllocError>
        requires { out.old.items ≡ [] }
        ensures answers { IfOk result (λ flow. (line : List ℕ) → most < length line → answers self.old line flow out.new.items 0 self.new) }
        ensures fails { OnErr result ((line : List ℕ) → most < length line → fails self.old line 0 self.new) };

    /// Called once behind each written reply of a line that was answered with `WorkOn`.
    fn work<L: Ledger>(&mut self, steps: &mut Steps<L>)
        ensures works { works self.old (steps.new - steps.old) self.new }
        ensures later { steps.old ≤ steps.new };

    /// The lines at the end of the input, in `out`, or, after want of memory, more or less of them.
    fn finish(&self, out: &mut Vec<u8>) -> Result<(), AllocError>
        requires { out.old.items ≡ [] }
        ensures { OnOk result (ends self.now out.new.items) };
}
