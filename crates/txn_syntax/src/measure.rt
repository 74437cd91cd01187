ghost use Rattle.std.specs.Prelude.{◌≡◌, ◌^◌, ◌<◌};
ghost use Rattle.txn_syntax.specs.Meaning.{term_fits, plain_fits, test_fits};
ghost use Rattle.txn_syntax.specs.Measures as spec;

use crate::place::{Plain, Term, Test};
use crate::refusal::Which;

/// What the limits speak of, of the statements of a block. Each number is counted up to the greatest of 64 bits.
#[derive(Clone, Copy)]
pub struct Measure {
    /// Whether each literal has 64 bits.
    pub literals: bool,
    /// The greatest count of a loop.
    pub count: u64,
    pub statements: u64,
    pub depth: u64,
    pub steps: u64,
    pub emits: u64,
}

impl Measure {
    /// No statement.
    pub fn none() -> Measure
        ensures { result ≡ spec.none }
    {
        Measure {
            literals: true,
            count: 0,
            statements: 0,
            depth: 0,
            steps: 0,
            emits: 0,
        }
    }

    /// These statements, and then others.
    pub fn then(self, more: Measure) -> Measure
        ensures { result ≡ spec.then_of self more }
    {
        Measure {
            literals: self.literals && more.literals,
            count: self.count.max(more.count),
            statements: self.statements.saturating_add(more.statements),
            depth: self.depth.max(more.depth),
            steps: self.steps.saturating_add(more.steps),
            emits: self.emits.saturating_add(more.emits),
        }
    }

    pub fn of_plain(plain: Plain) -> Measure
        ensures { result ≡ spec.of_plain plain }
    {
        let emits = match plain {
            Plain::Emit { .. } => 1,
            _ => 0,
        };
        Measure {
            literals: plain_fits(plain),
            count: 0,
            statements: 1,
            depth: 0,
            steps: 1,
            emits,
        }
    }

    /// An `if` with these blocks.
    pub fn of_choice(test: Test, first: Measure, second: Measure) -> Measure
        ensures { result ≡ spec.of_choice test first second }
    {
        let blocks = first.literals && second.literals;
        Measure {
            literals: test_fits(test) && blocks,
            count: first.count.max(second.count),
            statements: 1u64
                .saturating_add(first.statements)
                .saturating_add(second.statements),
            depth: 1u64.saturating_add(first.depth.max(second.depth)),
            steps: 1u64.saturating_add(first.steps.max(second.steps)),
            emits: first.emits.max(second.emits),
        }
    }

    /// A loop over this block.
    pub fn of_turns(count: u64, body: Measure) -> Measure
        ensures { result ≡ spec.of_turns count body }
    {
        let turn = 1u64.saturating_add(body.steps);
        Measure {
            literals: body.literals,
            count: count.max(body.count),
            statements: 1u64.saturating_add(body.statements),
            depth: 1u64.saturating_add(body.depth),
            steps: 1u64.saturating_add(count.saturating_mul(turn)),
            emits: count.saturating_mul(body.emits),
        }
    }

    /// Whether the statements are kept inside so many blocks: their numbers can be, and a program may have so many and so deep.
    pub fn is_kept(self, level: usize) -> bool
        ensures { result ≡ spec.is_kept level self }
    {
        let depth = self.depth.saturating_add(level as u64);
        self.literals && self.count <= 1000 && self.statements <= 256 && depth <= 8
    }

    /// The first limit that is broken.
    pub fn broken(self) -> Option<Which>
        ensures { result ≡ spec.broken_by self }
    {
        if !self.literals {
            Some(Which::Literal)
        } else if self.count > 1000 {
            Some(Which::Loops)
        } else if self.statements > 256 {
            Some(Which::Statements)
        } else if self.depth > 8 {
            Some(Which::Depth)
        } else if self.steps > 100_000 {
            Some(Which::Steps)
        } else if self.emits > 64 {
            Some(Which::Emits)
        } else {
            None
        }
    }
}

fn term_fits(term: Term) -> bool
    ensures { result ≡ term_fits term }
{
    match term {
        Term::Register(_) => true,
        Term::Number(number) => number < 1 << 63,
        Term::Minus(number) => number <= 1 << 63,
    }
}

fn plain_fits(plain: Plain) -> bool
    ensures { result ≡ plain_fits plain }
{
    match plain {
        Plain::Calc { left, right, .. } => {
            let fits = term_fits(right);
            term_fits(left) && fits
        }
        Plain::Move { from, .. } => term_fits(from),
        Plain::Read { at, .. } => term_fits(at),
        Plain::Write { at, from, .. } => {
            let fits = term_fits(from);
            term_fits(at) && fits
        }
        Plain::Emit { from } => term_fits(from),
        Plain::Fail { code } => term_fits(code),
    }
}

fn test_fits(test: Test) -> bool
    ensures { result ≡ test_fits test }
{
    let fits = term_fits(test.right);
    term_fits(test.left) && fits
}
