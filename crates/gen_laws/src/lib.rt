//! What the generator's text is as a batch, and what its programs come to in every order. Each function stands for the clauses of its
//! contract, and does nothing.
//!
//! The text stands in docs/FORMATS.md, "The generator", what is proved in docs/PROMISES.md.
#![tactic(auto)]

ghost use Rattle.std.specs.Prelude.{◌≡◌, ◌≤◌, ◌<◌, ℕ, Ok, List, length};
ghost use Rattle.batch_input.specs.Input.{batch_input};
ghost use Rattle.report_text.specs.Order.{NamesEachOnce};
ghost use Rattle.report_text.specs.Report.{in_order, report};
ghost use Rattle.scc_gen.specs.Generated.{gen_text, transfers};
ghost use Rattle.gen_laws.specs.Programs.{generated, programs, names};
ghost use Rattle.gen_laws.specs.Sums.{ComesTo, zeros};

/// The generator's text is a good input of a batch, and within the limit of an input: no line is refused, and the batch that they make
/// has the program of each transfer.
pub fn generated_batches()
    ensures batch { (seed count : ℕ) → count ≤ 20000 → batch_input (gen_text seed count) ≡ Ok (generated seed count) }
    ensures small { (seed count : ℕ) → count ≤ 20000 → length (gen_text seed count) ≤ 67108864 }
{}

/// Whatever order the programs run in, one after another and each once: each comes to its end, and the sums at the end are the same.
pub fn every_order()
    ensures { (seed count : ℕ) (order : List ℕ) → count ≤ 20000 → NamesEachOnce count order
        → ComesTo (transfers seed count) (in_order (programs seed count) order) × (length order ≡ count) }
{}

/// The same where they run in the order of their lines.
pub fn line_order()
    ensures { (seed count : ℕ) → count ≤ 20000 → ComesTo (transfers seed count) (programs seed count) }
{}

/// The report of each order is within the limit of an input.
pub fn small_reports()
    ensures { (seed count : ℕ) (order : List ℕ) → count ≤ 20000 → NamesEachOnce count order
        → length (report names zeros (programs seed count) order) ≤ 67108864 }
{}
