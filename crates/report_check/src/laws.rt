// Laws of the verdict. Each function stands for the clauses of its contract, and does nothing.
ghost use Rattle.std.specs.Prelude.{◌≡◌, ◌<◌, ◌^◌, ℕ, List, length};
ghost use Rattle.txn_runs.specs.Run.{Tables};
ghost use Rattle.txn_runs.specs.declared.program.Program.{Program};
ghost use Rattle.txn_names.specs.Tables.{Named, IsNames};
ghost use Rattle.scc_text.specs.Lines.{lines_of};
ghost use Rattle.report_text.specs.Order.{NamesEachOnce};
ghost use Rattle.report_text.specs.Report.{report};
ghost use Rattle.report_check.specs.declared.verdict.Verdict.{Verdict as VerdictOf};
ghost use Rattle.report_check.specs.Reports.{AreReport, IsReportVerdict};

/// Lines have one verdict: what is answered is answered exactly where it is so.
pub fn one_verdict()
    ensures { (names : List Named) (tables : Tables) (programs : List Program) (before : ℕ) (lines : List (List ℕ)) (v w : VerdictOf) → IsReportVerdict names tables programs before lines v
        → IsReportVerdict names tables programs before lines w → v ≡ w }
{}

/// The lines of a report in any order that names each program once are right.
pub fn reports_pass()
    ensures { (names : List Named) (tables : Tables) (programs : List Program) (order : List ℕ) → IsNames names → length programs < 2 ^ 32 → NamesEachOnce (length programs) order
        → AreReport names tables programs (lines_of (report names tables programs order)) }
{}
