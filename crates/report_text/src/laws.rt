// Laws of reports. Each function stands for the clause of its contract, and does nothing.
ghost use Rattle.std.specs.Prelude.{◌≡◌, ℕ, List};
ghost use Rattle.txn_runs.specs.Run.{Tables};
ghost use Rattle.txn_runs.specs.declared.program.Program.{Program};
ghost use Rattle.txn_names.specs.Tables.{Named};
ghost use Rattle.report_text.specs.Order.{order_of, NamesFit, NumbersFit};
ghost use Rattle.report_text.specs.Report.{report};

/// The order of a report is read off its text: the numbers in its `commit` lines are those of the order that it was made for.
pub fn order_is_told()
    ensures { (names : List Named) (tables : Tables) (programs : List Program) (order : List ℕ) → NamesFit names → NumbersFit order
        → order_of (report names tables programs order) ≡ order }
{}
