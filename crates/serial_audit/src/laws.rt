// Laws of the verdict. Each function stands for the clauses of its contract, and does nothing.
ghost use Rattle.std.specs.Prelude.{◌≡◌, List, length};
ghost use Rattle.std.specs.List.{AllByRecursion};
ghost use Rattle.txn_runs.specs.Run.{Tables};
ghost use Rattle.txn_names.specs.Tables.{Named, IsNames};
ghost use Rattle.journal_core.specs.declared.entry.Entry.{Entry as EntryOf};
ghost use Rattle.journal_core.specs.Journal.{commits, IsLegal};
ghost use Rattle.journal_table.specs.Rows.{journal_text};
ghost use Rattle.journal_table.specs.Spelled.{rows_in};
ghost use Rattle.report_check.specs.declared.verdict.Verdict.TheVariants.{Yes};
ghost use Rattle.serial_audit.specs.Tables.{IsTableVerdict};
ghost use Rattle.serial_audit.specs.Written.{IsWritten};

/// What is written of a legal journal is read as a legal journal with the same commits, over the tables that it opened with: the names
/// are those of the tables, the programs keep the limits and read these tables alone, and each deadline is within its limit.
pub fn written_journals()
    ensures { (names : List Named) (opening : Tables) (journal : List EntryOf) → IsNames names → IsLegal opening journal → AllByRecursion (IsWritten names) journal
        → IsTableVerdict names opening (rows_in (journal_text names journal)) (Yes (length (commits journal))) }
{}
