// Laws of the journals that reports tell. Each function stands for the clause of its contract, and does nothing.
ghost use Rattle.std.specs.Prelude.{◌≡◌, ◌++◌, ℕ, true, false, List};
ghost use Rattle.txn_runs.specs.Run.{Tables};
ghost use Rattle.journal_core.specs.declared.entry.Entry.{Entry as EntryOf};
ghost use Rattle.journal_core.specs.Journal.{began, commits, is_live, is_sealed, is_withdrawn, IsLegal};
ghost use Rattle.report_text.specs.Order.{NamesEachOnce};
ghost use Rattle.batch_report.specs.Commits.{AreCommits};

/// Behind a journal that is sealed only commits come.
pub fn sealed_journals()
    ensures { (opening : Tables) (journal more : List EntryOf) → IsLegal opening (journal ++ more) → is_sealed journal ≡ true → AreCommits more }
{}

/// In a legal journal in which nobody was withdrawn and nobody is live, each transaction that began is committed once.
pub fn each_is_committed_once()
    ensures { (opening : Tables) (journal : List EntryOf) → IsLegal opening journal → ((t : ℕ) → is_withdrawn journal t ≡ false) → ((t : ℕ) → is_live journal t ≡ false)
        → NamesEachOnce (began journal) (commits journal) }
{}
