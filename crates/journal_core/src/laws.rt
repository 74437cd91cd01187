// Laws of journals. Each function stands for the clauses of its contract, and does nothing.

ghost use Rattle.std.specs.Prelude.{◌≡◌, ◌≤◌, ◌↔◌, ◌++◌, ℕ, true, List, [], map, length};
ghost use Rattle.std.specs.List.{AllByRecursion};
ghost use Rattle.txn_runs.specs.Run.{Tables};
ghost use Rattle.txn_runs.specs.Serial.{outcomes};
ghost use Rattle.journal_core.specs.declared.entry.Entry.{Entry as EntryOf};
ghost use Rattle.journal_core.specs.Journal.{began, has_begun, program_of, commits, replies, committed_programs, IsLegal};
ghost use Rattle.journal_core.specs.Numbered.{program_named, is_named, AreDistinct};
ghost use Rattle.journal_core.specs.Begins.{begins, commit_replies};

/// The outcomes of a legal journal are those of its committed programs, run alone one after another from the opening tables;
/// and the transactions that began are those from 1 to their number.
pub fn legal_journals()
    ensures serial { (opening : Tables) (journal : List EntryOf) → IsLegal opening journal → replies journal ≡ outcomes opening (committed_programs journal) }
    ensures numbers { (opening : Tables) (journal : List EntryOf) (t : ℕ) → IsLegal opening journal → (has_begun journal t ≡ true) ↔ (1 ≤ t × t ≤ began journal) }
{}

/// What a longer journal keeps: whoever began has begun, with the same program, and what began or was committed since comes behind.
pub fn longer_journals()
    ensures begun { (journal more : List EntryOf) (t : ℕ) → has_begun journal t ≡ true → has_begun (journal ++ more) t ≡ true }
    ensures program { (journal more : List EntryOf) (t : ℕ) → has_begun journal t ≡ true → program_of (journal ++ more) t ≡ program_of journal t }
    ensures begins { (journal more : List EntryOf) → begins (journal ++ more) ≡ begins journal ++ begins more }
    ensures replies { (journal more : List EntryOf) → commit_replies (journal ++ more) ≡ commit_replies journal ++ commit_replies more }
{}

/// The programs that began, as a list by their numbers.
pub fn begun_programs()
    ensures named { (journal : List EntryOf) (t : ℕ) → is_named (begins journal) t ≡ has_begun journal t }
    ensures program { (journal : List EntryOf) (t : ℕ) → program_named (begins journal) t ≡ program_of journal t }
    ensures count { (journal : List EntryOf) → length (begins journal) ≡ began journal }
{}

/// The commits, each with its outcome. In a legal journal each names a program that began, and nobody is committed twice.
pub fn commits_with_outcomes()
    ensures numbers { (journal : List EntryOf) → map (λ c. c.0) (commit_replies journal) ≡ commits journal }
    ensures outcomes { (journal : List EntryOf) → map (λ c. c.1) (commit_replies journal) ≡ replies journal }
    ensures programs { (journal : List EntryOf) → map (λ c. program_named (begins journal) c.0) (commit_replies journal) ≡ committed_programs journal }
    ensures named { (opening : Tables) (journal : List EntryOf) → IsLegal opening journal → AllByRecursion (λ c. is_named (begins journal) c.0 ≡ true) (commit_replies journal) }
    ensures distinct { (opening : Tables) (journal : List EntryOf) → IsLegal opening journal → AreDistinct (commits journal) }
    ensures none { (opening : Tables) (journal : List EntryOf) → IsLegal opening journal → begins journal ≡ [] → commit_replies journal ≡ [] }
{}
