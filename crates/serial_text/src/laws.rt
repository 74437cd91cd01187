// The laws of printed texts. Each function stands for the clauses of its contract, and does nothing.
ghost use Rattle.std.specs.Prelude.{◌≡◌, ℕ, List, Option};
ghost use Rattle.scc_text.specs.Lines.{lines_of};
ghost use Rattle.scc_text.specs.declared.command.Dialect.TheVariants as dialects;
ghost use Rattle.line_loop.specs.Meaning.{script_text, replies_from};
ghost use Rattle.scc_script.specs.Ran.{ScriptRan};
ghost use Rattle.scc_replies.specs.declared.status.Status.{Status};
ghost use Rattle.scc_script.specs.Text.{meaning, opening_script};
ghost use Rattle.serial_text.specs.Notes.{Notes, no_notes, AreNoted};
ghost use Rattle.serial_text.specs.Serial.{IsSerialText, IsSerialSoFar, IsSerialRun, IsSameReading, IsSameSoFar};
ghost use Rattle.serial_text.specs.Told.{PrintedSerially};
ghost use Rattle.serial_text.specs.Wrong.{TooMany, OtherOutcome, OpeningFinals};

/// The text that is printed for any bytes is that of a serial run: its commit lines, in order, with the programs of the `begin` lines that
/// they name and the values that were put, give by serial run the printed outcomes, the final lines and the number of commits. The replies
/// to any first lines are those of a serial run so far.
pub fn printed()
    ensures whole { (k lanes : ℕ) (bytes : List ℕ) → IsSerialText (lines_of bytes) (script_text (meaning dialects.Script) (opening_script k lanes) bytes) }
    ensures so_far { (k lanes : ℕ) (lines : List (List ℕ)) → IsSerialSoFar lines (replies_from (meaning dialects.Script) (opening_script k lanes) lines) }
{}

/// So is what a script has printed at any end, where its sink tells it, or a front of that where writing failed or memory ran out.
pub fn printed_by_runs()
    ensures { (k lanes : ℕ) (answer : Status) (read : List ℕ) (left_old left_new written_old written_new : Option (List ℕ)) (steps_old steps_new : ℕ) →
        ScriptRan k lanes answer read left_old left_new written_old written_new steps_old steps_new → PrintedSerially answer read written_old written_new }
{}

/// Whoever reads the same reply to each line notes the same tables, programs and commits, if the commits are those of a serial run.
pub fn readings_agree()
    ensures { (answers : List (List ℕ × List ℕ)) (n m : Notes) → AreNoted no_notes answers n → AreNoted no_notes answers m → IsSerialRun n → IsSerialRun m → n ≡ m }
{}

/// A printed text can be read as that of a serial run in one way alone: whoever cuts it into a reply to each of these lines and the last
/// lines cuts it at the same places, and notes the same tables, programs and commits with their outcomes. So it is with the replies to
/// first lines.
pub fn readings_are_one()
    ensures whole { (lines : List (List ℕ)) (printed : List ℕ) (one other : IsSerialText lines printed) → IsSameReading lines printed one other }
    ensures so_far { (lines : List (List ℕ)) (printed : List ℕ) (one other : IsSerialSoFar lines printed) → IsSameSoFar lines printed one other }
{}

/// Texts that no reader can take for those of a serial run: one commit too many at the end, an outcome that
/// the program doesn't have, and final lines with the values before the commit.
pub fn refused_texts()
    ensures too_many { TooMany }
    ensures other_outcome { OtherOutcome }
    ensures opening_finals { OpeningFinals }
{}
