//! What is read is a line of a history, and what a verdict on a text means.
ghost use Rattle.std.specs.Prelude.{◌≡◌, ◌-◌, ◌≤◌, List, Ok, Some, length, ℕ, ℤ};
ghost use Rattle.mdcc_base.specs.Counts.{number_of};
ghost use Rattle.mdcc_check.specs.Histories.{IsLine, IsRightHistory};
ghost use Rattle.mdcc_check.specs.Verdicts.{is_commit};
ghost use Rattle.mdcc_check.specs.declared.history.HistoryLine.{HistoryLine as ALine};
ghost use Rattle.mdcc_check_histories.specs.Grammar.{line_in};
ghost use Rattle.mdcc_def_language.specs.Errors.{most_input};
ghost use Rattle.mdcc_check_histories.specs.Texts.{NumberedLine, history_lines, history_of, text_verdict_of};
ghost use Rattle.mdcc_check_histories.specs.declared.texts.TextVerdict.{TextVerdict as AVerdict};

/// A line that is read is as code has it: a transaction of distinct keys, or a read of a version of 64 bits.
pub fn read_is_line()
    ensures { (schema : List (ℤ × ℤ)) (text : List ℕ) (line : ALine) → line_in schema text ≡ Ok (Some line) → IsLine line }
{}

/// A text of which the verdict is yes is a right history.
pub fn text_yes_is_right()
    ensures { (text : List ℕ) (commits reads : ℕ) → text_verdict_of text ≡ Ok (AVerdict.Yes commits reads)
        → (history : List (ℤ × ℤ) × List NumberedLine) × (history_of text ≡ Ok history) × IsRightHistory history.0 (history_lines history.1) }
{}

/// The verdict on a text that is a right history is yes, with the numbers of its commits and of its reads.
pub fn right_text_is_yes()
    ensures { (text : List ℕ) (history : List (ℤ × ℤ) × List NumberedLine) → length text ≤ most_input → history_of text ≡ Ok history
        → IsRightHistory history.0 (history_lines history.1)
        → text_verdict_of text ≡ Ok (AVerdict.Yes (number_of is_commit (history_lines history.1)) (length history.1 - number_of is_commit (history_lines history.1))) }
{}
