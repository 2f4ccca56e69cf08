//! Marks that are not forgotten, by the facts that are left.
ghost use Rattle.mdcc_given_back.specs.Marks.{ChoiceByRest, ChoiceStays, CountPastByRest, CountPastStays, EntriesAtStay, EntriesByRest, EntriesByShown, EntriesStay, MarkAfterStays, MarkBelowStays, NextMarkByRest, ReportByRest, ReportStays, ShownByRest, ShownStays, VoteByRest, VoteStays};

/// A mark that is not forgotten, its choice, reports and the counts of marks are answered by plain
/// questions of the facts that are left.
pub fn marks_by_rest()
    ensures vote { VoteByRest }
    ensures shown { ShownByRest }
    ensures choice { ChoiceByRest }
    ensures report { ReportByRest }
    ensures next { NextMarkByRest }
    ensures entries { EntriesByRest }
    ensures entries_shown { EntriesByShown }
    ensures past { CountPastByRest }
{}

/// The marks that are shown, reported and counted, and choices, are those of all facts.
pub fn mark_rests()
    ensures vote { VoteStays }
    ensures shown { ShownStays }
    ensures choice { ChoiceStays }
    ensures entries { EntriesStay }
    ensures entries_at { EntriesAtStay }
    ensures report { ReportStays }
    ensures below { MarkBelowStays }
    ensures next { MarkAfterStays }
    ensures past { CountPastStays }
{}
