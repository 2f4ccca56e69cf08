//! What is read is spelled so.
ghost use Rattle.mdcc_sched_words.specs.Spelled.{UpdatesAreSpelled};

/// An update word that is read is the one text of what it is read as.
pub fn updates_are_spelled()
    ensures { UpdatesAreSpelled }
{}
