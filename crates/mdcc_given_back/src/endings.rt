//! Outcomes, by the facts that are left.
ghost use Rattle.mdcc_given_back.specs.Endings.{EndedStays, HeardOfRest, HeardStays, IdleOfHeard, KeptByRest, KeptByShown, KeptStays, UnheardByRest, UnvotedByRest};

/// What was heard of a transaction that is not idle, and what is kept of one, is what all facts
/// say.
pub fn ending_rests()
    ensures heard { HeardStays }
    ensures by_rest { KeptByRest }
    ensures by_shown { KeptByShown }
    ensures kept { KeptStays }
    ensures ended { EndedStays }
{}

/// The facts that are left tell nothing else than all facts.
pub fn told_of_rests()
    ensures heard { HeardOfRest }
    ensures idle { IdleOfHeard }
    ensures unheard { UnheardByRest }
    ensures unvoted { UnvotedByRest }
{}
