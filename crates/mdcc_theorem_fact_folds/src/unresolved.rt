//! Transactions that are not resolved.
ghost use Rattle.mdcc_theorem_fact_folds.specs.Unresolved.{FoundByNumber, OutcomeOfUnknown, PutByNumber, TakenByNumber, UnresolvedAscends};
ghost use Rattle.mdcc_theorem_fact_folds.specs.Unresolved.{UnresolvedUpdates, VoteOfKnown, WriteSetByWalk, WriteSetUpdates, WriteSetUnheard};

/// The list of the unresolved transactions ascends, and each further fact changes it by its own
/// transactions alone.
pub fn unresolved()
    ensures updates { UnresolvedUpdates }
    ensures ascends { UnresolvedAscends }
{}

/// A vote on transactions that are known from earlier votes changes nothing in the list, and neither
/// does an outcome of one of which no vote held a choice.
pub fn unchanged()
    ensures known { VoteOfKnown }
    ensures unknown { OutcomeOfUnknown }
{}

/// A table of the first write set of each transaction is enough for that of an unresolved one.
pub fn write_set()
    ensures updates { WriteSetUpdates }
    ensures unheard { WriteSetUnheard }
    ensures walk { WriteSetByWalk }
{}

/// A list may have numbers in the place of write sets: what it represents changes as it does.
pub fn by_number()
    ensures put { PutByNumber }
    ensures taken { TakenByNumber }
    ensures found { FoundByNumber }
{}
