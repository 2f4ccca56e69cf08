//! What an acceptor answers.
use mdcc_base::Ballot;
use mdcc_option::{Cause, Mark, Outcome};

/// What an acceptor answers to a proposal at the fast ballot.
#[derive(Debug, Drop)]
pub enum ProposeAnswer {
    /// It heard how the transaction ended.
    Known(Outcome),
    /// All centres have heard how the transaction ended, and it has given the outcome back.
    Finished,
    /// It voted on the transaction before, at this ballot as its last one.
    Again(Ballot, Mark),
    /// It gives no vote.
    Escalate(Cause),
    /// It votes this mark.
    Vote(Mark),
}

/// What an acceptor answers to a leader that asks for its promise.
#[derive(Clone, Copy, Debug, PartialEq, Eq)]
pub enum PrepareAnswer {
    /// It promised this greater ballot, or voted at it.
    Refused(Ballot),
    /// It made this promise before, through this version.
    Again(u64),
    /// It promises through this version.
    Promise(u64),
}

/// What an acceptor answers to a leader's structure.
#[derive(Clone, Copy, Debug, PartialEq, Eq)]
pub enum AcceptAnswer {
    /// It promised this greater ballot, or voted at it.
    Refused(Ballot),
    /// It holds this version, which is below that of the structure.
    Behind(u64),
    /// It voted on each transaction of the structure at that ballot before.
    Older,
    /// It votes the marks that are new.
    Vote,
}
