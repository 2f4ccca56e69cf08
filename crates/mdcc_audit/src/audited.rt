//! What an audit finds.
ghost use Rattle.std.specs.Prelude.{◌≡◌};

use mdcc_base::{Centre, HeapList, Memory, TxId};
use std::marker::Model;

/// How a transaction stands by the votes of all logs.
#[derive(Clone, Copy, Debug, PartialEq, Eq)]
pub enum Verdict3 {
    Commit,
    Abort,
    Open,
}

/// A fact of a log: the centre whose log it is, and the number of the fact, from 1.
#[derive(Clone, Copy, Debug, PartialEq, Eq)]
pub struct Place {
    pub centre: Centre,
    pub number: u64,
}

/// In what two facts contradict each other, or what is wrong with one.
#[derive(Clone, Copy, Debug, PartialEq, Eq)]
pub enum AuditCause {
    /// They give one transaction different outcomes.
    Outcomes,
    /// They give a transaction different marks in one instance at one classic ballot.
    Marks,
    /// They have different choices of one transaction for one key, or different write sets of it.
    Choices,
    /// What is heard is not what the votes of all logs decide.
    Undecided,
}

/// Why logs are refused.
#[derive(Clone, Copy, Debug, PartialEq, Eq)]
pub enum AuditFault {
    /// These two facts contradict each other. Where one fact is wrong, both are that one.
    Contradiction(AuditCause, Place, Place),
    /// There was no memory.
    Memory,
}

impl From<Memory> for AuditFault {
    ghost use Rattle.std.specs.Prelude.{◌≡◌};
    ghost use Rattle.mdcc_audit.specs.declared.audited.AuditFault.TheVariants.{Memory};

    ghost from_gives = { λ _ e. e ≡ Memory };

    fn from(_: Memory) -> AuditFault {
        AuditFault::Memory
    }
}

/// The transactions that votes or outcomes in the logs name, ascending, each with its verdict.
#[derive(Debug, Drop)]
pub struct Audited {
    pub(crate) verdicts: HeapList<(TxId, Verdict3)>,
}

impl Model for Audited {
    ghost use Rattle.std.specs.Prelude.{List};
    ghost use Rattle.mdcc_base.specs.declared.identifiers.TxId.{TxId};
    ghost use Rattle.mdcc_audit.specs.declared.audited.Verdict3.{Verdict3};

    ghost Value = { List (TxId × Verdict3) };

    ghost view = { λ a. a.verdicts };
}

impl Audited {
    /// The transactions with their verdicts.
    pub fn as_slice(&self) -> &[(TxId, Verdict3)]
        ensures { result.now ≡ self.now }
    {
        self.verdicts.as_slice()
    }
}
