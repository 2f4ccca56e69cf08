//! Options of transactions, and what becomes of them.
use crate::{Update, WriteSet};
use mdcc_base::{Ballot, BoundedList, Key, Plain, TxId};

/// The option of a transaction for one key, with all keys of the transaction and their versions.
#[derive(Debug, Default, Drop, PartialEq, Eq)]
pub struct Choice {
    pub tx: TxId,
    pub key: Key,
    pub version: u64,
    pub update: Update,
    pub write_set: WriteSet,
}

/// What an acceptor voted on a transaction in an instance, or a leader put into a structure.
#[derive(Debug, Drop, PartialEq, Eq)]
pub enum Mark {
    Accept(Choice),
    Reject,
}

/// How a transaction ended. A commit has its choices in key order.
#[derive(Debug, Drop, PartialEq, Eq)]
pub enum Outcome {
    Commit(BoundedList<Choice, 8>),
    Abort,
}

/// A transaction that asks a leader for a mark in an instance, with its choice where that is known.
#[derive(Debug, Default, Drop, PartialEq, Eq)]
pub struct Claim {
    pub tx: TxId,
    pub key: Key,
    pub version: u64,
    pub choice: Option<Choice>,
}

/// Why an acceptor gives no vote at the fast ballot.
#[derive(Clone, Copy, Debug, PartialEq, Eq)]
pub enum Cause {
    /// It holds an older version of the key.
    Behind,
    /// It promised this classic ballot, or voted at it.
    Classic(Ballot),
    /// The option passes the fast limit of this quantity: 0 is the number of adds, n attribute n.
    Limit(u8),
    /// The instance holds as many marks at the fast ballot as it may.
    Full,
}

impl Plain for Choice {
    fn copy(&self) -> Choice {
        Choice {
            tx: self.tx,
            key: self.key,
            version: self.version,
            update: self.update.copy(),
            write_set: self.write_set.copy(),
        }
    }

    fn same(&self, other: &Choice) -> bool {
        self.tx == other.tx
            && self.key.same(&other.key)
            && self.version == other.version
            && self.update.same(&other.update)
            && self.write_set.same(&other.write_set)
    }
}

impl Plain for Mark {
    fn copy(&self) -> Mark {
        match self {
            Mark::Accept(choice) => Mark::Accept(choice.copy()),
            Mark::Reject => Mark::Reject,
        }
    }

    fn same(&self, other: &Mark) -> bool {
        match (self, other) {
            (Mark::Accept(a), Mark::Accept(b)) => a.same(b),
            (Mark::Reject, Mark::Reject) => true,
            (Mark::Accept(_), Mark::Reject) => false,
            (Mark::Reject, Mark::Accept(_)) => false,
        }
    }
}

impl Plain for Outcome {
    fn copy(&self) -> Outcome {
        match self {
            Outcome::Commit(choices) => Outcome::Commit(choices.copy()),
            Outcome::Abort => Outcome::Abort,
        }
    }

    fn same(&self, other: &Outcome) -> bool {
        match (self, other) {
            (Outcome::Commit(a), Outcome::Commit(b)) => a.same(b),
            (Outcome::Abort, Outcome::Abort) => true,
            (Outcome::Commit(_), Outcome::Abort) => false,
            (Outcome::Abort, Outcome::Commit(_)) => false,
        }
    }
}

impl Plain for Claim {
    fn copy(&self) -> Claim {
        Claim {
            tx: self.tx,
            key: self.key,
            version: self.version,
            choice: self.choice.copy(),
        }
    }

    fn same(&self, other: &Claim) -> bool {
        self.tx == other.tx
            && self.key.same(&other.key)
            && self.version == other.version
            && self.choice.same(&other.choice)
    }
}

impl Plain for Cause {
    fn copy(&self) -> Cause {
        *self
    }

    fn same(&self, other: &Cause) -> bool {
        *self == *other
    }
}
