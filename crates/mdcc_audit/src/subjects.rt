//! What facts say something of.
ghost use Rattle.std.specs.Prelude.{◌≡◌};
ghost use Rattle.mdcc_audit.specs.Subjects.{at_instance, in_vote, of_key, of_tx};

use mdcc_base::{Ballot, Key, TxId};

/// A transaction, or one of its options: for a key, in an instance, or there at a ballot. What is
/// not told apart has the key `-`, the version 0 and the fast ballot in its place.
#[derive(Clone, Copy, Debug, PartialEq, Eq, Hash)]
pub struct Subject {
    pub(crate) tx: TxId,
    pub(crate) whole: bool,
    pub(crate) key: Key,
    pub(crate) version: u64,
    pub(crate) ballot: Ballot,
}

impl Subject {
    /// The transaction.
    pub(crate) fn of_tx(tx: TxId) -> Subject
        ensures { result ≡ of_tx tx }
    {
        Subject {
            tx,
            whole: true,
            key: Key::default(),
            version: 0,
            ballot: Ballot::FAST,
        }
    }

    /// Its option for a key.
    pub(crate) fn of_key(tx: TxId, key: &Key) -> Subject
        ensures { result ≡ of_key tx key.now }
    {
        Subject::at_instance(tx, key, 0)
    }

    /// Its option in an instance.
    pub(crate) fn at_instance(tx: TxId, key: &Key, version: u64) -> Subject
        ensures { result ≡ at_instance tx key.now version }
    {
        Subject::in_vote(tx, key, version, &Ballot::FAST)
    }

    /// Its option in an instance at a ballot.
    pub(crate) fn in_vote(tx: TxId, key: &Key, version: u64, ballot: &Ballot) -> Subject
        ensures { result ≡ in_vote tx key.now version ballot.now }
    {
        Subject {
            tx,
            whole: false,
            key: *key,
            version,
            ballot: *ballot,
        }
    }
}
