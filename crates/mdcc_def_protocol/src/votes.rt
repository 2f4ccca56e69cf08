//! Votes as they are received.
use mdcc_base::{Ballot, Centre, Key, TxId};
use mdcc_option::Mark;

/// What a centre voted on a transaction in an instance at a ballot.
#[derive(Debug, Drop, PartialEq, Eq)]
pub struct Vote {
    pub from: Centre,
    pub key: Key,
    pub version: u64,
    pub ballot: Ballot,
    pub tx: TxId,
    pub mark: Mark,
}
