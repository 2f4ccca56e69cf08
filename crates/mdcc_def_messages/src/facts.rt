//! What a centre writes into its log, and keeps.
use mdcc_base::{Ballot, Centre, HeapList, Key, TxId};
use mdcc_option::{Choice, Delta, Item, Outcome};
use mdcc_struct::Options;

/// What a centre knows and never forgets.
#[derive(Drop)]
pub enum Fact {
    /// It was started, in this epoch.
    Booted(u32),
    /// It votes at no ballot below this one in the instances of the key from the low to the high
    /// version.
    Promised {
        key: Key,
        low: u64,
        high: u64,
        ballot: Ballot,
    },
    /// It voted these marks in the instance at this ballot. An option that it rejected at the fast
    /// ballot stands beside the mark.
    Voted {
        key: Key,
        version: u64,
        ballot: Ballot,
        options: Options,
        offered: Option<Choice>,
    },
    /// It heard how the transaction ended.
    Heard {
        tx: TxId,
        outcome: Outcome,
    },
    /// It was given this version of the key by another centre, with the deltas on it.
    Adopted {
        key: Key,
        version: u64,
        item: Item,
        adds: HeapList<Delta>,
    },
    /// All centres have heard the transactions that this centre began in this epoch, from the first
    /// through the one of this number.
    Floor {
        centre: Centre,
        epoch: u32,
        seq: u32,
    },
}
