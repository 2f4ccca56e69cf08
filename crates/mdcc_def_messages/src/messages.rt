//! The messages between centres, and between a node and its client.
use mdcc_base::{Ballot, BoundedList, Centre, HeapList, Key, TxId};
use mdcc_option::{BeginFault, Cause, Choice, Delta, DraftFault, Item, Mark, Outcome, Part, Token};
use mdcc_struct::Options;

/// What a client is answered.
#[derive(Debug, Drop)]
pub enum ClientAnswer {
    /// What a read shows of a key.
    Read {
        key: Key,
        token: Token,
        item: Option<Item>,
        due: bool,
    },
    /// The transaction was begun.
    Begun(TxId),
    /// No transaction was begun, because of this key.
    Refused(Key, BeginFault),
    /// The transaction ended: true is commit.
    Heard(TxId, bool),
    /// The parts make no transaction.
    Draft(DraftFault),
}

/// What is sent.
#[derive(Drop)]
pub enum Message {
    /// A manager proposes an option at the fast ballot.
    Propose(Choice),
    /// An acceptor voted.
    Voted {
        key: Key,
        version: u64,
        ballot: Ballot,
        tx: TxId,
        mark: Mark,
    },
    /// An acceptor gives no vote at the fast ballot.
    Escalate {
        key: Key,
        version: u64,
        tx: TxId,
        cause: Cause,
    },
    /// A manager asks a leader for a mark.
    Lead(Choice),
    /// A leader asks for promises.
    Prepare {
        key: Key,
        version: u64,
        through: u64,
        ballot: Ballot,
    },
    /// An acceptor promises, and reports its votes.
    Promise {
        key: Key,
        version: u64,
        through: u64,
        ballot: Ballot,
        reported: Ballot,
        votes: Options,
    },
    /// A leader asks for votes on a structure.
    Accept {
        key: Key,
        version: u64,
        ballot: Ballot,
        options: Options,
    },
    /// An acceptor promised a greater ballot.
    Refused {
        key: Key,
        version: u64,
        ballot: Ballot,
        promised: Ballot,
    },
    /// How a transaction ended.
    Outcome {
        tx: TxId,
        outcome: Outcome,
    },
    /// A centre asks for a vote or an outcome.
    Ask {
        tx: TxId,
        key: Key,
        version: u64,
    },
    /// A centre that is behind asks for what is held of a key.
    SyncAsk(Key),
    /// What is held of a key.
    SyncGive {
        key: Key,
        version: u64,
        item: Item,
        adds: HeapList<Delta>,
    },
    /// A client reads.
    ClientRead {
        serial: u32,
        key: Key,
    },
    /// A client begins a transaction.
    ClientBegin {
        serial: u32,
        parts: BoundedList<Part, 8>,
    },
    /// A client is answered.
    ClientAnswer {
        serial: u32,
        answer: ClientAnswer,
    },
    /// The sender has heard the transactions that this centre began in this epoch, from the first
    /// through the one of this number.
    Mark {
        centre: Centre,
        epoch: u32,
        seq: u32,
    },
    /// All centres have heard how the transaction ended.
    Finished(TxId),
}

/// A message with the endpoints between which it goes: a centre's number, or 16 more for its client.
#[derive(Drop)]
pub struct Envelope {
    pub from: u8,
    pub to: u8,
    pub message: Message,
}
