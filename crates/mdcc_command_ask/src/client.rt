//! Where a client is.
ghost use Rattle.std.specs.Prelude.{◌≡◌, IfOk};
ghost use Rattle.mdcc_command_ask.specs.Answers.{next_key};
ghost use Rattle.mdcc_command_ask.specs.Asking.{is_answered, new_client};

use crate::Order;
use crate::request::Request;
use mdcc_base::{HeapList, Key, Memory, TxId};
use mdcc_frag::Joiner;
use mdcc_option::Known;
use std::alloc::Global;

/// What a client waits for.
#[derive(Clone, Copy, Debug)]
pub enum Phase {
    /// The read of the first key that is not shown yet.
    Reading,
    /// The begin of its transaction.
    Beginning,
    /// The end of a transaction that was begun.
    Waiting(TxId),
    /// Nothing: it has all answers.
    Answered,
}

/// What the reads of a client showed, in order, what it waits for, its last request, and the messages of which some pieces came.
#[derive(Drop)]
pub struct Client {
    pub known: HeapList<Option<Known>>,
    pub phase: Phase,
    pub request: Request,
    pub joiner: Joiner,
}

impl Client {
    /// A client that requested nothing.
    pub fn new(alloc: Global) -> Result<Client, Memory>
        ensures { IfOk result (λ client. client ≡ new_client) }
    {
        let joiner = Joiner::new(alloc)?;
        Ok(Client {
            known: HeapList::new(alloc),
            phase: Phase::Answered,
            request: Request::empty(alloc),
            joiner,
        })
    }

    /// Whether it has all answers.
    pub fn is_answered(&self) -> bool
        ensures { result ≡ is_answered self.now.phase }
    {
        matches!(self.phase, Phase::Answered)
    }

    /// The key that is to be read next.
    pub fn next_key(&self, order: &Order) -> Option<Key>
        ensures { result ≡ next_key order.now self.now }
    {
        order.keys.as_slice().get(self.known.len()).copied()
    }
}
