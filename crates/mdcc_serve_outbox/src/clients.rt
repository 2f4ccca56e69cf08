//! What a client began since the boot of its node.
ghost use Rattle.std.specs.Prelude.{◌≡◌, OnOk};
ghost use Rattle.mdcc_def_server_runs.specs.Clients.{begun_for, ended_as, known_of, no_clients, with_begun};

use indexmap::IndexMap;
use mdcc_base::{Memory, TxId};
use mdcc_def_server_runs::Begun;
use std::alloc::Global;
use std::marker::Model;

/// The transaction that was begun for each serial, and what is known of each of these. Both are found by a hash.
#[derive(Drop)]
pub struct Clients {
    begun: IndexMap<u32, TxId>,
    known: IndexMap<TxId, Begun>,
}

impl Model for Clients {
    ghost use Rattle.mdcc_def_server_runs.specs.Clients.{Clients};

    ghost Value = { Clients };

    ghost view = { λ c. record { begun = c.begun.entries; known = c.known.entries } };
}

impl Clients {
    /// Nothing was begun.
    pub fn new(alloc: Global) -> Clients
        ensures { result ≡ no_clients }
    {
        Clients {
            begun: IndexMap::new(alloc),
            known: IndexMap::new(alloc),
        }
    }

    /// The transaction that was begun for a serial.
    pub fn begun_for(&self, serial: u32) -> Option<TxId>
        ensures { result ≡ begun_for self.now serial }
    {
        match self.begun.get(&serial) {
            Some(tx) => Some(*tx),
            None => None,
        }
    }

    /// What is known of a transaction that was begun here.
    pub fn known_of(&self, tx: &TxId) -> Option<Begun>
        ensures { result ≡ known_of self.now tx.now }
    {
        match self.known.get(tx) {
            Some(begun) => Some(*begun),
            None => None,
        }
    }

    /// A transaction was begun for a serial.
    pub fn begin(&mut self, serial: u32, tx: TxId) -> Result<(), Memory>
        ensures { OnOk result (self.new ≡ with_begun self.old serial tx) }
    {
        let begun = Begun {
            serial,
            ended: None,
        };
        self.known.insert(tx, begun)?;
        self.begun.insert(serial, tx)?;
        Ok(())
    }

    /// A transaction that was begun here under this serial ended.
    pub fn end(&mut self, tx: TxId, serial: u32, is_commit: bool) -> Result<(), Memory>
        ensures { OnOk result (self.new ≡ ended_as self.old tx serial is_commit) }
    {
        let begun = Begun {
            serial,
            ended: Some(is_commit),
        };
        self.known.insert(tx, begun)?;
        Ok(())
    }
}
