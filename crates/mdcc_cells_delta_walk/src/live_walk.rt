//! The live entries of an instance, one after the other.
ghost use Rattle.std.specs.Prelude.{◌≡◌, IfSome};
ghost use Rattle.mdcc_struct.specs.Maps.{txs_of};
ghost use Rattle.mdcc_cells_delta_walk.specs.Entries.{added_by};
ghost use Rattle.mdcc_cells_delta_walk.specs.LiveWalks.{Begins, IsAtLive, left_live, live_in, rest_live};

use crate::InstanceWalk;
use crate::entries::{Entries, read_live};
use mdcc_base::{BoundedList, Key, TxId};
use mdcc_option::Amounts;

/// Transactions of live entries, in the order in which a walk comes by them.
pub(crate) type LiveTxs = BoundedList<TxId, 256>;

/// The live entries of a fact that are left, and the facts after it.
#[derive(Drop)]
pub(crate) struct LiveWalk<'a> {
    pub entries: Entries<'a>,
    pub walk: InstanceWalk<'a>,
    pub key: Key,
    pub version: u64,
}

/// The live entries of the facts of a walk.
pub(crate) fn live_walk<'a>(walk: InstanceWalk<'a>, instance: &(Key, u64)) -> Option<LiveWalk<'a>>
    ensures { Begins (live_in instance.now.0 instance.now.1 walk.entry) result }
{
    let mut walk = walk;
    match walk.read() {
        Some(cursor) => Some(LiveWalk {
            entries: read_live(cursor, &instance.0, instance.1),
            walk,
            key: instance.0,
            version: instance.1,
        }),
        None => None,
    }
}

impl<'a> LiveWalk<'a> {
    /// Goes to the update of the next live entry, and gives its transaction.
    pub(crate) fn find(&mut self) -> Option<TxId>
        ensures { IsAtLive (left_live self.old) result self.new }
    {
        let mut found = self.entries.find();
        while found.is_none() {
            match self.walk.read() {
                Some(cursor) => self.entries = read_live(cursor, &self.key, self.version),
                None => return None,
            }
            found = self.entries.find();
        }
        found
    }

    /// The amounts that the update at which it stands adds, none where it writes.
    pub(crate) fn added(&self) -> Option<Amounts>
        ensures { result ≡ added_by self.now.entries }
    {
        self.entries.added()
    }

    /// Passes the update at which it stands.
    pub(crate) fn pass(&mut self)
        ensures { left_live self.new ≡ rest_live self.old }
    {
        self.entries.pass();
    }
}

/// The transactions of the live entries, where they are at most 256.
pub(crate) fn live_txs<'a>(live: LiveWalk<'a>) -> Option<LiveTxs>
    ensures { IfSome result (λ txs. txs ≡ txs_of (left_live live.entry)) }
{
    let mut live = live;
    let mut txs = BoundedList::new();
    while let Some(tx) = live.find() {
        if txs.is_full() {
            return None;
        }
        txs.push(tx);
        live.pass();
    }
    Some(txs)
}
