//! What is live in an instance.
ghost use Rattle.std.specs.Prelude.{◌≡◌, List};
ghost use Rattle.mdcc_def_messages.specs.declared.facts.Fact.{Fact as AFact};
ghost use Rattle.mdcc_def_protocol.specs.Plain.{plain_load_at};
ghost use Rattle.mdcc_index.specs.Loads.{plain_load_by};
ghost use Rattle.mdcc_index.specs.Stores.{Represents, is_abort_ended};

use crate::FactPool;
use mdcc_base::{Key, TxId};
use mdcc_cells_delta_walk::{VoidTest, load};
use mdcc_def_protocol::Load;

impl FactPool {
    /// What the live choices of an instance weigh beside a seen set, where a test says which
    /// transactions are void. Counts stop at 2^32 - 1 and sums at 2^96.
    pub fn load_by<V: VoidTest>(&self, key: &Key, version: u64, seen: &[TxId], void: &V) -> Load
        ensures { (facts : List AFact) → Represents self.now facts → result ≡ plain_load_by (V.void void.now) facts key.now version seen.now }
    {
        let instance = (*key, version);
        let walk = self.active.facts_of(&self.cells, &instance);
        load(walk, &instance, seen, void)
    }

    /// The same by the outcomes of the facts themselves: those that were heard aborted are void.
    pub fn load(&self, key: &Key, version: u64, seen: &[TxId]) -> Load
        ensures { (facts : List AFact) → Represents self.now facts → result ≡ plain_load_at facts key.now version seen.now }
    {
        self.load_by(key, version, seen, self)
    }
}

// Whether a transaction was aborted, by its outcome.
fn is_abort_ended(ended: Option<bool>) -> bool
    ensures { result ≡ is_abort_ended ended }
{
    match ended {
        Some(commit) => !commit,
        None => false,
    }
}

impl VoidTest for FactPool {
    ghost use Rattle.mdcc_index.specs.Stores.{is_void_told};

    ghost void = { is_void_told };

    fn is_void(&self, tx: TxId) -> bool {
        is_abort_ended(self.ended(tx))
    }
}
