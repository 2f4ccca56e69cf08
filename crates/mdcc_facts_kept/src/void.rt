//! Void transactions, and what is live.
ghost use Rattle.std.specs.Prelude.{◌≡◌, ◌≤◌, List};
ghost use Rattle.mdcc_def_messages.specs.declared.facts.Fact.{Fact as AFact};
ghost use Rattle.mdcc_def_protocol.specs.Facts.{current_of};
ghost use Rattle.mdcc_def_protocol.specs.Stores.{load_at};
ghost use Rattle.mdcc_facts_kept.specs.Kept.{IsKept};
ghost use Rattle.mdcc_facts_kept.specs.Void.{is_void_kept, void_if};

use crate::KeptFacts;
use mdcc_base::{Key, TxId};
use mdcc_cells_delta_walk::VoidTest;
use mdcc_def_protocol::Load;

// Whether a transaction is void, by whether the outcome that is kept of it is a commit, and whether it
// is finished.
fn void_if(ended: Option<bool>, finished: bool) -> bool
    ensures { result ≡ void_if ended finished }
{
    match ended {
        Some(commit) => !commit,
        None => finished,
    }
}

impl KeptFacts {
    // Whether a transaction is void: it was aborted, or what was heard of it is idle.
    fn is_void_kept(&self, tx: TxId) -> bool
        ensures { result ≡ is_void_kept self.now tx }
    {
        let _facts = self.len();
        void_if(self.ended(tx), self.finished(tx))
    }

    /// What the live choices of an instance weigh beside a seen set. Counts stop at 2^32 - 1 and
    /// sums at 2^96. Below the version that is held nothing is promised of them.
    pub fn load(&self, key: &Key, version: u64, seen: &[TxId]) -> Load
        ensures { (facts : List AFact) → IsKept self.now facts → current_of facts key.now ≤ version → result ≡ load_at facts key.now version seen.now }
    {
        self.rest().load_by(key, version, seen, self)
    }
}

impl VoidTest for KeptFacts {
    ghost use Rattle.mdcc_facts_kept.specs.Void.{is_void_kept};

    ghost void = { is_void_kept };

    fn is_void(&self, tx: TxId) -> bool {
        self.is_void_kept(tx)
    }
}
