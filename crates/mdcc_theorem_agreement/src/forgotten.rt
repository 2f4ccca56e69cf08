//! What forgotten marks are of.
ghost use Rattle.std.specs.Prelude.{◌≡◌, IsTrue, List, ℕ};
ghost use Rattle.mdcc_base.specs.declared.identifiers.Ballot.{Ballot};
ghost use Rattle.mdcc_base.specs.declared.identifiers.TxId.{TxId};
ghost use Rattle.mdcc_base.specs.declared.key.Key.{Key};
ghost use Rattle.mdcc_option.specs.declared.cluster.Cluster.{Cluster};
ghost use Rattle.mdcc_struct.specs.Maps.{value_of};
ghost use Rattle.mdcc_def_protocol.specs.Facts.{is_forgotten, shown_of, votes_of};
ghost use Rattle.mdcc_def_ledger.specs.Ledger.{Entry, facts_of};
ghost use Rattle.mdcc_theorem_agreement.specs.Laws.{DidAllHear, IsLedger};

/// A mark that a centre has forgotten is of a transaction that all centres have heard. Of every other
/// transaction a centre shows just the mark that it voted.
pub fn forgotten_marks()
    ensures heard { (cluster : Cluster) (ledger : List Entry) → IsLedger cluster ledger →
        (centre : ℕ) (key : Key) (version : ℕ) (tx : TxId) →
        IsTrue (is_forgotten (facts_of ledger centre) key version tx) → DidAllHear cluster ledger tx }
    ensures others { (cluster : Cluster) (ledger : List Entry) → IsLedger cluster ledger →
        (centre : ℕ) (key : Key) (version : ℕ) (ballot : Ballot) (tx : TxId) → (DidAllHear cluster ledger tx → ⊥) →
        value_of (shown_of (facts_of ledger centre) key version ballot) tx
        ≡ value_of (votes_of (facts_of ledger centre) key version ballot) tx }
{}
