//! What is accepted beside one another.
ghost use Rattle.std.specs.Prelude.{◌≡◌, List, ℕ};
ghost use Rattle.mdcc_base.specs.Ballot.{fast_ballot};
ghost use Rattle.mdcc_base.specs.declared.identifiers.Ballot.{Ballot};
ghost use Rattle.mdcc_base.specs.declared.key.Key.{Key};
ghost use Rattle.mdcc_option.specs.declared.choices.Choice.{Choice};
ghost use Rattle.mdcc_option.specs.declared.choices.Mark.{Mark};
ghost use Rattle.mdcc_option.specs.declared.cluster.Cluster.{Cluster};
ghost use Rattle.mdcc_struct.specs.declared.options.Options.{Options};
ghost use Rattle.mdcc_def_protocol.specs.Facts.{votes_of};
ghost use Rattle.mdcc_def_ledger.specs.Ledger.{Entry, facts_of};
ghost use Rattle.mdcc_theorem_agreement.specs.Laws.{Agree, IsAbort, IsAcceptedBy, IsChosenAt, IsLedger, WasValued};

/// Two accepted choices of one instance whose transactions are not aborted agree: they are not both
/// writes, and where one is a write it has seen the other. This holds of choices that are chosen,
/// of those in one structure, and of those among one centre's votes at the fast ballot.
pub fn consistent()
    ensures chosen { (cluster : Cluster) (ledger : List Entry) → IsLedger cluster ledger →
        (key : Key) (version : ℕ) (k l : Ballot) (c d : Choice) →
        IsChosenAt cluster ledger key version k c.tx (Mark.Accept c) →
        IsChosenAt cluster ledger key version l d.tx (Mark.Accept d) → (c.tx ≡ d.tx → ⊥) →
        (IsAbort cluster ledger c.tx → ⊥) → (IsAbort cluster ledger d.tx → ⊥) → Agree c d }
    ensures structures { (cluster : Cluster) (ledger : List Entry) → IsLedger cluster ledger →
        (key : Key) (version : ℕ) (m : Ballot) (options : Options) (c d : Choice) →
        WasValued ledger key version m options → IsAcceptedBy options c → IsAcceptedBy options d →
        (c.tx ≡ d.tx → ⊥) → (IsAbort cluster ledger c.tx → ⊥) → (IsAbort cluster ledger d.tx → ⊥) → Agree c d }
    ensures voted { (cluster : Cluster) (ledger : List Entry) → IsLedger cluster ledger →
        (key : Key) (version centre : ℕ) (c d : Choice) →
        IsAcceptedBy (votes_of (facts_of ledger centre) key version fast_ballot) c →
        IsAcceptedBy (votes_of (facts_of ledger centre) key version fast_ballot) d → (c.tx ≡ d.tx → ⊥) →
        (IsAbort cluster ledger c.tx → ⊥) → (IsAbort cluster ledger d.tx → ⊥) → Agree c d }
{}
