//! The committed transactions.
ghost use Rattle.std.specs.Prelude.{Contains, List};
ghost use Rattle.mdcc_base.specs.declared.identifiers.TxId.{TxId};
ghost use Rattle.mdcc_option.specs.OneCopy.{IsRun};
ghost use Rattle.mdcc_option.specs.declared.choices.Choice.{Choice};
ghost use Rattle.mdcc_option.specs.declared.cluster.Cluster.{Cluster};
ghost use Rattle.mdcc_def_ledger.specs.Ledger.{Entry, committed_of};
ghost use Rattle.mdcc_theorem_agreement.specs.Laws.{IsCommit, IsLedger};

/// The committed transactions, in the order in which they became so, are a run of the one-copy store;
/// and they are just those whose outcome is a commit.
pub fn commits_run()
    ensures run { (cluster : Cluster) (ledger : List Entry) → IsLedger cluster ledger →
        IsRun cluster.schema (committed_of cluster.quorums ledger) }
    ensures each { (cluster : Cluster) (ledger : List Entry) → IsLedger cluster ledger →
        (tx : TxId) (choices : List Choice) → IsCommit cluster ledger tx choices →
        Contains (committed_of cluster.quorums ledger) choices }
    ensures only { (cluster : Cluster) (ledger : List Entry) → IsLedger cluster ledger →
        (choices : List Choice) → Contains (committed_of cluster.quorums ledger) choices →
        (tx : TxId) × IsCommit cluster ledger tx choices }
{}
