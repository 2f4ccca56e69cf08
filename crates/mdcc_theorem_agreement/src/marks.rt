//! One mark, one outcome.
ghost use Rattle.std.specs.Prelude.{◌≡◌, ◌++◌, IsTrue, List, Some, ℕ};
ghost use Rattle.mdcc_base.specs.Ballot.{ballot_lt};
ghost use Rattle.mdcc_base.specs.declared.identifiers.Ballot.{Ballot};
ghost use Rattle.mdcc_base.specs.declared.identifiers.TxId.{TxId};
ghost use Rattle.mdcc_base.specs.declared.key.Key.{Key};
ghost use Rattle.mdcc_option.specs.declared.choices.Choice.{Choice};
ghost use Rattle.mdcc_option.specs.declared.choices.Mark.{Mark};
ghost use Rattle.mdcc_option.specs.declared.choices.Outcome.{Outcome};
ghost use Rattle.mdcc_option.specs.declared.cluster.Cluster.{Cluster};
ghost use Rattle.mdcc_struct.specs.Maps.{value_of};
ghost use Rattle.mdcc_struct.specs.declared.options.Options.{Options};
ghost use Rattle.mdcc_def_ledger.specs.Ledger.{Entry, choices_begun, chosen_of, outcome_of};
ghost use Rattle.mdcc_theorem_agreement.specs.Laws.{DidAllHear, IsChosenAt, IsCommit, IsLedger, WasValued};

/// No transaction has two marks chosen in one instance. A mark that is chosen at a ballot stands in
/// every structure of every higher ballot of that instance that was sent before all centres had heard
/// the transaction, and a structure that was sent later has no other mark of it. It is the one that
/// the definition of what is chosen finds.
pub fn one_mark()
    ensures once { (cluster : Cluster) (ledger : List Entry) → IsLedger cluster ledger →
        (key : Key) (version : ℕ) (k l : Ballot) (tx : TxId) (x y : Mark) →
        IsChosenAt cluster ledger key version k tx x → IsChosenAt cluster ledger key version l tx y → x ≡ y }
    ensures kept { (cluster : Cluster) (later earlier : List Entry) → IsLedger cluster (later ++ earlier) →
        (key : Key) (version : ℕ) (k m : Ballot) (tx : TxId) (x : Mark) (options : Options) →
        IsChosenAt cluster (later ++ earlier) key version k tx x → IsTrue (ballot_lt k m) →
        WasValued earlier key version m options → (DidAllHear cluster earlier tx → ⊥) → value_of options tx ≡ Some x }
    ensures no_other { (cluster : Cluster) (ledger : List Entry) → IsLedger cluster ledger →
        (key : Key) (version : ℕ) (k m : Ballot) (tx : TxId) (x y : Mark) (options : Options) →
        IsChosenAt cluster ledger key version k tx x → IsTrue (ballot_lt k m) →
        WasValued ledger key version m options → value_of options tx ≡ Some y → y ≡ x }
    ensures found { (cluster : Cluster) (ledger : List Entry) → IsLedger cluster ledger →
        (key : Key) (version : ℕ) (k : Ballot) (tx : TxId) (x : Mark) →
        IsChosenAt cluster ledger key version k tx x →
        chosen_of cluster.quorums ledger key version tx ≡ Some x }
{}

/// An outcome that a ledger gives stays whatever entries follow, and a commit has just the choices
/// with which its transaction was begun.
pub fn one_outcome()
    ensures stays { (cluster : Cluster) (later earlier : List Entry) → IsLedger cluster (later ++ earlier) →
        (tx : TxId) (outcome : Outcome) → outcome_of cluster.quorums earlier tx ≡ Some outcome →
        outcome_of cluster.quorums (later ++ earlier) tx ≡ Some outcome }
    ensures own { (cluster : Cluster) (ledger : List Entry) → IsLedger cluster ledger →
        (tx : TxId) (choices : List Choice) → IsCommit cluster ledger tx choices →
        choices_begun ledger tx ≡ choices }
{}
