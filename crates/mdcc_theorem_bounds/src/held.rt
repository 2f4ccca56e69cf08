//! What a centre holds.
ghost use Rattle.std.specs.Prelude.{◌≡◌, Contains, List, Option, ℕ};
ghost use Rattle.mdcc_base.specs.declared.identifiers.TxId.{TxId};
ghost use Rattle.mdcc_base.specs.declared.key.Key.{Key};
ghost use Rattle.mdcc_option.specs.declared.choices.Choice.{Choice};
ghost use Rattle.mdcc_option.specs.declared.cluster.Cluster.{Cluster};
ghost use Rattle.mdcc_option.specs.declared.items.Item.{Item};
ghost use Rattle.mdcc_def_protocol.specs.Facts.{base_of, current_of, executed_of};
ghost use Rattle.mdcc_def_ledger.specs.Ledger.{Entry, facts_of};
ghost use Rattle.mdcc_def_protocol.specs.Marks.{Amounts};
ghost use Rattle.mdcc_theorem_agreement.specs.Laws.{IsLedger};
ghost use Rattle.mdcc_theorem_bounds.specs.Held.{IsBase, IsCommittedAdd, IsWrite};

/// What a centre holds of a key is no item at version 0, else the item that a committed write of the
/// version before gave. There is one such write, and so all centres that hold one version of a key
/// hold one base.
pub fn held()
    ensures holds { (cluster : Cluster) (ledger : List Entry) → IsLedger cluster ledger →
        (centre : ℕ) (key : Key) →
        IsBase cluster ledger key (current_of (facts_of ledger centre) key) (base_of (facts_of ledger centre) key) }
    ensures one_write { (cluster : Cluster) (ledger : List Entry) → IsLedger cluster ledger →
        (key : Key) (version : ℕ) (tx tx' : TxId) (choices choices' : List Choice) (c d : Choice) (item item' : Item) (seen seen' : List TxId) →
        IsWrite cluster ledger key version tx choices c item seen →
        IsWrite cluster ledger key version tx' choices' d item' seen' → c ≡ d }
    ensures one_base { (cluster : Cluster) (ledger : List Entry) → IsLedger cluster ledger →
        (key : Key) (version : ℕ) (x y : Option Item) →
        IsBase cluster ledger key version x → IsBase cluster ledger key version y → x ≡ y }
{}

/// The deltas that a centre has executed on what it holds are amounts that committed transactions add
/// at just that version.
pub fn executed()
    ensures { (cluster : Cluster) (ledger : List Entry) → IsLedger cluster ledger →
        (centre : ℕ) (key : Key) (delta : TxId × Amounts) →
        Contains (executed_of (facts_of ledger centre) key) delta →
        IsCommittedAdd cluster ledger key (current_of (facts_of ledger centre) key) delta }
{}
