//! What is accepted beside one another, summed and counted.
ghost use Rattle.std.specs.Prelude.{◌≡◌, ◌<◌, Contains, List, Option, length, ℕ};
ghost use Rattle.mdcc_base.specs.declared.identifiers.Ballot.{Ballot};
ghost use Rattle.mdcc_base.specs.declared.key.Key.{Key};
ghost use Rattle.mdcc_option.specs.declared.choices.Choice.{Choice};
ghost use Rattle.mdcc_option.specs.declared.choices.Mark.{Mark};
ghost use Rattle.mdcc_option.specs.declared.cluster.Cluster.{Cluster};
ghost use Rattle.mdcc_option.specs.declared.items.Item.{Item};
ghost use Rattle.mdcc_struct.specs.declared.options.Options.{Options};
ghost use Rattle.mdcc_def_ledger.specs.Ledger.{Entry};
ghost use Rattle.mdcc_def_protocol.specs.Marks.{accepts_in, rejects_in};
ghost use Rattle.mdcc_theorem_agreement.specs.Laws.{IsAbort, IsAcceptedBy, IsChosenAt, IsLedger, WasValued};
ghost use Rattle.mdcc_theorem_bounds.specs.Held.{IsBase};
ghost use Rattle.mdcc_theorem_bounds.specs.Rooms.{AreOfDistinctTxs, AreWithinRooms};

/// Accepted choices of one instance whose transactions are not aborted stay within the room that the
/// base of its version leaves. This holds of choices that are chosen, and of those in one structure.
pub fn sums()
    ensures chosen { (cluster : Cluster) (ledger : List Entry) → IsLedger cluster ledger →
        (key : Key) (version : ℕ) (base : Option Item) → IsBase cluster ledger key version base →
        (choices : List Choice) → AreOfDistinctTxs choices →
        ((c : Choice) → Contains choices c → ((k : Ballot) × IsChosenAt cluster ledger key version k c.tx (Mark.Accept c)) × (IsAbort cluster ledger c.tx → ⊥)) →
        AreWithinRooms cluster.schema base choices }
    ensures structures { (cluster : Cluster) (ledger : List Entry) → IsLedger cluster ledger →
        (key : Key) (version : ℕ) (base : Option Item) → IsBase cluster ledger key version base →
        (m : Ballot) (options : Options) → WasValued ledger key version m options →
        (choices : List Choice) → AreOfDistinctTxs choices →
        ((c : Choice) → Contains choices c → IsAcceptedBy options c × (IsAbort cluster ledger c.tx → ⊥)) →
        AreWithinRooms cluster.schema base choices }
{}

/// A structure that was sent has fewer than 1,024 accepted and fewer than 32,768 rejected marks.
pub fn room()
    ensures { (cluster : Cluster) (ledger : List Entry) → IsLedger cluster ledger →
        (key : Key) (version : ℕ) (m : Ballot) (options : Options) → WasValued ledger key version m options →
        (length (accepts_in options) < 1024) × (length (rejects_in options) < 32768) }
{}
