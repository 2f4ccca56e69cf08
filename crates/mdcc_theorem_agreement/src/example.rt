//! An example, so that the laws do not speak of nothing.
ghost use Rattle.std.specs.Prelude.{◌≡◌, [], ◌∷◌, Some};
ghost use Rattle.mdcc_option.specs.declared.choices.Mark.{Mark};
ghost use Rattle.mdcc_def_protocol.specs.Facts.{current_of};
ghost use Rattle.mdcc_def_ledger.specs.Ledger.{chosen_of, committed_of, facts_of};
ghost use Rattle.mdcc_theorem_agreement.specs.Example.{choice, key, ledger, three, tx};
ghost use Rattle.mdcc_theorem_agreement.specs.Laws.{DidAllHear, IsLedger};

/// A ledger with an entry of each kind but a floor, and a forced mark in its structure, is allowed.
/// Its one transaction is chosen accepted and committed, the last centre holds what it wrote, and all
/// centres have heard it.
pub fn allowed()
    ensures ledger { IsLedger three ledger }
    ensures chosen { chosen_of three.quorums ledger key 0 tx ≡ Some (Mark.Accept choice) }
    ensures committed { committed_of three.quorums ledger ≡ (choice ∷ []) ∷ [] }
    ensures held { current_of (facts_of ledger 3) key ≡ 1 }
    ensures heard { DidAllHear three ledger tx }
{}
