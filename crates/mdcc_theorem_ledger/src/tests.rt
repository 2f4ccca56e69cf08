//! Which facts and ledgers are allowed.
ghost use Rattle.std.specs.Prelude.{◌≡◌, ◌↔◌, ◌∷◌, ◌++◌, IsTrue, List};
ghost use Rattle.mdcc_option.specs.declared.cluster.Cluster.{Cluster};
ghost use Rattle.mdcc_def_ledger.specs.AllowedLedgers.{IsAllowed};
ghost use Rattle.mdcc_def_ledger.specs.AllowedFacts.{MayAdd};
ghost use Rattle.mdcc_def_ledger.specs.BootTest.{are_allowed_facts, is_allowed_fact};
ghost use Rattle.mdcc_theorem_ledger.specs.LedgerTest.{is_ledger_allowed};
ghost use Rattle.mdcc_def_ledger.specs.Ledger.{Entry};
ghost use Rattle.mdcc_def_messages.specs.declared.facts.Fact.{Fact};

/// The test passes exactly where a centre may add the fact after its others, and the test of all
/// facts of a centre, the newest first, exactly where it might add each after those before it.
pub fn boot_test_is_exact()
    ensures one_fact { (cluster : Cluster) (facts : List Fact) (fact : Fact) → IsTrue (is_allowed_fact cluster facts fact) ↔ MayAdd cluster facts fact }
    ensures all_facts { (cluster : Cluster) (facts : List Fact) → IsTrue (are_allowed_facts cluster facts) ↔ ((later earlier : List Fact) (fact : Fact) → facts ≡ later ++ fact ∷ earlier → MayAdd cluster earlier fact) }
{}

/// A ledger that passes the test, which looks for the witnesses, is allowed.
pub fn test_shows_allowed()
    ensures { (cluster : Cluster) (ledger : List Entry) → IsTrue (is_ledger_allowed cluster ledger) → IsAllowed cluster ledger }
{}
