//! Which messages and facts are well-formed.
ghost use Rattle.std.specs.Prelude.{IsTrue};
ghost use Rattle.mdcc_def_messages.specs.declared.facts.Fact.{Fact};
ghost use Rattle.mdcc_def_messages.specs.declared.messages.Envelope.{Envelope};
ghost use Rattle.mdcc_def_messages.specs.WellFormed.{IsWellFormedEnvelope, is_well_formed_envelope, IsWellFormedFact, is_well_formed_fact};

/// What passes a test is well-formed.
pub fn tests_show_well_formed()
    ensures messages { (envelope : Envelope) → IsTrue (is_well_formed_envelope envelope) → IsWellFormedEnvelope envelope }
    ensures facts { (fact : Fact) → IsTrue (is_well_formed_fact fact) → IsWellFormedFact fact }
{}
