//! How many bytes messages and facts have.
ghost use Rattle.std.specs.Prelude.{◌≡◌, ◌≤◌, length};
ghost use Rattle.mdcc_option.specs.declared.choices.Choice.{Choice};
ghost use Rattle.mdcc_def_messages.specs.declared.facts.Fact.{Fact};
ghost use Rattle.mdcc_def_messages.specs.declared.messages.Envelope.{Envelope};
ghost use Rattle.mdcc_def_messages.specs.Spelling.{message_bytes, fact_bytes};
ghost use Rattle.mdcc_def_messages.specs.Lengths.{choice_length, message_length, fact_length};
ghost use Rattle.mdcc_def_messages.specs.WellFormedParts.{IsWellFormedChoice};

/// The lengths are those of the bytes.
pub fn lengths_are_exact()
    ensures messages { (envelope : Envelope) → message_length envelope ≡ length (message_bytes envelope) }
    ensures facts { (fact : Fact) → fact_length fact ≡ length (fact_bytes fact) }
{}

/// A choice has at most 1,119 bytes.
pub fn choices_are_short()
    ensures { (choice : Choice) → IsWellFormedChoice choice → choice_length choice ≤ 1119 }
{}
