//! Which messages can be written.
ghost use Rattle.mdcc_def_messages.specs.declared.messages.Message.{Message};
ghost use Rattle.mdcc_def_messages.specs.WellFormed.{IsWellFormedMessage};
ghost use Rattle.mdcc_wire.specs.Counts.{HasMessageCounts};

/// The lists of a well-formed message are no longer than their counts can say.
pub fn well_formed_messages_have_counts()
    ensures { (message : Message) → IsWellFormedMessage message → HasMessageCounts message }
{}
