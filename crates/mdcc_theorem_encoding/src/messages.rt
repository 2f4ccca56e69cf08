//! Laws of the bytes of messages.
ghost use Rattle.mdcc_theorem_encoding.specs.Laws.{MessagesAreReadBack, MessagesReadAreWellFormed, MessagesHaveOneSpelling, NoMessageBeginsAnother};

/// What is written of a well-formed message is read back as that message.
pub fn messages_are_read_back()
    ensures { MessagesAreReadBack }
{}

/// Only well-formed messages are read.
pub fn messages_read_are_well_formed()
    ensures { MessagesReadAreWellFormed }
{}

/// Bytes that are read as a message are its one spelling.
pub fn messages_have_one_spelling()
    ensures { MessagesHaveOneSpelling }
{}

/// The spelling of a message begins that of no other. So messages may follow one another without marks
/// between them.
pub fn no_message_begins_another()
    ensures { NoMessageBeginsAnother }
{}
