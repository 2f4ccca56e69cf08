//! What was cut is joined again.
ghost use Rattle.mdcc_theorem_datagrams.specs.Laws.{DatagramIsRead, NothingIsPartly, PieceIsTaken, AllPiecesAreTheMessage, WholeIsTheMessage, JoinedFromAnything};

/// The datagram of a piece is read as that piece.
pub fn datagram_is_read()
    ensures { DatagramIsRead }
{}

/// A message of which no piece came has none of its bytes.
pub fn nothing_is_partly()
    ensures { NothingIsPartly }
{}

/// A piece of a message, whichever it is, adds its bytes and no others.
pub fn a_piece_is_taken()
    ensures { PieceIsTaken }
{}

/// All pieces of a message are the message.
pub fn all_pieces_are_the_message()
    ensures { AllPiecesAreTheMessage }
{}

/// What comes whole of a message's pieces is that message.
pub fn whole_is_the_message()
    ensures { WholeIsTheMessage }
{}

/// So it is after any datagrams, in any order, of which those under the message's head are its own.
pub fn joined_from_anything()
    ensures { JoinedFromAnything }
{}
