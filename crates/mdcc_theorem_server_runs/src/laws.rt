//! What datagrams bring to a node, and what a server makes of it.
ghost use Rattle.mdcc_theorem_server_runs.specs.Laws.{CentresDoTheirTurns, DatagramsBringMessages, DatagramsBringRequests, DroppedLeavesTable, DroppedPiecesAreAsNone, GroupingChangesNothing, TurnsAreRuns, TurnsAreRunsWithoutRefused, WholeCameInPieces};

/// Whatever bytes come at a centre's endpoint: a message that is an input of its node is well-formed, and spelled by bytes that pieces
/// which came made whole.
pub fn datagrams_bring_messages()
    ensures { DatagramsBringMessages }
{}

/// Whatever bytes come at its client's endpoint: a read or a begin that is an input of its node was asked by a well-formed request that
/// pieces which came there made whole.
pub fn datagrams_at_the_clients_endpoint_bring_requests()
    ensures { DatagramsBringRequests }
{}

/// Bytes that datagrams make whole came in these datagrams, each of their pieces under the same head: the endpoint that sent it, its epoch
/// and the serial of the message.
pub fn whole_messages_came_in_pieces()
    ensures { WholeCameInPieces }
{}

/// A piece that is dropped is as good as none: the messages of which some pieces came are the same, and the inputs, and the facts
/// appended, the messages sent, the lines and the steps, each in order, and the centre once what is pending went out. So is a datagram
/// that alone makes bytes whole, where these are no message, or one that its endpoint does not take: of a client's at the endpoint of a
/// centre, of no client's request at the endpoint of its client.
pub fn dropped_pieces_change_nothing()
    ensures table { DroppedLeavesTable }
    ensures turns { DroppedPiecesAreAsNone }
{}

/// Whether more waits after a turn decides only what goes out together: the inputs are the same, and the facts appended, the messages
/// sent, the lines and the steps, each in order, and the centre once what is pending went out.
pub fn grouping_changes_nothing()
    ensures { GroupingChangesNothing }
{}

/// What a centre does in its turns, once what is pending went out, is the run of its node over the inputs that its receives gave.
pub fn turns_run_by_inputs()
    ensures { TurnsAreRuns }
{}

/// And it is the run over those of them that are not refused.
pub fn turns_run_without_refused()
    ensures { TurnsAreRunsWithoutRefused }
{}

/// Each centre of a server does its own turns, whatever the others do between them.
pub fn centres_do_their_turns()
    ensures { CentresDoTheirTurns }
{}
