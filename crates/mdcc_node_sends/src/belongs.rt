//! Whether messages are for a node, and of its cluster.
ghost use Rattle.std.specs.Prelude.{◌≡◌, ◌≤◌, ◌&&◌, IfSome, None, Some, if◌then◌else◌, true};
ghost use Rattle.mdcc_def_protocol.specs.Belongs.{ballot_belongs, begin_fault_belongs, client_answer_belongs, is_centre, item_read_belongs, mark_belongs, message_belongs, options_belong, tx_belongs};
ghost use Rattle.mdcc_def_rules.specs.Node.{is_own_message};

use mdcc_base::{Ballot, Centre, TxId};
use mdcc_def_messages::{ClientAnswer, Envelope, Message};
use mdcc_node_boot::parts_belong::{
    adds_belong, ballot_belongs, cause_belongs, choice_belongs, is_centre, item_belongs,
    mark_belongs, options_belong, outcome_belongs, tx_belongs, txs_belong, updates_belong,
};
use mdcc_option::{BeginFault, Cluster, Item, Mark};
use mdcc_struct::Options;

// Whether the item, where there is one, has a value for each attribute.
fn item_read_belongs(cluster: &Cluster, item: &Option<Item>) -> bool
    ensures { result ≡ item_read_belongs cluster.now item.now }
{
    match item {
        Some(item) => item_belongs(cluster, item),
        None => true,
    }
}

// Whether the transactions in the fault are of the cluster.
fn begin_fault_belongs(cluster: &Cluster, fault: &BeginFault) -> bool
    ensures { result ≡ begin_fault_belongs cluster.now fault.now }
{
    match fault {
        BeginFault::Stale(token) => txs_belong(cluster, token.seen.as_slice()),
        _ => true,
    }
}

// Whether the answer to a client is of the cluster.
fn client_answer_belongs(cluster: &Cluster, answer: &ClientAnswer) -> bool
    ensures { result ≡ client_answer_belongs cluster.now answer.now }
{
    match answer {
        ClientAnswer::Read { token, item, .. } => txs_belong(cluster, token.seen.as_slice())
            && item_read_belongs(cluster, item),
        ClientAnswer::Begun(tx) => tx_belongs(cluster, tx),
        ClientAnswer::Refused(_, fault) => begin_fault_belongs(cluster, fault),
        ClientAnswer::Heard(tx, _) => tx_belongs(cluster, tx),
        ClientAnswer::Draft(_) => true,
    }
}

// Whether a vote is of the cluster.
fn vote_belongs(cluster: &Cluster, ballot: &Ballot, tx: &TxId, mark: &Mark) -> bool
    ensures { result ≡ (ballot_belongs cluster.now ballot.now && tx_belongs cluster.now tx.now && mark_belongs cluster.now mark.now) }
{
    ballot_belongs(cluster, ballot) && tx_belongs(cluster, tx) && mark_belongs(cluster, mark)
}

// Whether a promise is of the cluster.
fn promise_belongs(cluster: &Cluster, ballot: &Ballot, reported: &Ballot, votes: &Options) -> bool
    ensures { result ≡ (ballot_belongs cluster.now ballot.now && ballot_belongs cluster.now reported.now && options_belong cluster.now votes.now) }
{
    ballot_belongs(cluster, ballot)
        && ballot_belongs(cluster, reported)
        && options_belong(cluster, votes)
}

// Whether the message is of the cluster.
fn message_belongs(cluster: &Cluster, message: &Message) -> bool
    ensures { result ≡ message_belongs cluster.now message.now }
{
    match message {
        Message::Propose(choice) => choice_belongs(cluster, choice),
        Message::Voted {
            ballot,
            tx,
            mark,
            ..
        } => vote_belongs(cluster, ballot, tx, mark),
        Message::Escalate { tx, cause, .. } => {
            tx_belongs(cluster, tx) && cause_belongs(cluster, cause)
        }
        Message::Lead(choice) => choice_belongs(cluster, choice),
        Message::Prepare { ballot, .. } => ballot_belongs(cluster, ballot),
        Message::Promise {
            ballot,
            reported,
            votes,
            ..
        } => { promise_belongs(cluster, ballot, reported, votes) }
        Message::Accept {
            ballot,
            options,
            ..
        } => { ballot_belongs(cluster, ballot) && options_belong(cluster, options) }
        Message::Refused {
            ballot,
            promised,
            ..
        } => { ballot_belongs(cluster, ballot) && ballot_belongs(cluster, promised) }
        Message::Outcome { tx, outcome } => {
            tx_belongs(cluster, tx) && outcome_belongs(cluster, outcome)
        }
        Message::Ask { tx, .. } => tx_belongs(cluster, tx),
        Message::SyncGive { item, adds, .. } => {
            item_belongs(cluster, item) && adds_belong(cluster, adds.as_slice())
        }
        Message::Mark { centre, .. } => is_centre(cluster, centre.number()),
        Message::Finished(tx) => tx_belongs(cluster, tx),
        Message::ClientBegin { parts, .. } => updates_belong(cluster, parts.as_slice()),
        Message::ClientAnswer { answer, .. } => client_answer_belongs(cluster, answer),
        _ => true,
    }
}

// Whether a message is for the centre, and of its cluster.
fn is_own_message(cluster: &Cluster, centre: u8, envelope: &Envelope) -> bool
    ensures { result ≡ is_own_message cluster.now centre envelope.now }
{
    envelope.to == centre
        && is_centre(cluster, envelope.from)
        && message_belongs(cluster, &envelope.message)
}

// The centre of this number.
fn centre_of(cluster: &Cluster, number: u8) -> Option<Centre>
    requires { is_centre cluster.now number ≡ true }
    ensures value { result ≡ Some number }
    ensures member { number ≤ cluster.now.quorums.centres }
    ensures centre { IfSome result (λ centre. is_centre cluster.now centre ≡ true) }
{
    let _centres = cluster.quorums.centres();
    Centre::new(number)
}

/// The centre from which a message comes that is for this one, and of its cluster.
pub fn sender_of(cluster: &Cluster, centre: u8, envelope: &Envelope) -> Option<Centre>
    ensures value { result ≡ (if is_own_message cluster.now centre envelope.now then Some envelope.now.from else None) }
    ensures member { IfSome result (λ from. from ≤ cluster.now.quorums.centres) }
    ensures centre { IfSome result (λ from. is_centre cluster.now from ≡ true) }
{
    if is_own_message(cluster, centre, envelope) {
        centre_of(cluster, envelope.from)
    } else {
        None
    }
}
