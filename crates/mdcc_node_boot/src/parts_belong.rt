//! Whether the parts of messages are of the cluster.
ghost use Rattle.std.specs.List.{list_all};
ghost use Rattle.std.specs.Prelude.{◌≡◌, ◌&&◌};
ghost use Rattle.mdcc_def_protocol.specs.Belongs.{adds_belong, amounts_belong, ballot_belongs, cause_belongs, choice_belongs, is_attribute, is_centre, item_belongs, mark_belongs, options_belong, outcome_belongs, tx_belongs, txs_belong, update_belongs};

use mdcc_base::{Ballot, TxId};
use mdcc_option::{Cause, Choice, Cluster, Delta, Item, Mark, Outcome, Part, Update};
use mdcc_struct::Options;

/// Whether the number is that of a centre.
pub fn is_centre(cluster: &Cluster, number: u8) -> bool
    ensures { result ≡ is_centre cluster.now number }
{
    1 <= number && number <= cluster.quorums.centres()
}

/// Whether the transaction was begun at a centre of the cluster.
pub fn tx_belongs(cluster: &Cluster, tx: &TxId) -> bool
    ensures { result ≡ tx_belongs cluster.now tx.now }
{
    is_centre(cluster, tx.centre.number())
}

/// Whether all of these were.
pub fn txs_belong(cluster: &Cluster, txs: &[TxId]) -> bool
    ensures { result ≡ txs_belong cluster.now txs.now }
{
    txs.iter().all(|tx| tx_belongs(cluster, tx))
}

/// Whether the ballot is the fast one, or of a leader of the cluster.
pub fn ballot_belongs(cluster: &Cluster, ballot: &Ballot) -> bool
    ensures { result ≡ ballot_belongs cluster.now ballot.now }
{
    ballot.is(&Ballot::FAST) || is_centre(cluster, ballot.centre)
}

// Whether the schema has the attribute.
fn is_attribute(cluster: &Cluster, attribute: u8) -> bool
    ensures { result ≡ is_attribute cluster.now attribute }
{
    1 <= attribute && usize::from(attribute) <= cluster.schema.bounds().len()
}

// Whether the schema has the attributes of these amounts.
fn amounts_belong(cluster: &Cluster, amounts: &[(u8, i64)]) -> bool
    ensures { result ≡ amounts_belong cluster.now amounts.now }
{
    amounts.iter().all(|amount| is_attribute(cluster, amount.0))
}

/// Whether the item has a value for each attribute.
pub fn item_belongs(cluster: &Cluster, item: &Item) -> bool
    ensures { result ≡ item_belongs cluster.now item.now }
{
    item.values.len() == cluster.schema.bounds().len()
}

/// Whether the update is of the schema.
pub fn update_belongs(cluster: &Cluster, update: &Update) -> bool
    ensures { result ≡ update_belongs cluster.now update.now }
{
    match update {
        Update::Write(item, seen) => {
            item_belongs(cluster, item) && txs_belong(cluster, seen.as_slice())
        }
        Update::Add(amounts) => amounts_belong(cluster, amounts.as_slice()),
    }
}

/// Whether the choice is of the cluster.
pub fn choice_belongs(cluster: &Cluster, choice: &Choice) -> bool
    ensures { result ≡ choice_belongs cluster.now choice.now }
{
    tx_belongs(cluster, &choice.tx) && update_belongs(cluster, &choice.update)
}

/// Whether the choice that the mark may accept is.
pub fn mark_belongs(cluster: &Cluster, mark: &Mark) -> bool
    ensures { result ≡ mark_belongs cluster.now mark.now }
{
    match mark {
        Mark::Accept(choice) => choice_belongs(cluster, choice),
        Mark::Reject => true,
    }
}

// Whether the transaction and its mark are.
fn entry_belongs(cluster: &Cluster, tx: &TxId, mark: &Mark) -> bool
    ensures { result ≡ (tx_belongs cluster.now tx.now && mark_belongs cluster.now mark.now) }
{
    tx_belongs(cluster, tx) && mark_belongs(cluster, mark)
}

/// Whether all marks of the structure are.
pub fn options_belong(cluster: &Cluster, options: &Options) -> bool
    ensures { result ≡ options_belong cluster.now options.now }
{
    for i in 0..options.len() {
        let (tx, mark) = options.at(i);
        if !entry_belongs(cluster, &tx, mark) {
            return false;
        }
    }
    true
}

// Whether all of these choices are.
fn choices_belong(cluster: &Cluster, choices: &[Choice]) -> bool
    ensures { result ≡ list_all (choice_belongs cluster.now) choices.now }
{
    choices.iter().all(|choice| choice_belongs(cluster, choice))
}

/// Whether all choices of the outcome are.
pub fn outcome_belongs(cluster: &Cluster, outcome: &Outcome) -> bool
    ensures { result ≡ outcome_belongs cluster.now outcome.now }
{
    match outcome {
        Outcome::Commit(choices) => choices_belong(cluster, choices.as_slice()),
        Outcome::Abort => true,
    }
}

// Whether the delta is of the cluster.
fn delta_belongs(cluster: &Cluster, delta: &Delta) -> bool
    ensures { result ≡ (tx_belongs cluster.now delta.now.tx && amounts_belong cluster.now delta.now.amounts) }
{
    tx_belongs(cluster, &delta.tx) && amounts_belong(cluster, delta.amounts.as_slice())
}

/// Whether all of these deltas are.
pub fn adds_belong(cluster: &Cluster, adds: &[Delta]) -> bool
    ensures { result ≡ adds_belong cluster.now adds.now }
{
    adds.iter().all(|delta| delta_belongs(cluster, delta))
}

/// Whether the ballot or the quantity of the cause is.
pub fn cause_belongs(cluster: &Cluster, cause: &Cause) -> bool
    ensures { result ≡ cause_belongs cluster.now cause.now }
{
    match cause {
        Cause::Classic(ballot) => ballot_belongs(cluster, ballot),
        Cause::Limit(quantity) => usize::from(*quantity) <= cluster.schema.bounds().len(),
        _ => true,
    }
}

/// Whether the updates of all parts are.
pub fn updates_belong(cluster: &Cluster, parts: &[Part]) -> bool
    ensures { result ≡ list_all (λ part. update_belongs cluster.now part.update) parts.now }
{
    parts
        .iter()
        .all(|part| update_belongs(cluster, &part.update))
}
