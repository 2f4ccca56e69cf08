//! What a manager of transactions wants done.
use mdcc_base::{Centre, Key, TxId};
use mdcc_option::{Choice, Outcome};

/// What a manager wants its node to do.
#[derive(Debug, Drop)]
pub enum ManagerAct {
    /// The transaction ends so.
    Decide(TxId, Outcome),
    /// The option goes to the leader at this centre.
    Lead(Centre, Choice),
    /// The option goes to the leader of this node.
    LeadHere(Choice),
    /// The option is proposed to all centres again.
    Propose(Choice),
    /// The centre is given what this node holds of the key.
    Give(Centre, Key),
}
