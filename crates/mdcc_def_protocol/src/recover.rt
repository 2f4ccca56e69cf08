//! What the recovery of dangling transactions wants done.
use mdcc_base::{Key, TxId};
use mdcc_option::Claim;

/// What the recovery of transactions whose manager is silent wants its node to do.
#[derive(Debug, Drop)]
pub enum RecoverAct {
    /// All centres are asked for their vote on the transaction at this key and version.
    Ask(TxId, Key, u64),
    /// The claim goes to the leader of this node.
    LeadHere(Claim),
}
