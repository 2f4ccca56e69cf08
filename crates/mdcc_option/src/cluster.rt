//! What all nodes of a cluster agree on before they start.
use crate::Schema;
use mdcc_base::{Plain, Quorums};

/// Which share of the room an acceptor may give away at the fast ballot.
#[derive(Clone, Copy, Debug, PartialEq, Eq)]
pub enum FastLimit {
    /// What any classic quorum of promises forces stays within the room.
    Safe,
    /// The wider share: what is chosen stays within the room, and a leader waits for more promises
    /// where what a classic quorum forces does not.
    Paper,
}

/// The sizes of the quorums, the schema, how many versions above the first a classic ballot covers,
/// how many cells of 64 bytes a node has for its facts, and the fast limit.
#[derive(Debug, Drop)]
pub struct Cluster {
    pub quorums: Quorums,
    pub schema: Schema,
    pub gamma: u64,
    pub cells: u32,
    pub limit: FastLimit,
}

impl Plain for Cluster {
    fn copy(&self) -> Cluster {
        Cluster {
            quorums: self.quorums,
            schema: self.schema.copy(),
            gamma: self.gamma,
            cells: self.cells,
            limit: self.limit,
        }
    }

    fn same(&self, other: &Cluster) -> bool {
        self.quorums == other.quorums
            && self.schema.same(&other.schema)
            && self.gamma == other.gamma
            && self.cells == other.cells
            && self.limit == other.limit
    }
}
