//! What a leader of classic ballots is told, and answers.
use mdcc_base::{Ballot, Key, Memory};
use mdcc_struct::Options;

/// What a leader does for a claim.
#[derive(Drop)]
pub enum LeadAnswer {
    /// It holds an older version than that of the claim.
    Behind,
    /// It sends this structure, which has a mark for the claim's transaction.
    Accept {
        version: u64,
        ballot: Ballot,
        options: Options,
    },
    /// It asks for promises, and the claim waits.
    Prepare {
        version: u64,
        through: u64,
        ballot: Ballot,
    },
    /// The claim would be one rejection too many, and is left out.
    Left,
}

/// Why a leader refuses a claim or a promise.
#[derive(Clone, Copy, Debug, PartialEq, Eq)]
pub enum LeadFault {
    /// The rounds are used up.
    Exhausted,
    /// A structure would have too many marks.
    Crowded,
    /// There was no memory, and the leader is as before.
    Memory,
}

impl From<Memory> for LeadFault {
    ghost use Rattle.std.specs.Prelude.{◌≡◌};
    ghost use Rattle.mdcc_def_protocol.specs.declared.leader.LeadFault.TheVariants.{Memory};

    ghost from_gives = { λ _ e. e ≡ Memory };

    fn from(_: Memory) -> LeadFault {
        LeadFault::Memory
    }
}

/// A centre's promise to a leader, and what the centre voted in the instance before: the votes at
/// the greatest ballot below the leader's, the fast ballot and nothing where there are none.
#[derive(Drop)]
pub struct Promise {
    pub key: Key,
    pub version: u64,
    pub through: u64,
    pub ballot: Ballot,
    pub reported: Ballot,
    pub votes: Options,
}

/// What a leader does at a promise.
#[derive(Drop)]
pub enum PromiseAnswer {
    /// The promise does not count.
    Ignored,
    /// So many promises are counted, and they are too few.
    Waiting(u8),
    /// The promises are enough just now, and this structure is sent.
    Accept {
        version: u64,
        ballot: Ballot,
        options: Options,
    },
    /// The promises were enough before.
    Counted,
}
