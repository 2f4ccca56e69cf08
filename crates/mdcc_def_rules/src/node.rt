//! What a node takes, and what it does.
use mdcc_base::{HeapList, Key, Memory, TxId};
use mdcc_def_messages::{Envelope, Fact};
use mdcc_def_protocol::{LeadFault, Reading, StoreFault};
use mdcc_option::{BeginFault, Transaction};
use std::alloc::AllocError;

/// What a node is given.
#[derive(Drop)]
pub enum Input {
    /// A message came.
    Message(Envelope),
    /// Time has passed.
    Tick,
    /// The centre tells all how far it has heard.
    Sweep,
    /// A client reads a key.
    Read(Key),
    /// A client begins a transaction.
    Begin(Transaction),
}

/// What a node answers its client.
#[derive(Debug, Drop)]
pub enum Answer {
    /// What is held of the key.
    Read(Reading),
    /// The transaction was begun.
    Begun(TxId),
    /// No transaction was begun, because of this key.
    Refused(Key, BeginFault),
}

/// What one input makes a node do: at most one fact, which is made durable before anything else is
/// let out, then the messages in order. `heard` is the transaction whose end the fact tells, true
/// being commit.
#[derive(Drop)]
pub struct Step {
    pub fact: Option<Fact>,
    pub sends: HeapList<Envelope>,
    pub heard: Option<(TxId, bool)>,
    pub answer: Option<Answer>,
}

/// Why a node refuses an input. But for want of memory it is as before.
#[derive(Clone, Copy, Debug, PartialEq, Eq)]
pub enum StepFault {
    /// The message is for another centre, or has a centre, an attribute or a number of values that
    /// is not of this cluster.
    Foreign,
    /// The fact needs more cells than are spare.
    NoRoom { needed: u64, spare: u64 },
    /// A version would have too many executed deltas, or a structure too many marks.
    Crowded,
    /// The rounds are used up.
    Exhausted,
    /// There was no memory. The facts are as before, and the node is to be booted again.
    Memory,
}

impl From<StoreFault> for StepFault {
    ghost use Rattle.std.specs.Prelude.{◌≡◌};
    ghost use Rattle.mdcc_def_rules.specs.Steps.{store_step_fault};

    ghost from_gives = { λ fault e. e ≡ store_step_fault fault };

    fn from(fault: StoreFault) -> StepFault {
        match fault {
            StoreFault::NoRoom { needed, spare } => StepFault::NoRoom { needed, spare },
            StoreFault::Crowded => StepFault::Crowded,
            StoreFault::Memory => StepFault::Memory,
        }
    }
}

impl From<LeadFault> for StepFault {
    ghost use Rattle.std.specs.Prelude.{◌≡◌};
    ghost use Rattle.mdcc_def_rules.specs.LeaderRules.{lead_step_fault};

    ghost from_gives = { λ fault e. e ≡ lead_step_fault fault };

    fn from(fault: LeadFault) -> StepFault {
        match fault {
            LeadFault::Exhausted => StepFault::Exhausted,
            LeadFault::Crowded => StepFault::Crowded,
            LeadFault::Memory => StepFault::Memory,
        }
    }
}

impl From<Memory> for StepFault {
    ghost use Rattle.std.specs.Prelude.{◌≡◌};
    ghost use Rattle.mdcc_def_rules.specs.declared.node.StepFault.TheVariants.{Memory};

    ghost from_gives = { λ _ e. e ≡ Memory };

    fn from(_: Memory) -> StepFault {
        StepFault::Memory
    }
}

impl From<AllocError> for StepFault {
    ghost use Rattle.std.specs.Prelude.{◌≡◌};
    ghost use Rattle.mdcc_def_rules.specs.declared.node.StepFault.TheVariants.{Memory};

    ghost from_gives = { λ _ e. e ≡ Memory };

    fn from(_: AllocError) -> StepFault {
        StepFault::Memory
    }
}

/// Why a log gives no node.
#[derive(Clone, Copy, Debug, PartialEq, Eq)]
pub enum BootFault {
    /// The epochs are used up.
    Epochs,
    /// The payload of this number, from 1, is no fact, or none that may stand after the others.
    NotARun(u64),
    /// A fact needs more cells than there are: so many with those in use, of so many.
    Room { needed: u64, cells: u64 },
    /// There was no memory.
    Memory,
}

impl From<Memory> for BootFault {
    ghost use Rattle.std.specs.Prelude.{◌≡◌};
    ghost use Rattle.mdcc_def_rules.specs.declared.node.BootFault.TheVariants.{Memory};

    ghost from_gives = { λ _ e. e ≡ Memory };

    fn from(_: Memory) -> BootFault {
        BootFault::Memory
    }
}
