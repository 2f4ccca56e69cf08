//! Why a configuration is refused.
ghost use Rattle.std.specs.Prelude.{◌≡◌, IfOk, nat_eq};
ghost use Rattle.std.specs.Cmp.{partial_equiv_from_equiv};
ghost use Rattle.std.specs.Cmp.Lexicographic.{pointwise, nat_list_eq_equiv};
ghost use Rattle.mdcc_config.specs.Names.{name_text};

use mdcc_base::QuorumFault;
use mdcc_option::SchemaFault;
use std::alloc::{AllocError, AllocFailed, Global};
use std::marker::Model;

/// The members of a configuration, in their order.
#[derive(Clone, Copy, Debug, PartialEq, Eq)]
pub enum MemberName {
    Centres,
    Classic,
    Fast,
    Gamma,
    Bounds,
    Hosts,
    Port,
    Cells,
    Limit,
    Wait,
    Checkpoint,
}

impl MemberName {
    /// How the member is named in the text.
    pub fn text(self) -> &'static str
        ensures { result.now ≡ name_text self }
    {
        match self {
            MemberName::Centres => "centres",
            MemberName::Classic => "classic",
            MemberName::Fast => "fast",
            MemberName::Gamma => "gamma",
            MemberName::Bounds => "bounds",
            MemberName::Hosts => "hosts",
            MemberName::Port => "port",
            MemberName::Cells => "cells",
            MemberName::Limit => "limit",
            MemberName::Wait => "wait",
            MemberName::Checkpoint => "checkpoint",
        }
    }
}

/// The name of a member as it stands in a text, which may be any.
#[derive(Debug, Drop)]
pub struct Name {
    text: String,
}

impl Model for Name {
    ghost use Rattle.std.specs.Prelude.{List, ℕ, string_bytes};

    ghost Value = { List ℕ };

    ghost view = { λ name. string_bytes name.text };
}

impl Name {
    /// The name that a text is.
    pub fn new(alloc: Global, text: &str) -> Result<Name, AllocError>
        ensures { IfOk result (λ name. name ≡ text.now) }
    {
        Ok(Name {
            text: String::from_str(alloc, text)?,
        })
    }

    /// The name as a text.
    pub fn as_str(&self) -> &str
        ensures { result.now ≡ self.now }
    {
        self.text.as_str()
    }
}

impl PartialEq for Name {
    ghost eq = { λ a b. pointwise nat_eq a b };

    ghost laws = { partial_equiv_from_equiv nat_list_eq_equiv };

    fn eq(&self, other: &Self) -> bool {
        self.as_str() == other.as_str()
    }
}

impl Eq for Name {
    ghost laws = { nat_list_eq_equiv };
}

/// Why a configuration is refused: the first that holds, in this order, and of those that name a
/// member the first in the order of the members.
#[derive(Debug, Drop, PartialEq, Eq)]
pub enum ConfigFault {
    /// It is no JSON object: it is not UTF-8, breaks the grammar, or nests more than 127 deep.
    Json,
    /// The least name, by its bytes, of a member that is missing or unknown.
    Member(Name),
    /// The member is not the list, text or number that is asked for, or a number that is neither of 64
    /// bits nor a whole one.
    Kind(MemberName),
    /// The member is outside its range.
    Range(MemberName),
    /// The sizes are no quorums.
    Quorums(QuorumFault),
    /// The bounds are no schema.
    Schema(SchemaFault),
    /// The host of this number, from 1, is no IPv4 address in dotted decimal, is missing, or is one more
    /// than there are centres.
    Address(u8),
    /// There was no memory.
    Memory,
}

impl From<AllocError> for ConfigFault {
    ghost use Rattle.std.specs.Prelude.{◌≡◌};
    ghost use Rattle.mdcc_config.specs.declared.faults.ConfigFault.TheVariants.{Memory};

    ghost from_gives = { λ _ e. e ≡ Memory };

    fn from(_: AllocError) -> ConfigFault {
        ConfigFault::Memory
    }
}

impl From<QuorumFault> for ConfigFault {
    ghost use Rattle.std.specs.Prelude.{◌≡◌};
    ghost use Rattle.mdcc_config.specs.declared.faults.ConfigFault.TheVariants.{Quorums};

    ghost from_gives = { λ fault e. e ≡ Quorums fault };

    fn from(fault: QuorumFault) -> ConfigFault {
        ConfigFault::Quorums(fault)
    }
}

impl From<SchemaFault> for ConfigFault {
    ghost use Rattle.std.specs.Prelude.{◌≡◌};
    ghost use Rattle.mdcc_config.specs.declared.faults.ConfigFault.TheVariants.{Schema};

    ghost from_gives = { λ fault e. e ≡ Schema fault };

    fn from(fault: SchemaFault) -> ConfigFault {
        ConfigFault::Schema(fault)
    }
}
