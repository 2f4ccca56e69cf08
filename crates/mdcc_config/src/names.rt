//! The names of members, and the least one that is missing or unknown.
ghost use Rattle.std.specs.Prelude.{◌≡◌, None, option_copied};
ghost use Rattle.serde_json.specs.View.{members_view};
ghost use Rattle.mdcc_config.specs.Names.{is_known, is_missing, lesser, lesser_if, least_missing, least_unknown, wrong_name};

use crate::MemberName;
use serde_json::{Map, Value};

// The members that must be there.
const REQUIRED: [MemberName; 7] = [
    MemberName::Centres,
    MemberName::Classic,
    MemberName::Fast,
    MemberName::Gamma,
    MemberName::Bounds,
    MemberName::Hosts,
    MemberName::Port,
];

// Those that may be there.
const KNOWN: [MemberName; 11] = [
    MemberName::Centres,
    MemberName::Classic,
    MemberName::Fast,
    MemberName::Gamma,
    MemberName::Bounds,
    MemberName::Hosts,
    MemberName::Port,
    MemberName::Cells,
    MemberName::Limit,
    MemberName::Wait,
    MemberName::Checkpoint,
];

// Whether a member of this name may be there.
fn is_known(name: &str) -> bool
    ensures { result ≡ is_known name.now }
{
    KNOWN.iter().any(|known| known.text() == name)
}

// The name that comes first by its bytes.
fn lesser<'a>(name: &'a str, least: Option<&'a str>) -> Option<&'a str>
    ensures { option_copied result ≡ lesser name.now (option_copied least.entry) }
{
    match least {
        None => Some(name),
        Some(other) if name.cmp(other).is_lt() => Some(name),
        Some(other) => Some(other),
    }
}

// The least name so far, after one that counts or not.
fn lesser_if<'a>(counts: bool, name: &'a str, least: Option<&'a str>) -> Option<&'a str>
    ensures { option_copied result ≡ lesser_if counts name.now (option_copied least.entry) }
{
    if counts { lesser(name, least) } else { least }
}

// Whether a member is missing.
fn is_missing(members: &Map<String, Value>, name: MemberName) -> bool
    ensures { result ≡ is_missing (members_view members.now.entries) name }
{
    !members.contains_key(name.text())
}

// The least of these names whose member is missing.
fn least_missing<'a>(members: &'a Map<String, Value>, names: &[MemberName]) -> Option<&'a str>
    ensures { option_copied result ≡ least_missing (members_view members.now.entries) None names.now }
{
    let mut least = None;
    for name in names {
        least = lesser_if(is_missing(members, *name), name.text(), least);
    }
    least
}

// The least of a name and those of the members that are unknown.
fn least_unknown<'a>(missing: Option<&'a str>, members: &'a Map<String, Value>) -> Option<&'a str>
    ensures { option_copied result ≡ least_unknown (option_copied missing.entry) (members_view members.now.entries) }
{
    let mut least = missing;
    for (name, _) in members {
        least = lesser_if(!is_known(name.as_str()), name.as_str(), least);
    }
    least
}

/// The least name of a member that is missing or unknown.
pub(crate) fn wrong_name<'a>(members: &'a Map<String, Value>) -> Option<&'a str>
    ensures { option_copied result ≡ wrong_name (members_view members.now.entries) }
{
    least_unknown(least_missing(members, &REQUIRED), members)
}
