//! What facts say of versions and bases.
ghost use Rattle.std.specs.Prelude.{◌≡◌, None, fold, max, reverse};
ghost use Rattle.std.specs.Option.{option_or};
ghost use Rattle.mdcc_option.specs.OneCopy.{next_version};
ghost use Rattle.mdcc_def_protocol.specs.Facts.{base_at, base_from, base_given, base_of, current_of, item_written, version_from, version_given};
ghost use Rattle.mdcc_def_protocol.specs.Marks.{is_write};

use mdcc_base::{Key, Plain};
use mdcc_def_messages::Fact;
use mdcc_option::{Choice, Item, Outcome, Update};

// A version plus one stops at 2^64 - 1.
fn next_version(version: u64) -> u64
    ensures { result ≡ next_version version }
{
    version.saturating_add(1)
}

// Whether the update is a write.
fn is_write(update: &Update) -> bool
    ensures { result ≡ is_write update.now }
{
    match update {
        Update::Write(_, _) => true,
        Update::Add(_) => false,
    }
}

// The version that a committed choice gives a key; 0 where it gives none.
fn version_given(choice: &Choice, key: &Key) -> u64
    ensures { result ≡ version_given key.now choice.now }
{
    if is_write(&choice.update) && choice.key.is(key) {
        next_version(choice.version)
    } else {
        0
    }
}

// The greatest version that the choices give.
fn versions_given(choices: &[Choice], key: &Key) -> u64
    ensures { result ≡ fold (λ version choice. max version (version_given key.now choice)) 0 choices.now }
{
    let mut version = 0u64;
    for choice in choices {
        version = version.max(version_given(choice, key));
    }
    version
}

/// The version that the fact gives a key.
pub fn version_from(fact: &Fact, key: &Key) -> u64
    ensures { result ≡ version_from key.now fact.now }
{
    match fact {
        Fact::Heard {
            tx: _,
            outcome: Outcome::Commit(choices),
        } => versions_given(choices.as_slice(), key),
        Fact::Adopted {
            key: other,
            version,
            item: _,
            adds: _,
        } => { if other.is(key) { *version } else { 0 } }
        _ => 0,
    }
}

/// The version that is held.
pub fn current_of(facts: &[Fact], key: &Key) -> u64
    ensures { result ≡ current_of (reverse facts.now) key.now }
{
    let mut current = 0u64;
    for fact in facts {
        current = current.max(version_from(fact, key));
    }
    current
}

fn item_written(update: &Update) -> Option<Item>
    ensures { result ≡ item_written update.now }
{
    match update {
        Update::Write(item, _) => Some(item.copy()),
        Update::Add(_) => None,
    }
}

// The base that a committed choice gives a version of a key.
fn base_given(choice: &Choice, key: &Key, version: u64) -> Option<Item>
    ensures { result ≡ base_given key.now version choice.now }
{
    if next_version(choice.version) == version && choice.key.is(key) {
        item_written(&choice.update)
    } else {
        None
    }
}

// The first base that the choices give.
fn bases_given(choices: &[Choice], key: &Key, version: u64) -> Option<Item>
    ensures { result ≡ fold (λ base choice. option_or base (base_given key.now version choice)) None choices.now }
{
    let mut base = None;
    for choice in choices {
        base = base.or(base_given(choice, key, version));
    }
    base
}

// The base that the fact gives a version of a key.
fn base_from(fact: &Fact, key: &Key, version: u64) -> Option<Item>
    ensures { result ≡ base_from key.now version fact.now }
{
    match fact {
        Fact::Heard {
            tx: _,
            outcome: Outcome::Commit(choices),
        } => bases_given(choices.as_slice(), key, version),
        Fact::Adopted {
            key: other,
            version: adopted,
            item,
            adds: _,
        } => {
            if *adopted == version && other.is(key) {
                Some(item.copy())
            } else {
                None
            }
        }
        _ => None,
    }
}

// The base of a version, by the first fact that gives one.
fn base_at(facts: &[Fact], key: &Key, version: u64) -> Option<Item>
    ensures { result ≡ base_at (reverse facts.now) key.now version }
{
    let mut base = None;
    for fact in facts {
        base = base.or(base_from(fact, key, version));
    }
    base
}

/// The base of the version that is held.
pub fn base_of(facts: &[Fact], key: &Key) -> Option<Item>
    ensures { result ≡ base_of (reverse facts.now) key.now }
{
    let version = current_of(facts, key);
    if version == 0 {
        None
    } else {
        base_at(facts, key, version)
    }
}
