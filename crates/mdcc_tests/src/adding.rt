//! Adding facts to a store where nothing else keeps them from being said twice.
ghost use Rattle.mdcc_facts.specs.Adding.{MayBeAdded, offers_unmarked};
ghost use Rattle.mdcc_base.specs.declared.identifiers.Ballot.{Ballot as ABallot};
ghost use Rattle.mdcc_base.specs.declared.key.Key.{Key as AKey};
ghost use Rattle.mdcc_def_protocol.specs.Facts.{is_finished, votes_of};
ghost use Rattle.mdcc_def_messages.specs.declared.facts.Fact.{Fact as AFact};
ghost use Rattle.mdcc_struct.specs.Maps.{value_of};
ghost use Rattle.std.specs.List.{list_any};
ghost use Rattle.mdcc_journal.specs.Counts.{HasCounts};
ghost use Rattle.mdcc_def_messages.specs.Lengths.{fact_length};
ghost use Rattle.mdcc_def_messages.specs.Spelling.{fact_bytes};
ghost use Rattle.mdcc_def_messages.specs.WellFormed.{IsWellFormedFact};
ghost use Rattle.mdcc_theorem_encoding.specs.Laws.{AreBytes};
ghost use Rattle.std.specs.Prelude.{◌≡◌, ◌≤◌, ◌∷◌, [], ℕ, IfOk, IfSome, IsTrue, List, OnOk, false, is_some};
ghost use Rattle.std.specs.Bool.{OnTrue};

use mdcc_base::{Ballot, Key, Memory};
use mdcc_facts::{Fact, FactStore, StoreFault};
use mdcc_index::PoolFacts;
use mdcc_journal::{decode_fact, encode_fact};
use mdcc_option::Choice;
use mdcc_struct::Options;
use mdcc_theorem_encoding::facts::{facts_have_one_spelling, facts_read_are_well_formed};
use mdcc_theorem_encoding::sizes::lengths_are_exact;
use std::alloc::Global;

// Whether no mark of a structure was voted in an instance at a ballot, and none is of a finished
// transaction.
fn are_new<S: FactStore>(
    store: &S,
    key: &Key,
    version: u64,
    ballot: Ballot,
    options: &Options,
) -> bool
    ensures unvoted { (facts : List AFact) → S.stands store.now facts → IsTrue result
        → list_any (λ e. is_some (value_of (votes_of facts key.now version ballot) e.0)) options.now ≡ false }
    ensures unfinished { (facts : List AFact) → S.stands store.now facts → IsTrue result
        → list_any (λ e. is_finished facts e.0) options.now ≡ false }
{
    store.count_past(key, version, ballot, options) == 0
}

// Whether a vote with these marks offers only a choice of a transaction that it marks.
fn marks_offer(options: &Options, offered: &Option<Choice>) -> bool
    ensures { (key : AKey) (version : ℕ) (ballot : ABallot) → IsTrue result
        → offers_unmarked (AFact.Voted key version ballot options.now offered.now) ≡ false }
{
    match offered {
        None => true,
        Some(choice) => match options.mark_of(choice.tx) {
            Some(_) => true,
            None => false,
        },
    }
}

// Whether the lists of the fact are no longer than their counts can say.
fn has_counts(fact: &Fact) -> bool
    ensures { IsTrue result → HasCounts fact.now }
{
    match fact {
        Fact::Voted { options, .. } => options.len() <= 4_294_967_295,
        Fact::Adopted { adds, .. } => adds.len() <= 255,
        _ => true,
    }
}

// Bytes are below 256.
fn are_bytes(bytes: &[u8])
    ensures { AreBytes bytes.now }
{}

// The fact of the bytes, where a frame of a log holds them.
#[tactic(auto, using(crate::proofs::Read::fits))]
fn read_back(alloc: Global, bytes: &[u8]) -> Option<Fact>
    ensures well_formed { IfSome result (λ read. IsWellFormedFact read) }
    ensures short { IfSome result (λ read. fact_length read ≤ 2097152) }
    ensures same { IfSome result (λ read. fact_bytes read ≡ bytes.now) }
{
    facts_read_are_well_formed();
    facts_have_one_spelling();
    lengths_are_exact();
    are_bytes(bytes);
    if 2_097_152 < bytes.len() {
        return None;
    }
    match decode_fact(alloc, bytes) {
        Ok(read) => Some(read),
        Err(_) => None,
    }
}

/// What is read from the bytes of the fact, where it is well-formed.
pub fn reread(alloc: Global, fact: &Fact) -> Option<Fact>
    ensures well_formed { IfSome result (λ read. IsWellFormedFact read) }
    ensures short { IfSome result (λ read. fact_length read ≤ 2097152) }
    ensures same { IfSome result (λ read. fact_bytes read ≡ fact_bytes fact.now) }
{
    if !has_counts(fact) {
        return None;
    }
    let mut bytes = Vec::new(alloc);
    match encode_fact(fact, &mut bytes) {
        Ok(()) => read_back(alloc, &bytes),
        Err(_) => None,
    }
}

// Whether the fact says nothing a second time and nothing of a finished transaction, and offers what
// it marks.
fn is_news<S: FactStore>(store: &S, fact: &Fact) -> bool
    requires well_formed { IsWellFormedFact fact.now }
    requires short { fact_length fact.now ≤ 2097152 }
    ensures { (facts : List AFact) → S.stands store.now facts → IsTrue result → MayBeAdded facts fact.now }
{
    match fact {
        Fact::Booted(_) => true,
        Fact::Promised {
            key,
            low,
            high: _,
            ballot,
        } => store.promised(key, *low, *ballot).is_none(),
        Fact::Voted {
            key,
            version,
            ballot,
            options,
            offered,
        } => are_new(store, key, *version, *ballot, options) && marks_offer(options, offered),
        Fact::Heard { tx, outcome: _ } => !store.is_settled(*tx),
        Fact::Adopted {
            key: _,
            version: _,
            item: _,
            adds: _,
        } => true,
        Fact::Floor { .. } => false,
    }
}

/// Adds a fact, where it says nothing a second time, and gives the store's answer.
pub fn add_news<S: FactStore>(store: &mut S, fact: &Fact) -> Option<Result<(), StoreFault>>
    requires well_formed { IsWellFormedFact fact.now }
    requires short { fact_length fact.now ≤ 2097152 }
    ensures ok { (facts : List AFact) → S.stands store.old facts → IfSome result (λ answer. OnOk answer (S.stands store.new (fact.now ∷ facts))) }
{
    if is_news(store, fact) {
        Some(store.add(fact))
    } else {
        None
    }
}

/// Adds a well-formed fact that says nothing a second time, as it is read from its bytes, and gives
/// the store's answer.
pub fn add_read<S: FactStore>(
    alloc: Global,
    store: &mut S,
    fact: &Fact,
) -> Option<Result<(), StoreFault>>
    ensures ok { (facts : List AFact) → S.stands store.old facts
        → IfSome result (λ answer. OnOk answer ((read : AFact) × (fact_bytes read ≡ fact_bytes fact.now) × S.stands store.new (read ∷ facts))) }
{
    match reread(alloc, fact) {
        Some(read) => add_news(store, &read),
        None => None,
    }
}

/// Adds a well-formed fact that says nothing a second time, as it is read from its bytes, and answers
/// whether it was added.
pub fn put<S: FactStore>(alloc: Global, store: &mut S, fact: &Fact) -> bool
    ensures { (facts : List AFact) → S.stands store.old facts
        → OnTrue result ((read : AFact) × (fact_bytes read ≡ fact_bytes fact.now) × S.stands store.new (read ∷ facts)) }
{
    match add_read(alloc, store, fact) {
        Some(Ok(())) => true,
        Some(Err(_)) => false,
        None => false,
    }
}

/// A store of no facts, with cells for the few that a test puts in.
pub fn no_facts(alloc: Global) -> Result<PoolFacts, Memory>
    ensures { IfOk result (λ store. ⟦<PoolFacts as FactStore>⟧.stands store []) }
{
    PoolFacts::new(alloc, 1024)
}
