//! The payloads of a log, taken into a store, and the boot after them.
ghost use Rattle.std.specs.Prelude.{◌≡◌, ◌-◌, ◌<◌, ◌≤◌, ◌^◌, ◌∷◌, [], IfOk, IsTrue, List, Ok, Some, length, map, slice_get, true, ℕ};
ghost use Rattle.mdcc_node_boot.specs.Loading.{AreWithinFrames, BootsUnless, HoldsFacts, LoadsUnless, boot_by, fact_read, is_boot_memory, loaded_by, read_fault, refusal, store_fault, with_next_boot};
ghost use Rattle.mdcc_base.specs.Unless.{GivesUnless};
ghost use Rattle.mdcc_def_messages.specs.Lengths.{fact_length};
ghost use Rattle.mdcc_def_messages.specs.Reading.{fact_of};
ghost use Rattle.mdcc_def_messages.specs.WellFormed.{IsWellFormedFact};
ghost use Rattle.mdcc_def_messages.specs.declared.facts.Fact.{Fact as AFact};
ghost use Rattle.mdcc_def_protocol.specs.Cells.{cells_held};
ghost use Rattle.mdcc_parts.specs.Reads.{is_wire_memory as is_reading_memory};
ghost use Rattle.mdcc_theorem_encoding.specs.Laws.{AreBytes};

use crate::admitted::is_admitted;
use crate::laws::{admission_is_exact, admitted_may_be_added};
use mdcc_base::HeapList;
use mdcc_def_messages::{Fact, WireFault};
use mdcc_def_protocol::StoreFault;
use mdcc_def_rules::BootFault;
use mdcc_facts::FactStore;
use mdcc_journal::decode_fact;
use mdcc_option::Cluster;
use mdcc_theorem_encoding::facts::{facts_have_one_spelling, facts_read_are_well_formed};
use mdcc_theorem_encoding::sizes::lengths_are_exact;
use std::alloc::Global;

// ---- faults

// By what a store answers to a fact behind so many others.
fn store_fault(cells: u64, taken: u64, fault: StoreFault) -> BootFault
    requires { taken < 2 ^ 64 - 1 }
    ensures { result ≡ store_fault cells taken fault }
{
    match fault {
        StoreFault::NoRoom { needed, spare } => BootFault::Room {
            needed: cells.saturating_sub(spare).saturating_add(needed),
            cells,
        },
        StoreFault::Crowded => BootFault::NotARun(taken + 1),
        StoreFault::Memory => BootFault::Memory,
    }
}

// By what is wrong with the payload behind so many others.
fn read_fault(taken: u64, fault: WireFault) -> BootFault
    requires { taken < 2 ^ 64 - 1 }
    ensures { result ≡ read_fault taken fault }
{
    match fault {
        WireFault::Memory => BootFault::Memory,
        _ => BootFault::NotARun(taken + 1),
    }
}

// ---- one payload after the other

// Why a fact that is admitted is not taken: that it brings too many deltas comes before want of room.
fn refusal<S: FactStore>(store: &S, taken: u64, fact: &Fact, fault: StoreFault) -> BootFault
    requires { taken < 2 ^ 64 - 1 }
    ensures { (facts : List AFact) → S.stands store.now facts → result ≡ refusal (S.cells store.now) facts taken fact.now fault }
{
    if store.would_crowd(fact) {
        BootFault::NotARun(taken + 1)
    } else {
        store_fault(store.cells(), taken, fault)
    }
}

// Adds a fact that may stand after those of the store.
fn take_fact<S: FactStore>(
    cluster: &Cluster,
    store: &mut S,
    taken: u64,
    fact: &Fact,
) -> Result<(), BootFault>
    requires counted { taken < 2 ^ 64 - 1 }
    requires well_formed { IsWellFormedFact fact.now }
    requires short { fact_length fact.now ≤ 2097152 }
    ensures { (total : ℕ) (facts : List AFact) → HoldsFacts S.stands S.cells total store.old facts → cells_held facts ≤ total
        → LoadsUnless is_boot_memory result (loaded_by total cluster.now facts taken (Some fact.now ∷ [])) (HoldsFacts S.stands S.cells total store.new) }
{
    admission_is_exact();
    admitted_may_be_added();
    if !is_admitted(store, cluster, fact) {
        return Err(BootFault::NotARun(taken + 1));
    }
    match store.add(fact) {
        Ok(()) => Ok(()),
        Err(fault) => Err(refusal(store, taken, fact, fault)),
    }
}

// Bytes are below 256.
fn are_bytes(bytes: &[u8])
    ensures { AreBytes bytes.now }
{}

// The fact of a payload.
#[tactic(auto, using(crate::proofs::Short::fits))]
fn read_payload(alloc: Global, payload: &[u8]) -> Result<Fact, WireFault>
    requires { length payload.now ≤ 2097152 }
    ensures read { GivesUnless is_reading_memory result (fact_of payload.now) }
    ensures well_formed { IfOk result (λ fact. IsWellFormedFact fact) }
    ensures short { IfOk result (λ fact. fact_length fact ≤ 2097152) }
{
    facts_read_are_well_formed();
    facts_have_one_spelling();
    lengths_are_exact();
    are_bytes(payload);
    decode_fact(alloc, payload)
}

// Adds the fact of a payload.
fn take_payload<S: FactStore>(
    alloc: Global,
    cluster: &Cluster,
    store: &mut S,
    taken: u64,
    payload: &[u8],
) -> Result<(), BootFault>
    requires counted { taken < 2 ^ 64 - 1 }
    requires short { length payload.now ≤ 2097152 }
    ensures { (total : ℕ) (facts : List AFact) → HoldsFacts S.stands S.cells total store.old facts → cells_held facts ≤ total
        → LoadsUnless is_boot_memory result (loaded_by total cluster.now facts taken (fact_read payload.now ∷ [])) (HoldsFacts S.stands S.cells total store.new) }
{
    match read_payload(alloc, payload) {
        Ok(fact) => take_fact(cluster, store, taken, &fact),
        Err(fault) => Err(read_fault(taken, fault)),
    }
}

// The payload at a place.
#[tactic(auto, using(crate::proofs::Short::each_short))]
fn payload_at(payloads: &[HeapList<u8>], place: usize) -> &[u8]
    requires within { place < length payloads.now }
    requires short { AreWithinFrames payloads.now }
    ensures value { slice_get payloads.now place ≡ Some result.now }
    ensures short { length result.now ≤ 2097152 }
{
    payloads[place].as_slice()
}

// Adds the facts of payloads to an empty store, in turn.
fn load<S: FactStore>(
    alloc: Global,
    cluster: &Cluster,
    store: &mut S,
    payloads: &[HeapList<u8>],
) -> Result<(), BootFault>
    requires { AreWithinFrames payloads.now }
    ensures { (total : ℕ) → HoldsFacts S.stands S.cells total store.old []
        → LoadsUnless is_boot_memory result (loaded_by total cluster.now [] 0 (map fact_read payloads.now)) (HoldsFacts S.stands S.cells total store.new) }
{
    for place in 0..payloads.len() {
        let payload = payload_at(payloads, place);
        match take_payload(alloc, cluster, store, place as u64, payload) {
            Ok(()) => {}
            Err(fault) => return Err(fault),
        }
    }
    Ok(())
}

/// Whether no payload has more bytes than a frame of a log holds, 2,097,152.
#[tactic(auto, using(crate::proofs::Short::all_short))]
pub fn are_short(payloads: &[HeapList<u8>]) -> bool
    ensures { IsTrue result → AreWithinFrames payloads.now }
{
    payloads.iter().all(|payload| payload.len() <= 2_097_152)
}

// ---- the boot

// Adds the boot of the next epoch.
fn begin_epoch<S: FactStore>(store: &mut S) -> Result<u32, BootFault>
    ensures { (total : ℕ) (facts : List AFact) → HoldsFacts S.stands S.cells total store.old facts → cells_held facts ≤ total
        → BootsUnless is_boot_memory result (with_next_boot total (Ok facts)) (HoldsFacts S.stands S.cells total store.new) }
{
    let last = store.epoch();
    if last == u32::MAX {
        return Err(BootFault::Epochs);
    }
    let epoch = last + 1;
    match store.add(&Fact::Booted(epoch)) {
        Ok(()) => Ok(epoch),
        Err(fault) => Err(store_fault(store.cells(), 0, fault)),
    }
}

/// Adds the facts of the payloads of a log to an empty store, and then the boot of the next epoch,
/// which it gives. A payload that spells no fact, or one that may not stand after those before it, is
/// `NotARun`; one that needs more cells than are left is `Room`; after the last epoch, 2^32 - 1, it is
/// `Epochs`. What the store stands for after a fault is not told.
pub fn boot_store<S: FactStore>(
    alloc: Global,
    cluster: &Cluster,
    store: &mut S,
    payloads: &[HeapList<u8>],
) -> Result<u32, BootFault>
    requires short { AreWithinFrames payloads.now }
    ensures { (total : ℕ) → HoldsFacts S.stands S.cells total store.old []
        → BootsUnless is_boot_memory result (boot_by total cluster.now (map fact_read payloads.now)) (HoldsFacts S.stands S.cells total store.new) }
{
    match load(alloc, cluster, store, payloads) {
        Ok(()) => begin_epoch(store),
        Err(fault) => Err(fault),
    }
}
