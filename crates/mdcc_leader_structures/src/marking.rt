//! How a leader marks a claim.
ghost use Rattle.std.specs.Prelude.{◌≡◌, List};
ghost use Rattle.std.specs.Option.{option_copied};
ghost use Rattle.mdcc_def_messages.specs.declared.facts.Fact.{Fact as AFact};
ghost use Rattle.mdcc_def_protocol.specs.Structures.{is_crowded, is_left_out, mark_of_choice};
ghost use Rattle.mdcc_escrow.specs.Sums.{IsBoundedLoad};
ghost use Rattle.mdcc_leader_structures.specs.Live.{IsWeighed};

use crate::fit::{has_room, is_accepted};
use crate::live::load_at_leader;
use mdcc_base::{Key, Plain};
use mdcc_escrow::{Load, reject_room};
use mdcc_facts::FactStore;
use mdcc_option::{Choice, Cluster, Mark};
use mdcc_struct::Options;

/// The mark of a claim beside those of its structure: it is accepted where this centre holds the
/// very version, the structure has room and the choice fits exactly; a claim whose choice nobody
/// gave is rejected.
pub fn mark_of_choice<S: FactStore>(
    store: &S,
    cluster: &Cluster,
    key: &Key,
    version: u64,
    options: &Options,
    choice: Option<&Choice>,
) -> Mark
    ensures { (facts : List AFact) → S.stands store.now facts
        → result ≡ mark_of_choice cluster.now facts key.now version options.now (option_copied choice.entry) }
{
    match choice {
        Some(known) => {
            // What is live is walked over only where the rest allows.
            if !has_room(store, key, version, options, known) {
                return Mark::Reject;
            }
            let load = load_at_leader(store, key, options);
            mark_beside(store, cluster, key, version, options, &load, choice)
        }
        None => Mark::Reject,
    }
}

/// The same, where the load of what is live beside the structure is known.
pub(crate) fn mark_beside<S: FactStore>(
    store: &S,
    cluster: &Cluster,
    key: &Key,
    version: u64,
    options: &Options,
    load: &Load,
    choice: Option<&Choice>,
) -> Mark
    requires bounded { IsBoundedLoad load.now }
    requires weighed { (facts : List AFact) → S.stands store.now facts → IsWeighed facts key.now options.now load.now }
    ensures { (facts : List AFact) → S.stands store.now facts
        → result ≡ mark_of_choice cluster.now facts key.now version options.now (option_copied choice.entry) }
{
    match choice {
        Some(choice) => {
            if is_accepted(store, cluster, key, version, options, load, choice) {
                Mark::Accept(choice.copy())
            } else {
                Mark::Reject
            }
        }
        None => Mark::Reject,
    }
}

/// Whether a structure has no room for one mark more, because it rejects.
pub fn is_left_out(options: &Options, mark: &Mark) -> bool
    ensures { result ≡ is_left_out options.now mark.now }
{
    matches!(mark, Mark::Reject) && reject_room() as usize <= options.rejected()
}

/// Whether a structure has more marks than fit one message.
pub fn is_crowded(options: &Options) -> bool
    ensures { result ≡ is_crowded options.now }
{
    1024 < options.accepted() || 32_768 < options.rejected()
}
