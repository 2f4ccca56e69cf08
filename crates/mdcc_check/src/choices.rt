//! The options that a transaction proposes, in a list that has no more room than they need.
ghost use Rattle.std.specs.Prelude.{◌≡◌, ◌≤◌, IfOk, length};
ghost use Rattle.mdcc_option.specs.Transaction.{choice_of_part, choices_of, write_set_of_parts};

use mdcc_base::{BoundedList, HeapList, Memory, Plain, TxId};
use mdcc_option::{Choice, Part, WriteSet};
use std::alloc::Global;

// All keys with their versions.
fn write_set(parts: &[Part]) -> WriteSet
    requires { length parts.now ≤ 8 }
    ensures { result ≡ write_set_of_parts parts.now }
{
    let mut write_set = BoundedList::new();
    for part in parts {
        write_set.push((part.key, part.version));
    }
    write_set
}

// The choice for a part.
fn choice(tx: &TxId, write_set: &WriteSet, part: &Part) -> Choice
    ensures { result ≡ choice_of_part tx.now write_set.now part.now }
{
    Choice {
        tx: *tx,
        key: part.key,
        version: part.version,
        update: part.update.copy(),
        write_set: write_set.copy(),
    }
}

/// The options that these parts propose as transaction `tx`, in their order.
pub(crate) fn choices_of(
    alloc: Global,
    tx: &TxId,
    parts: &[Part],
) -> Result<HeapList<Choice>, Memory>
    requires { length parts.now ≤ 8 }
    ensures { IfOk result (λ choices. choices ≡ choices_of tx.now parts.now) }
{
    let write_set = write_set(parts);
    let mut choices = HeapList::new(alloc);
    for part in parts {
        choices.push(choice(tx, &write_set, part))?;
    }
    Ok(choices)
}
