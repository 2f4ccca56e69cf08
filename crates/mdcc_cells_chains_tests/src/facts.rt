//! Facts of tests.
ghost use Rattle.std.specs.Prelude.{◌≤◌, IfOk, length};
ghost use Rattle.mdcc_def_protocol.specs.Facts.{write_sets_from};
ghost use Rattle.mdcc_def_protocol.specs.News.{keys_in};

use mdcc_base::{Ballot, BoundedList, Centre, HeapList, Key, Memory, TxId};
use mdcc_def_messages::Fact;
use mdcc_option::{Choice, Item, Mark, Outcome, Update};
use mdcc_struct::Options;
use std::alloc::Global;

/// A transaction of centre 1.
pub fn tx(seq: u32) -> TxId {
    TxId {
        centre: Centre::new(1).unwrap_or_default(),
        epoch: 1,
        seq,
    }
}

pub fn key(letter: u8) -> Key {
    Key::new(&[letter]).unwrap_or_default()
}

fn item(value: i64) -> Item {
    Item {
        body: BoundedList::new(),
        values: BoundedList::from_slice(&[value]).unwrap_or_default(),
    }
}

/// What a transaction writes at a version of a key.
pub fn write(letter: u8, seq: u32, version: u64) -> Choice {
    Choice {
        tx: tx(seq),
        key: key(letter),
        version,
        update: Update::Write(item(5), BoundedList::new()),
        write_set: BoundedList::from_slice(&[(key(letter), version)]).unwrap_or_default(),
    }
}

/// A transaction that committed with one choice.
pub fn committed(choice: Choice) -> Fact
    ensures { length (keys_in result) ≤ 1 }
{
    Fact::Heard {
        tx: choice.tx,
        outcome: Outcome::Commit(BoundedList::from_slice(&[choice]).unwrap()),
    }
}

/// A version of a key that was given by another centre.
pub fn adopted(alloc: Global, letter: u8, version: u64) -> Fact
    ensures { length (keys_in result) ≤ 1 }
{
    Fact::Adopted {
        key: key(letter),
        version,
        item: item(7),
        adds: HeapList::new(alloc),
    }
}

/// A transaction that aborted.
pub fn aborted(seq: u32) -> Fact
    ensures { length (write_sets_from result) ≤ 2 }
{
    Fact::Heard {
        tx: tx(seq),
        outcome: Outcome::Abort,
    }
}

/// A vote that accepts one transaction, beside which a rejected one may stand.
pub fn voted(alloc: Global, letter: u8, seq: u32, offered: Option<Choice>) -> Result<Fact, Memory>
    ensures { IfOk result (λ fact. length (write_sets_from fact) ≤ 2) }
{
    let mut options = Options::new(alloc)?;
    options.insert(tx(seq), Mark::Accept(write(letter, seq, 0)))?;
    Ok(Fact::Voted {
        key: key(letter),
        version: 0,
        ballot: Ballot::FAST,
        options,
        offered,
    })
}
