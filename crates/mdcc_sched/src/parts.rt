//! Which parts update words stand for.
ghost use Rattle.std.specs.Prelude.{◌≡◌};
ghost use Rattle.std.specs.Option.{option_copied};
ghost use Rattle.mdcc_base.specs.Unless.{GivesUnless};
ghost use Rattle.mdcc_def_language.specs.Resolve.{read_at, read_named, first_missing, item_in, written_on, part_of, parts_of, resolve};
ghost use Rattle.mdcc_sched.specs.Free.{is_resolve_memory};
ghost use Rattle.mdcc_sched.specs.PartsOfWords.{missing_in, added_on, kept_on};

use mdcc_base::{BoundedList, HeapList, Plain};
use mdcc_def_language::{ResolveFault, UpdateWord};
use mdcc_option::{Amounts, Item, Known, Part, Update};
use std::alloc::Global;

// The read of a number, which counts from 1.
fn read_at(reads: &[Option<Known>], number: u32) -> Option<&Known>
    ensures { option_copied result ≡ read_at reads.now number }
{
    if number == 0 {
        return None;
    }
    match reads.get(number as usize - 1) {
        Some(Some(read)) => Some(read),
        _ => None,
    }
}

// The read that a word names.
fn read_named(word: &UpdateWord) -> Option<u32>
    ensures { result ≡ read_named word.now }
{
    match word {
        UpdateWord::New(_, _) => None,
        UpdateWord::Set(number, _) => Some(*number),
        UpdateWord::Add(number, _) => Some(*number),
        UpdateWord::Keep(number) => Some(*number),
    }
}

// The read that a word names, where it was not made.
fn missing_in(reads: &[Option<Known>], word: &UpdateWord) -> Option<u32>
    ensures { result ≡ missing_in reads.now word.now }
{
    match read_named(word) {
        Some(number) => match read_at(reads, number) {
            Some(_) => None,
            None => Some(number),
        },
        None => None,
    }
}

// The first read that is named and was not made.
fn first_missing(reads: &[Option<Known>], words: &[UpdateWord]) -> Option<u32>
    ensures { result ≡ first_missing reads.now words.now }
{
    for word in words {
        if let Some(number) = missing_in(reads, word) {
            return Some(number);
        }
    }
    None
}

// An item that is written on what a read saw.
fn written_on(read: &Known, item: &Item) -> Part
    ensures { result ≡ written_on read.now item.now }
{
    Part {
        key: read.key,
        version: read.token.version,
        update: Update::Write(item.copy(), read.token.seen.copy()),
    }
}

// The item of a read.
fn item_in(read: &Known) -> Result<Item, ResolveFault>
    ensures { result ≡ item_in read.now }
{
    match &read.item {
        Some(item) => Ok(item.copy()),
        None => Err(ResolveFault::NoItem(read.key)),
    }
}

// Amounts that are added to what a read saw.
fn added_on(read: &Known, amounts: &Amounts) -> Result<Part, ResolveFault>
    ensures { result ≡ added_on read.now amounts.now }
{
    let _item = item_in(read)?;
    Ok(Part {
        key: read.key,
        version: read.token.version,
        update: Update::Add(amounts.copy()),
    })
}

// The item of a read, written again.
fn kept_on(read: &Known) -> Result<Part, ResolveFault>
    ensures { result ≡ kept_on read.now }
{
    let item = item_in(read)?;
    Ok(written_on(read, &item))
}

// The part that a word stands for.
fn part_of(reads: &[Option<Known>], word: &UpdateWord) -> Result<Part, ResolveFault>
    ensures { result ≡ part_of reads.now word.now }
{
    match word {
        UpdateWord::New(key, item) => Ok(Part {
            key: *key,
            version: 0,
            update: Update::Write(item.copy(), BoundedList::new()),
        }),
        UpdateWord::Set(number, item) => match read_at(reads, *number) {
            Some(read) => Ok(written_on(read, item)),
            None => Err(ResolveFault::NoRead(*number)),
        },
        UpdateWord::Add(number, amounts) => match read_at(reads, *number) {
            Some(read) => added_on(read, amounts),
            None => Err(ResolveFault::NoRead(*number)),
        },
        UpdateWord::Keep(number) => match read_at(reads, *number) {
            Some(read) => kept_on(read),
            None => Err(ResolveFault::NoRead(*number)),
        },
    }
}

// The parts that words stand for.
fn parts_of(
    alloc: Global,
    reads: &[Option<Known>],
    words: &[UpdateWord],
) -> Result<HeapList<Part>, ResolveFault>
    ensures { GivesUnless is_resolve_memory result (parts_of reads.now words.now) }
{
    let mut parts = HeapList::new(alloc);
    for word in words {
        let part = part_of(reads, word)?;
        parts.push(part)?;
    }
    Ok(parts)
}

/// The parts that update words stand for, in their order, where read R is the R-th of the reads and
/// a read that was not made is none. A read that is named and was not made is refused first, in the
/// order of the words; then the first `add` or `keep` of a read that showed no item.
pub fn resolve(
    alloc: Global,
    words: &[UpdateWord],
    reads: &[Option<Known>],
) -> Result<HeapList<Part>, ResolveFault>
    ensures { GivesUnless is_resolve_memory result (resolve words.now reads.now) }
{
    match first_missing(reads, words) {
        Some(number) => Err(ResolveFault::NoRead(number)),
        None => parts_of(alloc, reads, words),
    }
}
