//! The words of a question.
ghost use Rattle.std.specs.Prelude.{◌≡◌, ◌-◌, ◌<◌, ◌≤◌, ◌^◌, IfOk, IfSome, IsTrue, OnErr, is_some, length, map};
ghost use Rattle.std.specs.List.{list_all, prefix_len};
ghost use Rattle.std.specs.String.{string_bytes};
ghost use Rattle.mdcc_command_words.specs.Asks.{IsQuestion, each, if_read, is_read, key_in, names_read, question_in, update_in};

use crate::Question;
use mdcc_base::{HeapList, Key, Memory};
use mdcc_def_language::UpdateWord;
use mdcc_sched_words::keys::key_of;
use mdcc_sched_words::places::text_eq;
use mdcc_sched_words::updates::update_of;
use std::alloc::Global;

// What a word that asks for a read begins with.
const READ: &[u8] = b"read:";

// Whether a word asks for a read.
fn is_read(word: &String) -> bool
    ensures { result ≡ is_read (string_bytes word.now) }
{
    let bytes = word.as_bytes();
    bytes.len() >= READ.len() && text_eq(&bytes[..READ.len()], READ)
}

// The key of a word that asks for a read.
fn key_in(word: &String) -> Option<Key>
    ensures { result ≡ key_in (string_bytes word.now) }
{
    let bytes = word.as_bytes();
    if bytes.len() < READ.len() {
        return None;
    }
    key_of(&bytes[READ.len()..], 1).ok()
}

// Whether an update names one of so many reads, or none.
fn names_read(reads: usize, update: &UpdateWord) -> bool
    ensures { result ≡ names_read reads update.now }
{
    match update {
        UpdateWord::New(_, _) => true,
        UpdateWord::Set(number, _) | UpdateWord::Add(number, _) | UpdateWord::Keep(number) => {
            *number >= 1 && *number as usize <= reads
        }
    }
}

// The update, where it names one of so many reads, or none.
fn if_read(reads: usize, update: UpdateWord) -> Option<UpdateWord>
    ensures { result ≡ if_read reads update }
{
    if names_read(reads, &update) {
        Some(update)
    } else {
        None
    }
}

// The update that a word is, of one of so many reads, or of none.
fn update_in(reads: usize, word: &String) -> Option<UpdateWord>
    ensures { result ≡ update_in reads (string_bytes word.now) }
{
    if_read(reads, update_of(word.as_bytes(), 1).ok()?)
}

// How many words ask for a read before the first that does not.
fn reads_first(words: &[String]) -> usize
    ensures value { result ≡ prefix_len is_read (map string_bytes words.now) }
    ensures within { result ≤ length words.now }
{
    for index in 0..words.len() {
        if !is_read(&words[index]) {
            return index;
        }
    }
    words.len()
}

// Whether each word has a key after `read:`.
fn has_keys(words: &[String]) -> bool
    ensures { result ≡ list_all (λ word. is_some (key_in (string_bytes word))) words.now }
{
    words.iter().all(|word| key_in(word).is_some())
}

// Whether the words are keys after `read:`.
fn are_keys(words: &[String]) -> bool
    ensures { result ≡ is_some (each key_in (map string_bytes words.now)) }
{
    has_keys(words)
}

// Whether each word is an update, of one of so many reads, or of none.
fn has_updates(reads: usize, words: &[String]) -> bool
    ensures { result ≡ list_all (λ word. is_some (update_in reads (string_bytes word))) words.now }
{
    words.iter().all(|word| update_in(reads, word).is_some())
}

// Whether the words are updates, of one of so many reads, or of none.
fn are_updates(reads: usize, words: &[String]) -> bool
    ensures { result ≡ is_some (each (update_in reads) (map string_bytes words.now)) }
{
    has_updates(reads, words)
}

// The keys of words that ask for reads.
fn keys_in(alloc: Global, words: &[String]) -> Result<Option<HeapList<Key>>, Memory>
    ensures { IfOk result (λ keys. keys ≡ each key_in (map string_bytes words.now)) }
{
    let mut keys = HeapList::new(alloc);
    for word in words {
        let Some(key) = key_in(word) else {
            return Ok(None);
        };
        keys.push(key)?;
    }
    Ok(Some(keys))
}

// The updates of words.
fn updates_in(
    alloc: Global,
    reads: usize,
    words: &[String],
) -> Result<Option<HeapList<UpdateWord>>, Memory>
    ensures { IfOk result (λ updates. updates ≡ each (update_in reads) (map string_bytes words.now)) }
{
    let mut updates = HeapList::new(alloc);
    for word in words {
        let Some(update) = update_in(reads, word) else {
            return Ok(None);
        };
        updates.push(update)?;
    }
    Ok(Some(updates))
}

/// The question of these words. It takes memory only where they are one.
pub(crate) fn question_in(
    alloc: Global,
    centre: u32,
    turns: u32,
    serial: u32,
    words: &[String],
) -> Result<Option<Question>, Memory>
    requires turns { turns < 2 ^ 32 - 1 }
    requires few { length words.now ≤ 16 }
    ensures value { IfOk result (λ question. question ≡ question_in centre turns serial (map string_bytes words.now)) }
    ensures memory { OnErr result (IsTrue (is_some (question_in centre turns serial (map string_bytes words.now)))) }
    ensures meets { IfOk result (λ question. IfSome question IsQuestion) }
{
    let reads = reads_first(words);
    let (asked, begun) = words.split_at(reads);
    if !are_keys(asked) || !are_updates(reads, begun) {
        return Ok(None);
    }
    let keys = keys_in(alloc, asked)?;
    let updates = updates_in(alloc, reads, begun)?;
    let (Some(keys), Some(updates)) = (keys, updates) else {
        return Ok(None);
    };
    Ok(Some(Question {
        centre,
        turns,
        serial,
        keys,
        updates,
    }))
}
