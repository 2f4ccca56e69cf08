//! Lists of words, from a place of a line to its end.
ghost use Rattle.std.specs.Prelude.{◌≡◌, ◌+◌, ◌≤◌, IfErr, length};
ghost use Rattle.mdcc_base.specs.Unless.{GivesUnless};
ghost use Rattle.mdcc_def_language.specs.Schedule.{parse_centre, above, numbers_from, updates_from, centres_from};
ghost use Rattle.mdcc_def_language.specs.Words.{parts_from};
ghost use Rattle.mdcc_sched.specs.Centres.{centre_above};
ghost use Rattle.mdcc_sched.specs.Free.{is_sched_memory};
ghost use Rattle.mdcc_sched.specs.Numbers.{number_of_word};

use crate::words::{not_empty, word_at};
use mdcc_base::{Centre, HeapList};
use mdcc_def_language::{SchedCause, UpdateWord};
use mdcc_option::Cluster;
use mdcc_sched_words::TextFault;
use mdcc_sched_words::faults::refused;
use mdcc_sched_words::numbers::{count_of, natural_of};
use mdcc_sched_words::updates::update_of;
use std::alloc::Global;

// The number of a message.
fn number_of_word(column: usize, word: &[u8]) -> Result<u32, TextFault>
    ensures value { result ≡ number_of_word column word.now }
    ensures column { IfErr result (λ fault. fault.column ≡ column) }
{
    not_empty(word, column)?;
    count_of(word, column)
}

/// The numbers of messages from a place on.
pub fn numbers_from(alloc: Global, at: usize, line: &[u8]) -> Result<HeapList<u32>, TextFault>
    requires { at ≤ length line.now }
    ensures value { GivesUnless is_sched_memory result (numbers_from (at + 1) (parts_from 32 at line.now)) }
    ensures column { IfErr result (λ fault. fault.column ≤ length line.now + 1) }
{
    let mut numbers = HeapList::new(alloc);
    let mut place = at;
    while place <= line.len() {
        let word = word_at(place, line);
        let number = number_of_word(place + 1, word)?;
        numbers.push(number)?;
        place += word.len() + 1;
    }
    Ok(numbers)
}

/// The update words from a place on.
pub fn updates_from(
    alloc: Global,
    at: usize,
    line: &[u8],
) -> Result<HeapList<UpdateWord>, TextFault>
    requires { at ≤ length line.now }
    ensures value { GivesUnless is_sched_memory result (updates_from (at + 1) (parts_from 32 at line.now)) }
    ensures column { IfErr result (λ fault. fault.column ≤ length line.now + 1) }
{
    let mut updates = HeapList::new(alloc);
    let mut place = at;
    while place <= line.len() {
        let word = word_at(place, line);
        let update = update_of(word, place + 1)?;
        updates.push(update)?;
        place += word.len() + 1;
    }
    Ok(updates)
}

/// A centre of the cluster.
pub fn parse_centre(cluster: &Cluster, word: &[u8], column: usize) -> Result<Centre, TextFault>
    ensures value { result ≡ parse_centre cluster.now word.now column }
    ensures column { IfErr result (λ fault. fault.column ≡ column) }
{
    let number = natural_of(word, column, 1, u64::from(cluster.quorums.centres()))?;
    Ok(Centre::new(number as u8).unwrap())
}

// The centre of a word, above the last one.
fn centre_above(
    cluster: &Cluster,
    last: u8,
    column: usize,
    word: &[u8],
) -> Result<Centre, TextFault>
    ensures value { result ≡ centre_above cluster.now last column word.now }
    ensures column { IfErr result (λ fault. fault.column ≡ column) }
{
    not_empty(word, column)?;
    let centre = parse_centre(cluster, word, column)?;
    if last < centre.number() {
        return Ok(centre);
    }
    refused(column, SchedCause::Order)
}

/// The centres from a place on, ascending.
pub fn centres_from(
    alloc: Global,
    cluster: &Cluster,
    at: usize,
    line: &[u8],
) -> Result<HeapList<Centre>, TextFault>
    requires { at ≤ length line.now }
    ensures value { GivesUnless is_sched_memory result (centres_from cluster.now 0 (at + 1) (parts_from 32 at line.now)) }
    ensures column { IfErr result (λ fault. fault.column ≤ length line.now + 1) }
{
    let mut centres = HeapList::new(alloc);
    let mut last = 0u8;
    let mut place = at;
    while place <= line.len() {
        let word = word_at(place, line);
        let centre = centre_above(cluster, last, place + 1, word)?;
        last = centre.number();
        centres.push(centre)?;
        place += word.len() + 1;
    }
    Ok(centres)
}
