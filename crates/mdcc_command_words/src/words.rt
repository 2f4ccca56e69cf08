//! Which command the words are.
ghost use Rattle.std.specs.Prelude.{◌≡◌, ◌≤◌, ◌-◌, ◌<◌, ◌^◌, ◌↔◌, [], IfOk, IfSome, IsTrue, OnErr, is_some, length, map};
ghost use Rattle.std.specs.List.{list_any};
ghost use Rattle.std.specs.String.{string_bytes};
ghost use Rattle.clap.specs.Words.{fault_of, kind_of};
ghost use Rattle.mdcc_command_words.specs.Commands.{IsCommand, ask_by, ask_in, asks_for_help, audit_in, check_in, cluster_in, command_of, dump_in, is_hyphened, is_refused, judging_in, node_in, number_in, one_in, read_words, replay_in, sample_by, sample_in, short_number_in, turns_in, two_in};
ghost use Rattle.mdcc_command_words.specs.Grammar.{grammar};
ghost use Rattle.mdcc_def_language.specs.Words.{text_eq};

use crate::Question;
use crate::asks::question_in;
use crate::grammar::grammar;
use clap::Error;
use clap::error::ErrorKind;
use mdcc_base::Memory;
use mdcc_sample::is_shop;
use mdcc_sched_words::numbers::natural_of;
use mdcc_sched_words::places::text_eq;
use std::alloc::Global;

/// What the words ask for.
#[derive(Debug, Drop)]
pub enum Command {
    /// The schedule in the input is replayed.
    Replay,
    /// The schedule of a shop is made and replayed, by the seed of its numbers and how many items and
    /// orders it has.
    Sample(u64, u32, u32),
    /// The centre of this number is served for so many turns.
    Node(u32, u32),
    /// All centres are served for so many turns.
    Cluster(u32),
    /// A centre is asked.
    Ask(Question),
    /// The facts of the log of the centre of this number are printed.
    Dump(u32),
    /// The history in the input is checked.
    Check,
    /// The logs of all centres are audited.
    Audit,
}

// Whether a word is this one.
fn is_word(word: &String, name: &[u8]) -> bool
    ensures { result ≡ text_eq (string_bytes word.now) name.now }
{
    text_eq(word.as_bytes(), name)
}

// The number that a word is, up to this one.
fn number_in(word: &String, most: u64) -> Option<u64>
    ensures value { result ≡ number_in (string_bytes word.now) most }
    ensures within { IfSome result (λ number. number ≤ most) }
{
    natural_of(word.as_bytes(), 1, 0, most).ok()
}

// The same, of a number of 32 bits.
fn short_number_in(word: &String) -> Option<u32>
    ensures { result ≡ short_number_in (string_bytes word.now) }
{
    Some(number_in(word, u64::from(u32::MAX))? as u32)
}

// The number of turns of a question.
fn turns_in(word: &String) -> Option<u32>
    ensures value { result ≡ turns_in (string_bytes word.now) }
    ensures within { IfSome result (λ turns. turns < 2 ^ 32 - 1) }
{
    Some(number_in(word, u64::from(u32::MAX - 1))? as u32)
}

// A shop of these numbers.
fn sample_by(seed: Option<u64>, items: Option<u32>, orders: Option<u32>) -> Option<Command>
    ensures value { result ≡ sample_by seed items orders }
    ensures command { IfSome result IsCommand }
{
    let (Some(seed), Some(items), Some(orders)) = (seed, items, orders) else {
        return None;
    };
    if is_shop(items, orders) {
        Some(Command::Sample(seed, items, orders))
    } else {
        None
    }
}

// `replay`
fn replay_in(word: &String) -> Option<Command>
    ensures value { result ≡ replay_in (string_bytes word.now) }
    ensures command { IfSome result IsCommand }
{
    if is_word(word, b"replay") {
        Some(Command::Replay)
    } else {
        None
    }
}

// `check`
fn check_in(word: &String) -> Option<Command>
    ensures value { result ≡ check_in (string_bytes word.now) }
    ensures command { IfSome result IsCommand }
{
    if is_word(word, b"check") {
        Some(Command::Check)
    } else {
        None
    }
}

// `audit`
fn audit_in(word: &String) -> Option<Command>
    ensures value { result ≡ audit_in (string_bytes word.now) }
    ensures command { IfSome result IsCommand }
{
    if is_word(word, b"audit") {
        Some(Command::Audit)
    } else {
        None
    }
}

// `check` or `audit`
fn judging_in(word: &String) -> Option<Command>
    ensures value { result ≡ judging_in (string_bytes word.now) }
    ensures command { IfSome result IsCommand }
{
    match check_in(word) {
        Some(command) => Some(command),
        None => audit_in(word),
    }
}

// `replay`, `check` or `audit`
fn one_in(word: &String) -> Option<Command>
    ensures value { result ≡ one_in (string_bytes word.now) }
    ensures command { IfSome result IsCommand }
{
    match replay_in(word) {
        Some(command) => Some(command),
        None => judging_in(word),
    }
}

// `cluster TURNS`
fn cluster_in(word: &String, turns: &String) -> Option<Command>
    ensures value { result ≡ cluster_in (string_bytes word.now) (string_bytes turns.now) }
    ensures command { IfSome result IsCommand }
{
    if !is_word(word, b"cluster") {
        return None;
    }
    let turns = short_number_in(turns)?;
    Some(Command::Cluster(turns))
}

// `dump K`
fn dump_in(word: &String, centre: &String) -> Option<Command>
    ensures value { result ≡ dump_in (string_bytes word.now) (string_bytes centre.now) }
    ensures command { IfSome result IsCommand }
{
    if !is_word(word, b"dump") {
        return None;
    }
    let centre = short_number_in(centre)?;
    Some(Command::Dump(centre))
}

// `cluster TURNS` or `dump K`
fn two_in(word: &String, number: &String) -> Option<Command>
    ensures value { result ≡ two_in (string_bytes word.now) (string_bytes number.now) }
    ensures command { IfSome result IsCommand }
{
    match cluster_in(word, number) {
        Some(command) => Some(command),
        None => dump_in(word, number),
    }
}

// `node K TURNS`
fn node_in(word: &String, centre: &String, turns: &String) -> Option<Command>
    ensures value { result ≡ node_in (string_bytes word.now) (string_bytes centre.now) (string_bytes turns.now) }
    ensures command { IfSome result IsCommand }
{
    if !is_word(word, b"node") {
        return None;
    }
    let centre = short_number_in(centre)?;
    let turns = short_number_in(turns)?;
    Some(Command::Node(centre, turns))
}

// `sample SEED ITEMS ORDERS`
fn sample_in(word: &String, seed: &String, items: &String, orders: &String) -> Option<Command>
    ensures value { result ≡ sample_in (string_bytes word.now) (string_bytes seed.now) (string_bytes items.now) (string_bytes orders.now) }
    ensures command { IfSome result IsCommand }
{
    if !is_word(word, b"sample") {
        return None;
    }
    sample_by(
        number_in(seed, u64::MAX),
        short_number_in(items),
        short_number_in(orders),
    )
}

// A question by these numbers.
fn ask_by(
    alloc: Global,
    centre: Option<u32>,
    turns: Option<u32>,
    serial: Option<u32>,
    words: &[String],
) -> Result<Option<Command>, Memory>
    requires turns { IfSome turns (λ turns. turns < 2 ^ 32 - 1) }
    requires few { length words.now ≤ 16 }
    ensures value { IfOk result (λ command. command ≡ ask_by centre turns serial (map string_bytes words.now)) }
    ensures memory { OnErr result (IsTrue (is_some (ask_by centre turns serial (map string_bytes words.now)))) }
    ensures command { IfOk result (λ command. IfSome command IsCommand) }
{
    let (Some(centre), Some(turns), Some(serial)) = (centre, turns, serial) else {
        return Ok(None);
    };
    match question_in(alloc, centre, turns, serial, words)? {
        Some(question) => Ok(Some(Command::Ask(question))),
        None => Ok(None),
    }
}

// `ask K TURNS SERIAL WORD..`
fn ask_in(
    alloc: Global,
    word: &String,
    centre: &String,
    turns: &String,
    serial: &String,
    words: &[String],
) -> Result<Option<Command>, Memory>
    ensures value { IfOk result (λ command. command
        ≡ ask_in (string_bytes word.now) (string_bytes centre.now) (string_bytes turns.now) (string_bytes serial.now) (map string_bytes words.now)) }
    ensures memory { OnErr result (IsTrue (is_some
        (ask_in (string_bytes word.now) (string_bytes centre.now) (string_bytes turns.now) (string_bytes serial.now) (map string_bytes words.now)))) }
    ensures command { IfOk result (λ command. IfSome command IsCommand) }
{
    if !is_word(word, b"ask") || words.len() > 16 {
        return Ok(None);
    }
    let centre = short_number_in(centre);
    let serial = short_number_in(serial);
    ask_by(alloc, centre, turns_in(turns), serial, words)
}

// The command that the words are, by how many they are. It takes memory only where they are one.
fn read_words(alloc: Global, words: &[String]) -> Result<Option<Command>, Memory>
    ensures value { IfOk result (λ command. command ≡ read_words (map string_bytes words.now)) }
    ensures memory { OnErr result (IsTrue (is_some (read_words (map string_bytes words.now)))) }
    ensures command { IfOk result (λ command. IfSome command IsCommand) }
{
    match words {
        [word] => Ok(one_in(word)),
        [word, number] => Ok(two_in(word, number)),
        [word, centre, turns] => Ok(node_in(word, centre, turns)),
        [word, seed, items, orders] => Ok(sample_in(word, seed, items, orders)),
        [word, centre, turns, serial, rest @ ..] => {
            ask_in(alloc, word, centre, turns, serial, rest)
        }
        _ => Ok(None),
    }
}

// Whether a word begins with a hyphen.
fn is_hyphened(word: &String) -> bool
    ensures { result ≡ is_hyphened (string_bytes word.now) }
{
    match word.as_bytes() {
        [byte, ..] => *byte == b'-',
        [] => false,
    }
}

// Whether the first word is `help`.
fn asks_for_help(words: &[String]) -> bool
    ensures { result ≡ asks_for_help (map string_bytes words.now) }
{
    match words {
        [word, ..] => is_word(word, b"help"),
        [] => false,
    }
}

// Whether a word begins with a hyphen.
fn is_any_hyphened(words: &[String]) -> bool
    ensures { result ≡ list_any (λ word. is_hyphened (string_bytes word)) words.now }
{
    words.iter().any(|word| is_hyphened(word))
}

// Whether the words are a call for help, or have one that begins with a hyphen.
#[tactic(auto, using(crate::proofs::Hyphens::any_of_map))]
fn is_refused(words: &[String]) -> bool
    ensures { result ≡ is_refused (map string_bytes words.now) }
{
    asks_for_help(words) || is_any_hyphened(words)
}

// Whether an error is want of memory.
fn is_memory(error: &Error) -> bool
    ensures { IsTrue result ↔ (kind_of error.now ≡ ErrorKind.OutOfMemory) }
{
    match error.kind() {
        ErrorKind::OutOfMemory => true,
        _ => false,
    }
}

// Whether the words have the form of a command.
fn has_form<'a>(alloc: Global, words: &'a [String]) -> Result<bool, Memory>
    ensures { IfOk result (λ b. IsTrue b ↔ (fault_of grammar (map string_bytes words.now) ≡ [])) }
{
    let parsed = grammar(alloc)?.try_get_matches_from(words);
    match parsed {
        Ok(_matches) => Ok(true),
        Err(error) => {
            if is_memory(&error) {
                Err(Memory)
            } else {
                Ok(false)
            }
        }
    }
}

/// What the words ask for, where they are those of a command. Other words are refused also where there is no memory.
pub fn command_of(alloc: Global, words: &[String]) -> Result<Option<Command>, Memory>
    ensures value { IfOk result (λ command. command ≡ command_of (map string_bytes words.now)) }
    ensures memory { OnErr result (IsTrue (is_some (command_of (map string_bytes words.now)))) }
    ensures command { IfOk result (λ command. IfSome command IsCommand) }
{
    if is_refused(words) {
        return Ok(None);
    }
    let Some(command) = read_words(alloc, words)? else {
        return Ok(None);
    };
    if has_form(alloc, words)? {
        Ok(Some(command))
    } else {
        Ok(None)
    }
}
