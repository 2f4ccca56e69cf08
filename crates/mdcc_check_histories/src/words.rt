//! Words of a history: identifiers, and what a reader saw.
ghost use Rattle.std.specs.Prelude.{◌≡◌, ◌+◌, ◌-◌, ◌<◌, ◌≤◌, ◌^◌, ◌∷◌, [], IfErr, length};
ghost use Rattle.mdcc_check.specs.Verdicts.{is_above};
ghost use Rattle.mdcc_def_language.specs.Words.{natural_of};
ghost use Rattle.mdcc_check_histories.specs.Grammar.{in_order, seen_in, tx_above, tx_in, tx_of, txs_of, version_in};

use mdcc_base::{BoundedList, Centre, TxId};
use mdcc_def_language::SchedCause;
use mdcc_option::items::Seen;
use mdcc_sched_words::TextFault;
use mdcc_sched_words::faults::refused;
use mdcc_sched_words::numbers::{count_of, natural_of};
use mdcc_sched_words::places::{part_at, part_end, text_eq};

// The most transactions that a reader may have seen.
const MOST_SEEN: usize = 64;

// The centre of an identifier.
fn centre_of(word: &[u8], column: usize) -> Result<Centre, TextFault>
    ensures value { result ≡ natural_of word.now column 1 9 }
    ensures column { IfErr result (λ fault. fault.column ≡ column) }
{
    let number = natural_of(word, column, 1, 9)?;
    Ok(Centre::new(number as u8).unwrap())
}

// The identifier of three parts.
fn tx_in(centre: &[u8], epoch: &[u8], seq: &[u8], column: usize) -> Result<TxId, TextFault>
    ensures value { result ≡ tx_in column (centre.now ∷ epoch.now ∷ seq.now ∷ []) }
    ensures column { IfErr result (λ fault. fault.column ≡ column) }
{
    let centre = centre_of(centre, column)?;
    let epoch = count_of(epoch, column)?;
    let seq = count_of(seq, column)?;
    Ok(TxId { centre, epoch, seq })
}

/// The identifier that a word is, at a column: three numbers with dots between them.
#[tactic(auto, using(crate::proofs::ThreeParts::one_part, crate::proofs::ThreeParts::two_parts, crate::proofs::ThreeParts::three_parts, crate::proofs::ThreeParts::four_parts))]
pub fn tx_of(word: &[u8], column: usize) -> Result<TxId, TextFault>
    ensures value { result ≡ tx_of word.now column }
    ensures column { IfErr result (λ fault. fault.column ≡ column) }
{
    let first = part_end(b'.', 0, word);
    if first >= word.len() {
        return refused(column, SchedCause::Number);
    }
    let second = part_end(b'.', first + 1, word);
    if second >= word.len() {
        return refused(column, SchedCause::Number);
    }
    if part_end(b'.', second + 1, word) < word.len() {
        return refused(column, SchedCause::Number);
    }
    tx_in(
        part_at(b'.', 0, word),
        part_at(b'.', first + 1, word),
        part_at(b'.', second + 1, word),
        column,
    )
}

// Whether a transaction stands behind the last one.
fn is_above(last: Option<TxId>, tx: &TxId) -> bool
    ensures { result ≡ is_above last tx.now }
{
    match last {
        None => true,
        Some(last) => last.is_below(tx),
    }
}

// The same, or a refusal.
fn in_order(last: Option<TxId>, tx: &TxId, column: usize) -> Result<(), TextFault>
    ensures value { result ≡ in_order last tx.now column }
    ensures column { IfErr result (λ fault. fault.column ≡ column) }
{
    if is_above(last, tx) {
        return Ok(());
    }
    refused(column, SchedCause::Order)
}

// The identifier that a word is, behind the last one.
fn tx_above(last: Option<TxId>, word: &[u8], column: usize) -> Result<TxId, TextFault>
    ensures value { result ≡ tx_above last word.now column }
    ensures column { IfErr result (λ fault. fault.column ≡ column) }
{
    let tx = tx_of(word, column)?;
    in_order(last, &tx, column)?;
    Ok(tx)
}

// 1 to 64 identifiers with commas between them, ascending.
fn txs_of(word: &[u8], column: usize) -> Result<Seen, TextFault>
    requires { column + length word.now < 2 ^ 64 }
    ensures value { result ≡ txs_of word.now column }
    ensures column { IfErr result (λ fault. fault.column ≤ column + length word.now) }
{
    let mut seen: Seen = BoundedList::new();
    let mut last = None;
    let mut at = 0;
    while at <= word.len() {
        let start = at + column;
        if seen.len() >= MOST_SEEN {
            return refused(start, SchedCause::Range);
        }
        let part = part_at(b',', at, word);
        let tx = tx_above(last, part, start)?;
        seen.push(tx);
        last = Some(tx);
        at += part.len() + 1;
    }
    Ok(seen)
}

/// What a reader saw: `-`, or 1 to 64 identifiers with commas between them, ascending.
pub fn seen_in(word: &[u8], column: usize) -> Result<Seen, TextFault>
    requires { column + length word.now < 2 ^ 64 }
    ensures value { result ≡ seen_in word.now column }
    ensures column { IfErr result (λ fault. fault.column ≤ column + length word.now) }
{
    if text_eq(word, b"-") {
        return Ok(BoundedList::new());
    }
    txs_of(word, column)
}

/// A version.
pub fn version_in(word: &[u8], column: usize) -> Result<u64, TextFault>
    ensures value { result ≡ version_in word.now column }
    ensures column { IfErr result (λ fault. fault.column ≡ column) }
{
    natural_of(word, column, 0, u64::MAX)
}
