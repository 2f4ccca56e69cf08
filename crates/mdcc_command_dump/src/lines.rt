//! The lines of a fact.
ghost use Rattle.std.specs.Prelude.{◌≡◌, ◌++◌, OnOk};
ghost use Rattle.std.specs.List.{flat_map};
ghost use Rattle.std.specs.String.{string_bytes};
ghost use Rattle.mdcc_command_dump.specs.Texts.{dumped_fact_lines, end_text, mark_line, mark_text};
ghost use Rattle.mdcc_def_messages.specs.declared.facts.Fact.{Fact as AFact};

use mdcc_base::{Ballot, Key, TxId};
use mdcc_def_messages::Fact;
use mdcc_option::{Mark, Outcome};
use mdcc_struct::Options;
use std::alloc::AllocError;

// The word of a mark.
fn mark_text(mark: &Mark) -> &'static str
    ensures { result.now ≡ mark_text mark.now }
{
    match mark {
        Mark::Accept(_) => "accept",
        Mark::Reject => "reject",
    }
}

// The word of how a transaction ended.
fn end_text(outcome: &Outcome) -> &'static str
    ensures { result.now ≡ end_text outcome.now }
{
    match outcome {
        Outcome::Commit(_) => "commit",
        Outcome::Abort => "abort",
    }
}

// Adds the line of a mark of a vote.
fn write_mark(
    number: u64,
    key: &Key,
    version: u64,
    ballot: &Ballot,
    tx: &TxId,
    mark: &Mark,
    text: &mut String,
) -> Result<(), AllocError>
    ensures { OnOk result (string_bytes text.new ≡ string_bytes text.old ++ mark_line number key.now version ballot.now (tx.now, mark.now)) }
{
    let mark = mark_text(mark);
    write!(text, "{number} voted {key} {version} ")?;
    write!(text, "{ballot} {tx} {mark}\n")
}

// Adds a line for each mark of a vote.
fn write_marks(
    number: u64,
    key: &Key,
    version: u64,
    ballot: &Ballot,
    options: &Options,
    text: &mut String,
) -> Result<(), AllocError>
    ensures { OnOk result (string_bytes text.new ≡ string_bytes text.old ++ flat_map (mark_line number key.now version ballot.now) options.now) }
{
    for index in 0..options.len() {
        let (tx, mark) = options.at(index);
        write_mark(number, key, version, ballot, &tx, mark, text)?;
    }
    Ok(())
}

// Adds the line of an outcome that was heard.
fn write_heard(
    number: u64,
    tx: &TxId,
    outcome: &Outcome,
    text: &mut String,
) -> Result<(), AllocError>
    ensures { OnOk result (string_bytes text.new ≡ string_bytes text.old ++ dumped_fact_lines number (AFact.Heard tx.now outcome.now)) }
{
    let end = end_text(outcome);
    write!(text, "{number} heard {tx} {end}\n")
}

/// Adds the lines of the fact of this number.
pub(crate) fn write_fact(number: u64, fact: &Fact, text: &mut String) -> Result<(), AllocError>
    ensures { OnOk result (string_bytes text.new ≡ string_bytes text.old ++ dumped_fact_lines number fact.now) }
{
    match fact {
        Fact::Booted(epoch) => write!(text, "{number} booted {epoch}\n"),
        Fact::Promised {
            key,
            low,
            high,
            ballot,
        } => write!(text, "{number} promised {key} {low} {high} {ballot}\n"),
        Fact::Voted {
            key,
            version,
            ballot,
            options,
            ..
        } => write_marks(number, key, *version, ballot, options, text),
        Fact::Heard { tx, outcome } => write_heard(number, tx, outcome, text),
        Fact::Adopted {
            key,
            version,
            adds,
            ..
        } => {
            let count = adds.len();
            write!(text, "{number} adopted {key} {version} adds {count}\n")
        }
        Fact::Floor { centre, epoch, seq } => {
            write!(text, "{number} floor {centre} {epoch} {seq}\n")
        }
    }
}
