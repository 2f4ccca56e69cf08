//! How a history is printed.
ghost use Rattle.std.specs.Prelude.{◌≡◌, ◌++◌, flat_map, OnOk, OnErr};
ghost use Rattle.std.specs.String.{string_bytes};
ghost use Rattle.mdcc_def_language.specs.Report.{body_text, byte_text, values_text};
ghost use Rattle.mdcc_sched.specs.Texts.{more_values_text};
ghost use Rattle.mdcc_sched_words.specs.Spelled.{amount_text};
ghost use Rattle.mdcc_check_print.specs.Text.{amounts_text, bound_text, commit_text, history_header_text, history_line_text, history_shown_text, history_update_text, history_words_text, key_version_text, more_txs_text, part_text, read_text, seen_text, written_text};
ghost use Rattle.mdcc_check_print.specs.Writing.{more_amounts_text};

use mdcc_base::{Key, Memory, TxId};
use mdcc_check::HistoryLine;
use mdcc_option::{Item, Known, Part, Schema, Token, Update};
use std::alloc::AllocError;

// Adds a byte as two digits.
#[tactic(auto, using(std::proofs::lemmas::Fmt::hex_byte))]
fn write_byte(byte: u8, text: &mut String) -> Result<(), AllocError>
    ensures { OnOk result (string_bytes text.new ≡ string_bytes text.old ++ byte_text byte) }
{
    write!(text, "{byte:02x}")
}

// Adds the bytes of a body.
fn write_body_bytes(body: &[u8], text: &mut String) -> Result<(), AllocError>
    ensures { OnOk result (string_bytes text.new ≡ string_bytes text.old ++ flat_map byte_text body.now) }
{
    for byte in body {
        write_byte(*byte, text)?;
    }
    Ok(())
}

// Adds a body.
#[tactic(auto, using(mdcc_sched::proofs::ValueTexts::body_bytes))]
fn write_body(body: &[u8], text: &mut String) -> Result<(), AllocError>
    ensures { OnOk result (string_bytes text.new ≡ string_bytes text.old ++ body_text body.now) }
{
    if body.is_empty() {
        write!(text, "-")?;
    } else {
        write_body_bytes(body, text)?;
    }
    Ok(())
}

// Adds values, each behind a comma.
fn write_more_values(values: &[i64], text: &mut String) -> Result<(), AllocError>
    ensures { OnOk result (string_bytes text.new ≡ string_bytes text.old ++ more_values_text values.now) }
{
    for value in values {
        write!(text, ",{value}")?;
    }
    Ok(())
}

// Adds values with commas between them.
fn write_values(values: &[i64], text: &mut String) -> Result<(), AllocError>
    ensures { OnOk result (string_bytes text.new ≡ string_bytes text.old ++ values_text values.now) }
{
    if let Some((first, others)) = values.split_first() {
        write!(text, "{first}")?;
        write_more_values(others, text)?;
    }
    Ok(())
}

// Adds identifiers, each behind a comma.
fn write_more_txs(txs: &[TxId], text: &mut String) -> Result<(), AllocError>
    ensures { OnOk result (string_bytes text.new ≡ string_bytes text.old ++ more_txs_text txs.now) }
{
    for tx in txs {
        write!(text, ",{tx}")?;
    }
    Ok(())
}

// Adds what a reader saw.
fn write_seen(seen: &[TxId], text: &mut String) -> Result<(), AllocError>
    ensures { OnOk result (string_bytes text.new ≡ string_bytes text.old ++ seen_text seen.now) }
{
    match seen.split_first() {
        Some((first, others)) => {
            write!(text, "{first}")?;
            write_more_txs(others, text)?;
        }
        None => write!(text, "-")?,
    }
    Ok(())
}

// Adds an attribute and its amount.
fn write_amount(amount: (u8, i64), text: &mut String) -> Result<(), AllocError>
    ensures { OnOk result (string_bytes text.new ≡ string_bytes text.old ++ amount_text amount) }
{
    let (attribute, value) = amount;
    write!(text, "{attribute}={value}")
}

// Adds amounts, each behind a comma.
fn write_more_amounts(amounts: &[(u8, i64)], text: &mut String) -> Result<(), AllocError>
    ensures { OnOk result (string_bytes text.new ≡ string_bytes text.old ++ more_amounts_text amounts.now) }
{
    for amount in amounts {
        write!(text, ",")?;
        write_amount(*amount, text)?;
    }
    Ok(())
}

// Adds amounts with commas between them.
fn write_amounts(amounts: &[(u8, i64)], text: &mut String) -> Result<(), AllocError>
    ensures { OnOk result (string_bytes text.new ≡ string_bytes text.old ++ amounts_text amounts.now) }
{
    if let Some((first, others)) = amounts.split_first() {
        write_amount(*first, text)?;
        write_more_amounts(others, text)?;
    }
    Ok(())
}

// Adds a key and a version, each before a colon.
fn write_place(key: &Key, version: u64, text: &mut String) -> Result<(), AllocError>
    ensures { OnOk result (string_bytes text.new ≡ string_bytes text.old ++ key_version_text key.now version) }
{
    write!(text, "{key}:{version}:")
}

// Adds an item behind what its writer saw.
fn write_written(item: &Item, seen: &[TxId], text: &mut String) -> Result<(), AllocError>
    ensures { OnOk result (string_bytes text.new ≡ string_bytes text.old ++ written_text item.now seen.now) }
{
    write_seen(seen, text)?;
    write!(text, ":")?;
    write_body(item.body.as_slice(), text)?;
    write!(text, ":")?;
    write_values(item.values.as_slice(), text)?;
    Ok(())
}

// Adds an update word.
fn write_update(
    key: &Key,
    version: u64,
    update: &Update,
    text: &mut String,
) -> Result<(), AllocError>
    ensures { OnOk result (string_bytes text.new ≡ string_bytes text.old ++ history_update_text key.now version update.now) }
{
    match update {
        Update::Write(item, seen) => {
            write!(text, "write:")?;
            write_place(key, version, text)?;
            write_written(item, seen.as_slice(), text)?;
        }
        Update::Add(amounts) => {
            write!(text, "add:")?;
            write_place(key, version, text)?;
            write_amounts(amounts.as_slice(), text)?;
        }
    }
    Ok(())
}

// Adds the updates of a transaction.
fn write_parts(parts: &[Part], text: &mut String) -> Result<(), AllocError>
    ensures { OnOk result (string_bytes text.new ≡ string_bytes text.old ++ flat_map part_text parts.now) }
{
    for part in parts {
        write!(text, " ")?;
        write_update(&part.key, part.version, &part.update, text)?;
    }
    Ok(())
}

// `commit`
fn write_commit(tx: &TxId, parts: &[Part], text: &mut String) -> Result<(), AllocError>
    ensures { OnOk result (string_bytes text.new ≡ string_bytes text.old ++ commit_text tx.now parts.now) }
{
    write!(text, "commit {tx}")?;
    write_parts(parts, text)
}

// Adds what a read showed of its key, behind a space.
fn write_shown(token: &Token, item: &Option<Item>, text: &mut String) -> Result<(), AllocError>
    ensures { OnOk result (string_bytes text.new ≡ string_bytes text.old ++ history_shown_text token.now.version token.now.seen item.now) }
{
    match item {
        Some(item) => {
            let version = token.version;
            write!(text, " {version} ")?;
            write_seen(token.seen.as_slice(), text)?;
            write!(text, " ")?;
            write_body(item.body.as_slice(), text)?;
            write!(text, " ")?;
            write_values(item.values.as_slice(), text)
        }
        None => write!(text, " 0"),
    }
}

// `read`
fn write_read(known: &Known, text: &mut String) -> Result<(), AllocError>
    ensures { OnOk result (string_bytes text.new ≡ string_bytes text.old ++ read_text known.now) }
{
    let key = known.key;
    write!(text, "read {key}")?;
    write_shown(&known.token, &known.item, text)
}

// Adds a line without its line end.
fn write_words(line: &HistoryLine, text: &mut String) -> Result<(), AllocError>
    ensures { OnOk result (string_bytes text.new ≡ string_bytes text.old ++ history_words_text line.now) }
{
    match line {
        HistoryLine::Commit(tx, transaction) => write_commit(tx, transaction.parts(), text),
        HistoryLine::Read(known) => write_read(known, text),
    }
}

/// Adds the text of a line of a history, with its line end. Without memory nothing is added.
pub fn print_line(line: &HistoryLine, out: &mut Vec<u8>) -> Result<(), Memory>
    ensures ok { OnOk result (out.new.items ≡ out.old.items ++ history_line_text line.now) }
    ensures err { OnErr result (out.new.items ≡ out.old.items) }
{
    let mut text = String::new(*out.allocator());
    write_words(line, &mut text)?;
    write!(text, "\n")?;
    out.extend_from_slice(text.as_bytes())?;
    Ok(())
}

// Adds lines `bound`.
fn write_bounds(bounds: &[(i64, i64)], text: &mut String) -> Result<(), AllocError>
    ensures { OnOk result (string_bytes text.new ≡ string_bytes text.old ++ flat_map bound_text bounds.now) }
{
    for pair in bounds {
        let (lower, upper) = pair;
        write!(text, "bound {lower} {upper}\n")?;
    }
    Ok(())
}

/// Adds the header of a history. Without memory nothing is added.
pub fn print_header(schema: &Schema, out: &mut Vec<u8>) -> Result<(), Memory>
    ensures ok { OnOk result (out.new.items ≡ out.old.items ++ history_header_text schema.now) }
    ensures err { OnErr result (out.new.items ≡ out.old.items) }
{
    let mut text = String::new(*out.allocator());
    write!(text, "mdcc-history 1\n")?;
    write_bounds(schema.bounds(), &mut text)?;
    write!(text, "start\n")?;
    out.extend_from_slice(text.as_bytes())?;
    Ok(())
}
