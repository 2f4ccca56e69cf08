//! Lines of a report.
ghost use Rattle.std.specs.Prelude.{◌≡◌, ◌++◌, flat_map, OnOk, OnErr};
ghost use Rattle.std.specs.String.{string_bytes};
ghost use Rattle.mdcc_def_language.specs.Report.{byte_text, body_text, values_text, outcome_text, image_text, token_text, shown_text, begin_fault_text, words_text, line_text};
ghost use Rattle.mdcc_sched.specs.Texts.{centres_text, more_values_text};

use mdcc_base::{Centre, Image, Key, Memory, TxId};
use mdcc_def_language::Line;
use mdcc_option::{BeginFault, Item, Known, Token};
use std::alloc::AllocError;

// The word of an outcome.
fn outcome_text(is_commit: bool) -> &'static str
    ensures { result.now ≡ outcome_text is_commit }
{
    if is_commit { "commit" } else { "abort" }
}

// The word of an image.
fn image_text(image: &Image) -> &'static str
    ensures { result.now ≡ image_text image.now }
{
    match image {
        Image::Lost => "lost",
        Image::Kept => "kept",
        Image::Torn => "torn",
    }
}

// Adds a byte as two digits.
#[tactic(auto, using(std::proofs::lemmas::Fmt::hex_byte))]
fn write_byte(byte: u8, text: &mut String) -> Result<(), AllocError>
    ensures { OnOk result (string_bytes text.new ≡ string_bytes text.old ++ byte_text byte) }
{
    write!(text, "{byte:02x}")
}

// Adds the bytes of a body.
fn write_body_bytes(body: &[u8], text: &mut String) -> Result<(), AllocError>
    ensures { OnOk result
        (string_bytes text.new ≡ string_bytes text.old ++ flat_map byte_text body.now) }
{
    for byte in body {
        write_byte(*byte, text)?;
    }
    Ok(())
}

// Adds a body.
#[tactic(auto, using(crate::proofs::ValueTexts::body_bytes))]
fn write_body(body: &[u8], text: &mut String) -> Result<(), AllocError>
    ensures { OnOk result (string_bytes text.new ≡ string_bytes text.old ++ body_text body.now) }
{
    if body.is_empty() {
        write!(text, "-")?;
    } else {
        write_body_bytes(body, text)?;
    }
    Ok(())
}

// Adds values, each behind a comma.
fn write_more_values(values: &[i64], text: &mut String) -> Result<(), AllocError>
    ensures { OnOk result
        (string_bytes text.new ≡ string_bytes text.old ++ more_values_text values.now) }
{
    for value in values {
        write!(text, ",{value}")?;
    }
    Ok(())
}

// Adds values with commas between them.
fn write_values(values: &[i64], text: &mut String) -> Result<(), AllocError>
    ensures { OnOk result (string_bytes text.new ≡ string_bytes text.old ++ values_text values.now) }
{
    if let Some((first, others)) = values.split_first() {
        write!(text, "{first}")?;
        write_more_values(others, text)?;
    }
    Ok(())
}

// Adds what a reader saw.
fn write_token(token: &Token, text: &mut String) -> Result<(), AllocError>
    ensures { OnOk result (string_bytes text.new ≡ string_bytes text.old ++ token_text token.now) }
{
    let version = token.version;
    let seen = token.seen.len();
    write!(text, "version {version} seen {seen}")
}

// Adds what a read shows of its key.
fn write_shown(token: &Token, item: &Option<Item>, text: &mut String) -> Result<(), AllocError>
    ensures { OnOk result
        (string_bytes text.new ≡ string_bytes text.old ++ shown_text token.now item.now) }
{
    match item {
        Some(item) => {
            write_token(token, text)?;
            write!(text, " values ")?;
            write_values(item.values.as_slice(), text)?;
            write!(text, " body ")?;
            write_body(item.body.as_slice(), text)?;
        }
        None => {
            let version = token.version;
            write!(text, "version {version} none")?;
        }
    }
    Ok(())
}

// Adds why a transaction was not begun.
fn write_begin_fault(key: &Key, fault: &BeginFault, text: &mut String) -> Result<(), AllocError>
    ensures { OnOk result
        (string_bytes text.new ≡ string_bytes text.old ++ begin_fault_text key.now fault.now) }
{
    match fault {
        BeginFault::Stale(token) => {
            write!(text, "stale {key} ")?;
            write_token(token, text)?;
            Ok(())
        }
        BeginFault::Unseen(version) => write!(text, "unseen {key} version {version}"),
        BeginFault::NoItem => write!(text, "noitem {key}"),
        BeginFault::Sequence => write!(text, "sequence"),
        BeginFault::Busy => write!(text, "busy"),
        BeginFault::Memory => write!(text, "memory"),
    }
}

// `read`
fn write_read(
    number: u32,
    centre: Centre,
    known: &Known,
    text: &mut String,
) -> Result<(), AllocError>
    ensures { OnOk result
        (string_bytes text.new ≡ string_bytes text.old ++ words_text (Line.Read number centre known.now)) }
{
    let key = known.key;
    write!(text, "read {number} at {centre} {key} ")?;
    write_shown(&known.token, &known.item, text)?;
    Ok(())
}

// `begin refused`
fn write_refused(key: &Key, fault: &BeginFault, text: &mut String) -> Result<(), AllocError>
    ensures { OnOk result
        (string_bytes text.new ≡ string_bytes text.old ++ words_text (Line.Refused key.now fault.now)) }
{
    write!(text, "begin refused ")?;
    write_begin_fault(key, fault, text)?;
    Ok(())
}

// Adds centres, each behind a space.
fn write_centres(centres: &[Centre], text: &mut String) -> Result<(), AllocError>
    ensures { OnOk result (string_bytes text.new ≡ string_bytes text.old ++ centres_text centres.now) }
{
    for centre in centres {
        write!(text, " {centre}")?;
    }
    Ok(())
}

// `settle`
fn write_settle(centres: &[Centre], text: &mut String) -> Result<(), AllocError>
    ensures { OnOk result
        (string_bytes text.new ≡ string_bytes text.old ++ words_text (Line.Settle centres.now)) }
{
    write!(text, "settle")?;
    write_centres(centres, text)?;
    Ok(())
}

// `stop`
fn write_stop(centre: Centre, call: u8, image: &Image, text: &mut String) -> Result<(), AllocError>
    ensures { OnOk result
        (string_bytes text.new ≡ string_bytes text.old ++ words_text (Line.Stop centre call image.now)) }
{
    let image = image_text(image);
    write!(text, "stop {centre} {call} {image}")
}

// `chosen`
fn write_chosen(tx: &TxId, is_commit: bool, text: &mut String) -> Result<(), AllocError>
    ensures { OnOk result
        (string_bytes text.new ≡ string_bytes text.old ++ words_text (Line.Chosen tx.now is_commit)) }
{
    let outcome = outcome_text(is_commit);
    write!(text, "chosen {tx} {outcome}")
}

// `heard`
fn write_heard(
    centre: Centre,
    tx: &TxId,
    is_commit: bool,
    text: &mut String,
) -> Result<(), AllocError>
    ensures { OnOk result
        (string_bytes text.new ≡ string_bytes text.old ++ words_text (Line.Heard centre tx.now is_commit)) }
{
    let outcome = outcome_text(is_commit);
    write!(text, "heard {centre} {tx} {outcome}")
}

// Adds a line without its line end.
fn write_words(line: &Line, text: &mut String) -> Result<(), AllocError>
    ensures { OnOk result (string_bytes text.new ≡ string_bytes text.old ++ words_text line.now) }
{
    match line {
        Line::Read(number, centre, known) => write_read(*number, *centre, known, text),
        Line::Begun(tx, next) => write!(text, "begin {tx} next {next}"),
        Line::Refused(key, fault) => write_refused(key, fault, text),
        Line::Deliver(number, next) => write!(text, "deliver {number} next {next}"),
        Line::Settle(centres) => write_settle(centres.as_slice(), text),
        Line::Settled(count, next) => write!(text, "settled {count} next {next}"),
        Line::Tick(centre, next) => write!(text, "tick {centre} next {next}"),
        Line::Sweep(centre, next) => write!(text, "sweep {centre} next {next}"),
        Line::Crash(centre) => write!(text, "crash {centre}"),
        Line::Stop(centre, call, image) => write_stop(*centre, *call, image, text),
        Line::Restart(centre, epoch) => write!(text, "restart {centre} epoch {epoch}"),
        Line::Stopped(centre) => write!(text, "stopped {centre}"),
        Line::Dropped(centre, needed, spare) => {
            write!(text, "dropped {centre} needs {needed} spare {spare}")
        }
        Line::Chosen(tx, is_commit) => write_chosen(tx, *is_commit, text),
        Line::Heard(centre, tx, is_commit) => write_heard(*centre, tx, *is_commit, text),
        Line::End {
            events,
            messages,
            commits,
            aborts,
            undecided,
        } => {
            write!(
                text,
                "end events {events} messages {messages} commits {commits}"
            )?;
            write!(text, " aborts {aborts} open {undecided}")
        }
    }
}

/// Adds the text of a line of a report, with its line end. Without memory nothing is added.
pub fn print_line(line: &Line, out: &mut Vec<u8>) -> Result<(), Memory>
    ensures ok { OnOk result (out.new.items ≡ out.old.items ++ line_text line.now) }
    ensures err { OnErr result (out.new.items ≡ out.old.items) }
{
    let mut text = String::new(*out.allocator());
    write_words(line, &mut text)?;
    write!(text, "\n")?;
    out.extend_from_slice(text.as_bytes())?;
    Ok(())
}
