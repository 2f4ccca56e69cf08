//! A sample: the schedule of a shop is made and replayed, and the numbers of the replay are printed.
ghost use Rattle.std.specs.Prelude.{◌≡◌, ◌≢◌, ◌++◌, ◌+◌, [], IfOk, IsErrOf, IsTrue, OnOk};
ghost use Rattle.std.specs.Bool.{OnFalse, OnTrue};
ghost use Rattle.std.specs.Io.KnownBytes.{Appends};
ghost use Rattle.std.specs.String.{string_bytes};
ghost use Rattle.mdcc_base.specs.Causes.{Rose};
ghost use Rattle.mdcc_sample.specs.Shop.{IsShop};
ghost use Rattle.mdcc_sample.specs.Texts.{sample_text};
ghost use Rattle.mdcc_def_simulation.specs.Replay.{Replay, output_of, replay_of};
ghost use Rattle.mdcc_def_simulation.specs.State.{World as AWorld};
ghost use Rattle.mdcc_command_replay.specs.Runs.{is_own_status, is_status, own_line};
ghost use Rattle.mdcc_command_replay.specs.Samples.{EndsAs, IsReplayTold, endings_text, numbers_of, sample_numbers_text, sample_of, shop_text, told_in, traffic_text};
ghost use Rattle.mdcc_command_replay.specs.Writing.{Front, Replayed, Tells};

use crate::command::finish;
use crate::reports::{Ended, replay_to_end};
use crate::writing::write_text;
use crate::{Failure, Refusal, Simulation};
use mdcc_base::{Failed, Memory, Sink};
use mdcc_def_language::Line;
use mdcc_sample::sample_text;
use std::alloc::{AllocError, Global};

/// What a replay comes to: how many transactions were begun, committed, aborted and did neither, how
/// many reads were made and how many messages sent.
#[derive(Clone, Copy, Default)]
pub struct Numbers {
    pub begun: u64,
    pub commits: u32,
    pub aborts: u32,
    pub undecided: u32,
    pub reads: usize,
    pub messages: u32,
}

/// What is told of a replay: the two lines, or why it ended early.
#[derive(Drop)]
enum Told {
    Lines(String),
    Refused(Refusal),
}

/// A sink that keeps nothing and never fails.
#[derive(Drop)]
struct Unkept;

impl Sink for Unkept {
    ghost use Rattle.std.specs.Prelude.{None};

    ghost held = { λ _. None };

    ghost faults = { λ _. 0 };

    fn write(&mut self, from: &[u8]) -> Result<usize, Failed> {
        Ok(from.len())
    }
}

// How many transactions were begun, by how many ended in each way.
fn begun_of(commits: u32, aborts: u32, undecided: u32) -> u64
    ensures { result ≡ commits + aborts + undecided }
{
    u64::from(commits) + u64::from(aborts) + u64::from(undecided)
}

// The numbers of a world.
fn numbers_of<W: Simulation>(world: &W) -> Numbers
    ensures { (w : AWorld) → W.stands world.now w → result ≡ numbers_of w }
{
    let Line::End {
        events: _,
        messages,
        commits,
        aborts,
        undecided,
    } = world.last_line()
    else {
        return Numbers::default();
    };
    Numbers {
        begun: begun_of(commits, aborts, undecided),
        commits,
        aborts,
        undecided,
        reads: world.reads(),
        messages,
    }
}

// Adds the line that names a shop.
fn write_shop(seed: u64, items: u32, orders: u32, text: &mut String) -> Result<(), AllocError>
    ensures { OnOk result (string_bytes text.new ≡ string_bytes text.old ++ shop_text seed items orders) }
{
    write!(text, "sample {seed} {items} {orders}\n")
}

// Adds how the transactions ended.
fn write_endings(numbers: &Numbers, text: &mut String) -> Result<(), AllocError>
    ensures { OnOk result (string_bytes text.new ≡ string_bytes text.old ++ endings_text numbers.now) }
{
    let begun = numbers.begun;
    let commits = numbers.commits;
    let aborts = numbers.aborts;
    let undecided = numbers.undecided;
    write!(
        text,
        "begun {begun} commits {commits} aborts {aborts} open {undecided}"
    )
}

// Adds what was read and sent.
fn write_traffic(numbers: &Numbers, text: &mut String) -> Result<(), AllocError>
    ensures { OnOk result (string_bytes text.new ≡ string_bytes text.old ++ traffic_text numbers.now) }
{
    let reads = numbers.reads;
    let messages = numbers.messages;
    write!(text, " reads {reads} messages {messages}\n")
}

// Adds the line of the numbers.
fn write_numbers(numbers: &Numbers, text: &mut String) -> Result<(), AllocError>
    ensures { OnOk result (string_bytes text.new ≡ string_bytes text.old ++ sample_numbers_text numbers.now) }
{
    write_endings(numbers, text)?;
    write_traffic(numbers, text)
}

// The two lines.
fn lines_of(
    alloc: Global,
    seed: u64,
    items: u32,
    orders: u32,
    numbers: &Numbers,
) -> Result<String, AllocError>
    ensures { IfOk result (λ text. string_bytes text ≡ shop_text seed items orders ++ sample_numbers_text numbers.now) }
{
    let mut text = String::new(alloc);
    write_shop(seed, items, orders, &mut text)?;
    write_numbers(numbers, &mut text)?;
    Ok(text)
}

// Makes the schedule and replays it.
fn replay_sample<W: Simulation + Drop>(
    alloc: Global,
    seed: u64,
    items: u32,
    orders: u32,
) -> Result<Ended<W>, Memory>
    requires { IsShop items orders }
    ensures { IfOk result (λ end. EndsAs W.stands (replay_of (sample_text seed items orders)) end) }
{
    let text = sample_text(alloc, seed, items, orders)?;
    match replay_to_end::<W, Unkept>(alloc, text.as_slice(), &mut Unkept) {
        Ok(end) => Ok(end),
        Err(_) => Err(Memory),
    }
}

// What is told of a replay that ended so.
fn told_by<W: Simulation + Drop>(
    alloc: Global,
    seed: u64,
    items: u32,
    orders: u32,
    end: Ended<W>,
) -> Result<Told, Memory>
    ensures { (whole : Replay) → EndsAs W.stands whole end → IfOk result (IsReplayTold (told_in seed items orders whole)) }
{
    match end {
        Ended::Whole(world) => {
            let numbers = numbers_of(&world);
            let text = lines_of(alloc, seed, items, orders, &numbers)?;
            Ok(Told::Lines(text))
        }
        Ended::Early(refusal) => Ok(Told::Refused(refusal)),
    }
}

// What is told of a sample.
fn told_of<W: Simulation + Drop>(
    alloc: Global,
    seed: u64,
    items: u32,
    orders: u32,
) -> Result<Told, Memory>
    requires { IsShop items orders }
    ensures { IfOk result (IsReplayTold (sample_of seed items orders)) }
{
    let end = replay_sample::<W>(alloc, seed, items, orders)?;
    told_by(alloc, seed, items, orders, end)
}

// Makes the schedule, replays it and prints the two lines.
fn print_sample<W: Simulation + Drop, O: Sink>(
    alloc: Global,
    seed: u64,
    items: u32,
    orders: u32,
    out: &mut O,
) -> Result<Option<Refusal>, Failure>
    requires { IsShop items orders }
    ensures written { Replayed (O.held out.old) (O.held out.new) (sample_of seed items orders) result }
    ensures failed { IsErrOf result Failure.Output → Rose (O.faults out.old) (O.faults out.new) }
{
    match told_of::<W>(alloc, seed, items, orders) {
        Ok(Told::Lines(text)) => {
            write_text(out, text.as_bytes())?;
            Ok(None)
        }
        Ok(Told::Refused(refusal)) => Ok(Some(refusal)),
        Err(_) => Err(Failure::Memory),
    }
}

/// Replays the schedule of a shop, and prints the numbers of the replay.
pub fn run_sample<W: Simulation + Drop, O: Sink, E: Sink>(
    alloc: Global,
    seed: u64,
    items: u32,
    orders: u32,
    out: &mut O,
    err: &mut E,
) -> u8
    requires { IsShop items orders }
    ensures words { result ≢ 2 }
    ensures input { result ≢ 5 }
    ensures status { IsTrue (is_status result) }
    ensures whole { let output = output_of (sample_of seed items orders) in
        OnFalse (is_own_status result) ((result ≡ output.status) × Appends (O.held out.old) (O.held out.new) output.text) }
    ensures front { Front (O.held out.old) (O.held out.new) (sample_of seed items orders).text }
    ensures refused { result ≡ 3 → Appends (O.held out.old) (O.held out.new) [] }
    ensures write { result ≡ 6 → Rose (O.faults out.old) (O.faults out.new) }
    ensures quiet { result ≡ 0 → Appends (E.held err.old) (E.held err.new) [] }
    ensures own { OnTrue (is_own_status result) (Tells (E.held err.old) (E.held err.new) (E.faults err.old) (E.faults err.new) (own_line result)) }
    ensures line { OnFalse (is_own_status result)
        (Tells (E.held err.old) (E.held err.new) (E.faults err.old) (E.faults err.new) (output_of (sample_of seed items orders)).error) }
{
    let printed = print_sample::<W, O>(alloc, seed, items, orders, out);
    finish(alloc, printed, err)
}
