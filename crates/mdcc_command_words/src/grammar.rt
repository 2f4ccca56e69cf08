//! The words that the program takes, as one level of subcommands with positional words.
ghost use Rattle.std.specs.Prelude.{◌≡◌, IfOk, false};
ghost use Rattle.clap.specs.Words.{app_of, rule_of, with_rule};
ghost use Rattle.mdcc_command_words.specs.Grammar.{ask, audit, bare, check, cluster, dump, grammar, node, positional, program, replay, sample, words_rule};

use clap::{Arg, ArgAction, Command};
use std::alloc::{AllocError, Global};

// A word that a command needs.
fn positional<'a>(alloc: Global, name: &'a str) -> Arg<'a>
    ensures rule { rule_of result ≡ positional name.entry.now }
    ensures local { result.global ≡ false }
{
    Arg::new(alloc, name).required(true).action(ArgAction::Set)
}

// A command without options.
fn bare<'a>(alloc: Global, name: &'a str) -> Command<'a>
    ensures { app_of result ≡ bare name.entry.now }
{
    Command::new(alloc, name).disable_help_flag(true)
}

// The command with one more word.
fn with_word<'a>(
    alloc: Global,
    command: Command<'a>,
    name: &'a str,
) -> Result<Command<'a>, AllocError>
    ensures { IfOk result (λ r. app_of r ≡ with_rule (app_of command.entry) (positional name.entry.now)) }
{
    command.arg(positional(alloc, name))
}

// `sample SEED ITEMS ORDERS`
fn sample<'a>(alloc: Global) -> Result<Command<'a>, AllocError>
    ensures { IfOk result (λ r. app_of r ≡ sample) }
{
    let command = with_word(alloc, bare(alloc, "sample"), "seed")?;
    let command = with_word(alloc, command, "items")?;
    with_word(alloc, command, "orders")
}

// `node K TURNS`
fn node<'a>(alloc: Global) -> Result<Command<'a>, AllocError>
    ensures { IfOk result (λ r. app_of r ≡ node) }
{
    let command = with_word(alloc, bare(alloc, "node"), "centre")?;
    with_word(alloc, command, "turns")
}

// `cluster TURNS`
fn cluster<'a>(alloc: Global) -> Result<Command<'a>, AllocError>
    ensures { IfOk result (λ r. app_of r ≡ cluster) }
{
    with_word(alloc, bare(alloc, "cluster"), "turns")
}

// `dump K`
fn dump<'a>(alloc: Global) -> Result<Command<'a>, AllocError>
    ensures { IfOk result (λ r. app_of r ≡ dump) }
{
    with_word(alloc, bare(alloc, "dump"), "centre")
}

// One to sixteen words.
fn words<'a>(alloc: Global) -> Arg<'a>
    ensures rule { rule_of result ≡ words_rule }
    ensures local { result.global ≡ false }
{
    positional(alloc, "words")
        .action(ArgAction::Append)
        .num_args(1..=16)
}

// `ask K TURNS SERIAL WORD..`
fn ask<'a>(alloc: Global) -> Result<Command<'a>, AllocError>
    ensures { IfOk result (λ r. app_of r ≡ ask) }
{
    let command = with_word(alloc, bare(alloc, "ask"), "centre")?;
    let command = with_word(alloc, command, "turns")?;
    let command = with_word(alloc, command, "serial")?;
    command.arg(words(alloc))
}

// One of the commands has to come.
fn program<'a>(alloc: Global) -> Command<'a>
    ensures { app_of result ≡ program }
{
    Command::new(alloc, "mdcc")
        .no_binary_name(true)
        .disable_help_flag(true)
        .disable_help_subcommand(true)
        .subcommand_required(true)
}

/// All that the program takes.
pub(crate) fn grammar<'a>(alloc: Global) -> Result<Command<'a>, AllocError>
    ensures { IfOk result (λ r. app_of r ≡ grammar) }
{
    program(alloc)
        .subcommand(bare(alloc, "replay"))?
        .subcommand(sample(alloc)?)?
        .subcommand(node(alloc)?)?
        .subcommand(cluster(alloc)?)?
        .subcommand(ask(alloc)?)?
        .subcommand(dump(alloc)?)?
        .subcommand(bare(alloc, "check"))?
        .subcommand(bare(alloc, "audit"))
}
