//! The top call of the program where it serves centres, with its contract in the words of the headline for clusters.
#![tactic(auto)]

ghost use Rattle.std.specs.Prelude.{◌≡◌, List, Ok, Some, map, true, ℕ};
ghost use Rattle.std.specs.String.{string_bytes};
ghost use Rattle.mdcc_command_endings.specs.Readings.{IsConfigRead};
ghost use Rattle.mdcc_command_serve.specs.Commands.{AreToldAlike};
ghost use Rattle.mdcc_command_words.specs.Commands.{command_of};
ghost use Rattle.mdcc_command_words.specs.declared.words.Command.{Command};
ghost use Rattle.mdcc_config.specs.declared.config.Config.{Config};
ghost use Rattle.mdcc_def_protocol.specs.Belongs.{is_centre};
ghost use Rattle.mdcc_theorem_program_runs.specs.Runs.{RunServesCentre, RunServesCentres};

use mdcc_base::{Sink, Source};
use mdcc_command::run;
use mdcc_disks::Disks;
use mdcc_link::Link;
use std::alloc::Global;

/// `run`. With the words `node K TURNS`, over an input that is a configuration with a centre K, it is a call of `serve_node` as
/// `headline_of_calls` has it, or nothing was done outside; with `cluster TURNS` a call of `serve_cluster`. So the headline for clusters
/// speaks of runs of the program.
pub fn run_as_call<S: Source, O: Sink, E: Sink, D: Disks, L: Link>(
    alloc: Global,
    words: &[String],
    source: &mut S,
    out: &mut O,
    err: &mut E,
    disks: &mut D,
    link: &mut L,
) -> u8
    requires { AreToldAlike D.disk disks.old }
    ensures node { (centre turns : ℕ) (input : List ℕ) (config : Config) → command_of (map string_bytes words.now) ≡ Some (Command.Node centre turns)
        → S.left source.old ≡ Some input → IsConfigRead input (Ok config) → is_centre config.cluster centre ≡ true
        → RunServesCentre D.disk D.may_leave D.tears L.calls L.lost O.held config centre
        (record { turns = turns; disks_before = disks.old; disks_after = disks.new; link_before = link.old; link_after = link.new; out_before = out.old; out_after = out.new }) }
    ensures cluster { (turns : ℕ) (input : List ℕ) (config : Config) → command_of (map string_bytes words.now) ≡ Some (Command.Cluster turns)
        → S.left source.old ≡ Some input → IsConfigRead input (Ok config)
        → RunServesCentres D.disk D.may_leave D.tears L.calls L.lost O.held config
        (record { turns = turns; disks_before = disks.old; disks_after = disks.new; link_before = link.old; link_after = link.new; out_before = out.old; out_after = out.new }) }
{
    run(alloc, words, source, out, err, disks, link)
}
