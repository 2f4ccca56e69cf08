//! Which configuration an input has.
ghost use Rattle.std.specs.Prelude.{◌≡◌, ◌≤◌, IfErr, IfOk, IfSome, IsErrOf, None, false, length, true};
ghost use Rattle.mdcc_base.specs.Causes.{Rose};
ghost use Rattle.mdcc_base.specs.declared.source.ReadAllFault.{ReadAllFault as AReadAllFault};
ghost use Rattle.mdcc_config.specs.IsConfig.{IsConfig};
ghost use Rattle.mdcc_command_endings.specs.Readings.{GivesConfig, IsOfInput};
ghost use Rattle.mdcc_command_endings.specs.declared.fault.Failure.{Failure as AFailure};
ghost use Rattle.mdcc_def_language.specs.Errors.{most_input};
ghost use Rattle.mdcc_def_protocol.specs.Belongs.{is_centre};

use crate::Failure;
use mdcc_base::{Centre, Source, read_all};
use mdcc_config::{Config, read_config};
use std::alloc::Global;

// The configuration that a text is.
fn config_in(alloc: Global, text: &[u8]) -> Result<Config, Failure>
    requires { length text.now ≤ most_input }
    ensures config { GivesConfig text.now result }
    ensures meets { IfOk result IsConfig }
    ensures of_input { IfErr result IsOfInput }
    ensures read { IsErrOf result (AFailure.Input AReadAllFault.Failed) → ⊥ }
{
    match read_config(alloc, text) {
        Ok(config) => Ok(config),
        Err(fault) => Err(Failure::Config(fault)),
    }
}

/// The configuration that a source gives.
pub fn config_from<S: Source>(alloc: Global, source: &mut S) -> Result<Config, Failure>
    ensures config { IfSome (S.left source.old) (λ input. GivesConfig input result) }
    ensures meets { IfOk result IsConfig }
    ensures of_input { IfErr result IsOfInput }
    ensures failed { IsErrOf result (AFailure.Input AReadAllFault.Failed) → Rose (S.faults source.old) (S.faults source.new) }
{
    match read_all(alloc, source) {
        Ok(text) => config_in(alloc, text.as_slice()),
        Err(fault) => Err(Failure::Input(fault)),
    }
}

/// The centre of a number, where the configuration has it.
pub fn centre_of(config: &Config, number: u32) -> Option<Centre>
    requires { IsConfig config.now }
    ensures some { IfSome result (λ centre. (centre ≡ number) × (is_centre config.now.cluster number ≡ true)) }
    ensures among { IfSome result (λ centre. centre ≤ config.now.cluster.quorums.centres) }
    ensures none { result ≡ None → is_centre config.now.cluster number ≡ false }
{
    if number > u32::from(config.cluster.quorums.centres()) {
        return None;
    }
    Centre::new(number as u8)
}
