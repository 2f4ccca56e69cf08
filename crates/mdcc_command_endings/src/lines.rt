//! Lines on the error stream.
ghost use Rattle.std.specs.Prelude.{◌≡◌, ◌++◌, Err, IfOk, OnOk};
ghost use Rattle.std.specs.String.{string_bytes};
ghost use Rattle.mdcc_def_language.specs.Errors.{error_line};
ghost use Rattle.mdcc_command_endings.specs.Endings.{boot_text, config_text, failure_text, input_text, log_text};

use crate::fault::Failure;
use mdcc_base::{Centre, LIMIT, ReadAllFault};
use mdcc_config::ConfigFault;
use mdcc_def_rules::BootFault;
use mdcc_log::{LOG_LIMIT, LogFault};
use std::alloc::{AllocError, Global};

// The name of a cause.
fn config_text(fault: &ConfigFault) -> &'static str
    ensures { result.now ≡ config_text fault.now }
{
    match fault {
        ConfigFault::Json => "config: Json",
        ConfigFault::Member(_) => "config: Member",
        ConfigFault::Kind(_) => "config: Kind",
        ConfigFault::Range(_) => "config: Range",
        ConfigFault::Quorums(_) => "config: Quorums",
        ConfigFault::Schema(_) => "config: Schema",
        ConfigFault::Address(_) => "config: Address",
        ConfigFault::Memory => "memory",
    }
}

// Adds why an input was not read.
fn write_input(fault: ReadAllFault, text: &mut String) -> Result<(), AllocError>
    ensures { OnOk result (string_bytes text.new ≡ string_bytes text.old ++ input_text fault) }
{
    match fault {
        ReadAllFault::Failed => write!(text, "input failed"),
        ReadAllFault::TooLong => write!(text, "limit input {LIMIT}"),
        ReadAllFault::Memory => write!(text, "memory"),
    }
}

// Adds why the log of a centre was not opened, or not appended to.
fn write_log(centre: Centre, fault: LogFault, text: &mut String) -> Result<(), AllocError>
    ensures { OnOk result (string_bytes text.new ≡ string_bytes text.old ++ log_text centre fault) }
{
    match fault {
        LogFault::DiskFault => write!(text, "disk {centre} failed"),
        LogFault::NotALog(offset) => write!(text, "log {centre}: NotALog {offset}"),
        LogFault::LogFull => write!(text, "limit log {LOG_LIMIT}"),
        LogFault::Memory => write!(text, "memory"),
    }
}

// Adds why the log of a centre gives no node.
fn write_boot(centre: Centre, fault: BootFault, text: &mut String) -> Result<(), AllocError>
    ensures { OnOk result (string_bytes text.new ≡ string_bytes text.old ++ boot_text centre fault) }
{
    match fault {
        BootFault::Epochs => write!(text, "epochs {centre}"),
        BootFault::NotARun(number) => write!(text, "log {centre}: NotARun {number}"),
        BootFault::Room { needed, .. } => write!(text, "limit cells {needed}"),
        BootFault::Memory => write!(text, "memory"),
    }
}

// Adds why a command ended.
fn write_failure(failure: &Failure, text: &mut String) -> Result<(), AllocError>
    ensures { OnOk result (string_bytes text.new ≡ string_bytes text.old ++ failure_text failure.now) }
{
    match failure {
        Failure::Input(fault) => write_input(*fault, text),
        Failure::Config(fault) => {
            let cause = config_text(fault);
            write!(text, "{cause}")
        }
        Failure::Centre => write!(text, "config: Centre"),
        Failure::Log(centre, fault) => write_log(*centre, *fault, text),
        Failure::Boot(centre, fault) => write_boot(*centre, *fault, text),
        Failure::Link => write!(text, "link failed"),
        Failure::Serial => {
            let last = u32::MAX;
            write!(text, "limit serial {last}")
        }
        Failure::Output => write!(text, "output failed"),
        Failure::Memory => write!(text, "memory"),
    }
}

impl Failure {
    /// The line on the error stream, with its line end.
    pub(crate) fn line(&self, alloc: Global) -> Result<String, AllocError>
        ensures { IfOk result (λ text. string_bytes text ≡ error_line (failure_text self.now)) }
    {
        let mut text = String::new(alloc);
        write!(text, "mdcc: ")?;
        write_failure(self, &mut text)?;
        write!(text, "\n")?;
        Ok(text)
    }
}
