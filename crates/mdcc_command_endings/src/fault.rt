//! Why a command over a configuration ended early.
ghost use Rattle.std.specs.Prelude.{◌≡◌, ◌≢◌};
ghost use Rattle.mdcc_command_endings.specs.Endings.{boot_status, config_status, failure_status, input_status, log_status};
ghost use Rattle.mdcc_command_endings.specs.declared.fault.Failure.TheVariants as failures;

use mdcc_base::{Centre, ReadAllFault};
use mdcc_config::ConfigFault;
use mdcc_def_rules::BootFault;
use mdcc_log::LogFault;

/// Why a command over a configuration ended early.
#[derive(Debug, Drop)]
pub enum Failure {
    /// The input was not read.
    Input(ReadAllFault),
    /// The configuration is refused.
    Config(ConfigFault),
    /// No centre of the configuration has this number.
    Centre,
    /// The log of this centre was not opened, or not appended to.
    Log(Centre, LogFault),
    /// The log of this centre gives no node.
    Boot(Centre, BootFault),
    /// A bind or a receive of the link failed.
    Link,
    /// The serials of datagrams are used up.
    Serial,
    /// A write to the output failed.
    Output,
    /// There was no memory.
    Memory,
}

impl From<ReadAllFault> for Failure {
    ghost from_gives = { λ fault e. e ≡ failures.Input fault };

    fn from(fault: ReadAllFault) -> Failure {
        Failure::Input(fault)
    }
}

impl From<ConfigFault> for Failure {
    ghost from_gives = { λ fault e. e ≡ failures.Config fault };

    fn from(fault: ConfigFault) -> Failure {
        Failure::Config(fault)
    }
}

// The status of an input that was not read.
fn input_status(fault: ReadAllFault) -> u8
    ensures value { result ≡ input_status fault }
    ensures some { result ≢ 0 }
{
    match fault {
        ReadAllFault::Failed => 5,
        ReadAllFault::TooLong => 11,
        ReadAllFault::Memory => 10,
    }
}

// The status of a configuration that is refused.
fn config_status(fault: &ConfigFault) -> u8
    ensures value { result ≡ config_status fault.now }
    ensures some { result ≢ 0 }
{
    match fault {
        ConfigFault::Memory => 10,
        _ => 3,
    }
}

// The status of a log that was not opened, or not appended to.
fn log_status(fault: LogFault) -> u8
    ensures value { result ≡ log_status fault }
    ensures some { result ≢ 0 }
{
    match fault {
        LogFault::DiskFault => 7,
        LogFault::NotALog(_) => 9,
        LogFault::LogFull => 11,
        LogFault::Memory => 10,
    }
}

// The status of a log that gives no node.
fn boot_status(fault: BootFault) -> u8
    ensures value { result ≡ boot_status fault }
    ensures some { result ≢ 0 }
{
    match fault {
        BootFault::Epochs => 12,
        BootFault::NotARun(_) => 9,
        BootFault::Room { .. } => 11,
        BootFault::Memory => 10,
    }
}

impl Failure {
    /// The status that the program ends with.
    pub(crate) fn status(&self) -> u8
        ensures value { result ≡ failure_status self.now }
        ensures some { result ≢ 0 }
    {
        match self {
            Failure::Input(fault) => input_status(*fault),
            Failure::Config(fault) => config_status(fault),
            Failure::Centre => 3,
            Failure::Log(_, fault) => log_status(*fault),
            Failure::Boot(_, fault) => boot_status(*fault),
            Failure::Link => 8,
            Failure::Serial => 11,
            Failure::Output => 6,
            Failure::Memory => 10,
        }
    }
}
