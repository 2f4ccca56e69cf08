//! A fault of a log, as a server's.
ghost use Rattle.std.specs.Prelude.{◌≡◌};
ghost use Rattle.mdcc_serve_site.specs.LogEffects.{log_fault_of};

use crate::ServeFault;
use mdcc_base::Centre;
use mdcc_log::LogFault;

/// A fault of a log as a server's.
pub fn log_fault(centre: Centre, fault: LogFault) -> ServeFault
    ensures { result ≡ log_fault_of centre fault }
{
    match fault {
        LogFault::DiskFault => ServeFault::Disk(centre),
        LogFault::Memory => ServeFault::Memory,
        fault => ServeFault::Log(centre, fault),
    }
}
