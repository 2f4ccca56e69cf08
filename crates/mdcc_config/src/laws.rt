//! What hosts are.
ghost use Rattle.mdcc_config.specs.Readings.{HostsAreDotted};

/// A text is read as a host if and only if it is that host in dotted decimal, without leading zeros.
pub fn hosts_are_dotted()
    ensures { HostsAreDotted }
{}
