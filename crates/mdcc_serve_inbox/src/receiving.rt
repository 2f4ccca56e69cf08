//! Receiving a datagram.
ghost use Rattle.std.specs.Prelude.{◌≡◌, ◌≤◌, IfOk, IfSome, None, OnErr};
ghost use Rattle.mdcc_base.specs.Causes.{HasCause};
ghost use Rattle.mdcc_serve_inbox.specs.Finds.{bytes_given};
ghost use Rattle.mdcc_serve_outbox.specs.Shows.{Records, call_of, failed_call};
ghost use Rattle.mdcc_def_server_runs.specs.Acts.{Act};

use mdcc_base::Failed;
use mdcc_link::{Link, Received};

/// A datagram has at most 1,400 bytes, so one that is longer is seen by its length.
pub type Datagram = [u8; 1401];

/// Receives once at an endpoint: how many bytes came, if a datagram did.
pub fn receive<L: Link>(
    link: &mut L,
    at: u8,
    datagram: &mut Datagram,
) -> Result<Option<usize>, Failed>
    ensures bound { IfOk result (λ count. IfSome count (λ n. n ≤ 1401)) }
    ensures received { IfOk result (λ count. Records (call_of (Act.Receive at (bytes_given count datagram.new))) (L.calls link.old) (L.calls link.new)) }
    ensures failed { OnErr result (Records (failed_call (Act.Receive at None)) (L.calls link.old) (L.calls link.new)) }
    ensures cause { HasCause (L.faults link.old) (L.faults link.new) result }
    ensures sends { L.lost link.new ≡ L.lost link.old }
{
    match link.receive(at, datagram) {
        Ok(Received::Got(count)) => Ok(Some(count)),
        Ok(Received::Nothing) => Ok(None),
        Err(fault) => Err(fault),
    }
}
