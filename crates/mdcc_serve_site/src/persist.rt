//! What is pending at a centre goes out.
ghost use Rattle.std.specs.List.{AllByRecursion};
ghost use Rattle.std.specs.Prelude.{◌≡◌, ◌∷◌, [], List, map, ℕ};
ghost use Rattle.mdcc_config.specs.IsConfig.{IsConfig};
ghost use Rattle.mdcc_def_messages.specs.Spelling.{fact_bytes};
ghost use Rattle.mdcc_def_messages.specs.declared.facts.Fact.{Fact as AFact};
ghost use Rattle.mdcc_def_messages.specs.declared.messages.Envelope.{Envelope as AEnvelope};
ghost use Rattle.mdcc_serve_outbox.specs.Outgoing.{CanGo, outgoing};
ghost use Rattle.mdcc_serve_outbox.specs.Sends.{IsSenderOf};
ghost use Rattle.mdcc_def_server_runs.specs.Acts.{Act};
ghost use Rattle.mdcc_def_server_runs.specs.Sending.{heard_printed, persist_then_send};
ghost use Rattle.mdcc_def_server_runs.specs.Sites.{Site as ASite, nothing_pending};
ghost use Rattle.mdcc_serve_site.specs.AnyMoment.{LeavesEither};
ghost use Rattle.mdcc_serve_site.specs.Causes.{of_print};
ghost use Rattle.mdcc_serve_site.specs.LogEffects.{AreShortFacts, Logs};
ghost use Rattle.mdcc_serve_site.specs.Logs.{with_facts};
ghost use Rattle.mdcc_serve_site.specs.Moments.{outside};
ghost use Rattle.mdcc_serve_site.specs.PendingBytes.{pending_bytes};
ghost use Rattle.mdcc_serve_site.specs.Printing.{PrintsInOrder};
ghost use Rattle.mdcc_serve_site.specs.SiteState.{Goes, HoldsLog, HoldsSite, IsServed, PrintsOut, SendsOut, place};

use crate::ServeFault;
use crate::logging::log_fault;
use crate::pending::{PendingBytes, nothing_pending};
use crate::site::Site;
use mdcc_base::{Centre, HeapList, Sink, TxId};
use mdcc_config::Config;
use mdcc_def_server_runs::ServerLine;
use mdcc_disks::Disks;
use mdcc_link::Link;
use mdcc_log::current_is_read;
use mdcc_node_log::persist;
use mdcc_serve_outbox::{Outgoing, PrintFault, print};
use std::alloc::Global;
use std::mem;

// A fault of a line as a server's.
fn print_fault(fault: PrintFault) -> ServeFault
    ensures { result ≡ of_print fault }
{
    match fault {
        PrintFault::Output => ServeFault::Output,
        PrintFault::Memory => ServeFault::Memory,
    }
}

/// Prints a line.
pub fn print_line<O: Sink>(alloc: Global, line: &ServerLine, out: &mut O) -> Result<(), ServeFault>
    ensures { PrintsOut O.held O.faults (Act.Print line.now ∷ []) result out.old out.new }
{
    match print(alloc, line, out) {
        Ok(()) => Ok(()),
        Err(fault) => Err(print_fault(fault)),
    }
}

// Prints the end of a transaction that was heard.
fn print_end<O: Sink>(
    alloc: Global,
    centre: Centre,
    heard: &(TxId, bool),
    out: &mut O,
) -> Result<(), ServeFault>
    ensures { PrintsOut O.held O.faults (heard_printed centre (heard.now ∷ [])) result out.old out.new }
{
    print_line(alloc, &ServerLine::Heard(centre, heard.0, heard.1), out)
}

// Prints the ends of transactions that were heard, in order.
fn print_heard<O: Sink>(
    alloc: Global,
    centre: Centre,
    heard: &[(TxId, bool)],
    out: &mut O,
) -> Result<(), ServeFault>
    ensures { PrintsInOrder O.held O.faults (heard_printed centre heard.now) result out.old out.new }
{
    for end in heard {
        print_end(alloc, centre, end, out)?;
    }
    Ok(())
}

impl Site {
    // What is pending, of which nothing stays.
    fn take_pending(&mut self, alloc: Global) -> PendingBytes
        ensures taken { result ≡ self.old.pending }
        ensures same { self.new ≡ record self.old { pending = pending_bytes nothing_pending } }
    {
        mem::replace(&mut self.pending, nothing_pending(alloc))
    }

    // Payloads of facts go into the log, all of them or none.
    fn log_all<D: Disks>(
        &mut self,
        disks: &mut D,
        payloads: &[HeapList<u8>],
    ) -> Result<(), ServeFault>
        requires short { AreShortFacts payloads.now }
        requires stands { (every : ℕ) × (before : List AFact) × HoldsLog D.disk D.may_leave every disks.old self.old.log self.old.centre before }
        ensures logs { (every : ℕ) (before facts : List AFact) → HoldsLog D.disk D.may_leave every disks.old self.old.log self.old.centre before → payloads.now ≡ map fact_bytes facts
            → Logs D.disk D.may_leave every self.old.centre before facts result disks.old disks.new self.new.log }
        ensures any_moment { (every : ℕ) (before facts : List AFact) → HoldsLog D.disk D.may_leave every disks.old self.old.log self.old.centre before → payloads.now ≡ map fact_bytes facts
            → LeavesEither D.disk D.moment D.left_since self.old.centre before (with_facts before facts) disks.old disks.new }
        ensures same { self.new ≡ record self.old { log = self.new.log } }
    {
        current_is_read();
        let _area = self.log.area();
        match persist(&mut self.log, disks, payloads) {
            Ok(()) => Ok(()),
            Err(fault) => Err(log_fault(self.centre, fault)),
        }
    }

    // Sends messages in order.
    fn send_all<L: Link>(
        &mut self,
        config: &Config,
        link: &mut L,
        messages: &[Outgoing],
    ) -> Result<(), ServeFault>
        requires config { IsConfig config.now }
        requires few { AllByRecursion CanGo messages.now }
        ensures sent { (site : ASite) (envelopes : List AEnvelope) → IsSenderOf self.old.sender site → messages.now ≡ map outgoing envelopes
            → SendsOut L.calls L.lost L.faults config.now site envelopes result link.old link.new self.old.sender self.new.sender }
        ensures same { self.new ≡ record self.old { sender = self.new.sender } }
    {
        self.sender.send_all(config, link, messages)?;
        Ok(())
    }

    /// What is pending goes out: its facts go into the log together, and once they are durable its messages are sent and the lines of
    /// its outcomes printed. Nothing is pending then. Where it ends before, what was pending is lost but for what is in the log.
    pub fn persist_then_send<D: Disks, L: Link, O: Sink>(
        &mut self,
        alloc: Global,
        config: &Config,
        disks: &mut D,
        link: &mut L,
        out: &mut O,
    ) -> Result<(), ServeFault>
        requires config { IsConfig config.now }
        requires served { IsServed (outside config.now.checkpoint D.disk D.may_leave L.calls L.lost L.faults O.held O.faults) config.now.cluster disks.old self.old }
        ensures goes { (site : ASite) → HoldsSite (outside config.now.checkpoint D.disk D.may_leave L.calls L.lost L.faults O.held O.faults) config.now.cluster disks.old self.old site
            → Goes (outside config.now.checkpoint D.disk D.may_leave L.calls L.lost L.faults O.held O.faults) config.now.cluster site (persist_then_send config.now site) result
            (place disks.old self.old link.old out.old) (place disks.new self.new link.new out.new) }

        // A crash at any moment of it leaves a log without the pending facts, or with all of them.
        ensures any_moment { (site : ASite) → HoldsSite (outside config.now.checkpoint D.disk D.may_leave L.calls L.lost L.faults O.held O.faults) config.now.cluster disks.old self.old site
            → LeavesEither D.disk D.moment D.left_since site.centre site.logged (persist_then_send config.now site).site.logged disks.old disks.new }
    {
        let pending = self.take_pending(alloc);
        self.log_all(disks, pending.payloads())?;
        self.send_all(config, link, pending.messages())?;
        print_heard(alloc, self.centre, pending.heard(), out)?;
        Ok(())
    }
}
