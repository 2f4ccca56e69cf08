//! What a step of a centre leaves with what is not out yet.
ghost use Rattle.std.specs.List.{AllByRecursion};
ghost use Rattle.std.specs.Prelude.{◌≡◌, ◌++◌, IfErr, IfSome, OnOk, map};
ghost use Rattle.mdcc_journal.specs.Counts.{HasCounts};
ghost use Rattle.mdcc_def_messages.specs.Spelling.{fact_bytes};
ghost use Rattle.mdcc_option.specs.declared.cluster.Cluster.{Cluster as ACluster};
ghost use Rattle.mdcc_serve_outbox.specs.Outgoing.{outgoing};
ghost use Rattle.mdcc_def_rules.specs.Steps.{NodeStep, heard_by};
ghost use Rattle.mdcc_def_server_runs.specs.Runs.{listed};
ghost use Rattle.mdcc_def_server_runs.specs.Sites.{Site as ASite};
ghost use Rattle.mdcc_def_server_runs.specs.Steps.{answer_queued, step_queued, stepped};
ghost use Rattle.mdcc_serve_site.specs.SiteState.{Becomes, CanBeSent, HasStepped, IsSite};
ghost use Rattle.mdcc_serve_site.specs.declared.fault.ServeFault.{ServeFault as AServeFault};

use crate::ServeFault;
use crate::site::Site;
use mdcc_def_messages::{ClientAnswer, Envelope};
use mdcc_node::Step;
use mdcc_serve_outbox::answer_to;
use std::alloc::Global;

impl Site {
    // The fact of a step, its messages, a reply to the client and what is heard by it come behind what is not out yet.
    fn queue(
        &mut self,
        alloc: Global,
        step: &Step,
        reply: &Option<Envelope>,
    ) -> Result<(), ServeFault>
        requires fact { IfSome step.now.fact HasCounts }
        requires sends { AllByRecursion CanBeSent step.now.sends }
        requires reply { IfSome reply.now CanBeSent }
        ensures payloads { OnOk result (self.new.pending.payloads ≡ self.old.pending.payloads ++ map fact_bytes (listed step.now.fact)) }
        ensures messages { OnOk result (self.new.pending.messages ≡ self.old.pending.messages ++ map outgoing (step.now.sends ++ listed reply.now)) }
        ensures heard { OnOk result (self.new.pending.heard ≡ self.old.pending.heard ++ listed step.now.heard) }
        ensures same { self.new ≡ record self.old { pending = self.new.pending } }
        ensures memory { IfErr result (λ fault. fault ≡ AServeFault.Memory) }
    {
        self.pending.push_new_fact(alloc, &step.fact)?;
        self.pending.push_messages(alloc, step.sends.as_slice())?;
        self.pending.push_reply(alloc, reply)?;
        self.pending.push_heard(step.heard)?;
        Ok(())
    }

    /// A step that the node made is counted, once it is among what is not out yet: its fact, its messages with a reply to the client
    /// after them, and what is heard by it.
    pub(crate) fn queue_step(
        &mut self,
        alloc: Global,
        step: &Step,
        reply: &Option<Envelope>,
    ) -> Result<(), ServeFault>
        requires fact { IfSome step.now.fact HasCounts }
        requires sends { AllByRecursion CanBeSent step.now.sends }
        requires reply { IfSome reply.now CanBeSent }
        ensures { (cluster : ACluster) (site : ASite) (made : NodeStep) → HasStepped cluster self.old site made
            → step.now.fact ≡ made.fact → step.now.heard ≡ heard_by made.fact
            → Becomes cluster site (stepped (step_queued site made (step.now.sends ++ listed reply.now))) result self.old self.new }
    {
        self.queue(alloc, step, reply)?;
        self.count_step();
        Ok(())
    }

    /// An answer to the client that no step made comes among what is not out yet.
    pub(crate) fn queue_answer(
        &mut self,
        alloc: Global,
        serial: u32,
        answer: ClientAnswer,
    ) -> Result<(), ServeFault>
        ensures { (cluster : ACluster) (site : ASite) → IsSite cluster self.old site
            → Becomes cluster site (answer_queued site serial answer) result self.old self.new }
    {
        let envelope = answer_to(self.centre, serial, answer);
        self.pending.push_message(alloc, &envelope)?;
        Ok(())
    }
}
