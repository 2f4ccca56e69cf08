//! A centre that is served, and what its node makes of its inputs.
ghost use Rattle.std.specs.Prelude.{◌≡◌, ◌+◌, ◌++◌, IfErr, List, OnOk, Result, map, ℕ};
ghost use Rattle.mdcc_config.specs.declared.config.Config.{Config as AConfig};
ghost use Rattle.mdcc_def_messages.specs.declared.facts.Fact.{Fact as AFact};
ghost use Rattle.mdcc_node.specs.StepPlans.{blank};
ghost use Rattle.mdcc_node.specs.StepAnswers.{IsInputGiven};
ghost use Rattle.mdcc_option.specs.declared.cluster.Cluster.{Cluster as ACluster};
ghost use Rattle.mdcc_serve_outbox.specs.Outgoing.{outgoing};
ghost use Rattle.mdcc_serve_outbox.specs.Shows.{count_limited};
ghost use Rattle.mdcc_def_protocol.specs.Facts.{epoch_of};
ghost use Rattle.mdcc_def_protocol.specs.Volatile.{Volatile as AVolatile};
ghost use Rattle.mdcc_def_rules.specs.Steps.{NodeStep};
ghost use Rattle.mdcc_def_rules.specs.declared.node.Input.{Input as AInput};
ghost use Rattle.mdcc_def_rules.specs.declared.node.StepFault.{StepFault as AStepFault};
ghost use Rattle.mdcc_def_server_runs.specs.Runs.{listed, step_on};
ghost use Rattle.mdcc_def_server_runs.specs.Sites.{Site as ASite};
ghost use Rattle.mdcc_def_server_runs.specs.Clients.{with_end};
ghost use Rattle.mdcc_def_server_runs.specs.Steps.{ends_told, input_made, input_taken};
ghost use Rattle.mdcc_node_log.specs.Nodes.{IsNodeOf};
ghost use Rattle.mdcc_serve_site.specs.SiteState.{Acted, Becomes, IsSite, Refuses};
ghost use Rattle.mdcc_serve_site.specs.declared.fault.ServeFault.{ServeFault as AServeFault};

use crate::ServeFault;
use crate::pending::PendingBytes;
use mdcc_base::{Centre, TxId};
use mdcc_def_messages::{ClientAnswer, Envelope};
use mdcc_frag::Joiner;
use mdcc_index::PoolFacts;
use mdcc_journal::counts::well_formed_facts_have_counts;
use mdcc_log::Frames;
use mdcc_node::{Input, Node, Step, StepFault, blank};
use mdcc_serve_outbox::{Clients, Sender, answer_to};
use mdcc_theorem_node_steps::{facts_have_room, steps_are_well_formed};
use mdcc_wire::counts::well_formed_messages_have_counts;
use std::alloc::Global;

/// A centre: its node, its open log, what it sent, what its client began, the pieces of messages that came at its own endpoint and at
/// its client's, and what its steps made and is not out yet. The counts stand still at their end.
#[derive(Drop)]
pub struct Site {
    pub centre: Centre,
    pub node: Node<PoolFacts>,
    pub log: Frames,
    pub sender: Sender,
    pub clients: Clients,
    pub own: Joiner,
    pub asked: Joiner,
    pub steps: u64,
    pub dropped: u64,
    pub pending: PendingBytes,
}

impl Site {
    /// What the node makes of an input is written into a blank step.
    pub(crate) fn act_on(&mut self, input: &Input, step: &mut Step) -> Result<(), StepFault>
        requires input { IsInputGiven input.now }
        requires served { (cluster : ACluster) × (site : ASite) × IsSite cluster self.old site }
        requires blank { step.old ≡ blank }
        ensures acted { (cluster : ACluster) (site : ASite) → IsSite cluster self.old site
            → Acted cluster self.new site (step_on cluster site.centre site.node input.now) result step.new }
        ensures same { self.new ≡ record self.old { node = self.new.node } }
    {
        steps_are_well_formed();
        facts_have_room();
        well_formed_facts_have_counts();
        well_formed_messages_have_counts();
        self.node.act_on(input, step)
    }

    /// The same for a message.
    pub(crate) fn deliver(&mut self, envelope: &Envelope, step: &mut Step) -> Result<(), StepFault>
        requires input { IsInputGiven (AInput.Message envelope.now) }
        requires served { (cluster : ACluster) × (site : ASite) × IsSite cluster self.old site }
        requires blank { step.old ≡ blank }
        ensures acted { (cluster : ACluster) (site : ASite) → IsSite cluster self.old site
            → Acted cluster self.new site (step_on cluster site.centre site.node (AInput.Message envelope.now)) result step.new }
        ensures same { self.new ≡ record self.old { node = self.new.node } }
    {
        steps_are_well_formed();
        facts_have_room();
        well_formed_facts_have_counts();
        well_formed_messages_have_counts();
        self.node.deliver(envelope, step)
    }

    /// A step is counted, and the messages to come are of its epoch.
    pub(crate) fn count_step(&mut self)
        ensures same { self.new ≡ record self.old { steps = self.new.steps; sender = record self.old.sender { epoch = self.new.sender.epoch } } }
        ensures steps { self.new.steps ≡ count_limited (self.old.steps + 1) }
        ensures epoch { (cluster : ACluster) (me : ℕ) (facts : List AFact) (volatile : AVolatile) → IsNodeOf self.old.node cluster me facts volatile → self.new.sender.epoch ≡ epoch_of facts }
    {
        self.steps = self.steps.saturating_add(1);
        self.sender.epoch = self.node.epoch();
    }

    /// Something is dropped.
    pub(crate) fn drop_one(&mut self)
        ensures { self.new ≡ record self.old { dropped = count_limited (self.old.dropped + 1) } }
    {
        self.dropped = self.dropped.saturating_add(1);
    }

    /// The node refused an input.
    pub(crate) fn refuse(&mut self, fault: StepFault) -> Result<(), ServeFault>
        ensures { Refuses fault result self.old self.new }
    {
        match fault {
            StepFault::Memory => Err(ServeFault::Memory),
            _ => {
                self.drop_one();
                Ok(())
            }
        }
    }

    // A transaction ended: it is noted where it was begun for the client, and the client is told.
    fn report_end(&mut self, alloc: Global, heard: Option<(TxId, bool)>) -> Result<(), ServeFault>
        ensures told { (site : ASite) → self.old.centre ≡ site.centre → self.old.clients ≡ site.clients
            → OnOk result (self.new.pending ≡ record self.old.pending { messages = self.old.pending.messages ++ map outgoing (listed (ends_told site heard)) }) }
        ensures noted { OnOk result (self.new.clients ≡ with_end self.old.clients heard) }
        ensures same { self.new ≡ record self.old { clients = self.new.clients; pending = self.new.pending } }
        ensures memory { IfErr result (λ fault. fault ≡ AServeFault.Memory) }
    {
        let Some((tx, is_commit)) = heard else {
            return Ok(());
        };
        let Some(begun) = self.clients.known_of(&tx) else {
            return Ok(());
        };
        self.clients.end(tx, begun.serial, is_commit)?;
        let answer = ClientAnswer::Heard(tx, is_commit);
        let envelope = answer_to(self.centre, begun.serial, answer);
        self.pending.push_message(alloc, &envelope)?;
        Ok(())
    }

    // What the node made of a message or a tick. The client is told before the other centres.
    fn input_made(
        &mut self,
        alloc: Global,
        made: Result<(), StepFault>,
        step: &Step,
    ) -> Result<(), ServeFault>
        requires acted { (cluster : ACluster) × (site : ASite) × (expected : Result NodeStep AStepFault) × Acted cluster self.old site expected made step.now }
        ensures { (cluster : ACluster) (site : ASite) (expected : Result NodeStep AStepFault) → Acted cluster self.old site expected made step.now
            → Becomes cluster site (input_made site expected) result self.old self.new }
    {
        match made {
            Ok(()) => {
                self.report_end(alloc, step.heard)?;
                self.queue_step(alloc, step, &None)
            }
            Err(fault) => self.refuse(fault),
        }
    }

    /// A message comes to the node.
    pub(crate) fn take_message(
        &mut self,
        alloc: Global,
        envelope: &Envelope,
    ) -> Result<(), ServeFault>
        requires input { IsInputGiven (AInput.Message envelope.now) }
        requires served { (cluster : ACluster) × (site : ASite) × IsSite cluster self.old site }
        ensures { (config : AConfig) (site : ASite) → IsSite config.cluster self.old site
            → Becomes config.cluster site (input_taken config site (AInput.Message envelope.now)) result self.old self.new }
    {
        let mut step = blank(alloc);
        let made = self.deliver(envelope, &mut step);
        self.input_made(alloc, made, &step)
    }

    /// Time passes at the node.
    pub(crate) fn tick(&mut self, alloc: Global) -> Result<(), ServeFault>
        requires served { (cluster : ACluster) × (site : ASite) × IsSite cluster self.old site }
        ensures { (config : AConfig) (site : ASite) → IsSite config.cluster self.old site
            → Becomes config.cluster site (input_taken config site AInput.Tick) result self.old self.new }
    {
        let mut step = blank(alloc);
        let made = self.act_on(&Input::Tick, &mut step);
        self.input_made(alloc, made, &step)
    }
}
