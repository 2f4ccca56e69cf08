//! What a client asks of its node.
ghost use Rattle.std.specs.Prelude.{◌≡◌, IfErr, OnOk};
ghost use Rattle.mdcc_base.specs.Key.{IsKey};
ghost use Rattle.mdcc_config.specs.declared.config.Config.{Config as AConfig};
ghost use Rattle.mdcc_def_messages.specs.WellFormed.{IsWellFormedBegin};
ghost use Rattle.mdcc_option.specs.Transaction.{transaction_of};
ghost use Rattle.mdcc_option.specs.declared.cluster.Cluster.{Cluster as ACluster};
ghost use Rattle.mdcc_def_server_runs.specs.Clients.{known_of};
ghost use Rattle.mdcc_def_server_runs.specs.Sites.{Site as ASite};
ghost use Rattle.mdcc_def_server_runs.specs.Steps.{begin_made, begin_noted, begin_taken, begin_told, draft_taken, end_of_begun, known_told, read_taken, reading_told};
ghost use Rattle.mdcc_serve_site.specs.SiteState.{Becomes, IsSite, begun_in, refused_fault, refused_key};
ghost use Rattle.mdcc_serve_site.specs.declared.fault.ServeFault.{ServeFault as AServeFault};
ghost use Rattle.mdcc_def_rules.specs.declared.node.Input.{Input as AInput};
ghost use Rattle.mdcc_def_server_runs.specs.Runs.{step_on};
ghost use Rattle.mdcc_theorem_node_steps.specs.Inputs.{AreWellFormedParts};

use crate::ServeFault;
use crate::site::Site;
use mdcc_base::{Centre, Key, TxId};
use mdcc_config::Config;
use mdcc_def_messages::{ClientAnswer, Envelope};
use mdcc_node::{Answer, Input, blank};
use mdcc_option::{BeginFault, Part, Transaction};
use mdcc_serve_outbox::answer_to;
use std::alloc::Global;

// What the client is told of a read.
fn reading_told(centre: Centre, serial: u32, key: Key, answer: Option<Answer>) -> Option<Envelope>
    ensures { result ≡ reading_told centre serial key answer }
{
    match answer {
        Some(Answer::Read(reading)) => {
            let answer = ClientAnswer::Read {
                key,
                token: reading.token,
                item: reading.item,
                due: reading.due,
            };
            Some(answer_to(centre, serial, answer))
        }
        _ => None,
    }
}

// The transaction that an answer says was begun.
fn begun_in(answer: &Option<Answer>) -> Option<TxId>
    ensures { result ≡ begun_in answer.now }
{
    match answer {
        Some(Answer::Begun(tx)) => Some(*tx),
        _ => None,
    }
}

// The key because of which an answer says that none was.
fn refused_key(answer: &Option<Answer>) -> Option<Key>
    ensures { result ≡ refused_key answer.now }
{
    match answer {
        Some(Answer::Refused(key, _)) => Some(*key),
        _ => None,
    }
}

// And why.
fn refused_fault(answer: Option<Answer>) -> Option<BeginFault>
    ensures { result ≡ refused_fault answer }
{
    match answer {
        Some(Answer::Refused(_, fault)) => Some(fault),
        _ => None,
    }
}

// What the client is told of a begin.
#[tactic(auto, using(crate::proofs::Noted::told_begun, crate::proofs::Noted::told_refused, crate::proofs::Noted::told_keyless, crate::proofs::Noted::told_faultless))]
fn begin_told(centre: Centre, serial: u32, answer: Option<Answer>) -> Option<Envelope>
    ensures { result ≡ begin_told centre serial answer }
{
    if let Some(tx) = begun_in(&answer) {
        return Some(answer_to(centre, serial, ClientAnswer::Begun(tx)));
    }
    let Some(key) = refused_key(&answer) else {
        return None;
    };
    let Some(fault) = refused_fault(answer) else {
        return None;
    };
    Some(answer_to(centre, serial, ClientAnswer::Refused(key, fault)))
}

// What the client is told where its transaction was begun before.
fn known_told(tx: TxId, ended: Option<bool>) -> ClientAnswer
    ensures { result ≡ known_told tx ended }
{
    match ended {
        None => ClientAnswer::Begun(tx),
        Some(is_commit) => ClientAnswer::Heard(tx, is_commit),
    }
}

impl Site {
    /// The client reads a key.
    pub(crate) fn take_read(
        &mut self,
        alloc: Global,
        serial: u32,
        key: Key,
    ) -> Result<(), ServeFault>
        requires served { (cluster : ACluster) × (site : ASite) × IsSite cluster self.old site }
        requires key { IsKey key }
        ensures { (config : AConfig) (site : ASite) → IsSite config.cluster self.old site
            → Becomes config.cluster site (read_taken config site serial key) result self.old self.new }
    {
        let mut step = blank(alloc);
        match self.act_on(&Input::Read(key), &mut step) {
            Ok(()) => {
                let reply = reading_told(self.centre, serial, key, step.answer.take());
                self.queue_step(alloc, &step, &reply)
            }
            Err(fault) => self.refuse(fault),
        }
    }

    // How a transaction ended that was begun here, where that was heard.
    fn end_of(&self, tx: &TxId) -> Option<bool>
        ensures { result ≡ end_of_begun (known_of self.now.clients tx.now) }
    {
        match self.clients.known_of(tx) {
            Some(begun) => begun.ended,
            None => None,
        }
    }

    // Notes which transaction was begun for a serial.
    fn note_begin(&mut self, serial: u32, answer: &Option<Answer>) -> Result<(), ServeFault>
        ensures noted { (site : ASite) → self.old.clients ≡ site.clients → OnOk result (self.new.clients ≡ (begin_noted site serial answer.now).clients) }
        ensures same { self.new ≡ record self.old { clients = self.new.clients } }
        ensures memory { IfErr result (λ fault. fault ≡ AServeFault.Memory) }
    {
        match begun_in(answer) {
            Some(tx) => {
                self.clients.begin(serial, tx)?;
                Ok(())
            }
            None => Ok(()),
        }
    }

    // The client begins a transaction under a new serial.
    fn begin(
        &mut self,
        alloc: Global,
        serial: u32,
        transaction: Transaction,
    ) -> Result<(), ServeFault>
        requires served { (cluster : ACluster) × (site : ASite) × IsSite cluster self.old site }
        requires parts { AreWellFormedParts transaction }
        ensures { (cluster : ACluster) (site : ASite) → IsSite cluster self.old site
            → Becomes cluster site (begin_made site serial (step_on cluster site.centre site.node (AInput.Begin transaction))) result self.old self.new }
    {
        let mut step = blank(alloc);
        match self.act_on(&Input::Begin(transaction), &mut step) {
            Ok(()) => {
                self.note_begin(serial, &step.answer)?;
                let reply = begin_told(self.centre, serial, step.answer.take());
                self.queue_step(alloc, &step, &reply)
            }
            Err(fault) => self.refuse(fault),
        }
    }

    // The client begins what these parts make.
    fn begin_draft(
        &mut self,
        alloc: Global,
        config: &Config,
        serial: u32,
        parts: &[Part],
    ) -> Result<(), ServeFault>
        requires served { (site : ASite) × IsSite config.now.cluster self.old site }
        requires parts { IsWellFormedBegin serial parts.now }
        ensures { (site : ASite) → IsSite config.now.cluster self.old site
            → Becomes config.now.cluster site (draft_taken config.now site serial (transaction_of config.now.cluster.schema parts.now)) result self.old self.new }
    {
        match Transaction::new(&config.cluster.schema, parts) {
            Ok(transaction) => self.begin(alloc, serial, transaction),
            Err(fault) => self.queue_answer(alloc, serial, ClientAnswer::Draft(fault)),
        }
    }

    /// The client begins a transaction. What was begun under this serial is answered again.
    pub(crate) fn take_begin(
        &mut self,
        alloc: Global,
        config: &Config,
        serial: u32,
        parts: &[Part],
    ) -> Result<(), ServeFault>
        requires served { (site : ASite) × IsSite config.now.cluster self.old site }
        requires parts { IsWellFormedBegin serial parts.now }
        ensures { (site : ASite) → IsSite config.now.cluster self.old site
            → Becomes config.now.cluster site (begin_taken config.now site serial parts.now) result self.old self.new }
    {
        match self.clients.begun_for(serial) {
            Some(tx) => {
                let told = known_told(tx, self.end_of(&tx));
                self.queue_answer(alloc, serial, told)
            }
            None => self.begin_draft(alloc, config, serial, parts),
        }
    }
}
