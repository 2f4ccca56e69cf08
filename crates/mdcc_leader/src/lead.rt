//! A classic ballot that a leader leads on a key.
ghost use Rattle.std.specs.Prelude.{◌≡◌, ◌≤◌, ◌<◌, ◌&&◌, ◌==◌, Err, IfOk, List, None, Ok, OnErr, OnOk, [], if◌then◌else◌, is_some, length, nat_le, take, ◌-◌};
ghost use Rattle.std.specs.List.{list_any};
ghost use Rattle.std.specs.Option.{option_copied};
ghost use Rattle.mdcc_base.specs.Ballot.{ballot_eq};
ghost use Rattle.mdcc_base.specs.Counts.{number_of};
ghost use Rattle.mdcc_base.specs.Unless.{GivesUnless};
ghost use Rattle.mdcc_leader.specs.Answers.{answer_alone, is_lead_memory};
ghost use Rattle.mdcc_leader.specs.Extending.{judged, lead_counted, lead_extended, structure_forced};
ghost use Rattle.mdcc_def_messages.specs.declared.facts.Fact.{Fact as AFact};
ghost use Rattle.mdcc_def_protocol.specs.Leader.{counted_promise, has_proposed, is_at_odds, is_covered, is_differing, is_promise_counted, is_waiting, lead_begun, led_on, prepare_of, with_promise, with_refused};
ghost use Rattle.mdcc_def_protocol.specs.Structures.{is_crowded, mark_of_choice, with_choice};
ghost use Rattle.mdcc_def_protocol.specs.Volatile.{Leading, structure_at, structure_found, with_structure};
ghost use Rattle.mdcc_def_protocol.specs.declared.leader.LeadAnswer.{LeadAnswer as ALeadAnswer};
ghost use Rattle.mdcc_def_protocol.specs.declared.leader.LeadFault.{LeadFault as ALeadFault};
ghost use Rattle.mdcc_def_protocol.specs.declared.leader.PromiseAnswer.{PromiseAnswer as APromiseAnswer};
ghost use Rattle.mdcc_struct.specs.Maps.{inserted, value_of};

use indexmap::IndexMap;
use mdcc_base::{Ballot, Centre, Key, Memory, Plain, Quorums, TxId};
use mdcc_def_protocol::{LeadAnswer, LeadFault, Promise, PromiseAnswer};
use mdcc_facts::FactStore;
use mdcc_leader_structures::{Claims, first_structure, is_crowded, is_left_out, mark_of_choice};
use mdcc_option::{Claim, Cluster, Mark};
use mdcc_struct::{Options, Report};
use std::alloc::Global;
use std::marker::Model;

/// A classic ballot, from its version through the end of its range: the pending claims, the promises
/// that were counted and the structures, in the order in which they came.
#[derive(Drop)]
pub(crate) struct Lead {
    key: Key,
    version: u64,
    through: u64,
    ballot: Ballot,
    is_refused: bool,
    claims: Claims,
    reports: Vec<Report>,
    throughs: Vec<u64>,
    structures: IndexMap<u64, Options>,
}

impl Model for Lead {
    ghost use Rattle.std.specs.Prelude.{◌≡◌, length};
    ghost use Rattle.mdcc_def_protocol.specs.Volatile.{Lead as ALead};
    ghost use Rattle.mdcc_leader.specs.Promises.{counted_of};

    ghost Value = { ALead };

    ghost view = { λ l. record {
      key = l.key;
      version = l.version;
      through = l.through;
      ballot = l.ballot;
      is_refused = l.is_refused;
      claims = l.claims;
      promises = counted_of l.reports.items l.throughs.items;
      structures = l.structures.entries;
    } };

    ghost invariant = { λ l. length l.reports.items ≡ length l.throughs.items };
}

impl Lead {
    /// A lead over the version of a claim and as many above it as a classic range has, with the
    /// claim pending.
    pub(crate) fn begin(
        alloc: Global,
        centre: Centre,
        epoch: u32,
        cluster: &Cluster,
        claim: &Claim,
        round: u32,
    ) -> Result<Lead, Memory>
        ensures { IfOk result (λ lead. lead ≡ lead_begun cluster.now centre epoch claim.now round) }
    {
        let mut claims = Claims::new(alloc);
        claims.add(claim.tx, claim.choice.as_ref())?;
        let ballot = Ballot {
            round,
            epoch,
            centre: centre.number(),
        };
        Ok(Lead {
            key: claim.key,
            version: claim.version,
            through: claim.version.saturating_add(cluster.gamma),
            ballot,
            is_refused: false,
            claims,
            reports: Vec::new(alloc),
            throughs: Vec::new(alloc),
            structures: IndexMap::new(alloc),
        })
    }

    /// The question for promises.
    pub(crate) fn prepare(&self) -> LeadAnswer
        ensures { result ≡ prepare_of self.now }
    {
        LeadAnswer::Prepare {
            version: self.version,
            through: self.through,
            ballot: self.ballot,
        }
    }

    /// The round of its ballot.
    pub(crate) fn round(&self) -> u32
        ensures { result ≡ self.now.ballot.round }
    {
        self.ballot.round
    }

    /// Whether its ballot was refused.
    pub(crate) fn is_refused(&self) -> bool
        ensures { result ≡ self.now.is_refused }
    {
        self.is_refused
    }

    /// Gives it up, where its ballot is this one.
    pub(crate) fn refuse(&mut self, ballot: &Ballot)
        ensures { self.new ≡ with_refused self.old ballot.now }
    {
        if self.ballot.is(ballot) {
            self.is_refused = true;
        }
    }

    // The structure that was made at a version.
    #[tactic(auto, using(crate::proofs::Structured::structures_by_version))]
    fn structure(&self, version: u64) -> Option<&Options>
        ensures { option_copied result ≡ structure_found self.now.structures version }
    {
        self.structures.get(&version)
    }

    // Whether it has made the structure at its own version.
    fn has_proposed(&self) -> bool
        ensures { result ≡ has_proposed self.now }
    {
        self.structure(self.version).is_some()
    }

    /// Whether it proposes at a version at once.
    pub(crate) fn is_covered(&self, quorums: &Quorums, version: u64) -> bool
        ensures { result ≡ is_covered quorums.now self.now version }
    {
        self.version <= version
            && usize::from(quorums.classic()) <= self.promises_through(version)
            && (self.version < version || self.has_proposed())
    }

    #[tactic(auto, using(crate::proofs::Promised::counted_promises))]
    /// How many promises are counted.
    pub(crate) fn promises(&self) -> usize
        ensures { result ≡ length self.now.promises }
    {
        self.reports.len()
    }

    #[tactic(auto, using(crate::proofs::Promised::counted_promises))]
    // How many promises reach a version.
    fn promises_through(&self, version: u64) -> usize
        ensures { result ≡ number_of (λ promise. nat_le version promise.through) self.now.promises }
    {
        number_through(&self.throughs, version)
    }

    /// Whether it waits for promises at a version.
    pub(crate) fn is_waiting(&self, version: u64) -> bool
        ensures { result ≡ is_waiting self.now version }
    {
        self.version == version && !self.has_proposed()
    }

    /// One claim more waits, or its choice is known from now on.
    pub(crate) fn await_claim(&mut self, claim: &Claim) -> Result<(), Memory>
        ensures ok { OnOk result (self.new ≡ record self.old { claims = with_choice self.old.claims (claim.now.tx, claim.now.choice) }) }
        ensures err { OnErr result (self.new ≡ self.old) }
    {
        self.claims.add(claim.tx, claim.choice.as_ref())
    }

    // A mark that its structure at a version has not.
    fn put(&mut self, alloc: Global, version: u64, tx: TxId, mark: Mark) -> Result<(), Memory>
        requires { value_of (structure_at self.old.structures version) tx ≡ None }
        ensures ok { OnOk result (self.new ≡ record self.old { structures = with_structure self.old.structures version (inserted (structure_at self.old.structures version) (tx, mark)) }) }
        ensures err { OnErr result (self.new ≡ self.old) }
    {
        put_in(alloc, &mut self.structures, version, tx, mark)
    }

    /// The structure at the claim's version has the claim from now on, where it is not left out, and
    /// is sent.
    pub(crate) fn extend<S: FactStore>(
        &mut self,
        alloc: Global,
        store: &S,
        cluster: &Cluster,
        claim: &Claim,
    ) -> Result<LeadAnswer, Memory>
        ensures answer { (facts : List AFact) (leader : Leading) → S.stands store.now facts
            → IfOk result (λ answer. answer ≡ (led_on cluster.now facts leader self.old claim.now).0) }
        ensures ok { (facts : List AFact) → S.stands store.now facts
            → OnOk result (self.new ≡ lead_extended cluster.now facts self.old claim.now) }
        ensures err { OnErr result (self.new ≡ self.old) }
    {
        let key = self.key;
        let none = Options::new(alloc)?;
        let last = self.structure_or(&none, claim.version);
        if has_mark(last, claim.tx) {
            return Ok(self.accept(claim.version, last.copy(alloc)?));
        }
        match judge(store, cluster, &key, last, claim) {
            Some(mark) => self.send_with(alloc, claim.version, claim.tx, mark),
            None => Ok(LeadAnswer::Left),
        }
    }

    // The structure at a version has a mark more from now on, and is sent.
    fn send_with(
        &mut self,
        alloc: Global,
        version: u64,
        tx: TxId,
        mark: Mark,
    ) -> Result<LeadAnswer, Memory>
        requires { value_of (structure_at self.old.structures version) tx ≡ None }
        ensures answer { IfOk result (λ answer. answer ≡ ALeadAnswer.Accept version self.old.ballot (inserted (structure_at self.old.structures version) (tx, mark))) }
        ensures ok { OnOk result (self.new ≡ record self.old { structures = with_structure self.old.structures version (inserted (structure_at self.old.structures version) (tx, mark)) }) }
        ensures err { OnErr result (self.new ≡ self.old) }
    {
        let none = Options::new(alloc)?;
        let mut options = self.structure_or(&none, version).copy(alloc)?;
        options.insert(tx, mark.copy())?;
        self.put(alloc, version, tx, mark)?;
        Ok(self.accept(version, options))
    }

    // The structure that was made at a version, or this empty one.
    fn structure_or<'a>(&'a self, none: &'a Options, version: u64) -> &'a Options
        requires { none.now ≡ [] }
        ensures { result.now ≡ structure_at self.now.structures version }
    {
        match self.structure(version) {
            Some(options) => options,
            None => none,
        }
    }

    // A structure is sent at a version.
    fn accept(&self, version: u64, options: Options) -> LeadAnswer
        ensures { result ≡ ALeadAnswer.Accept version self.now.ballot options }
    {
        LeadAnswer::Accept {
            version,
            ballot: self.ballot,
            options,
        }
    }

    #[tactic(auto, using(crate::proofs::Promised::counted_promises))]
    // Whether votes that are reported at a classic ballot differ from those that a counted promise
    // reports there.
    fn is_at_odds(&self, reported: &Ballot, votes: &Options) -> bool
        ensures { result ≡ is_at_odds self.now reported.now votes.now }
    {
        !reported.is(&Ballot::FAST) && is_differing_at(&self.reports, reported, votes)
    }

    #[tactic(auto, using(crate::proofs::Promised::counted_promises))]
    // Whether a promise of the centre is counted.
    fn has_promise_of(&self, from: Centre) -> bool
        ensures { result ≡ list_any (λ other. other.from == from) self.now.promises }
    {
        is_of_one(&self.reports, from)
    }

    /// Whether a promise counts: it is this lead's, the first of its centre, and no report
    /// contradicts it.
    pub(crate) fn is_promise_counted(&self, from: Centre, promise: &Promise) -> bool
        ensures { result ≡ is_promise_counted self.now from promise.now }
    {
        self.version == promise.version
            && self.ballot.is(&promise.ballot)
            && !self.is_refused
            && !self.has_promise_of(from)
            && !self.is_at_odds(&promise.reported, &promise.votes)
    }

    #[tactic(auto, using(crate::proofs::Promised::counted_promises))]
    /// Counts a promise. The first with which they are enough makes the structure.
    pub(crate) fn count<S: FactStore>(
        &mut self,
        alloc: Global,
        store: &S,
        cluster: &Cluster,
        from: Centre,
        promise: &Promise,
    ) -> Result<PromiseAnswer, LeadFault>
        requires { length self.old.promises < cluster.now.quorums.centres }
        ensures answer { (facts : List AFact) (leader : Leading) → S.stands store.now facts
            → GivesUnless is_lead_memory result (answer_alone (counted_promise cluster.now facts leader (with_promise self.old from promise.now))) }
        ensures ok { (facts : List AFact) → S.stands store.now facts
            → OnOk result (self.new ≡ lead_counted cluster.now facts (with_promise self.old from promise.now)) }
        ensures err { OnErr result (self.new ≡ self.old) }
    {
        self.push(alloc, from, promise)?;
        match self.answer_promises(alloc, store, cluster) {
            Ok(answer) => Ok(answer),
            Err(fault) => {
                self.pop();
                Err(fault)
            }
        }
    }

    #[tactic(auto, using(crate::proofs::Promised::counted_promises))]
    // One promise more.
    fn push(&mut self, alloc: Global, from: Centre, promise: &Promise) -> Result<(), Memory>
        ensures ok { OnOk result (self.new ≡ with_promise self.old from promise.now) }
        ensures err { OnErr result (self.new ≡ self.old) }
    {
        let report = Report {
            centre: from,
            ballot: promise.reported,
            votes: promise.votes.copy(alloc)?,
        };
        self.throughs.try_reserve(1)?;
        self.reports.push(report)?;
        self.throughs.push(promise.through)?;
        Ok(())
    }

    #[tactic(auto, using(crate::proofs::Promised::counted_promises))]
    // One promise less.
    fn pop(&mut self)
        ensures { self.new ≡ record self.old { promises = take (length self.old.promises - 1) self.old.promises } }
    {
        let _report = self.reports.pop();
        let _through = self.throughs.pop();
    }

    // What the promises give, the last of which is new.
    fn answer_promises<S: FactStore>(
        &mut self,
        alloc: Global,
        store: &S,
        cluster: &Cluster,
    ) -> Result<PromiseAnswer, LeadFault>
        requires { length self.old.promises ≤ cluster.now.quorums.centres }
        ensures answer { (facts : List AFact) (leader : Leading) → S.stands store.now facts
            → GivesUnless is_lead_memory result (answer_alone (counted_promise cluster.now facts leader self.old)) }
        ensures ok { (facts : List AFact) → S.stands store.now facts → OnOk result (self.new ≡ lead_counted cluster.now facts self.old) }
        ensures err { OnErr result (self.new ≡ self.old) }
    {
        if self.has_proposed() {
            return Ok(PromiseAnswer::Counted);
        }
        match self.first_structure(alloc, store, cluster)? {
            Some(options) => self.make(alloc, options),
            None => Ok(self.waiting(&cluster.quorums)),
        }
    }

    #[tactic(auto, using(crate::proofs::Promised::counted_promises))]
    // The promises are too few.
    fn waiting(&self, quorums: &Quorums) -> PromiseAnswer
        requires { length self.now.promises ≤ quorums.now.centres }
        ensures { result ≡ APromiseAnswer.Waiting (length self.now.promises) }
    {
        let centres = usize::from(quorums.centres());
        PromiseAnswer::Waiting(self.promises().min(centres) as u8)
    }

    // The first structure, where the promises are enough for it.
    fn first_structure<S: FactStore>(
        &self,
        alloc: Global,
        store: &S,
        cluster: &Cluster,
    ) -> Result<Option<Options>, Memory>
        requires { length self.now.promises ≤ cluster.now.quorums.centres }
        ensures { (facts : List AFact) → S.stands store.now facts → IfOk result (λ structure. structure
            ≡ structure_forced cluster.now facts self.now) }
    {
        first_structure(
            alloc,
            store,
            cluster,
            &self.key,
            self.version,
            &self.claims,
            &self.reports,
        )
    }

    // The structure at its own version.
    fn keep(&mut self, options: Options) -> Result<(), Memory>
        ensures ok { OnOk result (self.new ≡ record self.old { structures = with_structure self.old.structures self.old.version options }) }
        ensures err { OnErr result (self.new ≡ self.old) }
    {
        keep_in(&mut self.structures, self.version, options)
    }

    // The first structure is made and sent, unless it has too many marks. No claim is pending then.
    fn make(&mut self, alloc: Global, options: Options) -> Result<PromiseAnswer, LeadFault>
        ensures answer { GivesUnless is_lead_memory result (if is_crowded options then Err ALeadFault.Crowded else Ok (APromiseAnswer.Accept self.old.version self.old.ballot options)) }
        ensures ok { OnOk result (self.new ≡ record self.old { claims = []; structures = with_structure self.old.structures self.old.version options }) }
        ensures err { OnErr result (self.new ≡ self.old) }
    {
        if is_crowded(&options) {
            return Err(LeadFault::Crowded);
        }
        self.keep(options.copy(alloc)?)?;
        self.claims = Claims::new(alloc);
        Ok(PromiseAnswer::Accept {
            version: self.version,
            ballot: self.ballot,
            options,
        })
    }
}

// A mark that the structure of a version has not.
#[tactic(auto, using(crate::proofs::Structured::structures_by_version))]
fn put_in(
    alloc: Global,
    structures: &mut IndexMap<u64, Options>,
    version: u64,
    tx: TxId,
    mark: Mark,
) -> Result<(), Memory>
    requires { value_of (structure_at structures.old.entries version) tx ≡ None }
    ensures ok { OnOk result (structures.new.entries ≡ with_structure structures.old.entries version (inserted (structure_at structures.old.entries version) (tx, mark))) }
    ensures err { OnErr result (structures.new.entries ≡ structures.old.entries) }
{
    match structures.get_mut(&version) {
        Some(options) => options.insert(tx, mark)?,
        None => {
            let mut options = Options::new(alloc)?;
            options.insert(tx, mark)?;
            keep_in(structures, version, options)?;
        }
    }
    Ok(())
}

// The structure of a version that has none.
#[tactic(auto, using(crate::proofs::Structured::structures_by_version))]
fn keep_in(
    structures: &mut IndexMap<u64, Options>,
    version: u64,
    options: Options,
) -> Result<(), Memory>
    ensures ok { OnOk result (structures.new.entries ≡ with_structure structures.old.entries version options) }
    ensures err { OnErr result (structures.new.entries ≡ structures.old.entries) }
{
    structures.insert(version, options)?;
    Ok(())
}

// Whether a structure has a mark of a transaction.
fn has_mark(options: &Options, tx: TxId) -> bool
    ensures { result ≡ is_some (value_of options.now tx) }
{
    options.mark_of(tx).is_some()
}

// The mark of a claim that its structure has not, unless it is left out: where its transaction was
// heard or is finished, or there is no room.
fn judge<S: FactStore>(
    store: &S,
    cluster: &Cluster,
    key: &Key,
    options: &Options,
    claim: &Claim,
) -> Option<Mark>
    ensures { (facts : List AFact) → S.stands store.now facts
        → result ≡ judged facts claim.now.tx options.now (mark_of_choice cluster.now facts key.now claim.now.version options.now claim.now.choice) }
{
    if store.is_settled(claim.tx) {
        return None;
    }
    let choice = claim.choice.as_ref();
    let mark = mark_of_choice(store, cluster, key, claim.version, options, choice);
    if is_left_out(options, &mark) {
        None
    } else {
        Some(mark)
    }
}

// How many ranges reach a version.
fn number_through(throughs: &[u64], version: u64) -> usize
    ensures { result ≡ number_of (λ through. nat_le version through) throughs.now }
{
    let mut count = 0;
    for through in throughs {
        if version <= *through {
            count += 1;
        }
    }
    count
}

// Whether a report is the centre's.
fn is_of_one(reports: &[Report], from: Centre) -> bool
    ensures { result ≡ list_any (λ report. report.centre == from) reports.now }
{
    reports.iter().any(|report| report.centre == from)
}

// Whether votes differ from those of a report at their ballot.
fn is_differing_at(reports: &[Report], reported: &Ballot, votes: &Options) -> bool
    ensures { result ≡ list_any (λ report. ballot_eq report.ballot reported.now && is_differing votes.now report.votes) reports.now }
{
    for report in reports {
        if report.ballot.is(reported) && votes.differing(&report.votes).is_some() {
            return true;
        }
    }
    false
}
