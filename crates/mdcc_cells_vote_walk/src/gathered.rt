//! All marks of an instance at a ballot, gathered in a walk and then joined. This takes memory.
ghost use Rattle.std.specs.Option.{option_or};
ghost use Rattle.std.specs.Prelude.{◌≡◌, ◌<◌, ◌≤◌, ◌++◌, ◌∷◌, [], IfOk, OnErr, OnOk, get_or, length};
ghost use Rattle.mdcc_base.specs.declared.identifiers.TxId.{TxId as ATxId};
ghost use Rattle.mdcc_def_messages.specs.Spelling.{fact_bytes};
ghost use Rattle.mdcc_def_messages.specs.WellFormed.{IsWellFormedFact};
ghost use Rattle.mdcc_def_messages.specs.declared.facts.Fact.{Fact as AFact};
ghost use Rattle.mdcc_struct.specs.Fields.{kept, kept_place, mark_in};
ghost use Rattle.mdcc_struct.specs.Maps.{value_of};
ghost use Rattle.mdcc_cells_vote_walk.specs.Gathered.{GatheredAreVotes, first_entry, mark_if, mark_ranked, marks_at, marks_read, oldest_marks, picked, ranked, with_gathered};

use crate::heads::head_in;
use crate::marks::{first_mark, first_tag, skip_to_next};
use mdcc_base::{Ballot, Key, Memory, Plain, TxId};
use mdcc_cells_facts::FactCells;
use mdcc_option::Mark;
use mdcc_pool::Cursor;
use mdcc_struct::Options;
use std::alloc::Global;
use std::marker::Model;

/// Marks with their transactions, in the order in which they were gathered.
#[derive(Drop)]
pub struct GatheredMarks {
    places: Vec<(TxId, usize)>,
    accepted: Vec<Mark>,
}

impl Model for GatheredMarks {
    ghost use Rattle.mdcc_struct.specs.Options.{Marks};
    ghost use Rattle.mdcc_cells_vote_walk.specs.Gathered.{AreWithin, marks_listed};

    ghost Value = { Marks };

    ghost view = { λ g. marks_listed g.accepted.items g.places.items };

    ghost invariant = { λ g. AreWithin g.accepted.items g.places.items };
}

/// What is gathered in a walk of a chain and joined then are the votes at the ballot.
pub fn gathered_marks_are_votes()
    ensures { GatheredAreVotes }
{}

// Keeps a mark, where it is accepted, and gives its place.
fn keep(accepted: &mut Vec<Mark>, mark: Mark) -> Result<usize, Memory>
    ensures place { IfOk result (λ place. place ≡ kept_place accepted.old.items mark) }
    ensures ok { OnOk result (accepted.new.items ≡ kept accepted.old.items mark) }
    ensures err { OnErr result (accepted.new.items ≡ accepted.old.items) }
{
    match mark {
        Mark::Reject => Ok(0),
        Mark::Accept(choice) => {
            accepted.push(Mark::Accept(choice))?;
            Ok(accepted.len())
        }
    }
}

// The mark that is next, with its transaction.
fn first_entry(cursor: &Cursor<'_>) -> Option<(TxId, Mark)>
    ensures { result ≡ first_entry cursor.now }
{
    match first_tag(cursor) {
        Some((tx, _)) => match first_mark(cursor) {
            Some(mark) => Some((tx, mark)),
            None => None,
        },
        None => None,
    }
}

// Each transaction with the number of those after it.
fn ranked(alloc: Global, places: &[(TxId, usize)]) -> Result<Vec<(TxId, usize)>, Memory>
    ensures { IfOk result (λ order. order.items ≡ ranked places.now) }
{
    let mut order = Vec::with_capacity(alloc, places.len())?;
    let mut rest = places;
    while let [(tx, _), after @ ..] = rest {
        order.push((*tx, after.len()))?;
        rest = after;
    }
    Ok(order)
}

// A copy of the mark of a place.
fn mark_in(accepted: &[Mark], place: usize) -> Mark
    requires { place ≤ length accepted.now }
    ensures { result ≡ mark_in accepted.now place }
{
    if place == 0 {
        Mark::Reject
    } else {
        accepted[place - 1].copy()
    }
}

impl GatheredMarks {
    /// No mark.
    pub fn new(alloc: Global) -> GatheredMarks
        ensures { result ≡ [] }
    {
        GatheredMarks {
            places: Vec::new(alloc),
            accepted: Vec::new(alloc),
        }
    }

    // Adds a mark with its transaction.
    fn push(&mut self, entry: (TxId, Mark)) -> Result<(), Memory>
        ensures { OnOk result (self.new ≡ self.old ++ entry ∷ []) }
    {
        let (tx, mark) = entry;
        let place = keep(&mut self.accepted, mark)?;
        self.places.push((tx, place))?;
        Ok(())
    }

    // Adds so many marks.
    #[tactic(auto, using(crate::proofs::MarksGathered::read_next, crate::proofs::MarksGathered::read_none))]
    fn push_marks(&mut self, cursor: &mut Cursor<'_>, count: u32) -> Result<(), Memory>
        ensures { OnOk result (self.new ≡ self.old ++ marks_read count cursor.old) }
    {
        let mut left = count;
        while left > 0 {
            match first_entry(cursor) {
                Some(entry) => self.push(entry)?,
                None => return Ok(()),
            }
            left -= 1;
            skip_to_next(cursor, left);
        }
        Ok(())
    }

    // Adds the marks that the fact of a number votes in the instance at a ballot.
    fn push_voted(
        &mut self,
        cells: &FactCells,
        number: u32,
        key: &Key,
        version: u64,
        ballot: &Ballot,
    ) -> Result<(), Memory>
        requires { number < length cells.now.encodings }
        ensures { OnOk result (self.new ≡ self.old ++ marks_at key.now version ballot.now (get_or cells.now.encodings number [])) }
    {
        let mut cursor = cells.start(number);
        match head_in(&cursor, key, version) {
            Some(head) => {
                if head.ballot.is(ballot) {
                    cursor.skip(head.begin);
                    self.push_marks(&mut cursor, head.count)
                } else {
                    Ok(())
                }
            }
            None => Ok(()),
        }
    }

    /// Adds the marks that the fact of a number votes in the instance at a ballot. After an error there
    /// may be some of them.
    pub fn gather(
        &mut self,
        cells: &FactCells,
        number: u32,
        key: &Key,
        version: u64,
        ballot: &Ballot,
    ) -> Result<(), Memory>
        requires { number < length cells.now.encodings }
        ensures { (fact : AFact) → IsWellFormedFact fact → get_or cells.now.encodings number [] ≡ fact_bytes fact → OnOk result (self.new ≡ with_gathered key.now version ballot.now self.old fact) }
    {
        self.push_voted(cells, number, key, version, ballot)
    }

    // A copy of the mark after which so many were gathered.
    fn mark_ranked(&self, rank: usize) -> Option<Mark>
        ensures { result ≡ mark_ranked self.now rank }
    {
        let len = self.places.len();
        if rank < len {
            let (_, place) = self.places[len - 1 - rank];
            Some(mark_in(&self.accepted, place))
        } else {
            None
        }
    }

    // Puts the mark of an entry of the order into a structure, where the transaction has none yet.
    fn put(&self, tx: TxId, rank: usize, votes: &mut Options) -> Result<(), Memory>
        ensures { (t : ATxId) → OnOk result (value_of votes.new t ≡ option_or (value_of votes.old t) (mark_if self.now t (tx, rank))) }
    {
        if votes.mark_of(tx).is_none() {
            if let Some(mark) = self.mark_ranked(rank) {
                votes.insert(tx, mark)?;
            }
        }
        Ok(())
    }

    // Puts the marks into a structure, in an order.
    fn put_all(&self, order: &[(TxId, usize)], votes: &mut Options) -> Result<(), Memory>
        ensures { (t : ATxId) → OnOk result (value_of votes.new t ≡ option_or (value_of votes.old t) (picked self.now t order.now)) }
    {
        for (tx, rank) in order {
            self.put(*tx, *rank, votes)?;
        }
        Ok(())
    }

    /// The oldest mark of each transaction, where the newest fact was gathered first. The marks are put
    /// in order before, so that each is added after the others.
    pub fn joined(&self, alloc: Global) -> Result<Options, Memory>
        ensures { IfOk result (λ votes. votes ≡ oldest_marks self.now) }
    {
        let mut order = ranked(alloc, &self.places)?;
        order.sort_unstable();
        let mut votes = Options::new(alloc)?;
        self.put_all(&order, &mut votes)?;
        let _most = votes.len();
        Ok(votes)
    }
}
