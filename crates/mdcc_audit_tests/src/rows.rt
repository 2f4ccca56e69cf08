//! Rows of facts, and whether an audit of them finds what it should.
use mdcc_audit::{AuditCause, AuditFault, Audited, Place, Verdict3, audit};
use mdcc_base::{Ballot, BoundedList, Centre, HeapList, Key, Quorums, TxId};
use mdcc_def_messages::Fact;
use mdcc_option::{Choice, Cluster, FastLimit, Item, Mark, Outcome, Schema, Update};
use mdcc_struct::Options;
use std::alloc::Global;
use std::test::Fail;

/// A classic ballot of centre 2.
pub const CLASSIC: Ballot = Ballot {
    round: 1,
    epoch: 1,
    centre: 2,
};

/// The insert of a key by the first transaction of a centre; the write set is `a` and `b`, or `a`
/// alone.
#[derive(Clone, Copy)]
pub struct Insert {
    pub by: u8,
    pub key: u8,
    pub value: i64,
    pub both: bool,
}

/// A fact of a log; marks are of `a` or of the key of the insert.
#[derive(Clone, Copy)]
pub enum Row {
    Accepts(Ballot, Insert),
    AcceptsTwo(Insert, Insert),
    Rejects(Ballot, u8),
    /// A rejection at the fast ballot, with the choice that was offered.
    RejectsOffered(Insert),
    Commits(Insert),
    CommitsTwo(Insert, Insert),
    Aborts(u8),
    Adopts,
}

/// Two facts, each by centre and number, or transactions, each by its centre, with verdicts.
#[derive(Clone, Copy)]
pub enum Found {
    Pair(AuditCause, (u8, u64), (u8, u64)),
    Verdicts(&'static [(u8, Verdict3)]),
}

/// The facts of the logs behind their boots, each with its centre, and what an audit finds.
#[derive(Clone, Copy)]
pub struct Case {
    pub name: &'static str,
    pub facts: &'static [(u8, Row)],
    pub found: Found,
}

fn centre(number: u8) -> Centre {
    Centre::new(number).unwrap_or_default()
}

fn key(letter: u8) -> Key {
    Key::new(&[letter]).unwrap_or_default()
}

fn tx(by: u8) -> TxId {
    TxId {
        centre: centre(by),
        epoch: 1,
        seq: 1,
    }
}

fn keys_of(insert: &Insert) -> BoundedList<(Key, u64), 8> {
    let keys = if insert.both {
        BoundedList::from_slice(&[(key(b'a'), 0), (key(b'b'), 0)])
    } else {
        BoundedList::from_slice(&[(key(b'a'), 0)])
    };
    keys.unwrap_or_default()
}

fn choice(insert: &Insert) -> Choice {
    let item = Item {
        body: BoundedList::new(),
        values: BoundedList::from_slice(&[insert.value]).unwrap_or_default(),
    };
    Choice {
        tx: tx(insert.by),
        key: key(insert.key),
        version: 0,
        update: Update::Write(item, BoundedList::new()),
        write_set: keys_of(insert),
    }
}

fn accept(options: &mut Options, insert: &Insert) -> Result<(), Fail> {
    let own = tx(insert.by);
    if options.mark_of(own).is_none() {
        options.insert(own, Mark::Accept(choice(insert)))?;
    }
    Ok(())
}

fn reject(options: &mut Options, by: u8) -> Result<(), Fail> {
    let own = tx(by);
    if options.mark_of(own).is_none() {
        options.insert(own, Mark::Reject)?;
    }
    Ok(())
}

fn vote(letter: u8, ballot: Ballot, options: Options, offered: Option<Choice>) -> Fact {
    Fact::Voted {
        key: key(letter),
        version: 0,
        ballot,
        options,
        offered,
    }
}

fn accepts(alloc: Global, ballot: Ballot, insert: &Insert) -> Result<Fact, Fail> {
    let mut options = Options::new(alloc)?;
    accept(&mut options, insert)?;
    Ok(vote(insert.key, ballot, options, None))
}

fn accepts_two(alloc: Global, a: &Insert, b: &Insert) -> Result<Fact, Fail> {
    let mut options = Options::new(alloc)?;
    accept(&mut options, a)?;
    accept(&mut options, b)?;
    Ok(vote(a.key, CLASSIC, options, None))
}

fn rejects(alloc: Global, ballot: Ballot, by: u8) -> Result<Fact, Fail> {
    let mut options = Options::new(alloc)?;
    reject(&mut options, by)?;
    Ok(vote(b'a', ballot, options, None))
}

fn rejects_offered(alloc: Global, insert: &Insert) -> Result<Fact, Fail> {
    let mut options = Options::new(alloc)?;
    reject(&mut options, insert.by)?;
    Ok(vote(insert.key, Ballot::FAST, options, Some(choice(insert))))
}

fn heard(by: u8, outcome: Outcome) -> Fact {
    Fact::Heard {
        tx: tx(by),
        outcome,
    }
}

fn commit(choices: &[Choice]) -> Outcome {
    Outcome::Commit(BoundedList::from_slice(choices).unwrap_or_default())
}

fn adopted(alloc: Global) -> Fact {
    Fact::Adopted {
        key: key(b'a'),
        version: 7,
        item: Item::default(),
        adds: HeapList::new(alloc),
    }
}

fn fact(alloc: Global, row: &Row) -> Result<Fact, Fail> {
    match row {
        Row::Accepts(ballot, insert) => accepts(alloc, *ballot, insert),
        Row::AcceptsTwo(a, b) => accepts_two(alloc, a, b),
        Row::Rejects(ballot, by) => rejects(alloc, *ballot, *by),
        Row::RejectsOffered(insert) => rejects_offered(alloc, insert),
        Row::Commits(insert) => Ok(heard(insert.by, commit(&[choice(insert)]))),
        Row::CommitsTwo(a, b) => Ok(heard(a.by, commit(&[choice(a), choice(b)]))),
        Row::Aborts(by) => Ok(heard(*by, Outcome::Abort)),
        Row::Adopts => Ok(adopted(alloc)),
    }
}

fn log_of(alloc: Global, facts: &[(u8, Row)], centre: u8) -> Result<HeapList<Fact>, Fail> {
    let mut log = HeapList::new(alloc);
    log.push(Fact::Booted(1))?;
    for one in facts {
        if one.0 == centre {
            log.push(fact(alloc, &one.1)?)?;
        }
    }
    Ok(log)
}

fn cluster(centres: u8, classic: u8, fast: u8) -> Result<Cluster, Fail> {
    let quorums = Quorums::new(centres, classic, fast)?;
    Ok(Cluster {
        quorums,
        schema: Schema::new(&[(0, 1000)])?,
        gamma: 100,
        cells: 65_536,
        limit: FastLimit::Safe,
    })
}

fn place(at: (u8, u64)) -> Place {
    Place {
        centre: centre(at.0),
        number: at.1,
    }
}

fn is_pair(fault: AuditFault, found: Found) -> bool {
    match found {
        Found::Pair(cause, first, second) => {
            fault == AuditFault::Contradiction(cause, place(first), place(second))
        }
        Found::Verdicts(_) => false,
    }
}

fn are_verdicts(audited: &[(TxId, Verdict3)], verdicts: &[(u8, Verdict3)]) -> bool {
    if audited.len() != verdicts.len() {
        return false;
    }
    for i in 0..verdicts.len() {
        if audited[i].0 != tx(verdicts[i].0) || audited[i].1 != verdicts[i].1 {
            return false;
        }
    }
    true
}

fn has_verdicts(audited: &Audited, found: Found) -> bool {
    match found {
        Found::Verdicts(verdicts) => are_verdicts(audited.as_slice(), verdicts),
        Found::Pair(_, _, _) => false,
    }
}

fn is_found(audited: &Result<Audited, AuditFault>, found: Found) -> bool {
    match audited {
        Ok(audited) => has_verdicts(audited, found),
        Err(fault) => is_pair(*fault, found),
    }
}

fn finds(alloc: Global, cluster: &Cluster, logs: &[HeapList<Fact>], found: Found) -> bool {
    if logs.len() != usize::from(cluster.quorums.centres()) {
        return false;
    }
    is_found(&audit(alloc, cluster, logs), found)
}

/// Whether an audit of two centres, which are both a quorum, finds what it should.
pub fn holds_of_two(alloc: Global, case: &Case) -> Result<bool, Fail> {
    let cluster = cluster(2, 2, 2)?;
    let one = log_of(alloc, case.facts, 1)?;
    let two = log_of(alloc, case.facts, 2)?;
    Ok(finds(alloc, &cluster, &[one, two], case.found))
}

/// Whether an audit of three centres, of which two are a classic quorum and three a fast one, finds
/// what it should.
pub fn holds_of_three(alloc: Global, case: &Case) -> Result<bool, Fail> {
    let cluster = cluster(3, 2, 3)?;
    let one = log_of(alloc, case.facts, 1)?;
    let two = log_of(alloc, case.facts, 2)?;
    let three = log_of(alloc, case.facts, 3)?;
    Ok(finds(alloc, &cluster, &[one, two, three], case.found))
}
