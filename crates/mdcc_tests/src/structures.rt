//! Structures of marks.
use crate::facts::tx;
use mdcc_base::{Centre, Quorums};
use mdcc_option::Mark;
use mdcc_struct::{JoinFault, Options, Report, forced};
use std::alloc::Global;
use std::test::Fail;

// The transactions 1.1.1 to 1.1.`count`, each rejected.
fn rejections(alloc: Global, count: u32) -> Result<Options, Fail> {
    let mut options = Options::new(alloc)?;
    for seq in 1..=count {
        let next = tx(seq);
        if options.mark_of(next).is_none() {
            options.insert(next, Mark::Reject)?;
        }
    }
    Ok(options)
}

// Whether the first transaction alone is in a structure, rejected.
fn is_one(options: &Options) -> bool {
    if options.len() != 1 {
        return false;
    }
    let (first, mark) = options.at(0);
    first == tx(1) && matches!(mark, Mark::Reject)
}

#[test]
fn a_structure_is_copied_and_met(rt: HostRuntime) -> Result<(), Fail> {
    let one = rejections(rt.alloc(), 1)?;
    let copy = one.copy(rt.alloc())?;
    assert!(rt; copy.extends(&one) && one.extends(&copy) && is_one(&copy));
    let two = rejections(rt.alloc(), 2)?;
    assert!(rt; is_one(&one.meet(rt.alloc(), &two)?));
    Ok(())
}

// Whether both are in a structure, rejected.
fn are_two(options: &Options) -> bool {
    options.len() == 2
        && options.at(1).0 == tx(2)
        && (options.accepted(), options.rejected()) == (0, 2)
}

#[test]
fn structures_are_joined(rt: HostRuntime) -> Result<(), Fail> {
    let one = rejections(rt.alloc(), 1)?;
    let two = rejections(rt.alloc(), 2)?;
    let all = match one.join(rt.alloc(), &two) {
        Ok(all) => all,
        Err(JoinFault::Differ(_)) | Err(JoinFault::Memory) => Options::new(rt.alloc())?,
    };
    assert!(rt; are_two(&all) && all.differing(&two).is_none());
    Ok(())
}

// What the centre of this number reports, at the fast ballot.
fn report(number: u8, votes: Options) -> Report {
    Report {
        centre: Centre::new(number).unwrap_or_default(),
        ballot: mdcc_base::Ballot::FAST,
        votes,
    }
}

// Of five centres three report; with two votes alike a mark may have been chosen, with one it may not.
#[test]
fn two_of_three_reports_force_a_mark(rt: HostRuntime) -> Result<(), Fail> {
    let quorums = Quorums::new(5, 3, 4).unwrap();
    let reports = [
        report(1, rejections(rt.alloc(), 1)?),
        report(2, rejections(rt.alloc(), 2)?),
        report(3, Options::new(rt.alloc())?),
    ];
    let marks = forced(rt.alloc(), &quorums, &reports)?;
    assert!(rt; marks.len() == 1);
    assert!(rt; marks.at(0).0 == tx(1));
    Ok(())
}
