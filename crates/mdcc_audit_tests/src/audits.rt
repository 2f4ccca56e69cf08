//! What audits find, by the definitions of chosen options and outcomes.
use crate::rows::{CLASSIC, Case, Found, Insert, Row, holds_of_three, holds_of_two};
use mdcc_audit::{AuditCause, Verdict3};
use mdcc_base::Ballot;
use std::process::Abort;
use std::test::Fail;

const FAST: Ballot = Ballot {
    round: 0,
    epoch: 0,
    centre: 0,
};

// Inserts of the first transaction of centre 1, of `a` alone or of `a` and `b`, and others.
const A: Insert = Insert {
    by: 1,
    key: b'a',
    value: 1,
    both: false,
};

const OTHER_A: Insert = Insert {
    by: 1,
    key: b'a',
    value: 2,
    both: false,
};

const FIRST: Insert = Insert {
    by: 1,
    key: b'a',
    value: 1,
    both: true,
};

const SECOND: Insert = Insert {
    by: 1,
    key: b'b',
    value: 2,
    both: true,
};

const BY_TWO: Insert = Insert {
    by: 2,
    key: b'a',
    value: 9,
    both: false,
};

const OF_TWO: [Case; 3] = [
    Case {
        name: "different outcomes",
        facts: &[(1, Row::Aborts(1)), (2, Row::Commits(A))],
        found: Found::Pair(AuditCause::Outcomes, (1, 2), (2, 2)),
    },
    Case {
        name: "an outcome without a vote",
        facts: &[(2, Row::Commits(A))],
        found: Found::Pair(AuditCause::Undecided, (2, 2), (2, 2)),
    },
    Case {
        name: "commits that differ in a choice",
        facts: &[(1, Row::Commits(A)), (2, Row::Commits(OTHER_A))],
        found: Found::Pair(AuditCause::Outcomes, (1, 2), (2, 2)),
    },
];

const CONTRADICTIONS: [Case; 6] = [
    Case {
        name: "of two pairs of marks that whose first fact is the earlier, though the other ends before",
        facts: &[
            (1, Row::Accepts(CLASSIC, A)),
            (1, Row::Accepts(CLASSIC, BY_TWO)),
            (2, Row::Rejects(CLASSIC, 2)),
            (3, Row::Rejects(CLASSIC, 1)),
        ],
        found: Found::Pair(AuditCause::Marks, (1, 2), (3, 2)),
    },
    Case {
        name: "different marks at the fast ballot",
        facts: &[(1, Row::Accepts(FAST, A)), (2, Row::Rejects(FAST, 1))],
        found: Found::Verdicts(&[(1, Verdict3::Open)]),
    },
    Case {
        name: "different choices for one key",
        facts: &[(1, Row::Accepts(FAST, A)), (3, Row::Accepts(FAST, OTHER_A))],
        found: Found::Pair(AuditCause::Choices, (1, 2), (3, 2)),
    },
    Case {
        name: "different write sets",
        facts: &[(1, Row::Accepts(FAST, A)), (2, Row::Accepts(FAST, SECOND))],
        found: Found::Pair(AuditCause::Choices, (1, 2), (2, 2)),
    },
    Case {
        name: "different choices in one fact",
        facts: &[(1, Row::CommitsTwo(A, OTHER_A))],
        found: Found::Pair(AuditCause::Choices, (1, 2), (1, 2)),
    },
    Case {
        name: "a choice that was offered is another",
        facts: &[
            (2, Row::RejectsOffered(A)),
            (3, Row::Accepts(FAST, OTHER_A)),
        ],
        found: Found::Pair(AuditCause::Choices, (2, 2), (3, 2)),
    },
];

const VERDICTS: [Case; 10] = [
    Case {
        name: "all accept both, and one hears the commit",
        facts: &[
            (1, Row::Accepts(FAST, FIRST)),
            (1, Row::Accepts(FAST, SECOND)),
            (1, Row::CommitsTwo(FIRST, SECOND)),
            (2, Row::Accepts(FAST, FIRST)),
            (2, Row::Accepts(FAST, SECOND)),
            (3, Row::Accepts(FAST, FIRST)),
            (3, Row::Accepts(FAST, SECOND)),
        ],
        found: Found::Verdicts(&[(1, Verdict3::Commit)]),
    },
    Case {
        name: "half of the commit is heard",
        facts: &[
            (1, Row::Accepts(FAST, FIRST)),
            (1, Row::Accepts(FAST, SECOND)),
            (1, Row::Commits(FIRST)),
            (2, Row::Accepts(FAST, FIRST)),
            (2, Row::Accepts(FAST, SECOND)),
            (3, Row::Accepts(FAST, FIRST)),
            (3, Row::Accepts(FAST, SECOND)),
        ],
        found: Found::Pair(AuditCause::Undecided, (1, 4), (1, 4)),
    },
    Case {
        name: "two of three centres are no fast quorum",
        facts: &[(1, Row::Accepts(FAST, A)), (2, Row::Accepts(FAST, A))],
        found: Found::Verdicts(&[(1, Verdict3::Open)]),
    },
    Case {
        name: "a commit that two of three centres accept at the fast ballot",
        facts: &[
            (1, Row::Accepts(FAST, A)),
            (1, Row::Commits(A)),
            (2, Row::Accepts(FAST, A)),
        ],
        found: Found::Pair(AuditCause::Undecided, (1, 3), (1, 3)),
    },
    Case {
        name: "both marks are chosen, at two ballots",
        facts: &[
            (1, Row::Accepts(FAST, A)),
            (2, Row::Accepts(FAST, A)),
            (2, Row::Rejects(CLASSIC, 1)),
            (3, Row::Accepts(FAST, A)),
            (3, Row::Rejects(CLASSIC, 1)),
        ],
        found: Found::Verdicts(&[(1, Verdict3::Abort)]),
    },
    Case {
        name: "a version that is adopted names no transaction",
        facts: &[(1, Row::Adopts)],
        found: Found::Verdicts(&[]),
    },
    Case {
        name: "two writes of one version: whether the committed ones are a run is not asked",
        facts: &[
            (2, Row::AcceptsTwo(A, BY_TWO)),
            (3, Row::AcceptsTwo(A, BY_TWO)),
        ],
        found: Found::Verdicts(&[(1, Verdict3::Commit), (2, Verdict3::Commit)]),
    },
    Case {
        name: "a centre that votes twice is one of a quorum once",
        facts: &[(2, Row::Rejects(CLASSIC, 1)), (2, Row::Rejects(CLASSIC, 1))],
        found: Found::Verdicts(&[(1, Verdict3::Open)]),
    },
    Case {
        name: "a rejection that names no choice decides",
        facts: &[
            (2, Row::Rejects(CLASSIC, 1)),
            (3, Row::Rejects(CLASSIC, 1)),
            (3, Row::Aborts(1)),
        ],
        found: Found::Verdicts(&[(1, Verdict3::Abort)]),
    },
    Case {
        name: "a choice that was offered is open, and one that all rejected aborts",
        facts: &[
            (1, Row::RejectsOffered(BY_TWO)),
            (1, Row::RejectsOffered(A)),
            (2, Row::RejectsOffered(A)),
            (3, Row::RejectsOffered(A)),
        ],
        found: Found::Verdicts(&[(1, Verdict3::Abort), (2, Verdict3::Open)]),
    },
];

#[test]
fn outcomes(rt: HostRuntime) -> Result<(), Fail> {
    for case in OF_TWO {
        assert!(rt; holds_of_two(rt.alloc(), &case)?, "{}", case.name);
    }
    Ok(())
}

#[test]
fn contradictions(rt: HostRuntime) -> Result<(), Fail> {
    for case in CONTRADICTIONS {
        assert!(rt; holds_of_three(rt.alloc(), &case)?, "{}", case.name);
    }
    Ok(())
}

#[test]
fn verdicts(rt: HostRuntime) -> Result<(), Fail> {
    for case in VERDICTS {
        assert!(rt; holds_of_three(rt.alloc(), &case)?, "{}", case.name);
    }
    Ok(())
}
