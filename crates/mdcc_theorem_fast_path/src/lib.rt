//! The fast path of every trace: a commit in one round trip.
#![tactic(auto)]

ghost use Rattle.mdcc_theorem_agreement.specs.Example.{ballot};
ghost use Rattle.mdcc_theorem_fast_path.specs.Accepting.{TheyAccept, TheyMay};
ghost use Rattle.std.specs.List.{AllByRecursion};
ghost use Rattle.std.specs.Prelude.{[], ◌∷◌, ◌≡◌};
ghost use Rattle.mdcc_option.specs.declared.choices.Cause.{Cause};
ghost use Rattle.mdcc_def_protocol.specs.IsCluster.{IsCluster};
ghost use Rattle.mdcc_theorem_round_trip.specs.Deciding.{IsFastQuorum};
ghost use Rattle.mdcc_theorem_round_trip.specs.Example.{cluster_of_three, members, proposals_delivered, transaction, votes_delivered};
ghost use Rattle.mdcc_theorem_round_trip.specs.RoundTrips.{IsRoundTrip};
ghost use Rattle.mdcc_theorem_fast_path.specs.Broken.{LacksOne, first_version_unheard, first_write, older_lines, open_decrease, promised, promised_lines, room_taken, second_write, taken_lines, two_lines};
ghost use Rattle.mdcc_theorem_fast_path.specs.Example.{schedule};
ghost use Rattle.mdcc_theorem_fast_path.specs.FastPaths.{AcceptsAll, FastPathsCommit, IsUntaken, RoomyFastPathsCommit, RunsReportThem, VotesAreGiven};
ghost use Rattle.mdcc_theorem_fast_path.specs.Opened.{OpenIsUnheard, OpenWereProposed};
ghost use Rattle.mdcc_theorem_fast_path.specs.Splitting.{DeliverLinesSplit};
ghost use Rattle.mdcc_theorem_fast_path.specs.States.{state_after};

/// In every trace a centre has not heard the outcome of a transaction that is open there: it closes a
/// transaction when it hears its outcome, and begins each under an identifier that was never used.
pub fn open_is_unheard()
    ensures { OpenIsUnheard }
{}

/// In every trace each choice of an open transaction was proposed to each centre, so that the deliveries
/// of a fast path have messages to deliver.
pub fn open_were_proposed()
    ensures { OpenWereProposed }
{}

/// An acceptor gives its vote to accept a choice just where it holds its version, promised no classic
/// ballot there, has neither heard the transaction nor voted on it there, and the choice fits within its
/// share and has room.
pub fn acceptors_accept_where_they_may()
    ensures accepts { TheyAccept }
    ensures may { TheyMay }
{}

/// From every state of a trace: take a transaction that is open at a centre, of which no vote was taken
/// there, and as many members as a fast quorum has that would accept each of its choices, all of them up
/// and without an armed stop. The deliveries of its proposals to these members in any order, and then of
/// the votes that they gave in any order, make the centre hear the commit at the last of these votes and
/// not before, as long as no limit is reached. So they do where no line is refused and these centres
/// have cells enough spare. The first deliveries give these votes. The run of the schedule that goes on
/// with the two lines reports it so.
pub fn fast_paths_commit()
    ensures votes { VotesAreGiven }
    ensures commits { FastPathsCommit }
    ensures roomy { RoomyFastPathsCommit }
    ensures report { RunsReportThem }
{}

/// A line of deliveries is the same as two, one after the other. So what was said of the states between
/// lines holds of those within a line of deliveries too.
pub fn deliver_lines_split()
    ensures { DeliverLinesSplit }
{}

/// There are such fast paths, so that the theorem does not speak of nothing: here three centres accept
/// two choices.
pub fn example()
    ensures cluster { IsCluster cluster_of_three }
    ensures untaken { IsUntaken (state_after cluster_of_three schedule) 1 transaction }
    ensures quorum { IsFastQuorum cluster_of_three.quorums members }
    ensures accept { AllByRecursion (AcceptsAll (state_after cluster_of_three schedule) transaction) members }
    ensures trip { IsRoundTrip (state_after cluster_of_three schedule) 1 transaction members proposals_delivered votes_delivered }
{}

/// Each premise on members is needed. A member that holds an older version gives no vote, and then the
/// centre does not hear the commit.
pub fn an_older_member_gives_no_vote()
    ensures lacks { LacksOne first_version_unheard 1 second_write (1 ∷ 2 ∷ []) 3 Cause.Behind }
    ensures lines { two_lines first_version_unheard (9 ∷ 10 ∷ 11 ∷ []) (12 ∷ 13 ∷ 14 ∷ []) ≡ older_lines }
{}

/// So it is with one that promised a classic ballot,
pub fn a_promised_member_gives_no_vote()
    ensures lacks { LacksOne promised 1 first_write (1 ∷ 2 ∷ []) 3 (Cause.Classic ballot) }
    ensures lines { two_lines promised (11 ∷ 12 ∷ 13 ∷ []) (14 ∷ 15 ∷ 16 ∷ []) ≡ promised_lines }
{}

/// and with one whose share of the room the choice passes.
pub fn a_member_past_its_share_gives_no_vote()
    ensures lacks { LacksOne room_taken 2 open_decrease (1 ∷ 2 ∷ []) 3 (Cause.Limit 1) }
    ensures lines { two_lines room_taken (16 ∷ 17 ∷ 18 ∷ []) (20 ∷ 21 ∷ 22 ∷ []) ≡ taken_lines }
{}
