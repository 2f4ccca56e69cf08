//! One round trip: a transaction commits at the last vote of a fast quorum that accepts each of its choices.
#![tactic(auto)]

ghost use Rattle.mdcc_theorem_round_trip.specs.Accepting.{OtherKeysChangeNothing, ProposalsGiveVotes};
ghost use Rattle.mdcc_theorem_round_trip.specs.Cells.{CellsSuffice, HaveCells, RoomyRoundTripCommits};
ghost use Rattle.mdcc_theorem_round_trip.specs.Deciding.{QuorumsCommitAtLast};
ghost use Rattle.mdcc_theorem_round_trip.specs.Example.{votes_delivered, proposals_delivered, world_begun, members, transaction};
ghost use Rattle.mdcc_theorem_round_trip.specs.Refusals.{OnlyLimitsRefuse};
ghost use Rattle.mdcc_theorem_round_trip.specs.RoundTrips.{IsReady, IsRoundTrip, OneRoundTripCommits, ProposalsSendVotes};
ghost use Rattle.mdcc_theorem_round_trip.specs.Worlds.{WorldsAreReady};

/// An acceptor that would accept each of several choices of different keys accepts them in any order: a
/// vote on another key, of a transaction that is not finished, changes nothing that it asks. Each proposal gives a vote, which goes back to the
/// centre that proposed.
pub fn acceptors_accept_in_any_order()
    ensures unchanged { OtherKeysChangeNothing }
    ensures votes { ProposalsGiveVotes }
{}

/// A manager that counts the votes of a fast quorum on each choice, in whatever order they come, decides
/// nothing and sees no collision before the last of them, and commits with it.
pub fn quorums_commit_at_last()
    ensures { QuorumsCommitAtLast }
{}

/// In a world, the deliveries of a transaction's proposals to a fast quorum whose members would accept
/// each of its choices, in any order, followed by those of their votes, in any order, make the centre
/// hear the commit at the last of these votes and not before. What the first deliveries send are just
/// these votes.
pub fn one_round_trip_commits()
    ensures commits { OneRoundTripCommits }
    ensures votes { ProposalsSendVotes }
{}

/// Where each member has cells spare for its votes, and the centre for as many and for the commit, no delivery of a round trip is
/// dropped, and the transaction commits.
pub fn cells_suffice()
    ensures undropped { CellsSuffice }
    ensures commits { RoomyRoundTripCommits }
{}

/// A line of deliveries to centres that are up and have no armed stop is refused only for a limit, so that
/// nothing else keeps the deliveries of a round trip from coming.
pub fn only_limits_refuse_deliveries()
    ensures { OnlyLimitsRefuse }
{}

/// In a world that has its invariant an open transaction of which no vote was counted may commit so
/// wherever the members of a fast quorum would accept each of its choices: its choices are of different
/// keys.
pub fn worlds_are_ready()
    ensures { WorldsAreReady }
{}

/// There are such round trips, so that the theorem does not speak of nothing: here three centres accept
/// two choices.
pub fn example()
    ensures ready { IsReady world_begun 1 transaction members }
    ensures cells { HaveCells world_begun 1 transaction members }
    ensures trip { IsRoundTrip world_begun 1 transaction members proposals_delivered votes_delivered }
{}
