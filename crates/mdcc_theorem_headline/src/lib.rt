//! The law that the protocol is for, of whole replays: what is committed is a run of the one-copy store, and the report tells the
//! truth of it.
#![tactic(auto)]

ghost use Rattle.mdcc_theorem_headline.specs.Headline.{EveryReplayTellsTruth, EveryRunTellsTruth};

/// In every run the committed transactions, in the order in which they were chosen, are a run of the one-copy store, and each is a
/// whole one; every reported commit is in it, no reported abort is, and every reported read is what that store shows of an item
/// version with some of its committed deltas. Each line tells so from the moment on at which it became true, and the `chosen` lines
/// in that order. A replay prints such a run.
pub fn headline()
    ensures runs { EveryRunTellsTruth }
    ensures replays { EveryReplayTellsTruth }
{}
