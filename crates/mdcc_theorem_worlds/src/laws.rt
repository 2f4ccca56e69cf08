//! What holds of a world at every moment, and what its events do.
ghost use Rattle.mdcc_theorem_worlds.specs.BeginEffects.{BeginsHappen, PartsAreWellFormed};
ghost use Rattle.mdcc_theorem_worlds.specs.DeliveryProgress.{DeliveriesHappen, DeliversBegin, DeliversEnd, DeliversGoOn, DeliversStop};
ghost use Rattle.mdcc_theorem_worlds.specs.Events.{EventsStay};
ghost use Rattle.mdcc_theorem_worlds.specs.EventEffects.{CrashesHappen, ReadsHappen, RestartsHappen, StopsHappen, SweepsHappen, TicksHappen};
ghost use Rattle.mdcc_theorem_worlds.specs.StepSends.{OthersBeginNothing, StepsStayWithin};
ghost use Rattle.mdcc_theorem_worlds.specs.SettleProgress.{SettlesBegin, SettlesBreak, SettlesEnd, SettlesFail, SettlesGoOn, SettlesStop};
ghost use Rattle.mdcc_theorem_worlds.specs.WorldInvariant.{CountedStays, CrashStays, DeliveredStays, FirstWorldIsWorld, ReadStays, RestartStays, StopStays, WorldStays};
ghost use Rattle.mdcc_theorem_worlds.specs.StepEffects.{InputsHappen};

/// Messages go to centres of the cluster, no step tells a fact but its own, and no input but a begin
/// begins a transaction.
pub fn steps_stay_within()
    ensures within { StepsStayWithin }
    ensures quiet { OthersBeginNothing }
{}

/// In a world each centre has a node, also one that is down, and all messages are well-formed and for
/// centres of the cluster: at first, after each input of a centre, after each delivery and read, after a
/// crash and a restart, and after a stop is armed. Logs stay within their limit, the facts of a centre had
/// room in turn in the cells of its node, and each message that brings a structure is short enough for a frame of a log.
pub fn worlds_stay()
    ensures first { FirstWorldIsWorld }
    ensures input { WorldStays }
    ensures delivered { DeliveredStays }
    ensures counted { CountedStays }
    ensures read { ReadStays }
    ensures crash { CrashStays }
    ensures restart { RestartStays }
    ensures stop { StopStays }
{}

/// It is so after each event that happens, and there are no more events than there may be.
pub fn events_stay()
    ensures { EventsStay }
{}

/// What a read, a tick, a sweep, a crash, a restart, a stop, a delivery and a begin do, and for which cause nothing
/// happens: the causes stand in the order in which they are asked. An input of a centre comes to its
/// step, unless that would pass a limit: that of the log is asked before that of the messages. One whose
/// append stops sends nothing.
pub fn events_happen()
    ensures read { ReadsHappen }
    ensures tick { TicksHappen }
    ensures sweep { SweepsHappen }
    ensures crash { CrashesHappen }
    ensures restart { RestartsHappen }
    ensures stop { StopsHappen }
    ensures delivery { DeliveriesHappen }
    ensures begin { BeginsHappen }
    ensures input { InputsHappen }
{}

/// The parts of a transaction that words stand for are well-formed.
pub fn begun_parts_are_well_formed()
    ensures { PartsAreWellFormed }
{}

/// A deliver line delivers its messages in turn, and the first that is refused refuses the line. What
/// was delivered before stays so.
pub fn delivers_deliver()
    ensures begins { DeliversBegin }
    ensures goes_on { DeliversGoOn }
    ensures ends { DeliversEnd }
    ensures stops { DeliversStop }
{}

/// A settle delivers the first message that waits for a centre that is up, again and again until none
/// does. It fails where a delivery is refused, where there were as many events as there may be before
/// it, or where there are and a message waits.
pub fn settles_deliver()
    ensures begins { SettlesBegin }
    ensures goes_on { SettlesGoOn }
    ensures breaks { SettlesBreak }
    ensures ends { SettlesEnd }
    ensures stops { SettlesStop }
    ensures fails { SettlesFail }
{}
