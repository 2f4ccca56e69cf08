//! What structures, their meets and joins, and the forced marks are for.
ghost use Rattle.mdcc_struct.specs.Counted.{ForcedByCount};
ghost use Rattle.mdcc_struct.specs.Voted.{ForcedByVote};
ghost use Rattle.mdcc_struct.specs.Inclusion.{ExtendsItself, ExtendsOnward, ExtendsBothWays, MeetIsExtended, MeetIsGreatest, JoinExtends, JoinIsLeast, JoinIsThere};

/// Inclusion is an order on structures.
pub fn inclusion_is_an_order()
    ensures reflexive { ExtendsItself }
    ensures transitive { ExtendsOnward }
    ensures antisymmetric { ExtendsBothWays }
{}

/// The meet is the greatest structure that both extend.
pub fn meet_is_greatest()
    ensures extended { MeetIsExtended }
    ensures greatest { MeetIsGreatest }
{}

/// The join is the least structure that extends both, and there is one where anything extends both.
pub fn join_is_least()
    ensures extends { JoinExtends }
    ensures least { JoinIsLeast }
    ensures there { JoinIsThere }
{}

/// At the fast ballot exactly those marks are forced that enough reports have.
pub fn forced_by_count()
    ensures { ForcedByCount }
{}

/// At a classic ballot, where the votes agree, exactly those marks are forced that were voted at it.
pub fn forced_by_vote()
    ensures { ForcedByVote }
{}
