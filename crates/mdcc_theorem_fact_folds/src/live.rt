//! What is live in an instance, and how many marks stand there.
ghost use Rattle.mdcc_theorem_fact_folds.specs.Live.{CountByFold, CountInChain, EntriesByFold, EntriesByWalk, EntriesInChain, EntriesUpdate, FirstLiveOfOrdered, IsLiveByWalk};
ghost use Rattle.mdcc_theorem_fact_folds.specs.Live.{LiveInChain, LoadBySteps, LoadByWalk, UpdateByWalk, WellFormedAreOrdered};

/// The load of an instance is summed in one walk of its chain. A transaction counts at the oldest fact
/// that makes it live there, whether by a fast vote, a classic one, a commit or an adoption, and not
/// where it is void. Where the entries of each fact stand in order, it counts where no older fact of the
/// chain makes it live.
pub fn load()
    ensures chain { LiveInChain }
    ensures walk { LoadByWalk }
    ensures steps { LoadBySteps }
{}

/// What a fact makes live first, where its own entries stand in order, as those of a well-formed fact
/// do: the entries of transactions that no older fact makes live.
pub fn first_live()
    ensures well_formed { WellFormedAreOrdered }
    ensures ordered { FirstLiveOfOrdered }
{}

/// The update of one transaction that the facts of a chain make live, and whether there is one: so a
/// walk of the older facts says whether a fact is the first.
pub fn update()
    ensures walk { UpdateByWalk }
    ensures live { IsLiveByWalk }
{}

/// The entries are counted in one walk of the chain. A transaction counts at the oldest fast vote;
/// where no mark was voted twice at its ballot, each mark counts, and a further fact adds its own.
pub fn entries()
    ensures chain { EntriesInChain }
    ensures walk { EntriesByWalk }
    ensures once { EntriesByFold }
    ensures updates { EntriesUpdate }
{}

/// How many transactions of a structure were voted is summed over the chain, where no mark was voted
/// twice at its ballot.
pub fn count_voted()
    ensures chain { CountInChain }
    ensures once { CountByFold }
{}
