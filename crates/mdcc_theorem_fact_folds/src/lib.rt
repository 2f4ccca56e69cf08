//! Each question of a store of facts, from only those facts that concern it.
//!
//! A store that keeps its facts in chains finds a chain by an instance, a key or a transaction, and walks it from the newest fact to
//! the oldest. Each theorem says of one question that no fact outside of a chain changes its answer, and that the answer is a fold
//! over the chain. A chain may have more facts than it has to (`Covers` in `specs/Chains`).
//!
//! | Question | Chain | Fold | Function |
//! |---|---|---|---|
//! | `heard`, `ended`, `is_heard` | outcomes of the transaction | the older counts; whether there is one | `outcomes` |
//! | `promise` | promises of the key, then votes in the instance | the greatest ballot | `promises::promise` |
//! | `promised` | promises of the key | the older counts | `promises::promised` |
//! | `epoch` | none: a number | that of the last boot | `promises::epoch` |
//! | `vote_of` | votes in the instance | the greatest ballot, of one ballot the older | `votes::vote_of` |
//! | `voted_below` | votes in the instance | the greatest ballot | `votes::voted_below` |
//! | `votes` | votes in the instance | the marks of the older fact, beside them the later ones | `votes::votes` |
//! | `count_voted` | votes in the instance | where nothing was voted twice, a sum over the facts | `live::count_voted` |
//! | `mark_after` | votes in the instance | three folds: the ballot, the least transaction above, its mark | `votes::marks` |
//! | `marks` | votes in the instance | not a fold: `mark_after` so many times | `votes::marks` |
//! | `choice_of` | votes in the instance | the older counts | `votes::choice_of` |
//! | `current`, `base` | none: two values at the key | the fact that raises the version brings the base | `held::held` |
//! | `executed`, `delta` | commits and adoptions of the version held | the older counts | `held::executed` |
//! | `would_crowd` | the same, of the version held with the fact | how many deltas there are with it | `held::would_crowd` |
//! | `load` | votes, commits and adoptions of the instance; of each transaction, whether it is void | what no older fact makes live | `live::load` |
//! | `entries` | votes in the instance | the fast marks that no older fact has; where nothing was voted twice, all | `live::entries` |
//! | `unresolved`, `unresolved_all` | none: a list in order | an outcome takes out, a vote puts in | `unresolved::unresolved` |
//! | `write_set` | none: a table; or the facts with a choice of the transaction | the older counts | `unresolved::write_set` |
#![tactic(auto)]

pub mod added;
pub mod chains;
pub mod held;
pub mod live;
pub mod outcomes;
pub mod promises;
pub mod unresolved;
pub mod votes;
