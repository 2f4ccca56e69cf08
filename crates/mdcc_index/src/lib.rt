//! Facts in cells, found by what they say.
#![tactic(auto)]

pub mod fact_pool;
mod fact_store;
mod held;
mod live;
pub mod pool_facts;
mod unresolved;
mod votes;

pub use fact_pool::FactPool;
pub use pool_facts::PoolFacts;
