//! Tests of facts in cells: they fill the cells, and are found again.
#![tactic(auto)]

#[cfg(test)]
mod many_votes;
#[cfg(test)]
mod pool_facts;
