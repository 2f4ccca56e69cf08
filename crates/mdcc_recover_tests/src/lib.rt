//! Tests of the recovery over a store of facts in cells.
#![tactic(auto)]

#[cfg(test)]
mod dangling;
#[cfg(test)]
mod values;
