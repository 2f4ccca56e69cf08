//! Tests of cells, chains and the tables beside facts: what was put is read until it is freed, and which indices are found,
//! where keys share a chain too.
#![tactic(auto)]

#[cfg(test)]
mod chains;
#[cfg(test)]
mod facts;
#[cfg(test)]
mod held_tables;
#[cfg(test)]
mod indexes;
#[cfg(test)]
mod key_tables;
#[cfg(test)]
mod pool;
#[cfg(test)]
mod unresolved;
#[cfg(test)]
mod unresolved_tables;
#[cfg(test)]
mod values;
