//! Tests that call across crates: what no contract can say, such as that a call finds memory where
//! there is some.
#![tactic(auto)]

pub mod adding;
#[cfg(test)]
mod asked;
#[cfg(test)]
mod drafts;
#[cfg(test)]
mod facts;
#[cfg(test)]
mod names;
#[cfg(test)]
mod outside;
#[cfg(test)]
mod store;
#[cfg(test)]
mod structures;
#[cfg(test)]
mod votes;
