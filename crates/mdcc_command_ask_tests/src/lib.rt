//! Tests of a client, over objects in memory.
#![tactic(auto)]

#[cfg(test)]
mod asks;
#[cfg(test)]
mod made;
#[cfg(test)]
mod stops;
