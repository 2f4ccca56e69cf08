//! Tests of boots and restarts: payloads of facts, written out by hand from the tables of the formats,
//! give a node of the next epoch or are refused.
#![tactic(auto)]

#[cfg(test)]
mod boots;
#[cfg(test)]
mod restarts;
#[cfg(test)]
mod setup;
