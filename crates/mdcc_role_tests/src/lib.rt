//! Tests of the roles of a centre over a store of facts in cells.
#![tactic(auto)]

#[cfg(test)]
mod acceptor;
#[cfg(test)]
mod leader;
#[cfg(test)]
mod manager;
#[cfg(test)]
mod values;
#[cfg(test)]
mod visible;
