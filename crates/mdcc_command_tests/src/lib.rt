//! Tests of the whole program over objects in memory: what each command prints, what it sends and stores, and each call that fails.
#![tactic(auto)]

#[cfg(test)]
mod checkpoint_stops;
#[cfg(test)]
mod checkpoints;
#[cfg(test)]
mod clients;
#[cfg(test)]
mod commands;
#[cfg(test)]
mod datagrams;
#[cfg(test)]
mod faults;
#[cfg(test)]
mod groups;
#[cfg(test)]
mod holds;
#[cfg(test)]
mod logs;
#[cfg(test)]
mod pausing;
#[cfg(test)]
mod program;
#[cfg(test)]
mod questions;
#[cfg(test)]
mod refusals;
pub mod runs;
