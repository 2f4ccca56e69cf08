//! Tests of files, sockets and links in memory, and of messages that are cut into datagrams and joined again.
#![tactic(auto)]

#[cfg(test)]
mod datagrams;
#[cfg(test)]
mod files;
#[cfg(test)]
mod joining;
#[cfg(test)]
mod memory;
#[cfg(test)]
mod sockets;
