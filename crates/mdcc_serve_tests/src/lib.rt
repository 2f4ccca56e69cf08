//! Tests of servers, of what they send, print and keep of their client, and of a look into a log, over objects in memory.
#![tactic(auto)]

#[cfg(test)]
mod dumps;
#[cfg(test)]
mod hostile;
#[cfg(test)]
mod made;
#[cfg(test)]
mod rows;
#[cfg(test)]
mod servers;
