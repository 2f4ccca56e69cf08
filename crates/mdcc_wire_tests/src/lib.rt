//! Tests of the bytes of messages and facts: values of each kind and their bytes, both ways. The bytes are
//! written out by hand, from the tables of the formats.
#![tactic(auto)]

#[cfg(test)]
mod ballots;
#[cfg(test)]
mod bytes;
#[cfg(test)]
mod clients;
#[cfg(test)]
mod heard;
#[cfg(test)]
mod journal;
#[cfg(test)]
mod kept;
#[cfg(test)]
mod parts;
#[cfg(test)]
mod spelled;
#[cfg(test)]
mod transactions;
#[cfg(test)]
mod worked;
