//! Tests of the log on disks in memory that fail and crash in each call.
#![tactic(auto)]

#[cfg(test)]
mod areas;
#[cfg(test)]
mod groups;
#[cfg(test)]
mod openings;
