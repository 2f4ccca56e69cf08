//! Tests of the commands that judge: a history that is checked, and logs that are audited.
#![tactic(auto)]

#[cfg(test)]
mod audits;
#[cfg(test)]
mod histories;
#[cfg(test)]
mod runs;
