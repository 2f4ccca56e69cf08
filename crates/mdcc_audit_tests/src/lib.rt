//! Tests of the audit of logs, as rows of facts, and of the checker of histories.
#![tactic(auto)]

#[cfg(test)]
mod audits;
#[cfg(test)]
mod histories;
#[cfg(test)]
mod rows;
#[cfg(test)]
mod written;
