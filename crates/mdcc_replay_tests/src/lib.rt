//! Tests of whole replays over objects in memory: what the program writes and answers.
#![tactic(auto)]

#[cfg(test)]
mod replay_rows;
#[cfg(test)]
mod replays;
#[cfg(test)]
mod restarts;
#[cfg(test)]
mod runs;
#[cfg(test)]
mod samples;
