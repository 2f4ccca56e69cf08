//! Tests of whole replays over objects in memory: classic ballots, adds, dangling transactions,
//! centres that catch up, appends that stop, and nodes with few cells.
#![tactic(auto)]

#[cfg(test)]
mod away;
#[cfg(test)]
mod ballot_rows;
#[cfg(test)]
mod ballots;
#[cfg(test)]
mod cells;
#[cfg(test)]
mod moments;
#[cfg(test)]
mod runs;
#[cfg(test)]
mod stop_rows;
#[cfg(test)]
mod stops;
#[cfg(test)]
mod whole_rows;
