//! Tests of the text of schedules and reports: tables of headers, lines and words with the events or the faults that they give, the lines of
//! reports, and sample schedules against texts that another program made.
#![tactic(auto)]

#[cfg(test)]
mod adds;
#[cfg(test)]
mod reports;
#[cfg(test)]
mod samples;
#[cfg(test)]
mod schedule_headers;
#[cfg(test)]
mod schedule_lines;
#[cfg(test)]
mod schedule_words;
