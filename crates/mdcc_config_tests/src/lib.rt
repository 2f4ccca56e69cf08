//! Tests of the configuration: tables of texts with what they say, or why they are refused.
#![tactic(auto)]

#[cfg(test)]
mod accepted;
#[cfg(test)]
mod member_refusals;
#[cfg(test)]
mod text_refusals;
#[cfg(test)]
mod texts;
#[cfg(test)]
mod value_refusals;
