//! Laws of the tests: a boot's test of a fact is exact, and a ledger that passes the test of whole
//! ledgers is allowed.
#![tactic(auto)]

pub mod tests;
