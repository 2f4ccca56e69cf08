//! What an audit says of the logs of an allowed ledger.
#![tactic(auto)]

pub mod answers;
pub mod choices;
pub mod marks;
pub mod outcomes;

pub use answers::audits_give_outcomes;
pub use choices::choices_never_contradict;
pub use marks::marks_never_contradict;
pub use outcomes::outcomes_never_contradict;
