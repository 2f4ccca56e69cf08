//! What an acceptor answers, by the facts of its centre: to proposals at the fast ballot, to leaders
//! that ask for promises, and to leaders' structures.
#![tactic(auto)]

pub mod accept;
mod bounded;
pub mod prepare;
pub mod propose;

pub use accept::on_accept;
pub use mdcc_def_protocol::{AcceptAnswer, PrepareAnswer, ProposeAnswer};
pub use prepare::on_prepare;
pub use propose::{answer_proposal, on_propose};
