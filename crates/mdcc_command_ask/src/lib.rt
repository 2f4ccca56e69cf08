//! A client of one centre: it reads keys and begins a transaction, one request at a time, and prints the answers.
#![tactic(auto)]

mod answers;
pub mod asking;
pub mod client;
pub mod command;
pub mod fault;
pub mod order;
pub mod reply;
pub mod request;
mod requests;
mod sending;
mod texts;

pub use asking::ask;
pub use command::run_ask;
pub use fault::AskFault;
pub use order::Order;
