//! The protocol of one centre: the types of what its roles answer, and in specs/ what facts say,
//! which options fit beside each other, and what each role answers. (MDCC; Fast Paxos.)
#![tactic(auto)]

pub mod acceptor;
pub mod fit;
pub mod leader;
pub mod manager;
pub mod recover;
pub mod stores;
pub mod visible;
pub mod votes;

pub use acceptor::{AcceptAnswer, PrepareAnswer, ProposeAnswer};
pub use fit::{Fit, Load};
pub use leader::{LeadAnswer, LeadFault, Promise, PromiseAnswer};
pub use manager::ManagerAct;
pub use recover::RecoverAct;
pub use stores::StoreFault;
pub use visible::{Give, Reading};
pub use votes::Vote;
