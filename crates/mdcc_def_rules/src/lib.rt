//! The rules of a node: the types of its inputs and steps, and in specs/ what each input makes it do
//! and what it boots from.
#![tactic(auto)]

pub mod node;

pub use node::{Answer, BootFault, Input, Step, StepFault};
