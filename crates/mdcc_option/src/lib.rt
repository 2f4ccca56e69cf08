//! Items, transactions and their options, and the one-copy store that they are for.
#![tactic(auto)]

mod bounds;
pub mod choices;
pub mod cluster;
pub mod equality;
pub mod faults;
mod held;
pub mod items;
pub mod one_copy;
pub mod schema;
pub mod transaction;
mod update;

pub use choices::{Cause, Choice, Claim, Mark, Outcome};
pub use cluster::{Cluster, FastLimit};
pub use faults::{BeginFault, DraftFault};
pub use held::{amount_at, read_value, value_after};
pub use items::{Amounts, Body, Delta, Item, Known, Part, Seen, Token, Update, Values, WriteSet};
pub use one_copy::{Applied, OneCopy};
pub use schema::{Schema, SchemaFault};
pub use transaction::{Transaction, parts_fault};
