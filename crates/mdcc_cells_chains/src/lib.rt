//! Tables of chains: what is found by a key, without memory but at the start.
#![tactic(auto)]

pub mod chains;
mod heads;
pub mod index;
pub mod index_key;
pub mod key_table;
pub mod theorems;
pub mod unresolved;

pub use chains::Chains;
pub use index::{Index, InstanceIndex, KeyIndex, TransactionIndex};
pub use index_key::IndexKey;
pub use key_table::KeyTable;
pub use theorems::{walks_are_filtered, walks_by_key};
pub use unresolved::Unresolved;
