//! What a centre hears, shows to readers, and passes on to others that are behind.
#![tactic(auto)]

mod deltas;
pub mod outcomes;
pub mod reading;
pub mod sync;

pub use mdcc_def_messages::Fact;
pub use mdcc_def_protocol::{Give, Reading};
pub use outcomes::on_outcome;
pub use reading::{read, rebase_due};
pub use sync::{on_sync_ask, on_sync_give};
