//! What a client does at once.
ghost use Rattle.std.specs.Prelude.{◌≡◌, [], false};

use mdcc_base::HeapList;
use std::alloc::Global;

/// What a client prints at once, and whether it sends its request then.
#[derive(Drop)]
pub struct Reply {
    pub text: HeapList<u8>,
    pub sends: bool,
}

impl Reply {
    /// Nothing is printed or sent.
    pub fn idle(alloc: Global) -> Reply
        ensures { result ≡ record { text = []; sends = false } }
    {
        Reply {
            text: HeapList::new(alloc),
            sends: false,
        }
    }
}
