//! What a client asks a centre.
use mdcc_base::{HeapList, Key};
use mdcc_def_language::UpdateWord;

/// What a client asks the centre of a number, in so many turns and under a serial.
#[derive(Debug, Drop)]
pub struct Question {
    pub centre: u32,
    pub turns: u32,
    pub serial: u32,
    /// The keys that are read.
    pub keys: HeapList<Key>,
    /// The updates of the transaction that is begun after these reads, where there are any.
    pub updates: HeapList<UpdateWord>,
}
