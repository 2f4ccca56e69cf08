//! What a client asks for.
use mdcc_base::{Centre, HeapList, Key};
use mdcc_def_language::UpdateWord;

/// What a client wants of a centre: to read these keys, and then to make these updates, under this serial.
#[derive(Debug, Drop)]
pub struct Order {
    pub centre: Centre,
    pub serial: u32,
    pub keys: HeapList<Key>,
    pub updates: HeapList<UpdateWord>,
}
