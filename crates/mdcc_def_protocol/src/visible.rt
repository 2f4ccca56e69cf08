//! What readers and other centres are shown of a key.
use mdcc_base::{HeapList, Key};
use mdcc_option::{Delta, Item, Token};

/// What a read shows: what the reader saw, and the item with the executed deltas in it. There is
/// none at version 0. `due` is true where so many deltas are executed that the value should be
/// written anew.
#[derive(Debug, Drop)]
pub struct Reading {
    pub token: Token,
    pub item: Option<Item>,
    pub due: bool,
}

/// What a centre gives another one of a key: the version that it holds, the item that was written
/// as its base, and the executed deltas, ascending by transaction.
#[derive(Debug, Drop)]
pub struct Give {
    pub key: Key,
    pub version: u64,
    pub item: Item,
    pub adds: HeapList<Delta>,
}
