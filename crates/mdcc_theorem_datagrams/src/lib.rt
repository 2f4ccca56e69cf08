//! Theorems about messages in datagrams: what was cut is joined again, in whatever order its pieces come.
#![tactic(auto)]

pub mod laws;

pub use laws::{
    a_piece_is_taken, all_pieces_are_the_message, datagram_is_read, joined_from_anything,
    nothing_is_partly, whole_is_the_message,
};
