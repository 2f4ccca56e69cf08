//! Theorems about the runs of nodes that are served: which inputs datagrams bring, that what a server does is the run of its nodes over
//! these inputs, that what is dropped or refused is as good as none, and that how inputs are grouped changes only when what they make
//! goes out.
#![tactic(auto)]

pub mod laws;

pub use laws::{
    centres_do_their_turns, datagrams_at_the_clients_endpoint_bring_requests,
    datagrams_bring_messages, dropped_pieces_change_nothing, grouping_changes_nothing,
    turns_run_by_inputs, turns_run_without_refused, whole_messages_came_in_pieces,
};
