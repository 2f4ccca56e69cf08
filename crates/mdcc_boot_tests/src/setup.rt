//! The cluster of the tests, and payloads of facts.
use mdcc_base::Quorums;
use mdcc_option::{Cluster, FastLimit, Schema};
use std::process::Abort;

/// Booted in epoch 1.
pub const BOOTED: [u8; 5] = [1, 1, 0, 0, 0];

/// Promised ballot 1.1.2 for key a at version 0 alone.
pub const PROMISED: [u8; 28] = [
    2, 1, 97, 0, 0, 0, 0, 0, 0, 0, 0, 0, 0, 0, 0, 0, 0, 0, 0, 1, 0, 0, 0, 1, 0, 0, 0, 2,
];

/// Heard that transaction 1.1.1 aborted.
pub const HEARD: [u8; 11] = [4, 1, 1, 0, 0, 0, 1, 0, 0, 0, 0];

/// All centres have heard the transactions of epoch 1 of centre 1 through number 1.
pub const FLOOR: [u8; 10] = [6, 1, 1, 0, 0, 0, 1, 0, 0, 0];

/// Five centres and one attribute.
pub fn five_centres(rt: &impl Abort) -> Cluster {
    Cluster {
        quorums: Quorums::new(5, 3, 4).unwrap(),
        schema: Schema::new(&[(0, 1000)]).expect(rt, "a schema"),
        gamma: 100,
        cells: 1_048_576,
        limit: FastLimit::Safe,
    }
}
