//! What a race is, and what comes of it.

use kp_types::{NodeId, Offset};

/// How many producers hand in how many batches each, and how many elections there are meanwhile. (Own rule.)
#[derive(Clone, Copy, PartialEq, Eq)]
pub struct Plan {
    /// Producers, each in a thread of its own: producer p has the id p, its epoch 0, and sequence numbers from 0 on.
    pub producers: u8,
    /// Batches of one record, by each producer.
    pub batches: u16,
    /// Elections, one after another: the i-th one, from 1 on, is of node i modulo the number of nodes.
    pub moves: u16,
}

/// What came of a race. (Own rule.)
#[derive(Clone, Copy, PartialEq, Eq)]
pub struct Outcome {
    /// How many nodes there were.
    pub nodes: NodeId,
    /// How many batches producers have a receipt of, each counted once.
    pub receipts: u64,
    /// For how many of these a node then answered that the batch is committed.
    pub acknowledged: u64,
    /// The greatest high watermark that a node published.
    pub committed: Offset,
    /// Whether of any two nodes' batches below their watermarks one list begins the other, by base offset, leader epoch and checksum.
    pub agree: bool,
}
