//! What the texts say.

ghost use Rattle.kp_texts.specs.Texts.{HasOneRecord, HasOneState};

use kp_model::LeaderAndIsr;
use kp_types::{Epoch, NodeId, Offset};

/// Where a leader epoch begins in a log.
#[derive(Clone, Copy, PartialEq, Eq)]
pub struct EpochStart {
    /// The leader epoch.
    pub epoch: Epoch,
    /// The offset of its first batch.
    pub start: Offset,
}

/// What is kept of a node beside its log.
#[derive(Drop)]
pub struct StateText {
    /// The high watermark that the node kept, at most 2^62.
    pub checkpoint: Offset,
    /// How often it was restarted.
    pub life: u64,
    /// The leader epoch that it last took up.
    pub kept: Option<Epoch>,
    /// The offset up to which its log was kept when this was written, at most 2^62.
    pub end: Offset,
    /// The leader epochs of the log up to there, both numbers rising, from offset 0 on.
    pub starts: Vec<EpochStart>,
}

/// The controller's record, and what is kept beside it.
#[derive(Clone, Copy)]
pub struct RecordText {
    /// How many nodes there are, 1 to 7.
    pub nodes: NodeId,
    /// The record.
    pub controller: LeaderAndIsr,
    /// How many messages had been sent, below 2^31, where that is kept.
    pub messages: Option<u64>,
}

/// That a text is of one value at most: two states in range, or two records, with one text are one. It does nothing when it runs.
pub fn texts_say_one_value()
    ensures states { HasOneState }
    ensures records { HasOneRecord }
{}
