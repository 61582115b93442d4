//! What a node may be asked to do, and what comes of it.

use crate::adopting::Role;
use crate::altering::{IsrChange, Learned};
use crate::cutting::CutBack;
use crate::producing::Receipt;
use crate::reading::Shown;
use crate::taking::Taken;
use kp_batch::Handed;
use kp_marker::HandedMarker;
use kp_model::MessageBody;
use kp_types::Offset;
use kp_visible::ReadRecords;

/// What a node does that is handed no bytes. (Kafka replication design.)
#[derive(Clone, Copy)]
pub enum PlainAct {
    /// It takes up the controller's record.
    Adopt,
    /// A transaction coordinator hands it this marker, to be appended. (KIP-98.)
    Mark { marker: HandedMarker },
    /// It asks the leader that it follows.
    Ask,
    /// It raises its high watermark, as far as it may.
    Raise,
    /// It asks the controller for a change of the in-sync replicas, which it leads.
    Alter { change: IsrChange },
    /// It notes its high watermark, to start from there when it is restarted.
    Checkpoint,
    /// It stops, and keeps its log.
    Stop,
    /// It starts again, in its next life.
    Restart,
    /// It tells its state.
    Show,
    /// It reads the records from this offset on that lie below its high watermark.
    Read { from: Offset },
    /// It reads, of the records from this offset on that lie below its last stable offset, those that no aborted
    /// transaction has. (KIP-98, `read_committed`.)
    Committed { from: Offset },
}

/// What a node does, but for what a message asks of it.
#[derive(Drop)]
pub enum Act {
    /// A client hands it these bytes, to be appended as a batch.
    Produce { bytes: Handed },
    Plain(PlainAct),
}

/// What a node answers that isn't refused, and sends no message.
#[derive(Drop)]
pub enum Answer {
    Adopted(Role),
    Appended(Receipt),
    /// It took a leader's batches.
    Took(Taken),
    /// It took back its log's tail, on a leader's diverging answer.
    Cut(CutBack),
    /// It took the in-sync replicas of the controller's decision.
    Learned(Learned),
    /// The high watermark.
    Watermark(Offset),
    /// The high watermark that was noted.
    Checkpoint(Offset),
    Stopped,
    Restarted {
        life: u64,
        end: Offset,
        watermark: Offset,
    },
    Shown(Shown),
    Lines(ReadRecords),
}

/// What an act, or a message that comes, leaves besides the node itself, where it isn't refused.
#[derive(Drop)]
pub enum Effect {
    Answers(Answer),
    /// The node sends this message.
    Sends(MessageBody),
}
