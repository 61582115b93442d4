//! Why a folder isn't read.

ghost use Rattle.std.specs.Prelude.{◌≡◌};
ghost use Rattle.kp_folder.specs.Bad.{refusal_of};

use kp_types::{NodeId, Offset, Refusal};

/// A file of a folder that a run has left.
#[derive(Clone, Copy)]
pub enum KeptFile {
    /// `record`: the controller's record.
    Record,
    /// `node-N/state`: what is kept of node N beside its log.
    State(NodeId),
    /// `node-N/OFFSET.log`: the segment of its log that begins at this offset.
    Segment(NodeId, Offset),
}

/// Why a folder isn't read: what no run has left, or that it can't be read.
#[derive(Clone, Copy)]
pub enum FolderFault {
    /// F32: the file can't be read.
    Unread(KeptFile),
    /// F33.
    NoMemory,
    /// F35: the file isn't there, or doesn't say what such a file says, or doesn't go with the others.
    BadFile(KeptFile),
    /// The batch of a node's segment, of which this is the first offset, that begins at this byte is none (F1 to F10).
    BadBatch(NodeId, Offset, u64, Refusal),
    /// The node's batches and its state are those of no node: F26, F27 or F25 of a batch that doesn't stand behind those before it, F19 of a
    /// checkpoint that is no boundary, F24 of the greatest life.
    BadNode(NodeId, Refusal),
}

impl FolderFault {
    /// The refusal that it is. O(1).
    pub fn refusal(&self) -> Refusal
        ensures { result ≡ refusal_of self.now }
    {
        match self {
            FolderFault::Unread(_) => Refusal::Device,
            FolderFault::NoMemory => Refusal::Memory,
            FolderFault::BadFile(_) => Refusal::BadFolder,
            FolderFault::BadBatch(_, _, _, refusal) | FolderFault::BadNode(_, refusal) => *refusal,
        }
    }
}
