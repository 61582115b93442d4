//! What is kept of a run for its picture.

ghost use Rattle.std.specs.Prelude.{◌≡◌, [], IfOk};

use kp_types::{Epoch, NodeId, Offset};
use std::alloc::{AllocError, Global};

/// A batch of a node's log: the offset of its first record, and its leader epoch.
#[derive(Clone, Copy)]
pub(crate) struct Piece {
    pub(crate) base: Offset,
    pub(crate) epoch: Epoch,
}

/// How many batches of a change are kept.
pub(crate) const MOST_PIECES: usize = 4;

/// What an event changed in the log of its node.
#[derive(Drop)]
pub(crate) struct Change {
    /// The first batches that came.
    pub(crate) added: Vec<Piece>,
    /// The first batches that were taken back.
    pub(crate) gone: Vec<Piece>,
    /// How many more came or were taken back.
    pub(crate) more: u64,
    /// The high watermark, where it changed.
    pub(crate) watermark: Option<Offset>,
    /// The last stable offset, where it changed or isn't the high watermark that changed.
    pub(crate) stable: Option<Offset>,
}

/// What an event is, as far as its mark goes.
#[derive(Clone, Copy)]
pub(crate) enum Kind {
    Election,
    Append,
    Delivery,
    Stop,
    Restart,
    Other,
}

/// An event that is drawn.
#[derive(Drop)]
pub(crate) struct Row {
    /// The script's line, a line feed, and its line of the trace.
    pub(crate) title: Vec<u8>,
    /// How many bytes of the title the script's line has.
    pub(crate) call: usize,
    /// In which lane it stands: 0 is the controller's, and each node's is its number and 1.
    pub(crate) lane: u8,
    pub(crate) kind: Kind,
    pub(crate) refused: bool,
    /// The message that it sends, by its number.
    pub(crate) sent: Option<usize>,
    /// The message that comes.
    pub(crate) came: Option<usize>,
    pub(crate) change: Change,
}

/// A message.
#[derive(Clone, Copy)]
pub(crate) struct Message {
    /// Where the event stands that sent it, among those that are drawn; the next one, where that isn't drawn.
    pub(crate) place: usize,
    /// Whether that is drawn.
    pub(crate) drawn: bool,
    /// The lane of that event.
    pub(crate) from: u8,
    /// The lane to which it goes.
    pub(crate) to: u8,
    /// Whether it comes in the run.
    pub(crate) comes: bool,
    /// Whether an event is drawn with which it comes.
    pub(crate) shown: bool,
}

/// A stretch in which a node is up.
#[derive(Clone, Copy)]
pub(crate) struct Life {
    pub(crate) lane: u8,
    /// The place of the event with which it begins.
    pub(crate) from: usize,
    /// The place of the event with which it ends.
    pub(crate) to: usize,
}

/// What was last seen of a node.
#[derive(Drop)]
pub(crate) struct Seen {
    pub(crate) pieces: Vec<Piece>,
    pub(crate) watermark: Offset,
    pub(crate) stable: Offset,
    /// The place of the event since which it is up.
    pub(crate) since: Option<usize>,
}

/// What is kept of a run for its picture.
#[derive(Drop)]
pub(crate) struct Kept {
    pub(crate) rows: Vec<Row>,
    pub(crate) messages: Vec<Message>,
    pub(crate) lives: Vec<Life>,
    pub(crate) nodes: Vec<Seen>,
}

impl Change {
    /// Nothing.
    pub(crate) fn none(alloc: Global) -> Change {
        Change {
            added: Vec::new(alloc),
            gone: Vec::new(alloc),
            more: 0,
            watermark: None,
            stable: None,
        }
    }
}

impl Kept {
    /// What is kept of a run that hasn't begun.
    pub(crate) fn start(alloc: Global, count: NodeId) -> Result<Kept, AllocError>
        ensures { IfOk result (λ kept. kept.rows.items ≡ []) }
    {
        let mut nodes = Vec::new(alloc);
        for _node in 0..count {
            nodes.push(Seen {
                pieces: Vec::new(alloc),
                watermark: 0,
                stable: 0,
                since: Some(0),
            })?;
        }
        Ok(Kept {
            rows: Vec::new(alloc),
            messages: Vec::new(alloc),
            lives: Vec::new(alloc),
            nodes,
        })
    }
}
