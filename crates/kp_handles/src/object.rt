//! What a handle holds.

ghost use Rattle.std.specs.Prelude.{◌≡◌, IfSome};
ghost use Rattle.kp_handles.specs.Objects.{empty, object_view};

use crate::left::LeftNodes;
use crate::segments::SegmentShare;
use bytes::BytesMut;
use kp_batch::{Batch, Handed};
use kp_board::{Board, BoardName, Callers, Message, Pass};
use kp_node::{Fetched, Node};
use kp_txns::OpenTransaction;
use kp_visible::ReadRecords;
use std::alloc::Global;
use std::marker::Model;
use std::sync::Arc;

/// A board with the nodes that aren't open yet, and what makes the passes of callers.
#[derive(Drop)]
pub struct Cluster<B: BoardName> {
    pub(crate) board: Arc<Board<B>, Global>,
    pub(crate) waiting: Vec<Node<B>>,
    pub(crate) callers: Callers<B>,
}

/// A caller's pass, with its board, and the block to which the bytes that it hands in are copied.
#[derive(Drop)]
pub struct Caller<B: BoardName> {
    pub(crate) board: Arc<Board<B>, Global>,
    pub(crate) pass: Pass<B>,
    pub(crate) block: BytesMut,
}

/// Bytes that a client hands in, and the block to which the next ones are copied.
#[derive(Drop)]
pub struct InHand {
    pub(crate) bytes: Handed,
    pub(crate) block: BytesMut,
}

impl Model for InHand {
    ghost use Rattle.std.specs.Prelude.{ℕ, List};

    ghost Value = { List ℕ };

    ghost view = { λ hand. hand.bytes };
}

/// What a handle holds, by its kind.
#[derive(Drop)]
pub enum Kind<B: BoardName> {
    Empty,
    Cluster(Cluster<B>),
    Node(Node<B>),
    Caller(Caller<B>),
    Message(Message<B>),
    Batches(Vec<Batch>),
    Fetched(Fetched),
    Records(ReadRecords),
    Transactions(Vec<OpenTransaction>),
    Segments(Vec<SegmentShare>),
    Handed(InHand),
    Left(LeftNodes),
}

/// What a handle holds. A clause sees no name of a board.
pub struct Object<B: BoardName> {
    pub(crate) kind: Kind<B>,
}

// By hand, so that a function that drops an object calls this, and isn't proved with what drops each kind.
impl<B: BoardName> Drop for Object<B> {
    fn drop(self) {
        let Object { kind: _ } = self;
    }
}

impl<B: BoardName> Model for Object<B> {
    ghost use Rattle.kp_handles.specs.Objects.{ObjectView, object_view};

    ghost Value = { ObjectView };

    ghost view = { λ o. object_view o.kind };
}

impl<B: BoardName> Object<B> {
    /// What it is.
    pub(crate) fn into_kind(self) -> Kind<B>
        ensures { object_view result ≡ self }
    {
        let Object { kind } = self;
        kind
    }
}

/// An object in its room.
pub(crate) fn filled<B: BoardName>(mut room: Box<Object<B>>, object: Object<B>) -> Box<Object<B>>
    ensures { result.value ≡ object }
{
    Box::replace(&mut room, object);
    room
}

/// Room for an object, which holds nothing yet; none where memory is refused.
pub(crate) fn room<B: BoardName>(alloc: Global) -> Option<Box<Object<B>>>
    ensures { IfSome result (λ b. b.value ≡ empty) }
{
    match Box::new(alloc, Object { kind: Kind::Empty }) {
        Ok(room) => Some(room),
        Err(_) => None,
    }
}

/// An object in room of its own; none where memory is refused, and the object is gone then.
pub(crate) fn boxed<B: BoardName>(alloc: Global, object: Object<B>) -> Option<Box<Object<B>>>
    ensures { IfSome result (λ b. b.value ≡ object) }
{
    Box::new(alloc, object).ok()
}
