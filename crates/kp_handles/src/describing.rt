//! What a leader knows of the others, and what a node's log has: of producers, of open transactions, and its batches.

ghost use Rattle.std.specs.Prelude.{◌≡◌, map};
ghost use Rattle.kp_handles.specs.Describing.{end_out, known_out, producer_out, proposed_out};

use crate::calling::{GivenByNode, OfNode};
use crate::object::{Kind, Object};
use crate::outs::LeadershipOut;
use kp_board::BoardName;
use kp_model::NodeSet;
use kp_node::{Node, ProducerInLog};
use kp_replica::Known;
use kp_types::{NODE_PLACES, Offset, Refusal};

/// What a leader knows of the controller's record, what it has proposed, and what the other nodes have reported.
#[repr(C)]
#[derive(Clone, Copy)]
pub struct KnownOut {
    /// The record, as the leader knows it.
    pub leadership: LeadershipOut,
    /// The log end offset that each node has reported since this one began to lead; all bits set where it has reported nothing.
    pub reported: [u64; NODE_PLACES],
    /// Whether the leader has proposed other in-sync replicas, and hasn't learned yet what was decided.
    pub pending: bool,
    /// Whether each node is among those; false where none are pending.
    pub proposed: [bool; NODE_PLACES],
}

fn end_out(end: Option<Offset>) -> u64
    ensures { result ≡ end_out end }
{
    end.unwrap_or(u64::MAX)
}

fn ends_out(reported: [Option<Offset>; NODE_PLACES]) -> [u64; NODE_PLACES]
    ensures { result ≡ map end_out reported }
{
    let [zero, one, two, three, four, five, six] = reported;
    [
        end_out(zero),
        end_out(one),
        end_out(two),
        end_out(three),
        end_out(four),
        end_out(five),
        end_out(six),
    ]
}

fn proposed_out(pending: Option<NodeSet>) -> [bool; NODE_PLACES]
    ensures { result ≡ proposed_out pending }
{
    match pending {
        Some(set) => set.members,
        None => [false; NODE_PLACES],
    }
}

impl KnownOut {
    /// What a leader knows, as it is told. O(1).
    pub fn of(known: Known) -> KnownOut
        ensures { result ≡ known_out known }
    {
        KnownOut {
            leadership: LeadershipOut::of(&known.record),
            reported: ends_out(known.reported),
            pending: known.pending.is_some(),
            proposed: proposed_out(known.pending),
        }
    }
}

/// A producer, as a node's log has it.
#[repr(C)]
#[derive(Clone, Copy)]
pub struct ProducerOut {
    /// The offset of the first record of its open transaction; all bits set where none is open.
    pub open_from: u64,
    /// The sequence number of its last record since its epoch began; all bits set where it has written none.
    pub last_sequence: u32,
    /// The coordinator epoch of its last marker; all bits set where it has none.
    pub coordinator_epoch: u32,
    /// The producer's epoch in its last batch.
    pub epoch: u16,
    /// Whether the log has a batch of it; else the others are 0.
    pub found: bool,
}

impl ProducerOut {
    /// A producer as it is told. O(1).
    pub fn of(found: Option<ProducerInLog>) -> ProducerOut
        ensures { result ≡ producer_out found }
    {
        match found {
            Some(producer) => ProducerOut {
                open_from: producer.open_from.unwrap_or(u64::MAX),
                last_sequence: producer.last_sequence.unwrap_or(u32::MAX),
                coordinator_epoch: producer.coordinator_epoch.unwrap_or(u32::MAX),
                epoch: producer.epoch,
                found: true,
            },
            None => ProducerOut {
                open_from: 0,
                last_sequence: 0,
                coordinator_epoch: 0,
                epoch: 0,
                found: false,
            },
        }
    }
}

/// What a leader knows of the others, as by `Node::known`.
#[derive(Drop)]
pub struct AskKnown;

impl OfNode<Known> for AskKnown {
    ghost use Rattle.kp_handles.specs.Describing.{Knows};

    ghost gives = { λ _. Knows };

    fn ask<B: BoardName>(self, node: &mut Node<B>) -> Result<Known, Refusal> {
        node.known()
    }
}

/// What the node's log has of a producer, as by `Node::producer`.
#[derive(Drop)]
pub struct AskProducer {
    pub producer: u64,
}

impl OfNode<Option<ProducerInLog>> for AskProducer {
    ghost use Rattle.kp_handles.specs.Describing.{TellsProducer};

    ghost gives = { λ a. TellsProducer a.producer };

    fn ask<B: BoardName>(self, node: &mut Node<B>) -> Result<Option<ProducerInLog>, Refusal> {
        Ok(node.producer(self.producer))
    }
}

/// The transactions that are open in the node's log, as by `Node::open_transactions`. F33.
#[derive(Drop)]
pub struct ListOpen;

impl GivenByNode for ListOpen {
    ghost use Rattle.std.specs.Prelude.{List};
    ghost use Rattle.kp_model.specs.Transactions.{Open};
    ghost use Rattle.kp_handles.specs.Describing.{ListsOpen};
    ghost use Rattle.kp_handles.specs.Objects.{transactions};

    ghost Found = { List Open };

    ghost held = { transactions };

    ghost gives = { λ _. ListsOpen };

    fn ask<B: BoardName>(self, node: &mut Node<B>) -> Result<Object<B>, Refusal> {
        match node.open_transactions() {
            Ok(open) => Ok(Object {
                kind: Kind::Transactions(open),
            }),
            Err(refusal) => Err(refusal),
        }
    }
}

/// Batches of the node's log, also those that aren't committed, as by `Node::log_from`.
#[derive(Drop)]
pub struct ReadLog {
    pub from: Offset,
    pub most_bytes: u32,
}

impl GivenByNode for ReadLog {
    ghost use Rattle.std.specs.Prelude.{List};
    ghost use Rattle.kp_batch.specs.Batch.{Written};
    ghost use Rattle.kp_handles.specs.Describing.{ReadsLog};
    ghost use Rattle.kp_handles.specs.Objects.{batches};

    ghost Found = { List Written };

    ghost held = { batches };

    ghost gives = { λ r. ReadsLog r.from r.most_bytes };

    fn ask<B: BoardName>(self, node: &mut Node<B>) -> Result<Object<B>, Refusal> {
        match node.log_from(self.from, self.most_bytes) {
            Ok(read) => Ok(Object {
                kind: Kind::Batches(read),
            }),
            Err(refusal) => Err(refusal),
        }
    }
}
