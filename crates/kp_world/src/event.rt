//! What may happen, and what is answered.

use kp_model::{LeaderAndIsr, Said};
use kp_replica::{Act, Answer};
use kp_types::{NodeId, Refusal};
use std::collections::VecDeque;

/// One atomic action of one actor: of the controller, or of a node. (Kafka replication design.)
#[derive(Drop)]
pub enum Event {
    /// The controller elects this node.
    Elect { node: NodeId },
    /// The node does this.
    Acts { node: NodeId, act: Act },
    /// The message of this number comes to the node to which it goes, or a proposal to the controller, which decides on it.
    /// Messages are numbered from 0 on in the order in which they were sent, and each may come any number of times.
    Deliver { number: u64 },
}

/// What is told of an event that isn't refused.
#[derive(Drop)]
pub enum EventAnswer {
    /// The controller's record has changed to this, by an election.
    Changed(LeaderAndIsr),
    /// The node, or the controller, has sent the message of this number.
    Sent { number: u64, said: Said },
    /// The node answers.
    Answered(Answer),
}

/// The answers to the events, in their order. A refused event stands in it too.
#[derive(Drop)]
pub struct Trace {
    /// One for each event.
    pub outcomes: Vec<Result<EventAnswer, Refusal>>,
}

/// The run's own lists couldn't grow: the answers so far, and the events that haven't happened.
#[derive(Drop)]
pub struct Stopped {
    /// The answers to the events that have happened.
    pub trace: Trace,
    /// The events that are left, the next one first.
    pub rest: VecDeque<Event>,
}
