//! A worker's steps.

ghost use Rattle.std.specs.Prelude.{◌≡◌, option_map, unwrap_or};
ghost use Rattle.kp_model.specs.Letter.{goes_to, letter};
ghost use Rattle.kp_board.specs.Posts.{posted, posts_of};
ghost use Rattle.kp_cluster.specs.Turn.{Handles};

use crate::gate::Gate;
use crate::turn::take_turn;
use kp_board::{BoardName, Message};
use kp_model::MessageBody;
use kp_node::Node;
use kp_transport::{Carry, Parcel};
use kp_types::{NodeId, Refusal};
use std::sync::{Mutex, Wait};

/// What became of a worker's step.
#[derive(Clone, Copy, PartialEq, Eq)]
pub enum Done {
    /// There was no parcel.
    Idle,
    /// One parcel was handled.
    Stepped,
    /// The worker is to end.
    Ended,
}

// Where a message goes: to the place of the node that it names, or, where it names none, to the controller's.
fn place_of(body: &MessageBody, controller: NodeId) -> NodeId
    ensures { result ≡ unwrap_or (goes_to (letter body.now)) controller }
{
    body.addressee().unwrap_or(controller)
}

// Sends the message, where there is one.
pub(crate) fn send_on<B: BoardName, C: Carry<Parcel<B>>>(
    carrier: &C,
    controller: NodeId,
    message: Option<Message<B>>,
) -> Result<Done, Refusal> {
    if let Some(message) = message {
        let place = place_of(&message.body, controller);
        carrier.send(place, Parcel::Message(message))?;
    }
    Ok(Done::Stepped)
}

/// What the node does with a message that came, or at its turn where none did. It answers the message that is to be sent. The
/// refusals, and the cost, are those of `Node::step` and of `take_turn`.
pub fn handle<B: BoardName>(
    node: &mut Node<B>,
    message: Option<Message<B>>,
) -> Result<Option<Message<B>>, Refusal>
    ensures { Handles (option_map posted message) node.old node.new (posts_of result) }
{
    match message {
        Some(message) => node.step(message),
        None => take_turn(node),
    }
}

/// Handles one parcel of the place: receives it, calls the gate, handles it under the node's lock, sends the message that comes of it
/// once the lock is given up, and calls the gate again. A message for the controller goes to the place `controller`, which is the number
/// of nodes. A refusal, of the node or of the carrier, ends this step alone. (Own rule.)
pub fn worker_step<B: BoardName, R: Wait, C: Carry<Parcel<B>>, G: Gate>(
    rt: &R,
    place: NodeId,
    controller: NodeId,
    node: &Mutex<Node<B>>,
    carrier: &C,
    gate: &G,
) -> Result<Done, Refusal> {
    let message = match carrier.receive(place) {
        Some(Parcel::Message(message)) => Some(message),
        Some(Parcel::Turn) => None,
        Some(Parcel::Stop) => return Ok(Done::Ended),
        None => return Ok(Done::Idle),
    };
    gate.before(place);
    let answer = handle(&mut node.lock(rt), message);
    let done = match answer {
        Ok(answer) => send_on(carrier, controller, answer),
        Err(refusal) => Err(refusal),
    };
    gate.after(place);
    done
}
