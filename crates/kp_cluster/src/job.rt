//! What a worker does until its end.

use crate::controller::controller_step;
use crate::gate::Gate;
use crate::worker::{Done, worker_step};
use kp_board::{Board, BoardName, Pass};
use kp_node::Node;
use kp_transport::{Carry, Parcel};
use kp_types::{NodeId, Refusal};
use std::alloc::Global;
use std::sync::{Arc, Mutex, Wait};
use std::thread;

/// Whose parcels a worker handles.
pub(crate) enum Job<B: BoardName> {
    /// This node's; a message for the controller goes to that place.
    Node {
        node: Arc<Mutex<Node<B>>, Global>,
        controller: NodeId,
    },
    /// The controller's, which decides at this board with this pass.
    Controller {
        board: Arc<Board<B>, Global>,
        pass: Pass<B>,
    },
}

// By hand, so that a function that drops a job calls this, and isn't proved with what drops each of its parts.
impl<B: BoardName> Drop for Job<B> {
    fn drop(self) {
        match self {
            Job::Node {
                node: _,
                controller: _,
            } => {}
            Job::Controller { board: _, pass: _ } => {}
        }
    }
}

impl<B: BoardName> Job<B> {
    fn step<R: Wait, C: Carry<Parcel<B>>, G: Gate>(
        &mut self,
        rt: &R,
        place: NodeId,
        carrier: &C,
        gate: &G,
    ) -> Result<Done, Refusal> {
        match self {
            Job::Node { node, controller } => {
                worker_step(rt, place, *controller, &**node, carrier, gate)
            }
            Job::Controller { board, pass } => {
                controller_step(place, &**board, pass, carrier, gate)
            }
        }
    }
}

/// Steps until it is told to stop.
pub(crate) fn work<B: BoardName, R: Wait, C: Carry<Parcel<B>>, G: Gate>(
    rt: &R,
    place: NodeId,
    mut job: Job<B>,
    carrier: &C,
    gate: &G,
) {
    for _ in rt.forever() {
        match job.step(rt, place, carrier, gate) {
            Ok(Done::Ended) => return,
            Ok(Done::Idle) => thread::yield_now(),
            Ok(Done::Stepped) | Err(_) => {}
        }
    }
}
