//! What is called around each step.

use kp_types::NodeId;

/// What a worker calls before and after each step, for tests and for whoever watches a cluster. A gate that waits holds its worker.
/// (Own rule.)
pub trait Gate {
    /// A parcel has come to this place, of a node, which isn't locked, or of the controller.
    fn before(&self, place: NodeId);

    /// The step is done, and its message is sent.
    fn after(&self, place: NodeId);
}

/// Lets each step through.
#[derive(Clone, Copy)]
pub struct Open;

impl Gate for Open {
    fn before(&self, _place: NodeId) {}

    fn after(&self, _place: NodeId) {}
}
