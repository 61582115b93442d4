//! Parcels, and what carries them.
ghost use Rattle.std.specs.Prelude.{◌≡◌, IfErr};
ghost use Rattle.kp_types.specs.declared.refusal.Refusal.TheVariants as refusals;

use kp_board::{BoardName, Message};
use kp_types::{NodeId, Refusal};

/// What a worker is sent, a node's or the controller's. (Own rule.)
#[derive(Drop)]
pub enum Parcel<B: BoardName> {
    /// A message of another node, or of the controller.
    Message(Message<B>),
    /// The node is to do what it does by itself: take up the record, ask its leader, or raise its high watermark.
    Turn,
    /// The worker is to end.
    Stop,
}

/// Carries parcels to places, which are numbered from 0 as the nodes are; the one after the last node's, whose number is the count of
/// nodes, is the controller's. Messages may be lost, repeated and reordered; other parcels come once each, in the order in which they
/// were sent. A parcel for a place that isn't there is lost. (Own rule.)
pub trait Carry<P> {
    /// Sends the parcel to the place. F33 is the only refusal; the parcel is gone then.
    fn send(&self, place: NodeId, parcel: P) -> Result<(), Refusal>
        ensures { IfErr result (λ refusal. refusal ≡ refusals.Memory) };

    /// The next parcel of this place. Where there is none it answers none, or waits for one.
    fn receive(&self, place: NodeId) -> Option<P>;
}
