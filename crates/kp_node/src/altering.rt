//! How a node asks for a change of the in-sync replicas.

ghost use Rattle.std.specs.Prelude.{IfOk, None};
ghost use Rattle.kp_types.specs.Causes.{IsRefusedOnlyBy};
ghost use Rattle.kp_model.specs.Effect.{unless_leads};
ghost use Rattle.kp_replica.specs.Altering.{IsKnownBy};
ghost use Rattle.kp_board.specs.Posts.{post_of};
ghost use Rattle.kp_node.specs.MessageCalls.{Alters};

use crate::node::Node;
use kp_board::{BoardName, Message};
use kp_model::MessageBody;
use kp_replica::{Broker, IsrChange, Known};
use kp_types::Refusal;
use std::marker::Brand;

impl<B: BoardName> Node<B> {
    /// What the node, which leads, knows of the controller's record, and the in-sync replicas that it has proposed: both sets count
    /// for its high watermark. F28 where the node is down, F15 where it doesn't lead. No event; O(1), and no memory. (KIP-497.)
    pub fn known(&self) -> Result<Known, Refusal>
        ensures known { IfOk result (IsKnownBy self.now.node) }
        ensures refused { IsRefusedOnlyBy (unless_leads self.now.node.state.mode (λ _. None)) result }
    {
        self.broker.known()
    }

    /// A proposal to the controller, `Board::decide`, for this change of the in-sync replicas: the changed set is pending from then
    /// on, and counts beside the one that the leader knows until it learns of a decision. The message's pass shows the very message
    /// that was sent; a set that is pending already is proposed once more, untested. The refusals are those of `Replica::alter`, and
    /// F28 where the node is down; none changes anything. O(1), and no memory. (KIP-497; Kafka protocol guide, 'AlterPartition'.)
    pub fn alter(&mut self, change: IsrChange) -> Result<Message<B>, Refusal>
        ensures { Alters change self.old self.new (post_of result) }
    {
        match self.broker.alter(change) {
            Ok(body) => {
                let pass = self
                    .board
                    .load_end_sending::<Brand, Broker, MessageBody>(
                        &mut self.pass,
                        &self.broker,
                        &body,
                    );
                Ok(Message { body, pass })
            }
            Err(refusal) => Err(refusal),
        }
    }
}
