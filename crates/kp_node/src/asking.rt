//! What a node asks its leader.

ghost use Rattle.kp_board.specs.Posts.{post_of};
ghost use Rattle.kp_node.specs.MessageCalls.{Asks};

use crate::node::Node;
use kp_board::{BoardName, Message};
use kp_model::MessageBody;
use kp_replica::Broker;
use kp_types::Refusal;
use std::marker::Brand;

impl<B: BoardName> Node<B> {
    /// A request to the leader that the node follows, for what comes after its log, by the log's end and its last leader epoch.
    /// The message's pass shows the very message that was sent. F28 where the node is down, F15 where it follows none; neither
    /// changes anything. O(1), and no memory. (Kafka protocol guide, 'Fetch'; KIP-320; KIP-595's truncation on fetch is the idea's
    /// source, the profile is our own.)
    pub fn ask(&mut self) -> Result<Message<B>, Refusal>
        ensures { Asks self.old self.new (post_of result) }
    {
        match self.broker.ask() {
            Ok(body) => {
                let pass = self
                    .board
                    .load_end_sending::<Brand, Broker, MessageBody>(
                        &mut self.pass,
                        &self.broker,
                        &body,
                    );
                Ok(Message { body, pass })
            }
            Err(refusal) => Err(refusal),
        }
    }
}
