//! How a node stops and starts again.

ghost use Rattle.kp_node.specs.NodeCalls.{Restarts, Stops};

use crate::node::Node;
use kp_board::BoardName;
use kp_replica::{Answer, Broker};
use kp_types::Refusal;
use std::marker::Brand;

impl<B: BoardName> Node<B> {
    /// Stops the node, which keeps its log, its high watermark, its checkpoint, its life and the leader epoch that it last took up. F28
    /// where it is down. The cost is that of `Replica::stop`. (Own rule.)
    pub fn stop(&mut self) -> Result<(), Refusal>
        ensures { Stops self.old self.new result }
    {
        let stopped = self.broker.stop();
        self.board
            .load_end::<Brand, Broker>(&mut self.pass, &self.broker);
        match stopped {
            Ok(_) => Ok(()),
            Err(refusal) => Err(refusal),
        }
    }

    /// Starts the node again, in its next life, idle and with its high watermark at its checkpoint: the answer tells life, log end
    /// offset and watermark. If it led it leads again only after a new election. Its mark word stays as high as it was. F28 where the
    /// node is up, F24 in the greatest life, F33; each leaves it as it was. The cost is that of `Replica::restart`. (Own rule.)
    pub fn restart(&mut self) -> Result<Answer, Refusal>
        ensures { Restarts self.old self.new result }
    {
        let _watermark = self.broker.watermark(); // which has passed the checkpoint
        let restarted = self.broker.restart(self.alloc);
        self.board
            .load_end::<Brand, Broker>(&mut self.pass, &self.broker);
        restarted
    }
}
