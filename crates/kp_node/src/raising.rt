//! How a node adopts the controller's record, raises its high watermark and notes it.

ghost use Rattle.kp_node.specs.NodeCalls.{Adopts, Checkpoints, Raises};

use crate::node::Node;
use kp_board::BoardName;
use kp_replica::{Broker, Role};
use kp_types::{Offset, Refusal};
use std::marker::Brand;

impl<B: BoardName> Node<B> {
    /// Takes up the controller's record that a load of word 0 finds, which its pass then shows, of no lower version than the one
    /// before: the node leads from its log's end on, or follows. F28 where it is down, F22 where the record's leader epoch isn't
    /// above its own, or, where the record names it, above the one that it last took up in whatever life; either leaves the node as
    /// it was. O(1), and no memory. (Kafka replication design, KIP-320; own: the epoch that is kept.)
    pub fn adopt(&mut self) -> Result<Role, Refusal>
        ensures { Adopts self.old self.new result }
    {
        let record = self
            .board
            .step_under_record::<Brand, ()>(&mut self.pass, &());
        self.broker.adopt(&record)
    }

    /// Raises the high watermark, as `Replica::raise` does, by the in-sync set that the leader knows and the pending one, and the
    /// node's mark word with it. F28 where it is down, F15 where it doesn't lead. The cost is that of `Replica::raise`. (KIP-497.)
    pub fn raise(&mut self) -> Result<Offset, Refusal>
        ensures { Raises self.old self.new result }
    {
        let raised = self.broker.raise();
        let watermark = self.broker.watermark();
        self.board
            .raise_mark::<Brand, Broker>(&mut self.pass, watermark, &self.broker);
        raised
    }

    /// Notes the high watermark as the checkpoint, and answers it. F28 where the node is down. O(1), and no memory. (Own rule, after
    /// Kafka's replication-offset-checkpoint.)
    pub fn checkpoint(&mut self) -> Result<Offset, Refusal>
        ensures { Checkpoints self.old self.new result }
    {
        let noted = self.broker.checkpoint();
        self.board
            .load_end::<Brand, Broker>(&mut self.pass, &self.broker);
        noted
    }
}
