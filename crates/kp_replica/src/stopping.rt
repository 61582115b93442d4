//! How a node notes where it would start again, and stops.

use crate::kept::KeptNode;
use crate::replica::Replica;
use kp_types::Offset;

impl Replica {
    ghost use Rattle.std.specs.Prelude.{◌≡◌};
    ghost use Rattle.kp_model.specs.World.{Down};
    ghost use Rattle.kp_model.specs.Event.{Checkpoint, CheckpointAt, Stop, Stopped};
    ghost use Rattle.kp_replica.specs.NumberedNode.{Does};

    /// Notes the high watermark as the checkpoint, from which the node starts again when it is restarted, and answers it. O(1),
    /// and no memory (own rule; after Kafka's replication-offset-checkpoint).
    pub fn checkpoint(&mut self) -> Offset
        ensures { Does self.old self.new Checkpoint (CheckpointAt result) }
    {
        self.checkpoint = self.watermark;
        self.watermark
    }

    /// Stops the node: its log, its high watermark as it was, its checkpoint, its life and the leader epoch that it last took up
    /// stay, and its undo entries are spent. O(entries), and no memory (own rule).
    pub fn stop(self) -> KeptNode
        ensures kept { result ≡ record self { state = record self.state { mode = Down } } }
        ensures event { Does self result Stop Stopped }
    {
        self.close()
    }
}
