//! How far a leader raises its high watermark.

use crate::replica::{Mode, Replica};
use kp_types::{Offset, Refusal};

impl Replica {
    ghost use Rattle.kp_model.specs.Event.{Raise};
    ghost use Rattle.kp_replica.specs.NumberedNode.{Does};
    ghost use Rattle.kp_replica.specs.Replies.{watermark_reply};

    /// Raises the leader's high watermark to the least log end over the in-sync set that it knows and the one that is pending,
    /// if one is, where all of them are known, and settles the undo entries below it. So no record that the controller may make
    /// of a proposal has a member that the leader hasn't counted. Answers the watermark. F15 where the node doesn't lead. The
    /// cost is that of `UndoStack::settle` (KIP-497).
    pub fn raise(&mut self) -> Result<Offset, Refusal>
        ensures { Does self.old self.new Raise (watermark_reply result) }
    {
        let Mode::Leads(leading) = self.mode else {
            return Err(Refusal::NotLeader);
        };
        let end = self.log.end_offset();
        let pending = leading.pending.as_ref();
        let least = leading
            .positions
            .least_end(&leading.isr, pending, self.number, end);
        let watermark = self.watermark.max(least.unwrap_or(0));
        self.watermark = watermark;
        self.entries.settle(&mut self.log, watermark);
        Ok(watermark)
    }
}
