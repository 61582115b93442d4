//! What a follower asks its leader.

use crate::replica::{Mode, Replica};
use kp_model::{FetchRequest, MessageBody};
use kp_types::Refusal;

impl Replica {
    ghost use Rattle.std.specs.Prelude.{◌≡◌, IfOk, IfErr};
    ghost use Rattle.kp_types.specs.declared.refusal.Refusal.TheVariants.{NotLeader};
    ghost use Rattle.kp_model.specs.Event.{Ask, Refused};
    ghost use Rattle.kp_model.specs.Letter.{letter};
    ghost use Rattle.kp_replica.specs.NumberedNode.{Does};
    ghost use Rattle.kp_replica.specs.Sending.{DoesSending};

    /// The request to the leader that the node follows, for the batches after its log: it names the log's end, and the leader
    /// epoch of its last batch, none for an empty log, by which the leader tells whether its own log goes on from there. F15
    /// exactly where it follows none. O(1), and no memory (Kafka protocol guide, 'Fetch'; KIP-320; KIP-595's truncation on
    /// fetch is the idea's source, the profile is our own).
    pub fn ask(&self) -> Result<MessageBody, Refusal>
        ensures sent { IfOk result (λ request.
            DoesSending self.now self.now Ask (letter request)) }
        ensures refused { IfErr result (λ refusal. Does self.now self.now Ask (Refused refusal)) }
        ensures only { IfErr result (λ refusal. refusal ≡ NotLeader) }
    {
        let Mode::Follows(following) = self.mode else {
            return Err(Refusal::NotLeader);
        };
        Ok(MessageBody::FetchRequest(FetchRequest {
            from: self.number,
            to: following.leader,
            life: self.life,
            epoch: following.epoch,
            offset: self.log.end_offset(),
            last_epoch: self.log.last_epoch(),
        }))
    }
}
