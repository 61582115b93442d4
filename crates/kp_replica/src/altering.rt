//! What a leader asks of the controller for the in-sync replicas, and what it learns from the controller's decisions.

ghost use Rattle.std.specs.Prelude.{◌≡◌, ◌<◌, ◌^◌, ◌+◌, bytes_eq};
ghost use Rattle.kp_model.specs.InSync.{known_by};
ghost use Rattle.kp_model.specs.Set.{members_of, record_of};
ghost use Rattle.kp_replica.specs.Altering.{changed_isr};
ghost use Rattle.kp_replica.specs.Modes.{leading_of};

use crate::replica::{Leading, Mode, Replica};
use kp_model::{Decision, Leader, LeaderAndIsr, MessageBody, NodeSet, Proposal};
use kp_types::{NODE_PLACES, NodeId, Offset, Refusal};

/// A change of the in-sync replicas, for which their leader asks.
#[derive(Clone, Copy, PartialEq, Eq)]
pub enum IsrChange {
    /// This node joins them, or stays.
    Join(NodeId),
    /// This node leaves them.
    Leave(NodeId),
}

/// What a leader learned from a decision of the controller.
#[derive(Clone, Copy, PartialEq, Eq)]
pub struct Learned {
    /// The in-sync replicas, as it knows them now.
    pub isr: NodeSet,
    /// The version of the controller's record that it knows now.
    pub version: u32,
}

/// What a leader knows of the controller's record, what it has proposed, and what the other nodes have reported to it.
#[derive(Clone, Copy)]
pub struct Known {
    /// The record: this node leads, in its leader epoch, with these in-sync replicas, and the record has this version.
    pub record: LeaderAndIsr,
    /// The in-sync replicas that it has proposed, until it learns what the controller decided; none where it has proposed none.
    pub pending: Option<NodeSet>,
    /// The log end offset that each other node has reported since this one began to lead, by its number: the greatest; none where it has
    /// reported nothing.
    pub reported: [Option<Offset>; NODE_PLACES],
}

/// Whether the sets have the same nodes. O(1).
fn are_same(one: &NodeSet, other: &NodeSet) -> bool
    ensures { result ≡ bytes_eq (members_of one.now) (members_of other.now) }
{
    one.members == other.members
}

impl IsrChange {
    /// Whether the change makes this set of that one. O(1).
    fn makes(self, made: &NodeSet, isr: &NodeSet) -> bool
        ensures { result ≡ bytes_eq (members_of made.now) (changed_isr self (members_of isr.now)) }
    {
        match self {
            IsrChange::Join(member) => {
                made.contains(member) && are_same(made, &isr.with(member))
            }
            IsrChange::Leave(member) => are_same(made, &isr.without(member)),
        }
    }
}

impl Leading {
    /// The controller's record as this node, which leads, knows it. O(1).
    fn known(&self, number: NodeId) -> LeaderAndIsr
        requires numbered { number < 7 }
        requires epoch { self.now.epoch + 1 < 2 ^ 24 }
        requires version { self.now.version < 2 ^ 28 }
        ensures { record_of result ≡ known_by number (leading_of self.now) }
    {
        LeaderAndIsr {
            leader: Some(Leader {
                node: number,
                epoch: self.epoch,
            }),
            isr: self.isr,
            version: self.version,
        }
    }
}

impl Replica {
    ghost use Rattle.std.specs.Prelude.{◌≡◌, ◌≢◌, Err, IfOk, IfErr, None, OnErr};
    ghost use Rattle.kp_types.specs.Causes.{IsRefusedOnlyBy};
    ghost use Rattle.kp_types.specs.declared.refusal.Refusal.TheVariants.{Memory};
    ghost use Rattle.kp_model.specs.Event.{Receive, Refused};
    ghost use Rattle.kp_model.specs.Letter.{letter, decision_of};
    ghost use Rattle.kp_model.specs.Effect.{unless_leads};
    ghost use Rattle.kp_model.specs.InSync.{learn_cause};
    ghost use Rattle.kp_model.specs.Local.{cause};
    ghost use Rattle.kp_model.specs.Set.{members_of};
    ghost use Rattle.kp_model.specs.World.{LeaderAndIsr as ModelRecord, Decides};
    ghost use Rattle.kp_replica.specs.NumberedNode.{Does, IsSameNode};
    ghost use Rattle.kp_replica.specs.Modes.{leading_of};
    ghost use Rattle.kp_replica.specs.Altering.{change_act, changed_isr, isr_cause, first_cause, IsKnownBy, IsProposal};
    ghost use Rattle.kp_replica.specs.Replies.{learned_reply};
    ghost use Rattle.kp_replica.specs.Sending.{DoesSending};

    /// The in-sync replicas after the change, where nothing is pending. F23 for a node that hasn't caught up, F21 for one that
    /// can't leave. O(1).
    fn first_change(&self, leading: &Leading, change: IsrChange) -> Result<NodeSet, Refusal>
        ensures refused { IsRefusedOnlyBy (first_cause self.now.number self.now.state.watermark
            (leading_of leading.now) change) result }
        ensures changed { IfOk result (λ isr. members_of isr
            ≡ changed_isr change (members_of leading.now.isr)) }
    {
        match change {
            IsrChange::Join(member) => {
                leading
                    .positions
                    .may_join(member, self.watermark, leading.start)?;
                Ok(leading.isr.with(member))
            }
            IsrChange::Leave(member) => {
                if !leading.isr.contains(member) || member == self.number {
                    return Err(Refusal::NotInSync);
                }
                Ok(leading.isr.without(member))
            }
        }
    }

    /// The in-sync replicas after the change: the pending ones, where the change makes these. F34 where others are pending, and
    /// where none are, as `first_change`. O(1).
    fn isr_after(&self, leading: &Leading, change: IsrChange) -> Result<NodeSet, Refusal>
        ensures refused { IsRefusedOnlyBy (isr_cause self.now.number self.now.state.watermark
            (leading_of leading.now) change) result }
        ensures changed { IfOk result (λ isr. members_of isr
            ≡ changed_isr change (members_of leading.now.isr)) }
    {
        match leading.pending {
            Some(pending) if change.makes(&pending, &leading.isr) => Ok(pending),
            Some(_) => Err(Refusal::ChangePending),
            None => self.first_change(leading, change),
        }
    }

    /// What the leader knows of the controller's record: its in-sync replicas, and the pending ones, count for the high watermark; and
    /// what the other nodes have reported. F15 where the node doesn't lead. O(1), and no memory (Kafka protocol guide,
    /// 'DescribeTopicPartitions', 'DescribeQuorum'; KIP-497).
    pub fn known(&self) -> Result<Known, Refusal>
        ensures known { IfOk result (IsKnownBy self.now) }
        ensures refused { IsRefusedOnlyBy (unless_leads self.now.state.mode (λ _. None)) result }
    {
        let Mode::Leads(leading) = self.mode else {
            return Err(Refusal::NotLeader);
        };
        Ok(Known {
            record: leading.known(self.number),
            pending: leading.pending,
            reported: leading.positions.all(),
        })
    }

    /// Asks the controller for the change of the in-sync replicas: the changed set is pending from then on, beside the one that
    /// the leader knows, and the answered message proposes it for the record that the leader knows. Where that set is pending
    /// already it is proposed once more, untested, as a proposal or its decision may have been lost. F15 where the node doesn't
    /// lead; F34 where another set is pending; F23 where the node to join has reported no end in this leadership, or one
    /// below the leader's high watermark or its start; F21 where the node to leave isn't in sync or is the leader itself: each
    /// leaves all as it was. O(1), and no memory (KIP-497; Kafka protocol guide, 'AlterPartition'; own: the tests).
    pub fn alter(&mut self, change: IsrChange) -> Result<MessageBody, Refusal>
        ensures sent { IfOk result (λ proposal.
            DoesSending self.old self.new (change_act change) (letter proposal)) }
        ensures proposed { IfOk result (λ proposal. IsProposal self.old change (letter proposal)) }
        ensures event { IfErr result (λ refusal.
            Does self.old self.new (change_act change) (Refused refusal)) }
        ensures refused { (c : ModelRecord) → IsRefusedOnlyBy
            (cause c self.old.number self.old.state (change_act change)) result }
        ensures spared { result ≢ Err Memory }
        ensures same { OnErr result (self.new ≡ self.old) }
        ensures node { IsSameNode self.old self.new }
    {
        let Mode::Leads(leading) = self.mode else {
            return Err(Refusal::NotLeader);
        };
        let isr = self.isr_after(&leading, change)?;
        self.mode = Mode::Leads(Leading {
            pending: Some(isr),
            ..leading
        });
        Ok(MessageBody::Proposal(Proposal {
            from: self.number,
            known: leading.known(self.number),
            isr,
        }))
    }

    /// Learns what the controller has decided: the leader knows the decided set and version from then on, and nothing is
    /// pending any more, whether or not its proposal was followed. F15 where the node doesn't lead, F22 where the decided
    /// record has another leader epoch than the node, F29 where it isn't newer than the record that the leader knows: each
    /// leaves all as it was. O(1), and no memory (KIP-497; Kafka protocol guide, 'AlterPartition').
    pub fn learn(&mut self, decision: &Decision) -> Result<Learned, Refusal>
        ensures event { Does self.old self.new (Receive (Decides (decision_of decision.now)))
            (learned_reply result) }
        ensures refused { IsRefusedOnlyBy
            (unless_leads self.old.state.mode (learn_cause (decision_of decision.now))) result }
        ensures spared { result ≢ Err Memory }
        ensures same { OnErr result (self.new ≡ self.old) }
        ensures node { IsSameNode self.old self.new }
    {
        let Mode::Leads(leading) = self.mode else {
            return Err(Refusal::NotLeader);
        };
        let LeaderAndIsr { isr, version, .. } = decision.decided;
        if !decision.decided.has_epoch(Some(leading.epoch)) {
            return Err(Refusal::StaleRecord);
        }
        if version <= leading.version {
            return Err(Refusal::StaleAnswer);
        }
        self.mode = Mode::Leads(Leading {
            isr,
            version,
            pending: None,
            ..leading
        });
        Ok(Learned { isr, version })
    }
}
