//! What a node tells of itself and of its log.

ghost use Rattle.std.specs.Prelude.{◌≡◌, IfOk};
ghost use Rattle.kp_types.specs.Causes.{IsRefusedOnlyBy};
ghost use Rattle.kp_model.specs.Lookups.{offset_for_time};
ghost use Rattle.kp_segment.specs.Walk.{offset_and_timestamp};
ghost use Rattle.kp_replica.specs.Broker.{node_at};
ghost use Rattle.kp_node.specs.Fetches.{shown_up_to};
ghost use Rattle.kp_node.specs.Tells.{TellsEnd, TellsLog, TellsOffset, down_cause, found_below, told_state};

use crate::fetched::Isolation;
use crate::fetching::shown_up_to;
use crate::node::Node;
use kp_batch::{Batch, share_all};
use kp_board::{BoardName, Pass};
use kp_log::first_within;
use kp_model::EpochEnd;
use kp_replica::{Broker, Role, Status};
use kp_segment::OffsetAndTimestamp;
use kp_types::{Epoch, Offset, Refusal};

/// A node's state, of one moment. Its log begins at offset 0.
#[derive(Clone, Copy)]
pub struct NodeState {
    /// How often it was restarted.
    pub life: u64,
    /// The leader epoch that it last took up, in this life or an earlier one; none where it has taken up none.
    pub kept_epoch: Option<Epoch>,
    /// What it is, as it knows itself.
    pub status: Status,
    /// Its log end offset.
    pub end: Offset,
    /// Its high watermark; of one that is down, that at which it went down.
    pub watermark: Offset,
    /// The last stable offset at that watermark.
    pub stable: Offset,
    /// The high watermark that it last noted, from which a restart begins.
    pub checkpoint: Offset,
}

/// The offset for a time, where a consumer is shown that offset.
fn offset_shown(
    broker: &Broker,
    time: u64,
    isolation: Isolation,
) -> Result<Option<OffsetAndTimestamp>, Refusal>
    ensures found { IfOk result (λ found. found
        ≡ offset_and_timestamp (found_below (shown_up_to isolation (node_at broker.now).state) (offset_for_time (node_at broker.now).state.log time))) }
    ensures refused { IsRefusedOnlyBy (down_cause (node_at broker.now).state) result }
{
    let replica = broker.up()?;
    let bound = shown_up_to(replica, isolation);
    match replica.log().offset_for_time(time) {
        Some(found) if found.offset < bound => Ok(Some(found)),
        _ => Ok(None),
    }
}

impl<B: BoardName> Node<B> {
    /// The node's state, also of one that is down. No memory; the cost is that of `PartitionLog::stable_offset`. (Own rule.)
    pub fn show(&self) -> NodeState
        ensures { result ≡ told_state self.now.node.state }
    {
        let log = self.broker.log();
        let watermark = self.broker.watermark();
        NodeState {
            life: self.broker.life(),
            kept_epoch: self.broker.kept_epoch(),
            status: self.broker.status(),
            end: log.end_offset(),
            watermark,
            stable: log.stable_offset(watermark),
            checkpoint: self.broker.checkpoint_offset(),
        }
    }

    /// Shares of the batches from the one that holds an offset on, also of those that aren't committed, as many as fit into so many bytes, but
    /// at least one where there is one; also of a node that is down. For a host that writes them down. F16 above the log's end, F33. The
    /// cost is that of `PartitionLog::read`, and O(1) for each batch. (Own rule.)
    pub fn log_from(&self, from: Offset, most_bytes: u32) -> Result<Vec<Batch>, Refusal>
        ensures { TellsLog from most_bytes self.now.node.state result }
    {
        let batches = self.broker.log().read(from)?;
        share_all(self.alloc, first_within(batches, most_bytes))
    }

    /// The largest leader epoch at most this one of which the leader's log has a batch, and where that epoch ends there; none where it
    /// has no such epoch. F28 where the node is down, F15 where it doesn't lead. No memory; O(log n) in the epochs. (Kafka protocol guide,
    /// OffsetForLeaderEpoch; KIP-101, KIP-320.)
    pub fn end_for(&self, epoch: Epoch) -> Result<Option<EpochEnd>, Refusal>
        ensures { TellsEnd epoch self.now.node.state result }
    {
        let replica = self.broker.up()?;
        match replica.status() {
            Status::Plays(Role::Leads { .. }) => {
                let log = replica.log();
                Ok(log.tables().epochs().end_for(epoch, log.end_offset()))
            }
            _ => Err(Refusal::NotLeader),
        }
    }

    /// Offset and timestamp of the first record, in offset order, whose timestamp is at least this one, in milliseconds; none where there
    /// is none that a consumer is shown: it lies below the high watermark or, read committed, below the last stable offset. A marker
    /// counts as a record. F28 where the node is down, which leaves the pass as it was. No memory; the cost is that of
    /// `PartitionLog::offset_for_time`. (Kafka protocol guide, ListOffsets.)
    pub fn offset_for_time(
        &mut self,
        caller: &mut Pass<B>,
        time: u64,
        isolation: Isolation,
    ) -> Result<Option<OffsetAndTimestamp>, Refusal>
        ensures { TellsOffset time isolation self.old self.new caller.old caller.new result }
    {
        let found = offset_shown(&self.broker, time, isolation)?;
        self.show_held(caller);
        Ok(found)
    }
}
