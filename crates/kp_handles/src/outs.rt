//! What calls read from their caller's memory, and write there.
ghost use Rattle.std.specs.Prelude.{◌≡◌, IfNone, IfSome};
ghost use Rattle.kp_model.specs.declared.record.LeaderAndIsr.{LeaderAndIsr as ModelRecord};
ghost use Rattle.kp_visible.specs.Lines.{line_of};
ghost use Rattle.kp_handles.specs.Holding.{aborted_out, addressee_out, fetched_out, head_out, open_out, value_out};
ghost use Rattle.kp_handles.specs.Outs.{ack_out, change_in, kind_in, limits_in, marker_in, receipt_in, receipt_out, leadership_out, restart_out, role_out};

use kp_batch::Batch;
use kp_marker::{Kind, Marker};
use kp_model::{Leader, LeaderAndIsr, MessageBody, NodeSet};
use kp_node::{Ack, Fetched};
use kp_replica::{Answer, IsrChange, Receipt, Role};
use kp_txns::{AbortedTransaction, OpenTransaction};
use kp_types::{Limits, MOST_NODES, NODE_PLACES};
use kp_visible::ReadRecord;

/// The sizes of the nodes' logs, in bytes.
#[repr(C)]
#[derive(Clone, Copy)]
pub struct LimitsIn {
    /// The most bytes of a segment that has more than one batch.
    pub segment_bytes: u32,
    /// How many bytes lie between two entries of an index.
    pub index_interval: u32,
    /// The most bytes of a batch.
    pub max_batch: u32,
}

impl LimitsIn {
    /// The limits that they are. O(1).
    pub fn limits(&self) -> Limits
        ensures { result ≡ limits_in self.now }
    {
        Limits {
            segment_bytes: self.segment_bytes,
            index_interval: self.index_interval,
            max_batch: self.max_batch,
        }
    }
}

/// What a node is under the record that it took up.
#[repr(C)]
#[derive(Clone, Copy)]
pub struct RoleOut {
    /// Its log's end when it began to lead; 0 where it follows.
    pub start: u64,
    /// The leader epoch.
    pub epoch: u32,
    /// The leader that it follows; 0 where it leads.
    pub leader: u8,
    pub leads: bool,
}

impl RoleOut {
    /// A role as it is told. O(1).
    pub fn of(role: Role) -> RoleOut
        ensures { result ≡ role_out role }
    {
        match role {
            Role::Leads { epoch, start } => RoleOut {
                start,
                epoch,
                leader: 0,
                leads: true,
            },
            Role::Follows { leader, epoch } => RoleOut {
                start: 0,
                epoch,
                leader,
                leads: false,
            },
        }
    }
}

/// The controller's record.
#[repr(C)]
#[derive(Clone, Copy)]
pub struct LeadershipOut {
    /// Every change raises it.
    pub version: u32,
    /// The leader epoch; 0 before the first election.
    pub epoch: u32,
    /// Who leads; 0 before the first election.
    pub leader: u8,
    /// Whether there was an election.
    pub elected: bool,
    /// Whether each node is in sync.
    pub in_sync: [bool; NODE_PLACES],
}

impl LeadershipOut {
    /// A record as it is told. O(1).
    pub fn of(known: &LeaderAndIsr) -> LeadershipOut
        ensures { result ≡ leadership_out known.now }
    {
        match known.leader {
            Some(leader) => LeadershipOut {
                version: known.version,
                epoch: leader.epoch,
                leader: leader.node,
                elected: true,
                in_sync: known.isr.members,
            },
            None => LeadershipOut {
                version: known.version,
                epoch: 0,
                leader: 0,
                elected: false,
                in_sync: known.isr.members,
            },
        }
    }
}

impl LeadershipOut {
    /// The record that it tells; none where it tells none: a version from 2^28 on, an epoch from 2^24 - 1 on, no such leader, or a leader
    /// before the first election. O(1).
    pub fn record(&self) -> Option<LeaderAndIsr>
        ensures found { IfSome result (λ r. self.now ≡ leadership_out r) }
        ensures none { IfNone result ((r : ModelRecord) → self.now ≡ leadership_out r → ⊥) }
    {
        let leader = match (self.elected, self.epoch, self.leader) {
            (false, 0, 0) => None,
            (true, epoch, node) if epoch < 0xff_ffff && node < MOST_NODES => Some(Leader {
                node,
                epoch,
            }),
            _ => return None,
        };
        if self.version >= 1 << 28 {
            return None;
        }
        Some(LeaderAndIsr {
            leader,
            isr: NodeSet {
                members: self.in_sync,
            },
            version: self.version,
        })
    }
}

/// A node that started again.
#[repr(C)]
#[derive(Clone, Copy)]
pub struct RestartOut {
    pub life: u64,
    /// Its log's end.
    pub end: u64,
    pub watermark: u64,
}

impl RestartOut {
    /// All 0 for another answer, which a restart doesn't give.
    pub fn of(answer: &Answer) -> RestartOut
        ensures { result ≡ restart_out answer.now }
    {
        match answer {
            Answer::Restarted {
                life,
                end,
                watermark,
            } => RestartOut {
                life: *life,
                end: *end,
                watermark: *watermark,
            },
            _ => RestartOut {
                life: 0,
                end: 0,
                watermark: 0,
            },
        }
    }
}

/// The receipt of a batch, as it goes to the caller and comes back.
#[repr(C)]
#[derive(Clone, Copy)]
pub struct ReceiptOut {
    /// The offset of its first record.
    pub base: u64,
    /// The offset of its last record.
    pub last: u64,
    /// Where bytes were refused for a record: the place of its first byte in the batch.
    pub place: u64,
    /// Its leader epoch.
    pub epoch: u32,
    /// Whether the batch had been appended before.
    pub duplicate: bool,
}

impl ReceiptOut {
    /// A receipt as it is told. O(1).
    pub fn of(receipt: &Receipt) -> ReceiptOut
        ensures { result ≡ receipt_out receipt.now }
    {
        ReceiptOut {
            base: receipt.base,
            last: receipt.last,
            place: 0,
            epoch: receipt.epoch,
            duplicate: receipt.duplicate,
        }
    }

    /// The receipt that was told so. O(1).
    pub fn receipt(&self) -> Receipt
        ensures { result ≡ receipt_in self.now }
    {
        Receipt {
            base: self.base,
            last: self.last,
            epoch: self.epoch,
            duplicate: self.duplicate,
        }
    }
}

/// A marker that a transaction coordinator hands in.
#[repr(C)]
#[derive(Clone, Copy)]
pub struct MarkerIn {
    /// The producer whose transaction ends, below 2^63.
    pub producer_id: u64,
    /// When it ended: milliseconds since 1970, below 2^62.
    pub timestamp: u64,
    /// The coordinator's epoch, below 2^31.
    pub coordinator_epoch: u32,
    /// The producer's epoch, below 2^15.
    pub producer_epoch: u16,
    /// Whether it commits, or aborts.
    pub commits: bool,
}

impl MarkerIn {
    /// The marker that it asks for, also one whose fields lie outside their ranges. O(1).
    pub fn marker(&self) -> Marker
        ensures { result ≡ marker_in self.now }
    {
        Marker {
            producer_id: self.producer_id,
            producer_epoch: self.producer_epoch,
            coordinator_epoch: self.coordinator_epoch,
            kind: kind_in(self.commits),
            timestamp: self.timestamp,
        }
    }
}

fn kind_in(commits: bool) -> Kind
    ensures { result ≡ kind_in commits }
{
    if commits { Kind::Commit } else { Kind::Abort }
}

/// 1 where the batch is committed, 2 where another one is in its place, 0 where that isn't known yet.
pub fn ack_out(ack: Ack) -> u32
    ensures { result ≡ ack_out ack }
{
    match ack {
        Ack::NotYet => 0,
        Ack::Yes => 1,
        Ack::Lost => 2,
    }
}

/// That the node joins the in-sync replicas, or leaves them.
pub fn change_in(joins: bool, which: u8) -> IsrChange
    ensures { result ≡ change_in joins which }
{
    if joins {
        IsrChange::Join(which)
    } else {
        IsrChange::Leave(which)
    }
}

/// A record as a read-committed consumer gets it, but for the bytes of its value.
#[repr(C)]
#[derive(Clone, Copy)]
pub struct ValueOut {
    pub offset: u64,
    /// How many bytes its value has.
    pub size: usize,
    /// Whether its value is null, which has no byte.
    pub null: bool,
}

impl ValueOut {
    /// A record as it is told. O(1).
    pub fn of(read: ReadRecord<'_>) -> ValueOut
        ensures { result ≡ value_out (line_of read.entry) }
    {
        match read.value {
            Some(value) => ValueOut {
                offset: read.offset,
                size: value.len(),
                null: false,
            },
            None => ValueOut {
                offset: read.offset,
                size: 0,
                null: true,
            },
        }
    }
}

/// What a consumer's fetch gave, but for its batches and the aborted transactions.
#[repr(C)]
#[derive(Clone, Copy)]
pub struct FetchedOut {
    /// The node's high watermark.
    pub watermark: u64,
    /// The last stable offset at that watermark.
    pub stable: u64,
    /// The node's log end offset.
    pub end: u64,
    /// How many aborted transactions there are.
    pub aborted: usize,
}

impl FetchedOut {
    /// What was fetched, as it is told. O(1).
    pub fn of(fetched: &Fetched) -> FetchedOut
        ensures { result ≡ fetched_out fetched.now }
    {
        FetchedOut {
            watermark: fetched.watermark(),
            stable: fetched.stable_offset(),
            end: fetched.end_offset(),
            aborted: fetched.aborted().len(),
        }
    }
}

/// An aborted transaction, as a fetch tells it.
#[repr(C)]
#[derive(Clone, Copy)]
pub struct AbortedOut {
    /// Whose it was.
    pub producer_id: u64,
    /// The offset of its first record.
    pub first: u64,
}

impl AbortedOut {
    /// A transaction as it is told. O(1).
    pub fn of(aborted: &AbortedTransaction) -> AbortedOut
        ensures { result ≡ aborted_out aborted.now }
    {
        AbortedOut {
            producer_id: aborted.producer,
            first: aborted.first,
        }
    }
}

/// A transaction that is open.
#[repr(C)]
#[derive(Clone, Copy)]
pub struct OpenOut {
    /// Whose it is.
    pub producer_id: u64,
    /// The offset of its first record.
    pub first: u64,
}

impl OpenOut {
    /// A transaction as it is told. O(1).
    pub fn of(transaction: &OpenTransaction) -> OpenOut
        ensures { result ≡ open_out transaction.now }
    {
        OpenOut {
            producer_id: transaction.producer,
            first: transaction.first,
        }
    }
}

/// The head of a batch. What a batch hasn't got has all bits set, as Kafka's -1.
#[repr(C)]
#[derive(Clone, Copy)]
pub struct HeadOut {
    /// The offset of its first record.
    pub base: u64,
    /// The timestamp that its records count from, in milliseconds.
    pub base_timestamp: u64,
    /// The greatest timestamp of its records, in milliseconds.
    pub max_timestamp: u64,
    /// The producer that wrote it, or that its marker is for.
    pub producer_id: u64,
    /// Its leader epoch.
    pub epoch: u32,
    /// How many records it has, and offsets it takes.
    pub count: u32,
    /// The sequence number of its first record; a marker has none.
    pub base_sequence: u32,
    /// How many bytes it has.
    pub size: u32,
    /// The producer's epoch.
    pub producer_epoch: u16,
    /// Bit 4 says transactional, bit 5 control.
    pub attributes: u16,
}

impl HeadOut {
    /// A batch's head as it is told. O(1).
    pub fn of(batch: &Batch) -> HeadOut
        ensures { result ≡ head_out batch.now }
    {
        HeadOut {
            base: batch.base_offset(),
            base_timestamp: batch.base_timestamp(),
            max_timestamp: batch.max_timestamp(),
            producer_id: batch.producer_id().unwrap_or(u64::MAX),
            epoch: batch.leader_epoch().unwrap_or(u32::MAX),
            count: batch.count(),
            base_sequence: batch.base_sequence().unwrap_or(u32::MAX),
            size: batch.size(),
            producer_epoch: batch.producer_epoch().unwrap_or(u16::MAX),
            attributes: batch.attributes(),
        }
    }
}

/// The number of the node that the message goes to; 255 where that is the controller.
pub(crate) fn addressee_out(body: &MessageBody) -> u8
    ensures { result ≡ addressee_out body.now }
{
    body.addressee().unwrap_or(u8::MAX)
}
