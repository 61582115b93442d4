//! The kinds of numbers and their limits.

/// A record's place in the log, from 0; a log's end is the offset after its last record. Records have
/// offsets up to [`GREATEST_OFFSET`]. (Kafka protocol guide.)
pub type Offset = u64;

/// A leader epoch, from 0 to [`GREATEST_EPOCH`]. (KIP-101.)
pub type Epoch = u32;

/// A broker node's number, from 0 and below [`MOST_NODES`].
pub type NodeId = u8;

/// The greatest offset of a record, 2^62 - 1 (own rule).
pub const GREATEST_OFFSET: Offset = 4_611_686_018_427_387_903;

/// The greatest leader epoch, 2^24 - 2 (own rule).
pub const GREATEST_EPOCH: Epoch = 16_777_214;

/// The greatest version of the controller's record, 2^28 - 1 (own rule).
pub const GREATEST_VERSION: u32 = 268_435_455;

/// The most nodes of one partition (own rule).
pub const MOST_NODES: NodeId = 7;

/// The length of a list with a place for each node.
pub const NODE_PLACES: usize = MOST_NODES as usize;

/// The greatest number of a signed field of four bytes, as a length, a count or a coordinator's epoch has it, 2^31 - 1.
/// (Kafka protocol guide.)
pub const GREATEST_INT32: u32 = 2_147_483_647;

/// How many sequence numbers a producer has, 2^31: they go from 2147483647 to 0. (KIP-98.)
pub const SEQUENCES: u32 = 2_147_483_648;

/// The most bytes of a batch that scripts and the program allow.
pub const MAX_BATCH: u32 = 1_048_576;

/// The least and the greatest `segment_bytes`.
pub const LEAST_SEGMENT_BYTES: u32 = 1_024;

pub const GREATEST_SEGMENT_BYTES: u32 = 1_073_741_824;

/// The greatest `index_interval`.
pub const MAX_INDEX_INTERVAL: u32 = 1_048_576;

/// The sizes of a log, in bytes. After Kafka's `segment.bytes`, `index.interval.bytes` and
/// `max.message.bytes`.
#[derive(Clone, Copy, PartialEq, Eq)]
pub struct Limits {
    /// The most bytes of a segment that has more than one batch.
    pub segment_bytes: u32,
    /// How many bytes lie between two entries of an index.
    pub index_interval: u32,
    /// The most bytes of a batch.
    pub max_batch: u32,
}
