//! What one fetch of a consumer gives.

ghost use Rattle.std.specs.Prelude.{◌≡◌};

use kp_batch::Batch;
use kp_txns::AbortedTransaction;
use kp_types::Offset;
use std::marker::Model;

/// What a consumer asks to be shown (Kafka's `isolation.level`).
#[derive(Clone, Copy, PartialEq, Eq)]
pub enum Isolation {
    /// All that is committed, up to the high watermark.
    ReadUncommitted,
    /// What no open transaction holds back, up to the last stable offset; the client leaves out what was aborted.
    ReadCommitted,
}

/// What one fetch gives, all of one moment. (Kafka protocol guide, Fetch; a log begins at offset 0.)
#[derive(Drop)]
pub struct Fetched {
    pub(crate) batches: Vec<Batch>,
    pub(crate) aborted: Vec<AbortedTransaction>,
    pub(crate) watermark: Offset,
    pub(crate) stable: Offset,
    pub(crate) end: Offset,
}

impl Model for Fetched {
    ghost use Rattle.kp_node.specs.Fetched.{FetchedView};

    ghost Value = { FetchedView };

    ghost view = { λ f. record {
      batches = f.batches.items;
      aborted = f.aborted.items;
      watermark = f.watermark;
      stable = f.stable;
      end = f.end;
    } };
}

impl Fetched {
    /// The batches, in the order of the log. They share the log's bytes. O(1).
    pub fn batches(&self) -> &[Batch]
        ensures { result.now ≡ self.now.batches }
    {
        &self.batches
    }

    /// The aborted transactions that a read-committed client filters these batches by, by rising first offset; none where the fetch
    /// wasn't read committed. O(1). (Kafka protocol guide, Fetch, `aborted_transactions`.)
    pub fn aborted(&self) -> &[AbortedTransaction]
        ensures { result.now ≡ self.now.aborted }
    {
        &self.aborted
    }

    /// The node's high watermark. O(1).
    pub fn watermark(&self) -> Offset
        ensures { result ≡ self.now.watermark }
    {
        self.watermark
    }

    /// The last stable offset at that watermark. O(1). (KIP-98.)
    pub fn stable_offset(&self) -> Offset
        ensures { result ≡ self.now.stable }
    {
        self.stable
    }

    /// The node's log end offset. O(1).
    pub fn end_offset(&self) -> Offset
        ensures { result ≡ self.now.end }
    {
        self.end
    }
}
