//! What a node answers of a receipt.

ghost use Rattle.std.specs.Prelude.{◌≡◌, ◌==◌, ◌&&◌, nat_le};
ghost use Rattle.kp_model.specs.Log.{below, logged, next_offset};
ghost use Rattle.kp_model.specs.Lookups.{batch_at};
ghost use Rattle.kp_node.specs.Acks.{ack_by, is_receipts};

use kp_batch::Batch;
use kp_log::PartitionLog;
use kp_replica::Receipt;
use kp_types::Offset;

/// Whether a receipt's batch is committed.
#[derive(Clone, Copy, PartialEq, Eq)]
pub enum Ack {
    /// It lies below the node's high watermark.
    Yes,
    /// Another batch lies there, below the node's high watermark.
    Lost,
    /// The node's high watermark hasn't reached its end.
    NotYet,
}

/// Whether all records of the batch lie below the offset. O(1).
fn lies_below(batch: &Batch, offset: Offset) -> bool
    ensures { result ≡ nat_le (next_offset (logged batch.now)) offset }
{
    let count = u64::from(batch.count());
    count <= offset && batch.base_offset() <= offset - count
}

/// Whether the receipt names the batch, which stands in a log: an offset and a leader epoch fix one (KIP-101). O(1).
fn is_receipts(batch: &Batch, receipt: &Receipt) -> bool
    ensures { result ≡ is_receipts receipt.now (logged batch.now) }
{
    batch.base_offset() == receipt.base && batch.leader_epoch().unwrap_or(0) == receipt.epoch
}

/// What is answered of the receipt, by the batches of the log below this watermark. O(log n) in the log.
pub(crate) fn judged(log: &PartitionLog, watermark: Offset, receipt: &Receipt) -> Ack
    ensures { result ≡ ack_by receipt.now (batch_at (below watermark log.now.log) receipt.now.base) }
{
    let _end = log.end_offset(); // it is a log's
    match log.batch_at(receipt.base) {
        None => Ack::NotYet,
        Some(batch) => {
            if lies_below(batch, watermark) {
                if is_receipts(batch, receipt) {
                    Ack::Yes
                } else {
                    Ack::Lost
                }
            } else {
                Ack::NotYet
            }
        }
    }
}
