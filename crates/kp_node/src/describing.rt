//! What a node's log has of a producer, and which transactions are open in it.

ghost use Rattle.std.specs.Prelude.{◌≡◌, None};
ghost use Rattle.std.specs.List.{last_or};
ghost use Rattle.std.specs.Option.{option_map};
ghost use Rattle.kp_node.specs.Describes.{TellsOpen, producer_told, told_producer};

use crate::node::Node;
use kp_board::BoardName;
use kp_log::Tables;
use kp_producers::ProducerState;
use kp_txns::OpenTransaction;
use kp_types::{Epoch, Offset, Refusal};

/// A producer, as a node's log has it. (Kafka protocol guide, DescribeProducers; KIP-664.)
#[derive(Clone, Copy)]
pub struct ProducerInLog {
    /// The producer's epoch in its last batch, below 2^15.
    pub epoch: u16,
    /// The sequence number of its last record since that epoch began, below 2^31; none where it has written none.
    pub last_sequence: Option<u32>,
    /// The coordinator epoch of its last marker; none where it has none.
    pub coordinator_epoch: Option<Epoch>,
    /// The offset of the first record of its open transaction; none where none is open.
    pub open_from: Option<Offset>,
}

/// The sequence number of the producer's last record since its epoch began.
fn last_sequence(kept: &ProducerState) -> Option<u32>
    ensures { result ≡ option_map (λ k. k.last) (last_or None kept.now.recent) }
{
    match kept.recent().last() {
        Some(batch) => Some(batch.last_sequence()),
        None => None,
    }
}

/// What is kept of a producer, as it is told.
fn told(kept: &ProducerState, open_from: Option<Offset>) -> ProducerInLog
    ensures { result ≡ told_producer open_from kept.now }
{
    ProducerInLog {
        epoch: kept.epoch(),
        last_sequence: last_sequence(kept),
        coordinator_epoch: kept.coordinator_epoch(),
        open_from,
    }
}

/// What the tables of a log have of a producer.
fn producer_in(tables: &Tables, producer: u64) -> Option<ProducerInLog>
    ensures { result ≡ producer_told producer tables.now.log }
{
    let kept = tables.producers().get(producer)?;
    let open_from = tables.transactions().open_of(producer);
    Some(told(kept, open_from))
}

impl<B: BoardName> Node<B> {
    /// What the node's log has of this producer, also of a node that is down; none where it has no batch of it. O(log n) in the producers,
    /// O(1) as a rule; no memory. (Kafka protocol guide, DescribeProducers; KIP-98, KIP-664.)
    pub fn producer(&self, producer: u64) -> Option<ProducerInLog>
        ensures { result ≡ producer_told producer self.now.node.state.log }
    {
        producer_in(self.broker.log().tables(), producer)
    }

    /// The transactions that are open in the node's log, by rising first offset; also of a node that is down. F33 is the only refusal.
    /// O(n) in the open ones and in those that no marker below the high watermark has ended; memory for their list. (Kafka protocol
    /// guide, ListTransactions, DescribeProducers; KIP-98, KIP-664.)
    pub fn open_transactions(&self) -> Result<Vec<OpenTransaction>, Refusal>
        ensures { TellsOpen self.now.node.state result }
    {
        let open = self.broker.log().tables().transactions().open();
        Ok(open.collect(self.alloc)?)
    }
}
