//! What a read-committed consumer sees of the batches that it was handed, by the list of aborted transactions (KIP-98).
//! It stands on kp_batch's records, on kp_txns' aborted transactions, and on kp_model's definition of what is visible. The layer above
//! gets, of batches below the last stable offset, the visible records of the log, and the aborted ones to name to a client.
#![tactic(auto)]

mod by_producer;
mod committed;
mod filter;
mod lines;
mod looked;
mod near;
mod overlap;
mod placed;
mod searched;

ghost use Rattle.std.specs.Prelude.{◌≡◌, ◌≤◌, ◌^◌, ℕ, List, Contains, IfOk, map};
ghost use Rattle.std.specs.List.{AllByRecursion, filter};
ghost use Rattle.std.specs.List.Sorted.{IsNonDecreasingBy};
ghost use Rattle.kp_model.specs.Log.{Batch as LogBatch, IsLog, below, logged, next_offset};
ghost use Rattle.kp_model.specs.Transactions.{aborted_in, stable};
ghost use Rattle.kp_model.specs.Visible.{is_visible, records_in, visible};
ghost use Rattle.kp_visible.specs.Filter.{shows};
ghost use Rattle.kp_visible.specs.Lent.{committed_left};
ghost use Rattle.kp_visible.specs.Laws.{AbortedRecordsAreHidden, AbortedRecordsWereHidden, CommittedRecordsAreVisible, VisibleOffsetsRise, VisibleRecordsStay, OnlyBatchesBelowCount, AbortedRecordsAreHiddenInRuns, ClientsKeepWhatIsVisible, ClientsKeepVisibleRecords, ClientsReadOn, ClientsMayGoOver};

use crate::by_producer::ByProducer;
use crate::filter::deciding;
pub use committed::CommittedRecords;
pub use filter::is_clear;
use kp_batch::Batch;
use kp_txns::AbortedTransaction;
pub use lines::{ReadRecord, ReadRecords, push_committed, push_lines};
pub use looked::Looked;
pub use overlap::overlapping;
use std::alloc::{AllocError, Global};

/// What a read-committed consumer sees of these batches, by a list of aborted transactions (KIP-98). Control batches are
/// passed over. Data that isn't transactional is shown. For a transactional batch, of the transactions that end above its
/// base offset the first decides that is its producer's, or at whose marker nothing that began at or below the offset was
/// open any more: it hides the batch, where it is the producer's and began at or below the offset.
/// Each batch lies below offset 2^62. The list rises by marker, as a log's does: so of batches below the last stable
/// offset, the log's list shows those that are visible.
/// It fails only where memory runs out (F33). O(b + log n + m log m) in the b batches and the n aborted transactions, of which m
/// can decide for one of them: from the first on that ends above the lowest batch, up to the first that decides for all up to
/// the highest. It takes at most 32 bytes for each of the m, and none where none ends above a batch. Then a batch costs O(1),
/// and the transactions that end between it and the batch in front of it. A transactional one costs O(log m) besides, and O(1)
/// where no producer whose number has the same rest by m, at its next power of two, had a batch since this one's last; and
/// where batches rise by offset, all of them together the m. No bytes are copied.
pub fn committed_records<'a>(
    alloc: Global,
    batches: &'a [Batch],
    aborted: &'a [AbortedTransaction],
) -> Result<CommittedRecords<'a>, AllocError>
    requires { AllByRecursion (λ w. next_offset (logged w) ≤ 2 ^ 62) batches.now }
    ensures by_list { IfOk result (λ records. IsNonDecreasingBy (λ a. a.marker) aborted.now
        → committed_left records ≡ records_in (filter (shows aborted.now) (map logged batches.now))) }
    ensures committed { IfOk result (λ records. (log : List LogBatch) → (high_watermark : ℕ) → IsLog log
        → aborted.now ≡ aborted_in log
        → AllByRecursion (λ b. Contains log b
        × (next_offset b ≤ stable log high_watermark)) (map logged batches.now)
        → committed_left records ≡ records_in (filter (is_visible log) (map logged batches.now))) }
    ensures whole { IfOk result (λ records. (log : List LogBatch) → (high_watermark : ℕ) → IsLog log
        → aborted.now ≡ aborted_in log
        → map logged batches.now ≡ below (stable log high_watermark) log
        → committed_left records ≡ visible log high_watermark) }
{
    let index = ByProducer::of(alloc, deciding(batches, aborted))?;
    Ok(CommittedRecords::of(batches, index))
}

/// No record of an aborted transaction is visible at any high watermark: not once the log has the
/// abort marker, however it grows, and not before, while the transaction was still open. It costs
/// nothing.
pub fn aborted_records_are_hidden()
    ensures marked { AbortedRecordsAreHidden }
    ensures unmarked { AbortedRecordsWereHidden }
{}

/// Of data that isn't transactional, or whose transaction a commit marker ended, each record below
/// the last stable offset is visible at its offset, and the visible records come in offset order,
/// each once. What was visible stays so when the log grows and the high watermark rises, and what
/// comes to be visible then comes behind it. It costs nothing.
pub fn committed_records_are_visible()
    ensures visible { CommittedRecordsAreVisible }
    ensures rising { VisibleOffsetsRise }
    ensures staying { VisibleRecordsStay }
{}

/// A client that reads committed gets batches, and the producer and first offset of each aborted transaction that
/// overlaps them. It looks at nothing else: it drops control batches, and transactional data of a producer for which an
/// entry begins at or below it, unless an abort marker of the producer stands in the answer between. Where the batches
/// are a piece of a log below its last stable offset, it is left with those that are visible in the log, in their order,
/// and so with their records. Of two answers, the second from the end of the first on, it is left with what is visible of
/// both, though the log grew in between (KIP-98).
/// A client that goes over the batches, as Kafka's do, is left with the same: it takes an entry at the first batch whose
/// last offset isn't below the entry's, notes the producer, drops transactional data of noted producers, and forgets a
/// producer at its abort marker. It costs nothing.
pub fn clients_keep_what_is_visible()
    ensures batches { ClientsKeepWhatIsVisible }
    ensures records { ClientsKeepVisibleRecords }
    ensures onward { ClientsReadOn }
    ensures programmed { ClientsMayGoOver }
{}

/// What is visible at a high watermark is a matter of the batches below it alone, so it is the same at all nodes of a run that hold
/// the same. In a run no node shows a record of a transaction, at any moment, whose abort marker stands in what some node holds
/// below its high watermark, at whatever moment. It costs nothing.
pub fn aborted_records_are_hidden_in_runs()
    ensures below { OnlyBatchesBelowCount }
    ensures runs { AbortedRecordsAreHiddenInRuns }
{
    kp_model::runs_are_safe();
    kp_model::runs_keep_logs();
    kp_model::marks_are_ends();
}
