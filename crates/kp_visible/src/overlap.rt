//! What a broker names of the aborted transactions beside the batches that it answers with.

ghost use Rattle.std.specs.Prelude.{◌≡◌, ◌+◌, ◌≤◌, ◌^◌, nat_le, ℕ, List, [], IfOk, MatchOption, OnErr, map};
ghost use Rattle.std.specs.List.{AllByRecursion, filter};
ghost use Rattle.std.specs.List.Sorted.{IsNonDecreasingBy, IsPermutation};
ghost use Rattle.kp_model.specs.Log.{Batch as LogBatch, IsLog, logged, next_offset};
ghost use Rattle.kp_model.specs.Transactions.{Aborted, aborted_in};
ghost use Rattle.kp_model.specs.Visible.{is_visible};
ghost use Rattle.kp_visible.specs.Client.{gone_over, is_clear, kept, named, overlapping, overlaps};
ghost use Rattle.kp_visible.specs.Laws.{IsStablePiece};

use crate::filter::first_stopping;
use kp_batch::Batch;
use kp_txns::AbortedTransaction;
use kp_types::Offset;
use std::alloc::{AllocError, Global};

/// Of a log's aborted transactions those that overlap these batches, by rising first offset: each began below the end of
/// the last batch, and its abort marker stands at or above the base offset of the first (KIP-98; Kafka protocol guide,
/// Fetch, 'aborted_transactions'). A client that is answered with the batches, and with the producer and first offset of
/// each of these transactions, is left with the batches that are visible in the log, where they are a piece of it below
/// its last stable offset, whether it looks at the whole answer or goes over it; and these are the batches that none of the
/// transactions spans ([`is_clear`](crate::is_clear)).
/// Each batch lies below offset 2^62. It fails only where memory runs out (F33), and not where nothing overlaps: then it
/// takes none. O(log n + m + k log k) in the n aborted transactions, in the m of them from the first on that ends at or
/// above the first batch, up to the first at whose marker nothing that began below the end was open any more, and in the
/// k of those that overlap; and memory for a list of the k.
pub fn overlapping(
    alloc: Global,
    batches: &[Batch],
    aborted: &[AbortedTransaction],
) -> Result<Vec<AbortedTransaction>, AllocError>
    requires { AllByRecursion (λ w. next_offset (logged w) ≤ 2 ^ 62) batches.now }
    ensures rising { IfOk result (λ entries. IsNonDecreasingBy (λ a. a.first) entries.items) }
    ensures those { IfOk result (λ entries. (log : List LogBatch) → IsLog log
        → aborted.now ≡ aborted_in log
        → IsPermutation (overlapping (map logged batches.now) aborted.now) entries.items) }
    ensures client { IfOk result (λ entries. (log : List LogBatch) → (high_watermark : ℕ)
        → IsLog log → aborted.now ≡ aborted_in log
        → IsStablePiece (map logged batches.now) log high_watermark
        → kept (map named entries.items) (map logged batches.now)
        ≡ filter (is_visible log) (map logged batches.now)) }
    ensures programmed { IfOk result (λ entries. (log : List LogBatch) → (high_watermark : ℕ)
        → IsLog log → aborted.now ≡ aborted_in log
        → IsStablePiece (map logged batches.now) log high_watermark
        → gone_over (map named entries.items) [] (map logged batches.now)
        ≡ filter (is_visible log) (map logged batches.now)) }
    ensures clear { IfOk result (λ entries. (log : List LogBatch) → (high_watermark : ℕ)
        → IsLog log → aborted.now ≡ aborted_in log
        → IsStablePiece (map logged batches.now) log high_watermark
        → filter (is_clear entries.items) (map logged batches.now)
        ≡ filter (is_visible log) (map logged batches.now)) }
    ensures needed { OnErr result ((log : List LogBatch) → IsLog log → aborted.now ≡ aborted_in log
        → ¬ (overlapping (map logged batches.now) aborted.now ≡ [])) }
{
    match offsets_of(batches) {
        None => Ok(Vec::new(alloc)),
        Some((start, last)) => {
            let mut entries = begun_by(alloc, between(aborted, start, last), last)?;
            entries.sort_unstable_by_key(|ended| ended.first);
            Ok(entries)
        }
    }
}

// The base offset of the first batch, and the last offset of the last. O(1).
fn offsets_of(batches: &[Batch]) -> Option<(Offset, Offset)>
    requires { AllByRecursion (λ w. next_offset (logged w) ≤ 2 ^ 62) batches.now }
    ensures { MatchOption result (batches.now ≡ []) (λ offsets. (aborted : List Aborted)
        → overlapping (map logged batches.now) aborted
        ≡ filter (overlaps offsets.0 (offsets.1 + 1)) aborted) }
{
    let (Some(first), Some(last)) = (batches.first(), batches.last()) else {
        return None;
    };
    let end = last.base_offset() + u64::from(last.last_offset_delta());
    Some((first.base_offset(), end))
}

// Of a log's list, from the first on that ends at or above the start, up to the first at whose marker nothing that began at or
// below the last offset was open any more. O(log n + m) in the n transactions, of which m are those.
fn between<'a>(
    aborted: &'a [AbortedTransaction],
    start: Offset,
    last: Offset,
) -> &'a [AbortedTransaction]
    ensures { (log : List LogBatch) → IsLog log → aborted.now ≡ aborted_in log
        → filter (λ a. nat_le a.first last) result.now
        ≡ filter (overlaps start (last + 1)) aborted.now }
{
    let (_, ending) = aborted.split_at(aborted.partition_point(|ended| ended.marker < start));
    let stopping = first_stopping(ending, 0, last);
    if stopping < ending.len() {
        &ending[..stopping + 1]
    } else {
        ending
    }
}

// Those that began at or below the offset. O(n) in them.
fn begun_by(
    alloc: Global,
    aborted: &[AbortedTransaction],
    offset: Offset,
) -> Result<Vec<AbortedTransaction>, AllocError>
    ensures those { IfOk result (λ entries. entries.items
        ≡ filter (λ a. nat_le a.first offset) aborted.now) }
    ensures needed { OnErr result (¬ (filter (λ a. nat_le a.first offset) aborted.now ≡ [])) }
{
    let mut entries = Vec::new(alloc);
    for ended in aborted {
        if ended.first <= offset {
            entries.push(*ended)?;
        }
    }
    Ok(entries)
}
