//! Which aborted transactions decide for batches.

ghost use Rattle.std.specs.Prelude.{◌≡◌, ◌≤◌, map};
ghost use Rattle.std.specs.List.{All, AllByRecursion, list_any};
ghost use Rattle.std.specs.List.Sorted.{IsNonDecreasingBy};
ghost use Rattle.kp_model.specs.Log.{logged};
ghost use Rattle.kp_visible.specs.Client.{is_clear, spans};
ghost use Rattle.kp_visible.specs.Filter.{covers, decides, hides, shows};
ghost use Rattle.kp_visible.specs.Searched.{IsFirstFrom, stops};

use kp_batch::Batch;
use kp_txns::AbortedTransaction;
use kp_types::Offset;

// From a place on, the first transaction that ends above the offset, and at whose marker nothing that began at or below the
// offset was open any more; the end of the list, where there is none. O(1), and the transactions in front of that one.
pub(crate) fn first_stopping(aborted: &[AbortedTransaction], from: usize, offset: Offset) -> usize
    ensures { IsFirstFrom (stops offset) aborted.now from result }
{
    let mut place = from;
    while place < aborted.len() {
        let ended = &aborted[place];
        if ended.stable > offset && ended.marker > offset {
            return place;
        }
        place += 1;
    }
    place
}

// The lowest and the highest base offset of batches. O(n) in the batches.
fn base_offsets(batches: &[Batch]) -> (Offset, Offset)
    ensures { All (λ w. (result.0 ≤ (logged w).base) × ((logged w).base ≤ result.1)) batches.now }
{
    let mut lowest = Offset::MAX;
    let mut highest = 0;
    for batch in batches {
        let offset = batch.base_offset();
        lowest = lowest.min(offset);
        highest = highest.max(offset);
    }
    (lowest, highest)
}

// Of a list that rises by marker, those that decide for these batches: from the first on that ends above one of them, up to the
// first that decides for each of them. O(b + log n + m) in the b batches and the n transactions, of which m are those.
pub(crate) fn deciding<'a>(
    batches: &[Batch],
    aborted: &'a [AbortedTransaction],
) -> &'a [AbortedTransaction]
    ensures rising { IsNonDecreasingBy (λ a. a.marker) aborted.now
        → IsNonDecreasingBy (λ a. a.marker) result.now }
    ensures same { IsNonDecreasingBy (λ a. a.marker) aborted.now
        → AllByRecursion (λ b. shows result.now b ≡ shows aborted.now b) (map logged batches.now) }
{
    let (lowest, highest) = base_offsets(batches);
    let (_, ending) = aborted.split_at(aborted.partition_point(|ended| ended.marker <= lowest));
    let last = first_stopping(ending, 0, highest);
    if last < ending.len() {
        &ending[..last + 1]
    } else {
        ending
    }
}

// Whether the batch is shown by these aborted transactions. O(n) in them.
pub(crate) fn is_shown(batch: &Batch, aborted: &[AbortedTransaction]) -> bool
    ensures { result ≡ shows aborted.now (logged batch.now) }
{
    match batch.producer_id() {
        Some(producer) if batch.is_transactional_data() => {
            !is_hidden(aborted, producer, batch.base_offset())
        }
        _ => !batch.is_control(),
    }
}

/// Whether a read-committed consumer sees the batch's records, by the aborted transactions that go with a fetch's answer, in whatever order:
/// data that isn't transactional, or that none of these spans: it is the producer's, began at or below the batch, and its marker stands
/// above it. O(n) in them for transactional data, else O(1). (KIP-98.)
pub fn is_clear(batch: &Batch, aborted: &[AbortedTransaction]) -> bool
    ensures { result ≡ is_clear aborted.now (logged batch.now) }
{
    match batch.producer_id() {
        Some(producer) if batch.is_transactional_data() => {
            !is_spanned(aborted, producer, batch.base_offset())
        }
        _ => !batch.is_control(),
    }
}

// Whether one of the producer's spans the offset.
fn is_spanned(aborted: &[AbortedTransaction], producer: u64, offset: Offset) -> bool
    ensures { result ≡ list_any (spans producer offset) aborted.now }
{
    for ended in aborted {
        if spans(ended, producer, offset) {
            return true;
        }
    }
    false
}

// Whether it is the producer's, began at the offset or below it, and ends above it.
fn spans(ended: &AbortedTransaction, producer: u64, offset: Offset) -> bool
    ensures { result ≡ spans producer offset ended.now }
{
    covers(ended, producer, offset) && offset < ended.marker
}

// Whether the first transaction that decides hides this producer's transactional batch at the offset.
fn is_hidden(aborted: &[AbortedTransaction], producer: u64, offset: Offset) -> bool
    ensures { result ≡ hides aborted.now producer offset }
{
    for ended in aborted {
        if decides(ended, producer, offset) {
            return covers(ended, producer, offset);
        }
    }
    false
}

// Whether it ends above the offset, and is the producer's, or nothing that began at or below the offset was open any more then.
fn decides(ended: &AbortedTransaction, producer: u64, offset: Offset) -> bool
    ensures { result ≡ decides producer offset ended.now }
{
    ended.marker > offset && (ended.producer == producer || ended.stable > offset)
}

// Whether it is the producer's, and began at the offset or below it.
fn covers(ended: &AbortedTransaction, producer: u64, offset: Offset) -> bool
    ensures { result ≡ covers producer offset ended.now }
{
    ended.producer == producer && ended.first <= offset
}
