//! A list of aborted transactions, found by their producers.

ghost use Rattle.std.specs.Prelude.{◌≡◌, ◌<◌, ◌≤◌, ℕ, length, map, slice_index_or, IfOk, IsTrue};
ghost use Rattle.std.specs.List.{enumerate_from};
ghost use Rattle.std.specs.List.Sorted.{IsSorted};
ghost use Rattle.std.specs.Ordering.{is_lt};
ghost use Rattle.kp_visible.specs.Searched.{AreKeysOf, ArePartedAt, HaveKeys, IsFirstFrom, is_own, key_cmp};

use kp_txns::AbortedTransaction;
use kp_types::Offset;
use std::alloc::{AllocError, Global};

// The list, and for each of its transactions the producer and the place in the list, in order. `ends` is a guess at where a
// producer's search begins: for each rest of a producer's number, where among these keys the last search for such a one ended.
#[derive(Drop)]
pub(crate) struct ByProducer<'a> {
    pub(crate) aborted: &'a [AbortedTransaction],
    keys: Vec<(u64, usize)>,
    ends: Vec<usize>,
    ghost rising: { IsSorted key_cmp keys.items },
    ghost of_list: { AreKeysOf aborted.now keys.items },
    ghost of_each: { HaveKeys aborted.now keys.items },
}

impl<'a> ByProducer<'a> {
    // O(n log n) in the transactions, and at most 32 bytes of memory for each.
    pub(crate) fn of(
        alloc: Global,
        aborted: &'a [AbortedTransaction],
    ) -> Result<ByProducer<'a>, AllocError>
        ensures { IfOk result (λ index. index.aborted.now ≡ aborted.now) }
    {
        let mut keys = keys_of(alloc, aborted)?;
        keys.sort_unstable();
        let ends = vec![in alloc; 0; ends_of(aborted.len())]?;
        Ok(ByProducer {
            aborted,
            keys,
            ends,
        })
    }

    // From a place on, the first of the producer's that ends above the offset; the end of the list, where there is none. In a
    // list that rises by marker, and from the first on that ends above the offset, O(log n) in the transactions; O(1) where the
    // guess is right or one too low.
    pub(crate) fn first_own(&mut self, from: usize, producer: u64, offset: Offset) -> usize
        requires { from ≤ length self.old.aborted.now }
        ensures list { self.new.aborted.now ≡ self.old.aborted.now }
        ensures first { IsFirstFrom (is_own producer offset) self.old.aborted.now from result }
    {
        let rest = producer as usize & self.ends.len().saturating_sub(1);
        let guess = self.ends.get(rest).copied().unwrap_or(0);
        let (place, next) = self.search(from, producer, offset, guess);
        if let Some(end) = self.ends.get_mut(rest) {
            *end = next;
        }
        place
    }

    // That place, and where the search among the keys ended, by a guess at where it begins.
    fn search(&self, from: usize, producer: u64, offset: Offset, guess: usize) -> (usize, usize)
        requires { from ≤ length self.now.aborted.now }
        ensures { IsFirstFrom (is_own producer offset) self.now.aborted.now from result.0 }
    {
        let mut next = self.before((producer, from), guess);
        while next < self.keys.len() {
            let (owner, place) = self.keys[next];
            if owner != producer {
                break;
            }
            let ended = &self.aborted[place];
            if ended.marker > offset {
                return (place, next);
            }
            next += 1;
        }
        (self.aborted.len(), next)
    }

    // How many of the keys come before this one. O(1) where the guess is right or one too low, else O(log n).
    fn before(&self, key: (u64, usize), guess: usize) -> usize
        ensures { ArePartedAt key self.now.keys.items result }
    {
        if self.are_parted_at(guess, key) {
            return guess;
        }
        let next = guess.saturating_add(1);
        if self.are_parted_at(next, key) {
            return next;
        }
        self.keys.partition_point(|other| *other < key)
    }

    // Whether so many of the keys come before this one. O(1).
    fn are_parted_at(&self, count: usize, key: (u64, usize)) -> bool
        ensures { IsTrue result → ArePartedAt key self.now.keys.items count }
    {
        count <= self.keys.len()
            && (count == 0 || self.comes_before(count - 1, key))
            && (count == self.keys.len() || !self.comes_before(count, key))
    }

    // Whether the one of this place among the keys comes before this one. O(1).
    fn comes_before(&self, at: usize, key: (u64, usize)) -> bool
        requires { at < length self.now.keys.items }
        ensures { (d : ℕ × ℕ) → result ≡ is_lt (key_cmp (slice_index_or self.now.keys.items at d) key) }
    {
        self.keys[at] < key
    }
}

// How many ends are kept of so many transactions: the least power of two that isn't lower; of none, none.
fn ends_of(transactions: usize) -> usize {
    if transactions == 0 {
        return 0;
    }
    transactions.checked_next_power_of_two().unwrap_or(0)
}

// The producer and the place of each transaction, in their order.
fn keys_of(alloc: Global, aborted: &[AbortedTransaction]) -> Result<Vec<(u64, usize)>, AllocError>
    ensures { IfOk result (λ keys. keys.items ≡ map (λ p. (p.1.producer, p.0)) (enumerate_from 0 aborted.now)) }
{
    aborted
        .iter()
        .enumerate()
        .map(|(place, ended)| (ended.producer, place))
        .collect(alloc)
}
