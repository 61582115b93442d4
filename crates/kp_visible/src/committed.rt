//! The records that a read-committed consumer sees.

ghost use Rattle.std.specs.Prelude.{◌≡◌, ◌≤◌, ◌^◌, map};
ghost use Rattle.std.specs.List.{All, AllByRecursion};
ghost use Rattle.kp_model.specs.Log.{logged, next_offset};
ghost use Rattle.kp_model.specs.Visible.{records_in};

use crate::by_producer::ByProducer;
use crate::placed::PlacedRecords;
use crate::searched::Searched;
use kp_batch::{Batch, Record};
use kp_types::Offset;

/// The records of batches that a read-committed consumer sees, in their order, each with its offset and lent from its
/// batch's bytes. It holds the memory that [`committed_records`](crate::committed_records) took.
#[derive(Drop)]
pub struct CommittedRecords<'a> {
    searched: Searched<'a>,
    batches: &'a [Batch],
    current: PlacedRecords<'a>,
    ghost placed: { All (λ w. next_offset (logged w) ≤ 2 ^ 62) batches.now },
}

impl<'a> Iterator for CommittedRecords<'a> {
    type Item = (Offset, Record<'a>);

    ghost use Rattle.std.specs.Iterator.{YieldsFirstBy, item_count};
    ghost use Rattle.kp_visible.specs.Lent.{committed_left, lent_at};

    ghost next_gives = { YieldsFirstBy lent_at committed_left };

    ghost remaining = { item_count committed_left };

    fn next(&mut self) -> Option<(Offset, Record<'a>)> {
        loop {
            if let Some(found) = self.current.next() {
                return Some(found);
            }
            let [batch, rest @ ..] = self.batches else {
                return None;
            };
            self.batches = rest;
            if self.searched.is_shown(batch) {
                self.current = PlacedRecords::of(batch);
            }
        }
    }
}

impl<'a> CommittedRecords<'a> {
    ghost use Rattle.kp_visible.specs.Near.{shown_from};
    ghost use Rattle.kp_visible.specs.Lent.{committed_left};

    // Those of these batches, by these aborted transactions.
    pub(crate) fn of(batches: &'a [Batch], index: ByProducer<'a>) -> CommittedRecords<'a>
        requires { AllByRecursion (λ w. next_offset (logged w) ≤ 2 ^ 62) batches.now }
        ensures { committed_left result
            ≡ records_in (shown_from index.entry.aborted.now 0 (map logged batches.now)) }
    {
        CommittedRecords {
            searched: Searched::of(index),
            batches,
            current: PlacedRecords::none(),
        }
    }
}
