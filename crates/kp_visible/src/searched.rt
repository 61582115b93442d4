//! The search for a batch in the list of aborted transactions.

ghost use Rattle.std.specs.Prelude.{◌≡◌, ◌≤◌, false, drop, length};
ghost use Rattle.std.specs.List.{AllWithin, find, slice_get};
ghost use Rattle.kp_model.specs.Log.{logged};
ghost use Rattle.kp_visible.specs.Filter.{decides, hides, shows};
ghost use Rattle.kp_visible.specs.Near.{place_from};
ghost use Rattle.kp_visible.specs.Searched.{stops};

use crate::by_producer::ByProducer;
use crate::filter::first_stopping;
use crate::near::place_near;
use kp_batch::Batch;
use kp_txns::AbortedTransaction;
use kp_types::Offset;

// A batch's base offset, its place in the list, and the place up to which none from there on stops a search at this offset.
#[derive(Drop)]
pub(crate) struct Searched<'a> {
    index: ByProducer<'a>,
    offset: Offset,
    place: usize,
    stopping: usize,
    ghost within: { place ≤ length index.aborted.now },
    ghost passed: { AllWithin (λ a. stops offset a ≡ false) index.aborted.now place stopping },
}

impl<'a> Searched<'a> {
    // At the list's beginning.
    pub(crate) fn of(index: ByProducer<'a>) -> Searched<'a>
        ensures list { result.index.aborted.now ≡ index.entry.aborted.now }
        ensures first { result.place ≡ 0 }
    {
        Searched {
            index,
            offset: 0,
            place: 0,
            stopping: 0,
        }
    }

    // Whether a consumer shows the batch: no control batch, and no batch of an aborted transaction. It costs what the way
    // to the batch's place does, and `is_aborted`.
    pub(crate) fn is_shown(&mut self, batch: &Batch) -> bool
        ensures list { self.new.index.aborted.now ≡ self.old.index.aborted.now }
        ensures moved { self.new.place
            ≡ place_from self.old.index.aborted.now (logged batch.now).base self.old.place }
        ensures shown { result
            ≡ shows (drop self.new.place self.new.index.aborted.now) (logged batch.now) }
    {
        self.move_to(batch.base_offset());
        match batch.producer_id() {
            Some(producer) if batch.is_transactional_data() => !self.is_aborted(producer),
            _ => !batch.is_control(),
        }
    }

    // To the place of a batch at this offset. It costs the way there.
    fn move_to(&mut self, offset: Offset)
        ensures list { self.new.index.aborted.now ≡ self.old.index.aborted.now }
        ensures moved { self.new.place ≡ place_from self.old.index.aborted.now offset self.old.place }
        ensures here { self.new.offset ≡ offset }
    {
        let place = place_near(self.index.aborted, self.place, offset);
        self.stopping = self.stopping_from(place, offset);
        self.place = place;
        self.offset = offset;
    }

    // From a place on, up to where none stops a search at an offset: as far as is known at a higher offset and from a place
    // further on, since what doesn't stop one doesn't at a higher offset either. O(1).
    #[tactic(auto, using(crate::proofs::Passing::passed_later))]
    fn stopping_from(&self, place: usize, offset: Offset) -> usize
        ensures { AllWithin (λ a. stops offset a ≡ false) self.now.index.aborted.now place result }
    {
        if self.offset <= offset && self.place <= place {
            self.stopping
        } else {
            place
        }
    }

    // Whether the list says that this producer's transactional batch here was aborted. It costs the search.
    fn is_aborted(&mut self, producer: u64) -> bool
        ensures list { self.new.index.aborted.now ≡ self.old.index.aborted.now }
        ensures place { self.new.place ≡ self.old.place }
        ensures hidden { result
            ≡ hides (drop self.old.place self.old.index.aborted.now) producer self.old.offset }
    {
        let place = self.search(producer);
        match self.index.aborted.get(place) {
            Some(ended) => ended.producer == producer && ended.first <= self.offset,
            None => false,
        }
    }

    // The place of the transaction that decides for this producer's batch here, or the end of the list. It costs `first_own`,
    // and the transactions that the search for one that stops goes on over.
    fn search(&mut self, producer: u64) -> usize
        ensures list { self.new.index.aborted.now ≡ self.old.index.aborted.now }
        ensures place { self.new.place ≡ self.old.place }
        ensures offset { self.new.offset ≡ self.old.offset }
        ensures found { find
            (decides producer self.old.offset) (drop self.old.place self.old.index.aborted.now)
            ≡ slice_get self.old.index.aborted.now result }
    {
        let from = self.stopping.max(self.place);
        self.stopping = first_stopping(self.index.aborted, from, self.offset);
        if self.stopping == self.place {
            return self.place;
        }
        let own = self.index.first_own(self.place, producer, self.offset);
        own.min(self.stopping)
    }
}
