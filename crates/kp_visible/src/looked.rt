//! Which of a log's first batches a reader is shown, so that none is looked at twice.

ghost use Rattle.std.specs.Prelude.{◌≡◌, false, true, ◌+◌, ◌-◌, ◌<◌, ◌≤◌, ◌^◌, [], ◌∷◌, ◌++◌, length, take, drop, IfOk, OnOk, OnErr, map};
ghost use Rattle.std.specs.List.{AllByRecursion};
ghost use Rattle.std.specs.List.Sorted.{IsNonDecreasingBy};
ghost use Rattle.kp_model.specs.Beginning.{Begins};
ghost use Rattle.kp_model.specs.Log.{logged, next_offset};
ghost use Rattle.kp_model.specs.Reading.{lines_from};
ghost use Rattle.kp_model.specs.Visible.{is_data, records_in};
ghost use Rattle.kp_visible.specs.Filter.{shows};
ghost use Rattle.kp_visible.specs.Looked.{chosen};

use crate::by_producer::ByProducer;
use crate::filter::{deciding, is_shown};
use crate::lines::{ReadRecords, push_batches};
use crate::searched::Searched;
use kp_batch::Batch;
use kp_txns::AbortedTransaction;
use kp_types::Offset;
use std::alloc::{AllocError, Global};
use std::marker::Model;

// For so many batches the list of aborted transactions is gone through.
const FEW: usize = 16;

// Batches one behind another that are shown: the place of the first, and the one behind the last.
#[derive(Clone, Copy)]
pub(crate) struct Stretch {
    start: usize,
    end: usize,
}

/// Whether each of a log's first batches is shown to a reader. It keeps the stretches of those that are, so it takes no memory
/// where all are shown or none is, and at most 16 bytes for a stretch.
#[derive(Drop)]
pub struct Looked {
    stretches: Vec<Stretch>,
    // Where the stretch begins that the last batch is in.
    last: Option<usize>,
    count: usize,
}

impl Model for Looked {
    ghost use Rattle.std.specs.Prelude.{Bool, List, ◌++◌};
    ghost use Rattle.kp_visible.specs.Looked.{AreBehind, last_stretch, spread};

    ghost Value = { List Bool };

    ghost view = { λ l. spread 0 (l.stretches.items ++ last_stretch l.last l.count) l.count };

    ghost invariant = { λ l. AreBehind 0 (l.stretches.items ++ last_stretch l.last l.count) l.count };
}

impl Looked {
    /// Of no batch. It takes no memory.
    pub fn new(alloc: Global) -> Looked
        ensures { result ≡ [] }
    {
        Looked {
            stretches: Vec::new(alloc),
            last: None,
            count: 0,
        }
    }

    /// Of how many batches it is known. O(1).
    pub fn len(&self) -> usize
        ensures { result ≡ length self.now }
    {
        self.count
    }

    // Of one more, which is shown.
    fn push_shown(&mut self)
        requires { length self.old + 1 < 2 ^ 64 }
        ensures { self.new ≡ self.old ++ true ∷ [] }
    {
        self.last = Some(self.last.unwrap_or(self.count));
        self.count += 1;
    }

    // Of one more, which isn't.
    fn push_hidden(&mut self) -> Result<(), AllocError>
        requires { length self.old + 1 < 2 ^ 64 }
        ensures ok { OnOk result (self.new ≡ self.old ++ false ∷ []) }
        ensures err { OnErr result (self.new ≡ self.old) }
    {
        match self.last {
            None => {}
            Some(start) => {
                self.stretches.push(Stretch {
                    start,
                    end: self.count,
                })?;
                self.last = None;
            }
        }
        self.count += 1;
        Ok(())
    }

    // Of one more.
    fn push(&mut self, shown: bool) -> Result<(), AllocError>
        requires { length self.old + 1 < 2 ^ 64 }
        ensures ok { OnOk result (self.new ≡ self.old ++ shown ∷ []) }
        ensures err { OnErr result (self.new ≡ self.old) }
    {
        if shown {
            self.push_shown();
            return Ok(());
        }
        self.push_hidden()
    }

    /// Looks at the batches that come next: data is shown. Where memory is refused, the first ones may have been looked at. O(n) in
    /// the batches.
    pub fn look(&mut self, batches: &[Batch]) -> Result<(), AllocError>
        requires { length self.old + length batches.now < 2 ^ 64 }
        ensures looked { OnOk result (self.new ≡ self.old ++ map is_data (map logged batches.now)) }
        ensures begun { Begins self.new (self.old ++ map is_data (map logged batches.now)) }
    {
        for batch in batches {
            self.push(!batch.is_control())?;
        }
        Ok(())
    }

    /// Looks at the batches that come next, by a list of aborted transactions that rises by marker, as a log's does: shown is
    /// what [`committed_records`](crate::committed_records) shows. Where memory is refused, the first ones may have been looked
    /// at. The cost is that of `committed_records`, and for at most 16 batches O(m) each in place of O(m log m), and no memory for
    /// an index.
    pub fn look_committed(
        &mut self,
        alloc: Global,
        batches: &[Batch],
        aborted: &[AbortedTransaction],
    ) -> Result<(), AllocError>
        requires counted { length self.old + length batches.now < 2 ^ 64 }
        requires rising { IsNonDecreasingBy (λ a. a.marker) aborted.now }
        ensures looked { OnOk result (self.new
            ≡ self.old ++ map (shows aborted.now) (map logged batches.now)) }
        ensures begun { Begins self.new
            (self.old ++ map (shows aborted.now) (map logged batches.now)) }
    {
        let needed = deciding(batches, aborted);
        if batches.len() <= FEW {
            return self.look_few(batches, needed);
        }
        let mut searched = Searched::of(ByProducer::of(alloc, needed)?);
        for batch in batches {
            self.push(searched.is_shown(batch))?;
        }
        Ok(())
    }

    // Looks at few batches, for each of which the list is gone through: an index of it would cost more.
    fn look_few(
        &mut self,
        batches: &[Batch],
        aborted: &[AbortedTransaction],
    ) -> Result<(), AllocError>
        requires { length self.old + length batches.now < 2 ^ 64 }
        ensures looked { OnOk result (self.new
            ≡ self.old ++ map (shows aborted.now) (map logged batches.now)) }
        ensures begun { Begins self.new
            (self.old ++ map (shows aborted.now) (map logged batches.now)) }
    {
        for batch in batches {
            self.push(is_shown(batch, aborted))?;
        }
        Ok(())
    }

    /// The records, from an offset on, of those of the batches that are shown, from a place on. O(log n) in the stretches, and the
    /// batches that are shown from that place on. Room for a record of each is made first. It fails only where memory is refused.
    pub fn shown(
        &self,
        alloc: Global,
        batches: &[Batch],
        place: usize,
        from: Offset,
    ) -> Result<ReadRecords, AllocError>
        requires known { length batches.now ≡ length self.now }
        requires in_range { AllByRecursion (λ w. next_offset (logged w) ≤ 2 ^ 62) batches.now }
        ensures { IfOk result (λ lines. lines ≡ lines_from from
            (records_in (chosen (drop place self.now) (drop place (map logged batches.now))))) }
    {
        let passed = self.stretches.partition_point(|s| s.end <= place);
        let closed = count_shown(&self.stretches[passed..], place);
        let open = self
            .last
            .map_or(0, |start| shown_from(place, start, self.count));
        let mut lines = ReadRecords::with_room(alloc, closed.saturating_add(open))?;
        let mut place = place;
        for stretch in &self.stretches[passed..] {
            let start = place.max(stretch.start);
            push_batches(&mut lines, between(batches, start, stretch.end), from)?;
            place = place.max(stretch.end);
        }
        match self.last {
            None => {}
            Some(start) => {
                let start = place.max(start);
                push_batches(&mut lines, between(batches, start, self.count), from)?;
            }
        }
        Ok(lines)
    }
}

// How many of the batches of stretches stand at a place or behind it. O(n) in the stretches.
fn count_shown(stretches: &[Stretch], place: usize) -> usize {
    let mut shown: usize = 0;
    for stretch in stretches {
        shown = shown.saturating_add(shown_from(place, stretch.start, stretch.end));
    }
    shown
}

// How many of the batches of one stretch do.
fn shown_from(place: usize, start: usize, end: usize) -> usize {
    end.saturating_sub(start.max(place))
}

// The batches from a place on, up to the one in front of another; none where the places are the other way round.
fn between(batches: &[Batch], start: usize, end: usize) -> &[Batch]
    requires { end ≤ length batches.now }
    ensures { result.now ≡ take (end - start) (drop start batches.now) }
{
    &batches[start.min(end)..end]
}
