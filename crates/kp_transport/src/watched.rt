//! A carrier that tells how much is under way.
ghost use Rattle.std.specs.Prelude.{◌≡◌, IfErr};
ghost use Rattle.kp_types.specs.declared.refusal.Refusal.TheVariants as refusals;

use crate::parcel::Carry;
use kp_types::{NODE_PLACES, NodeId, Refusal};
use std::alloc::Global;
use std::sync::Arc;
use std::sync::atomic::{AtomicU64, Ordering};
use std::thread;

// A place for each node, and the controller's.
const PLACES: usize = NODE_PLACES + 1;

/// How many parcels are on their way to each place, a node's or the controller's. Nothing is promised of a count but that it is one.
/// (Own rule.)
#[derive(Drop)]
pub struct Waiting {
    counts: [AtomicU64; PLACES],
}

impl Waiting {
    /// None is under way. O(1).
    pub fn new() -> Waiting {
        Waiting {
            counts: [
                AtomicU64::new(0),
                AtomicU64::new(0),
                AtomicU64::new(0),
                AtomicU64::new(0),
                AtomicU64::new(0),
                AtomicU64::new(0),
                AtomicU64::new(0),
                AtomicU64::new(0),
            ],
        }
    }

    fn sent(&self, place: NodeId) {
        if let Some(count) = self.counts.get(usize::from(place)) {
            count.fetch_add(1, Ordering::SeqCst);
        }
    }

    fn gone(&self, place: NodeId) {
        if let Some(count) = self.counts.get(usize::from(place)) {
            count.fetch_sub(1, Ordering::SeqCst);
        }
    }

    /// The most that are on their way to one place. O(1).
    pub fn most(&self) -> u64 {
        let mut most = 0;
        for count in &self.counts {
            most = most.max(count.load(Ordering::SeqCst));
        }
        most
    }

    /// Yields until no place has more than so many parcels on their way, at most so often. Says whether none has.
    pub fn settle(&self, most: u64, yields: u32) -> bool {
        for _ in 0..yields {
            if self.most() <= most {
                return true;
            }
            thread::yield_now();
        }
        self.most() <= most
    }
}

/// Counts what another carrier has under way: before a send the count of its place rises, after a receive it falls. (Own rule.)
#[derive(Drop)]
pub struct Watched<C> {
    inner: C,
    waiting: Arc<Waiting, Global>,
}

impl<C> Watched<C> {
    /// A carrier over this one, which counts into what is shared.
    pub fn new(inner: C, waiting: Arc<Waiting, Global>) -> Watched<C> {
        Watched { inner, waiting }
    }
}

impl<P: Drop, C: Carry<P>> Carry<P> for Watched<C> {
    fn send(&self, place: NodeId, parcel: P) -> Result<(), Refusal>
        ensures { IfErr result (λ refusal. refusal ≡ refusals.Memory) }
    {
        self.waiting.sent(place);
        let sent = self.inner.send(place, parcel);
        if sent.is_err() {
            self.waiting.gone(place);
        }
        sent
    }

    fn receive(&self, place: NodeId) -> Option<P> {
        let parcel = self.inner.receive(place)?;
        self.waiting.gone(place);
        Some(parcel)
    }
}
