//! A carrier over memory: a queue for each place, under a lock.
ghost use Rattle.std.specs.Prelude.{◌≡◌, IfErr};
ghost use Rattle.kp_types.specs.declared.refusal.Refusal.TheVariants as refusals;

use crate::parcel::Carry;
use kp_types::{NodeId, Refusal};
use std::alloc::Global;
use std::collections::VecDeque;
use std::sync::{Mutex, Wait};

/// Carries each parcel once, in the order in which they were sent to its place. It never waits for a parcel. (Own rule.)
#[derive(Drop)]
pub struct Memory<P, R> {
    rt: R,
    queues: Vec<Mutex<VecDeque<P>>>,
}

impl<P: Drop, R: Drop> Memory<P, R> {
    /// Empty queues for so many places. F33 is the only refusal. O(places).
    pub fn new(rt: R, alloc: Global, places: NodeId) -> Result<Memory<P, R>, Refusal>
        ensures { IfErr result (λ refusal. refusal ≡ refusals.Memory) }
    {
        let mut queues = Vec::new(alloc);
        for _ in 0..places {
            queues.push(Mutex::new(VecDeque::new(alloc)))?;
        }
        Ok(Memory { rt, queues })
    }
}

impl<P: Drop, R: Wait> Carry<P> for Memory<P, R> {
    fn send(&self, place: NodeId, parcel: P) -> Result<(), Refusal>
        ensures { IfErr result (λ refusal. refusal ≡ refusals.Memory) }
    {
        let Some(queue) = self.queues.get(usize::from(place)) else {
            return Ok(());
        };
        queue.lock(&self.rt).push_back(parcel)?;
        Ok(())
    }

    /// The next parcel of this place; none where there is none now.
    fn receive(&self, place: NodeId) -> Option<P> {
        self.queues
            .get(usize::from(place))?
            .lock(&self.rt)
            .pop_front()
    }
}
