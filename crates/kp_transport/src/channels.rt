//! A carrier over channels, one for each place.
ghost use Rattle.std.specs.Prelude.{◌≡◌, IfErr};
ghost use Rattle.kp_types.specs.declared.refusal.Refusal.TheVariants as refusals;

use crate::parcel::Carry;
use crossbeam_channel::{Receiver, Sender, unbounded};
use kp_types::{NodeId, Refusal};
use std::alloc::Global;
use std::sync::Wait;

// Both ends of a channel.
#[derive(Drop)]
struct Ends<P> {
    sender: Sender<P>,
    receiver: Receiver<P>,
}

/// Carries each parcel once, in the order in which they were sent to its place, over unbounded channels. A place that has no parcel
/// waits for one. (Own rule.)
#[derive(Drop)]
pub struct Channels<P, R> {
    rt: R,
    places: Vec<Ends<P>>,
}

impl<P: Drop, R: Drop> Channels<P, R> {
    /// Empty channels for so many places. F33 is the only refusal. O(places).
    pub fn new(rt: R, alloc: Global, places: NodeId) -> Result<Channels<P, R>, Refusal>
        ensures { IfErr result (λ refusal. refusal ≡ refusals.Memory) }
    {
        let mut all = Vec::new(alloc);
        for _ in 0..places {
            let (sender, receiver) = unbounded(alloc)?;
            all.push(Ends { sender, receiver })?;
        }
        Ok(Channels { rt, places: all })
    }
}

impl<P: Drop, R: Wait> Carry<P> for Channels<P, R> {
    fn send(&self, place: NodeId, parcel: P) -> Result<(), Refusal>
        ensures { IfErr result (λ refusal. refusal ≡ refusals.Memory) }
    {
        let Some(ends) = self.places.get(usize::from(place)) else {
            return Ok(());
        };
        // The receiver is kept beside the sender, so only a growth can be refused.
        ends.sender
            .send(&self.rt, parcel)
            .map_err(|_| Refusal::Memory)
    }

    /// The next parcel of this place, for which it waits.
    fn receive(&self, place: NodeId) -> Option<P> {
        self.places
            .get(usize::from(place))?
            .receiver
            .recv(&self.rt)
            .ok()
    }
}
