//! A carrier that loses, repeats and reorders messages.
ghost use Rattle.std.specs.Prelude.{◌≡◌, IfErr};
ghost use Rattle.kp_types.specs.declared.refusal.Refusal.TheVariants as refusals;

use crate::parcel::{Carry, Parcel};
use kp_board::{Board, BoardName, Message};
use kp_types::{NodeId, Refusal};
use std::alloc::Global;
use std::sync::{Arc, Mutex, Wait};

/// What happens to a message. (Own rule.)
#[derive(Clone, Copy)]
pub enum Choice {
    /// It is lost.
    Lose,
    /// It is sent.
    Pass,
    /// It is sent, and once more after that; where a second one can't be made for want of memory, once.
    Twice,
    /// So many later messages for the same place go first.
    Hold(u32),
}

// A message that is held until so many others for its place went first.
#[derive(Drop)]
struct Held<B: BoardName> {
    place: NodeId,
    left: u32,
    message: Message<B>,
}

// The place in the list of choices, and the messages that are held, the oldest first.
#[derive(Drop)]
struct Plan<B: BoardName> {
    next: usize,
    held: Vec<Held<B>>,
}

impl<B: BoardName> Plan<B> {
    // The next choice, in a circle.
    fn choose(&mut self, choices: &[Choice]) -> Choice {
        if self.next >= choices.len() {
            self.next = 0;
        }
        match choices.get(self.next) {
            Some(choice) => {
                self.next += 1;
                *choice
            }
            None => Choice::Pass,
        }
    }

    // A message for this place went first.
    fn pass_by(&mut self, place: NodeId) {
        for held in self.held.iter_mut() {
            if held.place == place {
                held.left = held.left.saturating_sub(1);
            }
        }
    }

    // The oldest message for this place that waits for no other.
    fn take_due(&mut self, place: NodeId) -> Option<Message<B>> {
        let at = self
            .held
            .iter()
            .position(|held| held.place == place && held.left == 0)?;
        let Held {
            place: _,
            left: _,
            message,
        } = self.held.remove(at);
        Some(message)
    }
}

/// Wraps a carrier, and does to each message what the next choice of its list says, in a circle; where there is none, it passes.
/// Turns and stops pass. What is held goes once so many later messages for its place went, lost ones too; the oldest first. (Own
/// rule.)
#[derive(Drop)]
pub struct Rough<B: BoardName, C, R> {
    rt: R,
    board: Arc<Board<B>, Global>,
    inner: C,
    choices: Vec<Choice>,
    plan: Mutex<Plan<B>>,
}

impl<B: BoardName, C: Carry<Parcel<B>>, R> Rough<B, C, R> {
    /// A rough carrier over this one. Its board splits the pass of a message that is repeated.
    pub fn new(
        rt: R,
        alloc: Global,
        board: Arc<Board<B>, Global>,
        inner: C,
        choices: Vec<Choice>,
    ) -> Rough<B, C, R> {
        Rough {
            rt,
            board,
            inner,
            choices,
            plan: Mutex::new(Plan {
                next: 0,
                held: Vec::new(alloc),
            }),
        }
    }

    // Sends it, and a second one after it where that could be made.
    fn send_twice(&self, place: NodeId, mut message: Message<B>) -> Result<(), Refusal>
        ensures { IfErr result (λ refusal. refusal ≡ refusals.Memory) }
    {
        let second = message.repeat(&self.board);
        self.inner.send(place, Parcel::Message(message))?;
        match second {
            Ok(second) => self.inner.send(place, Parcel::Message(second)),
            Err(_) => Ok(()),
        }
    }

    // By the next choice.
    fn send_roughly(
        &self,
        plan: &mut Plan<B>,
        place: NodeId,
        message: Message<B>,
    ) -> Result<(), Refusal>
        ensures { IfErr result (λ refusal. refusal ≡ refusals.Memory) }
    {
        let choice = plan.choose(self.choices.as_slice());
        plan.pass_by(place);
        match choice {
            Choice::Lose => Ok(()),
            Choice::Pass | Choice::Hold(0) => self.inner.send(place, Parcel::Message(message)),
            Choice::Twice => self.send_twice(place, message),
            Choice::Hold(left) => {
                plan.held.push(Held {
                    place,
                    left,
                    message,
                })?;
                Ok(())
            }
        }
    }

    // Sends the held messages for this place that wait for no other any more.
    fn send_due(&self, plan: &mut Plan<B>, place: NodeId) -> Result<(), Refusal>
        ensures { IfErr result (λ refusal. refusal ≡ refusals.Memory) }
    {
        let most = plan.held.len();
        for _ in 0..most {
            match plan.take_due(place) {
                Some(message) => self.inner.send(place, Parcel::Message(message))?,
                None => return Ok(()),
            }
        }
        Ok(())
    }
}

impl<B: BoardName, C: Carry<Parcel<B>>, R: Wait> Carry<Parcel<B>> for Rough<B, C, R> {
    fn send(&self, place: NodeId, parcel: Parcel<B>) -> Result<(), Refusal>
        ensures { IfErr result (λ refusal. refusal ≡ refusals.Memory) }
    {
        match parcel {
            Parcel::Message(message) => {
                let mut guard = self.plan.lock(&self.rt);
                let plan = &mut *guard;
                let sent = self.send_roughly(plan, place, message);
                let due = self.send_due(plan, place);
                sent?;
                due
            }
            other => self.inner.send(place, other),
        }
    }

    fn receive(&self, place: NodeId) -> Option<Parcel<B>> {
        self.inner.receive(place)
    }
}
