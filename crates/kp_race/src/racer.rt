//! The threads that race: producers, and the one that moves the leadership.

ghost use Rattle.std.specs.Prelude.{◌≡◌, ◌<◌, ◌≤◌, IfErr, vec_len};
ghost use Rattle.kp_types.specs.declared.refusal.Refusal.TheVariants.{Memory};
ghost use Rattle.kp_race.specs.Tasks.{most_receipts};

use crate::handed_in::{HandedIn, Tried};
use crate::task::{Task, elected_at};
use kp_batch::{Fields, Handed, Parts, Speller};
use kp_board::{Board, BoardName, Pass};
use kp_node::Node;
use kp_replica::Receipt;
use kp_transport::{Carry, Parcel, Waiting};
use kp_types::{NodeId, Refusal};
use std::alloc::Global;
use std::sync::{Arc, Mutex, Wait};

// How often a producer tries to hand in one batch, and how many tries it has for each batch of its plan.
const TRIES: u32 = 100;

// How many parcels may be under way to a place before a thread that gives turns waits.
const MOST_WAITING: u64 = 8;

// How often it yields then at most.
const PATIENCE: u32 = 10_000;

pub(crate) type Shared<B> = Arc<Mutex<Node<B>>, Global>;

/// What one thread is to do, and its pass.
#[derive(Drop)]
pub(crate) struct Job<B: BoardName> {
    pub(crate) task: Task,
    pub(crate) pass: Pass<B>,
}

/// What came of it.
#[derive(Drop)]
pub(crate) struct Reached<B: BoardName> {
    pub(crate) pass: Pass<B>,
    pub(crate) receipts: Vec<Receipt>,
    pub(crate) ended: Result<(), Refusal>,
}

/// What all of them share.
pub(crate) struct Field<'a, B: BoardName, C, R> {
    pub(crate) rt: &'a R,
    pub(crate) alloc: Global,
    pub(crate) board: &'a Board<B>,
    pub(crate) nodes: &'a Vec<Shared<B>>,
    pub(crate) carrier: &'a C,
    pub(crate) waiting: &'a Waiting,
}

impl<B: BoardName, C, R> Drop for Field<'_, B, C, R> {
    fn drop(self) {
        let Field {
            rt: _,
            alloc: _,
            board: _,
            nodes: _,
            carrier: _,
            waiting: _,
        } = self;
    }
}

/// It is each node's turn. F33 is the only refusal.
pub(crate) fn turn_all<B: BoardName, C: Carry<Parcel<B>>>(
    carrier: &C,
    nodes: NodeId,
) -> Result<(), Refusal>
    ensures { IfErr result (λ refusal. refusal ≡ Memory) }
{
    for place in 0..nodes {
        carrier.send(place, Parcel::Turn)?;
    }
    Ok(())
}

// The bytes of a producer's batch.
fn batch_of(speller: &mut Speller, number: u8, sequence: u16) -> Result<Handed, Refusal> {
    let fields = Fields {
        base_timestamp: 1_000,
        producer_id: Some(u64::from(number)),
        producer_epoch: Some(0),
        base_sequence: Some(u32::from(sequence)),
        transactional: false,
        control: false,
    };
    let record = Parts {
        timestamp: 1_000,
        key: None,
        value: Some(b"a"),
        headers: &[],
    };
    speller.spell(&fields, &[record])
}

impl<B: BoardName, C: Carry<Parcel<B>>, R: Wait> Field<'_, B, C, R> {
    // It is each node's turn. Waits for a while where much is under way.
    fn turn(&self) -> Result<(), Refusal> {
        turn_all(self.carrier, self.board.nodes())?;
        let _settled = self.waiting.settle(MOST_WAITING, PATIENCE);
        Ok(())
    }

    // Tries the nodes in turn, from the one that took the last batch on. F33.
    fn produce_one(
        &self,
        pass: &mut Pass<B>,
        at: &mut usize,
        bytes: &Handed,
    ) -> Result<Tried, Refusal> {
        for _ in 0..TRIES {
            let Some(node) = self.nodes.get(*at) else {
                *at = 0;
                continue;
            };
            let tried = node.lock(self.rt).produce(pass, bytes.share()?);
            self.turn()?;
            match tried {
                Ok(receipt) => return Ok(Tried::Took(receipt)),
                Err(Refusal::OutOfOrderSequence) => return Ok(Tried::OutOfOrder),
                Err(Refusal::Memory) => return Err(Refusal::Memory),
                Err(_) => {
                    *at = at.saturating_add(1);
                }
            }
        }
        Ok(Tried::NoLeader)
    }

    // Hands the bytes of the next batch in. Says whether the producer goes on.
    fn hand_next(
        &self,
        pass: &mut Pass<B>,
        handed: &mut HandedIn,
        at: &mut usize,
        bytes: &Handed,
    ) -> Result<bool, Refusal>
        requires { handed.old.next < handed.old.batches }
        ensures { handed.new.batches ≡ handed.old.batches }
    {
        let tried = self.produce_one(pass, at, bytes)?;
        handed.note(tried)
    }

    // Hands all batches in, in their order, and again those that a new leader lacks.
    fn produce_all(
        &self,
        pass: &mut Pass<B>,
        handed: &mut HandedIn,
        number: u8,
    ) -> Result<(), Refusal>
        ensures { handed.new.batches ≡ handed.old.batches }
    {
        let mut speller = Speller::new(self.alloc);
        let mut at = 0;
        for _ in 0..TRIES * u32::from(handed.batches) {
            if handed.next >= handed.batches {
                return Ok(());
            }
            let bytes = batch_of(&mut speller, number, handed.next)?;
            if !self.hand_next(pass, handed, &mut at, &bytes)? {
                return Ok(());
            }
        }
        Ok(())
    }

    // A producer's thread.
    fn produce(&self, mut pass: Pass<B>, number: u8, batches: u16) -> Reached<B>
        ensures { vec_len result.receipts ≤ batches }
    {
        let mut handed = HandedIn::none(self.alloc, batches);
        let ended = self.produce_all(&mut pass, &mut handed, number);
        Reached {
            pass,
            receipts: handed.into_receipts(),
            ended,
        }
    }

    // Moves the leadership from node to node, by one try each, which counts as a move whatever it answers.
    fn move_all(&self, pass: &mut Pass<B>, moves: u16) -> Result<(), Refusal> {
        for number in 1..=moves {
            if let Some(node) = elected_at(number, self.board.nodes()) {
                let _record = self.board.elect(pass, node);
            }
            self.turn()?;
        }
        Ok(())
    }

    // The mover's thread.
    fn lead_on(&self, mut pass: Pass<B>, moves: u16) -> Reached<B>
        ensures { vec_len result.receipts ≡ 0 }
    {
        let ended = self.move_all(&mut pass, moves);
        Reached {
            pass,
            receipts: Vec::new(self.alloc),
            ended,
        }
    }

    pub(crate) fn run(&self, job: Job<B>) -> Reached<B>
        ensures { vec_len result.receipts ≤ most_receipts job.task }
    {
        let Job { task, pass } = job;
        match task {
            Task::Produce { number, batches } => self.produce(pass, number, batches),
            Task::Move { moves } => self.lead_on(pass, moves),
        }
    }
}
