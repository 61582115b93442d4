//! Carriers and a worker's steps on one thread: what comes where, in which order, and when the gate is called.

ghost use Rattle.std.specs.Prelude.{◌≡◌, IfErr};
ghost use Rattle.kp_types.specs.declared.refusal.Refusal.TheVariants as refusals;

use crate::board_tests::board_of;
use crate::cluster_tests::LIMITS;
use crate::shown::unrefused;
use kp_board::{Board, BoardName, Message, Opened, Pass};
use kp_cluster::{Done, Gate, controller_step, worker_step};
use kp_model::MessageBody;
use kp_node::Node;
use kp_race::nodes_of;
use kp_replica::IsrChange;
use kp_transport::{Carry, Choice, Memory, Parcel, Rough, Waiting, Watched};
use kp_types::{NodeId, Refusal};
use std::alloc::Global;
use std::marker::Brand;
use std::sync::atomic::{AtomicU64, Ordering};
use std::sync::{Arc, Mutex, Wait};

type Shared<B> = Arc<Mutex<Node<B>>, Global>;

// Node 0 is elected, and all nodes take that up.
fn follow<B: BoardName, R: Wait>(
    rt: &R,
    board: &Board<B>,
    pass: &mut Pass<B>,
    nodes: &Vec<Shared<B>>,
) -> Result<(), Refusal> {
    board.elect(pass, 0)?;
    for node in nodes {
        node.lock(rt).adopt()?;
    }
    Ok(())
}

// Each follower's request to its leader, in their order, and a turn go to place 0.
fn send_requests<B: BoardName, R: Wait, C: Carry<Parcel<B>>>(
    rt: &R,
    nodes: &Vec<Shared<B>>,
    carrier: &C,
) -> Result<(), Refusal> {
    for node in nodes.iter().skip(1) {
        let request = node.lock(rt).ask()?;
        carrier.send(0, Parcel::Message(request))?;
    }
    carrier.send(0, Parcel::Turn)
}

// A request by its sender's digit, an answer as 4, another message as 5, a turn as 6, a stop as 7, and nothing as 0.
fn digit_of<B: BoardName>(parcel: Option<Parcel<B>>) -> u64 {
    match parcel {
        Some(Parcel::Message(message)) => match message.body {
            MessageBody::FetchRequest(request) => u64::from(request.from),
            MessageBody::FetchAnswer(_) => 4,
            _ => 5,
        },
        Some(Parcel::Turn) => 6,
        Some(Parcel::Stop) => 7,
        None => 0,
    }
}

// What eight receives of a place give, a digit each.
fn digits<B: BoardName, C: Carry<Parcel<B>>>(carrier: &C, place: NodeId) -> u64 {
    let mut digits = 0u64;
    for _ in 0..8 {
        digits = digits
            .wrapping_mul(10)
            .wrapping_add(digit_of(carrier.receive(place)));
    }
    digits
}

// What comes to place 0, and to place 1, where requests of nodes 1, 2 and 3 and then a turn are sent to place 0, and fare so.
fn comes<B: BoardName, R: Wait + Copy + Drop>(
    rt: &R,
    alloc: Global,
    opened: Opened,
    choices: &[Choice],
) -> Result<(u64, u64), Refusal>
    requires { opened ≡ B.table }
{
    let (board, nodes, mut callers) = nodes_of::<B>(alloc, opened, &LIMITS)?;
    follow(rt, &board, &mut board.pass(&mut callers), &nodes)?;
    let memory = Memory::new(*rt, alloc, 5)?;
    let choices = Vec::from_slice(alloc, choices)?;
    let carrier = Rough::new(*rt, alloc, board, memory, choices);
    send_requests(rt, &nodes, &carrier)?;
    Ok((digits(&carrier, 0), digits(&carrier, 1)))
}

// How messages fare, and what comes. Of two that are due the older one goes first; a turn is never held.
static FARES: [(&[Choice], u64); 6] = [
    (&[], 12_360_000),
    (&[Choice::Twice], 11_223_360),
    (&[Choice::Lose, Choice::Pass], 26_000_000),
    (&[Choice::Hold(1), Choice::Pass, Choice::Pass], 21_360_000),
    (
        &[Choice::Hold(2), Choice::Hold(1), Choice::Pass],
        31_260_000,
    ),
    (&[Choice::Hold(9)], 60_000_000),
];

#[test]
fn messages_fare_as_they_are_chosen(rt: HostRuntime) {
    let alloc = rt.alloc();
    for (choices, want) in &FARES {
        let found = comes::<Brand, HostRuntime>(&rt, alloc, board_of(&rt, alloc, 4), choices);
        assert_eq!(rt; found, Ok((*want, 0)));
    }
}

// Whether the carrier, which has this place, counts what is sent there: two parcels, one that is then received, and the other.
fn is_counted<C: Carry<u8>>(
    carrier: &C,
    waiting: &Waiting,
    place: NodeId,
) -> Result<bool, Refusal> {
    carrier.send(place, 1)?;
    carrier.send(place, 2)?;
    let both = waiting.most() == 2 && !waiting.settle(1, 3) && waiting.settle(2, 0);
    let first = carrier.receive(place) == Some(1) && waiting.most() == 1;
    let second = carrier.receive(place) == Some(2) && waiting.settle(0, 0);
    let none = carrier.receive(place).is_none() && waiting.most() == 0;
    Ok(both && first && second && none)
}

// How many of the eight places are counted.
fn counted_places<R: Wait + Copy + Drop>(rt: &R, alloc: Global) -> Result<u32, Refusal> {
    let waiting = Arc::new(alloc, Waiting::new())?;
    let memory = Memory::new(*rt, alloc, 8)?;
    let carrier = Watched::new(memory, Arc::try_clone(&waiting)?);
    let mut counted = 0u32;
    for place in 0..8 {
        if is_counted(&carrier, &waiting, place)? {
            counted = counted.wrapping_add(1);
        }
    }
    Ok(counted)
}

// Refuses each send.
#[derive(Clone, Copy)]
struct Full;

impl Carry<u8> for Full {
    fn send(&self, _place: NodeId, _parcel: u8) -> Result<(), Refusal>
        ensures { IfErr result (λ refusal. refusal ≡ refusals.Memory) }
    {
        Err(Refusal::Memory)
    }

    fn receive(&self, _place: NodeId) -> Option<u8> {
        None
    }
}

// What is under way after a send that was refused.
fn counted_refused(alloc: Global) -> Result<u64, Refusal> {
    let waiting = Arc::new(alloc, Waiting::new())?;
    let carrier = Watched::new(Full, Arc::try_clone(&waiting)?);
    let sent = carrier.send(0, 1);
    if sent.is_ok() {
        return Ok(1);
    }
    Ok(waiting.most())
}

#[test]
fn each_place_is_counted(rt: HostRuntime) {
    let alloc = rt.alloc();
    assert_eq!(rt; counted_places(&rt, alloc), Ok(8));
    assert_eq!(rt; counted_refused(alloc), Ok(0));
}

// A carrier over memory, and a gate: what is received, sent and called is written down, a digit each.
struct Noted<B: BoardName, R> {
    inner: Memory<Parcel<B>, R>,
    notes: AtomicU64,
}

impl<B: BoardName, R> Drop for Noted<B, R>
where
    R: Drop,
{
    fn drop(self) {
        let Noted { inner: _, notes: _ } = self;
    }
}

impl<B: BoardName, R> Noted<B, R> {
    fn note(&self, digit: u64) {
        let before = self.notes.load(Ordering::SeqCst);
        let after = before.wrapping_mul(10).wrapping_add(digit);
        self.notes.store(after, Ordering::SeqCst);
    }

    fn noted(&self) -> u64 {
        self.notes.swap(0, Ordering::SeqCst)
    }
}

impl<B: BoardName, R: Wait> Carry<Parcel<B>> for Noted<B, R> {
    fn send(&self, place: NodeId, parcel: Parcel<B>) -> Result<(), Refusal>
        ensures { IfErr result (λ refusal. refusal ≡ refusals.Memory) }
    {
        self.note(3);
        self.inner.send(place, parcel)
    }

    fn receive(&self, place: NodeId) -> Option<Parcel<B>> {
        self.note(1);
        self.inner.receive(place)
    }
}

impl<B: BoardName, R> Gate for Noted<B, R> {
    fn before(&self, _place: NodeId) {
        self.note(2);
    }

    fn after(&self, _place: NodeId) {
        self.note(4);
    }
}

// What came of a step, as a digit; want of memory stays a refusal.
fn outcome_digit(answer: Result<Done, Refusal>) -> Result<u64, Refusal> {
    match answer {
        Ok(Done::Stepped) => Ok(5),
        Ok(Done::Idle) => Ok(6),
        Ok(Done::Ended) => Ok(7),
        Err(Refusal::Down) => Ok(8),
        Err(Refusal::Memory) => Err(Refusal::Memory),
        Err(_) => Ok(9),
    }
}

// A step of node 0's worker, of three nodes: what was noted, and at its end what came of it.
fn step_of_node<B: BoardName, R: Wait>(
    rt: &R,
    node: &Mutex<Node<B>>,
    carrier: &Noted<B, R>,
) -> Result<u64, Refusal> {
    let answer = worker_step(rt, 0, 3, node, carrier, carrier);
    carrier.note(outcome_digit(answer)?);
    Ok(carrier.noted())
}

// The same of the controller's.
fn step_of_controller<B: BoardName, R: Wait>(
    board: &Board<B>,
    pass: &mut Pass<B>,
    carrier: &Noted<B, R>,
) -> Result<u64, Refusal> {
    let answer = controller_step(3, board, pass, carrier, carrier);
    carrier.note(outcome_digit(answer)?);
    Ok(carrier.noted())
}

fn noted_memory<B: BoardName, R: Wait + Copy + Drop>(
    rt: &R,
    alloc: Global,
) -> Result<Noted<B, R>, Refusal> {
    Ok(Noted {
        inner: Memory::new(*rt, alloc, 4)?,
        notes: AtomicU64::new(0),
    })
}

// Node 0's steps on a request of node 1; once it is down, on one of node 2; then on a turn, where there is nothing, and on a stop. Last
// what came to place 1.
fn node_steps<B: BoardName, R: Wait + Copy + Drop>(
    rt: &R,
    nodes: &Vec<Shared<B>>,
    carrier: &Noted<B, R>,
) -> Result<[u64; 6], Refusal> {
    let leader = nodes.first().ok_or(Refusal::BadCount)?;
    send_requests(rt, nodes, carrier)?;
    let _sends = carrier.noted();
    let answered = step_of_node(rt, leader, carrier)?;
    leader.lock(rt).stop()?;
    let refused = step_of_node(rt, leader, carrier)?;
    let turned = step_of_node(rt, leader, carrier)?;
    let idle = step_of_node(rt, leader, carrier)?;
    carrier.send(0, Parcel::Stop)?;
    let _sends = carrier.noted();
    let ended = step_of_node(rt, leader, carrier)?;
    Ok([
        answered,
        refused,
        turned,
        idle,
        ended,
        digits(&carrier.inner, 1),
    ])
}

// The controller's steps on a proposal of node 0 and on a request of node 1, and what came to place 0.
fn controller_steps<B: BoardName, R: Wait + Copy + Drop>(
    rt: &R,
    board: &Board<B>,
    pass: &mut Pass<B>,
    nodes: &Vec<Shared<B>>,
    carrier: &Noted<B, R>,
) -> Result<[u64; 3], Refusal> {
    let leader = nodes.first().ok_or(Refusal::BadCount)?;
    let follower = nodes.last().ok_or(Refusal::BadCount)?;
    let proposal = leader.lock(rt).alter(IsrChange::Leave(2))?;
    carrier.send(3, Parcel::Message(proposal))?;
    let request = follower.lock(rt).ask()?;
    carrier.send(3, Parcel::Message(request))?;
    let _sends = carrier.noted();
    let decided = step_of_controller(board, pass, carrier)?;
    let refused = step_of_controller(board, pass, carrier)?;
    Ok([decided, refused, digits(&carrier.inner, 0)])
}

// Both, over memory, one after the other.
fn steps<B: BoardName, R: Wait + Copy + Drop>(
    rt: &R,
    alloc: Global,
    opened: Opened,
) -> Result<([u64; 3], [u64; 6]), Refusal>
    requires { opened ≡ B.table }
{
    let (board, nodes, mut callers) = nodes_of::<B>(alloc, opened, &LIMITS)?;
    let mut pass = board.pass(&mut callers);
    follow(rt, &board, &mut pass, &nodes)?;
    let carrier = noted_memory::<B, R>(rt, alloc)?;
    let decided = controller_steps(rt, &board, &mut pass, &nodes, &carrier)?;
    let handled = node_steps(rt, &nodes, &carrier)?;
    Ok((decided, handled))
}

// Each step receives (1), calls the gate (2), sends what comes of it (3), and calls the gate again (4), also where it is refused; last
// stands what came of it.
#[test]
fn a_step_is_between_two_calls_of_the_gate(rt: HostRuntime) {
    let alloc = rt.alloc();
    let found = steps::<Brand, HostRuntime>(&rt, alloc, board_of(&rt, alloc, 3));
    let (decided, handled) = unrefused(&rt, found);
    assert_eq!(rt; decided, [12_345, 1_249, 50_000_000]);
    assert_eq!(rt; handled, [12_345, 1_248, 1_245, 16, 17, 40_000_000]);
}
