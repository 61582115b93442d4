//! Nodes by threads: workers run at one time, and bring a batch to every node over channels, also over a rough carrier.

ghost use Rattle.std.specs.Prelude.{◌≡◌, ◌≤◌, IfOk, vec_len};
ghost use Rattle.kp_model.specs.World.{most_nodes};

use crate::board_tests::board_of;
use crate::shown::unrefused;
use crate::world_tests::bytes_of;
use kp_board::{Board, BoardName, Callers, Opened, Pass};
use kp_cluster::{Cluster, Gate, Open, start};
use kp_model::LeaderAndIsr;
use kp_node::Node;
use kp_race::{Outcome, Plan, nodes_of, run_race, stop_all};
use kp_replica::IsrChange;
use kp_transport::{Carry, Channels, Choice, Parcel, Rough, Waiting, Watched};
use kp_types::{Limits, MAX_BATCH, NodeId, Refusal};
use std::alloc::Global;
use std::marker::Brand;
use std::sync::atomic::{AtomicU64, Ordering};
use std::sync::{Arc, Mutex, Wait};
use std::thread;
use std::thread::Threads;

pub(crate) const LIMITS: Limits = Limits {
    segment_bytes: 1_024,
    index_interval: 0,
    max_batch: MAX_BATCH,
};

// How often a thread yields at most.
const PATIENCE: u32 = 1_000_000;

// How many turns each node has at most.
const ROUNDS: u32 = 1_000;

pub(crate) type Shared<B> = Arc<Mutex<Node<B>>, Global>;

fn adopt<B: BoardName, R: Wait>(rt: &R, node: &Mutex<Node<B>>) -> Result<(), Refusal> {
    let adopted = node.lock(rt).adopt();
    adopted?;
    Ok(())
}

// Node 0 is elected, and takes that up.
fn lead<B: BoardName, R: Wait>(
    rt: &R,
    board: &Board<B>,
    pass: &mut Pass<B>,
    nodes: &Vec<Shared<B>>,
) -> Result<(), Refusal> {
    board.elect(pass, 0)?;
    match nodes.first() {
        Some(first) => adopt(rt, first),
        None => Ok(()),
    }
}

// A board and its nodes, of which node 0 leads.
fn led<B: BoardName, R: Wait>(
    rt: &R,
    alloc: Global,
    opened: Opened,
) -> Result<(Arc<Board<B>, Global>, Vec<Shared<B>>, Callers<B>), Refusal>
    requires { opened ≡ B.table }
{
    let (board, nodes, mut callers) = nodes_of::<B>(alloc, opened, &LIMITS)?;
    lead(rt, &board, &mut board.pass(&mut callers), &nodes)?;
    Ok((board, nodes, callers))
}

// The nodes, shared with their callers.
pub(crate) fn shares_of<B: BoardName>(
    alloc: Global,
    nodes: &Vec<Shared<B>>,
) -> Result<Vec<Shared<B>>, Refusal> {
    let mut shares = Vec::new(alloc);
    for node in nodes {
        shares.push(Arc::try_clone(node)?)?;
    }
    Ok(shares)
}

// The same of at most seven nodes.
pub(crate) fn few_shares_of<B: BoardName>(
    alloc: Global,
    nodes: &Vec<Shared<B>>,
) -> Result<Vec<Shared<B>>, Refusal>
    ensures { IfOk result (λ shares. vec_len shares ≤ most_nodes) }
{
    let shares = shares_of(alloc, nodes)?;
    if shares.len() > 7 {
        return Err(Refusal::BadCount);
    }
    Ok(shares)
}

// The workers, if all were started; else they are ended.
fn whole_or_none<B: BoardName, C: Carry<Parcel<B>> + Drop, R: Threads + Wait>(
    rt: &R,
    started: Result<Cluster<B, C>, (Cluster<B, C>, Refusal)>,
) -> Result<Cluster<B, C>, Refusal> {
    match started {
        Ok(cluster) => Ok(cluster),
        Err((cluster, refusal)) => {
            stop_all(rt, cluster);
            Err(refusal)
        }
    }
}

// Starts a worker for each of at most seven nodes, and the controller's with its pass; none are left where that is refused.
fn started<
    B: BoardName + Send + Sync + 'static,
    R: Threads + Wait + Copy + Send + 'static,
    C: Carry<Parcel<B>> + Send + Sync + Drop + 'static,
    G: Gate + Send + Sync + Drop + 'static,
>(
    rt: &R,
    alloc: Global,
    nodes: &Vec<Shared<B>>,
    controller: Pass<B>,
    carrier: Arc<C, Global>,
    gate: Arc<G, Global>,
) -> Result<Cluster<B, C>, Refusal> {
    let shares = few_shares_of(alloc, nodes)?;
    whole_or_none(rt, start(rt, alloc, shares, controller, carrier, gate))
}

// Workers of three nodes and the controller over plain channels.
fn over_channels<
    B: BoardName + Send + Sync + 'static,
    R: Threads + Wait + Copy + Drop + Send + Sync + 'static,
    G: Gate + Send + Sync + Drop + 'static,
>(
    rt: &R,
    alloc: Global,
    nodes: &Vec<Shared<B>>,
    controller: Pass<B>,
    gate: Arc<G, Global>,
) -> Result<Cluster<B, Channels<Parcel<B>, R>>, Refusal> {
    let carrier = Arc::new(alloc, Channels::new(*rt, alloc, 4)?)?;
    started(rt, alloc, nodes, controller, carrier, gate)
}

// Holds each step of node 1 until node 2 has had its answer. Counts those that it then let through.
#[derive(Drop)]
struct OneAfterTwo {
    steps_of_two: AtomicU64,
    let_through: AtomicU64,
}

fn reaches(count: &AtomicU64, least: u64) -> bool {
    for _ in 0..PATIENCE {
        if count.load(Ordering::SeqCst) >= least {
            return true;
        }
        thread::yield_now();
    }
    false
}

impl Gate for OneAfterTwo {
    fn before(&self, place: NodeId) {
        // Its turn, and then the answer to what it asked.
        if place == 1 && reaches(&self.steps_of_two, 2) {
            self.let_through.fetch_add(1, Ordering::SeqCst);
        }
    }

    fn after(&self, place: NodeId) {
        if place == 2 {
            self.steps_of_two.fetch_add(1, Ordering::SeqCst);
        }
    }
}

fn new_gate(alloc: Global) -> Result<Arc<OneAfterTwo, Global>, Refusal> {
    let gate = OneAfterTwo {
        steps_of_two: AtomicU64::new(0),
        let_through: AtomicU64::new(0),
    };
    Ok(Arc::new(alloc, gate)?)
}

fn turn_both<B: BoardName, C: Carry<Parcel<B>>>(cluster: &Cluster<B, C>) -> Result<(), Refusal> {
    let one = cluster.turn(1);
    let two = cluster.turn(2);
    one?;
    two
}

// Whether the gate let node 1 through, where it and node 2 have a turn.
fn lets_through<
    B: BoardName + Send + Sync + 'static,
    R: Threads + Wait + Copy + Drop + Send + Sync + 'static,
>(
    rt: &R,
    alloc: Global,
    nodes: &Vec<Shared<B>>,
    controller: Pass<B>,
    gate: &Arc<OneAfterTwo, Global>,
) -> Result<bool, Refusal> {
    let own = Arc::try_clone(gate)?;
    let cluster = over_channels(rt, alloc, nodes, controller, own)?;
    let turned = turn_both(&cluster);
    let passed = reaches(&gate.let_through, 1);
    stop_all(rt, cluster);
    turned?;
    Ok(passed)
}

// Whether node 1 had its turn while node 2 had its own and an answer.
fn one_after_two<
    B: BoardName + Send + Sync + 'static,
    R: Threads + Wait + Copy + Drop + Send + Sync + 'static,
>(rt: &R, alloc: Global, opened: Opened) -> Result<bool, Refusal>
    requires { opened ≡ B.table }
{
    let gate = new_gate(alloc)?;
    let (board, nodes, mut callers) = led::<B, R>(rt, alloc, opened)?;
    lets_through(rt, alloc, &nodes, board.pass(&mut callers), &gate)
}

#[test]
fn gate_two_nodes(rt: HostRuntime) {
    let alloc = rt.alloc();
    let found = one_after_two::<Brand, HostRuntime>(&rt, alloc, board_of(&rt, alloc, 3));
    assert_eq!(rt; found, Ok(true));
}

// Whether the node shows one batch at offset 0.
fn shows<B: BoardName, R: Wait>(rt: &R, node: &Mutex<Node<B>>, pass: &mut Pass<B>) -> bool {
    match node.lock(rt).read(pass, 0) {
        Ok(batches) => batches.len() == 1,
        Err(_) => false,
    }
}

fn all_show<B: BoardName, R: Wait>(rt: &R, nodes: &Vec<Shared<B>>, pass: &mut Pass<B>) -> bool {
    for node in nodes {
        if !shows(rt, &**node, pass) {
            return false;
        }
    }
    true
}

// Gives turns until every node shows the batch. Says whether that came.
fn turn_until<B: BoardName, R: Wait, C: Carry<Parcel<B>>>(
    rt: &R,
    cluster: &Cluster<B, C>,
    waiting: &Waiting,
    nodes: &Vec<Shared<B>>,
    pass: &mut Pass<B>,
) -> Result<bool, Refusal> {
    for _ in 0..ROUNDS {
        for place in 0..3 {
            cluster.turn(place)?;
        }
        waiting.settle(0, 10_000);
        if all_show(rt, nodes, pass) {
            return Ok(true);
        }
    }
    Ok(false)
}

// Channels between the places of three nodes and the controller, that count into `waiting`.
type Counting<B, R> = Watched<Channels<Parcel<B>, R>>;

fn counting_channels<B: BoardName, R: Wait + Copy + Drop>(
    rt: &R,
    alloc: Global,
    waiting: &Arc<Waiting, Global>,
) -> Result<Counting<B, R>, Refusal> {
    let channels = Channels::new(*rt, alloc, 4)?;
    let shared = Arc::try_clone(waiting)?;
    Ok(Watched::new(channels, shared))
}

// The same, shared, and what they count into.
fn counted_channels<B: BoardName, R: Wait + Copy + Drop>(
    rt: &R,
    alloc: Global,
) -> Result<(Arc<Waiting, Global>, Arc<Counting<B, R>, Global>), Refusal> {
    let waiting = Arc::new(alloc, Waiting::new())?;
    let channels = counting_channels(rt, alloc, &waiting)?;
    let carrier = Arc::new(alloc, channels)?;
    Ok((waiting, carrier))
}

type Carrier<B, R> = Arc<Rough<B, Counting<B, R>, R>, Global>;

// A carrier over them, by which messages fare so.
fn carrier_of<B: BoardName, R: Wait + Copy + Drop>(
    rt: &R,
    alloc: Global,
    board: &Arc<Board<B>, Global>,
    waiting: &Arc<Waiting, Global>,
    choices: &[Choice],
) -> Result<Carrier<B, R>, Refusal> {
    let board = Arc::try_clone(board)?;
    let choices = Vec::from_slice(alloc, choices)?;
    let channels = counting_channels(rt, alloc, waiting)?;
    let carrier = Rough::new(*rt, alloc, board, channels, choices);
    Ok(Arc::new(alloc, carrier)?)
}

// Node 0 is handed a batch.
fn hand_in<B: BoardName, R: Wait>(
    rt: &R,
    alloc: Global,
    nodes: &Vec<Shared<B>>,
    pass: &mut Pass<B>,
) -> Result<(), Refusal> {
    let bytes = bytes_of(alloc, "p10")?;
    if let Some(first) = nodes.first() {
        let produced = first.lock(rt).produce(pass, bytes);
        produced?;
    }
    Ok(())
}

// Whether the batch of node 0 comes to all three nodes, where messages fare so.
fn comes_to_all<
    B: BoardName + Send + Sync + 'static,
    R: Threads + Wait + Copy + Drop + Send + Sync + 'static,
>(
    rt: &R,
    alloc: Global,
    board: &Arc<Board<B>, Global>,
    nodes: &Vec<Shared<B>>,
    callers: &mut Callers<B>,
    choices: &[Choice],
) -> Result<bool, Refusal> {
    let gate = Arc::new(alloc, Open)?;
    let waiting = Arc::new(alloc, Waiting::new())?;
    let carrier = carrier_of(rt, alloc, board, &waiting, choices)?;
    let cluster = started(rt, alloc, nodes, board.pass(callers), carrier, gate)?;
    let came = turn_until(rt, &cluster, &*waiting, nodes, &mut board.pass(callers));
    stop_all(rt, cluster);
    came
}

// Whether a batch that node 0 was handed comes to all three nodes, where messages fare so.
fn read_back<
    B: BoardName + Send + Sync + 'static,
    R: Threads + Wait + Copy + Drop + Send + Sync + 'static,
>(rt: &R, alloc: Global, opened: Opened, choices: &[Choice]) -> Result<bool, Refusal>
    requires { opened ≡ B.table }
{
    let (board, nodes, mut callers) = led::<B, R>(rt, alloc, opened)?;
    hand_in(rt, alloc, &nodes, &mut board.pass(&mut callers))?;
    comes_to_all(rt, alloc, &board, &nodes, &mut callers, choices)
}

// Each choice that lets messages come, alone, and all together.
static FARES: [&[Choice]; 4] = [
    &[],
    &[Choice::Twice],
    &[Choice::Hold(1)],
    &[
        Choice::Lose,
        Choice::Pass,
        Choice::Hold(2),
        Choice::Twice,
        Choice::Lose,
        Choice::Hold(1),
        Choice::Pass,
    ],
];

#[test]
fn a_batch_comes_to_all_nodes(rt: HostRuntime) {
    let alloc = rt.alloc();
    for choices in &FARES {
        let found = read_back::<Brand, HostRuntime>(&rt, alloc, board_of(&rt, alloc, 3), choices);
        assert_eq!(rt; found, Ok(true));
    }
}

// Has node 0 ask the controller, at place 3, that node 2 leaves, until it has learned that. Says whether that came.
fn ask_until_gone<B: BoardName, R: Wait, C: Carry<Parcel<B>>>(
    rt: &R,
    leader: &Mutex<Node<B>>,
    carrier: &C,
    waiting: &Waiting,
) -> Result<bool, Refusal> {
    for _ in 0..ROUNDS {
        let asked = leader.lock(rt).alter(IsrChange::Leave(2));
        match asked {
            Ok(proposal) => carrier.send(3, Parcel::Message(proposal))?,
            Err(refusal) => return Ok(refusal == Refusal::NotInSync),
        }
        waiting.settle(0, 10_000);
    }
    Ok(false)
}

// Whether workers let node 2 leave.
fn leaves<
    B: BoardName + Send + Sync + 'static,
    R: Threads + Wait + Copy + Drop + Send + Sync + 'static,
>(rt: &R, alloc: Global, nodes: &Vec<Shared<B>>, controller: Pass<B>) -> Result<bool, Refusal> {
    let leader = nodes.first().ok_or(Refusal::BadCount)?;
    let (waiting, carrier) = counted_channels::<B, R>(rt, alloc)?;
    let gate = Arc::new(alloc, Open)?;
    let own = Arc::try_clone(&carrier)?;
    let cluster = started(rt, alloc, nodes, controller, own, gate)?;
    let is_gone = ask_until_gone(rt, &**leader, &*carrier, &*waiting);
    stop_all(rt, cluster);
    is_gone
}

// Whether node 2 leaves and the record says so, by one change.
fn is_recorded<
    B: BoardName + Send + Sync + 'static,
    R: Threads + Wait + Copy + Drop + Send + Sync + 'static,
>(rt: &R, alloc: Global, opened: Opened) -> Result<bool, Refusal>
    requires { opened ≡ B.table }
{
    let (board, nodes, mut callers) = led::<B, R>(rt, alloc, opened)?;
    let is_gone = leaves(rt, alloc, &nodes, board.pass(&mut callers))?;
    let record = board.record(&mut board.pass(&mut callers));
    Ok(is_gone && record.version == 2 && !record.isr.contains(2))
}

#[test]
fn the_controller_is_a_worker(rt: HostRuntime) {
    let alloc = rt.alloc();
    let found = is_recorded::<Brand, HostRuntime>(&rt, alloc, board_of(&rt, alloc, 3));
    assert_eq!(rt; found, Ok(true));
}

// Two producers of ten batches each, and five elections.
pub(crate) const PLAN: Plan = Plan {
    producers: 2,
    batches: 10,
    moves: 5,
};

// What comes of a race over these three nodes, where messages fare so.
pub(crate) fn raced_on<
    B: BoardName + Send + Sync + 'static,
    R: Threads + Wait + Copy + Drop + Send + Sync + 'static,
    G: Gate + Send + Sync + Drop + 'static,
>(
    rt: &R,
    alloc: Global,
    board: &Arc<Board<B>, Global>,
    nodes: &Vec<Shared<B>>,
    callers: &mut Callers<B>,
    choices: &[Choice],
    gate: Arc<G, Global>,
) -> Result<Outcome, Refusal> {
    if nodes.len() > 7 {
        return Err(Refusal::BadCount);
    }
    let waiting = Arc::new(alloc, Waiting::new())?;
    let carrier = carrier_of(rt, alloc, board, &waiting, choices)?;
    run_race(
        rt, alloc, &**board, nodes, callers, &carrier, &*waiting, gate, &PLAN,
    )
}

// What comes of a race of three new nodes, where messages fare so.
pub(crate) fn raced<
    B: BoardName + Send + Sync + 'static,
    R: Threads + Wait + Copy + Drop + Send + Sync + 'static,
>(rt: &R, alloc: Global, opened: Opened, choices: &[Choice]) -> Result<Outcome, Refusal>
    requires { opened ≡ B.table }
{
    let gate = Arc::new(alloc, Open)?;
    let (board, nodes, mut callers) = nodes_of::<B>(alloc, opened, &LIMITS)?;
    raced_on(rt, alloc, &board, &nodes, &mut callers, choices, gate)
}

// They agree, and no more is acknowledged than was handed in, or stands.
pub(crate) fn holds(plan: &Plan, outcome: &Outcome) -> bool {
    outcome.agree
        && outcome.receipts <= u64::from(plan.producers) * u64::from(plan.batches)
        && outcome.acknowledged <= outcome.receipts
        && outcome.acknowledged <= outcome.committed
}

// Each choice.
pub(crate) const CHOICES: [Choice; 6] = [
    Choice::Lose,
    Choice::Pass,
    Choice::Twice,
    Choice::Hold(1),
    Choice::Hold(2),
    Choice::Hold(3),
];

// As above; and where each message is lost no watermark rises, since no leader hears from a follower.
fn holds_alone(choice: Choice, outcome: &Outcome) -> bool {
    let is_as_low = match choice {
        Choice::Lose => outcome.committed == 0,
        _ => true,
    };
    is_as_low && holds(&PLAN, outcome)
}

#[test]
fn all_nodes_agree(rt: HostRuntime) {
    let alloc = rt.alloc();
    for choice in CHOICES {
        let found = raced::<Brand, HostRuntime>(&rt, alloc, board_of(&rt, alloc, 3), &[choice]);
        assert!(rt; holds_alone(choice, &unrefused(&rt, found)));
    }
}

// The record after a race whose messages all come, and how many receipts there are.
fn record_after<
    B: BoardName + Send + Sync + 'static,
    R: Threads + Wait + Copy + Drop + Send + Sync + 'static,
>(rt: &R, alloc: Global, opened: Opened) -> Result<(LeaderAndIsr, u64), Refusal>
    requires { opened ≡ B.table }
{
    let gate = Arc::new(alloc, Open)?;
    let (board, nodes, mut callers) = nodes_of::<B>(alloc, opened, &LIMITS)?;
    let outcome = raced_on(rt, alloc, &board, &nodes, &mut callers, &[], gate)?;
    let record = board.record(&mut board.pass(&mut callers));
    Ok((record, outcome.receipts))
}

// Node 0 is elected at first, and then nodes 1, 2, 0, 1 and 2.
#[test]
fn a_race_moves_the_leadership(rt: HostRuntime) {
    let alloc = rt.alloc();
    let found = record_after::<Brand, HostRuntime>(&rt, alloc, board_of(&rt, alloc, 3));
    let (record, receipts) = unrefused(&rt, found);
    let led = record.leader.map(|leader| (leader.node, leader.epoch));
    assert_eq!(rt; (led, record.version, receipts), (Some((2, 5)), 6, 20));
}
