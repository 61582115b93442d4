//! Workers under refusals and restarts, and over carriers that are rough by chance.

ghost use Rattle.std.specs.Prelude.{◌≡◌, IfErr};
ghost use Rattle.kp_types.specs.declared.refusal.Refusal.TheVariants as refusals;

use crate::board_tests::board_of;
use crate::cluster_tests::{
    CHOICES, LIMITS, PLAN, Shared, few_shares_of, holds, raced, raced_on, shares_of,
};
use crate::shown::unrefused;
use kp_board::{Board, BoardName, Callers, Opened, Pass};
use kp_cluster::{Cluster, Gate, Open, start_on};
use kp_node::Node;
use kp_race::{Outcome, Plan, nodes_of, race_over_channels};
use kp_transport::{Carry, Channels, Choice, Parcel};
use kp_types::{NodeId, Refusal};
use std::alloc::Global;
use std::marker::Brand;
use std::sync::atomic::{AtomicU64, Ordering};
use std::sync::{Arc, Mutex, Wait};
use std::thread;
use std::thread::Threads;

// Stops and restarts the node around its steps: before each one, or after it, whose number `every` divides. Counts how often.
#[derive(Drop)]
struct Restarting<B: BoardName, R> {
    rt: R,
    nodes: Vec<Shared<B>>,
    every: u64,
    is_before: bool,
    steps: AtomicU64,
    restarts: AtomicU64,
}

// Stops the node and starts it again. Says whether both came.
fn is_restarted<B: BoardName, R: Wait>(rt: &R, node: &Mutex<Node<B>>) -> bool {
    let mut node = node.lock(rt);
    let is_stopped = node.stop().is_ok();
    let is_up = node.restart().is_ok();
    is_stopped && is_up
}

impl<B: BoardName, R: Wait> Restarting<B, R> {
    fn restart(&self, place: NodeId) {
        let number = self.steps.fetch_add(1, Ordering::SeqCst);
        if self.every == 0 || number % self.every != 0 {
            return;
        }
        if let Some(node) = self.nodes.get(usize::from(place))
            && is_restarted(&self.rt, node)
        {
            self.restarts.fetch_add(1, Ordering::SeqCst);
        }
    }
}

impl<B: BoardName, R: Wait> Gate for Restarting<B, R> {
    fn before(&self, place: NodeId) {
        if self.is_before {
            self.restart(place);
        }
    }

    fn after(&self, place: NodeId) {
        if !self.is_before {
            self.restart(place);
        }
    }
}

fn new_gate<B: BoardName, R: Wait + Copy + Drop>(
    rt: &R,
    alloc: Global,
    nodes: &Vec<Shared<B>>,
    every: u64,
    is_before: bool,
) -> Result<Arc<Restarting<B, R>, Global>, Refusal> {
    let nodes = shares_of(alloc, nodes)?;
    let gate = Restarting {
        rt: *rt,
        nodes,
        every,
        is_before,
        steps: AtomicU64::new(0),
        restarts: AtomicU64::new(0),
    };
    Ok(Arc::new(alloc, gate)?)
}

// What comes of a race over these nodes with this gate, and how often it restarted one.
fn raced_through<
    B: BoardName + Send + Sync + 'static,
    R: Threads + Wait + Copy + Drop + Send + Sync + 'static,
>(
    rt: &R,
    alloc: Global,
    board: &Arc<Board<B>, Global>,
    nodes: &Vec<Shared<B>>,
    callers: &mut Callers<B>,
    gate: &Arc<Restarting<B, R>, Global>,
) -> Result<(Outcome, u64), Refusal> {
    let own = Arc::try_clone(gate)?;
    let outcome = raced_on(rt, alloc, board, nodes, callers, &[], own)?;
    Ok((outcome, gate.restarts.load(Ordering::SeqCst)))
}

// What comes of a race whose nodes restart so, and how often they did.
fn raced_restarting<
    B: BoardName + Send + Sync + 'static,
    R: Threads + Wait + Copy + Drop + Send + Sync + 'static,
>(
    rt: &R,
    alloc: Global,
    opened: Opened,
    every: u64,
    is_before: bool,
) -> Result<(Outcome, u64), Refusal>
    requires { opened ≡ B.table }
{
    let (board, nodes, mut callers) = nodes_of::<B>(alloc, opened, &LIMITS)?;
    let gate = new_gate(rt, alloc, &nodes, every, is_before)?;
    raced_through(rt, alloc, &board, &nodes, &mut callers, &gate)
}

// The last turns alone are 100 steps of each of three nodes.
#[test]
fn nodes_restart_around_their_steps(rt: HostRuntime) {
    let alloc = rt.alloc();
    for (every, is_before) in [(1, true), (1, false), (5, true), (5, false)] {
        let opened = board_of(&rt, alloc, 3);
        let found = raced_restarting::<Brand, HostRuntime>(&rt, alloc, opened, every, is_before);
        let (outcome, restarts) = unrefused(&rt, found);
        assert!(rt; holds(&PLAN, &outcome) && restarts >= 60);
    }
}

// Eight choices by a linear congruential generator.
fn chosen(seed: u64) -> [Choice; 8] {
    let mut state = seed;
    let mut chosen = [Choice::Pass; 8];
    for choice in chosen.iter_mut() {
        state = state
            .wrapping_mul(6_364_136_223_846_793_005)
            .wrapping_add(1_442_695_040_888_963_407);
        if let Some(next) = CHOICES.get((state >> 33) as usize % CHOICES.len()) {
            *choice = *next;
        }
    }
    chosen
}

// Ten races by chance, one after another: whether each held, and how many batches they acknowledged.
fn ten_by_chance<R: Threads + Wait + Copy + Drop + Send + Sync + 'static>(
    rt: &R,
    alloc: Global,
    group: usize,
) -> Result<(bool, u64), Refusal> {
    let mut hold = true;
    let mut acknowledged = 0u64;
    for number in 0..10 {
        let opened = Opened::new(alloc, 3)?;
        let seed = (group as u64).wrapping_mul(10).wrapping_add(number);
        let outcome = raced::<Brand, R>(rt, alloc, opened, &chosen(seed))?;
        hold = hold && holds(&PLAN, &outcome);
        acknowledged = acknowledged.saturating_add(outcome.acknowledged);
    }
    Ok((hold, acknowledged))
}

// A hundred of them, ten at a time.
fn hundred_by_chance<R: Threads + Wait + Copy + Drop + Send + Sync + 'static>(
    rt: &R,
    alloc: Global,
) -> Result<(bool, u64), Refusal> {
    let mut hold = true;
    let mut acknowledged = 0u64;
    for found in thread::map_indices(rt, alloc, 10, &|group| ten_by_chance(rt, alloc, group))? {
        let (ten_hold, count) = found?;
        hold = hold && ten_hold;
        acknowledged = acknowledged.saturating_add(count);
    }
    Ok((hold, acknowledged))
}

// Where one of them acknowledges nothing, its messages may have fared so; not in all of them.
#[test]
fn all_nodes_agree_by_chance(rt: HostRuntime) {
    let found = hundred_by_chance(&rt, rt.alloc());
    let (hold, acknowledged) = unrefused(&rt, found);
    assert!(rt; hold && acknowledged > 0);
}

// Refuses the sends of these numbers, which count from 0.
#[derive(Drop)]
struct Refusing<C> {
    inner: C,
    sends: AtomicU64,
    from: u64,
    to: u64,
}

impl<P: Drop, C: Carry<P>> Carry<P> for Refusing<C> {
    fn send(&self, place: NodeId, parcel: P) -> Result<(), Refusal>
        ensures { IfErr result (λ refusal. refusal ≡ refusals.Memory) }
    {
        let number = self.sends.fetch_add(1, Ordering::SeqCst);
        if self.from <= number && number < self.to {
            return Err(Refusal::Memory);
        }
        self.inner.send(place, parcel)
    }

    fn receive(&self, place: NodeId) -> Option<P> {
        self.inner.receive(place)
    }
}

// What is refused: the thread of this place, and the sends of these numbers.
#[derive(Clone, Copy)]
struct Refused {
    place: NodeId,
    from: u64,
    to: u64,
}

// What came of it: the answers of the start and of node 0's turn, how often `stop` was called, how many sends there were, and how
// many owners the carrier has left. A worker that has ended owns it no more.
#[derive(Clone, Copy, Debug, PartialEq, Eq)]
struct Ended {
    started: Result<(), Refusal>,
    turned: Result<(), Refusal>,
    stops: u32,
    sends: u64,
    owners: usize,
}

// How many calls of `stop` end the cluster.
fn stops_of<B: BoardName, C: Carry<Parcel<B>> + Drop, R: Threads + Wait>(
    rt: &R,
    cluster: Cluster<B, C>,
) -> u32 {
    let mut left = cluster;
    let mut stops = 0u32;
    for _ in rt.forever() {
        stops = stops.saturating_add(1);
        match left.stop(rt) {
            Ok(()) => return stops,
            Err((again, _)) => left = again,
        }
        thread::yield_now();
    }
    unreachable!()
}

// The workers that started, of at most seven, and what the start answered, where the thread of one place is refused: no system has
// room for the greatest stack.
fn started_but<
    B: BoardName + Send + Sync + 'static,
    R: Threads + Wait + Copy + Send + 'static,
    C: Carry<Parcel<B>> + Send + Sync + Drop + 'static,
>(
    rt: &R,
    alloc: Global,
    nodes: &Vec<Shared<B>>,
    controller: Pass<B>,
    carrier: &Arc<C, Global>,
    refused: NodeId,
) -> Result<(Cluster<B, C>, Result<(), Refusal>), Refusal> {
    let gate = Arc::new(alloc, Open)?;
    let carrier = Arc::try_clone(carrier)?;
    let nodes = few_shares_of(alloc, nodes)?;
    let stack_of = move |place: NodeId| -> usize {
        if place == refused {
            usize::MAX
        } else {
            1 << 20
        }
    };
    match start_on(rt, alloc, nodes, controller, carrier, gate, &stack_of) {
        Ok(cluster) => Ok((cluster, Ok(()))),
        Err((cluster, refusal)) => Ok((cluster, Err(refusal))),
    }
}

type Carrier<B, R> = Refusing<Channels<Parcel<B>, R>>;

fn carrier_of<B: BoardName, R: Wait + Copy + Drop>(
    rt: &R,
    alloc: Global,
    refused: Refused,
) -> Result<Arc<Carrier<B, R>, Global>, Refusal> {
    let carrier = Refusing {
        inner: Channels::new(*rt, alloc, 4)?,
        sends: AtomicU64::new(0),
        from: refused.from,
        to: refused.to,
    };
    Ok(Arc::new(alloc, carrier)?)
}

// Starts workers over the carrier, but for the refused thread, gives node 0 a turn, and stops them.
fn start_and_stop<
    B: BoardName + Send + Sync + 'static,
    R: Threads + Wait + Copy + Drop + Send + Sync + 'static,
>(
    rt: &R,
    alloc: Global,
    nodes: &Vec<Shared<B>>,
    controller: Pass<B>,
    carrier: &Arc<Carrier<B, R>, Global>,
    refused: NodeId,
) -> Result<Ended, Refusal> {
    let (cluster, started) = started_but(rt, alloc, nodes, controller, carrier, refused)?;
    let turned = cluster.turn(0);
    let stops = stops_of(rt, cluster);
    Ok(Ended {
        started,
        turned,
        stops,
        sends: carrier.sends.load(Ordering::SeqCst),
        owners: Arc::strong_count(carrier),
    })
}

// Starts the workers of three nodes and the controller, gives node 0 a turn, and stops them.
fn stopped_after<
    B: BoardName + Send + Sync + 'static,
    R: Threads + Wait + Copy + Drop + Send + Sync + 'static,
>(rt: &R, alloc: Global, opened: Opened, refused: Refused) -> Result<Ended, Refusal>
    requires { opened ≡ B.table }
{
    let carrier = carrier_of(rt, alloc, refused)?;
    let (board, nodes, mut callers) = nodes_of::<B>(alloc, opened, &LIMITS)?;
    let controller = board.pass(&mut callers);
    start_and_stop(rt, alloc, &nodes, controller, &carrier, refused.place)
}

// A turn is one send, each worker that started is told by one more, and each refused send is one more; a refused one ends a `stop`.
// Place 3 is the controller's. In each row: the place whose thread is refused, the numbers of the refused sends, whether start and turn are answered by Ok, how many
// stops, and how many sends.
static REFUSALS: [(NodeId, (u64, u64), (bool, bool), u32, u64); 9] = [
    (0, (0, 0), (false, true), 1, 1),
    (1, (0, 0), (false, true), 1, 2),
    (2, (0, 0), (false, true), 1, 3),
    (3, (0, 0), (false, true), 1, 4),
    (4, (0, 0), (true, true), 1, 5),
    (4, (0, 1), (true, false), 1, 5),
    (4, (2, 3), (true, true), 2, 6),
    (4, (2, 4), (true, true), 3, 7),
    (2, (1, 2), (false, true), 2, 4),
];

// As the call answers that is refused for want of memory, if it is.
fn answer(is_done: bool) -> Result<(), Refusal> {
    if is_done {
        Ok(())
    } else {
        Err(Refusal::Memory)
    }
}

#[test]
fn refused_threads_and_sends_leave_what_stops(rt: HostRuntime) {
    let alloc = rt.alloc();
    for (place, (from, to), (started, turned), stops, sends) in &REFUSALS {
        let refused = Refused {
            place: *place,
            from: *from,
            to: *to,
        };
        let wanted = Ended {
            started: answer(*started),
            turned: answer(*turned),
            stops: *stops,
            sends: *sends,
            owners: 1,
        };
        let found = stopped_after::<Brand, HostRuntime>(
            &rt,
            alloc,
            board_of(&rt, alloc, 3),
            refused,
        );
        assert_eq!(rt; found, Ok(wanted));
    }
}

// Each producer has a receipt of each of its batches; and where nobody moves the leadership all of them are acknowledged.
fn is_whole(plan: &Plan, outcome: &Outcome) -> bool {
    let batches = u64::from(plan.producers) * u64::from(plan.batches);
    let is_still = plan.moves == 0;
    outcome.receipts == batches
        && outcome.acknowledged > 0
        && (!is_still || outcome.acknowledged == batches && outcome.committed == batches)
}

// Nodes or workers that did nothing would agree, and acknowledge nothing.
#[test]
fn three_nodes_acknowledge_batches(rt: HostRuntime) {
    for moves in [0, 50] {
        let plan = Plan {
            producers: 4,
            batches: 200,
            moves,
        };
        let found = race_over_channels(&rt, rt.alloc(), 3, &plan);
        let outcome = unrefused(&rt, found);
        assert!(rt; holds(&plan, &outcome) && is_whole(&plan, &outcome));
    }
}
