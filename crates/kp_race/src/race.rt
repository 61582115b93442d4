//! A race from its start to what came of it.

ghost use Rattle.std.specs.Prelude.{◌≡◌, ℕ, ◌<◌, ◌≤◌, ◌+◌, ◌*◌, IfErr, IfOk, map, slice_index_or, sum_by, true, vec_len};
ghost use Rattle.kp_types.specs.declared.refusal.Refusal.TheVariants.{Memory};
ghost use Rattle.kp_model.specs.World.{most_nodes};
ghost use Rattle.kp_race.specs.Tasks.{most_receipts, tasks_of};

use crate::judge::judge;
use crate::outcome::{Outcome, Plan};
use crate::racer::{Field, Job, Reached, Shared, turn_all};
use crate::task::tasks;
use kp_board::{Board, BoardName, Callers, Opened, Pass};
use kp_cluster::{Cluster, Gate, start};
use kp_node::Node;
use kp_transport::{Carry, Parcel, Waiting};
use kp_types::{Limits, NodeId, Refusal};
use std::alloc::Global;
use std::sync::{Arc, Mutex, Wait};
use std::thread;
use std::thread::Threads;

// How many turns each node has after the producers' end.
const LAST_TURNS: u32 = 100;

// How often the end of a turn is waited for.
const PATIENCE: u32 = 10_000;

/// A board, its nodes, each under a lock, and what makes the passes of callers, which has made none. F33 is the only refusal.
pub fn nodes_of<B: BoardName>(
    alloc: Global,
    opened: Opened,
    limits: &Limits,
) -> Result<
    (
        Arc<Board<B>, Global>,
        Vec<Arc<Mutex<Node<B>>, Global>>,
        Callers<B>,
    ),
    Refusal,
>
    requires { opened ≡ B.table }
    ensures board { IfOk result (λ r. 2 * r.0.value + 1 ≡ opened.words) }
    ensures nodes { IfOk result (λ r. vec_len r.1 ≡ r.0.value) }
    ensures callers { IfOk result (λ r. r.2 ≡ 0) }
    ensures only { IfErr result (λ refusal. refusal ≡ Memory) }
{
    let (board, passes, callers) = Board::<B>::new(alloc, opened)?;
    let board = Arc::new(alloc, board)?;
    let mut nodes = Vec::new(alloc);
    for pass in passes {
        let node = Node::new(alloc, Arc::try_clone(&board)?, pass, limits);
        nodes.push(Arc::new(alloc, Mutex::new(node))?)?;
    }
    Ok((board, nodes, callers))
}

/// Ends the workers, and tries again as long as memory for that is refused.
pub fn stop_all<B: BoardName, C: Carry<Parcel<B>> + Drop, R: Threads + Wait>(
    rt: &R,
    cluster: Cluster<B, C>,
) {
    let mut left = cluster;
    for _ in rt.forever() {
        match left.stop(rt) {
            Ok(()) => return,
            Err((again, _)) => left = again,
        }
        thread::yield_now();
    }
    unreachable!()
}

// Node 0 leads before anybody hands in a batch.
fn lead<B: BoardName, R: Wait>(
    rt: &R,
    board: &Board<B>,
    pass: &mut Pass<B>,
    nodes: &Vec<Shared<B>>,
) -> Result<(), Refusal> {
    if let Some(first) = nodes.first() {
        board.elect(pass, 0)?;
        first.lock(rt).adopt()?;
    }
    Ok(())
}

// A pass for each task.
fn jobs_of<B: BoardName>(
    alloc: Global,
    board: &Board<B>,
    callers: &mut Callers<B>,
    plan: &Plan,
) -> Result<Vec<Job<B>>, Refusal>
    ensures all { IfOk result (λ jobs. map (λ job. job.task) jobs.items ≡ tasks_of plan.now) }
    ensures only { IfErr result (λ refusal. refusal ≡ Memory) }
{
    let mut jobs = Vec::new(alloc);
    for task in tasks(alloc, plan)? {
        let pass = board.pass(callers);
        jobs.push(Job { task, pass })?;
    }
    Ok(jobs)
}

// A turn of each node, and then the next one once nothing is under way.
fn last_turns<B: BoardName, C: Carry<Parcel<B>>>(
    carrier: &C,
    waiting: &Waiting,
    nodes: NodeId,
) -> Result<(), Refusal>
    ensures { IfErr result (λ refusal. refusal ≡ Memory) }
{
    for _ in 0..LAST_TURNS {
        turn_all(carrier, nodes)?;
        let _settled = waiting.settle(0, PATIENCE);
    }
    Ok(())
}

// Each job in a thread of its own, until all of them have ended.
fn run_jobs<B: BoardName + Send + Sync, C: Carry<Parcel<B>> + Sync, R: Threads + Wait + Sync>(
    field: &Field<'_, B, C, R>,
    jobs: Vec<Job<B>>,
) -> Result<Vec<Reached<B>>, Refusal>
    ensures each { IfOk result (λ reached. vec_len reached ≡ vec_len jobs) }
    ensures few { IfOk result (λ reached. (k : ℕ) (job : _) (one : _) → k < vec_len jobs
        → vec_len (slice_index_or reached.items k one).receipts ≤ most_receipts (slice_index_or jobs.items k job).task) }
{
    Ok(thread::map_vec(field.rt, jobs, &|job: Job<B>| field.run(job))?)
}

// The producers and the mover.
fn run_all<B: BoardName + Send + Sync, C: Carry<Parcel<B>> + Sync, R: Threads + Wait + Sync>(
    field: &Field<'_, B, C, R>,
    callers: &mut Callers<B>,
    plan: &Plan,
) -> Result<Vec<Reached<B>>, Refusal>
    ensures { IfOk result (λ reached. sum_by (λ one. vec_len one.receipts) reached.items ≤ plan.now.producers * plan.now.batches) }
{
    lead(
        field.rt,
        field.board,
        &mut field.board.pass(callers),
        field.nodes,
    )?;
    let jobs = jobs_of(field.alloc, field.board, callers, plan)?;
    run_jobs(field, jobs)
}

// Room for a parcel at each node's place and at the controller's behind them, while no worker takes one: so that each worker's end can
// be told even where no more memory is found. F33.
fn make_room<B: BoardName, C: Carry<Parcel<B>>>(carrier: &C, nodes: NodeId) -> Result<(), Refusal>
    ensures { IfErr result (λ refusal. refusal ≡ Memory) }
{
    for place in 0..=nodes {
        carrier.send(place, Parcel::Turn)?;
        let _turn = carrier.receive(place);
    }
    Ok(())
}

// The nodes, shared with whoever has them.
fn shares_of<B: BoardName>(alloc: Global, nodes: &Vec<Shared<B>>) -> Result<Vec<Shared<B>>, Refusal>
    ensures each { IfOk result (λ shares. vec_len shares ≡ vec_len nodes.now) }
    ensures only { IfErr result (λ refusal. refusal ≡ Memory) }
{
    let mut shares = Vec::new(alloc);
    for node in nodes {
        shares.push(Arc::try_clone(node)?)?;
    }
    Ok(shares)
}

// A worker for each node, and the controller's, which decides with this pass; none is left where that is refused.
fn started<
    B: BoardName + Send + Sync + 'static,
    R: Threads + Wait + Copy + Send + 'static,
    C: Carry<Parcel<B>> + Send + Sync + Drop + 'static,
    G: Gate + Send + Sync + Drop + 'static,
>(
    rt: &R,
    alloc: Global,
    nodes: &Vec<Shared<B>>,
    controller: Pass<B>,
    carrier: &Arc<C, Global>,
    gate: Arc<G, Global>,
) -> Result<Cluster<B, C>, Refusal>
    requires { vec_len nodes.now ≤ most_nodes }
    ensures { IfErr result (λ refusal. refusal ≡ Memory) }
{
    let shares = shares_of(alloc, nodes)?;
    make_room(&**carrier, shares.len() as NodeId)?;
    match start(
        rt,
        alloc,
        shares,
        controller,
        Arc::try_clone(carrier)?,
        gate,
    ) {
        Ok(cluster) => Ok(cluster),
        Err((cluster, refusal)) => {
            stop_all(rt, cluster);
            Err(refusal)
        }
    }
}

/// Runs a race over these nodes, the board's, to its end. They have no worker before and none afterwards, nor has the controller, whose
/// place on the carrier is the one behind theirs. Node 0 is elected and takes the record up. Then each producer tries the nodes in turn,
/// at most 100 times for a batch and at most 100 times its batches in all; where a leader lacks the batch before (F12) it hands in again
/// what that leader lacks; it ends where no try finds a leader. Meanwhile the leadership moves; last each node has 100 turns. Nobody asks
/// for a change of the in-sync replicas. The carrier counts into `waiting`, by which turns are paced, so that memory grows with the logs
/// and not with the turns. A node that is down at the end is started again, to be asked. The nodes agree: what each of them holds as
/// committed begins one list. `callers` makes the passes that it takes. F33, also where a producer or the mover ended for want of memory; what the board and node 0 refuse at the
/// election. (Own rule.)
pub fn run_race<
    B: BoardName + Send + Sync + 'static,
    R: Threads + Wait + Copy + Send + Sync + 'static,
    C: Carry<Parcel<B>> + Send + Sync + Drop + 'static,
    G: Gate + Send + Sync + Drop + 'static,
>(
    rt: &R,
    alloc: Global,
    board: &Board<B>,
    nodes: &Vec<Arc<Mutex<Node<B>>, Global>>,
    callers: &mut Callers<B>,
    carrier: &Arc<C, Global>,
    waiting: &Waiting,
    gate: Arc<G, Global>,
    plan: &Plan,
) -> Result<Outcome, Refusal>
    requires { vec_len nodes.now ≤ most_nodes }
    ensures nodes { IfOk result (λ o. o.nodes ≡ board.now) }
    ensures receipts { IfOk result (λ o. o.receipts ≤ plan.now.producers * plan.now.batches) }
    ensures acknowledged { IfOk result (λ o. o.acknowledged ≤ o.receipts) }
    ensures agree { IfOk result (λ o. o.agree ≡ true) }
{
    let cluster = started(rt, alloc, nodes, board.pass(callers), carrier, gate)?;
    let field = Field {
        rt,
        alloc,
        board,
        nodes,
        carrier: &**carrier,
        waiting,
    };
    let reached = run_all(&field, callers, plan);
    let turned = last_turns(&**carrier, waiting, board.nodes());
    stop_all(rt, cluster);
    let reached = reached?;
    turned?;
    judge(rt, alloc, board, &mut board.pass(callers), nodes, reached)
}
