//! A race over channels, of nodes of its own.

ghost use Rattle.std.specs.Prelude.{◌≡◌, ◌≤◌, ◌+◌, ◌*◌, IfOk, true, vec_len};
ghost use Rattle.kp_model.specs.World.{most_nodes};

use crate::outcome::{Outcome, Plan};
use crate::race::{nodes_of, run_race};
use kp_board::{Board, BoardName, Callers, Opened};
use kp_cluster::Open;
use kp_node::Node;
use kp_transport::{Channels, Parcel, Waiting, Watched};
use kp_types::{Limits, MAX_BATCH, NodeId, Refusal};
use std::alloc::Global;
use std::marker::Brand;
use std::sync::{Arc, Mutex, Wait};
use std::thread::Threads;

const LIMITS: Limits = Limits {
    segment_bytes: 1_048_576,
    index_interval: 4_096,
    max_batch: MAX_BATCH,
};

// What carries parcels between so many places, and counts them.
fn carrier_of<B: BoardName, R: Wait + Copy + Drop>(
    rt: &R,
    alloc: Global,
    places: NodeId,
    waiting: &Arc<Waiting, Global>,
) -> Result<Arc<Watched<Channels<Parcel<B>, R>>, Global>, Refusal> {
    let waiting = Arc::try_clone(waiting)?;
    let channels = Channels::new(*rt, alloc, places)?;
    Ok(Arc::new(alloc, Watched::new(channels, waiting))?)
}

// The race of these nodes, the board's.
fn race_on<
    B: BoardName + Send + Sync + 'static,
    R: Threads + Wait + Copy + Drop + Send + Sync + 'static,
>(
    rt: &R,
    alloc: Global,
    board: &Board<B>,
    all: &Vec<Arc<Mutex<Node<B>>, Global>>,
    callers: &mut Callers<B>,
    plan: &Plan,
) -> Result<Outcome, Refusal>
    requires small { board.now ≤ most_nodes }
    requires each { vec_len all.now ≡ board.now }
    ensures nodes { IfOk result (λ o. o.nodes ≡ board.now) }
    ensures receipts { IfOk result (λ o. o.receipts ≤ plan.now.producers * plan.now.batches) }
    ensures acknowledged { IfOk result (λ o. o.acknowledged ≤ o.receipts) }
    ensures agree { IfOk result (λ o. o.agree ≡ true) }
{
    let waiting = Arc::new(alloc, Waiting::new())?;
    let carrier = carrier_of::<B, R>(rt, alloc, board.nodes() + 1, &waiting)?; // and the controller's place
    let gate = Arc::new(alloc, Open)?;
    run_race(
        rt, alloc, board, all, callers, &carrier, &*waiting, gate, plan,
    )
}

// The same, over a board under its name.
fn race_named<
    B: BoardName + Send + Sync + 'static,
    R: Threads + Wait + Copy + Drop + Send + Sync + 'static,
>(rt: &R, alloc: Global, opened: Opened, nodes: NodeId, plan: &Plan) -> Result<Outcome, Refusal>
    requires opened { opened ≡ B.table }
    requires nodes { opened.words ≡ 2 * nodes + 1 }
    requires small { nodes ≤ most_nodes }
    ensures nodes { IfOk result (λ o. o.nodes ≡ nodes) }
    ensures receipts { IfOk result (λ o. o.receipts ≤ plan.now.producers * plan.now.batches) }
    ensures acknowledged { IfOk result (λ o. o.acknowledged ≤ o.receipts) }
    ensures agree { IfOk result (λ o. o.agree ≡ true) }
{
    match nodes_of::<B>(alloc, opened, &LIMITS) {
        Ok((board, all, mut callers)) => race_on(rt, alloc, &board, &all, &mut callers, plan),
        Err(refusal) => Err(refusal),
    }
}

/// Runs a race of so many new nodes, 0 to 7, over channels: one for each node, and the controller's. The refusals are those of `run_race`.
/// (Own rule.)
pub fn race_over_channels<R: Threads + Wait + Copy + Drop + Send + Sync + 'static>(
    rt: &R,
    alloc: Global,
    nodes: NodeId,
    plan: &Plan,
) -> Result<Outcome, Refusal>
    requires { nodes ≤ most_nodes }
    ensures nodes { IfOk result (λ o. o.nodes ≡ nodes) }
    ensures receipts { IfOk result (λ o. o.receipts ≤ plan.now.producers * plan.now.batches) }
    ensures acknowledged { IfOk result (λ o. o.acknowledged ≤ o.receipts) }
    ensures agree { IfOk result (λ o. o.agree ≡ true) }
{
    let opened = Opened::new(alloc, nodes)?;
    race_named::<Brand, R>(rt, alloc, opened, nodes, plan)
}
