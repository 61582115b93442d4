//! What each thread does.

use crate::cluster::Cluster;
use kp_batch::{Fields, Parts, Speller};
use kp_board::{BoardName, Pass};
use kp_node::{Ack, Node};
use kp_replica::Receipt;
use kp_types::Refusal;
use std::alloc::Global;
use std::sync::{Mutex, Wait};
use std::thread::{Threads, map_indices};

// So that a thread ends by itself whatever the schedule is.
const MOST_TURNS: u32 = 100_000_000;

/// One turn of a node: it takes in what came, or it asks, or, where it leads, raises its high watermark.
fn turn<B: BoardName, R: Wait>(rt: &R, cluster: &Cluster<B>, node: &Mutex<Node<B>>, number: usize) {
    let sent = match cluster.next_for(rt, number) {
        Some(message) => node.lock(rt).step(message),
        None => node.lock(rt).ask().map(Some),
    };
    match sent {
        Ok(Some(message)) => cluster.post(rt, message),
        Ok(None) => {}
        Err(Refusal::NotLeader) => {
            let _raised = node.lock(rt).raise();
        }
        Err(_) => {}
    }
}

/// Serves a node until each node has committed so many batches.
fn serve<B: BoardName, R: Wait>(rt: &R, cluster: &Cluster<B>, number: usize, batches: u64) {
    let mut pass = cluster.pass(rt);
    if let Some(node) = cluster.node(number) {
        for _ in 0..MOST_TURNS {
            if cluster.has_committed(&mut pass, batches) {
                return;
            }
            turn(rt, cluster, node, number);
        }
    }
}

/// Hands the leader a batch of one record. Its receipt names the batch that stands in the leader's log.
fn produce_one<B: BoardName, R: Wait>(
    rt: &R,
    leader: &Mutex<Node<B>>,
    pass: &mut Pass<B>,
    speller: &mut Speller,
) -> Result<Receipt, Refusal> {
    let fields = Fields {
        base_timestamp: 1_000,
        producer_id: None,
        producer_epoch: None,
        base_sequence: None,
        transactional: false,
        control: false,
    };
    let record = Parts {
        timestamp: 1_000,
        key: None,
        value: Some(b"a"),
        headers: &[],
    };
    let bytes = speller.spell(&fields, &[record])?;
    leader.lock(rt).produce(pass, bytes)
}

/// Asks until the receipt's batch is committed: it stays, whatever happens from then on.
fn wait_for<B: BoardName, R: Wait>(
    rt: &R,
    leader: &Mutex<Node<B>>,
    pass: &mut Pass<B>,
    receipt: &Receipt,
) -> Result<Ack, Refusal> {
    for _ in 0..MOST_TURNS {
        let ack = leader.lock(rt).acked(pass, receipt)?;
        if ack != Ack::NotYet {
            return Ok(ack);
        }
    }
    Ok(Ack::NotYet)
}

/// Produces so many batches, each after the one before was acknowledged. Answers how many were.
fn produce<B: BoardName, R: Wait>(
    rt: &R,
    alloc: Global,
    cluster: &Cluster<B>,
    batches: u64,
) -> Result<u64, Refusal> {
    let mut pass = cluster.pass(rt);
    let mut speller = Speller::new(alloc);
    let mut acknowledged = 0u64;
    let Some(leader) = cluster.node(0) else {
        return Ok(acknowledged);
    };
    for _ in 0..batches {
        let receipt = produce_one(rt, leader, &mut pass, &mut speller)?;
        if wait_for(rt, leader, &mut pass, &receipt)? == Ack::Yes {
            acknowledged = acknowledged.wrapping_add(1);
        }
    }
    Ok(acknowledged)
}

/// What the thread of this place does: the first ones serve a node each, the others produce.
fn work<B: BoardName, R: Wait>(
    rt: &R,
    alloc: Global,
    cluster: &Cluster<B>,
    place: usize,
    (producers, batches): (usize, u64),
) -> Result<u64, Refusal> {
    if place >= producers {
        return {
            serve(
                rt,
                cluster,
                place - producers,
                batches.wrapping_mul(producers as u64),
            );
            Ok(0)
        };
    }
    produce(rt, alloc, cluster, batches)
}

/// Runs all threads, and answers how many batches were acknowledged.
pub(crate) fn run<B: BoardName + Send + Sync, R: Threads + Wait + Sync>(
    rt: &R,
    alloc: Global,
    cluster: &Cluster<B>,
    producers: usize,
    batches: u64,
) -> Result<u64, Refusal> {
    let nodes = usize::from(cluster.board().nodes());
    let threads = producers.saturating_add(nodes);
    let made = map_indices(
        rt,
        alloc,
        threads,
        &|place| { work(rt, alloc, cluster, place, (producers, batches)) },
    )?;
    let mut acknowledged = 0u64;
    for count in &made {
        acknowledged = acknowledged.wrapping_add((*count)?);
    }
    Ok(acknowledged)
}
