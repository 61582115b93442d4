//! The program `three_threads`: three nodes of one partition, each served by a thread, and two producers in threads of their own.
//! It stands on `kp_node` for the nodes, `kp_board` for what they share, and std's `Mutex` for the nodes and their mail.
//! No contract speaks of it: it prints the same in any schedule, and `docs/USING.md` explains it line by line.
#![tactic(auto)]

ghost use Rattle.std.specs.Prelude.{◌≡◌};

mod cluster;
mod threads;

use crate::cluster::Cluster;
use crate::threads::run;
use kp_board::{Board, BoardName, Opened};
use kp_types::Refusal;
use std::alloc::Global;
use std::io;
use std::marker::Brand;
use std::sync::{Arc, Wait};
use std::thread::Threads;

/// Nodes, producers, and how many batches each of these hands in.
const NODES: u8 = 3;

const PRODUCERS: usize = 2;

const BATCHES: u64 = 50;

/// What the threads leave: how many batches were acknowledged, and how many each node holds below its high watermark.
#[derive(Drop)]
struct Left {
    acknowledged: u64,
    held: Vec<u64>,
}

/// Runs the nodes of a board under its name.
fn run_named<B: BoardName + Send + Sync, R: Threads + Wait + Sync>(
    rt: &R,
    alloc: Global,
    opened: Opened,
) -> Result<Left, Refusal>
    requires { opened ≡ B.table }
{
    let (board, passes, callers) = Board::<B>::new(alloc, opened)?;
    let board = Arc::new(alloc, board)?;
    let cluster = Cluster::of(alloc, board, passes, callers)?;
    cluster.elect(rt, 0)?;
    let acknowledged = run(rt, alloc, &cluster, PRODUCERS, BATCHES)?;
    let held = cluster.held(rt, alloc)?;
    Ok(Left { acknowledged, held })
}

fn main(rt: HostRuntime) -> io::Result<()> {
    let left = match Opened::new(rt.alloc(), NODES) {
        Ok(opened) => run_named::<Brand, HostRuntime>(&rt, rt.alloc(), opened),
        Err(refusal) => Err(refusal),
    };
    match left {
        Ok(left) => {
            let acknowledged = left.acknowledged;
            println!(&rt; "acknowledged {acknowledged}")?;
            for count in &left.held {
                println!(&rt; "a node holds {count}")?;
            }
            Ok(())
        }
        Err(refusal) => {
            let head = refusal.head();
            println!(&rt; "{head}")
        }
    }
}
