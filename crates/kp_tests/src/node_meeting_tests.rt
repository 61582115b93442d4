//! Two callers: who meet, and of whom one is told the receipts of the other.

ghost use Rattle.std.specs.Prelude.{◌≡◌, OnOk};
ghost use Rattle.kp_model.specs.Beginning.{Begins};
ghost use Rattle.kp_model.specs.Run.{held};

use crate::board_tests::board_of;
use crate::cluster_tests::{LIMITS, Shared};
use crate::world_tests::bytes_of;
use kp_board::{Board, BoardName, Callers, Opened, Pass};
use kp_node::{Ack, Node};
use kp_race::nodes_of;
use kp_types::Refusal;
use std::alloc::Global;
use std::marker::Brand;
use std::sync::Wait;

// One caller reads node 0, another one node 1, and they meet at node 0. Both have then seen what each node held, and what the other
// one had seen before. Answers how many batches each read.
fn read_and_meet<B: BoardName>(
    zero: &mut Node<B>,
    one: &mut Node<B>,
    a: &mut Pass<B>,
    b: &mut Pass<B>,
) -> Result<(usize, usize), Refusal>
    ensures zero { OnOk result (Begins (held zero.old.node.state) a.new.seen × Begins (held zero.old.node.state) b.new.seen) }
    ensures one { OnOk result (Begins (held one.old.node.state) a.new.seen × Begins (held one.old.node.state) b.new.seen) }
    ensures met { OnOk result (Begins a.old.seen b.new.seen × Begins b.old.seen a.new.seen) }
{
    let _first = zero.log(); // its pass shows it
    let _second = one.log();
    let of_zero = zero.read(a, 0)?;
    let of_one = one.read(b, 0)?;
    zero.meet(a, b);
    Ok((of_zero.len(), of_one.len()))
}

// The follower asks, and takes what the leader answers.
fn fetch<B: BoardName>(leader: &mut Node<B>, follower: &mut Node<B>) -> Result<(), Refusal> {
    let request = follower.ask()?;
    if let Some(answer) = leader.step(request)? {
        let _taken = follower.step(answer)?;
    }
    Ok(())
}

// The leader commits a batch, which the follower takes, and of which it says so.
fn commit<B: BoardName>(
    alloc: Global,
    leader: &mut Node<B>,
    follower: &mut Node<B>,
    pass: &mut Pass<B>,
) -> Result<(), Refusal> {
    leader.produce(pass, bytes_of(alloc, "p10")?)?;
    fetch(leader, follower)?;
    fetch(leader, follower)?;
    leader.raise()?;
    Ok(())
}

// Two batches are committed at node 0, of which node 1 knows so of the first.
fn two_and_one<B: BoardName>(
    alloc: Global,
    board: &Board<B>,
    leader: &mut Node<B>,
    follower: &mut Node<B>,
    pass: &mut Pass<B>,
) -> Result<(), Refusal> {
    board.elect(pass, 0)?;
    leader.adopt()?;
    follower.adopt()?;
    commit(alloc, leader, follower, pass)?;
    commit(alloc, leader, follower, pass)
}

fn meet_at<B: BoardName, R: Wait>(
    rt: &R,
    alloc: Global,
    board: &Board<B>,
    nodes: &Vec<Shared<B>>,
    callers: &mut Callers<B>,
) -> Result<(usize, usize), Refusal> {
    let [zero, one] = nodes.as_slice() else {
        return Err(Refusal::BadCount);
    };
    let mut zero = zero.lock(rt);
    let mut one = one.lock(rt);
    two_and_one(alloc, board, &mut zero, &mut one, &mut board.pass(callers))?;
    let mut left = board.pass(callers);
    let mut right = board.pass(callers);
    read_and_meet(&mut zero, &mut one, &mut left, &mut right)
}

// How many batches two callers read who then meet.
fn read_by_two<B: BoardName, R: Wait>(
    rt: &R,
    alloc: Global,
    opened: Opened,
) -> Result<(usize, usize), Refusal>
    requires { opened ≡ B.table }
{
    let (board, nodes, mut callers) = nodes_of::<B>(alloc, opened, &LIMITS)?;
    meet_at(rt, alloc, &board, &nodes, &mut callers)
}

// What their passes have then seen is in the clauses of `read_and_meet`: a pass has no bytes.
#[test]
fn meet(rt: HostRuntime) {
    let alloc = rt.alloc();
    let found = read_by_two::<Brand, HostRuntime>(&rt, alloc, board_of(&rt, alloc, 2));
    assert_eq!(rt; found, Ok((2, 1)));
}

// What a node answers to one caller of another one's receipt, which it was told, before and after the batch is committed.
fn ask_for_another<B: BoardName>(
    alloc: Global,
    board: &Board<B>,
    leader: &mut Node<B>,
    follower: &mut Node<B>,
    producer: &mut Pass<B>,
    consumer: &mut Pass<B>,
) -> Result<(Ack, Ack), Refusal> {
    board.elect(producer, 0)?;
    leader.adopt()?;
    follower.adopt()?;
    let receipt = leader.produce(producer, bytes_of(alloc, "p10")?)?;
    board.tell_receipts(producer, consumer);
    let before = leader.acked(consumer, &receipt)?;
    fetch(leader, follower)?;
    fetch(leader, follower)?;
    leader.raise()?;
    Ok((before, leader.acked(consumer, &receipt)?))
}

// The same, told as whether the first answer is NotYet and the second one Yes.
fn told_of_another<B: BoardName, R: Wait>(
    rt: &R,
    alloc: Global,
    opened: Opened,
) -> Result<(bool, bool), Refusal>
    requires { opened ≡ B.table }
{
    let (board, nodes, mut callers) = nodes_of::<B>(alloc, opened, &LIMITS)?;
    let [zero, one] = nodes.as_slice() else {
        return Err(Refusal::BadCount);
    };
    let mut producer = board.pass(&mut callers);
    let mut consumer = board.pass(&mut callers);
    let (before, then) = ask_for_another(
        alloc,
        &board,
        &mut zero.lock(rt),
        &mut one.lock(rt),
        &mut producer,
        &mut consumer,
    )?;
    Ok((before == Ack::NotYet, then == Ack::Yes))
}

#[test]
fn receipts_go_to_another_caller(rt: HostRuntime) {
    let alloc = rt.alloc();
    let found = told_of_another::<Brand, HostRuntime>(&rt, alloc, board_of(&rt, alloc, 2));
    assert_eq!(rt; found, Ok((true, true)));
}
