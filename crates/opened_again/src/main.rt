//! The program `opened_again`: a partition of two nodes that is closed, and opened again in the same process with what it has left.
//! It stands on `kp_node` for the nodes, `kp_board` for what they share, and `kp_batch` for the batches.
//! No contract speaks of it; but that its nodes go on from a run of the rules is proved from its start to its end.
#![tactic(auto)]

ghost use Rattle.std.specs.Prelude.{◌≡◌, ◌≤◌, length, map};
ghost use Rattle.kp_node.specs.Seats.{AreNumbered};

use kp_batch::{Fields, Handed, Speller};
use kp_board::{Board, BoardName, Opened, OpenedAgain, Pass};
use kp_node::{LeftNode, Node, Seats, are_all, close, open_again, seat, seat_again};
use kp_replica::KeptNode;
use kp_types::{Limits, NodeId, Refusal};
use std::alloc::Global;
use std::io;
use std::marker::Brand;
use std::sync::Arc;

const LIMITS: Limits = Limits {
    segment_bytes: 1_048_576,
    index_interval: 4_096,
    max_batch: 1_048_576,
};

/// A batch of one record with this value, of no producer.
fn batch_of(alloc: Global, value: &[u8]) -> Result<Handed, Refusal>
    requires { length value.now ≤ 1000000 }
{
    let fields = Fields {
        base_timestamp: 1_000,
        producer_id: None,
        producer_epoch: None,
        base_sequence: None,
        transactional: false,
        control: false,
    };
    let mut speller = Speller::new(alloc);
    speller.spell_value(&fields, value)
}

/// The node of this number.
fn node_of<B: BoardName>(nodes: &mut [Node<B>], number: usize) -> Result<&mut Node<B>, Refusal> {
    nodes.get_mut(number).ok_or(Refusal::NotInSync)
}

/// Elects the node, and has each node take the record up.
fn elect<B: BoardName>(
    board: &Board<B>,
    pass: &mut Pass<B>,
    nodes: &mut [Node<B>],
    leader: NodeId,
) -> Result<(), Refusal> {
    board.elect(pass, leader)?;
    for node in nodes.iter_mut() {
        node.adopt()?;
    }
    Ok(())
}

/// Node 1 asks, node 0 answers, and node 1 takes the answer.
fn replicate<B: BoardName>(nodes: &mut [Node<B>]) -> Result<(), Refusal> {
    let request = node_of(nodes, 1)?.ask()?;
    if let Some(answer) = node_of(nodes, 0)?.step(request)? {
        node_of(nodes, 1)?.step(answer)?;
    }
    Ok(())
}

/// A client hands node 0 a batch with this value.
fn produce<B: BoardName>(
    alloc: Global,
    pass: &mut Pass<B>,
    nodes: &mut [Node<B>],
    value: &[u8],
) -> Result<(), Refusal>
    requires { length value.now ≤ 1000000 }
{
    let bytes = batch_of(alloc, value)?;
    node_of(nodes, 0)?.produce(pass, bytes)?;
    Ok(())
}

/// Node 1 takes what node 0 has, and tells that it has it: so it is committed.
fn commit<B: BoardName>(nodes: &mut [Node<B>]) -> Result<(), Refusal> {
    replicate(nodes)?;
    replicate(nodes)?;
    node_of(nodes, 0)?.raise()?;
    Ok(())
}

/// Prints what a consumer of node 0 reads from the first offset on.
fn print_committed<B: BoardName>(
    rt: &HostRuntime,
    when: &str,
    pass: &mut Pass<B>,
    nodes: &mut [Node<B>],
) -> Result<(), Refusal> {
    let records = node_of(nodes, 0)?.committed(pass, 0)?;
    for index in 0..records.len() {
        let record = records.get(index);
        let value = str::from_utf8(record.value.unwrap_or(b"")).unwrap_or("?");
        let offset = record.offset;
        println!(rt; "{when}: {value} at {offset}").map_err(|_| Refusal::Device)?;
    }
    Ok(())
}

/// Two batches are committed, and a third one isn't.
fn work<B: BoardName>(
    rt: &HostRuntime,
    alloc: Global,
    board: &Board<B>,
    pass: &mut Pass<B>,
    nodes: &mut [Node<B>],
) -> Result<(), Refusal> {
    elect(board, pass, nodes, 0)?;
    produce(alloc, pass, nodes, b"a")?;
    produce(alloc, pass, nodes, b"b")?;
    commit(nodes)?;
    node_of(nodes, 0)?.checkpoint()?;
    produce(alloc, pass, nodes, b"c")?;
    print_committed(rt, "before", pass, nodes)
}

/// The nodes start again, from their checkpoints, and go on.
fn go_on<B: BoardName>(
    rt: &HostRuntime,
    alloc: Global,
    board: &Board<B>,
    pass: &mut Pass<B>,
    nodes: &mut [Node<B>],
) -> Result<(), Refusal> {
    board.recall(pass);
    for node in nodes.iter_mut() {
        node.restart()?;
    }
    print_committed(rt, "after", pass, nodes)?;
    elect(board, pass, nodes, 0)?;
    produce(alloc, pass, nodes, b"d")?;
    commit(nodes)?;
    print_committed(rt, "then", pass, nodes)
}

/// The board that was opened again, under its name, and its nodes.
fn second<B: BoardName>(
    rt: &HostRuntime,
    alloc: Global,
    opened: OpenedAgain,
    kept: Vec<KeptNode>,
) -> Result<(), Refusal>
    requires board { opened ≡ B.table }
    requires count { opened.opening.count ≡ length kept.items }
    requires nodes { opened.opening.nodes ≡ map (λ m. m.state) kept.items }
    requires numbers { AreNumbered 0 kept.items }
{
    let mut seats = seat_again::<B>(alloc, opened, kept)?;
    let mut pass = seats.board.pass(&mut seats.callers);
    go_on(rt, alloc, &seats.board, &mut pass, &mut seats.nodes)
}

/// All nodes leave their board.
fn leave_all<B: BoardName>(
    alloc: Global,
    nodes: Vec<Node<B>>,
) -> Result<Vec<LeftNode<B>>, Refusal> {
    let mut left = Vec::with_capacity(alloc, nodes.len())?;
    for node in nodes {
        match node.leave() {
            Ok(node) => left.push(node)?,
            Err((_node, refusal)) => return Err(refusal),
        }
    }
    Ok(left)
}

/// Closes the board, and opens another one with what it has left.
fn again<B: BoardName>(
    rt: &HostRuntime,
    alloc: Global,
    board: Board<B>,
    mut pass: Pass<B>,
    left: Vec<LeftNode<B>>,
) -> Result<(), Refusal> {
    if !are_all(&board, &left) {
        return Err(Refusal::NotInSync);
    }
    let Ok(closed) = close(alloc, board, &mut pass, left) else {
        return Err(Refusal::Memory);
    };
    let opened = open_again::<Brand, Pass<B>>(alloc, &closed.controller, &closed.nodes, &pass)?;
    second::<Brand>(rt, alloc, opened, closed.nodes)
}

/// The first board, under its name, and its nodes.
fn first<B: BoardName>(rt: &HostRuntime, alloc: Global, opened: Opened) -> Result<(), Refusal>
    requires { opened ≡ B.table }
{
    let Seats {
        board,
        mut nodes,
        mut callers,
    } = seat::<B>(alloc, opened, &LIMITS)?;
    let mut pass = board.pass(&mut callers);
    work(rt, alloc, &board, &mut pass, &mut nodes)?;
    let left = leave_all(alloc, nodes)?;
    match Arc::try_unwrap(board) {
        Ok(board) => again(rt, alloc, board, pass, left),
        Err(_) => Err(Refusal::Device),
    }
}

fn main(rt: HostRuntime) -> io::Result<()> {
    let done = match Opened::new(rt.alloc(), 2) {
        Ok(opened) => first::<Brand>(&rt, rt.alloc(), opened),
        Err(refusal) => Err(refusal),
    };
    match done {
        Ok(()) => Ok(()),
        Err(refusal) => {
            let head = refusal.head();
            println!(&rt; "{head}")
        }
    }
}
