//! How a host closes a board, so that its nodes may be opened again in the same process.

ghost use Rattle.std.specs.Prelude.{◌≡◌, ◌<◌, ◌≤◌, ◌∷◌, ◌++◌, [], true, IfErr, IfOk, length, map, vec_capacity};
ghost use Rattle.kp_model.specs.Set.{record_of};
ghost use Rattle.kp_model.specs.World.{Down, most_nodes};
ghost use Rattle.kp_replica.specs.Broker.{node_at};
ghost use Rattle.kp_node.specs.Again.{WereLeft};
ghost use Rattle.kp_node.specs.Closes.{AreReady, IsNext, IsNoNextLife, IsReady, stopped, stopped_node};
ghost use Rattle.kp_node.specs.Seats.{AreNumbered};

use crate::node::Node;
use kp_board::{Board, BoardName, NodePass, Pass};
use kp_model::LeaderAndIsr;
use kp_replica::{Broker, KeptNode, Replica};
use kp_types::{NodeId, Refusal};
use std::alloc::Global;
use std::marker::Model;

/// A node that has left its board, which can be closed once all have: it is down, in its next life. A clause sees it, and its pass.
#[derive(Drop)]
pub struct LeftNode<B: BoardName> {
    kept: KeptNode,
    pass: NodePass<B>,
}

impl<B: BoardName> Model for LeftNode<B> {
    ghost use Rattle.kp_node.specs.Closes.{IsReady};
    ghost use Rattle.kp_node.specs.Seated.{SeatedNode};

    ghost Value = { SeatedNode };

    ghost view = { λ n. record { node = n.kept; pass = n.pass } };

    ghost invariant = { λ n. IsReady (record { node = n.kept; pass = n.pass }) };
}

/// What a board leaves that is closed: the controller's record, and its nodes, each down and in its next life.
#[derive(Drop)]
pub struct ClosedBoard {
    pub controller: LeaderAndIsr,
    pub nodes: Vec<KeptNode>,
}

// What the node keeps: it is stopped, if it is up.
fn down(broker: Broker) -> KeptNode
    ensures { result ≡ stopped_node (node_at broker) }
{
    match broker {
        Broker::Up(replica) => replica.stop(),
        Broker::Down(kept) => {
            let _refusal = kept.refusal(); // proof: it is down
            kept
        }
    }
}

// The node in its next life, down.
fn in_next_life(alloc: Global, kept: KeptNode) -> Result<KeptNode, (KeptNode, Refusal)>
    ensures next { IfOk result (IsNext kept) }
    ensures back { IfErr result (λ back. back.0 ≡ kept) }
    ensures refused { IfErr result (λ back. IsNoNextLife kept.state.life back.1) }
{
    let _refusal = kept.refusal(); // proof: it is down
    match Replica::restart(alloc, kept) {
        Ok(replica) => Ok(replica.stop()),
        Err(back) => Err(back),
    }
}

impl<B: BoardName> Node<B> {
    // The same of a node that is down, and of its pass.
    fn leave_down(self) -> Result<LeftNode<B>, (Node<B>, Refusal)>
        requires { self.node.state.mode ≡ Down }
        ensures left { IfOk result (λ l. IsNext self.node l.node) }
        ensures back { IfErr result (λ back. back.0 ≡ self) }
        ensures refused { IfErr result (λ back. IsNoNextLife self.node.state.life back.1) }
    {
        let alloc = self.alloc;
        let (board, broker, pass) = self.into_parts();
        match in_next_life(alloc, down(broker)) {
            Ok(kept) => Ok(LeftNode { kept, pass }),
            Err((kept, refusal)) => {
                let node = Node {
                    alloc,
                    board,
                    broker: Broker::Down(kept),
                    pass,
                };
                Err((node, refusal))
            }
        }
    }

    /// The node leaves its board, of which it gives its share back: it is stopped, if it is up, and is in its next life then, as a new
    /// process has it. F24 where it is in the greatest one, F33; either gives it back, stopped. The cost is that of `stop` and `restart`.
    /// (Own rule.)
    pub fn leave(self) -> Result<LeftNode<B>, (Node<B>, Refusal)>
        ensures left { IfOk result (λ l. IsNext self.node l.node) }
        ensures back { IfErr result (λ back. back.0 ≡ stopped self) }
        ensures refused { IfErr result (λ back. IsNoNextLife self.node.state.life back.1) }
    {
        let mut node = self;
        let _stopped = node.stop(); // F28 where it is down
        node.leave_down()
    }
}

impl<B: BoardName> LeftNode<B> {
    /// Which node it is. O(1).
    pub fn number(&self) -> NodeId
        ensures { result ≡ self.now.node.number }
    {
        self.pass.number()
    }

    // What it keeps, and its pass.
    fn into_parts(self) -> (KeptNode, NodePass<B>)
        ensures node { result.0 ≡ self.node }
        ensures pass { result.1 ≡ self.pass }
        ensures ready { IsReady self }
    {
        let LeftNode { kept, pass } = self;
        (kept, pass)
    }
}

/// Whether these are all nodes of the board, in their order. O(nodes).
pub fn are_all<B: BoardName>(board: &Board<B>, nodes: &[LeftNode<B>]) -> bool
    ensures count { result ≡ true → length nodes.now ≡ board.now }
    ensures order { result ≡ true → AreNumbered 0 (map (λ s. s.node) nodes.now) }
    ensures all { length nodes.now ≡ board.now → AreNumbered 0 (map (λ s. s.node) nodes.now)
        → result ≡ true }
{
    for index in 0..nodes.len() {
        if usize::from(nodes[index].number()) != index {
            return false;
        }
    }
    nodes.len() == usize::from(board.nodes())
}

// Puts it behind the others, for which there is room.
fn put<T: Drop>(list: &mut Vec<T>, value: T)
    requires { length list.old.items < vec_capacity list.old }
    ensures put { list.new.items ≡ list.old.items ++ value ∷ [] }
    ensures room { vec_capacity list.old ≤ vec_capacity list.new }
{
    match list.push(value) {
        Ok(()) => {}
        Err(_) => unreachable!(),
    }
}

// Parts the nodes from their passes, each into a list that has room for them.
fn part<B: BoardName>(
    nodes: Vec<LeftNode<B>>,
    passes: &mut Vec<NodePass<B>>,
    kept: &mut Vec<KeptNode>,
)
    requires no_passes { passes.old.items ≡ [] }
    requires none_kept { kept.old.items ≡ [] }
    requires room { length nodes.items ≤ vec_capacity passes.old }
    requires room_kept { length nodes.items ≤ vec_capacity kept.old }
    ensures passes { passes.new.items ≡ map (λ s. s.pass) nodes.items }
    ensures kept { kept.new.items ≡ map (λ s. s.node) nodes.items }
    ensures ready { AreReady nodes.items }
{
    for node in nodes {
        let (one, pass) = node.into_parts();
        put(kept, one);
        put(passes, pass);
    }
}

/// Closes a board that all its nodes have left. Some run has left the answer, and some node of it held what this caller has seen:
/// so `open_again` may open it, and promise that, in the same process and without an assumption. An `Err` says that memory was refused,
/// and gives all back. O(nodes). (Own rule.)
pub fn close<B: BoardName>(
    alloc: Global,
    board: Board<B>,
    pass: &mut Pass<B>,
    nodes: Vec<LeftNode<B>>,
) -> Result<ClosedBoard, (Board<B>, Vec<LeftNode<B>>)>
    requires all { length nodes.items ≡ board }
    requires order { AreNumbered 0 (map (λ s. s.node) nodes.items) }
    ensures same { pass.new ≡ pass.old }
    ensures left { IfOk result (λ l. WereLeft (record_of l.controller) l.nodes.items pass.old.seen) }
    ensures nodes { IfOk result (λ l. l.nodes.items ≡ map (λ s. s.node) nodes.items) }
    ensures order { IfOk result (λ l. AreNumbered 0 l.nodes.items) }
    ensures small { IfOk result (λ l. length l.nodes.items ≤ most_nodes) }
    ensures back { IfErr result (λ back. (back.0 ≡ board) × (back.1.items ≡ nodes.items)) }
{
    let Ok(mut passes) = Vec::with_capacity(alloc, nodes.len()) else {
        return Err((board, nodes));
    };
    let Ok(mut kept) = Vec::with_capacity(alloc, nodes.len()) else {
        return Err((board, nodes));
    };
    part(nodes, &mut passes, &mut kept);
    let controller = board.close(pass, passes);
    Ok(ClosedBoard {
        controller,
        nodes: kept,
    })
}
