//! A node with its pass.

ghost use Rattle.std.specs.Prelude.{◌≡◌, ◌+◌, ◌*◌, ◌<◌, ◌≤◌};
ghost use Rattle.kp_model.specs.Log.{IsBoundary};
ghost use Rattle.kp_model.specs.World.{fresh};
ghost use Rattle.kp_node.specs.Seated.{SeatedNode};
ghost use Rattle.kp_replica.specs.Broker.{node_at};

use kp_board::{Board, BoardName, FreshPass, LeftPass, NodePass};
use kp_log::PartitionLog;
use kp_replica::{Broker, KeptNode, Replica};
use kp_types::Limits;
use std::alloc::Global;
use std::marker::Model;
use std::sync::Arc;

/// A broker node, up or down, with its own pass of a board, which shows it. A clause sees both. Threads share it in a `Mutex`.
pub struct Node<B: BoardName> {
    pub(crate) alloc: Global,
    pub(crate) board: Arc<Board<B>, Global>,
    pub(crate) broker: Broker,
    pub(crate) pass: NodePass<B>,
}

// By hand, so that a function that drops a node calls this, and isn't proved with what drops each of its parts.
impl<B: BoardName> Drop for Node<B> {
    fn drop(self) {
        let Node {
            alloc: _,
            board: _,
            broker: _,
            pass: _,
        } = self;
    }
}

impl<B: BoardName> Model for Node<B> {
    ghost use Rattle.std.specs.Prelude.{◌≡◌, ◌+◌, ◌*◌, ◌<◌, ◌≤◌};
    ghost use Rattle.kp_replica.specs.Broker.{node_at};
    ghost use Rattle.kp_node.specs.Seated.{SeatedNode};

    ghost Value = { SeatedNode };

    ghost view = { λ n. record { node = node_at n.broker; pass = n.pass } };

    ghost invariant = { λ n. (n.pass.state ≡ (node_at n.broker).state) × (n.pass.number ≡ (node_at n.broker).number) × ((node_at n.broker).state.watermark ≤ n.pass.published) × (2 * n.pass.number + 2 < B.table.words) };
}

impl<B: BoardName> Node<B> {
    /// A node that is up and idle, with an empty log: the one whose pass this is. It takes no memory. (Own rule.)
    pub fn new(
        alloc: Global,
        board: Arc<Board<B>, Global>,
        pass: FreshPass<B>,
        limits: &Limits,
    ) -> Node<B>
        ensures node { result.node ≡ record { number = pass.pass.number; limits = limits.now; state = fresh } }
        ensures pass { result.pass ≡ pass.pass }
    {
        let FreshPass { pass } = pass;
        let replica = Replica::new(alloc, pass.number(), limits);
        Node {
            alloc,
            board,
            broker: Broker::Up(replica),
            pass,
        }
    }

    /// A node that is down, as it was left: the one whose pass this is. Restart it, and it goes on. It takes no memory. (Own rule.)
    pub fn again(
        alloc: Global,
        board: Arc<Board<B>, Global>,
        pass: LeftPass<B>,
        kept: KeptNode,
    ) -> Node<B>
        requires number { kept.number ≡ pass.pass.number }
        requires state { kept.state ≡ pass.pass.state }
        ensures node { result.node ≡ kept }
        ensures pass { result.pass ≡ pass.pass }
    {
        let LeftPass { pass } = pass;
        Node {
            alloc,
            board,
            broker: Broker::Down(kept),
            pass,
        }
    }

    // Its share of the board, what it is, and its pass.
    pub(crate) fn into_parts(self) -> (Arc<Board<B>, Global>, Broker, NodePass<B>)
        ensures node { node_at result.1 ≡ self.node }
        ensures pass { result.2 ≡ self.pass }
        ensures tied { (self.pass.state ≡ self.node.state) × (self.pass.number ≡ self.node.number)
            × (self.node.state.watermark ≤ self.pass.published) × (2 * self.pass.number + 2 < B.table.words) }
    {
        let Node {
            alloc: _,
            board,
            broker,
            pass,
        } = self;
        (board, broker, pass)
    }

    /// The node's log, settled up to its high watermark, which is a boundary of it; of one that is down, what it keeps. Its pass shows
    /// the same state. O(1).
    pub fn log(&self) -> &PartitionLog
        ensures value { result.now ≡ record {
          limits = self.now.node.limits;
          log = self.now.node.state.log;
          settled = self.now.node.state.watermark;
        } }
        ensures boundary { IsBoundary self.now.node.state.log self.now.node.state.watermark }
        ensures shown { self.now.pass.state ≡ self.now.node.state }
    {
        self.broker.log()
    }

    /// The node's board, at which a caller gets a pass, and looks at the record and at watermarks, without the node's lock. It is
    /// lent; who keeps it takes a share. O(1).
    pub fn board(&self) -> &Arc<Board<B>, Global>
        ensures { B.table.words ≡ 2 * result.now.value + 1 }
    {
        let _nodes = self.board.nodes();
        &self.board
    }
}
