//! What the threads share.

use kp_board::{Board, BoardName, Callers, FreshPass, Message, Pass};
use kp_node::Node;
use kp_types::{Limits, NodeId, Refusal};
use std::alloc::Global;
use std::collections::VecDeque;
use std::sync::{Arc, Mutex, Wait};

const LIMITS: Limits = Limits {
    segment_bytes: 1_048_576,
    index_interval: 4_096,
    max_batch: 1_048_576,
};

// So many messages wait for a node. What doesn't fit is lost, and asked for again.
const ROOM: usize = 16;

/// A node under its lock, and its mail.
#[derive(Drop)]
struct Place<B: BoardName> {
    node: Mutex<Node<B>>,
    mail: Mutex<VecDeque<Message<B>>>,
}

/// All nodes, each at the place of its number, the board that they share, and what makes the passes of callers.
#[derive(Drop)]
pub(crate) struct Cluster<B: BoardName> {
    board: Arc<Board<B>, Global>,
    callers: Mutex<Callers<B>>,
    places: Vec<Place<B>>,
}

impl<B: BoardName> Cluster<B> {
    /// Idle nodes, one for each pass, and no leader.
    pub(crate) fn of(
        alloc: Global,
        board: Arc<Board<B>, Global>,
        passes: Vec<FreshPass<B>>,
        callers: Callers<B>,
    ) -> Result<Cluster<B>, Refusal> {
        let mut places = Vec::with_capacity(alloc, passes.len())?;
        for pass in passes {
            let node = Node::new(alloc, Arc::try_clone(&board)?, pass, &LIMITS);
            places.push(Place {
                node: Mutex::new(node),
                mail: Mutex::new(VecDeque::new(alloc)),
            })?;
        }
        Ok(Cluster {
            board,
            callers: Mutex::new(callers),
            places,
        })
    }

    /// Elects the node, and has each node take the record up.
    pub(crate) fn elect<R: Wait>(&self, rt: &R, node: NodeId) -> Result<(), Refusal> {
        let mut pass = self.pass(rt);
        self.board.elect(&mut pass, node)?;
        for place in &self.places {
            place.node.lock(rt).adopt()?;
        }
        Ok(())
    }

    /// A new caller's pass.
    pub(crate) fn pass<R: Wait>(&self, rt: &R) -> Pass<B> {
        self.board.pass(&mut self.callers.lock(rt))
    }

    /// The board, at which nobody waits.
    pub(crate) fn board(&self) -> &Board<B> {
        &self.board
    }

    /// The node of this number, under its lock.
    pub(crate) fn node(&self, number: usize) -> Option<&Mutex<Node<B>>> {
        let place = self.places.get(number)?;
        Some(&place.node)
    }

    /// The next message for the node.
    pub(crate) fn next_for<R: Wait>(&self, rt: &R, number: usize) -> Option<Message<B>> {
        let place = self.places.get(number)?;
        place.mail.lock(rt).pop_front()
    }

    /// Puts a message to the mail of the node to which it goes. No leader here sends the controller any.
    pub(crate) fn post<R: Wait>(&self, rt: &R, message: Message<B>) {
        if let Some(node) = message.body.addressee()
            && let Some(place) = self.places.get(usize::from(node))
        {
            let mut mail = place.mail.lock(rt);
            if mail.len() < ROOM {
                let _posted = mail.push_back(message);
            }
        }
    }

    /// Whether each node has this high watermark, by the words of the board.
    pub(crate) fn has_committed(&self, pass: &mut Pass<B>, offset: u64) -> bool {
        let mut done = true;
        for node in 0..self.board.nodes() {
            done &= self.board.watermark(pass, node) >= offset;
        }
        done
    }

    /// How many batches each node holds below its high watermark.
    pub(crate) fn held<R: Wait>(&self, rt: &R, alloc: Global) -> Result<Vec<u64>, Refusal> {
        let mut pass = self.pass(rt);
        let mut held = Vec::with_capacity(alloc, self.places.len())?;
        for place in &self.places {
            let batches = place.node.lock(rt).read(&mut pass, 0)?;
            held.push(batches.len() as u64)?;
        }
        Ok(held)
    }
}
