//! The nodes of a board that is opened, each with its pass.

ghost use Rattle.std.specs.Prelude.{◌≡◌, ◌+◌, ◌*◌, ◌<◌, ℕ, IfErr, IfOk, Some, length, map, slice_get};
ghost use Rattle.kp_types.specs.declared.refusal.Refusal.TheVariants.{Memory};
ghost use Rattle.kp_node.specs.Seats.{AreNumbered, AreSeats, fresh_seat, left_seats, new_seat, seated};

use crate::node::Node;
use kp_board::{Board, BoardName, Callers, FreshPass, LeftPass, Opened, OpenedAgain};
use kp_replica::KeptNode;
use kp_types::{Limits, Refusal};
use std::alloc::Global;
use std::sync::Arc;

/// A board that was opened, all its nodes, in their order, and what makes the passes of callers.
#[derive(Drop)]
pub struct Seats<B: BoardName> {
    pub board: Arc<Board<B>, Global>,
    pub nodes: Vec<Node<B>>,
    pub callers: Callers<B>,
}

// The nodes of these passes, each up and idle, with an empty log.
fn nodes_of<B: BoardName>(
    alloc: Global,
    board: &Arc<Board<B>, Global>,
    passes: Vec<FreshPass<B>>,
    limits: &Limits,
) -> Result<Vec<Node<B>>, Refusal>
    ensures nodes { IfOk result (λ made. made.items ≡ map (λ f. fresh_seat limits.now f.pass) passes.items) }
    ensures only { IfErr result (λ refusal. refusal ≡ Memory) }
{
    let mut nodes = Vec::with_capacity(alloc, passes.len())?;
    for pass in passes {
        nodes.push(Node::new(alloc, Arc::try_clone(board)?, pass, limits))?;
    }
    Ok(nodes)
}

// The nodes of these passes, each down, as it was left.
fn nodes_again<B: BoardName>(
    alloc: Global,
    board: &Arc<Board<B>, Global>,
    passes: Vec<LeftPass<B>>,
    kept: Vec<KeptNode>,
) -> Result<Vec<Node<B>>, Refusal>
    requires seats { AreSeats (map (λ p. p.pass) passes.items) kept.items }
    ensures nodes { IfOk result (λ made. made.items ≡ seated (map (λ p. p.pass) passes.items) kept.items) }
    ensures only { IfErr result (λ refusal. refusal ≡ Memory) }
{
    let mut waiting = passes;
    let mut left = kept;
    let mut nodes = Vec::with_capacity(alloc, left.len())?;
    while !waiting.is_empty() {
        let board = Arc::try_clone(board)?;
        let pass = waiting.remove(0);
        let node = left.remove(0);
        nodes.push(Node::again(alloc, board, pass, node))?;
    }
    Ok(nodes)
}

/// The board under its name, and all its nodes, each up and idle with an empty log. F33 is the only refusal. O(nodes). (Own rule.)
pub fn seat<B: BoardName>(
    alloc: Global,
    opened: Opened,
    limits: &Limits,
) -> Result<Seats<B>, Refusal>
    requires { opened ≡ B.table }
    ensures board { IfOk result (λ s. 2 * s.board.value + 1 ≡ opened.words) }
    ensures nodes { IfOk result (λ s. (length s.nodes.items ≡ s.board.value)
        × ((k : ℕ) → k < s.board.value → slice_get s.nodes.items k ≡ Some (new_seat limits.now s.board.value k))) }
    ensures callers { IfOk result (λ s. s.callers ≡ 0) }
    ensures only { IfErr result (λ refusal. refusal ≡ Memory) }
{
    let (board, passes, callers) = Board::<B>::new(alloc, opened)?;
    let board = Arc::new(alloc, board)?;
    let nodes = nodes_of(alloc, &board, passes, limits)?;
    Ok(Seats {
        board,
        nodes,
        callers,
    })
}

/// The board under its name that opened with these nodes, and the nodes, each down, as it was left: restart it, and it goes on. F33 is
/// the only refusal. O(nodes). (Own rule.)
pub fn seat_again<B: BoardName>(
    alloc: Global,
    opened: OpenedAgain,
    kept: Vec<KeptNode>,
) -> Result<Seats<B>, Refusal>
    requires board { opened ≡ B.table }
    requires count { opened.opening.count ≡ length kept.items }
    requires nodes { opened.opening.nodes ≡ map (λ m. m.state) kept.items }
    requires numbers { AreNumbered 0 kept.items }
    ensures board { IfOk result (λ s. s.board.value ≡ length kept.items) }
    ensures nodes { IfOk result (λ s. s.nodes.items ≡ left_seats opened.opening 0 kept.items) }
    ensures callers { IfOk result (λ s. s.callers ≡ 0) }
    ensures only { IfErr result (λ refusal. refusal ≡ Memory) }
{
    let (board, passes, callers) = Board::<B>::again(alloc, opened)?;
    let board = Arc::new(alloc, board)?;
    let nodes = nodes_again(alloc, &board, passes, kept)?;
    Ok(Seats {
        board,
        nodes,
        callers,
    })
}
