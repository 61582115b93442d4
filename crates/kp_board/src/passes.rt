//! The passes of a board: what a step on its words is made with. None of them has any bytes.
ghost use Rattle.std.specs.Prelude.{◌≡◌, ◌+◌, ◌*◌, ◌/◌, ◌<◌, []};
ghost use Rattle.kp_board.specs.Views.{new_node, of_node, opened_node};

use crate::rule::BoardSeat;
use kp_types::NodeId;
use std::marker::{Brand, Model, PhantomData};

/// Names one board in types: the passes, nodes and messages of a board have it as a parameter. So a pass of one board can't be
/// used at another. (Own rule.)
pub trait BoardName {
    ghost use Rattle.kp_board.specs.Opening.{BoardId};

    ghost table: { BoardId };
}

impl BoardName for Brand {
    ghost use Rattle.std.specs.Prelude.{[]};
    ghost use Rattle.kp_model.specs.Left.{beginning};

    ghost table = { record { words = 0; id = record { words = 0; slots = 0; views_name = 0; atom = 0; block = 0; offset = 0; slot_names = [] }; opening = beginning 0 } };
}

/// A node's own pass. A clause sees what it shows (`NodeView`): the node's number, its state, the record that it was last
/// shown, its mark word's value, and messages that are known to have been sent. Each node has one, and nobody can make another.
pub struct NodePass<B: BoardName> {
    pub(crate) seat: BoardSeat,
    pub(crate) number: NodeId,
    pub(crate) name: PhantomData<B>,
}

// By hand, so that a function that drops a pass calls this, and isn't proved with what drops each of its parts.
impl<B: BoardName> Drop for NodePass<B> {
    fn drop(self) {
        let NodePass {
            seat: _,
            number: _,
            name: _,
        } = self;
    }
}

impl<B: BoardName> Model for NodePass<B> {
    ghost use Rattle.std.specs.Prelude.{◌≡◌, ◌+◌, ◌*◌, ◌<◌, []};
    ghost use Rattle.kp_board.specs.Views.{NodeView, of_node, node_view};

    ghost Value = { NodeView };

    ghost view = { λ p. node_view p.seat.me.0 };

    ghost invariant = { λ p. (p.seat.table_id ≡ B.table.id) × (p.seat.me ≡ (of_node (node_view p.seat.me.0), [])) × ((node_view p.seat.me.0).number ≡ p.number) × (2 * p.number + 2 < B.table.words) × (p.number < 7) };
}

/// A node's pass that nobody has used: its node is as at the start. `Board::new` gives each node's once.
#[derive(Drop)]
pub struct FreshPass<B: BoardName> {
    /// The pass of a node that is idle, with an empty log.
    pub pass: NodePass<B>,
    pub ghost fresh: { pass ≡ new_node (B.table.words / 2) pass.number },
    pub ghost inside: { 2 * pass.number + 2 < B.table.words },
}

/// A node's pass that nobody has used, of a board that opened with what a run has left: its node is as it was left. `Board::again`
/// gives each node's once.
#[derive(Drop)]
pub struct LeftPass<B: BoardName> {
    /// The pass of a node that is down.
    pub pass: NodePass<B>,
    pub ghost left: { pass ≡ opened_node B.table.opening pass.number },
    pub ghost inside: { 2 * pass.number + 2 < B.table.words },
}

impl<B: BoardName> NodePass<B> {
    /// Which node's it is, 0 to 6. O(1).
    pub fn number(&self) -> NodeId
        ensures number { result ≡ self.now.number }
        ensures small { result < 7 }
    {
        self.number
    }

    // What it is made of.
    pub(crate) fn into_seat(self) -> BoardSeat
        ensures { (result.table_id ≡ B.table.id) × (result.me ≡ (of_node self, [])) }
    {
        let NodePass {
            seat,
            number: _,
            name: _,
        } = self;
        seat
    }
}

/// Makes the passes of callers: `Board::new` gives it once, and neither a board nor a node has it, so that none of their calls has a
/// caller's pass but those that it is lent. It has no bytes. A clause sees how many passes it has made. (Own rule.)
pub struct Callers<B: BoardName> {
    pub(crate) seat: BoardSeat,
    pub(crate) name: PhantomData<B>,
}

// By hand, so that a function that drops it calls this, and isn't proved with what drops each of its parts.
impl<B: BoardName> Drop for Callers<B> {
    fn drop(self) {
        let Callers { seat: _, name: _ } = self;
    }
}

impl<B: BoardName> Model for Callers<B> {
    ghost use Rattle.std.specs.Prelude.{◌≡◌, ◌+◌, ◌*◌, ℕ, []};
    ghost use Rattle.kp_board.specs.Views.{founder, made_by};

    ghost Value = { ℕ };

    ghost view = { λ c. made_by c.seat.me.0 };

    ghost invariant = { λ c. (c.seat.table_id ≡ B.table.id) × (c.seat.me ≡ (founder B.table.opening.count B.table.opening (made_by c.seat.me.0), [])) × (B.table.words ≡ 2 * B.table.opening.count + 1) };
}

/// A caller's pass. A clause sees what it shows (`CallerView`): the committed list that it has seen, the record and the
/// watermarks that it was last shown, its receipts, the changes of the record that its elections and decisions made, and what it was
/// told last. What it was shown never goes back.
pub struct Pass<B: BoardName> {
    pub(crate) seat: BoardSeat,
    pub(crate) name: PhantomData<B>,
}

// By hand, so that a function that drops a pass calls this, and isn't proved with what drops each of its parts.
impl<B: BoardName> Drop for Pass<B> {
    fn drop(self) {
        let Pass { seat: _, name: _ } = self;
    }
}

impl<B: BoardName> Model for Pass<B> {
    ghost use Rattle.std.specs.Prelude.{◌≡◌, []};
    ghost use Rattle.kp_board.specs.Views.{CallerView, of_caller, caller_view};

    ghost Value = { CallerView };

    ghost view = { λ p. caller_view p.seat.me.0 };

    ghost invariant = { λ p. (p.seat.table_id ≡ B.table.id) × (p.seat.me ≡ (of_caller (caller_view p.seat.me.0), [])) };
}

/// A message's pass. A clause sees the message, which was sent in the board's run. It goes with the message's body. A decision makes a
/// proposal's pass the one of its answer.
#[derive(Drop)]
pub struct MessagePass<B: BoardName> {
    pub(crate) seat: BoardSeat,
    pub(crate) name: PhantomData<B>,
}

impl<B: BoardName> Model for MessagePass<B> {
    ghost use Rattle.std.specs.Prelude.{◌≡◌, []};
    ghost use Rattle.kp_model.specs.World.{Message};
    ghost use Rattle.kp_board.specs.Views.{of_message, message_view};

    ghost Value = { Message };

    ghost view = { λ p. message_view p.seat.me.0 };

    ghost invariant = { λ p. (p.seat.table_id ≡ B.table.id) × (p.seat.me ≡ (of_message (message_view p.seat.me.0), [])) };
}
