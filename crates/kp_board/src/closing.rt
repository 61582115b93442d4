//! How a board is closed: its nodes' passes are taken back, and what it leaves may be opened again.
ghost use Rattle.std.specs.Prelude.{◌≡◌, ◌≤◌, ◌∷◌, ◌++◌, [], length};
ghost use Rattle.std.specs.Slots.{IsFull};
ghost use Rattle.kp_model.specs.Set.{record_of};
ghost use Rattle.kp_model.specs.World.{most_nodes};
ghost use Rattle.kp_board.specs.Closing.{AreFrom, WasClosed};

use crate::board::Board;
use crate::passes::{BoardName, NodePass, Pass};
use crate::plays::{Closes, Gathers};
use crate::rule::BoardSeat;
use crate::word::record_of_word;
use atomic_table::Closed;
use kp_model::LeaderAndIsr;
use std::alloc::Global;
use std::marker::{Model, PhantomData};

// A pass that takes in the nodes' passes. It has no bytes.
#[derive(Drop)]
struct Closing<B: BoardName> {
    seat: BoardSeat,
    name: PhantomData<B>,
}

impl<B: BoardName> Model for Closing<B> {
    ghost use Rattle.std.specs.Prelude.{◌≡◌, []};
    ghost use Rattle.kp_board.specs.Views.{ClosingView, of_closing, closing_view};

    ghost Value = { ClosingView };

    ghost view = { λ p. closing_view p.seat.me.0 };

    ghost invariant = { λ p. (p.seat.table_id ≡ B.table.id) × (p.seat.me ≡ (of_closing (closing_view p.seat.me.0), [])) };
}

// The memory of a table's words, and of slots, is let go.
fn free(mut closed: Closed<u8, Global>)
    requires { IsFull closed.slots }
{
    let mut i = 0;
    while i < closed.slot_count() {
        closed.take(i);
        i += 1;
    }
    closed.free();
}

impl<B: BoardName> Board<B> {
    // A pass that has what a caller has seen, and no node's pass yet.
    fn closing(&self, pass: &mut Pass<B>) -> Closing<B>
        ensures same { pass.new ≡ pass.old }
        ensures new { result ≡ record { seen = pass.old.seen; nodes = [] } }
    {
        let seat = self.table.shared.split_seat::<Closes>(&mut pass.seat);
        Closing {
            seat,
            name: PhantomData,
        }
    }

    // A node's pass is taken in.
    fn take_in(&self, closing: &mut Closing<B>, node: NodePass<B>)
        ensures { closing.new ≡ record closing.old { nodes = closing.old.nodes ++ node ∷ [] } }
    {
        let _nodes = self.nodes;
        let seat = node.into_seat();
        self.table
            .shared
            .join_seat::<Gathers>(&mut closing.seat, seat);
    }

    // The passes of nodes are taken in, in their order.
    fn gather(&self, pass: &mut Pass<B>, nodes: Vec<NodePass<B>>) -> Closing<B>
        ensures same { pass.new ≡ pass.old }
        ensures new { result ≡ record { seen = pass.old.seen; nodes = nodes.items } }
    {
        let mut closing = self.closing(pass);
        for node in nodes {
            self.take_in(&mut closing, node);
        }
        closing
    }

    /// Closes the board, and takes back the passes of all nodes, in their order. The answer is the controller's record then. So some run
    /// has left it with just what the passes show of the nodes, each of which a crash stops that is up, and some node of it held
    /// what this caller has seen: in the same process a board may open again with that. It takes no memory. O(nodes). (Own rule.)
    pub fn close(self, pass: &mut Pass<B>, nodes: Vec<NodePass<B>>) -> LeaderAndIsr
        requires all { length nodes.items ≡ self }
        requires order { AreFrom 0 nodes.items }
        ensures same { pass.new ≡ pass.old }
        ensures left { WasClosed (record_of result) pass.old.seen nodes.items }
        ensures small { length nodes.items ≤ most_nodes }
    {
        kp_model::crashes_are_stops();
        let closing = self.gather(pass, nodes);
        let Closing { seat, name: _ } = closing;
        let closed = self.into_table().close_with(seat);
        let word = closed.word(0);
        free(closed);
        record_of_word(word)
    }
}
