//! How a receipt comes to a caller's pass, and how a caller sees what a node holds.

ghost use Rattle.std.specs.Prelude.{◌≡◌, ◌∷◌, Contains};
ghost use Rattle.kp_board.specs.Views.{KeptReceipt};
ghost use Rattle.kp_node.specs.Acks.{SawHeld};
ghost use Rattle.kp_node.specs.Seated.{SeatedNode};

use crate::node::Node;
use kp_board::{BoardName, Pass, ReceiptFiling};
use kp_replica::Receipt;

impl<B: BoardName> Node<B> {
    /// Puts the receipt of a batch that stands in the node's log to the caller's. `_said` is read by nobody. O(1), and no memory.
    pub(crate) fn keep<E: ReceiptFiling, T>(
        &mut self,
        caller: &mut Pass<B>,
        receipt: &Receipt,
        _said: &T,
    )
        requires { (x : KeptReceipt) × E.fits x × Contains self.old.node.state.log x.batch }
        ensures same { self.new ≡ self.old }
        ensures kept { (x : KeptReceipt) × E.fits x
            × (caller.new ≡ record caller.old { receipts = x ∷ caller.old.receipts; told = caller.new.told }) }
    {
        self.board.tell_held(&mut self.pass, caller);
        self.board
            .keep_receipt::<E, (), Receipt>(caller, &(), receipt);
    }

    /// The caller has then seen a committed list that goes on from what this node holds. O(1), and no memory.
    pub(crate) fn show_held(&mut self, caller: &mut Pass<B>)
        ensures same { self.new ≡ self.old }
        ensures saw { SawHeld caller.old caller.new self.old.pass }
    {
        self.board.tell_held(&mut self.pass, caller);
        let number = self.pass.number();
        let _nodes = self.board.nodes();
        self.board.watermark(caller, number);
    }
}
