//! What one pass tells another. Each call is one load of word 0, or two; none takes memory or waits.
ghost use Rattle.std.specs.Prelude.{◌≡◌, ◌<◌, [], ◌∷◌, length, Some, slice_get};
ghost use Rattle.kp_board.specs.Views.{node_note, caller_note, with_receipts};

use crate::board::Board;
use crate::passes::{BoardName, MessagePass, NodePass, Pass};
use crate::plays::{Hears, Notes, Sends, TakesReceipts};
use std::marker::PhantomData;

impl<B: BoardName> Board<B> {
    /// Tells a caller what this node holds, its log, and the value of its mark word. The caller's next look at a watermark makes
    /// it part of what the caller has seen. (Own rule.)
    pub fn tell_held(&self, from: &mut NodePass<B>, to: &mut Pass<B>)
        ensures same { from.new ≡ from.old }
        ensures told { to.new ≡ record to.old { told = node_note from.old } }
    {
        let held = self.table.shared.split_seat::<Notes>(&mut from.seat);
        self.table.shared.join_seat::<Hears>(&mut to.seat, held);
    }

    /// Tells a caller what another one has seen. (Own rule.)
    pub fn tell_seen(&self, from: &mut Pass<B>, to: &mut Pass<B>)
        ensures same { from.new ≡ from.old }
        ensures told { to.new ≡ record to.old { told = caller_note from.old } }
    {
        let seen = self.table.shared.split_seat::<Notes>(&mut from.seat);
        self.table.shared.join_seat::<Hears>(&mut to.seat, seen);
    }

    /// A caller's pass takes over the receipts that another one keeps, which keeps them, too. So a receipt may go from caller to
    /// caller, and what `acked` of a node says of the receipts of its caller's pass, it says of this one. (Own rule.)
    pub fn tell_receipts(&self, from: &mut Pass<B>, to: &mut Pass<B>)
        ensures same { from.new ≡ from.old }
        ensures told { to.new ≡ with_receipts to.old from.old.receipts }
    {
        let kept = self.table.shared.split_seat::<Notes>(&mut from.seat);
        self.table
            .shared
            .join_seat::<TakesReceipts>(&mut to.seat, kept);
    }

    // A caller takes in the pass of a message, which is known to have been sent from then on.
    pub(crate) fn hear(&self, pass: &mut Pass<B>, message: MessagePass<B>)
        ensures { pass.new ≡ record pass.old { sent = message ∷ [] } }
    {
        let MessagePass { seat, name: _ } = message;
        self.table.shared.join_seat::<Hears>(&mut pass.seat, seat);
    }

    // The pass of the message that a caller knows to have been sent last.
    pub(crate) fn heard(&self, pass: &mut Pass<B>) -> MessagePass<B>
        requires { 0 < length pass.old.sent }
        ensures same { pass.new ≡ pass.old }
        ensures message { slice_get pass.old.sent 0 ≡ Some result }
    {
        let seat = self.table.shared.split_seat::<Sends>(&mut pass.seat);
        MessagePass {
            seat,
            name: PhantomData,
        }
    }

    /// The pass of the message that this node sent last, or was told of last. (Own rule.)
    pub fn message_pass(&self, pass: &mut NodePass<B>) -> MessagePass<B>
        requires { 0 < length pass.old.told }
        ensures same { pass.new ≡ pass.old }
        ensures message { slice_get pass.old.told 0 ≡ Some result }
    {
        let seat = self.table.shared.split_seat::<Sends>(&mut pass.seat);
        MessagePass {
            seat,
            name: PhantomData,
        }
    }

    /// The pass of the same message once more: a message may come twice. (Own rule.)
    pub fn repeat(&self, message: &mut MessagePass<B>) -> MessagePass<B>
        ensures same { message.new ≡ message.old }
        ensures again { result ≡ message.old }
    {
        let seat = self.table.shared.split_seat::<Sends>(&mut message.seat);
        MessagePass {
            seat,
            name: PhantomData,
        }
    }

    /// A node takes in the pass of a message that came. From then on it is known to have been sent. (Own rule.)
    pub fn receive(&self, pass: &mut NodePass<B>, message: MessagePass<B>)
        ensures { pass.new ≡ record pass.old { told = message ∷ [] } }
    {
        let MessagePass { seat, name: _ } = message;
        self.table.shared.join_seat::<Hears>(&mut pass.seat, seat);
    }
}
