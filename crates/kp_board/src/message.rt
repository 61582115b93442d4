//! What goes from one node to another, and between a node and the controller.
ghost use Rattle.std.specs.Prelude.{◌≡◌, IfErr, IfOk};
ghost use Rattle.kp_types.specs.declared.refusal.Refusal.TheVariants.{Memory};
ghost use Rattle.kp_model.specs.Letter.{letter, letter_of};

use crate::board::Board;
use crate::passes::{BoardName, MessagePass};
use kp_model::MessageBody;
use kp_types::Refusal;

/// A message between nodes, or between a node and the controller: its body beside its pass. A clause sees that the message which the
/// pass shows, one that was sent in the board's run, has this body's letter: who sent it to whom, what it asks for, and what it
/// answers. (Own rule.)
pub struct Message<B: BoardName> {
    /// What goes over the wire.
    pub body: MessageBody,
    /// What is known of it: that it was sent.
    pub pass: MessagePass<B>,
    pub ghost tied: { letter_of pass ≡ letter body },
}

// By hand, so that a function that drops a message calls this, and isn't proved with what drops each of its parts.
impl<B: BoardName> Drop for Message<B> {
    fn drop(self) {
        let Message { body: _, pass: _ } = self;
    }
}

impl<B: BoardName> Message<B> {
    /// Its body, and the pass that shows it. O(1).
    pub fn into_parts(self) -> (MessageBody, MessagePass<B>)
        ensures body { result.0 ≡ self.body }
        ensures pass { result.1 ≡ self.pass }
    {
        let Message { body, pass } = self;
        (body, pass)
    }

    /// The message once more, as a carrier may bring it twice: it says the same, and its pass shows the same message. F33 is the only
    /// refusal, as of `MessageBody::share`. O(1). (Own rule.)
    pub fn repeat(&mut self, board: &Board<B>) -> Result<Message<B>, Refusal>
        ensures same { (self.new.body ≡ self.old.body) × (self.new.pass ≡ self.old.pass) }
        ensures again { IfOk result (λ m. (m.pass ≡ self.old.pass) × (letter m.body ≡ letter self.old.body)) }
        ensures only { IfErr result (λ refusal. refusal ≡ Memory) }
    {
        let body = self.body.share()?;
        let pass = board.repeat(&mut self.pass);
        Ok(Message { body, pass })
    }
}
