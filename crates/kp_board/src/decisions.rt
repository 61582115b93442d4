//! The controller's decisions: each is one exchange of word 0, with a caller's pass that was told of the proposal.
ghost use Rattle.std.specs.Prelude.{◌≡◌, [], ◌∷◌};
ghost use Rattle.kp_model.specs.World.{LeaderAndIsr as ModelRecord, Proposes};
ghost use Rattle.kp_model.specs.Letter.{proposal_of};
ghost use Rattle.kp_model.specs.Step.{decide_cause};
ghost use Rattle.kp_control.specs.Word.{packed};
ghost use Rattle.kp_board.specs.Plays.{Finds};
ghost use Rattle.kp_board.specs.Decisions.{ShowsAfter, record_after};
ghost use Rattle.kp_board.specs.Posts.{posted, post_of};
ghost use Rattle.kp_board.specs.Calls.{DecidesOn};

use crate::board::Board;
use crate::message::Message;
use crate::passes::{BoardName, Pass};
use crate::plays;
use crate::word::record_of_word;
use kp_control::{decided, pack};
use kp_model::{MessageBody, Proposal};
use kp_types::Refusal;

// The word of the record that the proposal names, once the controller has followed the proposal; that record's own word where it
// is full.
fn word_after(proposal: &Proposal) -> u64
    ensures { result ≡ packed (record_after (proposal_of proposal.now).known (proposal_of proposal.now)) }
{
    match decided(&proposal.known, proposal) {
        Ok(decision) => pack(&decision.decided),
        Err(_) => pack(&proposal.known),
    }
}

impl<B: BoardName> Board<B> {
    // The record's word as it is found. Where it is that of the record which the proposal names, the record has the proposed set
    // then, unless it is full.
    fn exchange_decided(&self, pass: &mut Pass<B>, proposal: &Proposal) -> u64
        requires { pass.old.sent ≡ Proposes (proposal_of proposal.now) ∷ [] }
        ensures { (c : ModelRecord) × Finds pass.old.shown c result
            × ShowsAfter (decide_cause c (proposal_of proposal.now)) c (proposal_of proposal.now) pass.old pass.new }
    {
        proposal.known.is_in_range();
        let old = pack(&proposal.known);
        let new = word_after(proposal);
        self.table
            .shared
            .compare_exchange::<plays::DecidesOn>(&mut pass.seat, 0, old, new)
    }

    /// The controller's decision on a proposal: one event of the run decided on it. Where the record still is the one that the
    /// proposal names, it has the proposed set then, and the pass has one change more. The answer, which goes to the proposal's
    /// sender, tells the record as it is after that event, which is the one shown then; its version is above that of the one named.
    /// F24 where the record would change, but its version is at its greatest; F29 for a message that is no proposal. The message
    /// is gone then, and nothing has changed but the record shown. One exchange of word 0 and two loads, without memory or
    /// waiting. (KIP-497; own rule.)
    pub fn decide(&self, pass: &mut Pass<B>, message: Message<B>) -> Result<Message<B>, Refusal>
        ensures { DecidesOn (posted message) pass.old pass.new (post_of result) }
    {
        let (body, told) = message.into_parts();
        let MessageBody::Proposal(proposal) = body else {
            return Err(Refusal::StaleAnswer);
        };
        self.hear(pass, told);
        let found = self.exchange_decided(pass, &proposal);
        match decided(&record_of_word(found), &proposal) {
            Ok(decision) => {
                let answer = self.heard(pass);
                Ok(Message {
                    body: MessageBody::Decision(decision),
                    pass: answer,
                })
            }
            Err(refusal) => Err(refusal),
        }
    }
}
