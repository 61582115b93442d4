//! What a node does with a message that comes.

ghost use Rattle.std.specs.Prelude.{◌≡◌, ◌≢◌, ◌≤◌, max, if◌then◌else◌, Option, Err, IfOk, IfErr, IsTrue};
ghost use Rattle.kp_types.specs.declared.refusal.Refusal.TheVariants.{Down, Memory, StaleAnswer};
ghost use Rattle.kp_model.specs.Epochs.{covers};
ghost use Rattle.kp_model.specs.Calls.{cut};
ghost use Rattle.kp_model.specs.Event.{Receive, Refused};
ghost use Rattle.kp_model.specs.Letter.{Fetching, Deciding, letter, letter_of, fetch_request, decision_of};
ghost use Rattle.kp_model.specs.Effect.{is_down};
ghost use Rattle.kp_replica.specs.Broker.{node_at};
ghost use Rattle.kp_replica.specs.NumberedNode.{Does, DoesUnder};
ghost use Rattle.kp_replica.specs.Cutting.{diverging};
ghost use Rattle.kp_replica.specs.Replies.{cut_reply, learned_reply, taken_reply};
ghost use Rattle.kp_replica.specs.Taking.{carrying};
ghost use Rattle.kp_board.specs.Posts.{posted, posts_of};
ghost use Rattle.kp_node.specs.Calls.{IsMisplaced, Sent};
ghost use Rattle.kp_node.specs.MessageCalls.{Steps};

use crate::node::Node;
use kp_board::{BoardName, Message, MessagePass};
use kp_model::{Answered, Decision, EpochEnd, FetchRequest, Fetched, MessageBody};
use kp_replica::{Broker, CutBack, Learned, Taken};
use kp_types::Refusal;
use std::marker::Brand;

// Why a proposal that is handed to a node is refused: it is for the controller. F28 where the node is down, else F29. O(1).
fn misplaced(broker: &Broker) -> Refusal
    ensures { result ≡ if is_down (node_at broker.now).state.mode then Down else StaleAnswer }
{
    match broker.up() {
        Ok(_) => Refusal::StaleAnswer,
        Err(refusal) => refusal,
    }
}

impl<B: BoardName> Node<B> {
    // A request comes: batches answer it, or where the logs diverge.
    fn serve_fetch(
        &mut self,
        request: FetchRequest,
        asked: MessagePass<B>,
    ) -> Result<Message<B>, Refusal>
        requires { letter_of asked ≡ Fetching (fetch_request request) }
        ensures served { IfOk result (λ m. Sent self.old.node self.new.node (Receive asked) m.pass (letter m.body)) }
        ensures refused { IfErr result (λ refusal. Does self.old.node self.new.node (Receive asked) (Refused refusal)) }
        ensures spared { IfErr result (λ refusal. refusal ≡ Memory
            → IsTrue (covers self.old.node.state.log request.offset request.last_epoch)) }
        ensures pass { self.new.pass ≡ record self.old.pass { state = self.new.node.state; told = self.new.pass.told } }
        ensures mark { self.new.node.state.watermark ≤ self.new.pass.published }
    {
        self.board.receive(&mut self.pass, asked);
        match self.broker.serve_fetch(self.alloc, &request) {
            Ok(answer) => {
                let body = MessageBody::FetchAnswer(answer);
                let pass = self
                    .board
                    .load_end_sending::<Brand, Broker, MessageBody>(
                        &mut self.pass,
                        &self.broker,
                        &body,
                    );
                Ok(Message { body, pass })
            }
            Err(refusal) => {
                self.board
                    .load_end::<Brand, Broker>(&mut self.pass, &self.broker);
                Err(refusal)
            }
        }
    }

    // Batches come, which look at no record: the end word and the mark word follow. Where memory is refused the node is down.
    fn take(
        &mut self,
        request: &FetchRequest,
        fetched: &Fetched,
        sent: MessagePass<B>,
    ) -> Result<Taken, Refusal>
        requires { letter_of sent ≡ Fetching (carrying request.now fetched.now) }
        ensures event { Does self.old.node self.new.node (Receive sent) (taken_reply result) }
        ensures pass { self.new.pass ≡ record self.old.pass {
          state = self.new.node.state;
          published = max self.old.pass.published self.new.node.state.watermark;
          told = self.new.pass.told;
        } }
    {
        self.board.receive(&mut self.pass, sent);
        let taken = self.broker.take(request, fetched);
        let end = self.broker.log().end_offset();
        self.board
            .store_end::<Brand, Broker>(&mut self.pass, end, &self.broker);
        let watermark = self.broker.watermark();
        self.board.publish_mark::<Brand>(&mut self.pass, watermark);
        taken
    }

    // A diverging answer comes: the log is cut under the record that the node finds, and the end word follows.
    fn cut(
        &mut self,
        request: &FetchRequest,
        end: Option<EpochEnd>,
        sent: MessagePass<B>,
    ) -> Result<CutBack, Refusal>
        requires { letter_of sent ≡ Fetching (diverging request.now end) }
        ensures event { DoesUnder self.new.pass.shown self.old.node self.new.node (Receive sent) (cut_reply result) }
        ensures place { self.new.node.state
            ≡ (cut self.new.pass.shown self.old.node.number self.old.node.state (diverging request.now end)).node }
        ensures spared { result ≢ Err Memory }
        ensures later { self.old.pass.shown.version ≤ self.new.pass.shown.version }
        ensures pass { self.new.pass ≡ record self.old.pass {
          state = self.new.node.state;
          shown = self.new.pass.shown;
          told = self.new.pass.told;
        } }
        ensures mark { self.new.node.state.watermark ≤ self.new.pass.published }
    {
        self.board.receive(&mut self.pass, sent);
        let answered = (*request, end);
        let record = self
            .board
            .step_under_record::<Brand, (FetchRequest, Option<EpochEnd>)>(
                &mut self.pass,
                &answered,
            );
        let cut = self.broker.cut(&record, request, end);
        let end = self.broker.log().end_offset();
        self.board.publish_end(&mut self.pass, end);
        cut
    }

    // A message comes that is for no node, as a proposal is for the controller.
    fn turn_away(&mut self, sent: MessagePass<B>) -> Refusal
        requires { IsMisplaced sent }
        ensures refused { Does self.old.node self.new.node (Receive sent) (Refused result) }
        ensures spared { result ≢ Memory }
        ensures pass { self.new.pass ≡ record self.old.pass { state = self.new.node.state; told = self.new.pass.told } }
        ensures mark { self.new.node.state.watermark ≤ self.new.pass.published }
    {
        self.board.receive(&mut self.pass, sent);
        let refusal = misplaced(&self.broker);
        self.board
            .load_end::<Brand, Broker>(&mut self.pass, &self.broker);
        refusal
    }

    // A decision comes, from which a leader learns.
    fn learn(&mut self, decision: &Decision, sent: MessagePass<B>) -> Result<Learned, Refusal>
        requires { letter_of sent ≡ Deciding (decision_of decision.now) }
        ensures event { Does self.old.node self.new.node (Receive sent) (learned_reply result) }
        ensures spared { result ≢ Err Memory }
        ensures later { self.old.pass.shown.version ≤ self.new.pass.shown.version }
        ensures pass { self.new.pass ≡ record self.old.pass {
          state = self.new.node.state;
          shown = self.new.pass.shown;
          told = self.new.pass.told;
        } }
        ensures mark { self.new.node.state.watermark ≤ self.new.pass.published }
    {
        self.board.receive(&mut self.pass, sent);
        let learned = self.broker.learn(decision);
        let _record = self
            .board
            .step_under_record::<Brand, Broker>(&mut self.pass, &self.broker);
        learned
    }

    /// A message comes to the node. A leader answers a request, with batches or, where its log hasn't all of the asker's, with
    /// where they diverge: the answer's pass shows the very message that was sent. A follower takes in an answer: batches, whose
    /// watermark its mark word follows, or a cut of its log, under the controller's record that a load of word 0 finds. A leader
    /// learns from a decision, by a load of word 0. F28 where the node is down; F29 for a proposal, which is for the controller; for
    /// what else is refused, and for the cost, see `serve_fetch`, `take_fetch` and `learn` of `Replica`. F33 comes at batches alone,
    /// and at a request that the leader's log covers. At batches it leaves the node down; every other refusal leaves the replica as it
    /// was. (Kafka protocol guide, 'Fetch', 'AlterPartition'; KIP-101,
    /// KIP-279, KIP-320, KIP-497; KIP-595's truncation on fetch is the idea's source, the profile is our own.)
    pub fn step(&mut self, message: Message<B>) -> Result<Option<Message<B>>, Refusal>
        ensures { Steps (posted message) self.old self.new (posts_of result) }
    {
        let (body, pass) = message.into_parts();
        match body {
            MessageBody::FetchRequest(request) => match self.serve_fetch(request, pass) {
                Ok(answer) => Ok(Some(answer)),
                Err(refusal) => Err(refusal),
            },
            MessageBody::FetchAnswer(answer) => match &answer.answered {
                Answered::Batches(fetched) => match self.take(&answer.request, fetched, pass) {
                    Ok(_taken) => Ok(None),
                    Err(refusal) => Err(refusal),
                },
                Answered::Diverging(end) => match self.cut(&answer.request, end.end(), pass) {
                    Ok(_cut) => Ok(None),
                    Err(refusal) => Err(refusal),
                },
            },
            MessageBody::Proposal(_) => Err(self.turn_away(pass)),
            MessageBody::Decision(decision) => match self.learn(&decision, pass) {
                Ok(_learned) => Ok(None),
                Err(refusal) => Err(refusal),
            },
        }
    }
}
