//! A node, up or down, as one value: what it is asked, and what comes to it.

use crate::act::{Act, Answer, Effect, PlainAct};
use crate::kept::KeptNode;
use crate::reading::Status;
use crate::replica::Replica;
use kp_batch::Handed;
use kp_log::PartitionLog;
use kp_model::{Answered, LeaderAndIsr, MessageBody};
use kp_types::{Epoch, Limits, NodeId, Offset, Refusal};
use std::alloc::Global;

/// A broker node: up, or down with what it keeps.
#[derive(Drop)]
pub enum Broker {
    Up(Replica),
    Down(KeptNode),
}

impl Broker {
    ghost use Rattle.std.specs.Prelude.{◌≡◌, ◌≢◌, ◌≤◌, IfOk, Result};
    ghost use Rattle.kp_types.specs.declared.refusal.Refusal.{Refusal};
    ghost use Rattle.kp_types.specs.declared.refusal.Refusal.TheVariants.{Memory};
    ghost use Rattle.kp_batch.specs.Batch.{Body};
    ghost use Rattle.kp_model.specs.Event.{Act as ModelAct, Produce, Receive};
    ghost use Rattle.kp_model.specs.Letter.{letter, letter_of};
    ghost use Rattle.kp_model.specs.Log.{IsBoundary};
    ghost use Rattle.kp_model.specs.World.{LeaderAndIsr as ModelRecord, Message, fresh};
    ghost use Rattle.kp_model.specs.Set.{record_of};
    ghost use Rattle.kp_replica.specs.Acts.{Acts, Fits, FitsPlain, IsAct, IsAppended, Refuses, TakesNoMemory, plain_act};
    ghost use Rattle.kp_replica.specs.Broker.{node_at};
    ghost use Rattle.kp_replica.specs.Replies.{IsOffer};
    ghost use Rattle.kp_replica.specs.Status.{status_of};

    /// A node that is up and idle, with an empty log. No memory.
    pub fn new(alloc: Global, number: NodeId, limits: &Limits) -> Broker
        ensures { node_at result ≡ record { number = number; limits = limits.now; state = fresh } }
    {
        Broker::Up(Replica::new(alloc, number, limits))
    }

    /// The node's log, settled up to its high watermark, which is a boundary of it. O(1).
    pub fn log(&self) -> &PartitionLog
        ensures value { result.now ≡ record {
          limits = (node_at self.now).limits;
          log = (node_at self.now).state.log;
          settled = (node_at self.now).state.watermark;
        } }
        ensures boundary { IsBoundary (node_at self.now).state.log (node_at self.now).state.watermark }
    {
        match self {
            Broker::Up(replica) => replica.log(),
            Broker::Down(kept) => kept.log(),
        }
    }

    /// The node's high watermark, which has passed its checkpoint; of one that is down, that at which it went down. O(1).
    pub fn watermark(&self) -> Offset
        ensures value { result ≡ (node_at self.now).state.watermark }
        ensures passed { (node_at self.now).state.checkpoint ≤ result }
    {
        match self {
            Broker::Up(replica) => replica.watermark(),
            Broker::Down(kept) => kept.watermark(),
        }
    }

    /// How often the node has been restarted. O(1).
    pub fn life(&self) -> u64
        ensures { result ≡ (node_at self.now).state.life }
    {
        match self {
            Broker::Up(replica) => replica.life(),
            Broker::Down(kept) => kept.life(),
        }
    }

    /// What the node is. O(1).
    pub fn status(&self) -> Status
        ensures { result ≡ status_of (node_at self.now).state.mode }
    {
        match self {
            Broker::Up(replica) => replica.status(),
            Broker::Down(kept) => kept.status(),
        }
    }

    /// The leader epoch that the node last took up; none where it has taken up none. O(1).
    pub fn kept_epoch(&self) -> Option<Epoch>
        ensures { result ≡ (node_at self.now).state.kept }
    {
        match self {
            Broker::Up(replica) => replica.kept_epoch(),
            Broker::Down(kept) => kept.kept_epoch(),
        }
    }

    /// The high watermark that the node last noted, from which a restart begins. O(1).
    pub fn checkpoint_offset(&self) -> Offset
        ensures { result ≡ (node_at self.now).state.checkpoint }
    {
        match self {
            Broker::Up(replica) => replica.checkpoint_offset(),
            Broker::Down(kept) => kept.checkpoint(),
        }
    }

    /// A client's bytes come to the node. The cost is that of `Replica::produce`.
    fn append(&mut self, bytes: Handed) -> Result<Effect, Refusal>
        ensures acts { (shown : ModelRecord) (offer : Result Body Refusal)
            → IsOffer (node_at self.old).limits.max_batch bytes offer
            → Acts shown (node_at self.old) (node_at self.new) (Produce offer) result }
        ensures spared { (offer : Result Body Refusal)
            → IsOffer (node_at self.old).limits.max_batch bytes offer
            → TakesNoMemory (node_at self.old).state (Produce offer) → result ≢ Err Memory }
        ensures fits { IfOk result (IsAppended (node_at self.old) (node_at self.new) bytes) }
    {
        let answered = self.produce(bytes).map(Answer::Appended);
        answered.map(Effect::Answers)
    }

    /// The node does what is handed no bytes, under this record of the controller.
    #[inline(never)]
    fn perform(
        &mut self,
        alloc: Global,
        controller: &LeaderAndIsr,
        act: PlainAct,
    ) -> Result<Effect, Refusal>
        ensures acts { Acts (record_of controller.now) (node_at self.old) (node_at self.new)
            (plain_act act) result }
        ensures spared { TakesNoMemory (node_at self.old).state (plain_act act) → result ≢ Err Memory }
        ensures fits { IfOk result (FitsPlain act (node_at self.new)) }
    {
        let answered = match act {
            PlainAct::Ask => return self.ask().map(Effect::Sends),
            PlainAct::Alter { change } => return self.alter(change).map(Effect::Sends),
            PlainAct::Adopt => self.adopt(controller).map(Answer::Adopted),
            PlainAct::Mark { marker } => self.mark(alloc, &marker).map(Answer::Appended),
            PlainAct::Raise => self.raise().map(Answer::Watermark),
            PlainAct::Checkpoint => self.checkpoint().map(Answer::Checkpoint),
            PlainAct::Stop => self.stop(),
            PlainAct::Restart => self.restart(alloc),
            PlainAct::Show => self.show().map(Answer::Shown),
            PlainAct::Read { from } => self.read(alloc, from).map(Answer::Lines),
            PlainAct::Committed { from } => self.committed(alloc, from).map(Answer::Lines),
        };
        answered.map(Effect::Answers)
    }

    /// The node does this, under this record of the controller, at which [`PlainAct::Adopt`] alone looks. F28 where the node is
    /// down, but for its restart; for what else is refused, and for the cost, see the call of [`Replica`] of that name.
    pub fn act(
        &mut self,
        alloc: Global,
        controller: &LeaderAndIsr,
        act: Act,
    ) -> Result<Effect, Refusal>
        ensures acts { (a : ModelAct) → IsAct (node_at self.old).limits.max_batch act a
            → Acts (record_of controller.now) (node_at self.old) (node_at self.new) a result }
        ensures spared { (a : ModelAct) → IsAct (node_at self.old).limits.max_batch act a
            → TakesNoMemory (node_at self.old).state a → result ≢ Err Memory }
        ensures fits { IfOk result (Fits act (node_at self.old) (node_at self.new)) }
    {
        match act {
            Act::Produce { bytes } => self.append(bytes),
            Act::Plain(act) => self.perform(alloc, controller, act),
        }
    }

    /// The message comes to the node, under this record of the controller, at which a diverging answer alone looks. F28 where
    /// the node is down; for what else is refused, and for the cost, see `serve_fetch`, `take`, `cut` and `learn`.
    /// Where memory is refused in a take (F33) the node is down. A proposal is for the controller: F29, and it costs O(1).
    pub fn receive(
        &mut self,
        alloc: Global,
        controller: &LeaderAndIsr,
        body: &MessageBody,
    ) -> Result<Effect, Refusal>
        ensures acts { (m : Message) → letter_of m ≡ letter body.now
            → Acts (record_of controller.now) (node_at self.old) (node_at self.new) (Receive m) result }
        ensures refused { (m : Message) → letter_of m ≡ letter body.now
            → Refuses (record_of controller.now) (node_at self.old) (node_at self.new) (Receive m) result }
        ensures spared { (m : Message) → letter_of m ≡ letter body.now
            → TakesNoMemory (node_at self.old).state (Receive m) → result ≢ Err Memory }
    {
        match body {
            MessageBody::FetchRequest(request) => {
                let answer = self.serve_fetch(alloc, request)?;
                Ok(Effect::Sends(MessageBody::FetchAnswer(answer)))
            }
            MessageBody::FetchAnswer(answer) => match &answer.answered {
                Answered::Batches(fetched) => {
                    let took = self.take(&answer.request, fetched).map(Answer::Took);
                    took.map(Effect::Answers)
                }
                Answered::Diverging(end) => {
                    let cut = self
                        .cut(controller, &answer.request, end.end())
                        .map(Answer::Cut);
                    cut.map(Effect::Answers)
                }
            },
            MessageBody::Proposal(_) => {
                self.up()?;
                Err(Refusal::StaleAnswer)
            }
            MessageBody::Decision(decision) => {
                let learned = self.learn(decision).map(Answer::Learned);
                learned.map(Effect::Answers)
            }
        }
    }
}
