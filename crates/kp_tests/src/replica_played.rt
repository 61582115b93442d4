//! Nodes that are played by hand: each call of a node, and each message between them, in a chosen order.

use crate::logs::{LIMITS, batch_of};
use crate::world_tests::bytes_of;
use kp_batch::Batch;
use kp_control::{decided, elected};
use kp_log::PartitionLog;
use kp_model::{
    Answered, DivergingEpoch, EpochEnd, FetchAnswer, FetchRequest, Fetched, LeaderAndIsr,
    MessageBody, NodeSet, Proposal,
};
use kp_replica::{Act, Answer, Broker, Effect, IsrChange, PlainAct, Role};
use kp_types::{Epoch, NodeId, Offset, Refusal};
use std::alloc::{AllocError, Global};
use std::sync::Arc;

/// Batches of these base offsets, leader epochs and words.
type Batches = &'static [(Offset, Epoch, &'static str)];

/// What a request shows: its leader epoch, its log's end, and its log's last epoch.
type Asked = (Epoch, Offset, Option<Epoch>);

/// What happens next.
#[derive(Clone, Copy)]
pub(crate) enum Call {
    Elect(NodeId),
    /// The record and that before its last change change places.
    SwapRecords,
    Adopt(NodeId),
    /// A client hands the node the batch of a word.
    Append(NodeId, &'static str),
    /// The node asks its leader.
    Ask(NodeId),
    /// The message of this number gets to where it goes. It stays, and may come again.
    Deliver(usize),
    /// The message of this number gets to this node, whoever it is for.
    Hand(NodeId, usize),
    /// Node 0 gets such a request of node 1.
    Fetch(Epoch, Offset, Option<Epoch>),
    /// Node 1 gets an answer that no leader made: to such a request, with these batches and this watermark.
    Take(Asked, Batches, Offset),
    /// Node 1 gets an answer that no leader made: to such a request of this life, that the logs diverge, with this end.
    Part(Asked, u64, Option<(Epoch, Offset)>),
    Raise(NodeId),
    /// The node, a leader, asks for a change of the in-sync replicas.
    Alter(NodeId, IsrChange),
    Checkpoint(NodeId),
    Stop(NodeId),
    Restart(NodeId),
    Show(NodeId),
}

/// The controller's record, that before its last change, the nodes, each in its place, and all messages that were sent.
#[derive(Drop)]
struct Play {
    record: LeaderAndIsr,
    before: LeaderAndIsr,
    nodes: Vec<Broker>,
    mail: Vec<MessageBody>,
}

fn broker(nodes: &mut Vec<Broker>, node: NodeId) -> Result<&mut Broker, Refusal> {
    let index = usize::from(node);
    if index < nodes.len() {
        return Ok(&mut nodes[index]);
    }
    Err(Refusal::BadCount)
}

pub(crate) fn push_record(text: &mut String, record: &LeaderAndIsr) -> Result<(), AllocError> {
    let version = record.version;
    match record.leader {
        Some(leader) => {
            let (node, epoch) = (leader.node, leader.epoch);
            write!(text, "record leader {node} epoch {epoch} version {version}")
        }
        None => write!(text, "record leader none version {version}"),
    }
}

pub(crate) fn push_role(text: &mut String, role: Role) -> Result<(), AllocError> {
    match role {
        Role::Leads { epoch, start } => write!(text, "leads epoch {epoch} from {start}"),
        Role::Follows { leader, epoch } => write!(text, "follows {leader} epoch {epoch}"),
    }
}

/// Appends the in-sync replicas of this version.
pub(crate) fn push_isr(text: &mut String, isr: &NodeSet, version: u32) -> Result<(), AllocError> {
    text.push_str("isr")?;
    for node in 0..7 {
        if isr.contains(node) {
            write!(text, " {node}")?;
        }
    }
    write!(text, " version {version}")
}

fn push_request(text: &mut String, request: &FetchRequest) -> Result<(), AllocError> {
    match request.last_epoch {
        Some(epoch) => write!(text, "asks from {} epoch {epoch}", request.offset),
        None => write!(text, "asks from {} no epoch", request.offset),
    }
}

fn push_answered(text: &mut String, answered: &Answered) -> Result<(), AllocError> {
    match answered {
        Answered::Batches(fetched) => {
            let (count, watermark) = (fetched.batches.len(), fetched.watermark);
            write!(text, "batches {count} mark {watermark}")
        }
        Answered::Diverging(diverging) => match diverging.end() {
            Some(found) => write!(text, "diverges epoch {} end {}", found.epoch, found.end),
            None => text.push_str("diverges no epoch"),
        },
    }
}

fn push_proposal(text: &mut String, proposal: &Proposal) -> Result<(), AllocError> {
    text.push_str("proposes ")?;
    push_isr(text, &proposal.isr, proposal.known.version)
}

pub(crate) fn push_body(text: &mut String, body: &MessageBody) -> Result<(), AllocError> {
    match body {
        MessageBody::FetchRequest(request) => push_request(text, request),
        MessageBody::FetchAnswer(answer) => push_answered(text, &answer.answered),
        MessageBody::Proposal(proposal) => push_proposal(text, proposal),
        MessageBody::Decision(decision) => push_record(text, &decision.decided),
    }
}

fn push_batch(text: &mut String, batch: &Batch) -> Result<(), AllocError> {
    let (base, time) = (batch.base_offset(), batch.base_timestamp());
    match batch.leader_epoch() {
        Some(epoch) => write!(text, ", {base} epoch {epoch} time {time}"),
        None => write!(text, ", {base} time {time}"),
    }
}

// Where a node's log ends, its watermark and how often it was restarted; and of each batch its base offset, leader epoch
// and time.
fn push_log(
    text: &mut String,
    log: &PartitionLog,
    watermark: Offset,
    life: u64,
) -> Result<(), AllocError> {
    write!(
        text,
        "end {} mark {watermark} life {life}",
        log.end_offset()
    )?;
    for batch in log.batches() {
        push_batch(text, batch)?;
    }
    Ok(())
}

fn push_node(text: &mut String, node: &Broker) -> Result<(), AllocError> {
    if let Broker::Down(_) = node {
        text.push_str("down, ")?;
    }
    push_log(text, node.log(), node.watermark(), node.life())
}

// What a node answers; of one that starts again, its log.
fn push_answer(text: &mut String, node: &Broker, answer: &Answer) -> Result<(), AllocError> {
    match answer {
        Answer::Adopted(role) => push_role(text, *role),
        Answer::Appended(receipt) => write!(text, "at {}", receipt.base),
        Answer::Took(taken) => write!(text, "end {} mark {}", taken.end, taken.watermark),
        Answer::Cut(cut) => write!(text, "cut {}", cut.end),
        Answer::Learned(learned) => push_isr(text, &learned.isr, learned.version),
        Answer::Watermark(watermark) => write!(text, "mark {watermark}"),
        Answer::Checkpoint(checkpoint) => write!(text, "checkpoint {checkpoint}"),
        Answer::Stopped => text.push_str("stopped"),
        _ => push_node(text, node),
    }
}

fn fetch_request(asked: Asked, life: u64) -> FetchRequest {
    let (epoch, offset, last_epoch) = asked;
    FetchRequest {
        from: 1,
        to: 0,
        life,
        epoch,
        offset,
        last_epoch,
    }
}

/// Appends what was sent, and its number.
pub(crate) fn push_sent(
    text: &mut String,
    number: usize,
    body: &MessageBody,
) -> Result<(), AllocError> {
    write!(text, "sent {number} ")?;
    push_body(text, body)
}

fn forge(alloc: Global, batches: Batches) -> Result<Vec<Batch>, Refusal> {
    let mut forged = Vec::new(alloc);
    for (base, epoch, word) in batches {
        forged.push(batch_of(alloc, word)?.stamp(*base, *epoch & 0xff))?;
    }
    Ok(forged)
}

impl Play {
    // So many idle nodes with empty logs. There is room for 32 messages.
    fn new(alloc: Global, count: NodeId) -> Result<Play, Refusal> {
        let count = count.min(7);
        let mut nodes = Vec::new(alloc);
        for number in 0..count {
            nodes.push(Broker::new(alloc, number, &LIMITS))?;
        }
        Ok(Play {
            record: LeaderAndIsr::initial(count),
            before: LeaderAndIsr::initial(count),
            nodes,
            mail: Vec::with_capacity(alloc, 32)?,
        })
    }

    fn change(&mut self, text: &mut String, record: LeaderAndIsr) -> Result<(), Refusal> {
        self.before = self.record;
        self.record = record;
        Ok(push_record(text, &record)?)
    }

    fn send(&mut self, text: &mut String, body: MessageBody) -> Result<(), Refusal> {
        push_sent(text, self.mail.len(), &body)?;
        Ok(self.mail.push(body)?)
    }

    fn tell_answer(
        &mut self,
        text: &mut String,
        node: NodeId,
        answer: &Answer,
    ) -> Result<(), Refusal> {
        let broker = broker(&mut self.nodes, node)?;
        Ok(push_answer(text, broker, answer)?)
    }

    // What came of it is carried out, and told.
    fn tell(&mut self, text: &mut String, node: NodeId, effect: Effect) -> Result<(), Refusal> {
        match effect {
            Effect::Answers(answer) => self.tell_answer(text, node, &answer),
            Effect::Sends(body) => self.send(text, body),
        }
    }

    fn act(
        &mut self,
        alloc: Global,
        text: &mut String,
        node: NodeId,
        act: Act,
    ) -> Result<(), Refusal> {
        let effect = broker(&mut self.nodes, node)?.act(alloc, &self.record, act)?;
        self.tell(text, node, effect)
    }

    fn receive(
        &mut self,
        alloc: Global,
        text: &mut String,
        node: NodeId,
        body: &MessageBody,
    ) -> Result<(), Refusal> {
        let effect = broker(&mut self.nodes, node)?.receive(alloc, &self.record, body)?;
        self.tell(text, node, effect)
    }

    // The proposal comes to the controller.
    fn decide(&mut self, text: &mut String, proposal: &Proposal) -> Result<(), Refusal> {
        let decision = decided(&self.record, proposal)?;
        if decision.decided != self.record {
            self.before = self.record;
            self.record = decision.decided;
        }
        self.send(text, MessageBody::Decision(decision))
    }

    fn deliver(&mut self, alloc: Global, text: &mut String, number: usize) -> Result<(), Refusal> {
        let Some(body) = self.mail.get(number) else {
            return Err(Refusal::BadCount);
        };
        if let MessageBody::Proposal(proposal) = body {
            let proposal = *proposal;
            return self.decide(text, &proposal);
        }
        let node = body.addressee().ok_or(Refusal::BadCount)?;
        self.hand(alloc, text, node, number)
    }

    // The message comes to this node, whoever it is for.
    fn hand(
        &mut self,
        alloc: Global,
        text: &mut String,
        node: NodeId,
        number: usize,
    ) -> Result<(), Refusal> {
        let Some(body) = self.mail.get(number) else {
            return Err(Refusal::BadCount);
        };
        let effect = broker(&mut self.nodes, node)?.receive(alloc, &self.record, body)?;
        self.tell(text, node, effect)
    }

    // Node 1 gets this answer.
    fn hear(
        &mut self,
        alloc: Global,
        text: &mut String,
        request: FetchRequest,
        answered: Answered,
    ) -> Result<(), Refusal> {
        let answer = FetchAnswer { request, answered };
        self.receive(alloc, text, 1, &MessageBody::FetchAnswer(answer))
    }

    fn plain(
        &mut self,
        alloc: Global,
        text: &mut String,
        node: NodeId,
        act: PlainAct,
    ) -> Result<(), Refusal> {
        self.act(alloc, text, node, Act::Plain(act))
    }

    fn elect(&mut self, text: &mut String, node: NodeId) -> Result<(), Refusal> {
        let elected = elected(&self.record, node)?;
        self.change(text, elected)
    }

    fn append(
        &mut self,
        alloc: Global,
        text: &mut String,
        node: NodeId,
        word: &str,
    ) -> Result<(), Refusal> {
        let bytes = bytes_of(alloc, word)?;
        self.act(alloc, text, node, Act::Produce { bytes })
    }

    fn take(
        &mut self,
        alloc: Global,
        text: &mut String,
        asked: Asked,
        batches: Batches,
        watermark: Offset,
    ) -> Result<(), Refusal> {
        let fetched = Fetched::new(Arc::new(alloc, forge(alloc, batches)?)?, watermark)?;
        let request = fetch_request(asked, 0);
        self.hear(alloc, text, request, Answered::Batches(fetched))
    }

    fn show(&mut self, text: &mut String, node: NodeId) -> Result<(), Refusal> {
        let broker = broker(&mut self.nodes, node)?;
        Ok(push_node(text, broker)?)
    }

    // Gives node 1 an answer that no leader made, or node 0 a request, and appends what comes of it.
    fn forged(&mut self, alloc: Global, text: &mut String, call: &Call) -> Result<(), Refusal> {
        match call {
            Call::Fetch(epoch, offset, last) => {
                let request = fetch_request((*epoch, *offset, *last), 0);
                self.receive(alloc, text, 0, &MessageBody::FetchRequest(request))
            }
            Call::Take(asked, batches, watermark) => {
                self.take(alloc, text, *asked, batches, *watermark)
            }
            Call::Part(asked, life, end) => {
                let end = end.map(|(epoch, end)| EpochEnd { epoch, end });
                let request = fetch_request(*asked, *life);
                let diverging = DivergingEpoch::new(end);
                self.hear(alloc, text, request, Answered::Diverging(diverging))
            }
            _ => Err(Refusal::BadCount),
        }
    }

    // Makes the call, and appends what it answers.
    fn answer(&mut self, alloc: Global, text: &mut String, call: &Call) -> Result<(), Refusal> {
        match call {
            Call::Elect(node) => self.elect(text, *node),
            Call::SwapRecords => self.change(text, self.before),
            Call::Adopt(node) => self.plain(alloc, text, *node, PlainAct::Adopt),
            Call::Append(node, word) => self.append(alloc, text, *node, word),
            Call::Ask(node) => self.plain(alloc, text, *node, PlainAct::Ask),
            Call::Deliver(number) => self.deliver(alloc, text, *number),
            Call::Hand(node, number) => self.hand(alloc, text, *node, *number),
            Call::Fetch(..) | Call::Take(..) | Call::Part(..) => self.forged(alloc, text, call),
            Call::Raise(node) => self.plain(alloc, text, *node, PlainAct::Raise),
            Call::Alter(node, change) => {
                let change = *change;
                self.plain(alloc, text, *node, PlainAct::Alter { change })
            }
            Call::Checkpoint(node) => self.plain(alloc, text, *node, PlainAct::Checkpoint),
            Call::Stop(node) => self.plain(alloc, text, *node, PlainAct::Stop),
            Call::Restart(node) => self.plain(alloc, text, *node, PlainAct::Restart),
            Call::Show(node) => self.show(text, *node),
        }
    }

    // Of these calls none may be refused.
    fn answer_all(
        &mut self,
        alloc: Global,
        text: &mut String,
        calls: &[Call],
    ) -> Result<(), Refusal> {
        for call in calls {
            self.answer(alloc, text, call)?;
        }
        Ok(())
    }

    // The text is what the second calls answer, a line for each, once the first were made.
    fn tell_all(
        &mut self,
        alloc: Global,
        text: &mut String,
        first: &[Call],
        then: &[Call],
    ) -> Result<(), Refusal> {
        self.answer_all(alloc, text, first)?;
        text.clear();
        for call in then {
            if let Err(refusal) = self.answer(alloc, text, call) {
                write!(text, "{refusal}")?;
            }
            text.push('\n')?;
        }
        Ok(())
    }
}

/// What the second calls answer, a line for each, once so many nodes have made the first, of which none may be refused.
/// The text has its room before any call, so that what is refused memory from then on is a batch's bytes or a node.
pub(crate) fn played(
    alloc: Global,
    count: NodeId,
    first: &[Call],
    then: &[Call],
) -> Result<String, Refusal> {
    let mut play = Play::new(alloc, count)?;
    let mut text = String::with_capacity(alloc, 4096)?;
    play.tell_all(alloc, &mut text, first, then)?;
    Ok(text)
}
