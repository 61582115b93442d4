//! Nodes with passes of one board, that are played by hand: each call of a node, and each message, in a chosen order.

ghost use Rattle.std.specs.Prelude.{◌≡◌};

use crate::logs::LIMITS;
use crate::node_consumed::{tell_end, tell_fetched, tell_found, tell_state};
use crate::node_described::{tell_known, tell_log, tell_open, tell_producer};
use crate::replica_played::{push_isr, push_record, push_role, push_sent};
use crate::shown::push_bytes;
use crate::world_tests::{MARKER, bytes_of};
use kp_batch::Batch;
use kp_board::{Board, BoardName, FreshPass, Message, Opened, Pass};
use kp_marker::HandedMarker;
use kp_model::LeaderAndIsr;
use kp_node::{Ack, Isolation, Node};
use kp_replica::{Answer, IsrChange, Receipt};
use kp_types::{Epoch, NodeId, Offset, Refusal};
use std::alloc::{AllocError, Global};
use std::marker::Brand;
use std::sync::Arc;

/// What happens next.
#[derive(Clone, Copy)]
pub(crate) enum Turn {
    Elect(NodeId),
    /// The record that the board shows.
    Record,
    /// Its in-sync replicas.
    InSync,
    /// The watermark that the board shows of the node.
    Watermark(NodeId),
    Adopt(NodeId),
    /// A client hands the node the batch of a word.
    Append(NodeId, &'static str),
    /// A transaction coordinator hands the node a marker.
    Mark(NodeId),
    /// The newest receipt.
    Receipt,
    /// Whether the batch of the newest receipt is committed.
    Acked(NodeId),
    Read(NodeId, Offset),
    /// The bytes of what is read.
    ReadBytes(NodeId, Offset),
    /// A consumer's fetch from this offset, of so many bytes and at least a batch.
    Fetch(NodeId, Offset, u32, Isolation),
    /// Where the first record of this time or a later one stands, as a consumer is shown it.
    OffsetForTime(NodeId, u64, Isolation),
    /// Where this leader epoch ends.
    EndFor(NodeId, Epoch),
    /// What the node tells of itself.
    Show(NodeId),
    /// What it knows as a leader.
    Known(NodeId),
    /// What its log has of this producer.
    Producer(NodeId, u64),
    /// The transactions that are open in its log.
    Open(NodeId),
    /// Its log from this offset on, so many bytes of it and at least a batch.
    LogFrom(NodeId, Offset, u32),
    Ask(NodeId),
    /// The message of this number gets to where it goes. It stays, and may come again.
    Deliver(usize),
    /// The message of this number gets to this node, whoever it is for.
    Hand(NodeId, usize),
    /// The message of this number gets to the controller, whoever it is for.
    Decide(usize),
    Raise(NodeId),
    Alter(NodeId, IsrChange),
    Checkpoint(NodeId),
    Stop(NodeId),
    Restart(NodeId),
}

/// A board, the pass of its controller, its nodes, each in its place, one caller with its newest receipt, and all messages that were sent.
#[derive(Drop)]
struct Seats<B: BoardName> {
    alloc: Global,
    board: Arc<Board<B>, Global>,
    controller: Pass<B>,
    nodes: Vec<Node<B>>,
    mail: Vec<Message<B>>,
    receipt: Option<Receipt>,
}

/// How many batches, and of each its base offset and base timestamp.
pub(crate) fn push_batches(text: &mut String, batches: &[Batch]) -> Result<(), AllocError> {
    write!(text, "batches {}", batches.len())?;
    for batch in batches {
        let (base, time) = (batch.base_offset(), batch.base_timestamp());
        write!(text, ", {base} time {time}")?;
    }
    Ok(())
}

// The batches as they are written, a word each.
fn push_written(alloc: Global, text: &mut String, batches: &[Batch]) -> Result<(), Refusal> {
    text.push_str("bytes")?;
    for batch in batches {
        let mut out = Vec::new(alloc);
        batch.write(&mut out)?;
        text.push(' ')?;
        push_bytes(text, Some(out.as_slice()))?;
    }
    Ok(())
}

fn push_restarted(text: &mut String, answer: &Answer) -> Result<(), AllocError> {
    if let Answer::Restarted {
        life,
        end,
        watermark,
    } = answer
    {
        write!(text, "life {life} end {end} mark {watermark}")?;
    }
    Ok(())
}

fn node_of<B: BoardName>(
    alloc: Global,
    board: &Arc<Board<B>, Global>,
    pass: FreshPass<B>,
) -> Result<Node<B>, Refusal> {
    let board = Arc::try_clone(board)?;
    Ok(Node::new(alloc, board, pass, &LIMITS))
}

// A node for each pass.
fn nodes_of<B: BoardName>(
    alloc: Global,
    board: &Arc<Board<B>, Global>,
    passes: Vec<FreshPass<B>>,
) -> Result<Vec<Node<B>>, Refusal> {
    let mut nodes = Vec::new(alloc);
    for pass in passes {
        nodes.push(node_of(alloc, board, pass)?)?;
    }
    Ok(nodes)
}

fn tell_record(text: &mut String, record: Result<LeaderAndIsr, Refusal>) -> Result<(), Refusal> {
    Ok(push_record(text, &record?)?)
}

fn tell_mark(text: &mut String, watermark: Result<Offset, Refusal>) -> Result<(), Refusal> {
    Ok(write!(text, "mark {}", watermark?)?)
}

fn tell_receipt(text: &mut String, receipt: &Receipt) -> Result<(), AllocError> {
    let how = if receipt.duplicate { "duplicate" } else { "at" };
    write!(text, "{how} {}", receipt.base)
}

// Which offsets it names, and in which leader epoch.
fn tell_newest(text: &mut String, receipt: Option<Receipt>) -> Result<(), Refusal> {
    let receipt = receipt.ok_or(Refusal::BadCount)?;
    let (base, last, epoch) = (receipt.base, receipt.last, receipt.epoch);
    Ok(write!(text, "receipt {base} to {last} epoch {epoch}")?)
}

fn tell_in_sync(text: &mut String, record: &LeaderAndIsr) -> Result<(), Refusal> {
    Ok(push_isr(text, &record.isr, record.version)?)
}

fn name_of(ack: Ack) -> &'static str {
    match ack {
        Ack::Yes => "yes",
        Ack::Lost => "lost",
        Ack::NotYet => "not yet",
    }
}

fn tell_restart<B: BoardName>(text: &mut String, node: &mut Node<B>) -> Result<(), Refusal> {
    let answer = node.restart()?;
    Ok(push_restarted(text, &answer)?)
}

fn tell_stop<B: BoardName>(text: &mut String, node: &mut Node<B>) -> Result<(), Refusal> {
    node.stop()?;
    Ok(text.push_str("stopped")?)
}

fn tell_checkpoint<B: BoardName>(text: &mut String, node: &mut Node<B>) -> Result<(), Refusal> {
    let checkpoint = node.checkpoint()?;
    Ok(write!(text, "checkpoint {checkpoint}")?)
}

fn tell_role<B: BoardName>(text: &mut String, node: &mut Node<B>) -> Result<(), Refusal> {
    let role = node.adopt()?;
    Ok(push_role(text, role)?)
}

// What the node answers to a call that needs nothing but itself.
fn tell_call<B: BoardName>(
    text: &mut String,
    node: &mut Node<B>,
    turn: &Turn,
) -> Result<(), Refusal> {
    match turn {
        Turn::Adopt(_) => tell_role(text, node),
        Turn::Raise(_) => tell_mark(text, node.raise()),
        Turn::Checkpoint(_) => tell_checkpoint(text, node),
        Turn::Stop(_) => tell_stop(text, node),
        Turn::Restart(_) => tell_restart(text, node),
        Turn::Show(_) => tell_state(text, &node.show()),
        Turn::EndFor(_, epoch) => tell_end(text, node.end_for(*epoch)?),
        Turn::Known(_) => tell_known(text, &node.known()?),
        Turn::Producer(_, producer) => tell_producer(text, node.producer(*producer)),
        Turn::Open(_) => tell_open(text, &node.open_transactions()?),
        Turn::LogFrom(_, from, most) => tell_log(text, &node.log_from(*from, *most)?),
        _ => Err(Refusal::BadCount),
    }
}

impl<B: BoardName> Seats<B> {
    fn new(
        alloc: Global,
        board: Board<B>,
        passes: Vec<FreshPass<B>>,
        controller: Pass<B>,
    ) -> Result<Seats<B>, Refusal> {
        let board = Arc::new(alloc, board)?;
        let nodes = nodes_of(alloc, &board, passes)?;
        Ok(Seats {
            alloc,
            board,
            controller,
            nodes,
            mail: Vec::new(alloc),
            receipt: None,
        })
    }

    fn node(&mut self, node: NodeId) -> Result<&mut Node<B>, Refusal> {
        self.nodes
            .get_mut(usize::from(node))
            .ok_or(Refusal::BadCount)
    }

    fn send(&mut self, text: &mut String, message: Message<B>) -> Result<(), Refusal> {
        push_sent(text, self.mail.len(), &message.body)?;
        Ok(self.mail.push(message)?)
    }

    // The message, as a carrier repeats it.
    fn repeated(&mut self, number: usize) -> Result<Message<B>, Refusal> {
        let Some(message) = self.mail.get_mut(number) else {
            return Err(Refusal::BadCount);
        };
        message.repeat(&self.board)
    }

    fn deliver(&mut self, text: &mut String, number: usize) -> Result<(), Refusal> {
        let message = self.repeated(number)?;
        match message.body.addressee() {
            Some(node) => self.step(text, node, message),
            None => self.send_decision(text, message),
        }
    }

    fn step(
        &mut self,
        text: &mut String,
        node: NodeId,
        message: Message<B>,
    ) -> Result<(), Refusal> {
        match self.node(node)?.step(message)? {
            Some(answer) => self.send(text, answer),
            None => Ok(text.push_str("taken")?),
        }
    }

    fn decide(&mut self, text: &mut String, number: usize) -> Result<(), Refusal> {
        let message = self.repeated(number)?;
        self.send_decision(text, message)
    }

    fn send_decision(&mut self, text: &mut String, message: Message<B>) -> Result<(), Refusal> {
        let decision = self.board.decide(&mut self.controller, message)?;
        self.send(text, decision)
    }

    fn hand(&mut self, text: &mut String, node: NodeId, number: usize) -> Result<(), Refusal> {
        let message = self.repeated(number)?;
        self.step(text, node, message)
    }

    fn ask(&mut self, text: &mut String, node: NodeId) -> Result<(), Refusal> {
        let request = self.node(node)?.ask()?;
        self.send(text, request)
    }

    fn alter(&mut self, text: &mut String, node: NodeId, change: IsrChange) -> Result<(), Refusal> {
        let proposal = self.node(node)?.alter(change)?;
        self.send(text, proposal)
    }

    fn append(
        &mut self,
        text: &mut String,
        pass: &mut Pass<B>,
        node: NodeId,
        word: &str,
    ) -> Result<(), Refusal> {
        let bytes = bytes_of(self.alloc, word)?;
        let receipt = self.node(node)?.produce(pass, bytes)?;
        self.receipt = Some(receipt);
        Ok(tell_receipt(text, &receipt)?)
    }

    fn mark(&mut self, text: &mut String, pass: &mut Pass<B>, node: NodeId) -> Result<(), Refusal> {
        let marker = HandedMarker::new(MARKER).ok_or(Refusal::BadCount)?;
        let receipt = self.node(node)?.mark(pass, &marker)?;
        self.receipt = Some(receipt);
        Ok(write!(text, "at {}", receipt.base)?)
    }

    fn tell_ack(
        &mut self,
        text: &mut String,
        pass: &mut Pass<B>,
        node: NodeId,
    ) -> Result<(), Refusal> {
        let Some(receipt) = self.receipt else {
            return Err(Refusal::BadCount);
        };
        let ack = self.node(node)?.acked(pass, &receipt)?;
        Ok(text.push_str(name_of(ack))?)
    }

    // What the board answers, without a node.
    fn look(&self, text: &mut String, pass: &mut Pass<B>, turn: &Turn) -> Result<(), Refusal> {
        match turn {
            Turn::Elect(node) => tell_record(text, self.board.elect(pass, *node)),
            Turn::InSync => tell_in_sync(text, &self.board.record(pass)),
            Turn::Watermark(node) if *node < self.board.nodes() => {
                tell_mark(text, Ok(self.board.watermark(pass, *node)))
            }
            _ => tell_record(text, Ok(self.board.record(pass))),
        }
    }

    fn read(
        &mut self,
        text: &mut String,
        pass: &mut Pass<B>,
        node: NodeId,
        from: Offset,
    ) -> Result<(), Refusal> {
        let batches = self.node(node)?.read(pass, from)?;
        Ok(push_batches(text, batches.as_slice())?)
    }

    fn read_bytes(
        &mut self,
        text: &mut String,
        pass: &mut Pass<B>,
        node: NodeId,
        from: Offset,
    ) -> Result<(), Refusal> {
        let batches = self.node(node)?.read(pass, from)?;
        push_written(self.alloc, text, batches.as_slice())
    }

    // What a node tells a consumer.
    fn consume(
        &mut self,
        text: &mut String,
        pass: &mut Pass<B>,
        node: NodeId,
        turn: &Turn,
    ) -> Result<(), Refusal> {
        let node = self.node(node)?;
        match turn {
            Turn::Fetch(_, from, most, isolation) => {
                tell_fetched(text, &node.fetch(pass, *from, *most, *isolation)?)
            }
            Turn::OffsetForTime(_, time, isolation) => {
                tell_found(text, node.offset_for_time(pass, *time, *isolation)?)
            }
            _ => Err(Refusal::BadCount),
        }
    }

    // What a node answers to a call that needs nothing but itself.
    fn call(&mut self, text: &mut String, node: NodeId, turn: &Turn) -> Result<(), Refusal> {
        tell_call(text, self.node(node)?, turn)
    }

    // Makes the call, and appends what it answers.
    fn answer(
        &mut self,
        text: &mut String,
        pass: &mut Pass<B>,
        turn: &Turn,
    ) -> Result<(), Refusal> {
        match turn {
            Turn::Elect(_) | Turn::Record | Turn::InSync | Turn::Watermark(_) => {
                self.look(text, pass, turn)
            }
            Turn::Receipt => tell_newest(text, self.receipt),
            Turn::Append(node, word) => self.append(text, pass, *node, word),
            Turn::Mark(node) => self.mark(text, pass, *node),
            Turn::Acked(node) => self.tell_ack(text, pass, *node),
            Turn::Read(node, from) => self.read(text, pass, *node, *from),
            Turn::ReadBytes(node, from) => self.read_bytes(text, pass, *node, *from),
            Turn::Ask(node) => self.ask(text, *node),
            Turn::Deliver(number) => self.deliver(text, *number),
            Turn::Hand(node, number) => self.hand(text, *node, *number),
            Turn::Decide(number) => self.decide(text, *number),
            Turn::Alter(node, change) => self.alter(text, *node, *change),
            Turn::Adopt(node)
            | Turn::Raise(node)
            | Turn::Checkpoint(node)
            | Turn::Stop(node)
            | Turn::Restart(node)
            | Turn::Show(node)
            | Turn::EndFor(node, _)
            | Turn::Known(node)
            | Turn::Producer(node, _)
            | Turn::Open(node)
            | Turn::LogFrom(node, ..) => self.call(text, *node, turn),
            Turn::Fetch(node, ..) | Turn::OffsetForTime(node, ..) => {
                self.consume(text, pass, *node, turn)
            }
        }
    }

    // Of these calls none may be refused.
    fn answer_all(
        &mut self,
        text: &mut String,
        pass: &mut Pass<B>,
        turns: &[Turn],
    ) -> Result<(), Refusal> {
        for turn in turns {
            self.answer(text, pass, turn)?;
        }
        Ok(())
    }
}

// What these calls answer, a line for each.
fn push_answers<B: BoardName>(
    text: &mut String,
    seats: &mut Seats<B>,
    pass: &mut Pass<B>,
    turns: &[Turn],
) -> Result<(), Refusal> {
    for turn in turns {
        if let Err(refusal) = seats.answer(text, pass, turn) {
            write!(text, "{refusal}")?;
        }
        text.push('\n')?;
    }
    Ok(())
}

fn told<B: BoardName>(
    alloc: Global,
    seats: &mut Seats<B>,
    pass: &mut Pass<B>,
    first: &[Turn],
    then: &[Turn],
) -> Result<String, Refusal> {
    let mut text = String::with_capacity(alloc, 4096)?;
    seats.answer_all(&mut text, pass, first)?;
    text.clear();
    push_answers(&mut text, seats, pass, then)?;
    Ok(text)
}

fn answers<B: BoardName>(
    alloc: Global,
    opened: Opened,
    first: &[Turn],
    then: &[Turn],
) -> Result<String, Refusal>
    requires { opened ≡ B.table }
{
    let (board, passes, mut callers) = Board::<B>::new(alloc, opened)?;
    let mut pass = board.pass(&mut callers);
    let controller = board.pass(&mut callers);
    let mut seats = Seats::new(alloc, board, passes, controller)?;
    told(alloc, &mut seats, &mut pass, first, then)
}

/// What the second calls answer, a line for each, once so many nodes have made the first, of which none may be refused.
pub(crate) fn seated(
    alloc: Global,
    count: NodeId,
    first: &[Turn],
    then: &[Turn],
) -> Result<String, Refusal> {
    let opened = Opened::new(alloc, count.min(7))?;
    answers::<Brand>(alloc, opened, first, then)
}
