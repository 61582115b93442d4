//! The program `two_nodes`: two nodes of one partition, driven by a loop of its own, as a program does that uses the crates.
//! It stands on `kp_replica` for the nodes, `kp_control` for the controller and `kp_batch` for the batches.
//! No contract speaks of it: it shows what the host does, and `docs/USING.md` explains it line by line.
#![tactic(auto)]

use kp_batch::{Fields, Handed, Parts, Speller};
use kp_control::{decided, elected};
use kp_model::{LeaderAndIsr, MessageBody, Proposal};
use kp_replica::{Act, Answer, Broker, Effect, IsrChange, PlainAct};
use kp_types::{Limits, NodeId, Refusal};
use std::alloc::Global;
use std::collections::VecDeque;
use std::io;

const LIMITS: Limits = Limits {
    segment_bytes: 1_048_576,
    index_interval: 4_096,
    max_batch: 1_048_576,
};

/// What the host keeps: the one record, each node at the place of its number, and the messages under way.
#[derive(Drop)]
struct Cluster {
    alloc: Global,
    record: LeaderAndIsr,
    nodes: Vec<Broker>,
    under_way: VecDeque<MessageBody>,
}

impl Cluster {
    /// Two idle nodes, and no leader.
    fn new(alloc: Global) -> Result<Cluster, Refusal> {
        let mut nodes = Vec::new(alloc);
        nodes.push(Broker::new(alloc, 0, &LIMITS))?;
        nodes.push(Broker::new(alloc, 1, &LIMITS))?;
        Ok(Cluster {
            alloc,
            record: LeaderAndIsr::initial(2),
            nodes,
            under_way: VecDeque::new(alloc),
        })
    }

    /// The node of this number.
    fn node(&mut self, node: NodeId) -> Result<&mut Broker, Refusal> {
        self.nodes
            .get_mut(usize::from(node))
            .ok_or(Refusal::NotInSync)
    }

    /// Elects the node, and has each node take the record up.
    fn elect(&mut self, node: NodeId) -> Result<(), Refusal> {
        self.record = elected(&self.record, node)?;
        self.act(0, PlainAct::Adopt)?;
        self.act(1, PlainAct::Adopt)?;
        Ok(())
    }

    /// The node does this, under the record as it is now.
    fn act(&mut self, node: NodeId, act: PlainAct) -> Result<Option<Answer>, Refusal> {
        let (alloc, record) = (self.alloc, self.record);
        let effect = self.node(node)?.act(alloc, &record, Act::Plain(act))?;
        self.carry_out(effect)
    }

    /// A client hands the leader a batch.
    fn produce(&mut self, leader: NodeId, bytes: Handed) -> Result<Option<Answer>, Refusal> {
        let (alloc, record) = (self.alloc, self.record);
        let act = Act::Produce { bytes };
        let effect = self.node(leader)?.act(alloc, &record, act)?;
        self.carry_out(effect)
    }

    /// What came of it: an answer for the caller, or a message that is under way from then on.
    fn carry_out(&mut self, effect: Effect) -> Result<Option<Answer>, Refusal> {
        match effect {
            Effect::Answers(answer) => Ok(Some(answer)),
            Effect::Sends(message) => {
                self.under_way.push_back(message)?;
                Ok(None)
            }
        }
    }

    /// The controller decides on a proposal that comes, by the record as it is then, and sends its decision.
    fn decide(&mut self, proposal: &Proposal) -> Result<Effect, Refusal> {
        let decision = decided(&self.record, proposal)?;
        self.record = decision.decided;
        Ok(Effect::Sends(MessageBody::Decision(decision)))
    }

    /// The message comes to the controller, if it is a proposal, and else to its addressee.
    fn receive(&mut self, message: &MessageBody) -> Result<Effect, Refusal> {
        if let MessageBody::Proposal(proposal) = message {
            return self.decide(proposal);
        }
        let addressee = message.addressee().ok_or(Refusal::StaleAnswer)?;
        let (alloc, record) = (self.alloc, self.record);
        self.node(addressee)?.receive(alloc, &record, message)
    }

    /// The node does what sends a message: it comes, and so does the one that answers it.
    fn exchange(&mut self, node: NodeId, act: PlainAct) -> Result<(), Refusal> {
        self.act(node, act)?;
        for _ in 0..2 {
            let Some(message) = self.under_way.pop_front() else {
                return Ok(());
            };
            let effect = self.receive(&message)?;
            self.carry_out(effect)?;
        }
        Ok(())
    }

    /// The follower asks, the leader answers, and the follower takes the answer.
    fn replicate(&mut self, follower: NodeId) -> Result<(), Refusal> {
        self.exchange(follower, PlainAct::Ask)
    }

    /// The leader proposes the change, the controller decides, and the leader learns the decision.
    fn alter(&mut self, leader: NodeId, change: IsrChange) -> Result<(), Refusal> {
        self.exchange(leader, PlainAct::Alter { change })
    }
}

/// A batch of one record with this value, of no producer.
fn batch_of(speller: &mut Speller, value: &[u8]) -> Result<Handed, Refusal> {
    let fields = Fields {
        base_timestamp: 1_000,
        producer_id: None,
        producer_epoch: None,
        base_sequence: None,
        transactional: false,
        control: false,
    };
    let record = Parts {
        timestamp: 1_000,
        key: None,
        value: Some(value),
        headers: &[],
    };
    speller.spell(&fields, &[record])
}

/// Prints what a consumer of the node reads from the first offset on.
fn print_committed(rt: &HostRuntime, cluster: &mut Cluster, node: NodeId) -> Result<(), Refusal> {
    let read = cluster.act(node, PlainAct::Committed { from: 0 })?;
    let Some(Answer::Lines(records)) = read else {
        return Ok(());
    };
    for index in 0..records.len() {
        let record = records.get(index);
        let value = str::from_utf8(record.value.unwrap_or(b"")).unwrap_or("?");
        let offset = record.offset;
        println!(rt; "node {node} has {value} at {offset}").map_err(|_| Refusal::Device)?;
    }
    Ok(())
}

/// One batch is committed on both nodes, one is on the old leader alone when the other node is elected.
fn fail_over(cluster: &mut Cluster, speller: &mut Speller) -> Result<(), Refusal> {
    cluster.elect(0)?;
    cluster.produce(0, batch_of(speller, b"a")?)?;
    cluster.replicate(1)?; // node 1 takes `a`
    cluster.replicate(1)?; // and tells that it has it
    cluster.act(0, PlainAct::Raise)?; // so `a` is committed
    cluster.produce(0, batch_of(speller, b"b")?)?; // on node 0 alone

    cluster.elect(1)?;
    cluster.produce(1, batch_of(speller, b"c")?)?;
    cluster.replicate(0)?; // node 0 takes `b` back
    cluster.replicate(0)?; // takes `c`
    cluster.replicate(0)?; // and tells that it has it
    cluster.act(1, PlainAct::Raise)?; // so `c` is committed
    cluster.replicate(0)?; // node 0 learns it
    Ok(())
}

/// The leader, node 1, goes on without the other node, and has it in sync again.
fn leave_and_join(cluster: &mut Cluster, speller: &mut Speller) -> Result<(), Refusal> {
    cluster.alter(1, IsrChange::Leave(0))?; // node 1 alone is in sync
    cluster.produce(1, batch_of(speller, b"d")?)?;
    cluster.act(1, PlainAct::Raise)?; // so `d` is committed
    cluster.replicate(0)?; // node 0 takes `d`
    cluster.replicate(0)?; // and tells that it has it
    cluster.alter(1, IsrChange::Join(0))?; // so it may join
    Ok(())
}

/// Both, and what a consumer reads then.
fn run(rt: &HostRuntime) -> Result<(), Refusal> {
    let mut cluster = Cluster::new(rt.alloc())?;
    let mut speller = Speller::new(rt.alloc());
    fail_over(&mut cluster, &mut speller)?;
    leave_and_join(&mut cluster, &mut speller)?;
    print_committed(rt, &mut cluster, 0)?;
    print_committed(rt, &mut cluster, 1)
}

fn main(rt: HostRuntime) -> io::Result<()> {
    match run(&rt) {
        Ok(()) => Ok(()),
        Err(refusal) => {
            let head = refusal.head();
            println!(&rt; "{head}")
        }
    }
}
