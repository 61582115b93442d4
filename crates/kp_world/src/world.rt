//! The controller's record, the nodes, and a run over events.

ghost use Rattle.std.specs.Prelude.{◌≡◌, ◌+◌, ◌<◌, ◌≤◌, ◌^◌, ◌++◌, ℕ, List, [], ◌∷◌, length, map, take, IfNone, IfOk, IfErr, IfSome, OnErr, OnOk, slice_index_or, vec_capacity};
ghost use Rattle.std.specs.List.{AllByRecursion};
ghost use Rattle.kp_types.specs.declared.limits.Limits.{Limits as LogLimits};
ghost use Rattle.kp_model.specs.World.{start};
ghost use Rattle.kp_model.specs.Event.{Act as ModelAct, Acts as ModelActs, Event as ModelEvent, Elect as ModelElect, Deliver as ModelDeliver};
ghost use Rattle.kp_types.specs.Causes.{IsRefusedOnlyBy};
ghost use Rattle.kp_model.specs.Letter.{Deciding, letter, proposal_of};
ghost use Rattle.kp_model.specs.Set.{record_of};
ghost use Rattle.kp_model.specs.Step.{decide_cause, decided_on, decision};
ghost use Rattle.kp_replica.specs.Acts.{IsAct, letters_in};
ghost use Rattle.kp_replica.specs.declared.act.Act.TheVariants.{Produce as HandsBytes};
ghost use Rattle.kp_world.specs.Answers.{IsTold, TellsOf, appended};
ghost use Rattle.kp_world.specs.declared.event.Event.TheVariants.{Acts as EventActs};
ghost use Rattle.kp_world.specs.Events.{AreEvents, IsAmong, IsEvent};
ghost use Rattle.kp_world.specs.Plays.{AnswersFirst, IsAnswered, LeadOn, PlaysFirst};
ghost use Rattle.kp_replica.specs.NumberedNode.{NumberedNode};
ghost use Rattle.kp_replica.specs.Broker.{node_at};
ghost use Rattle.kp_world.specs.Shown.{IsShown, addressee_at, log_of, next_number};

use crate::event::{Event, EventAnswer, Stopped, Trace};
use kp_batch::Handed;
use kp_control::{decided, elected};
use kp_log::PartitionLog;
use kp_model::{LeaderAndIsr, MessageBody, Proposal};
use kp_replica::{Act, Broker, Effect, KeptNode, Receipt};
use kp_types::{Limits, NodeId, Refusal};
use std::alloc::{AllocError, Global};
use std::collections::VecDeque;
use std::marker::Model;

/// All nodes of one partition, by their numbers, and the controller's record.
pub struct World {
    controller: LeaderAndIsr,
    nodes: Vec<Broker>,
    // How many messages were sent by processes that have ended. Nobody has those.
    first: u64,
    // All messages sent since, by their numbers from that one on.
    messages: Vec<MessageBody>,
}

// By hand, so that a function that drops a world calls this, and isn't proved with what drops each of its parts.
impl Drop for World {
    fn drop(self) {
        let World {
            controller: _,
            nodes: _,
            first: _,
            messages: _,
        } = self;
    }
}

impl Model for World {
    ghost use Rattle.kp_model.specs.Set.{record_of};
    ghost use Rattle.std.specs.Prelude.{map};
    ghost use Rattle.kp_model.specs.Letter.{letter};
    ghost use Rattle.kp_replica.specs.Broker.{node_at};
    ghost use Rattle.kp_world.specs.Shown.{Stage};

    ghost Value = { Stage };

    ghost view = { λ w. record {
      controller = record_of w.controller;
      nodes = map node_at w.nodes.items;
      first = w.first;
      letters = map letter w.messages.items;
    } };
}

/// Takes room for a message more, and answers the number that it has: so many were sent before the first of these. It fails where memory
/// or the numbers run out.
#[inline(always)]
fn room(messages: &mut Vec<MessageBody>, first: u64) -> Result<u64, AllocError>
    ensures items { messages.new.items ≡ messages.old.items }
    ensures room { OnOk result (length messages.new.items < vec_capacity messages.new) }
    ensures number { IfOk result (λ number. number ≡ first + length messages.old.items) }
{
    messages.reserve(1)?;
    match first.checked_add(messages.len() as u64) {
        Some(number) => Ok(number),
        None => Err(AllocError),
    }
}

/// Puts the message of this number behind the others, for which there is room, and tells it. O(1).
fn send(messages: &mut Vec<MessageBody>, number: u64, body: MessageBody) -> EventAnswer
    requires { length messages.old.items < vec_capacity messages.old }
    ensures sent { messages.new.items ≡ messages.old.items ++ body ∷ [] }
    ensures told { TellsOf number (letter body) result }
{
    let said = body.said();
    match messages.push(body) {
        Ok(()) => {}
        Err(_) => unreachable!(),
    }
    EventAnswer::Sent { number, said }
}

/// Tells what came of a node's act: a message that was sent stands behind the others, for which there is room, and has this number. O(1).
#[inline(always)]
fn carry_out(
    messages: &mut Vec<MessageBody>,
    number: u64,
    outcome: Result<Effect, Refusal>,
) -> Result<EventAnswer, Refusal>
    requires { length messages.old.items < vec_capacity messages.old }
    ensures told { IsTold number outcome result }
    ensures letters { map letter messages.new.items
        ≡ map letter messages.old.items ++ letters_in outcome }
{
    match outcome {
        Ok(Effect::Answers(answer)) => Ok(EventAnswer::Answered(answer)),
        Ok(Effect::Sends(body)) => Ok(send(messages, number, body)),
        Err(refusal) => Err(refusal),
    }
}

/// The controller decides on the proposal: the record that is decided stands from then on, and the decision stands behind the
/// other messages, for which there is room, and has this number. F24 leaves all as it was. O(1), and no memory.
fn decide(
    controller: &mut LeaderAndIsr,
    messages: &mut Vec<MessageBody>,
    number: u64,
    proposal: &Proposal,
) -> Result<EventAnswer, Refusal>
    requires { length messages.old.items < vec_capacity messages.old }
    ensures refused { IsRefusedOnlyBy
        (decide_cause (record_of controller.old) (proposal_of proposal.now)) result }
    ensures told { IfOk result (TellsOf number
        (Deciding (decision (record_of controller.old) (proposal_of proposal.now)))) }
    ensures record { OnOk result (record_of controller.new
        ≡ decided_on (record_of controller.old) (proposal_of proposal.now)) }
    ensures letters { OnOk result (map letter messages.new.items ≡ map letter messages.old.items
        ++ Deciding (decision (record_of controller.old) (proposal_of proposal.now)) ∷ []) }
    ensures stays { OnErr result (controller.new ≡ controller.old) }
    ensures same { OnErr result (messages.new.items ≡ messages.old.items) }
{
    let decision = decided(controller, proposal)?;
    *controller = decision.decided;
    Ok(send(messages, number, MessageBody::Decision(decision)))
}

/// Puts an answer behind the others, for which there is room. O(1).
fn push_within(
    outcomes: &mut Vec<Result<EventAnswer, Refusal>>,
    outcome: Result<EventAnswer, Refusal>,
)
    requires { length outcomes.old.items < vec_capacity outcomes.old }
    ensures pushed { outcomes.new.items ≡ outcomes.old.items ++ outcome ∷ [] }
    ensures room { vec_capacity outcomes.old ≤ vec_capacity outcomes.new }
{
    match outcomes.push(outcome) {
        Ok(()) => {}
        Err(_) => unreachable!(),
    }
}

impl World {
    /// The start: no leader, idle nodes with empty logs, their numbers from 0 on.
    pub fn start(alloc: Global, count: NodeId, limits: &Limits) -> Result<World, AllocError>
        requires { count ≤ 7 }
        ensures shown { IfOk result (λ w. IsShown limits.now w (start count)) }
        ensures count { IfOk result (λ w. length w.nodes ≡ count) }
        ensures first { IfOk result (λ w. w.first ≡ 0) }
    {
        let mut nodes = Vec::new(alloc);
        for number in 0..count {
            nodes.push(Broker::new(alloc, number, limits))?;
        }
        Ok(World {
            controller: LeaderAndIsr::initial(count),
            nodes,
            first: 0,
            messages: Vec::new(alloc),
        })
    }

    /// The nodes of a process that has ended, as they were read back, in the order of their numbers, and the record that it left; so many
    /// messages were sent before, and the numbers go on. [`crate::left_stages_go_on`] says what run that is. O(nodes).
    pub fn again(
        alloc: Global,
        controller: LeaderAndIsr,
        kept: Vec<KeptNode>,
        first: u64,
    ) -> Result<World, AllocError>
        ensures { IfOk result (λ w. w ≡ record {
          controller = record_of controller;
          nodes = kept.items;
          first = first;
          letters = [];
        }) }
    {
        let mut nodes = Vec::new(alloc);
        for node in kept {
            nodes.push(Broker::Down(node))?;
        }
        Ok(World {
            controller,
            nodes,
            first,
            messages: Vec::new(alloc),
        })
    }

    /// The controller's record. O(1).
    pub fn controller(&self) -> &LeaderAndIsr
        ensures { record_of result.now ≡ self.now.controller }
    {
        &self.controller
    }

    /// The nodes, by their numbers. O(1).
    pub fn nodes(&self) -> &[Broker]
        ensures { map node_at result.now ≡ self.now.nodes }
    {
        &self.nodes
    }

    /// The number of the next message: how many were sent, by this process and by those before it. None where it is above 2^64 - 1. O(1).
    pub fn next_number(&self) -> Option<u64>
        ensures some { IfSome result (λ number. number ≡ next_number self.now) }
        ensures none { IfNone result (2 ^ 64 ≤ next_number self.now) }
    {
        self.first.checked_add(self.sent() as u64)
    }

    /// The log of a node, up or down, settled up to the node's high watermark. O(1).
    pub fn log(&self, node: NodeId) -> &PartitionLog
        requires { node < length self.now.nodes }
        ensures { (other : NumberedNode) → result.now
            ≡ log_of (slice_index_or self.now.nodes node other) }
    {
        self.nodes[usize::from(node)].log()
    }

    /// How many messages were sent since this process began: the last of them has this number, less 1, behind those of processes
    /// that have ended. O(1).
    pub fn sent(&self) -> usize
        ensures { result ≡ length self.now.letters }
    {
        self.messages.len()
    }

    /// The node to which the message at this place goes, of those that were sent since this process began; none where it goes to
    /// the controller, or there is no such message. O(1).
    pub fn addressee(&self, place: usize) -> Option<NodeId>
        ensures { result ≡ addressee_at self.now.letters place }
    {
        match self.messages.get(place) {
            Some(body) => body.addressee(),
            None => None,
        }
    }

    /// The controller elects this node, and the record that it has then is told: what [`World::step`] does with that event. F21
    /// where the node isn't in the in-sync set, F24 where epochs or versions are used up; each leaves all as it was. O(1), and no
    /// memory. (Kafka replication design.)
    #[inline(never)]
    pub fn elect(&mut self, node: NodeId) -> Result<EventAnswer, Refusal>
        ensures step { (limits : LogLimits)
            → LeadOn limits self.old (ModelElect node ∷ []) (result ∷ []) self.new }
        ensures count { length self.new.nodes ≡ length self.old.nodes }
        ensures first { self.new.first ≡ self.old.first }
    {
        let changed = elected(&self.controller, node)?;
        self.controller = changed;
        Ok(EventAnswer::Changed(changed))
    }

    /// The message of this number comes to the node to which it goes, or a proposal to the controller, which decides on it; F29
    /// where no message has it. It is none of those that went with the process that had them. An `Err` says that there was no room for a message more, and nothing has happened. It is what
    /// [`World::step`] does with that event, whose cost it has.
    #[inline(never)]
    pub fn deliver(
        &mut self,
        alloc: Global,
        number: u64,
    ) -> Result<Result<EventAnswer, Refusal>, AllocError>
        requires { self.old.first ≤ number }
        ensures step { IfOk result (λ outcome. (limits : LogLimits)
            → LeadOn limits self.old (ModelDeliver number ∷ []) (outcome ∷ []) self.new) }
        ensures err { OnErr result (self.new ≡ self.old) }
        ensures count { length self.new.nodes ≡ length self.old.nodes }
        ensures first { self.new.first ≡ self.old.first }
    {
        kp_model::runs_keep_count();
        kp_model::messages_go_to_nodes();
        kp_model::runs_keep_logs();
        kp_model::runs_keep_kin();
        kp_model::no_cut_below_the_watermark();
        let next = room(&mut self.messages, self.first)?;
        let Some(body) = self.messages.get((number - self.first) as usize) else {
            return Ok(Err(Refusal::StaleAnswer));
        };
        if let MessageBody::Proposal(proposal) = body {
            let proposal = *proposal;
            return Ok(decide(&mut self.controller, &mut self.messages, next, &proposal));
        }
        let Some(node) = body.addressee() else {
            return Ok(Err(Refusal::StaleAnswer)); // as no message does: each but a proposal goes to a node
        };
        let node = usize::from(node);
        if node >= self.nodes.len() {
            return Ok(Err(Refusal::StaleAnswer)); // as no message of a run: its node is there
        }
        let outcome = self.nodes[node].receive(alloc, &self.controller, body);
        Ok(carry_out(&mut self.messages, next, outcome))
    }

    /// The node does this. An `Err` gives the act back: there was no room for a message more, and nothing has happened. It is what
    /// [`World::step`] does with that event, whose cost it has.
    #[inline(always)]
    pub fn act(
        &mut self,
        alloc: Global,
        node: NodeId,
        act: Act,
    ) -> Result<Result<EventAnswer, Refusal>, Act>
        requires { node < length self.old.nodes }
        ensures step { IfOk result (λ outcome. (limits : LogLimits) (a : ModelAct)
            → IsAct limits.max_batch act a
            → LeadOn limits self.old (ModelActs node a ∷ []) (outcome ∷ []) self.new) }
        ensures err { OnErr result (self.new ≡ self.old) }
        ensures back { IfErr result (λ same. same ≡ act) }
        ensures count { length self.new.nodes ≡ length self.old.nodes }
        ensures first { self.new.first ≡ self.old.first }
    {
        kp_model::epochs_are_elected();
        kp_replica::acts_are_told();
        let Ok(next) = room(&mut self.messages, self.first) else {
            return Err(act);
        };
        let outcome = self.nodes[usize::from(node)].act(alloc, &self.controller, act);
        Ok(carry_out(&mut self.messages, next, outcome))
    }

    /// A client hands these bytes to the node, and is told the receipt: what [`World::step`] does with that event, without room for a
    /// message, as none is sent. F28 where the node is down, and else what `Replica::produce` refuses, in its order; each leaves all as
    /// it was. The cost is that of `Replica::produce`. (Kafka protocol guide, 'Produce'; KIP-98.)
    #[inline(always)]
    pub fn produce(&mut self, node: NodeId, bytes: Handed) -> Result<Receipt, Refusal>
        requires { node < length self.old.nodes }
        ensures step { (limits : LogLimits) (e : ModelEvent)
            → IsEvent limits.max_batch (EventActs node (HandsBytes bytes)) e
            → LeadOn limits self.old (e ∷ []) (appended result ∷ []) self.new }
        ensures count { length self.new.nodes ≡ length self.old.nodes }
        ensures first { self.new.first ≡ self.old.first }
    {
        kp_model::epochs_are_elected();
        self.nodes[usize::from(node)].produce(bytes)
    }

    /// Makes the event happen, and tells what it answers: a refused event's refusal, after which others may come. An `Err` gives the
    /// event back: there was no room for one message more, and nothing has happened. The cost doesn't grow with the events before it,
    /// but for what the calls of `Replica` say of their cost, and for a read, which costs what it reads. Every message stays: a
    /// request, a proposal and a decision are some numbers, and an answer holds shares of its batches.
    pub fn step(
        &mut self,
        alloc: Global,
        event: Event,
    ) -> Result<Result<EventAnswer, Refusal>, Event>
        requires { IsAmong (length self.old.nodes) self.old.first event }
        ensures step { IfOk result (λ outcome. (limits : LogLimits) (e : ModelEvent)
            → IsEvent limits.max_batch event e
            → LeadOn limits self.old (e ∷ []) (outcome ∷ []) self.new) }
        ensures err { OnErr result (self.new ≡ self.old) }
        ensures back { IfErr result (λ same. same ≡ event) }
        ensures count { length self.new.nodes ≡ length self.old.nodes }
        ensures first { self.new.first ≡ self.old.first }
    {
        match event {
            Event::Elect { node } => Ok(self.elect(node)),
            Event::Acts { node, act } => match self.act(alloc, node, act) {
                Ok(outcome) => Ok(outcome),
                Err(act) => Err(Event::Acts { node, act }),
            },
            Event::Deliver { number } => match self.deliver(alloc, number) {
                Ok(outcome) => Ok(outcome),
                Err(_) => Err(Event::Deliver { number }),
            },
        }
    }

    /// Makes the events happen, one after another, takes them from the list, and puts what each of them answers into
    /// `outcomes`, in place of what stood there; a refused event's refusal stands there, and the events go on. So the events
    /// of one run may come a few at a time, with one list for the answers of each few. An `Err` says that the list of answers,
    /// or room for one message more, couldn't be had: then the events that are left in the list haven't happened, and those
    /// before them have, with their answers. The cost is that of [`World::step`] for each of them.
    pub fn play(
        &mut self,
        alloc: Global,
        events: &mut VecDeque<Event>,
        outcomes: &mut Vec<Result<EventAnswer, Refusal>>,
    ) -> Result<(), AllocError>
        requires { AllByRecursion (IsAmong (length self.old.nodes) self.old.first) events.old.items }
        ensures played { PlaysFirst self.old self.new events.old.items events.new.items outcomes.new.items }
        ensures all { OnOk result (events.new.items ≡ []) }
        ensures count { length self.new.nodes ≡ length self.old.nodes }
        ensures first { self.new.first ≡ self.old.first }
    {
        outcomes.clear();
        outcomes.reserve(events.len())?;
        while let Some(event) = events.pop_front() {
            match self.step(alloc, event) {
                Ok(outcome) => push_within(outcomes, outcome),
                Err(event) => {
                    events.push_front_reserved(event);
                    return Err(AllocError);
                }
            }
        }
        Ok(())
    }
}

/// Runs the events from the start of `count` nodes on, and answers each of them. A refused event stands in
/// the trace, and the run goes on. [`Stopped`] comes only where the run's own lists, those of nodes, answers and messages,
/// couldn't be had: it holds the answers so far, and gives back the events that haven't happened. Nodes have the numbers
/// from 0 on. The cost is that of [`World::play`].
pub fn run(
    alloc: Global,
    count: NodeId,
    limits: &Limits,
    events: Vec<Event>,
) -> Result<Trace, Stopped>
    requires some { 0 < count }
    requires most { count ≤ 7 }
    requires nodes { AllByRecursion (IsAmong count 0) events.items }
    ensures played { IfOk result (λ trace. (es : List ModelEvent)
        → AreEvents limits.now.max_batch events.items es
        → IsAnswered count es trace.outcomes.items) }
    ensures answered { IfOk result (λ trace. length trace.outcomes.items ≡ length events.items) }
    ensures stopped { IfErr result (λ stopped. AnswersFirst count limits.now.max_batch
        events.items stopped.rest.items stopped.trace.outcomes.items) }
{
    kp_model::runs_are_safe();
    kp_model::no_delivery_is_refused_oddly();
    let mut rest = VecDeque::from_vec(events);
    let mut outcomes = Vec::new(alloc);
    let Ok(mut world) = World::start(alloc, count, limits) else {
        let trace = Trace { outcomes };
        return Err(Stopped { trace, rest });
    };
    let played = world.play(alloc, &mut rest, &mut outcomes);
    let trace = Trace { outcomes };
    match played {
        Ok(()) => Ok(trace),
        Err(_) => Err(Stopped { trace, rest }),
    }
}
