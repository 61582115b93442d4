//! How a host opens again what a process has left.

ghost use Rattle.std.specs.Prelude.{◌≡◌, ◌⊎◌, ◌+◌, ◌<◌, ◌≤◌, ◌^◌, [], ◌∷◌, ◌++◌, None, Some, List, length, IfErr, IfOk, IfSome, OnErr, OnOk};
ghost use Rattle.kp_types.specs.declared.refusal.Refusal.TheVariants.{Memory};
ghost use Rattle.kp_model.specs.Letter.{proposal_of};
ghost use Rattle.kp_model.specs.Log.{Batch as ModelBatch};
ghost use Rattle.kp_model.specs.Set.{record_of};
ghost use Rattle.kp_model.specs.World.{LeaderAndIsr as ModelRecord};
ghost use Rattle.kp_model.specs.declared.message.Proposal.{Proposal as SaidProposal};
ghost use Rattle.kp_node.specs.Again.{opening_of};
ghost use Rattle.kp_node.specs.Seats.{left_seats};
ghost use Rattle.kp_handles.specs.Again.{DecidesNext, HoldsNoneLeft, IsProposal, KeepCalled, NextDecided, NextElected};
ghost use Rattle.kp_handles.specs.Left.{LeftView};
ghost use Rattle.kp_handles.specs.Objects.{cluster, left};
ghost use Rattle.kp_handles.specs.declared.misuse.Misuse.TheVariants.{NoRoom, OtherKind};

use crate::calling::Called;
use crate::clusters::of_seats;
use crate::handle::{Handle, Unnamed, put, take};
use crate::left::{KeptIn, LeftNodes};
use crate::misuse::Misuse;
use crate::object::{Kind, Object, boxed, filled, room};
use crate::outs::LeadershipOut;
use kp_board::{BoardName, OpenedAgain};
use kp_control::{decided, elected};
use kp_model::{LeaderAndIsr, MessageBody, Proposal};
use kp_node::seat_again;
use kp_types::{Limits, MOST_NODES, NodeId, Refusal};
use std::alloc::Global;

/// Puts a place for nodes that are read back into a closed handle: it has none yet. NoRoom, and the handle is as before then. O(1).
pub fn leave<B: BoardName + Unnamed>(
    alloc: Global,
    limits: &Limits,
    handle: &mut Handle,
) -> Result<(), Misuse>
    requires closed { handle.old.object ≡ None }
    ensures made { OnOk result (handle.new.object ≡ Some (left (record { limits = limits.now; nodes = [] }))) }
    ensures same { OnErr result (handle.new ≡ handle.old) }
    ensures only { IfErr result (λ why. why ≡ NoRoom) }
{
    let Some(made) = room::<B>(alloc) else {
        return Err(Misuse::NoRoom);
    };
    let kind = Kind::Left(LeftNodes::new(alloc, limits));
    put(handle, filled(made, Object { kind }));
    Ok(())
}

fn keep_object<B: BoardName>(
    alloc: Global,
    object: &mut Object<B>,
    bytes: &[u8],
    kept: &KeptIn,
) -> Called<()>
    ensures { KeepCalled bytes.now kept.now (Some object.old) (Some object.new) result }
{
    match &mut object.kind {
        Kind::Left(nodes) => {
            if nodes.nodes.len() >= usize::from(MOST_NODES) {
                return Err(Misuse::OutOfRange);
            }
            Ok(nodes.keep(alloc, bytes, kept))
        }
        _ => Err(Misuse::OtherKind),
    }
}

/// Reads back a node's log from its bytes, which are copied once: the node stands behind those that the handle holds, down, in the life
/// behind the one that was kept. F24 where there is none; the bytes' first fault, F1 to F10; F26, F27 or F25 by the first batch that
/// doesn't stand behind those before it; F19 where the checkpoint is no boundary; F33. Closed, OtherKind; OutOfRange where it holds 7.
/// O(bytes).
#[tactic(auto, using(crate::proofs::Bad::keep_called))]
pub fn keep<B: BoardName + Unnamed>(
    alloc: Global,
    handle: &mut Handle,
    bytes: &[u8],
    kept: &KeptIn,
) -> Called<()>
    requires { IfSome handle.old.object (λ _. handle.old.table ≡ B.table) }
    ensures called { KeepCalled bytes.now kept.now handle.old.object handle.new.object result }
{
    let Some(mut object) = take::<B>(alloc, handle) else {
        return Err(Misuse::Closed);
    };
    let answer = keep_object(alloc, &mut object, bytes, kept);
    put(handle, object);
    answer
}

// The nodes that the object holds, if it is such a place; none are left in it then.
fn left_in<B: BoardName>(alloc: Global, object: &mut Object<B>) -> Option<LeftNodes>
    ensures found { IfSome result (λ nodes. object.old ≡ left nodes) }
    ensures same { result ≡ None → object.new ≡ object.old }
    ensures no_left { result ≡ None → (x : LeftView) → object.old ≡ left x → ⊥ }
{
    match &mut object.kind {
        Kind::Left(nodes) => Some(nodes.take(alloc)),
        _ => None,
    }
}

/// The nodes that a handle holds, which is closed then. Closed, OtherKind, and it is as before. O(1).
#[tactic(auto, using(crate::proofs::Bad::no_left))]
pub fn take_left<B: BoardName + Unnamed>(
    alloc: Global,
    handle: &mut Handle,
) -> Result<LeftNodes, Misuse>
    requires { IfSome handle.old.object (λ _. handle.old.table ≡ B.table) }
    ensures taken { IfOk result (λ nodes. (handle.old.object ≡ Some (left nodes)) × (handle.new.object ≡ None)) }
    ensures same { OnErr result (handle.new.object ≡ handle.old.object) }
    ensures only { IfErr result (HoldsNoneLeft handle.old.object) }
{
    let Some(mut place) = take::<B>(alloc, handle) else {
        return Err(Misuse::Closed);
    };
    match left_in(alloc, &mut place) {
        Some(nodes) => Ok(nodes),
        None => {
            put(handle, place);
            Err(Misuse::OtherKind)
        }
    }
}

// A cluster of these nodes, in room of its own.
fn seated<B: BoardName>(
    alloc: Global,
    opened: OpenedAgain,
    nodes: LeftNodes,
) -> Result<Box<Object<B>>, Refusal>
    requires name { opened ≡ B.table }
    requires opening { (c : ModelRecord) × (promised : List ModelBatch) × (opened.opening ≡ opening_of c nodes.nodes promised) }
    ensures made { IfOk result (λ b. b.value ≡ cluster (length nodes.nodes) (left_seats opened.opening 0 nodes.nodes) 0) }
    ensures only { IfErr result (λ refusal. refusal ≡ Memory) }
{
    match seat_again::<B>(alloc, opened, nodes.into_nodes()) {
        Ok(seats) => boxed(alloc, of_seats(seats)).ok_or(Refusal::Memory),
        Err(refusal) => Err(refusal),
    }
}

/// Puts a board that was opened again, under its name, into a closed handle, with these nodes, each down, as it was left. F33 is the only
/// refusal, and the handle is as before then. O(nodes).
pub fn open_left<B: BoardName + Unnamed>(
    alloc: Global,
    opened: OpenedAgain,
    nodes: LeftNodes,
    handle: &mut Handle,
) -> Result<(), Refusal>
    requires name { opened ≡ B.table }
    requires opening { (c : ModelRecord) × (promised : List ModelBatch) × (opened.opening ≡ opening_of c nodes.nodes promised) }
    requires closed { handle.old.object ≡ None }
    ensures made { OnOk result (handle.new.object ≡ Some (cluster (length nodes.nodes) (left_seats opened.opening 0 nodes.nodes) 0)) }
    ensures table { OnOk result (handle.new.table ≡ B.table) }
    ensures same { OnErr result (handle.new ≡ handle.old) }
    ensures only { IfErr result (λ refusal. refusal ≡ Memory) }
{
    match seated::<B>(alloc, opened, nodes) {
        Ok(made) => {
            put(handle, made);
            Ok(())
        }
        Err(refusal) => Err(refusal),
    }
}

/// What the record that is told becomes by this node's election: so a host can keep it before the election is tried. F21, F24;
/// OutOfRange where it tells no record. O(1), and no memory.
pub fn next_elected(known: &LeadershipOut, node: NodeId) -> Called<LeaderAndIsr>
    ensures { NextElected known.now node result }
{
    match known.record() {
        Some(record) => Ok(elected(&record, node)),
        None => Err(Misuse::OutOfRange),
    }
}

// The record that stands once it is decided on the proposal.
#[tactic(auto, using(crate::proofs::Elected::decides_next, crate::proofs::Elected::decides_none))]
fn next_by(from: &LeaderAndIsr, proposal: &Proposal) -> Result<LeaderAndIsr, Refusal>
    ensures { DecidesNext (record_of from.now) (proposal_of proposal.now) result }
{
    match decided(from, proposal) {
        Ok(made) => Ok(made.decided),
        Err(refusal) => Err(refusal),
    }
}

// What the record becomes by a decision on the proposal that the object is.
fn decided_by<B: BoardName>(object: &Object<B>, from: &LeaderAndIsr) -> Called<LeaderAndIsr>
    ensures next { IfOk result (λ answer. (p : SaidProposal) × IsProposal (Some object.now) p × DecidesNext (record_of from.now) (proposal_of p) answer) }
    ensures only { IfErr result (λ why. (why ≡ OtherKind) × ((p : SaidProposal) → IsProposal (Some object.now) p → ⊥)) }
{
    match &object.kind {
        Kind::Message(message) => match &message.body {
            MessageBody::Proposal(proposal) => Ok(next_by(from, proposal)),
            _ => Err(Misuse::OtherKind),
        },
        _ => Err(Misuse::OtherKind),
    }
}

/// What the record that is told becomes by a decision on the proposal that the handle holds, which stays. F24; Closed; OtherKind where it
/// holds no proposal; OutOfRange where no record is told. O(1), and no memory.
pub fn next_decided<B: BoardName + Unnamed>(
    alloc: Global,
    letter: &mut Handle,
    known: &LeadershipOut,
) -> Called<LeaderAndIsr>
    requires { IfSome letter.old.object (λ _. letter.old.table ≡ B.table) }
    ensures decided { NextDecided known.now letter.old.object result }
    ensures same { letter.new.object ≡ letter.old.object }
{
    let Some(record) = known.record() else {
        return Err(Misuse::OutOfRange);
    };
    let Some(object) = take::<B>(alloc, letter) else {
        return Err(Misuse::Closed);
    };
    let next = decided_by(&object, &record);
    put(letter, object);
    next
}
