//! Calls of a node for a caller's pass.

ghost use Rattle.std.specs.Prelude.{◌≡◌, ℕ, List, Some, length, IfSome, IfOk, IfErr, OnOk, OnErr};
ghost use Rattle.kp_node.specs.CallerCalls.{Marks, Produces};
ghost use Rattle.kp_handles.specs.Called.{PairCalled};
ghost use Rattle.kp_handles.specs.Handing.{BadShare, HandedCalled};
ghost use Rattle.kp_handles.specs.Objects.{handed};
ghost use Rattle.kp_handles.specs.PairCalls.{BadBytes, BadMarker, FitsBatch};

use crate::calling::{Called, OfPair, with_pair};
use crate::handing::{Share, copied};
use crate::handle::{Handle, Unnamed, put, take_two};
use crate::looking::look;
use crate::misuse::Misuse;
use crate::object::{Caller, Kind, Object};
use kp_board::{BoardName, Pass};
use kp_marker::{HandedMarker, Marker};
use kp_node::{Ack, Node};
use kp_replica::Receipt;
use kp_types::Refusal;
use std::alloc::Global;

// The bytes are copied into memory of the pass.
fn produce_copy<B: BoardName>(
    node: &mut Node<B>,
    caller: &mut Caller<B>,
    bytes: &[u8],
) -> Called<Receipt>
    ensures made { IfOk result (Produces bytes.now node.old node.new caller.old.pass caller.new.pass) }
    ensures fits { OnOk result (FitsBatch (length bytes.now)) }
    ensures same { OnErr result ((node.new ≡ node.old) × (caller.new.pass ≡ caller.old.pass)) }
    ensures only { IfErr result (BadBytes (length bytes.now)) }
    ensures board { caller.new.board.value ≡ caller.old.board.value }
{
    match copied(&mut caller.block, bytes) {
        Ok(copy) => Ok(node.produce(&mut caller.pass, copy)),
        Err(misuse) => Err(misuse),
    }
}

#[tactic(auto, using(crate::proofs::Bad::pair_copy))]
fn produce_objects<B: BoardName>(
    one: &mut Object<B>,
    other: &mut Object<B>,
    bytes: &[u8],
) -> Called<Receipt>
    ensures met { PairCalled (BadBytes (length bytes.now)) (Some one.old) (Some one.new) (Some other.old) (Some other.new) result (Produces bytes.now) }
    ensures fits { OnOk result (FitsBatch (length bytes.now)) }
{
    match &mut one.kind {
        Kind::Node(node) => match &mut other.kind {
            Kind::Caller(caller) => produce_copy(node, caller, bytes),
            _ => Err(Misuse::OtherKind),
        },
        _ => Err(Misuse::OtherKind),
    }
}

/// Hands the node the batch that the bytes are, which are copied once, as by `Node::produce`. Closed, OtherKind, NoRoom; BadLength above
/// 2,147,483,659 bytes.
#[tactic(auto, using(crate::proofs::Bad::pair_bad))]
pub fn produce<B: BoardName + Unnamed>(
    alloc: Global,
    node: &mut Handle,
    caller: &mut Handle,
    bytes: &[u8],
) -> Called<Receipt>
    requires node { IfSome node.old.object (λ _. node.old.table ≡ B.table) }
    requires caller { IfSome caller.old.object (λ _. caller.old.table ≡ B.table) }
    ensures called { PairCalled (BadBytes (length bytes.now)) node.old.object node.new.object caller.old.object caller.new.object result (Produces bytes.now) }
    ensures fits { OnOk result (FitsBatch (length bytes.now)) }
    ensures cluster { (node.new.table ≡ node.old.table) × (caller.new.table ≡ caller.old.table) }
{
    let Some((mut first, mut second)) = take_two::<B>(alloc, node, caller) else {
        return Err(Misuse::Closed);
    };
    let answer = produce_objects(&mut first, &mut second, bytes);
    put(node, first);
    put(caller, second);
    answer
}

// The handle's bytes are shared.
fn produce_share<B: BoardName, C: BoardName + Unnamed>(
    alloc: Global,
    node: &mut Node<B>,
    pass: &mut Pass<B>,
    held: &mut Handle,
) -> Called<Receipt>
    requires { IfSome held.old.object (λ _. held.old.table ≡ C.table) }
    ensures made { IfOk result (λ answer. (bytes : List ℕ) × (held.old.object ≡ Some (handed bytes)) × Produces bytes node.old node.new pass.old pass.new answer) }
    ensures same { OnErr result ((node.new ≡ node.old) × (pass.new ≡ pass.old)) }
    ensures only { IfErr result (BadShare held.old.object) }
    ensures held { held.new.object ≡ held.old.object }
{
    match look::<C, _, _>(alloc, held, Share) {
        Ok(bytes) => Ok(node.produce(pass, bytes)),
        Err(misuse) => Err(misuse),
    }
}

fn produce_shared<B: BoardName, C: BoardName + Unnamed>(
    alloc: Global,
    one: &mut Object<B>,
    other: &mut Object<B>,
    held: &mut Handle,
) -> Called<Receipt>
    requires { IfSome held.old.object (λ _. held.old.table ≡ C.table) }
    ensures called { HandedCalled held.old.object (Some one.old) (Some one.new) (Some other.old) (Some other.new) result }
    ensures same { held.new.object ≡ held.old.object }
{
    match &mut one.kind {
        Kind::Node(node) => match &mut other.kind {
            Kind::Caller(caller) => produce_share::<B, C>(alloc, node, &mut caller.pass, held),
            _ => Err(Misuse::OtherKind),
        },
        _ => Err(Misuse::OtherKind),
    }
}

/// Hands the node the batch that the bytes in the third handle are, which it holds on, as by `Node::produce`. They may be of another board.
/// Closed, OtherKind, NoRoom.
#[tactic(auto, using(crate::proofs::Bad::handed_called))]
pub fn produce_handed<B: BoardName + Unnamed, C: BoardName + Unnamed>(
    alloc: Global,
    node: &mut Handle,
    caller: &mut Handle,
    held: &mut Handle,
) -> Called<Receipt>
    requires node { IfSome node.old.object (λ _. node.old.table ≡ B.table) }
    requires caller { IfSome caller.old.object (λ _. caller.old.table ≡ B.table) }
    requires held { IfSome held.old.object (λ _. held.old.table ≡ C.table) }
    ensures called { HandedCalled held.old.object node.old.object node.new.object caller.old.object caller.new.object result }
    ensures same { held.new.object ≡ held.old.object }
    ensures cluster { (node.new.table ≡ node.old.table) × (caller.new.table ≡ caller.old.table) }
{
    let Some((mut first, mut second)) = take_two::<B>(alloc, node, caller) else {
        return Err(Misuse::Closed);
    };
    let answer = produce_shared::<B, C>(alloc, &mut first, &mut second, held);
    put(node, first);
    put(caller, second);
    answer
}

/// Hands the node a transaction's marker, as by `Node::mark`.
#[derive(Drop)]
struct Mark {
    handed: HandedMarker,
}

impl OfPair<Receipt> for Mark {
    ghost use Rattle.kp_node.specs.CallerCalls.{Marks};

    ghost gives = { λ m. Marks m.handed.marker };

    fn ask<B: BoardName>(self, node: &mut Node<B>, pass: &mut Pass<B>) -> Result<Receipt, Refusal> {
        node.mark(pass, &self.handed)
    }
}

/// Hands the node a transaction's marker, as by `Node::mark`. Closed, OtherKind; OutOfRange where one of its fields is.
pub fn mark_in<B: BoardName + Unnamed>(
    alloc: Global,
    node: &mut Handle,
    caller: &mut Handle,
    marker: Marker,
) -> Called<Receipt>
    requires node { IfSome node.old.object (λ _. node.old.table ≡ B.table) }
    requires caller { IfSome caller.old.object (λ _. caller.old.table ≡ B.table) }
    ensures called { PairCalled (BadMarker marker) node.old.object node.new.object caller.old.object caller.new.object result (Marks marker) }
    ensures cluster { (node.new.table ≡ node.old.table) × (caller.new.table ≡ caller.old.table) }
{
    let Some(handed) = HandedMarker::new(marker) else {
        return Err(Misuse::OutOfRange);
    };
    with_pair::<B, _, _>(alloc, node, caller, Mark { handed })
}

/// Whether the receipt's batch is committed, as by `Node::acked`.
#[derive(Drop)]
pub struct Acked {
    pub receipt: Receipt,
}

impl OfPair<Ack> for Acked {
    ghost use Rattle.kp_node.specs.CallerCalls.{Acks};

    ghost gives = { λ a. Acks a.receipt };

    fn ask<B: BoardName>(self, node: &mut Node<B>, pass: &mut Pass<B>) -> Result<Ack, Refusal> {
        node.acked(pass, &self.receipt)
    }
}
