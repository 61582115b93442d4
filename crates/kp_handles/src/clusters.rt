//! How a cluster, its nodes and passes are opened, and how a handle is closed.

ghost use Rattle.std.specs.Prelude.{◌≡◌, ◌<◌, ◌+◌, ◌*◌, ℕ, IfSome, IfOk, IfErr, OnOk, OnErr, None, Some, length, ◌∷◌};
ghost use Rattle.kp_board.specs.Views.{new_caller};
ghost use Rattle.kp_handles.specs.Objects.{caller, cluster, cluster_view};
ghost use Rattle.kp_handles.specs.declared.misuse.Misuse.TheVariants.{Closed, NoRoom};
ghost use Rattle.kp_handles.specs.Opening.{BadCallerOpening, BadNodeOpening, IsCluster, OpensNode, OpensCaller};

use crate::handle::{Handle, Unnamed, is_open, put, take};
use crate::misuse::Misuse;
use crate::object::{Caller, Cluster, Kind, Object, filled, room};
use bytes::BytesMut;
use kp_board::{BoardName, Opened};
use kp_node::{Node, Seats, seat};
use kp_types::Limits;
use std::alloc::Global;
use std::sync::Arc;

// The cluster of a board's nodes.
pub(crate) fn of_seats<B: BoardName>(seats: Seats<B>) -> Object<B>
    ensures { result ≡ cluster seats.board.value seats.nodes.items seats.callers }
{
    let Seats {
        board,
        nodes,
        callers,
    } = seats;
    Object {
        kind: Kind::Cluster(Cluster {
            board,
            waiting: nodes,
            callers,
        }),
    }
}

fn cluster_of<B: BoardName>(
    alloc: Global,
    opened: Opened,
    limits: &Limits,
) -> Result<Object<B>, Misuse>
    requires { opened ≡ B.table }
    ensures made { IfOk result (λ o. (n : ℕ) × (2 * n + 1 ≡ opened.words) × IsCluster n limits.now (Some o)) }
    ensures only { IfErr result (λ why. why ≡ NoRoom) }
{
    match seat::<B>(alloc, opened, limits) {
        Ok(seats) => Ok(of_seats(seats)),
        Err(_) => Err(Misuse::NoRoom),
    }
}

/// Puts a new board under its name into a closed handle, with a pass for each of its nodes. NoRoom, and the handle is as before then.
/// O(nodes).
pub fn open<B: BoardName + Unnamed>(
    alloc: Global,
    opened: Opened,
    limits: &Limits,
    handle: &mut Handle,
) -> Result<(), Misuse>
    requires name { opened ≡ B.table }
    requires closed { handle.old.object ≡ None }
    ensures made { OnOk result ((n : ℕ) × (2 * n + 1 ≡ opened.words) × IsCluster n limits.now handle.new.object) }
    ensures same { OnErr result (handle.new ≡ handle.old) }
    ensures only { IfErr result (λ why. why ≡ NoRoom) }
{
    let Some(made) = room::<B>(alloc) else {
        return Err(Misuse::NoRoom);
    };
    match cluster_of::<B>(alloc, opened, limits) {
        Ok(object) => {
            put(handle, filled(made, object));
            Ok(())
        }
        Err(misuse) => Err(misuse),
    }
}

#[tactic(auto, using(crate::proofs::Waiting::first_waiting))]
fn next_waiting<B: BoardName>(waiting: &mut Vec<Node<B>>) -> Node<B>
    requires { 0 < length waiting.old.items }
    ensures { waiting.old.items ≡ result ∷ waiting.new.items }
{
    waiting.remove(0)
}

// Room is taken once a node is known to wait.
#[tactic(auto, using(crate::proofs::Waiting::none_left))]
fn node_of<B: BoardName>(alloc: Global, cluster: &mut Cluster<B>) -> Result<Box<Object<B>>, Misuse>
    ensures opened { IfOk result (λ made. OpensNode (Some (cluster_view cluster.old)) (Some (cluster_view cluster.new)) (Some made.value)) }
    ensures same { OnErr result (cluster_view cluster.new ≡ cluster_view cluster.old) }
    ensures only { IfErr result (BadNodeOpening (Some (cluster_view cluster.old)) None) }
{
    if cluster.waiting.is_empty() {
        return Err(Misuse::OutOfRange);
    }
    let Some(made) = room::<B>(alloc) else {
        return Err(Misuse::NoRoom);
    };
    let kind = Kind::Node(next_waiting(&mut cluster.waiting));
    Ok(filled(made, Object { kind }))
}

fn next_node<B: BoardName>(alloc: Global, object: &mut Object<B>) -> Result<Box<Object<B>>, Misuse>
    ensures opened { IfOk result (λ made. OpensNode (Some object.old) (Some object.new) (Some made.value)) }
    ensures same { OnErr result (object.new ≡ object.old) }
    ensures only { IfErr result (BadNodeOpening (Some object.old) None) }
{
    match &mut object.kind {
        Kind::Cluster(cluster) => node_of(alloc, cluster),
        _ => Err(Misuse::OtherKind),
    }
}

fn caller_of<B: BoardName>(
    alloc: Global,
    cluster: &mut Cluster<B>,
) -> Result<Box<Object<B>>, Misuse>
    ensures opened { IfOk result (λ made. OpensCaller (Some (cluster_view cluster.old)) (Some (cluster_view cluster.new)) (Some made.value)) }
    ensures same { OnErr result (cluster_view cluster.new ≡ cluster_view cluster.old) }
    ensures only { IfErr result (λ why. why ≡ NoRoom) }
{
    let Some(made) = room::<B>(alloc) else {
        return Err(Misuse::NoRoom);
    };
    let Ok(board) = Arc::try_clone(&cluster.board) else {
        return Err(Misuse::NoRoom);
    };
    let pass = board.pass(&mut cluster.callers);
    let block = BytesMut::new(alloc);
    let kind = Kind::Caller(Caller { board, pass, block });
    Ok(filled(made, Object { kind }))
}

#[tactic(auto, using(crate::proofs::Bad::caller_room))]
fn next_caller<B: BoardName>(
    alloc: Global,
    object: &mut Object<B>,
) -> Result<Box<Object<B>>, Misuse>
    ensures opened { IfOk result (λ made. OpensCaller (Some object.old) (Some object.new) (Some made.value)) }
    ensures same { OnErr result (object.new ≡ object.old) }
    ensures only { IfErr result (BadCallerOpening (Some object.old) None) }
{
    match &mut object.kind {
        Kind::Cluster(cluster) => caller_of(alloc, cluster),
        _ => Err(Misuse::OtherKind),
    }
}

/// Opens the cluster's next node, 0 first, into a closed handle. InUse, Closed, OtherKind, NoRoom; OutOfRange where all nodes are open.
/// O(1).
#[tactic(auto, using(crate::proofs::Bad::node_opening))]
pub fn open_node<B: BoardName + Unnamed>(
    alloc: Global,
    cluster: &mut Handle,
    node: &mut Handle,
) -> Result<(), Misuse>
    requires { IfSome cluster.old.object (λ _. cluster.old.table ≡ B.table) }
    ensures opened { OnOk result (OpensNode cluster.old.object cluster.new.object node.new.object × (node.old.object ≡ None) × (node.new.table ≡ cluster.old.table)) }
    ensures same { OnErr result ((cluster.new.object ≡ cluster.old.object) × (node.new ≡ node.old)) }
    ensures only { IfErr result (BadNodeOpening cluster.old.object node.old.object) }
    ensures table { cluster.new.table ≡ cluster.old.table }
{
    if is_open(node) {
        return Err(Misuse::InUse);
    }
    let Some(mut object) = take::<B>(alloc, cluster) else {
        return Err(Misuse::Closed);
    };
    let next = next_node(alloc, &mut object);
    put(cluster, object);
    match next {
        Ok(made) => {
            put(node, made);
            Ok(())
        }
        Err(misuse) => Err(misuse),
    }
}

/// Opens a new caller's pass of the cluster into a closed handle. InUse, Closed, OtherKind, NoRoom. O(1).
#[tactic(auto, using(crate::proofs::Bad::caller_opening))]
pub fn open_caller<B: BoardName + Unnamed>(
    alloc: Global,
    cluster: &mut Handle,
    caller: &mut Handle,
) -> Result<(), Misuse>
    requires { IfSome cluster.old.object (λ _. cluster.old.table ≡ B.table) }
    ensures opened { OnOk result (OpensCaller cluster.old.object cluster.new.object caller.new.object × (caller.old.object ≡ None) × (caller.new.table ≡ cluster.old.table)) }
    ensures same { OnErr result ((cluster.new.object ≡ cluster.old.object) × (caller.new ≡ caller.old)) }
    ensures only { IfErr result (BadCallerOpening cluster.old.object caller.old.object) }
    ensures table { cluster.new.table ≡ cluster.old.table }
{
    if is_open(caller) {
        return Err(Misuse::InUse);
    }
    let Some(mut object) = take::<B>(alloc, cluster) else {
        return Err(Misuse::Closed);
    };
    let next = next_caller(alloc, &mut object);
    put(cluster, object);
    match next {
        Ok(made) => {
            put(caller, made);
            Ok(())
        }
        Err(misuse) => Err(misuse),
    }
}

/// Drops what the handle holds, with its memory. Closed. It costs what it drops.
pub fn close<B: BoardName + Unnamed>(alloc: Global, handle: &mut Handle) -> Result<(), Misuse>
    requires { IfSome handle.old.object (λ _. handle.old.table ≡ B.table) }
    ensures closed { handle.new.object ≡ None }
    ensures was_closed { OnErr result (handle.new ≡ handle.old) }
    ensures only { IfErr result (λ why. (why ≡ Closed) × (handle.old.object ≡ None)) }
{
    match take::<B>(alloc, handle) {
        Some(_object) => Ok(()),
        None => Err(Misuse::Closed),
    }
}
