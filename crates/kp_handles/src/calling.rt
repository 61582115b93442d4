//! What a call of handles does with what they hold.

ghost use Rattle.std.specs.Prelude.{◌≡◌, IfErr, IfOk, IfSome, None, OnErr, OnOk, Some};
ghost use Rattle.kp_handles.specs.Called.{CallerCalled, GiveCalled, IsBoxed, NoReason, NodeCalled, NodeGives, PairCalled, done_of, made_of};
ghost use Rattle.kp_handles.specs.declared.misuse.Misuse.TheVariants.{NoRoom};

use crate::handle::{Handle, Unnamed, is_open, put, take, take_two};
use crate::misuse::Misuse;
use crate::object::{Kind, Object, filled, room};
use kp_board::{Board, BoardName, Pass};
use kp_node::Node;
use kp_types::Refusal;
use std::alloc::Global;

/// What a call of handles answers: the answer of the call of `Node` or `Board` that it makes, with that one's refusals, or why none was
/// made. Nothing has changed where it is a misuse: Closed and OtherKind of a handle that holds none of what is asked, InUse of one
/// that was to be written and is open, NoRoom where its memory was refused and nothing else is wrong. The handles cost O(1) beside the
/// call. (Own rule.)
pub type Called<T> = Result<Result<T, Refusal>, Misuse>;

/// Puts what was made, if it was, into a closed handle; what is left is the answer. O(1).
pub(crate) fn put_made<B: BoardName + Unnamed>(
    out: &mut Handle,
    answer: Called<Box<Object<B>>>,
) -> Called<()>
    requires { out.old.object ≡ None }
    ensures done { result ≡ done_of answer }
    ensures made { out.new.object ≡ made_of answer }
    ensures named { IfOk result (λ done. OnOk done (out.new.table ≡ B.table)) }
{
    match answer {
        Ok(Ok(made)) => {
            put(out, made);
            Ok(Ok(()))
        }
        Ok(Err(refusal)) => Ok(Err(refusal)),
        Err(misuse) => Err(misuse),
    }
}

/// What a node does.
pub trait OfNode<T> {
    ghost use Rattle.std.specs.Prelude.{Result};
    ghost use Rattle.kp_types.specs.declared.refusal.Refusal.{Refusal};
    ghost use Rattle.kp_node.specs.Seated.{SeatedNode};

    ghost gives: { Self → (old new : SeatedNode) → Result T Refusal → Type 0 };

    fn ask<B: BoardName>(self, node: &mut Node<B>) -> Result<T, Refusal>
        ensures { Self.gives self node.old node.new result };
}

/// What a caller's pass does, beside its board of so many nodes, which has this table.
pub trait OfPass<T> {
    ghost use Rattle.std.specs.Prelude.{ℕ, Result};
    ghost use Rattle.kp_types.specs.declared.refusal.Refusal.{Refusal};
    ghost use Rattle.kp_board.specs.Opening.{BoardId};
    ghost use Rattle.kp_board.specs.Views.{CallerView};

    ghost gives: { Self → BoardId → ℕ → (old new : CallerView) → Result T Refusal → Type 0 };

    fn ask<B: BoardName>(self, board: &Board<B>, pass: &mut Pass<B>) -> Result<T, Refusal>
        ensures { Self.gives self B.table board.now pass.old pass.new result };
}

/// What a node and a caller's pass do.
pub trait OfPair<T> {
    ghost use Rattle.std.specs.Prelude.{Result};
    ghost use Rattle.kp_types.specs.declared.refusal.Refusal.{Refusal};
    ghost use Rattle.kp_board.specs.Views.{CallerView};
    ghost use Rattle.kp_node.specs.Seated.{SeatedNode};

    ghost gives: { Self → (old new : SeatedNode) → (was is : CallerView) → Result T Refusal → Type 0 };

    fn ask<B: BoardName>(self, node: &mut Node<B>, pass: &mut Pass<B>) -> Result<T, Refusal>
        ensures { Self.gives self node.old node.new pass.old pass.new result };
}

/// What a node gives into a handle.
pub trait GivenByNode {
    ghost use Rattle.std.specs.Prelude.{Result};
    ghost use Rattle.kp_types.specs.declared.refusal.Refusal.{Refusal};
    ghost use Rattle.kp_node.specs.Seated.{SeatedNode};
    ghost use Rattle.kp_handles.specs.Called.{IsMade};
    ghost use Rattle.kp_handles.specs.Objects.{ObjectView};

    ghost Found: { Type 0 };

    ghost held: { Found → ObjectView };

    ghost gives: { Self → (old new : SeatedNode) → Result Found Refusal → Type 0 };

    fn ask<B: BoardName>(self, node: &mut Node<B>) -> Result<Object<B>, Refusal>
        ensures { IsMade Self.held (Self.gives self node.old node.new) result };
}

/// What a node and a caller's pass give into a handle.
pub trait GivenByPair {
    ghost use Rattle.std.specs.Prelude.{Result};
    ghost use Rattle.kp_types.specs.declared.refusal.Refusal.{Refusal};
    ghost use Rattle.kp_board.specs.Views.{CallerView};
    ghost use Rattle.kp_node.specs.Seated.{SeatedNode};
    ghost use Rattle.kp_handles.specs.Called.{IsMade};
    ghost use Rattle.kp_handles.specs.Objects.{ObjectView};

    ghost Found: { Type 0 };

    ghost held: { Found → ObjectView };

    ghost gives: { Self → (old new : SeatedNode) → (was is : CallerView) → Result Found Refusal → Type 0 };

    fn ask<B: BoardName>(self, node: &mut Node<B>, pass: &mut Pass<B>) -> Result<Object<B>, Refusal>
        ensures { IsMade Self.held (Self.gives self node.old node.new pass.old pass.new) result };
}

/// The node of the handle does this.
#[tactic(auto, using(crate::proofs::Bad::node_bad))]
pub fn with_node<B: BoardName + Unnamed, T, Q: OfNode<T> + Drop>(
    alloc: Global,
    handle: &mut Handle,
    call: Q,
) -> Called<T>
    requires { IfSome handle.old.object (λ _. handle.old.table ≡ B.table) }
    ensures called { NodeCalled handle.old.object handle.new.object result (Q.gives call) }
    ensures cluster { handle.new.table ≡ handle.old.table }
{
    let Some(mut object) = take::<B>(alloc, handle) else {
        return Err(Misuse::Closed);
    };
    let Kind::Node(node) = &mut object.kind else {
        put(handle, object);
        return Err(Misuse::OtherKind);
    };
    let answer = call.ask(node);
    put(handle, object);
    Ok(answer)
}

/// The caller's pass of the handle, beside its board, does this.
#[tactic(auto, using(crate::proofs::Bad::caller_bad))]
pub fn with_pass<B: BoardName + Unnamed, T, Q: OfPass<T> + Drop>(
    alloc: Global,
    handle: &mut Handle,
    call: Q,
) -> Called<T>
    requires { IfSome handle.old.object (λ _. handle.old.table ≡ B.table) }
    ensures called { CallerCalled handle.old.object handle.new.object result (Q.gives call B.table) }
    ensures cluster { handle.new.table ≡ handle.old.table }
{
    let Some(mut object) = take::<B>(alloc, handle) else {
        return Err(Misuse::Closed);
    };
    let Kind::Caller(caller) = &mut object.kind else {
        put(handle, object);
        return Err(Misuse::OtherKind);
    };
    let answer = call.ask(&caller.board, &mut caller.pass);
    put(handle, object);
    Ok(answer)
}

fn call_pair<B: BoardName, T, Q: OfPair<T> + Drop>(
    one: &mut Object<B>,
    other: &mut Object<B>,
    call: Q,
) -> Called<T>
    ensures { PairCalled NoReason (Some one.old) (Some one.new) (Some other.old) (Some other.new) result
        (Q.gives call) }
{
    match &mut one.kind {
        Kind::Node(node) => match &mut other.kind {
            Kind::Caller(caller) => Ok(call.ask(node, &mut caller.pass)),
            _ => Err(Misuse::OtherKind),
        },
        _ => Err(Misuse::OtherKind),
    }
}

/// The node and the caller's pass of two handles do this.
#[tactic(auto, using(crate::proofs::Bad::pair_bad))]
pub fn with_pair<B: BoardName + Unnamed, T, Q: OfPair<T> + Drop>(
    alloc: Global,
    node: &mut Handle,
    caller: &mut Handle,
    call: Q,
) -> Called<T>
    requires node { IfSome node.old.object (λ _. node.old.table ≡ B.table) }
    requires caller { IfSome caller.old.object (λ _. caller.old.table ≡ B.table) }
    ensures called { PairCalled NoReason node.old.object node.new.object caller.old.object caller.new.object result
        (Q.gives call) }
    ensures cluster { (node.new.table ≡ node.old.table) × (caller.new.table ≡ caller.old.table) }
{
    let Some((mut first, mut second)) = take_two::<B>(alloc, node, caller) else {
        return Err(Misuse::Closed);
    };
    let answer = call_pair(&mut first, &mut second, call);
    put(node, first);
    put(caller, second);
    answer
}

fn make_by_node<B: BoardName, Q: GivenByNode + Drop>(
    alloc: Global,
    object: &mut Object<B>,
    call: Q,
) -> Called<Box<Object<B>>>
    ensures { NodeGives Q.held (Q.gives call)
        (Some object.old) (Some object.new) None (made_of result) (done_of result) }
{
    match &mut object.kind {
        Kind::Node(node) => {
            let Some(made) = room::<B>(alloc) else {
                return Err(Misuse::NoRoom);
            };
            match call.ask(node) {
                Ok(found) => Ok(Ok(filled(made, found))),
                Err(refusal) => Ok(Err(refusal)),
            }
        }
        _ => Err(Misuse::OtherKind),
    }
}

/// The node of the handle does this, and what comes of it goes into a closed handle.
#[tactic(auto, using(crate::proofs::Bad::node_room))]
pub fn give_by_node<B: BoardName + Unnamed, Q: GivenByNode + Drop>(
    alloc: Global,
    node: &mut Handle,
    out: &mut Handle,
    call: Q,
) -> Called<()>
    requires { IfSome node.old.object (λ _. node.old.table ≡ B.table) }
    ensures called { NodeGives Q.held (Q.gives call)
        node.old.object node.new.object out.old.object out.new.object result }
    ensures cluster { node.new.table ≡ node.old.table }
    ensures named { IfOk result (λ done. OnOk done (out.new.table ≡ B.table)) }
{
    if is_open(out) {
        return Err(Misuse::InUse);
    }
    let Some(mut object) = take::<B>(alloc, node) else {
        return Err(Misuse::Closed);
    };
    let answer = make_by_node(alloc, &mut object, call);
    put(node, object);
    put_made(out, answer)
}

// What the node and the pass make, in room of its own.
fn make<B: BoardName, Q: GivenByPair + Drop>(
    alloc: Global,
    node: &mut Node<B>,
    pass: &mut Pass<B>,
    call: Q,
) -> Called<Box<Object<B>>>
    ensures made { IfOk result (IsBoxed Q.held (Q.gives call node.old node.new pass.old pass.new)) }
    ensures same { OnErr result ((node.new ≡ node.old) × (pass.new ≡ pass.old)) }
    ensures only { IfErr result (λ why. why ≡ NoRoom) }
{
    let Some(made) = room::<B>(alloc) else {
        return Err(Misuse::NoRoom);
    };
    match call.ask(node, pass) {
        Ok(found) => Ok(Ok(filled(made, found))),
        Err(refusal) => Ok(Err(refusal)),
    }
}

fn make_by_pair<B: BoardName, Q: GivenByPair + Drop>(
    alloc: Global,
    one: &mut Object<B>,
    other: &mut Object<B>,
    call: Q,
) -> Called<Box<Object<B>>>
    ensures { GiveCalled Q.held (Q.gives call)
        (Some one.old) (Some one.new) (Some other.old) (Some other.new) None (made_of result) (done_of result) }
{
    match &mut one.kind {
        Kind::Node(node) => match &mut other.kind {
            Kind::Caller(caller) => make(alloc, node, &mut caller.pass, call),
            _ => Err(Misuse::OtherKind),
        },
        _ => Err(Misuse::OtherKind),
    }
}

/// The node and the caller's pass of two handles do this, and what comes of it goes into a closed handle.
#[tactic(auto, using(crate::proofs::Bad::pair_room))]
pub fn give_by_pair<B: BoardName + Unnamed, Q: GivenByPair + Drop>(
    alloc: Global,
    node: &mut Handle,
    caller: &mut Handle,
    out: &mut Handle,
    call: Q,
) -> Called<()>
    requires node { IfSome node.old.object (λ _. node.old.table ≡ B.table) }
    requires caller { IfSome caller.old.object (λ _. caller.old.table ≡ B.table) }
    ensures called { GiveCalled Q.held (Q.gives call)
        node.old.object node.new.object caller.old.object caller.new.object out.old.object out.new.object result }
    ensures cluster { (node.new.table ≡ node.old.table) × (caller.new.table ≡ caller.old.table) }
{
    if is_open(out) {
        return Err(Misuse::InUse);
    }
    let Some((mut first, mut second)) = take_two::<B>(alloc, node, caller) else {
        return Err(Misuse::Closed);
    };
    let answer = make_by_pair(alloc, &mut first, &mut second, call);
    put(node, first);
    put(caller, second);
    put_made(out, answer)
}
