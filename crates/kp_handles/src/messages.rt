//! Calls that send a message, or take one.

ghost use Rattle.std.specs.Prelude.{◌≡◌, IfSome, IfOk, IfErr, OnOk, OnErr, None, Some};
ghost use Rattle.kp_model.specs.World.{Message as ModelMessage};
ghost use Rattle.kp_model.specs.declared.message.MessageBody.{MessageBody};
ghost use Rattle.kp_handles.specs.Objects.{message};
ghost use Rattle.kp_board.specs.Posts.{post_of, posted, posts_of};
ghost use Rattle.kp_handles.specs.Called.{done_of, made_of};
ghost use Rattle.kp_handles.specs.declared.misuse.Misuse.TheVariants.{NoRoom};
ghost use Rattle.kp_handles.specs.Messages.{DecideCalled, DecideMet, IsRepeated, RepeatCalled, Sends, StepCalled, Decided, StepMet, Took, answer_of, handle_left, refusal_of};

use crate::calling::{Called, GivenByNode, put_made};
use crate::handle::{Handle, Unnamed, is_open, put, take_two};
use crate::misuse::Misuse;
use crate::object::{Kind, Object, filled, room};
use kp_board::{Board, BoardName, Message, Pass};
use kp_node::Node;
use kp_replica::IsrChange;
use kp_types::Refusal;
use std::alloc::Global;

// The node proposes the change, or asks its leader where there is none.
fn sent_by<B: BoardName>(
    node: &mut Node<B>,
    proposed: Option<IsrChange>,
) -> Result<Message<B>, Refusal>
    ensures { Sends proposed node.old node.new (post_of result) }
{
    match proposed {
        None => node.ask(),
        Some(change) => node.alter(change),
    }
}

/// Proposes a change of the in-sync replicas, as `Node::alter` does, or asks the node's leader, as `Node::ask` does, where there is none.
#[derive(Drop)]
pub struct SendMessage {
    pub proposed: Option<IsrChange>,
}

impl GivenByNode for SendMessage {
    ghost use Rattle.kp_board.specs.Posts.{Posted};
    ghost use Rattle.kp_handles.specs.Messages.{Sends, holds};

    ghost Found = { Posted };

    ghost held = { holds };

    ghost gives = { λ s. Sends s.proposed };

    fn ask<B: BoardName>(self, node: &mut Node<B>) -> Result<Object<B>, Refusal> {
        match sent_by(node, self.proposed) {
            Ok(message) => Ok(Object {
                kind: Kind::Message(message),
            }),
            Err(refusal) => Err(refusal),
        }
    }
}

// What is left of a message, and what is answered.
fn leave<B: BoardName>(
    answer: Result<Option<Message<B>>, Refusal>,
) -> (Option<Object<B>>, Result<(), Refusal>)
    ensures left { result.0 ≡ handle_left (answer_of (posts_of answer)) }
    ensures done { result.1 ≡ refusal_of (posts_of answer) }
{
    match answer {
        Ok(Some(sent)) => {
            let kind = Kind::Message(sent);
            (Some(Object { kind }), Ok(()))
        }
        Ok(None) => (None, Ok(())),
        Err(refusal) => (None, Err(refusal)),
    }
}

// The node takes the message.
#[tactic(auto, unfolding(crate::specs::Messages::Took))]
fn taken<B: BoardName>(
    node: &mut Node<B>,
    message: Message<B>,
) -> (Option<Object<B>>, Result<(), Refusal>)
    ensures { Took (posted message) node.old node.new result.0 result.1 }
{
    leave(node.step(message))
}

// The message, if the object is one; else the object again.
fn message_of<B: BoardName>(letter: Object<B>) -> Result<Message<B>, Object<B>>
    ensures message { IfOk result (λ m. letter ≡ message m.body m.pass) }
    ensures other { IfErr result (λ o. o ≡ letter) }
    ensures no_message { OnErr result ((body : MessageBody) → (pass : ModelMessage) → letter ≡ message body pass → ⊥) }
{
    match letter.into_kind() {
        Kind::Message(message) => Ok(message),
        kind => Err(Object { kind }),
    }
}

fn step_object<B: BoardName>(
    one: &mut Object<B>,
    sent: Message<B>,
) -> (Option<Object<B>>, Called<()>)
    ensures { StepMet one.old one.new (message sent.body sent.pass) result.0 result.1 }
{
    match &mut one.kind {
        Kind::Node(node) => {
            let (left, done) = taken(node, sent);
            (left, Ok(done))
        }
        _ => {
            let kind = Kind::Message(sent);
            (Some(Object { kind }), Err(Misuse::OtherKind))
        }
    }
}

#[tactic(auto, using(crate::proofs::Posts::step_of))]
fn step_objects<B: BoardName>(
    one: &mut Object<B>,
    letter: Object<B>,
) -> (Option<Object<B>>, Called<()>)
    ensures { StepMet one.old one.new letter result.0 result.1 }
{
    match message_of(letter) {
        Ok(sent) => step_object(one, sent),
        Err(other) => (Some(other), Err(Misuse::OtherKind)),
    }
}

/// Hands the node a message, as by `Node::step`. Its handle holds the answer then, or is closed where there is none. Closed, OtherKind.
#[tactic(auto, using(crate::proofs::Posts::step_called))]
pub fn step<B: BoardName + Unnamed>(
    alloc: Global,
    node: &mut Handle,
    letter: &mut Handle,
) -> Called<()>
    requires node { IfSome node.old.object (λ _. node.old.table ≡ B.table) }
    requires letter { IfSome letter.old.object (λ _. letter.old.table ≡ B.table) }
    ensures called { StepCalled node.old.object node.new.object letter.old.object letter.new.object result }
    ensures cluster { node.new.table ≡ node.old.table }
    ensures named { IfSome letter.new.object (λ _. letter.new.table ≡ letter.old.table) }
{
    let Some((mut first, mut second)) = take_two::<B>(alloc, node, letter) else {
        return Err(Misuse::Closed);
    };
    let came = Box::replace(&mut second, Object { kind: Kind::Empty });
    let (left, done) = step_objects(&mut first, came);
    put(node, first);
    match left {
        Some(object) => {
            Box::replace(&mut second, object);
            put(letter, second);
        }
        None => {}
    }
    done
}

// The controller decides on the message, with a caller's pass.
#[tactic(auto, unfolding(crate::specs::Messages::Decided))]
fn decided<B: BoardName>(
    board: &Board<B>,
    pass: &mut Pass<B>,
    message: Message<B>,
) -> (Option<Object<B>>, Result<(), Refusal>)
    ensures { Decided (posted message) pass.old pass.new result.0 result.1 }
{
    match board.decide(pass, message) {
        Ok(answer) => {
            let kind = Kind::Message(answer);
            (Some(Object { kind }), Ok(()))
        }
        Err(refusal) => (None, Err(refusal)),
    }
}

fn decide_object<B: BoardName>(
    one: &mut Object<B>,
    sent: Message<B>,
) -> (Option<Object<B>>, Called<()>)
    ensures { DecideMet one.old one.new (message sent.body sent.pass) result.0 result.1 }
{
    match &mut one.kind {
        Kind::Caller(caller) => {
            let (left, done) = decided(&caller.board, &mut caller.pass, sent);
            (left, Ok(done))
        }
        _ => {
            let kind = Kind::Message(sent);
            (Some(Object { kind }), Err(Misuse::OtherKind))
        }
    }
}

#[tactic(auto, using(crate::proofs::Posts::decide_of))]
fn decide_objects<B: BoardName>(
    one: &mut Object<B>,
    letter: Object<B>,
) -> (Option<Object<B>>, Called<()>)
    ensures { DecideMet one.old one.new letter result.0 result.1 }
{
    match message_of(letter) {
        Ok(sent) => decide_object(one, sent),
        Err(other) => (Some(other), Err(Misuse::OtherKind)),
    }
}

/// Decides on a proposal with a caller's pass, as by `Board::decide`. The message's handle holds the answer then, or is closed. Closed, OtherKind.
#[tactic(auto, using(crate::proofs::Posts::decide_called))]
pub fn decide<B: BoardName + Unnamed>(
    alloc: Global,
    caller: &mut Handle,
    letter: &mut Handle,
) -> Called<()>
    requires caller { IfSome caller.old.object (λ _. caller.old.table ≡ B.table) }
    requires letter { IfSome letter.old.object (λ _. letter.old.table ≡ B.table) }
    ensures called { DecideCalled caller.old.object caller.new.object letter.old.object letter.new.object result }
    ensures cluster { caller.new.table ≡ caller.old.table }
    ensures named { IfSome letter.new.object (λ _. letter.new.table ≡ letter.old.table) }
{
    let Some((mut first, mut second)) = take_two::<B>(alloc, caller, letter) else {
        return Err(Misuse::Closed);
    };
    let came = Box::replace(&mut second, Object { kind: Kind::Empty });
    let (left, done) = decide_objects(&mut first, came);
    put(caller, first);
    match left {
        Some(object) => {
            Box::replace(&mut second, object);
            put(letter, second);
        }
        None => {}
    }
    done
}

// The message once more, in room of its own.
fn repeated<B: BoardName>(
    alloc: Global,
    board: &Board<B>,
    sent: &mut Message<B>,
) -> Called<Box<Object<B>>>
    ensures same { (sent.new.body ≡ sent.old.body) × (sent.new.pass ≡ sent.old.pass) }
    ensures made { IfOk result (IsRepeated sent.old.body sent.old.pass) }
    ensures only { IfErr result (λ why. why ≡ NoRoom) }
{
    let Some(made) = room::<B>(alloc) else {
        return Err(Misuse::NoRoom);
    };
    match sent.repeat(board) {
        Ok(again) => {
            let kind = Kind::Message(again);
            Ok(Ok(filled(made, Object { kind })))
        }
        Err(refusal) => Ok(Err(refusal)),
    }
}

fn repeat_objects<B: BoardName>(
    alloc: Global,
    one: &Object<B>,
    letter: &mut Object<B>,
) -> Called<Box<Object<B>>>
    ensures same { letter.new ≡ letter.old }
    ensures met { RepeatCalled (Some one.now) (Some letter.old) None (made_of result) (done_of result) }
{
    match &one.kind {
        Kind::Caller(caller) => match &mut letter.kind {
            Kind::Message(sent) => repeated(alloc, &caller.board, sent),
            _ => Err(Misuse::OtherKind),
        },
        _ => Err(Misuse::OtherKind),
    }
}

/// Puts the message once more into a closed handle, as a carrier may bring it twice, by `Message::repeat`, over the board of a caller's
/// pass. F33; InUse, Closed, OtherKind, NoRoom.
#[tactic(auto, using(crate::proofs::Bad::repeat_room))]
pub fn repeat<B: BoardName + Unnamed>(
    alloc: Global,
    caller: &mut Handle,
    letter: &mut Handle,
    out: &mut Handle,
) -> Called<()>
    requires caller { IfSome caller.old.object (λ _. caller.old.table ≡ B.table) }
    requires letter { IfSome letter.old.object (λ _. letter.old.table ≡ B.table) }
    ensures called { RepeatCalled caller.old.object letter.old.object out.old.object out.new.object result }
    ensures same { (caller.new.object ≡ caller.old.object) × (letter.new.object ≡ letter.old.object) }
    ensures cluster { (caller.new.table ≡ caller.old.table) × (letter.new.table ≡ letter.old.table) }
    ensures named { IfOk result (λ done. OnOk done (out.new.table ≡ B.table)) }
{
    if is_open(out) {
        return Err(Misuse::InUse);
    }
    let Some((first, mut second)) = take_two::<B>(alloc, caller, letter) else {
        return Err(Misuse::Closed);
    };
    let answer = repeat_objects(alloc, &first, &mut second);
    put(caller, first);
    put(letter, second);
    put_made(out, answer)
}
