//! Calls that send a message, or take one.
ghost use Rattle.std.specs.Prelude.{◌≡◌, Result, IfSome};
ghost use Rattle.kp_types.specs.declared.refusal.Refusal.{Refusal};
ghost use Rattle.kp_handles.specs.Called.{AreOfOne};
ghost use Rattle.kp_node.specs.MessageCalls.{Alters, Asks};
ghost use Rattle.kp_handles.specs.Messages.{DecideCalled, RepeatCalled, SendCalled, StepCalled};
ghost use Rattle.kp_handles.specs.Numbers.{answer_number};
ghost use Rattle.kp_handles.specs.Outs.{change_in};
ghost use Rattle.kp_handles.specs.declared.misuse.Misuse.{Misuse};

use crate::answers::number;
use kp_handles::{Handle, SendMessage, change_in, decide, give_by_node, repeat, step};
use std::alloc::Global;
use std::marker::Brand;

/// A node asks its leader, into a closed handle.
#[unsafe(no_mangle)]
pub extern "C" fn kp_ask(alloc: Global, node: &mut Handle, message: &mut Handle) -> u32
    ensures called { (answer : Result (Result (Unit {0}) Refusal) Misuse) × (result ≡ answer_number answer)
        × SendCalled node.old.object node.new.object message.old.object message.new.object answer Asks }
    ensures cluster { node.new.table ≡ node.old.table }
    ensures named { result ≡ 0 → message.new.table ≡ node.old.table }
{
    let call = SendMessage { proposed: None };
    number(give_by_node::<Brand, _>(alloc, node, message, call))
}

/// A node proposes a change of the in-sync replicas, into a closed handle.
#[unsafe(no_mangle)]
pub extern "C" fn kp_alter(
    alloc: Global,
    node: &mut Handle,
    joins: bool,
    which: u8,
    message: &mut Handle,
) -> u32
    ensures called { (answer : Result (Result (Unit {0}) Refusal) Misuse) × (result ≡ answer_number answer)
        × SendCalled node.old.object node.new.object message.old.object message.new.object answer (Alters (change_in joins which)) }
    ensures cluster { node.new.table ≡ node.old.table }
    ensures named { result ≡ 0 → message.new.table ≡ node.old.table }
{
    let call = SendMessage {
        proposed: Some(change_in(joins, which)),
    };
    number(give_by_node::<Brand, _>(alloc, node, message, call))
}

/// A message comes to a node; its handle holds the answer then, or is closed.
#[tactic(auto, using(crate::proofs::OneCluster::first_is, crate::proofs::OneCluster::second_is))]
#[unsafe(no_mangle)]
pub extern "C" fn kp_step(alloc: Global, node: &mut Handle, message: &mut Handle) -> u32
    requires { AreOfOne node.old.object node.old.table message.old.object message.old.table }
    ensures called { (answer : Result (Result (Unit {0}) Refusal) Misuse) × (result ≡ answer_number answer)
        × StepCalled node.old.object node.new.object message.old.object message.new.object answer }
    ensures cluster { node.new.table ≡ node.old.table }
    ensures named { IfSome message.new.object (λ _. message.new.table ≡ message.old.table) }
{
    number(step::<Brand>(alloc, node, message))
}

/// The controller decides on a proposal; its handle holds the answer then, or is closed.
#[tactic(auto, using(crate::proofs::OneCluster::first_is, crate::proofs::OneCluster::second_is))]
#[unsafe(no_mangle)]
pub extern "C" fn kp_decide(alloc: Global, pass: &mut Handle, message: &mut Handle) -> u32
    requires { AreOfOne pass.old.object pass.old.table message.old.object message.old.table }
    ensures called { (answer : Result (Result (Unit {0}) Refusal) Misuse) × (result ≡ answer_number answer)
        × DecideCalled pass.old.object pass.new.object message.old.object message.new.object answer }
    ensures cluster { pass.new.table ≡ pass.old.table }
    ensures named { IfSome message.new.object (λ _. message.new.table ≡ message.old.table) }
{
    number(decide::<Brand>(alloc, pass, message))
}

/// Puts a message once more into a closed handle.
#[tactic(auto, using(crate::proofs::OneCluster::first_is, crate::proofs::OneCluster::second_is))]
#[unsafe(no_mangle)]
pub extern "C" fn kp_repeat(
    alloc: Global,
    pass: &mut Handle,
    message: &mut Handle,
    again: &mut Handle,
) -> u32
    requires { AreOfOne pass.old.object pass.old.table message.old.object message.old.table }
    ensures called { (answer : Result (Result (Unit {0}) Refusal) Misuse) × (result ≡ answer_number answer)
        × RepeatCalled pass.old.object message.old.object again.old.object again.new.object answer }
    ensures same { (pass.new.object ≡ pass.old.object) × (message.new.object ≡ message.old.object) }
    ensures cluster { (pass.new.table ≡ pass.old.table) × (message.new.table ≡ message.old.table) }
    ensures named { result ≡ 0 → again.new.table ≡ message.old.table }
{
    number(repeat::<Brand>(alloc, pass, message, again))
}
