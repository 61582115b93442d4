//! How a host opens again what a process has left.
ghost use Rattle.std.specs.Prelude.{◌≡◌, [], Some, Result, IfErr, OnErr, OnOk};
ghost use Rattle.kp_types.specs.declared.refusal.Refusal.{Refusal};
ghost use Rattle.kp_model.specs.declared.record.LeaderAndIsr.{LeaderAndIsr as ModelRecord};
ghost use Rattle.kp_board.specs.Plays.{Recalls};
ghost use Rattle.kp_handles.specs.Again.{AgainCalled, BadLeave, KeepCalled, MayOpenAgain, NextDecided, NextElected};
ghost use Rattle.kp_handles.specs.Called.{CallerCalled};
ghost use Rattle.kp_handles.specs.CallerCalls.{Answers};
ghost use Rattle.kp_handles.specs.Numbers.{answer_number, done_number};
ghost use Rattle.kp_handles.specs.Objects.{left as LeftObject};
ghost use Rattle.kp_handles.specs.Outs.{WritesOut, leadership_out, limits_in};
ghost use Rattle.kp_handles.specs.declared.misuse.Misuse.{Misuse};

use crate::answers::{done, number, told};
use kp_handles::{
    Called, Handle, KeptIn, LeadershipOut, LimitsIn, Misuse, PromiseIn, Recall, is_open, keep,
    leave, next_decided, next_elected, open_left, take_left, with_pass,
};
use kp_types::Limits;
use std::alloc::Global;
use std::marker::Brand;

fn leave_in(alloc: Global, left: &mut Handle, limits: &Limits) -> Result<(), Misuse>
    ensures made { OnOk result ((left.old.object ≡ None) × (left.new.object ≡ Some (LeftObject (record { limits = limits.now; nodes = [] })))) }
    ensures same { OnErr result (left.new ≡ left.old) }
    ensures only { IfErr result (BadLeave left.old.object) }
{
    if is_open(left) {
        return Err(Misuse::InUse);
    }
    leave::<Brand>(alloc, limits, left)
}

/// Opens a place for nodes that are read back.
#[unsafe(no_mangle)]
pub extern "C" fn kp_left(alloc: Global, left: &mut Handle, limits: &LimitsIn) -> u32
    ensures called { (answer : Result (Unit {0}) Misuse) × (result ≡ done_number answer)
        × OnOk answer ((left.old.object ≡ None) × (left.new.object ≡ Some (LeftObject (record { limits = limits_in limits.now; nodes = [] }))))
        × OnErr answer (left.new ≡ left.old) × IfErr answer (BadLeave left.old.object) }
{
    done(leave_in(alloc, left, &limits.limits()))
}

/// Reads back the next node's log from its bytes.
#[unsafe(no_mangle)]
pub extern "C" fn kp_keep(alloc: Global, left: &mut Handle, bytes: &[u8], kept: &KeptIn) -> u32
    ensures called { (answer : Result (Result (Unit {0}) Refusal) Misuse) × (result ≡ answer_number answer)
        × KeepCalled bytes.now kept.now left.old.object left.new.object answer }
{
    number(keep::<Brand>(alloc, left, bytes, kept))
}

// Opens a board with the nodes of a handle, under a name of which its table alone is known.
fn open_board_again(
    alloc: Global,
    left: &mut Handle,
    known: &LeadershipOut,
    promise: &PromiseIn,
    cluster: &mut Handle,
) -> Called<()>
    requires { MayOpenAgain known.now promise.now left.old.object }
    ensures { AgainCalled known.now promise.now left.old.object left.new.object cluster.old.object cluster.new.object cluster.new.table result }
{
    if is_open(cluster) {
        return Err(Misuse::InUse);
    }
    let Some(record) = known.record() else {
        return Err(Misuse::OutOfRange);
    };
    let nodes = take_left::<Brand>(alloc, left)?;
    match nodes.opened(alloc, &record, promise) {
        Ok(opened) => Ok(open_left::<Brand>(alloc, opened, nodes, cluster)),
        Err(refusal) => Ok(Err(refusal)),
    }
}

/// Opens a cluster with the nodes that were read back, which some process has left.
#[unsafe(no_mangle)]
pub extern "C" fn kp_open_again(
    alloc: Global,
    left: &mut Handle,
    known: &LeadershipOut,
    promise: &PromiseIn,
    cluster: &mut Handle,
) -> u32
    requires { MayOpenAgain known.now promise.now left.old.object }
    ensures called { (answer : Result (Result (Unit {0}) Refusal) Misuse) × (result ≡ answer_number answer)
        × AgainCalled known.now promise.now left.old.object left.new.object cluster.old.object cluster.new.object cluster.new.table answer }
{
    number(open_board_again(alloc, left, known, promise, cluster))
}

/// Makes what was promised a part of what the pass has seen.
#[unsafe(no_mangle)]
pub extern "C" fn kp_recall(alloc: Global, pass: &mut Handle) -> u32
    ensures called { (answer : Result (Result (Unit {0}) Refusal) Misuse) × (result ≡ answer_number answer)
        × CallerCalled pass.old.object pass.new.object answer (λ _ c d. Answers (λ _. Recalls pass.old.table.opening.promised c d)) }
    ensures cluster { pass.new.table ≡ pass.old.table }
{
    number(with_pass::<Brand, _, _>(alloc, pass, Recall))
}

/// What the record becomes by a node's election.
#[unsafe(no_mangle)]
pub extern "C" fn kp_elected(known: &LeadershipOut, node: u8, next: &mut LeadershipOut) -> u32
    ensures { (answer : Result (Result ModelRecord Refusal) Misuse) × (result ≡ answer_number answer)
        × NextElected known.now node answer × WritesOut leadership_out answer next.old next.new }
{
    told(next_elected(known, node), next)
}

/// What the record becomes by a decision on a proposal.
#[unsafe(no_mangle)]
pub extern "C" fn kp_decided(
    alloc: Global,
    message: &mut Handle,
    known: &LeadershipOut,
    next: &mut LeadershipOut,
) -> u32
    ensures called { (answer : Result (Result ModelRecord Refusal) Misuse) × (result ≡ answer_number answer)
        × NextDecided known.now message.old.object answer × WritesOut leadership_out answer next.old next.new }
    ensures same { message.new.object ≡ message.old.object }
{
    told(next_decided::<Brand>(alloc, message, known), next)
}
