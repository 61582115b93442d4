//! What a node tells of itself and of its log.
ghost use Rattle.std.specs.Prelude.{◌≡◌, Option, Result};
ghost use Rattle.kp_types.specs.declared.refusal.Refusal.{Refusal};
ghost use Rattle.kp_model.specs.declared.message.EpochEnd.{EpochEnd};
ghost use Rattle.kp_segment.specs.declared.walk.OffsetAndTimestamp.{OffsetAndTimestamp};
ghost use Rattle.kp_node.specs.Tells.{TellsOffset};
ghost use Rattle.kp_node.specs.declared.telling.NodeState.{NodeState};
ghost use Rattle.kp_handles.specs.Called.{AreOfOne, NoReason, NodeCalled, PairCalled};
ghost use Rattle.kp_handles.specs.Numbers.{answer_number};
ghost use Rattle.kp_handles.specs.Outs.{WritesOut, isolation_in};
ghost use Rattle.kp_handles.specs.Telling.{EndsFor, Shows, epoch_out, state_out, time_out};
ghost use Rattle.kp_handles.specs.declared.misuse.Misuse.{Misuse};

use crate::answers::told;
use kp_handles::{
    EndFor, EpochOut, Handle, OffsetForTime, Show, StateOut, TimeOut, isolation_in, with_node,
    with_pair,
};
use std::alloc::Global;
use std::marker::Brand;

/// The node's state.
#[unsafe(no_mangle)]
pub extern "C" fn kp_show(alloc: Global, node: &mut Handle, found: &mut StateOut) -> u32
    ensures called { (answer : Result (Result NodeState Refusal) Misuse) × (result ≡ answer_number answer)
        × NodeCalled node.old.object node.new.object answer Shows
        × WritesOut state_out answer found.old found.new }
    ensures cluster { node.new.table ≡ node.old.table }
{
    told(with_node::<Brand, _, _>(alloc, node, Show), found)
}

/// Where a leader epoch ends.
#[unsafe(no_mangle)]
pub extern "C" fn kp_end_for(
    alloc: Global,
    node: &mut Handle,
    epoch: u32,
    found: &mut EpochOut,
) -> u32
    ensures called { (answer : Result (Result (Option EpochEnd) Refusal) Misuse) × (result ≡ answer_number answer)
        × NodeCalled node.old.object node.new.object answer (EndsFor epoch)
        × WritesOut epoch_out answer found.old found.new }
    ensures cluster { node.new.table ≡ node.old.table }
{
    told(
        with_node::<Brand, _, _>(alloc, node, EndFor { epoch }),
        found,
    )
}

/// The offset for a time.
#[tactic(auto, using(crate::proofs::OneCluster::first_is, crate::proofs::OneCluster::second_is))]
#[unsafe(no_mangle)]
pub extern "C" fn kp_offset_for_time(
    alloc: Global,
    node: &mut Handle,
    pass: &mut Handle,
    time: u64,
    read_committed: bool,
    found: &mut TimeOut,
) -> u32
    requires { AreOfOne node.old.object node.old.table pass.old.object pass.old.table }
    ensures called { (answer : Result (Result (Option OffsetAndTimestamp) Refusal) Misuse) × (result ≡ answer_number answer)
        × PairCalled NoReason node.old.object node.new.object pass.old.object pass.new.object answer (TellsOffset time (isolation_in read_committed))
        × WritesOut time_out answer found.old found.new }
    ensures cluster { (node.new.table ≡ node.old.table) × (pass.new.table ≡ pass.old.table) }
{
    let isolation = isolation_in(read_committed);
    told(
        with_pair::<Brand, _, _>(alloc, node, pass, OffsetForTime { time, isolation }),
        found,
    )
}
