//! Calls of a node alone.
ghost use Rattle.std.specs.Prelude.{◌≡◌, ℕ, Result};
ghost use Rattle.kp_types.specs.declared.refusal.Refusal.{Refusal};
ghost use Rattle.kp_replica.specs.declared.act.Answer.{Answer};
ghost use Rattle.kp_replica.specs.declared.adopting.Role.{Role};
ghost use Rattle.kp_handles.specs.declared.misuse.Misuse.{Misuse};
ghost use Rattle.kp_handles.specs.Called.{NodeCalled};
ghost use Rattle.kp_node.specs.NodeCalls.{Adopts, Checkpoints, Raises, Restarts, Stops};
ghost use Rattle.kp_handles.specs.Numbers.{answer_number};
ghost use Rattle.kp_handles.specs.Outs.{WritesOut, restart_out, role_out};

use crate::answers::{number, told};
use kp_handles::{Adopt, Checkpoint, Handle, Raise, Restart, RestartOut, RoleOut, Stop, with_node};
use std::alloc::Global;
use std::marker::Brand;

/// Takes up the controller's record.
#[unsafe(no_mangle)]
pub extern "C" fn kp_adopt(alloc: Global, node: &mut Handle, role: &mut RoleOut) -> u32
    ensures called { (answer : Result (Result Role Refusal) Misuse) × (result ≡ answer_number answer)
        × NodeCalled node.old.object node.new.object answer Adopts
        × WritesOut role_out answer role.old role.new }
    ensures cluster { node.new.table ≡ node.old.table }
{
    told(with_node::<Brand, _, _>(alloc, node, Adopt), role)
}

/// Raises the high watermark.
#[unsafe(no_mangle)]
pub extern "C" fn kp_raise(alloc: Global, node: &mut Handle, offset: &mut u64) -> u32
    ensures called { (answer : Result (Result ℕ Refusal) Misuse) × (result ≡ answer_number answer)
        × NodeCalled node.old.object node.new.object answer Raises
        × WritesOut (λ mark. mark) answer offset.old offset.new }
    ensures cluster { node.new.table ≡ node.old.table }
{
    told(with_node::<Brand, _, _>(alloc, node, Raise), offset)
}

/// Notes the high watermark as the checkpoint.
#[unsafe(no_mangle)]
pub extern "C" fn kp_checkpoint(alloc: Global, node: &mut Handle, offset: &mut u64) -> u32
    ensures called { (answer : Result (Result ℕ Refusal) Misuse) × (result ≡ answer_number answer)
        × NodeCalled node.old.object node.new.object answer Checkpoints
        × WritesOut (λ mark. mark) answer offset.old offset.new }
    ensures cluster { node.new.table ≡ node.old.table }
{
    told(with_node::<Brand, _, _>(alloc, node, Checkpoint), offset)
}

/// Stops the node.
#[unsafe(no_mangle)]
pub extern "C" fn kp_stop(alloc: Global, node: &mut Handle) -> u32
    ensures called { (answer : Result (Result (Unit {0}) Refusal) Misuse) × (result ≡ answer_number answer)
        × NodeCalled node.old.object node.new.object answer Stops }
    ensures cluster { node.new.table ≡ node.old.table }
{
    number(with_node::<Brand, _, _>(alloc, node, Stop))
}

/// Starts the node again.
#[unsafe(no_mangle)]
pub extern "C" fn kp_restart(alloc: Global, node: &mut Handle, restarted: &mut RestartOut) -> u32
    ensures called { (answer : Result (Result Answer Refusal) Misuse) × (result ≡ answer_number answer)
        × NodeCalled node.old.object node.new.object answer Restarts
        × WritesOut restart_out answer restarted.old restarted.new }
    ensures cluster { node.new.table ≡ node.old.table }
{
    told(with_node::<Brand, _, _>(alloc, node, Restart), restarted)
}
