//! Calls of a caller's pass, and of two.
ghost use Rattle.std.specs.Prelude.{◌≡◌, ℕ, Result, Option};
ghost use Rattle.kp_types.specs.declared.refusal.Refusal.{Refusal};
ghost use Rattle.kp_model.specs.declared.record.LeaderAndIsr.{LeaderAndIsr};
ghost use Rattle.kp_handles.specs.declared.misuse.Misuse.{Misuse};
ghost use Rattle.kp_handles.specs.Called.{AreOfOne, CallerCalled};
ghost use Rattle.kp_board.specs.Calls.{Elects, Looks};
ghost use Rattle.kp_handles.specs.CallerCalls.{Answers, LearnsMark, ReceiptsTold};
ghost use Rattle.kp_handles.specs.Numbers.{answer_number, done_number, mark_number};
ghost use Rattle.kp_handles.specs.Outs.{WritesMark, WritesOut, leadership_out};

use crate::answers::{done, told};
use kp_handles::{
    Elect, Handle, Leadership, LeadershipOut, Misuse, Watermark, misuse_number, refusal_number,
    tell_receipts, with_pass,
};
use std::alloc::Global;
use std::marker::Brand;

/// Tries once to elect a node.
#[unsafe(no_mangle)]
pub extern "C" fn kp_elect(
    alloc: Global,
    pass: &mut Handle,
    node: u8,
    found: &mut LeadershipOut,
) -> u32
    ensures called { (answer : Result (Result LeaderAndIsr Refusal) Misuse) × (result ≡ answer_number answer)
        × CallerCalled pass.old.object pass.new.object answer (λ _. Elects node)
        × WritesOut leadership_out answer found.old found.new }
    ensures cluster { pass.new.table ≡ pass.old.table }
{
    told(with_pass::<Brand, _, _>(alloc, pass, Elect { node }), found)
}

/// Looks at the controller's record.
#[unsafe(no_mangle)]
pub extern "C" fn kp_leadership(alloc: Global, pass: &mut Handle, found: &mut LeadershipOut) -> u32
    ensures called { (answer : Result (Result LeaderAndIsr Refusal) Misuse) × (result ≡ answer_number answer)
        × CallerCalled pass.old.object pass.new.object answer (λ _ c d. Answers (Looks c d))
        × WritesOut leadership_out answer found.old found.new }
    ensures cluster { pass.new.table ≡ pass.old.table }
{
    told(with_pass::<Brand, _, _>(alloc, pass, Leadership), found)
}

/// Looks at a node's high watermark.
#[unsafe(no_mangle)]
pub extern "C" fn kp_watermark(alloc: Global, pass: &mut Handle, node: u8, offset: &mut u64) -> u32
    ensures called { (answer : Result (Result (Option ℕ) Refusal) Misuse) × (result ≡ mark_number answer)
        × CallerCalled pass.old.object pass.new.object answer (λ n c d. Answers (LearnsMark node n c d))
        × WritesMark answer offset.old offset.new }
    ensures cluster { pass.new.table ≡ pass.old.table }
{
    match with_pass::<Brand, _, _>(alloc, pass, Watermark { node }) {
        Ok(Ok(Some(seen))) => {
            *offset = seen;
            0
        }
        Ok(Ok(None)) => misuse_number(&Misuse::OutOfRange),
        Ok(Err(refusal)) => refusal_number(&refusal),
        Err(misuse) => misuse_number(&misuse),
    }
}

/// A pass takes over the receipts of another one.
#[tactic(auto, using(crate::proofs::OneCluster::first_is, crate::proofs::OneCluster::second_is))]
#[unsafe(no_mangle)]
pub extern "C" fn kp_tell_receipts(alloc: Global, from: &mut Handle, to: &mut Handle) -> u32
    requires { AreOfOne from.old.object from.old.table to.old.object to.old.table }
    ensures called { (answer : Result (Unit {0}) Misuse) × (result ≡ done_number answer)
        × ReceiptsTold from.old.object from.new.object to.old.object to.new.object answer }
    ensures cluster { (from.new.table ≡ from.old.table) × (to.new.table ≡ to.old.table) }
{
    done(tell_receipts::<Brand>(alloc, from, to))
}
