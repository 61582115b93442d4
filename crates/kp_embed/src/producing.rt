//! Calls of a node for a caller's pass.
ghost use Rattle.std.specs.Prelude.{◌≡◌, Some, length, Result, IfErr, OnOk, OnErr};
ghost use Rattle.kp_types.specs.declared.refusal.Refusal.{Refusal};
ghost use Rattle.kp_node.specs.declared.ack.Ack.{Ack};
ghost use Rattle.kp_replica.specs.declared.producing.Receipt.{Receipt};
ghost use Rattle.kp_handles.specs.Called.{AreOfOne, NoReason, PairCalled};
ghost use Rattle.kp_handles.specs.Handing.{BadHand, HandedCalled, IsFree};
ghost use Rattle.kp_handles.specs.Numbers.{answer_number, done_number};
ghost use Rattle.kp_handles.specs.Objects.{handed as HandedBytes};
ghost use Rattle.kp_handles.specs.Outs.{WritesOut, WritesReceipt, ack_out, marker_in, receipt_in};
ghost use Rattle.kp_node.specs.CallerCalls.{Acks, Marks, Produces};
ghost use Rattle.kp_handles.specs.PairCalls.{BadBytes, BadMarker, FitsBatch};
ghost use Rattle.kp_handles.specs.declared.misuse.Misuse.{Misuse};

use crate::answers::{done, told};
use kp_handles::{
    Acked, Called, Handle, MarkerIn, ReceiptOut, hand, mark_in, misuse_number, produce,
    produce_handed, refusal_number, with_pair,
};
use kp_replica::Receipt;
use std::alloc::Global;
use std::marker::Brand;

// The number of what was answered, whose receipt, or the place that it names, goes to the caller.
fn told_receipt(answer: Called<Receipt>, receipt: &mut ReceiptOut) -> u32
    ensures number { result ≡ answer_number answer }
    ensures receipt { WritesReceipt answer receipt.old receipt.new }
{
    match answer {
        Ok(Ok(kept)) => {
            *receipt = ReceiptOut::of(&kept);
            0
        }
        Ok(Err(refusal)) => {
            receipt.place = refusal.place().unwrap_or(0);
            refusal_number(&refusal)
        }
        Err(misuse) => misuse_number(&misuse),
    }
}

/// Hands a node the bytes of a batch.
#[tactic(auto, using(crate::proofs::OneCluster::first_is, crate::proofs::OneCluster::second_is))]
#[unsafe(no_mangle)]
pub extern "C" fn kp_produce(
    alloc: Global,
    node: &mut Handle,
    pass: &mut Handle,
    bytes: &[u8],
    receipt: &mut ReceiptOut,
) -> u32
    requires { AreOfOne node.old.object node.old.table pass.old.object pass.old.table }
    ensures called { (answer : Result (Result Receipt Refusal) Misuse) × (result ≡ answer_number answer)
        × PairCalled (BadBytes (length bytes.now)) node.old.object node.new.object pass.old.object pass.new.object answer (Produces bytes.now)
        × OnOk answer (FitsBatch (length bytes.now)) × WritesReceipt answer receipt.old receipt.new }
    ensures cluster { (node.new.table ≡ node.old.table) × (pass.new.table ≡ pass.old.table) }
{
    told_receipt(produce::<Brand>(alloc, node, pass, bytes), receipt)
}

/// Copies the bytes of a batch into a handle, and tests them.
#[unsafe(no_mangle)]
pub extern "C" fn kp_hand(alloc: Global, handed: &mut Handle, bytes: &[u8]) -> u32
    ensures called { (answer : Result (Unit {0}) Misuse) × (result ≡ done_number answer)
        × OnOk answer (handed.new.object ≡ Some (HandedBytes bytes.now)) × OnOk answer (FitsBatch (length bytes.now))
        × OnOk answer (IsFree handed.old.object)
        × OnErr answer (handed.new.object ≡ handed.old.object)
        × IfErr answer (BadHand (length bytes.now) handed.old.object) }
{
    done(hand::<Brand>(alloc, handed, bytes))
}

/// Hands a node the bytes that a handle holds, which it holds on.
#[tactic(auto, using(crate::proofs::OneCluster::first_is, crate::proofs::OneCluster::second_is))]
#[unsafe(no_mangle)]
pub extern "C" fn kp_produce_handed(
    alloc: Global,
    node: &mut Handle,
    pass: &mut Handle,
    handed: &mut Handle,
    receipt: &mut ReceiptOut,
) -> u32
    requires { AreOfOne node.old.object node.old.table pass.old.object pass.old.table }
    ensures called { (answer : Result (Result Receipt Refusal) Misuse) × (result ≡ answer_number answer)
        × HandedCalled handed.old.object node.old.object node.new.object pass.old.object pass.new.object answer
        × WritesReceipt answer receipt.old receipt.new }
    ensures same { handed.new.object ≡ handed.old.object }
    ensures cluster { (node.new.table ≡ node.old.table) × (pass.new.table ≡ pass.old.table) }
{
    told_receipt(
        produce_handed::<Brand, Brand>(alloc, node, pass, handed),
        receipt,
    )
}

/// Hands a node a transaction's marker.
#[tactic(auto, using(crate::proofs::OneCluster::first_is, crate::proofs::OneCluster::second_is))]
#[unsafe(no_mangle)]
pub extern "C" fn kp_mark(
    alloc: Global,
    node: &mut Handle,
    pass: &mut Handle,
    marker: &MarkerIn,
    receipt: &mut ReceiptOut,
) -> u32
    requires { AreOfOne node.old.object node.old.table pass.old.object pass.old.table }
    ensures called { (answer : Result (Result Receipt Refusal) Misuse) × (result ≡ answer_number answer)
        × PairCalled (BadMarker (marker_in marker.now)) node.old.object node.new.object pass.old.object pass.new.object answer (Marks (marker_in marker.now))
        × WritesReceipt answer receipt.old receipt.new }
    ensures cluster { (node.new.table ≡ node.old.table) × (pass.new.table ≡ pass.old.table) }
{
    told_receipt(
        mark_in::<Brand>(alloc, node, pass, marker.marker()),
        receipt,
    )
}

/// Whether a receipt's batch is committed.
#[tactic(auto, using(crate::proofs::OneCluster::first_is, crate::proofs::OneCluster::second_is))]
#[unsafe(no_mangle)]
pub extern "C" fn kp_acked(
    alloc: Global,
    node: &mut Handle,
    pass: &mut Handle,
    receipt: &ReceiptOut,
    ack: &mut u32,
) -> u32
    requires { AreOfOne node.old.object node.old.table pass.old.object pass.old.table }
    ensures called { (answer : Result (Result Ack Refusal) Misuse) × (result ≡ answer_number answer)
        × PairCalled NoReason node.old.object node.new.object pass.old.object pass.new.object answer (Acks (receipt_in receipt.now))
        × WritesOut ack_out answer ack.old ack.new }
    ensures cluster { (node.new.table ≡ node.old.table) × (pass.new.table ≡ pass.old.table) }
{
    let call = Acked {
        receipt: receipt.receipt(),
    };
    told(with_pair::<Brand, _, _>(alloc, node, pass, call), ack)
}
