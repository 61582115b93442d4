//! What a leader knows of the others, and what a node's log has.
ghost use Rattle.std.specs.Prelude.{◌≡◌, Option, Result};
ghost use Rattle.kp_types.specs.declared.refusal.Refusal.{Refusal};
ghost use Rattle.kp_replica.specs.declared.altering.Known.{Known};
ghost use Rattle.kp_node.specs.declared.describing.ProducerInLog.{ProducerInLog};
ghost use Rattle.kp_handles.specs.Called.{NodeCalled};
ghost use Rattle.kp_handles.specs.Describing.{Knows, LogCalled, OpenCalled, TellsProducer, known_out, producer_out};
ghost use Rattle.kp_handles.specs.Numbers.{answer_number};
ghost use Rattle.kp_handles.specs.Outs.{WritesOut};
ghost use Rattle.kp_handles.specs.declared.misuse.Misuse.{Misuse};

use crate::answers::{number, told};
use kp_handles::{
    AskKnown, AskProducer, Handle, KnownOut, ListOpen, ProducerOut, ReadLog, give_by_node,
    with_node,
};
use std::alloc::Global;
use std::marker::Brand;

/// What a leader knows of the others.
#[unsafe(no_mangle)]
pub extern "C" fn kp_known(alloc: Global, node: &mut Handle, found: &mut KnownOut) -> u32
    ensures called { (answer : Result (Result Known Refusal) Misuse) × (result ≡ answer_number answer)
        × NodeCalled node.old.object node.new.object answer Knows
        × WritesOut known_out answer found.old found.new }
    ensures cluster { node.new.table ≡ node.old.table }
{
    told(with_node::<Brand, _, _>(alloc, node, AskKnown), found)
}

/// What the node's log has of a producer.
#[unsafe(no_mangle)]
pub extern "C" fn kp_producer(
    alloc: Global,
    node: &mut Handle,
    producer_id: u64,
    found: &mut ProducerOut,
) -> u32
    ensures called { (answer : Result (Result (Option ProducerInLog) Refusal) Misuse) × (result ≡ answer_number answer)
        × NodeCalled node.old.object node.new.object answer (TellsProducer producer_id)
        × WritesOut producer_out answer found.old found.new }
    ensures cluster { node.new.table ≡ node.old.table }
{
    let call = AskProducer {
        producer: producer_id,
    };
    told(with_node::<Brand, _, _>(alloc, node, call), found)
}

/// Lists the transactions that are open in the node's log into a closed handle.
#[unsafe(no_mangle)]
pub extern "C" fn kp_open_transactions(
    alloc: Global,
    node: &mut Handle,
    transactions: &mut Handle,
) -> u32
    ensures called { (answer : Result (Result (Unit {0}) Refusal) Misuse) × (result ≡ answer_number answer)
        × OpenCalled node.old.object node.new.object transactions.old.object transactions.new.object answer }
    ensures cluster { node.new.table ≡ node.old.table }
{
    number(give_by_node::<Brand, _>(alloc, node, transactions, ListOpen))
}

/// Reads batches of the node's log, also those that aren't committed, into a closed handle.
#[unsafe(no_mangle)]
pub extern "C" fn kp_log_from(
    alloc: Global,
    node: &mut Handle,
    from: u64,
    most_bytes: u32,
    batches: &mut Handle,
) -> u32
    ensures called { (answer : Result (Result (Unit {0}) Refusal) Misuse) × (result ≡ answer_number answer)
        × LogCalled from most_bytes node.old.object node.new.object batches.old.object batches.new.object answer }
    ensures cluster { node.new.table ≡ node.old.table }
{
    number(give_by_node::<Brand, _>(alloc, node, batches, ReadLog { from, most_bytes }))
}
