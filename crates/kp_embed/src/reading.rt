//! Reads, of batches, and of what a read-committed consumer gets.
ghost use Rattle.std.specs.Prelude.{◌≡◌, Result};
ghost use Rattle.kp_types.specs.declared.refusal.Refusal.{Refusal};
ghost use Rattle.kp_handles.specs.Called.{AreOfOne};
ghost use Rattle.kp_handles.specs.Numbers.{answer_number};
ghost use Rattle.kp_handles.specs.Reading.{CommittedCalled, FetchCalled, ReadCalled};
ghost use Rattle.kp_handles.specs.declared.misuse.Misuse.{Misuse};

use crate::answers::number;
use kp_handles::{Fetch, Handle, Read, ReadCommitted, give_by_pair, isolation_in};
use std::alloc::Global;
use std::marker::Brand;

/// Reads committed batches into a closed handle.
#[tactic(auto, using(crate::proofs::OneCluster::first_is, crate::proofs::OneCluster::second_is))]
#[unsafe(no_mangle)]
pub extern "C" fn kp_read(
    alloc: Global,
    node: &mut Handle,
    pass: &mut Handle,
    from: u64,
    batches: &mut Handle,
) -> u32
    requires { AreOfOne node.old.object node.old.table pass.old.object pass.old.table }
    ensures called { (answer : Result (Result (Unit {0}) Refusal) Misuse) × (result ≡ answer_number answer)
        × ReadCalled from node.old.object node.new.object pass.old.object pass.new.object batches.old.object batches.new.object answer }
    ensures cluster { (node.new.table ≡ node.old.table) × (pass.new.table ≡ pass.old.table) }
{
    number(give_by_pair::<Brand, _>(alloc, node, pass, batches, Read { from }))
}

/// Reads the records that a read-committed consumer gets into a closed handle.
#[tactic(auto, using(crate::proofs::OneCluster::first_is, crate::proofs::OneCluster::second_is))]
#[unsafe(no_mangle)]
pub extern "C" fn kp_read_committed(
    alloc: Global,
    node: &mut Handle,
    pass: &mut Handle,
    from: u64,
    records: &mut Handle,
) -> u32
    requires { AreOfOne node.old.object node.old.table pass.old.object pass.old.table }
    ensures called { (answer : Result (Result (Unit {0}) Refusal) Misuse) × (result ≡ answer_number answer)
        × CommittedCalled from node.old.object node.new.object pass.old.object pass.new.object records.old.object records.new.object answer }
    ensures cluster { (node.new.table ≡ node.old.table) × (pass.new.table ≡ pass.old.table) }
{
    number(give_by_pair::<Brand, _>(alloc, node, pass, records, ReadCommitted { from }))
}

/// Fetches for a consumer into a closed handle.
#[tactic(auto, using(crate::proofs::OneCluster::first_is, crate::proofs::OneCluster::second_is))]
#[unsafe(no_mangle)]
pub extern "C" fn kp_fetch(
    alloc: Global,
    node: &mut Handle,
    pass: &mut Handle,
    from: u64,
    most_bytes: u32,
    read_committed: bool,
    fetched: &mut Handle,
) -> u32
    requires { AreOfOne node.old.object node.old.table pass.old.object pass.old.table }
    ensures called { (answer : Result (Result (Unit {0}) Refusal) Misuse) × (result ≡ answer_number answer)
        × FetchCalled from most_bytes read_committed node.old.object node.new.object pass.old.object pass.new.object fetched.old.object fetched.new.object answer }
    ensures cluster { (node.new.table ≡ node.old.table) × (pass.new.table ≡ pass.old.table) }
{
    let call = Fetch {
        from,
        most_bytes,
        isolation: isolation_in(read_committed),
    };
    number(give_by_pair::<Brand, _>(alloc, node, pass, fetched, call))
}
