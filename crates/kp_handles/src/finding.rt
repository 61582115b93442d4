//! The batches that a caller's bytes begin with.

ghost use Rattle.std.specs.Prelude.{◌≡◌, IfErr, IfOk};
ghost use Rattle.kp_types.specs.declared.refusal.Refusal.TheVariants.{Memory};
ghost use Rattle.kp_log.specs.BatchesIn.{AreBatchesIn};
ghost use Rattle.kp_handles.specs.Finding.{BatchesCalled, found_out};

use crate::calling::Called;
use crate::handle::{Handle, Unnamed, is_open, put};
use crate::misuse::Misuse;
use crate::object::{Kind, Object, filled, room};
use bytes::Bytes;
use kp_board::BoardName;
use kp_log::{BatchesIn, batches_in};
use kp_types::{Limits, Refusal};
use std::alloc::Global;

/// How far bytes are batches, and why no further.
#[repr(C)]
#[derive(Clone, Copy)]
pub struct FoundOut {
    /// How many bytes the batches take: the place of the first byte behind them.
    pub size: usize,
    /// Where the record begins in the batch that was to begin there, if it is the record that has the fault; else 0.
    pub place: u64,
    /// The number of the first fault of the batch that was to begin there, 1 to 10; 0 where no byte is left.
    pub fault: u32,
}

impl FoundOut {
    /// Of the batches that were found in bytes. O(1).
    pub fn of(found: &BatchesIn) -> FoundOut
        ensures { result ≡ found_out found.now.size found.now.fault }
    {
        match &found.fault {
            Some(refusal) => FoundOut {
                size: found.size,
                place: refusal.place().unwrap_or(0),
                fault: refusal.number(),
            },
            None => FoundOut {
                size: found.size,
                place: 0,
                fault: 0,
            },
        }
    }
}

/// The batches that bytes begin with, which are copied once, each of at most so many bytes.
pub(crate) fn found_in(alloc: Global, bytes: &[u8], max_batch: u32) -> Result<BatchesIn, Refusal>
    ensures found { IfOk result (λ found. AreBatchesIn max_batch bytes.now found.batches.items found.size found.fault) }
    ensures only { IfErr result (λ refusal. refusal ≡ Memory) }
{
    let limits = Limits {
        segment_bytes: max_batch,
        index_interval: max_batch,
        max_batch,
    };
    let mut copy = Vec::new(alloc);
    if copy.extend_from_slice(bytes).is_err() {
        return Err(Refusal::Memory);
    }
    match Bytes::from_vec(copy) {
        Ok(bytes) => batches_in(alloc, &bytes, &limits),
        Err(_) => Err(Refusal::Memory),
    }
}

/// Puts the batches that bytes begin with, each of at most `max_batch` bytes, into a closed handle, up to the first fault, which is part of
/// the answer, as by `batches_in`. The bytes are copied once. F33; InUse, NoRoom. O(bytes).
pub fn find_batches<B: BoardName + Unnamed>(
    alloc: Global,
    bytes: &[u8],
    max_batch: u32,
    handle: &mut Handle,
) -> Called<FoundOut>
    ensures { BatchesCalled max_batch bytes.now handle.old.object handle.new.object result }
{
    if is_open(handle) {
        return Err(Misuse::InUse);
    }
    let Some(made) = room::<B>(alloc) else {
        return Err(Misuse::NoRoom);
    };
    match found_in(alloc, bytes, max_batch) {
        Ok(found) => {
            let told = FoundOut::of(&found);
            let kind = Kind::Batches(found.batches);
            put(handle, filled(made, Object { kind }));
            Ok(Ok(told))
        }
        Err(refusal) => Ok(Err(refusal)),
    }
}
