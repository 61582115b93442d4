//! The records of batches, each found by its place.
ghost use Rattle.std.specs.Prelude.{◌≡◌, length, Result, IfErr, IfOk, OnErr, OnOk};
ghost use Rattle.kp_handles.specs.Numbers.{done_number};
ghost use Rattle.kp_handles.specs.Records.{BadPartAt, HasPartAt, HasRecordAt, NoPartAt, NoRecordAt, WritesPartAt};
ghost use Rattle.kp_handles.specs.declared.misuse.Misuse.{Misuse};
ghost use Rattle.kp_handles.specs.declared.records.PartOut.{PartOut};
ghost use Rattle.kp_handles.specs.declared.records.RecordOut.{RecordOut};

use crate::answers::{done, seen};
use kp_handles::{
    Handle, PartAt, PartOut, RecordAt, RecordIn, RecordOut, WritePart, look, look_into,
};
use std::alloc::Global;
use std::marker::Brand;

/// The record at a place among the batches, and where the next one stands.
#[unsafe(no_mangle)]
pub extern "C" fn kp_record(
    alloc: Global,
    batches: &mut Handle,
    place: &RecordAt,
    found: &mut RecordOut,
) -> u32
    ensures called { (answer : Result RecordOut Misuse) × (result ≡ done_number answer)
        × IfOk answer (λ seen. (found.new ≡ seen) × HasRecordAt batches.old.object place.now seen)
        × IfErr answer (NoRecordAt place.now batches.old.object) × OnErr answer (found.new ≡ found.old) }
    ensures same { batches.new.object ≡ batches.old.object }
{
    seen(
        look::<Brand, _, _>(alloc, batches, RecordIn { at: *place }),
        found,
    )
}

/// A part of the record at a place, but for its bytes.
#[unsafe(no_mangle)]
pub extern "C" fn kp_record_part(
    alloc: Global,
    batches: &mut Handle,
    place: &RecordAt,
    part: usize,
    found: &mut PartOut,
) -> u32
    ensures called { (answer : Result PartOut Misuse) × (result ≡ done_number answer)
        × IfOk answer (λ seen. (found.new ≡ seen) × HasPartAt batches.old.object place.now part seen)
        × IfErr answer (NoPartAt place.now part batches.old.object) × OnErr answer (found.new ≡ found.old) }
    ensures same { batches.new.object ≡ batches.old.object }
{
    let what = PartAt { at: *place, part };
    seen(look::<Brand, _, _>(alloc, batches, what), found)
}

/// Copies a part of the record at a place.
#[unsafe(no_mangle)]
pub extern "C" fn kp_record_bytes(
    alloc: Global,
    batches: &mut Handle,
    place: &RecordAt,
    part: usize,
    to: &mut [u8],
) -> u32
    ensures called { (answer : Result (Unit {0}) Misuse) × (result ≡ done_number answer)
        × OnOk answer (WritesPartAt batches.old.object place.now part to.old to.new)
        × IfErr answer (BadPartAt place.now part (length to.old) batches.old.object) × OnErr answer (to.new ≡ to.old) }
    ensures same { batches.new.object ≡ batches.old.object }
{
    let what = WritePart { at: *place, part };
    done(look_into::<Brand, _>(alloc, batches, what, to))
}
