//! What comes of what a handle holds.
ghost use Rattle.std.specs.Prelude.{◌≡◌, ℕ, length, Result, IfErr, IfOk, OnErr, OnOk};
ghost use Rattle.kp_handles.specs.Holding.{BadBatch, BadCount, BadFetched, BadLetter, BadValue, HasAborted, HasAddressee, HasCount, HasFetched, HasHead, HasOpen, HasRecord, HasSize, NoAborted, NoBatch, NoOpen, NoRecord, WritesBatch, WritesValue};
ghost use Rattle.kp_handles.specs.Numbers.{done_number};
ghost use Rattle.kp_handles.specs.Saying.{HasSaid};
ghost use Rattle.kp_handles.specs.declared.misuse.Misuse.{Misuse};
ghost use Rattle.kp_handles.specs.declared.outs.AbortedOut.{AbortedOut};
ghost use Rattle.kp_handles.specs.declared.outs.FetchedOut.{FetchedOut};
ghost use Rattle.kp_handles.specs.declared.outs.HeadOut.{HeadOut};
ghost use Rattle.kp_handles.specs.declared.outs.OpenOut.{OpenOut};
ghost use Rattle.kp_handles.specs.declared.outs.ValueOut.{ValueOut};
ghost use Rattle.kp_handles.specs.declared.saying.SaidOut.{SaidOut};

use crate::answers::{done, seen};
use kp_handles::{
    AbortedAt, AbortedOut, Addressee, BatchSize, Count, FetchedAt, FetchedOut, Handle, HeadAt,
    HeadOut, OpenAt, OpenOut, SaidOut, Saying, ValueAt, ValueOut, WriteBatch, WriteValue, look,
    look_into,
};
use std::alloc::Global;
use std::marker::Brand;

/// How many batches, records, open transactions or segments stand in the handle.
#[unsafe(no_mangle)]
pub extern "C" fn kp_count(alloc: Global, handle: &mut Handle, found: &mut usize) -> u32
    ensures called { (answer : Result ℕ Misuse) × (result ≡ done_number answer)
        × IfOk answer (λ n. (found.new ≡ n) × HasCount handle.old.object n)
        × IfErr answer (BadCount handle.old.object) × OnErr answer (found.new ≡ found.old) }
    ensures same { handle.new.object ≡ handle.old.object }
{
    seen(look::<Brand, _, _>(alloc, handle, Count), found)
}

/// How many bytes one of the batches has.
#[unsafe(no_mangle)]
pub extern "C" fn kp_batch_size(
    alloc: Global,
    batches: &mut Handle,
    index: usize,
    size: &mut u32,
) -> u32
    ensures called { (answer : Result ℕ Misuse) × (result ≡ done_number answer)
        × IfOk answer (λ n. (size.new ≡ n) × HasSize batches.old.object index n)
        × IfErr answer (NoBatch index batches.old.object) × OnErr answer (size.new ≡ size.old) }
    ensures same { batches.new.object ≡ batches.old.object }
{
    seen(
        look::<Brand, _, _>(alloc, batches, BatchSize { index }),
        size,
    )
}

/// The head of one of the batches.
#[unsafe(no_mangle)]
pub extern "C" fn kp_batch_head(
    alloc: Global,
    batches: &mut Handle,
    index: usize,
    found: &mut HeadOut,
) -> u32
    ensures called { (answer : Result HeadOut Misuse) × (result ≡ done_number answer)
        × IfOk answer (λ seen. (found.new ≡ seen) × HasHead batches.old.object index seen)
        × IfErr answer (NoBatch index batches.old.object) × OnErr answer (found.new ≡ found.old) }
    ensures same { batches.new.object ≡ batches.old.object }
{
    seen(look::<Brand, _, _>(alloc, batches, HeadAt { index }), found)
}

/// Copies one of the batches.
#[unsafe(no_mangle)]
pub extern "C" fn kp_batch(alloc: Global, batches: &mut Handle, index: usize, to: &mut [u8]) -> u32
    ensures called { (answer : Result (Unit {0}) Misuse) × (result ≡ done_number answer) × OnOk answer (WritesBatch batches.old.object index to.old to.new)
        × IfErr answer (BadBatch index (length to.old) batches.old.object) × OnErr answer (to.new ≡ to.old) }
    ensures same { batches.new.object ≡ batches.old.object }
{
    done(look_into::<Brand, _>(alloc, batches, WriteBatch { index }, to))
}

/// One of the records, but for the bytes of its value.
#[unsafe(no_mangle)]
pub extern "C" fn kp_committed(
    alloc: Global,
    records: &mut Handle,
    index: usize,
    found: &mut ValueOut,
) -> u32
    ensures called { (answer : Result ValueOut Misuse) × (result ≡ done_number answer)
        × IfOk answer (λ seen. (found.new ≡ seen) × HasRecord records.old.object index seen)
        × IfErr answer (NoRecord index records.old.object) × OnErr answer (found.new ≡ found.old) }
    ensures same { records.new.object ≡ records.old.object }
{
    seen(
        look::<Brand, _, _>(alloc, records, ValueAt { index }),
        found,
    )
}

/// Copies the value of one of the records.
#[unsafe(no_mangle)]
pub extern "C" fn kp_value(alloc: Global, records: &mut Handle, index: usize, to: &mut [u8]) -> u32
    ensures called { (answer : Result (Unit {0}) Misuse) × (result ≡ done_number answer) × OnOk answer (WritesValue records.old.object index to.old to.new)
        × IfErr answer (BadValue index (length to.old) records.old.object) × OnErr answer (to.new ≡ to.old) }
    ensures same { records.new.object ≡ records.old.object }
{
    done(look_into::<Brand, _>(alloc, records, WriteValue { index }, to))
}

/// What a fetch gave, but for its batches and the aborted transactions.
#[unsafe(no_mangle)]
pub extern "C" fn kp_fetched(alloc: Global, fetched: &mut Handle, found: &mut FetchedOut) -> u32
    ensures called { (answer : Result FetchedOut Misuse) × (result ≡ done_number answer)
        × IfOk answer (λ seen. (found.new ≡ seen) × HasFetched fetched.old.object seen)
        × IfErr answer (BadFetched fetched.old.object) × OnErr answer (found.new ≡ found.old) }
    ensures same { fetched.new.object ≡ fetched.old.object }
{
    seen(look::<Brand, _, _>(alloc, fetched, FetchedAt), found)
}

/// One of the aborted transactions that go with what was fetched.
#[unsafe(no_mangle)]
pub extern "C" fn kp_aborted(
    alloc: Global,
    fetched: &mut Handle,
    index: usize,
    found: &mut AbortedOut,
) -> u32
    ensures called { (answer : Result AbortedOut Misuse) × (result ≡ done_number answer)
        × IfOk answer (λ seen. (found.new ≡ seen) × HasAborted fetched.old.object index seen)
        × IfErr answer (NoAborted index fetched.old.object) × OnErr answer (found.new ≡ found.old) }
    ensures same { fetched.new.object ≡ fetched.old.object }
{
    seen(
        look::<Brand, _, _>(alloc, fetched, AbortedAt { index }),
        found,
    )
}

/// One of the transactions that are open.
#[unsafe(no_mangle)]
pub extern "C" fn kp_open_transaction(
    alloc: Global,
    transactions: &mut Handle,
    index: usize,
    found: &mut OpenOut,
) -> u32
    ensures called { (answer : Result OpenOut Misuse) × (result ≡ done_number answer)
        × IfOk answer (λ seen. (found.new ≡ seen) × HasOpen transactions.old.object index seen)
        × IfErr answer (NoOpen index transactions.old.object) × OnErr answer (found.new ≡ found.old) }
    ensures same { transactions.new.object ≡ transactions.old.object }
{
    seen(
        look::<Brand, _, _>(alloc, transactions, OpenAt { index }),
        found,
    )
}

/// What a message says, and who sent it.
#[unsafe(no_mangle)]
pub extern "C" fn kp_said(alloc: Global, message: &mut Handle, found: &mut SaidOut) -> u32
    ensures called { (answer : Result SaidOut Misuse) × (result ≡ done_number answer)
        × IfOk answer (λ seen. (found.new ≡ seen) × HasSaid message.old.object seen)
        × IfErr answer (BadLetter message.old.object) × OnErr answer (found.new ≡ found.old) }
    ensures same { message.new.object ≡ message.old.object }
    ensures cluster { message.new.table ≡ message.old.table }
{
    seen(look::<Brand, _, _>(alloc, message, Saying), found)
}

/// The node that a message goes to, or 255 for the controller.
#[unsafe(no_mangle)]
pub extern "C" fn kp_addressee(alloc: Global, message: &mut Handle, found: &mut u8) -> u32
    ensures called { (answer : Result ℕ Misuse) × (result ≡ done_number answer)
        × IfOk answer (λ n. (found.new ≡ n) × HasAddressee message.old.object n)
        × IfErr answer (BadLetter message.old.object) × OnErr answer (found.new ≡ found.old) }
    ensures same { message.new.object ≡ message.old.object }
    ensures cluster { message.new.table ≡ message.old.table }
{
    seen(look::<Brand, _, _>(alloc, message, Addressee), found)
}
