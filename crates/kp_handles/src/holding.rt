//! What comes of what a handle holds.

ghost use Rattle.std.specs.Prelude.{◌≡◌, ◌<◌, None, Some, length, IfOk, IfErr, OnOk, OnErr};
ghost use Rattle.kp_visible.specs.Lines.{line_of};
ghost use Rattle.kp_handles.specs.Holding.{HasPart, NoBatch, NoRecord, Writes, WritesSpelling, batch_size, batches_in, lines_in, value_bytes};
ghost use Rattle.kp_handles.specs.declared.misuse.Misuse.TheVariants.{OtherKind};
ghost use Rattle.kp_handles.specs.declared.misuse.Misuse.TheVariants.{BadLength};

use crate::looking::{SeenOf, WrittenOf};
use crate::misuse::Misuse;
use crate::object::{Kind, Object};
use crate::outs::{AbortedOut, FetchedOut, HeadOut, OpenOut, ValueOut, addressee_out};
use kp_batch::Batch;
use kp_board::BoardName;
use kp_visible::ReadRecord;

/// How many batches, records, open transactions or segments there are. OtherKind. O(1).
#[derive(Drop)]
pub struct Count;

impl SeenOf<usize> for Count {
    ghost use mathlib.Core.Path.{refl};
    ghost use Rattle.kp_handles.specs.Holding.{BadCount, HasCount};

    ghost sees = { λ _. HasCount };

    ghost fails = { λ _. BadCount };

    ghost closed = { λ _. refl };

    fn look<B: BoardName>(self, object: &Object<B>) -> Result<usize, Misuse> {
        match &object.kind {
            Kind::Batches(batches) => Ok(batches.len()),
            Kind::Fetched(fetched) => Ok(fetched.batches().len()),
            Kind::Records(records) => Ok(records.len()),
            Kind::Transactions(open) => Ok(open.len()),
            Kind::Segments(segments) => Ok(segments.len()),
            _ => Err(Misuse::OtherKind),
        }
    }
}

/// The batches that it holds.
pub(crate) fn batches_of<B: BoardName>(object: &Object<B>) -> Result<&[Batch], Misuse>
    ensures found { IfOk result (λ batches. batches_in object.now ≡ Some batches.now) }
    ensures only { IfErr result (λ why. (why ≡ OtherKind) × (batches_in object.now ≡ None)) }
{
    match &object.kind {
        Kind::Batches(batches) => Ok(batches),
        Kind::Fetched(fetched) => Ok(fetched.batches()),
        _ => Err(Misuse::OtherKind),
    }
}

// The batch at this index, from 0 on.
fn batch_in<B: BoardName>(object: &Object<B>, index: usize) -> Result<&Batch, Misuse>
    ensures found { IfOk result (λ batch. HasPart batches_in index (Some object.now) (λ w. w ≡ batch.now)) }
    ensures only { IfErr result (NoBatch index (Some object.now)) }
{
    match batches_of(object) {
        Ok(batches) => match batches.get(index) {
            Some(batch) => Ok(batch),
            None => Err(Misuse::OutOfRange),
        },
        Err(misuse) => Err(misuse),
    }
}

/// How many bytes the batch at this index, from 0 on, has. OtherKind, OutOfRange. O(1).
#[derive(Drop)]
pub struct BatchSize {
    pub index: usize,
}

impl SeenOf<u32> for BatchSize {
    ghost use mathlib.Core.Path.{refl};
    ghost use Rattle.kp_handles.specs.Holding.{HasSize, NoBatch};

    ghost sees = { λ b o n. HasSize o b.index n };

    ghost fails = { λ b o why. NoBatch b.index o why };

    ghost closed = { λ _. refl };

    fn look<B: BoardName>(self, object: &Object<B>) -> Result<u32, Misuse> {
        match batch_in(object, self.index) {
            Ok(batch) => Ok(batch.size()),
            Err(misuse) => Err(misuse),
        }
    }
}

/// The head of the batch at this index, from 0 on. OtherKind, OutOfRange. O(1), and no byte is copied.
#[derive(Drop)]
pub struct HeadAt {
    pub index: usize,
}

impl SeenOf<HeadOut> for HeadAt {
    ghost use mathlib.Core.Path.{refl};
    ghost use Rattle.kp_handles.specs.Holding.{HasHead, NoBatch};

    ghost sees = { λ h o found. HasHead o h.index found };

    ghost fails = { λ h o why. NoBatch h.index o why };

    ghost closed = { λ _. refl };

    fn look<B: BoardName>(self, object: &Object<B>) -> Result<HeadOut, Misuse> {
        match batch_in(object, self.index) {
            Ok(batch) => Ok(HeadOut::of(batch)),
            Err(misuse) => Err(misuse),
        }
    }
}

// Copies the batch's bytes to the front of the place, if they fit there.
fn copy_batch(batch: &Batch, to: &mut [u8]) -> Result<(), Misuse>
    ensures written { OnOk result (WritesSpelling batch.now to.old to.new) }
    ensures only { IfErr result (λ why. (why ≡ BadLength) × (length to.old < batch_size batch.now)) }
    ensures same { OnErr result (to.new ≡ to.old) }
{
    if batch.copy_to(to) {
        Ok(())
    } else {
        Err(Misuse::BadLength)
    }
}

/// Copies the bytes of the batch at this index, with its base offset and leader epoch. OtherKind, OutOfRange; BadLength where they don't fit.
/// O(bytes).
#[derive(Drop)]
pub struct WriteBatch {
    pub index: usize,
}

impl WrittenOf for WriteBatch {
    ghost use mathlib.Core.Path.{refl};
    ghost use Rattle.kp_handles.specs.Holding.{BadBatch, WritesBatch};

    ghost writes = { λ b o old new. WritesBatch o b.index old new };

    ghost fails = { λ b places o why. BadBatch b.index places o why };

    ghost closed = { λ _ _. refl };

    fn write<B: BoardName>(self, object: &Object<B>, to: &mut [u8]) -> Result<(), Misuse> {
        match batch_in(object, self.index) {
            Ok(batch) => copy_batch(batch, to),
            Err(misuse) => Err(misuse),
        }
    }
}

// The record at this index, from 0 on.
fn record_in<B: BoardName>(object: &Object<B>, index: usize) -> Result<ReadRecord<'_>, Misuse>
    ensures found { IfOk result (λ read. HasPart lines_in index (Some object.now) (λ l. l ≡ line_of read)) }
    ensures only { IfErr result (NoRecord index (Some object.now)) }
{
    match &object.kind {
        Kind::Records(records) => {
            if index < records.len() {
                Ok(records.get(index))
            } else {
                Err(Misuse::OutOfRange)
            }
        }
        _ => Err(Misuse::OtherKind),
    }
}

/// The record at this index, from 0 on: its offset, and how many bytes its value has. OtherKind, OutOfRange. O(1).
#[derive(Drop)]
pub struct ValueAt {
    pub index: usize,
}

impl SeenOf<ValueOut> for ValueAt {
    ghost use mathlib.Core.Path.{refl};
    ghost use Rattle.kp_handles.specs.Holding.{HasRecord, NoRecord};

    ghost sees = { λ v o found. HasRecord o v.index found };

    ghost fails = { λ v o why. NoRecord v.index o why };

    ghost closed = { λ _. refl };

    fn look<B: BoardName>(self, object: &Object<B>) -> Result<ValueOut, Misuse> {
        match record_in(object, self.index) {
            Ok(read) => Ok(ValueOut::of(read)),
            Err(misuse) => Err(misuse),
        }
    }
}

/// Copies the bytes to the front of the place, if they fit there.
pub(crate) fn copy_front(bytes: &[u8], to: &mut [u8]) -> Result<(), Misuse>
    ensures written { OnOk result (Writes bytes.now to.old to.new) }
    ensures only { IfErr result (λ why. (why ≡ BadLength) × (length to.old < length bytes.now)) }
    ensures same { OnErr result (to.new ≡ to.old) }
{
    let count = bytes.len();
    if count > to.len() {
        return Err(Misuse::BadLength);
    }
    to[..count].copy_from_slice(bytes);
    Ok(())
}

// The bytes of the record's value; none where it is null.
fn value_of<'a>(read: ReadRecord<'a>) -> &'a [u8]
    ensures { result.now ≡ value_bytes (line_of read.entry) }
{
    match read.value {
        Some(value) => value,
        None => &[],
    }
}

/// Copies the value of the record at this index. OtherKind, OutOfRange; BadLength where it doesn't fit. O(bytes).
#[derive(Drop)]
pub struct WriteValue {
    pub index: usize,
}

impl WrittenOf for WriteValue {
    ghost use mathlib.Core.Path.{refl};
    ghost use Rattle.kp_handles.specs.Holding.{BadValue, WritesValue};

    ghost writes = { λ v o old new. WritesValue o v.index old new };

    ghost fails = { λ v places o why. BadValue v.index places o why };

    ghost closed = { λ _ _. refl };

    fn write<B: BoardName>(self, object: &Object<B>, to: &mut [u8]) -> Result<(), Misuse> {
        match record_in(object, self.index) {
            Ok(read) => copy_front(value_of(read), to),
            Err(misuse) => Err(misuse),
        }
    }
}

/// Where high watermark, last stable offset and the log's end stood when it was fetched, and how many aborted transactions go with the
/// batches. OtherKind. O(1).
#[derive(Drop)]
pub struct FetchedAt;

impl SeenOf<FetchedOut> for FetchedAt {
    ghost use mathlib.Core.Path.{refl};
    ghost use Rattle.kp_handles.specs.Holding.{BadFetched, HasFetched};

    ghost sees = { λ _. HasFetched };

    ghost fails = { λ _. BadFetched };

    ghost closed = { λ _. refl };

    fn look<B: BoardName>(self, object: &Object<B>) -> Result<FetchedOut, Misuse> {
        match &object.kind {
            Kind::Fetched(fetched) => Ok(FetchedOut::of(fetched)),
            _ => Err(Misuse::OtherKind),
        }
    }
}

/// The aborted transaction at this index, from 0 on, by rising first offset. OtherKind, OutOfRange. O(1).
#[derive(Drop)]
pub struct AbortedAt {
    pub index: usize,
}

impl SeenOf<AbortedOut> for AbortedAt {
    ghost use mathlib.Core.Path.{refl};
    ghost use Rattle.kp_handles.specs.Holding.{HasAborted, NoAborted};

    ghost sees = { λ a o found. HasAborted o a.index found };

    ghost fails = { λ a o why. NoAborted a.index o why };

    ghost closed = { λ _. refl };

    fn look<B: BoardName>(self, object: &Object<B>) -> Result<AbortedOut, Misuse> {
        match &object.kind {
            Kind::Fetched(fetched) => match fetched.aborted().get(self.index) {
                Some(aborted) => Ok(AbortedOut::of(aborted)),
                None => Err(Misuse::OutOfRange),
            },
            _ => Err(Misuse::OtherKind),
        }
    }
}

/// The open transaction at this index, from 0 on, by rising first offset. OtherKind, OutOfRange. O(1).
#[derive(Drop)]
pub struct OpenAt {
    pub index: usize,
}

impl SeenOf<OpenOut> for OpenAt {
    ghost use mathlib.Core.Path.{refl};
    ghost use Rattle.kp_handles.specs.Holding.{HasOpen, NoOpen};

    ghost sees = { λ t o found. HasOpen o t.index found };

    ghost fails = { λ t o why. NoOpen t.index o why };

    ghost closed = { λ _. refl };

    fn look<B: BoardName>(self, object: &Object<B>) -> Result<OpenOut, Misuse> {
        match &object.kind {
            Kind::Transactions(open) => match open.get(self.index) {
                Some(transaction) => Ok(OpenOut::of(transaction)),
                None => Err(Misuse::OutOfRange),
            },
            _ => Err(Misuse::OtherKind),
        }
    }
}

/// The node that the message goes to, or 255 for the controller. OtherKind. O(1).
#[derive(Drop)]
pub struct Addressee;

impl SeenOf<u8> for Addressee {
    ghost use mathlib.Core.Path.{refl};
    ghost use Rattle.kp_handles.specs.Holding.{BadLetter, HasAddressee};

    ghost sees = { λ _. HasAddressee };

    ghost fails = { λ _. BadLetter };

    ghost closed = { λ _. refl };

    fn look<B: BoardName>(self, object: &Object<B>) -> Result<u8, Misuse> {
        match &object.kind {
            Kind::Message(message) => Ok(addressee_out(&message.body)),
            _ => Err(Misuse::OtherKind),
        }
    }
}
