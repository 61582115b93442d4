//! The records of batches that a handle holds, each found by its place, with all that it has.

ghost use Rattle.std.specs.Prelude.{◌≡◌, ◌<◌, length, map, slice_get, IfErr, IfOk, MatchOption, None, Some};
ghost use Rattle.std.specs.Option.{option_map};
ghost use Rattle.kp_record.specs.Lent.{headers_left, lent};
ghost use Rattle.kp_handles.specs.Holding.{BadPartOf, HasPart};
ghost use Rattle.kp_handles.specs.Records.{moved, named_in, part_bytes, part_out, parts_at, parts_in_headers, parts_of, place_of, record_out};

use crate::holding::{batches_of, copy_front};
use crate::looking::{SeenOf, WrittenOf};
use crate::misuse::Misuse;
use crate::object::{Kind, Object};
use kp_batch::{Batch, Headers, Record, RecordPlace};
use kp_board::BoardName;
use kp_txns::AbortedTransaction;
use kp_visible::is_clear;

/// Where a record stands among batches; of the first record of the first batch all three are 0.
#[repr(C)]
#[derive(Clone, Copy)]
pub struct RecordAt {
    /// Which batch, from 0 on.
    pub batch: usize,
    /// How many records stand in front of it in that batch.
    pub number: u32,
    /// How many bytes these take.
    pub byte: u32,
}

/// A record, but for the bytes of its parts.
#[repr(C)]
#[derive(Clone, Copy)]
pub struct RecordOut {
    /// Where the next record stands.
    pub next: RecordAt,
    pub offset: u64,
    /// Milliseconds since 1970.
    pub timestamp: u64,
    /// Whose it is; all bits are set where it has none.
    pub producer_id: u64,
    /// All bits are set where it has none.
    pub producer_epoch: u16,
    /// Whether a consumer is shown it: it is data, and no aborted transaction that goes with the batches has it.
    pub shown: bool,
}

/// A part of a record, but for its bytes.
#[repr(C)]
#[derive(Clone, Copy)]
pub struct PartOut {
    /// How many bytes it has.
    pub size: usize,
    /// Whether it is null, which has no byte.
    pub null: bool,
}

impl RecordAt {
    // Its place in its batch.
    fn place(self) -> RecordPlace
        ensures { result ≡ place_of self }
    {
        RecordPlace {
            number: self.number,
            byte: self.byte,
        }
    }

    // Where the next one stands: in a batch of so many records, or at the beginning of the one behind it.
    fn moved(batch: usize, next: RecordPlace, count: u32, batches: usize) -> RecordAt
        requires { batch < batches }
        ensures { result ≡ moved batch next count }
    {
        if next.number < count {
            return RecordAt {
                batch,
                number: next.number,
                byte: next.byte,
            };
        }
        RecordAt {
            batch: batch + 1,
            number: 0,
            byte: 0,
        }
    }
}

impl PartOut {
    /// A part as it is told. O(1).
    pub fn of(part: Option<&[u8]>) -> PartOut
        ensures { result ≡ part_out (option_map (λ v. v.now) part.entry) }
    {
        match part {
            Some(bytes) => PartOut {
                size: bytes.len(),
                null: false,
            },
            None => PartOut {
                size: 0,
                null: true,
            },
        }
    }
}

// The aborted transactions that go with the batches.
fn aborted_of<B: BoardName>(object: &Object<B>) -> &[AbortedTransaction]
    ensures { result.now ≡ named_in object.now }
{
    match &object.kind {
        Kind::Fetched(fetched) => fetched.aborted(),
        _ => &[],
    }
}

// The record at the place, as it is told.
fn told(
    batch: &Batch,
    found: &Record<'_>,
    at: RecordAt,
    next: RecordAt,
    aborted: &[AbortedTransaction],
) -> RecordOut
    ensures { result ≡ record_out aborted.now at batch.now (lent found.now) next }
{
    RecordOut {
        next,
        offset: batch.base_offset().saturating_add(u64::from(at.number)),
        timestamp: found.timestamp,
        producer_id: batch.producer_id().unwrap_or(u64::MAX),
        producer_epoch: batch.producer_epoch().unwrap_or(u16::MAX),
        shown: is_clear(batch, aborted),
    }
}

/// The record at the place, and where the next one stands. OtherKind; OutOfRange where no record stands there. No byte is copied;
/// O(1), O(n) in the keys of its headers, and of transactional data O(m) in the aborted transactions that go with the batches.
#[derive(Drop)]
pub struct RecordIn {
    pub at: RecordAt,
}

impl SeenOf<RecordOut> for RecordIn {
    ghost use mathlib.Core.Path.{refl};
    ghost use Rattle.kp_handles.specs.Records.{HasRecordAt, NoRecordAt};

    ghost sees = { λ r o found. HasRecordAt o r.at found };

    ghost fails = { λ r o why. NoRecordAt r.at o why };

    ghost closed = { λ _. refl };

    fn look<B: BoardName>(self, object: &Object<B>) -> Result<RecordOut, Misuse> {
        let at = self.at;
        let Ok(batches) = batches_of(object) else {
            return Err(Misuse::OtherKind);
        };
        let Some(batch) = batches.get(at.batch) else {
            return Err(Misuse::OutOfRange);
        };
        let Some((record, next)) = batch.record_at(at.place()) else {
            return Err(Misuse::OutOfRange);
        };
        let next = RecordAt::moved(at.batch, next, batch.count(), batches.len());
        Ok(told(batch, &record, at, next, aborted_of(object)))
    }
}

// The part of this number of the headers: of each its key, and its value.
fn header_part<'a>(headers: Headers<'a>, part: usize) -> Option<Option<&'a [u8]>>
    ensures { MatchOption result (slice_get (parts_in_headers (headers_left headers.entry)) part ≡ None)
        (λ found. slice_get (parts_in_headers (headers_left headers.entry)) part ≡ Some (option_map (λ v. v.now) found)) }
{
    let mut left = part;
    for header in headers {
        match left {
            0 => return Some(Some(header.key)),
            1 => return Some(header.value),
            _ => left -= 2,
        }
    }
    None
}

// The record's part of this number: its key, its value, and then those of its headers.
fn part_of<'a>(whole: &Record<'a>, part: usize) -> Option<Option<&'a [u8]>>
    ensures { MatchOption result (slice_get (parts_of (lent whole.now)) part ≡ None)
        (λ found. slice_get (parts_of (lent whole.now)) part ≡ Some (option_map (λ v. v.now) found)) }
{
    match part {
        0 => Some(whole.key),
        1 => Some(whole.value),
        _ => header_part(whole.headers, part - 2),
    }
}

// The part of this number of the record at the place.
fn part_in<B: BoardName>(
    object: &Object<B>,
    at: RecordAt,
    part: usize,
) -> Result<Option<&[u8]>, Misuse>
    ensures found { IfOk result (λ found. HasPart (parts_at at) part (Some object.now) (λ p. p ≡ option_map (λ v. v.now) found)) }
    ensures only { IfErr result (BadPartOf (parts_at at) (λ p. 0) part 0 object.now) }
{
    let Ok(batches) = batches_of(object) else {
        return Err(Misuse::OtherKind);
    };
    let Some(batch) = batches.get(at.batch) else {
        return Err(Misuse::OutOfRange);
    };
    let Some((record, _)) = batch.record_at(at.place()) else {
        return Err(Misuse::OutOfRange);
    };
    match part_of(&record, part) {
        Some(found) => Ok(found),
        None => Err(Misuse::OutOfRange),
    }
}

/// A part of the record at the place, but for its bytes: 0 its key, 1 its value, and then of each header its key, and its value.
/// OtherKind; OutOfRange where no record stands there, or where it hasn't got so many parts. O(1), and O(n) in its headers.
#[derive(Drop)]
pub struct PartAt {
    pub at: RecordAt,
    pub part: usize,
}

impl SeenOf<PartOut> for PartAt {
    ghost use mathlib.Core.Path.{refl};
    ghost use Rattle.kp_handles.specs.Records.{HasPartAt, NoPartAt};

    ghost sees = { λ p o found. HasPartAt o p.at p.part found };

    ghost fails = { λ p o why. NoPartAt p.at p.part o why };

    ghost closed = { λ _. refl };

    fn look<B: BoardName>(self, object: &Object<B>) -> Result<PartOut, Misuse> {
        match part_in(object, self.at, self.part) {
            Ok(part) => Ok(PartOut::of(part)),
            Err(misuse) => Err(misuse),
        }
    }
}

// The part's bytes; none where it is null.
fn bytes_of(part: Option<&[u8]>) -> &[u8]
    ensures { result.now ≡ part_bytes (option_map (λ v. v.now) part.entry) }
{
    match part {
        Some(bytes) => bytes,
        None => &[],
    }
}

/// Copies a part of the record at the place. OtherKind, OutOfRange as `PartAt`; BadLength where it doesn't fit. O(bytes), and O(n) in its
/// headers.
#[derive(Drop)]
pub struct WritePart {
    pub at: RecordAt,
    pub part: usize,
}

impl WrittenOf for WritePart {
    ghost use mathlib.Core.Path.{refl};
    ghost use Rattle.kp_handles.specs.Records.{BadPartAt, WritesPartAt};

    ghost writes = { λ p o old new. WritesPartAt o p.at p.part old new };

    ghost fails = { λ p places o why. BadPartAt p.at p.part places o why };

    ghost closed = { λ _ _. refl };

    fn write<B: BoardName>(self, object: &Object<B>, to: &mut [u8]) -> Result<(), Misuse> {
        match part_in(object, self.at, self.part) {
            Ok(part) => copy_front(bytes_of(part), to),
            Err(misuse) => Err(misuse),
        }
    }
}
