//! Batches and markers as bytes. The bytes are spelled out by hand from the Kafka protocol guide's 'Record Batch',
//! 'Record' and 'Control Batch'; the checksums are of a CRC-32C written in Python.

use crate::shown::{batch_text, hex, is, push_record, unhex};
use bytes::Bytes;
use kp_batch::{Batch, Fields, HeaderParts, Parts, RecordPlace, Speller};
use kp_marker::{Kind, marker};
use kp_types::{Limits, Refusal};
use std::alloc::Global;
use std::process::Abort;

const LIMITS: Limits = Limits {
    segment_bytes: 1_048_576,
    index_interval: 4_096,
    max_batch: 1_048_576,
};

// No producer, base time 1000.
const PLAIN: Fields = Fields {
    base_timestamp: 1000,
    producer_id: None,
    producer_epoch: None,
    base_sequence: None,
    transactional: false,
    control: false,
};

const PRODUCED: Fields = Fields {
    base_timestamp: 1000,
    producer_id: Some(5),
    producer_epoch: Some(1),
    base_sequence: Some(9),
    transactional: true,
    control: false,
};

const CONTROL: Fields = Fields {
    base_timestamp: 20,
    producer_id: Some(5),
    producer_epoch: Some(0),
    base_sequence: None,
    transactional: true,
    control: true,
};

// Null key, value `a`, no headers.
const ONE: Parts<'static> = Parts {
    timestamp: 1000,
    key: None,
    value: Some(b"a"),
    headers: &[],
};

const KEYED: Parts<'static> = Parts {
    timestamp: 700,
    key: Some(b"k"),
    value: None,
    headers: &[
        HeaderParts {
            key: b"h1",
            value: None,
        },
        HeaderParts {
            key: &[0xc3, 0xa9],
            value: Some(b"xyz"),
        },
    ],
};

const EMPTY: Parts<'static> = Parts {
    timestamp: 1300,
    key: Some(b""),
    value: Some(b""),
    headers: &[HeaderParts {
        key: b"",
        value: Some(b""),
    }],
};

static THREE: [Parts<'static>; 3] = [ONE, KEYED, EMPTY];

// Commits for a producer, by a coordinator of epoch 7.
const COMMIT: Parts<'static> = Parts {
    timestamp: 20,
    key: Some(&[0, 0, 0, 1]),
    value: Some(&[0, 0, 0, 0, 0, 7]),
    headers: &[],
};

// One record: null key, value `a`, time 1000, no producer.
static ONE_HEX: &str =
    "000000000000000000000039ffffffff02ebf1884b00000000000000000000000003e800000000000003e8ffffffffffffffffffffffffffff000000010e00000001026100";

static ONE_TEXT: &str =
    "base 0 length 57 epoch - magic 2 crc 3958474827 attributes 0 delta 0 time 1000 most 1000 producer - of - from - \
     count 1 size 69 plain\ntime 1000 - 61\n";

// Three records of a producer's transaction.
static THREE_HEX: &str =
    "000000000000000000000057ffffffff02a67c021d00100000000200000000000003e800000000000005140000000000000005000100000009000000030e000000010261002600d70402026b01040468310104c3a90678797a1200d804040000020000";

static THREE_TEXT: &str =
    "base 0 length 87 epoch - magic 2 crc 2793144861 attributes 16 delta 2 time 1000 most 1300 producer 5 of 1 from 9 \
     count 3 size 99 transactional\n\
     time 1000 - 61\ntime 700 6b - 6831=- c3a9=78797a\ntime 1300   =\n";

// The marker that commits for producer 5 at time 20.
static COMMIT_HEX: &str =
    "000000000000000000000042ffffffff022454dce30030000000000000000000000014000000000000001400000000000000050000ffffffff000000012000000008000000010c00000000000700";

static COMMIT_TEXT: &str =
    "base 0 length 66 epoch - magic 2 crc 609541347 attributes 48 delta 0 time 20 most 20 producer 5 of 0 from - \
     count 1 size 78 control\ntime 20 00000001 000000000007\n";

// One record of a producer that has no epoch, whose sequence is 0.
static EPOCHLESS: &str =
    "000000000000000000000039ffffffff02d624c40700000000000000000000000003e800000000000003e80000000000000009ffff00000000000000010e00000001026100";

// The marker that commits, with a sequence.
static NUMBERED_MARKER: &str =
    "000000000000000000000042ffffffff0279733da400300000000000000000000000140000000000000014000000000000000500007fffffff000000012000000008000000010c00000000000700";

// The bytes of a batch as digits.
fn written(alloc: Global, batch: &Batch) -> Result<String, Refusal> {
    let mut out = Vec::new(alloc);
    batch.write(&mut out)?;
    Ok(hex(alloc, &out)?)
}

fn built(alloc: Global, fields: &Fields, parts: &[Parts<'_>]) -> Result<String, Refusal> {
    let batch = Batch::build(alloc, fields, parts, &LIMITS)?;
    written(alloc, &batch)
}

// The same, spelled out whatever the producer fields are.
fn spelled(alloc: Global, fields: &Fields, parts: &[Parts<'_>]) -> Result<String, Refusal> {
    if fields
        .producer_id
        .is_some_and(|producer| producer >> 63 != 0)
        || fields.producer_epoch.is_some_and(|epoch| epoch >> 15 != 0)
        || fields
            .base_sequence
            .is_some_and(|sequence| sequence >> 31 != 0)
    {
        return Err(Refusal::BadProducerFields);
    }
    let bytes = Speller::new(alloc).spell(fields, parts)?;
    Ok(hex(alloc, bytes.as_slice())?)
}

// The batch of one record again, from its value alone.
fn one_value(alloc: Global) -> Result<String, Refusal> {
    let bytes = Speller::new(alloc).spell_value(&PLAIN, b"a")?;
    Ok(hex(alloc, bytes.as_slice())?)
}

// And once more, spelled into memory in which other bytes stand.
fn one_value_over(alloc: Global) -> Result<String, Refusal> {
    let mut memory = Vec::new(alloc);
    memory.resize(70, 1)?;
    let bytes = Speller::over(alloc, memory).spell_value(&PLAIN, b"a")?;
    Ok(hex(alloc, bytes.as_slice())?)
}

// Built and spelled, the batch has these bytes.
fn has_bytes(rt: &impl Abort, alloc: Global, fields: &Fields, parts: &[Parts<'_>], known: &str) {
    is(rt, built(alloc, fields, parts), known);
    is(rt, spelled(alloc, fields, parts), known);
}

#[test]
fn batches_have_the_known_bytes(rt: HostRuntime) {
    let alloc = rt.alloc();
    has_bytes(&rt, alloc, &PLAIN, &[ONE], ONE_HEX);
    is(&rt, one_value(alloc), ONE_HEX);
    is(&rt, one_value_over(alloc), ONE_HEX);
    has_bytes(&rt, alloc, &PRODUCED, &THREE, THREE_HEX);
    has_bytes(&rt, alloc, &CONTROL, &[COMMIT], COMMIT_HEX);
}

const NO_EPOCH: Fields = Fields {
    producer_id: Some(9),
    base_sequence: Some(0),
    ..PLAIN
};

const NUMBERED: Fields = Fields {
    base_sequence: Some(0x7fff_ffff),
    ..CONTROL
};

// A reader refuses both.
#[test]
fn producer_fields_are_spelled_though_they_disagree(rt: HostRuntime) {
    let alloc = rt.alloc();
    is(&rt, spelled(alloc, &NO_EPOCH, &[ONE]), EPOCHLESS);
    is(&rt, spelled(alloc, &NUMBERED, &[COMMIT]), NUMBERED_MARKER);
}

// What the bytes say that these digits spell.
fn read(alloc: Global, digits: &str, max_batch: u32) -> Result<String, Refusal> {
    let bytes = Bytes::from_vec(unhex(alloc, digits)?)?;
    let limits = Limits {
        max_batch,
        ..LIMITS
    };
    let batch = Batch::read(bytes, &limits)?;
    Ok(batch_text(alloc, &batch)?)
}

// The batch of one record, stamped with the base offset 7 and the greatest leader epoch; the checksum covers neither.
static STAMPED_HEX: &str =
    "00000000000000070000003900fffffe02ebf1884b00000000000000000000000003e800000000000003e8ffffffffffffffffffffffffffff000000010e00000001026100";

static STAMPED_TEXT: &str =
    "base 7 length 57 epoch 16777214 magic 2 crc 3958474827 attributes 0 delta 0 time 1000 most 1000 producer - of - \
     from - count 1 size 69 plain\ntime 1000 - 61\n";

#[test]
fn batches_are_read_back(rt: HostRuntime) {
    let alloc = rt.alloc();
    is(&rt, read(alloc, ONE_HEX, 99), ONE_TEXT);
    is(&rt, read(alloc, STAMPED_HEX, 99), STAMPED_TEXT);
    is(&rt, read(alloc, THREE_HEX, 99), THREE_TEXT);
    is(&rt, read(alloc, COMMIT_HEX, 99), COMMIT_TEXT);
}

// The batch's records, each found by its place, behind the place of the next one.
fn by_places(alloc: Global, batch: &Batch) -> Result<String, Refusal> {
    let mut text = String::new(alloc);
    let mut at = RecordPlace { number: 0, byte: 0 };
    for _ in 0..4 {
        let Some((record, next)) = batch.record_at(at) else {
            text.push_str("none")?;
            break;
        };
        write!(text, "{} {} ", next.number, next.byte)?;
        push_record(&mut text, record)?;
        at = next;
    }
    Ok(text)
}

fn three_by_places(alloc: Global) -> Result<String, Refusal> {
    let batch = Batch::read(Bytes::from_vec(unhex(alloc, THREE_HEX)?)?, &LIMITS)?;
    by_places(alloc, &batch)
}

#[test]
fn records_are_found_by_their_places(rt: HostRuntime) {
    is(
        &rt,
        three_by_places(rt.alloc()),
        "1 8 time 1000 - 61\n2 28 time 700 6b - 6831=- c3a9=78797a\n3 38 time 1300   =\nnone",
    );
}

// The batch in this place, as digits.
fn stamped_copy(alloc: Global, batch: &Batch) -> Result<String, Refusal> {
    let stamped = batch.share()?.stamp(7, 16_777_214);
    written(alloc, &stamped)
}

// The same of the batch of one record.
fn stamped(alloc: Global) -> Result<String, Refusal> {
    let batch = Batch::build(alloc, &PLAIN, &[ONE], &LIMITS)?;
    stamped_copy(alloc, &batch)
}

#[test]
fn batches_are_stamped_and_shared(rt: HostRuntime) {
    is(&rt, stamped(rt.alloc()), STAMPED_HEX);
}

// The marker that aborts: another type, and so another checksum.
static ABORT_HEX: &str =
    "000000000000000000000042ffffffff02d06a0aab0030000000000000000000000014000000000000001400000000000000050000ffffffff000000012000000008000000000c00000000000700";

// The batch of a marker of producer 5, as digits.
fn marked(alloc: Global, kind: Kind) -> Result<String, Refusal> {
    let batch = marker(alloc, 5, 0, 7, kind, 20)?;
    written(alloc, &batch)
}

#[test]
fn markers_have_the_known_bytes(rt: HostRuntime) {
    is(&rt, marked(rt.alloc(), Kind::Commit), COMMIT_HEX);
    is(&rt, marked(rt.alloc(), Kind::Abort), ABORT_HEX);
}
