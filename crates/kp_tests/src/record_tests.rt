//! Records as bytes. The bytes are spelled out by hand from the Kafka protocol guide's 'Record': the length, then
//! attributes, timestamp delta, offset delta, key, value, number of headers, headers.

use crate::shown::{hex, is, push_bytes, push_record, unhex};
use bytes::BytesMut;
use kp_record::{
    HeaderParts, Parts, Place, plain_record_size, read_record, record_size, write_plain_record,
    write_record,
};
use kp_types::Refusal;
use std::alloc::Global;

// The first record of a batch of base time 1000.
const FIRST: Place = Place {
    base_timestamp: 1000,
    offset_delta: 0,
    byte: 61,
};

const SIXTH: Place = Place {
    offset_delta: 5,
    ..FIRST
};

// Null key, value `a`, no headers, at time 1000.
const PLAIN: Parts<'static> = Parts {
    timestamp: 1000,
    key: None,
    value: Some(b"a"),
    headers: &[],
};

// Key `k`, null value, two headers, at time 700.
const FULL: Parts<'static> = Parts {
    timestamp: 700,
    key: Some(b"k"),
    value: None,
    headers: &[
        HeaderParts {
            key: b"h1",
            value: None,
        },
        HeaderParts {
            key: &[0xc3, 0xa9],
            value: Some(b"xyz"),
        },
    ],
};

const MOST: u64 = 0x3fff_ffff_ffff_ffff;

// Null key, null value, at the last time that there is.
const LAST: Parts<'static> = Parts {
    timestamp: MOST,
    value: None,
    ..PLAIN
};

// Null key, a value of no bytes.
const EMPTY: Parts<'static> = Parts {
    value: Some(b""),
    ..PLAIN
};

// The record's bytes as digits, and its size.
fn spelled(alloc: Global, place: &Place, parts: &Parts<'_>) -> Result<String, Refusal> {
    if place.base_timestamp >> 62 != 0
        || parts.timestamp >> 62 != 0
        || place.offset_delta >> 31 != 0
    {
        return Err(Refusal::BadCount);
    }
    let mut out = Vec::new(alloc);
    write_record(&mut out, place, parts)?;
    let mut text = hex(alloc, &out)?;
    write!(text, " {}", record_size(place, parts))?;
    Ok(text)
}

// Places and records, and what is written of them.
// A difference of times is zigzag, so 300 later is the number 600, d804 in groups of 7 bits; so is the place 300.
static WRITTEN: [(Place, Parts<'static>, &str); 8] = [
    (FIRST, PLAIN, "0e00000001026100 8"),
    (SIXTH, FULL, "2600d7040a026b01040468310104c3a90678797a 20"),
    (FIRST, EMPTY, "0c000000010000 7"),
    (
        FIRST,
        Parts {
            timestamp: 1001,
            ..LAST
        },
        "0c000200010100 7",
    ),
    (
        Place {
            offset_delta: 1,
            ..FIRST
        },
        Parts {
            timestamp: 999,
            ..LAST
        },
        "0c000102010100 7",
    ),
    (
        Place {
            offset_delta: 300,
            ..FIRST
        },
        Parts {
            timestamp: 1300,
            ..LAST
        },
        "1000d804d804010100 9",
    ),
    (
        Place {
            base_timestamp: 0,
            ..FIRST
        },
        LAST,
        "1c00feffffffffffffff7f00010100 15",
    ),
    (
        Place {
            base_timestamp: MOST,
            ..FIRST
        },
        Parts {
            timestamp: 0,
            ..LAST
        },
        "1c00fdffffffffffffff7f00010100 15",
    ),
];

#[test]
fn records_have_the_known_bytes(rt: HostRuntime) {
    for (place, parts, known) in &WRITTEN {
        is(&rt, spelled(rt.alloc(), place, parts), known);
    }
}

// The bytes of a plain record of this value as digits, and its size.
fn plainly_spelled(alloc: Global, value: &[u8]) -> Result<String, Refusal> {
    if value.len() > 1_000_000 {
        return Err(Refusal::TooLarge);
    }
    let size = plain_record_size(value);
    let mut out = BytesMut::with_capacity(alloc, size as usize)?;
    write_plain_record(&mut out, value);
    let mut text = hex(alloc, out.as_slice())?;
    write!(text, " {size}")?;
    Ok(text)
}

// Values, and what is written of a record that has a value alone, at its batch's base timestamp: from 64 bytes on, their number has two
// groups, and so has the record's length.
static PLAINLY_WRITTEN: [(&[u8], &str); 3] = [
    (b"a", "0e00000001026100 8"),
    (b"", "0c000000010000 7"),
    (
        b"0123456789abcdef0123456789abcdef0123456789abcdef0123456789abcdef",
        "8e0100000001800130313233343536373839616263646566\
        30313233343536373839616263646566\
        30313233343536373839616263646566\
        3031323334353637383961626364656600 73",
    ),
];

#[test]
fn plain_records_have_the_known_bytes(rt: HostRuntime) {
    for (value, known) in &PLAINLY_WRITTEN {
        is(&rt, plainly_spelled(rt.alloc(), value), known);
    }
}

// The record in front of the bytes that these digits spell, and what follows it; or why there is none.
fn found(alloc: Global, digits: &str, place: &Place) -> Result<String, Refusal> {
    if place.base_timestamp >> 62 != 0 || place.offset_delta >> 31 != 0 {
        return Err(Refusal::BadCount);
    }
    let bytes = unhex(alloc, digits)?;
    let (record, rest) = read_record(&bytes, place)?;
    let mut text = String::new(alloc);
    push_record(&mut text, record)?;
    push_bytes(&mut text, Some(rest))?;
    Ok(text)
}

static READ: [(&str, Place, &str); 3] = [
    ("0e000000010261000e00", FIRST, "time 1000 - 61\n0e00"),
    (
        "2600d7040a026b01040468310104c3a90678797a08",
        SIXTH,
        "time 700 6b - 6831=- c3a9=78797a\n08",
    ),
    ("0c000000010000", FIRST, "time 1000 - \n"),
];

#[test]
fn records_are_read_back(rt: HostRuntime) {
    for (digits, place, known) in &READ {
        is(&rt, found(rt.alloc(), digits, place), known);
    }
}
