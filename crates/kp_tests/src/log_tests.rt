//! Logs, their segments and what is found in them.

use crate::logs::{log_of, there_and_back};
use crate::shown::is;
use kp_log::PartitionLog;
use kp_types::{Limits, MAX_BATCH, Refusal};
use std::alloc::{AllocError, Global};

/// Segments of two batches of 512 bytes, with an entry for each batch but the first.
pub(crate) const SMALL: Limits = Limits {
    segment_bytes: 1_024,
    index_interval: 0,
    max_batch: MAX_BATCH,
};

// An entry where more than 100 bytes lie before.
const SPACED: Limits = Limits {
    index_interval: 100,
    ..SMALL
};

// For each of these times the first record of that time or a later one.
fn push_times(text: &mut String, log: &PartitionLog, times: [u64; 5]) -> Result<(), AllocError> {
    for time in times {
        match log.offset_for_time(time) {
            Some(found) => write!(text, "{time} at {} {} ", found.offset, found.timestamp)?,
            None => write!(text, "{time} none ")?,
        }
    }
    Ok(())
}

// The base of the batch that has each of these offsets.
fn push_places(text: &mut String, log: &PartitionLog, offsets: [u64; 4]) -> Result<(), AllocError> {
    for offset in offsets {
        match log.batch_at(offset) {
            Some(batch) => write!(text, "{offset} in {} ", batch.base_offset())?,
            None => write!(text, "{offset} nowhere ")?,
        }
    }
    Ok(())
}

fn push_names(text: &mut String, log: &PartitionLog) -> Result<(), AllocError> {
    for name in log.tables().segments().names() {
        write!(text, "{name} ")?;
    }
    Ok(())
}

// The names of the log's segments, and what is found in it.
fn push_found(text: &mut String, log: &PartitionLog) -> Result<(), AllocError> {
    push_names(text, log)?;
    push_places(text, log, [0, 1, 2, 3])?;
    push_times(text, log, [0, 10, 15, 30, 31])
}

fn told_of(alloc: Global, log: &PartitionLog) -> Result<String, Refusal> {
    let mut text = String::new(alloc);
    push_found(&mut text, log)?;
    Ok(text)
}

// The same of the log of these batches.
fn found_in(alloc: Global, words: &str) -> Result<String, Refusal> {
    let log = log_of(alloc, &SPACED, words)?;
    told_of(alloc, &log)
}

// Nothing; times 10, 30 and 20, in one segment and in three.
static FOUND: [(&str, &str); 3] = [
    (
        "",
        "0 nowhere 1 nowhere 2 nowhere 3 nowhere 0 none 10 none 15 none 30 none 31 none ",
    ),
    (
        "t5.0.0 p30 a5.0.7",
        "00000000000000000000.log \
         0 in 0 1 in 1 2 in 2 3 nowhere 0 at 0 10 10 at 0 10 15 at 1 30 30 at 1 30 31 none ",
    ),
    (
        "p10.443 p30.443 p20.443",
        "00000000000000000000.log 00000000000000000001.log 00000000000000000002.log \
         0 in 0 1 in 1 2 in 2 3 nowhere 0 at 0 10 10 at 0 10 15 at 1 30 30 at 1 30 31 none ",
    ),
];

#[test]
fn look_ups_find_offsets_and_times(rt: HostRuntime) {
    for (words, want) in &FOUND {
        is(&rt, found_in(rt.alloc(), words), want);
    }
}

// A log, its last batch, and what is told with it and once it was undone. The example log of docs/FORMATS.md has batches of 69,
// 69 and 78 bytes: only in front of the third lie more than 100. An entry's last number is how many batches stand before it, or
// how many a look-up may pass over. A value of 442 bytes makes a batch of 512: a head of 61, the record's length in 2 (449 is
// the number 898, 8207) and 449 more, of which 7 are no value. Two such batches fill a segment; one byte more rolls the log.
static UNDONE: [(Limits, &str, &str, &str); 3] = [
    (
        SPACED,
        "t5.0.0 p30",
        "a5.0.7",
        "00000000000000000000.log 216 at 2 138 2 time 30 1 0\nproducer 5 0 7 0-0@0\naborted 5 0 2 3\nstable 3 1=62\n\
         undone\n00000000000000000000.log 138\nproducer 5 0 - 0-0@0\nopen 5 0\nstable 0\n",
    ),
    (
        SMALL,
        "p10.442",
        "p20.442",
        "00000000000000000000.log 1024 at 1 512 1 time 20 1 0\nstable 2 0=62 1=62\n\
         undone\n00000000000000000000.log 512\nstable 1 0=62\n",
    ),
    (
        SMALL,
        "p10.442",
        "p20.443",
        "00000000000000000000.log 512 time 10 0 0\n00000000000000000001.log 513\nstable 2 0=62 1=62\n\
         undone\n00000000000000000000.log 512\nstable 1 0=62\n",
    ),
];

#[test]
fn a_log_has_the_tables_of_its_batches(rt: HostRuntime) {
    for (limits, before, last, want) in &UNDONE {
        is(
            &rt,
            there_and_back(rt.alloc(), limits, before, last, ""),
            want,
        );
    }
}
