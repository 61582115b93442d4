//! Refusals as text, devices that fail or write little at once, and the checksum.

use crate::shown::{hex, is, unrefused};
use kp_crc::crc32c;
use kp_types::{Counted, Faulty, Refusal};
use std::alloc::Global;
use std::io::{self, ErrorKind, Read, Write};
use std::process::Abort;

fn text_of(alloc: Global, refusal: Refusal) -> Result<String, Refusal> {
    Ok(refusal.to_string(alloc)?)
}

// Numbers and names of docs/FORMATS.md.
static NAMES: [(Refusal, &str); 13] = [
    (Refusal::Truncated, "F1 Truncated"),
    (Refusal::BadRecord(61), "F8 BadRecord 61"),
    (Refusal::FencedLeaderEpoch, "F17 FencedLeaderEpoch"),
    (Refusal::UnknownLeaderEpoch, "F18 UnknownLeaderEpoch"),
    (Refusal::NotBoundary, "F19 NotBoundary"),
    (Refusal::BelowSettled, "F20 BelowSettled"),
    (Refusal::StaleRecord, "F22 StaleRecord"),
    (Refusal::NotCaughtUp, "F23 NotCaughtUp"),
    (Refusal::RecordFull, "F24 RecordFull"),
    (Refusal::Down, "F28 Down"),
    (Refusal::StaleAnswer, "F29 StaleAnswer"),
    (Refusal::BadScript(1), "F31 BadScript 1"),
    (Refusal::Memory, "F33 Memory"),
];

#[test]
fn refusals_have_numbers_and_names(rt: HostRuntime) {
    for (refusal, want) in &NAMES {
        is(&rt, text_of(rt.alloc(), *refusal), want);
    }
}

// What reading the bytes `hello` gives where this call fails, and how many calls failed.
fn read_failing(alloc: Global, fails: u64) -> Result<String, Refusal> {
    let mut reader = Counted::new(Faulty::new(b"hello".to_vec(alloc)?, fails));
    let mut text = match reader.read_all(alloc) {
        Ok(bytes) => hex(alloc, &bytes)?,
        Err(refusal) => refusal.to_string(alloc)?,
    };
    write!(text, " {}", reader.faults())?;
    Ok(text)
}

// The first call reads all there is, and the second finds the end.
static READS: [(u64, &str); 3] = [
    (0, "F32 Device 1"),
    (1, "F32 Device 1"),
    (2, "68656c6c6f 0"),
];

#[test]
fn a_read_fails_where_it_is_told_to(rt: HostRuntime) {
    for (fails, want) in &READS {
        is(&rt, read_failing(rt.alloc(), *fails), want);
    }
}

/// A writer that takes at most two bytes a call, and none once it is full.
#[derive(Drop)]
struct Narrow {
    bytes: Vec<u8>,
    room: usize,
}

impl Write for Narrow {
    fn write(&mut self, buf: &[u8]) -> io::Result<usize> {
        let count = buf.len().min(2).min(self.room);
        self.room -= count;
        let (front, _) = buf.split_at(count);
        self.bytes.write(front)
    }

    fn flush(&mut self) -> io::Result<()> {
        Ok(())
    }
}

// What is written of `hello`, whether it was refused, and how many calls failed.
type Out = (Vec<u8>, Result<(), Refusal>, u64);

// Each device has room for all bytes from the start, so that no write fails for want of memory.
fn write_narrow(alloc: Global, room: usize) -> Result<Out, Refusal> {
    let bytes = Vec::with_capacity(alloc, 16)?;
    let mut writer = Counted::new(Narrow { bytes, room });
    let written = writer.write_all(b"hello");
    let left = writer.device().bytes.as_slice().to_vec(alloc)?;
    Ok((left, written, writer.faults()))
}

fn write_failing(alloc: Global, fails: u64) -> Result<Out, Refusal> {
    let mut writer = Counted::new(Faulty::new(Vec::with_capacity(alloc, 16)?, fails));
    let written = writer.write_all(b"hello");
    let left = writer.device().bytes.as_slice().to_vec(alloc)?;
    Ok((left, written, writer.faults()))
}

fn out_is(rt: &impl Abort, found: Result<Out, Refusal>, bytes: &[u8], failed: u64) {
    let out = unrefused(rt, found);
    let refused = if failed == 0 {
        Ok(())
    } else {
        Err(Refusal::Device)
    };
    assert_eq!(rt; (out.0.as_slice(), out.1, out.2), (bytes, refused, failed));
}

fn short_ones_go_on(rt: &impl Abort, alloc: Global) {
    for (room, bytes, failed) in [
        (9, b"hello".as_slice(), 0),
        (5, b"hello", 0),
        (4, b"hell", 1),
        (0, b"", 1),
    ] {
        out_is(rt, write_narrow(alloc, room), bytes, failed);
    }
}

fn failed_ones_are_counted(rt: &impl Abort, alloc: Global) {
    for (fails, bytes, failed) in [(0, b"".as_slice(), 1), (1, b"hello", 0)] {
        out_is(rt, write_failing(alloc, fails), bytes, failed);
    }
}

#[test]
fn short_writes_go_on_and_failed_ones_are_counted(rt: HostRuntime) {
    short_ones_go_on(&rt, rt.alloc());
    failed_ones_are_counted(&rt, rt.alloc());
}

/// A device of which every second call is interrupted, the first one too.
#[derive(Drop)]
struct Interrupting {
    device: Faulty,
    interrupted: bool,
}

impl Interrupting {
    fn call(&mut self) -> io::Result<()> {
        self.interrupted = !self.interrupted;
        if self.interrupted {
            return Err(io::Error::from(ErrorKind::Interrupted));
        }
        Ok(())
    }
}

impl Read for Interrupting {
    fn read(&mut self, buf: &mut [u8]) -> io::Result<usize> {
        self.call()?;
        self.device.read(buf)
    }
}

impl Write for Interrupting {
    fn write(&mut self, buf: &[u8]) -> io::Result<usize> {
        self.call()?;
        self.device.write(buf)
    }

    fn flush(&mut self) -> io::Result<()> {
        Ok(())
    }
}

// What is read of `hello`, what of it is written, and how many calls failed, where calls are interrupted.
fn interrupted(alloc: Global) -> Result<(Vec<u8>, Vec<u8>, u64), Refusal> {
    // There is room for what is written, too.
    let mut bytes = Vec::with_capacity(alloc, 16)?;
    bytes.extend_from_slice(b"hello")?;
    let mut both = Counted::new(Interrupting {
        device: Faulty::new(bytes, u64::MAX),
        interrupted: false,
    });
    let read = both.read_all(alloc)?;
    both.write_all(b"hello")?;
    let kept = both.device().device.bytes.as_slice().to_vec(alloc)?;
    Ok((read, kept, both.faults()))
}

#[test]
fn interrupted_calls_are_tried_again(rt: HostRuntime) {
    let (read, kept, faults) = unrefused(&rt, interrupted(rt.alloc()));
    assert_eq!(rt;
        (read.as_slice(), kept.as_slice(), faults),
        (b"hello".as_slice(), b"hellohello".as_slice(), 0)
    );
}

// The check value of CRC-32C.
#[test]
fn the_check_value_is_known(rt: HostRuntime) {
    assert_eq!(rt; (crc32c(b""), crc32c(b"123456789")), (0, 0xE306_9283));
}

fn sum_of(alloc: Global, byte: u8) -> Result<u32, Refusal> {
    let mut bytes = Vec::new(alloc);
    bytes.resize(32, byte)?;
    Ok(crc32c(&bytes))
}

// 32 bytes each, of RFC 3720, appendix B.4.
#[test]
fn known_checksums(rt: HostRuntime) {
    for (byte, want) in [(0, 0x8A91_36AA), (0xff, 0x62A8_AB43)] {
        assert_eq!(rt; sum_of(rt.alloc(), byte), Ok(want));
    }
}
