//! Bytes inspected, from a reader to a writer.

ghost use Rattle.std.specs.Prelude.{◌≡◌, ◌+◌, ◌<◌, ◌^◌, IfOk, IfErr, OnErr, string_bytes};
ghost use Rattle.kp_types.specs.declared.refusal.Refusal.TheVariants.{Memory};
ghost use Rattle.kp_types.specs.Devices.{CountsOne, device_of, faults_of, IsDeviceFault};
ghost use Rattle.kp_inspect.specs.Scanned.{IsScan};
ghost use Rattle.kp_inspect.specs.Inspected.{IsDump, Writes, WritesFront};

use crate::scan::{Scan, scan_bytes};
use crate::text::{push_batches, push_fault, push_tables};
use bytes::Bytes;
use kp_types::{Counted, Limits, Refusal};
use std::alloc::Global;
use std::io::{Read, Write};

/// The text of a dump, and the refusal of its fault line.
#[derive(Drop)]
struct Dump {
    text: String,
    fault: Option<Refusal>,
}

/// What is printed of what was found in the bytes. F33.
fn text_of(alloc: Global, bytes: &Bytes, limits: &Limits, found: &Scan) -> Result<String, Refusal>
    requires found { IsScan limits.now bytes.now found.now }
    ensures told { IfOk result (λ text. IsDump limits.now bytes.now (string_bytes text) found.now.fault) }
    ensures only { IfErr result (λ refusal. refusal ≡ Memory) }
{
    let _size = bytes.len(); // a size of memory
    let mut text = String::new(alloc);
    let position = push_batches(&mut text, found.log.batches())?;
    match found.fault {
        Some(refusal) => push_fault(&mut text, refusal, position)?,
        None => push_tables(&mut text, &found.log)?,
    }
    Ok(text)
}

/// The dump of the bytes. F33.
fn dump_of(alloc: Global, input: Vec<u8>, limits: &Limits) -> Result<Dump, Refusal>
    ensures told { IfOk result (λ dump.
        IsDump limits.now input.items (string_bytes dump.text) dump.fault) }
    ensures only { IfErr result (λ refusal. refusal ≡ Memory) }
{
    let bytes = Bytes::from_vec(input)?;
    let found = scan_bytes(alloc, &bytes, limits)?;
    let text = text_of(alloc, &bytes, limits, &found)?;
    Ok(Dump {
        text,
        fault: found.fault,
    })
}

/// Looks into the bytes that the reader has left, which are a row of batches, read as one log from offset 0
/// and cut by `limits`. It writes a line for each batch; at the first fault a line that names it and the
/// place of the faulty batch, and nothing more; else the log's segments with their indexes, its producers, its
/// open and its aborted transactions, and its end.
/// Answers the refusal of the fault line (F1 to F10, and F25 to F27 where the log doesn't take the batch), or
/// none. F32 where a device failed and F33, and then a beginning of the text is written. It takes time
/// and memory proportional to the bytes and the text, and O(n log n) to bring n producers in order.
pub fn inspect<R: Read, W: Write>(
    alloc: Global,
    reader: &mut Counted<R>,
    writer: &mut Counted<W>,
    limits: &Limits,
) -> Result<Option<Refusal>, Refusal>
    requires reads { faults_of reader.old + 1 < 2 ^ 64 }
    requires writes { faults_of writer.old + 1 < 2 ^ 64 }
    ensures written { IfOk result (λ fault. Writes limits.now (R.remaining (device_of reader.old))
        (W.contents (device_of writer.old)) (W.contents (device_of writer.new)) fault) }
    ensures front { OnErr result (WritesFront limits.now (R.remaining (device_of reader.old))
        (W.contents (device_of writer.old)) (W.contents (device_of writer.new))) }
    ensures only { IfErr result IsDeviceFault }
    ensures counted { CountsOne result (faults_of reader.old) (faults_of reader.new)
        (faults_of writer.old) (faults_of writer.new) }
{
    let input = reader.read_all(alloc)?;
    let dump = dump_of(alloc, input, limits)?;
    writer.write_all(dump.text.as_bytes())?;
    Ok(dump.fault)
}
