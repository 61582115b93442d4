//! Bytes, records and batches as text.

use kp_batch::{Batch, Record};
use kp_types::Refusal;
use std::alloc::{AllocError, Global};
use std::process::Abort;

/// What was found, where nothing was refused.
pub(crate) fn unrefused<T: Drop>(rt: &impl Abort, found: Result<T, Refusal>) -> T {
    match found {
        Ok(found) => found,
        Err(refusal) => panic!(rt; "{refusal}"),
    }
}

/// The text is this one.
pub(crate) fn is(rt: &impl Abort, found: Result<String, Refusal>, want: &str) {
    match found {
        Ok(text) => assert_eq!(rt; text.as_str(), want),
        Err(refusal) => panic!(rt; "{refusal} in place of {want}"),
    }
}

/// Appends the bytes as hexadecimal digits, and null as `-`.
pub(crate) fn push_bytes(text: &mut String, bytes: Option<&[u8]>) -> Result<(), AllocError> {
    let Some(bytes) = bytes else {
        return text.push('-');
    };
    for byte in bytes {
        write!(text, "{byte:02x}")?;
    }
    Ok(())
}

/// The bytes as hexadecimal digits.
pub(crate) fn hex(alloc: Global, bytes: &[u8]) -> Result<String, AllocError> {
    let mut text = String::new(alloc);
    push_bytes(&mut text, Some(bytes))?;
    Ok(text)
}

fn digit(byte: u8) -> u8 {
    match byte {
        b'0'..=b'9' => byte - b'0',
        b'a'..=b'f' => byte - b'a' + 10,
        _ => 0,
    }
}

/// The bytes that hexadecimal digits spell.
pub(crate) fn unhex(alloc: Global, digits: &str) -> Result<Vec<u8>, AllocError> {
    let mut bytes = Vec::new(alloc);
    for pair in digits.as_bytes().chunks_exact(2) {
        if let [high, low] = pair {
            bytes.push(digit(*high) << 4 | digit(*low))?;
        }
    }
    Ok(bytes)
}

/// Appends a record: its time, its key and its value, and each header as `key=value`.
pub(crate) fn push_record(text: &mut String, record: Record<'_>) -> Result<(), AllocError> {
    write!(text, "time {} ", record.timestamp)?;
    push_bytes(text, record.key)?;
    text.push(' ')?;
    push_bytes(text, record.value)?;
    for header in record.headers {
        text.push(' ')?;
        push_bytes(text, Some(header.key))?;
        text.push('=')?;
        push_bytes(text, header.value)?;
    }
    text.push('\n')
}

fn wide<N: Into<u64>>(number: Option<N>) -> Option<u64> {
    match number {
        Some(number) => Some(number.into()),
        None => None,
    }
}

// What a batch says of itself, in the order of its fields, and last its size.
fn fields_of(batch: &Batch) -> [(&'static str, Option<u64>); 14] {
    [
        ("base", Some(batch.base_offset())),
        ("length", Some(u64::from(batch.batch_length()))),
        ("epoch", wide(batch.leader_epoch())),
        ("magic", Some(u64::from(batch.magic()))),
        ("crc", Some(u64::from(batch.crc()))),
        ("attributes", Some(u64::from(batch.attributes()))),
        ("delta", Some(u64::from(batch.last_offset_delta()))),
        ("time", Some(batch.base_timestamp())),
        ("most", Some(batch.max_timestamp())),
        ("producer", batch.producer_id()),
        ("of", wide(batch.producer_epoch())),
        ("from", wide(batch.base_sequence())),
        ("count", Some(u64::from(batch.count()))),
        ("size", Some(u64::from(batch.size()))),
    ]
}

fn push_field(text: &mut String, name: &str, field: Option<u64>) -> Result<(), AllocError> {
    match field {
        Some(number) => write!(text, "{name} {number} "),
        None => write!(text, "{name} - "),
    }
}

fn kind_of(batch: &Batch) -> &'static str {
    match (batch.is_transactional_data(), batch.is_control()) {
        (false, false) => "plain\n",
        (true, false) => "transactional\n",
        (false, true) => "control\n",
        (true, true) => "both\n",
    }
}

fn push_fields(text: &mut String, batch: &Batch) -> Result<(), AllocError> {
    for (name, field) in fields_of(batch) {
        push_field(text, name, field)?;
    }
    text.push_str(kind_of(batch))
}

/// A line of the batch's fields, and a line for each of its records.
pub(crate) fn batch_text(alloc: Global, batch: &Batch) -> Result<String, AllocError> {
    let mut text = String::new(alloc);
    push_fields(&mut text, batch)?;
    for record in batch.records() {
        push_record(&mut text, record)?;
    }
    Ok(text)
}
