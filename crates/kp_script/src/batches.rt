//! The batches and other bytes that a script hands to nodes.

ghost use Rattle.std.specs.Prelude.{◌≡◌, ℕ, [], ◌∷◌, ◌+◌, ◌<◌, ◌≤◌, ◌^◌, ◌==◌, true, false, IfOk, IfErr, OnOk, length, map};
ghost use Rattle.std.specs.List.{count_by};
ghost use Rattle.kp_types.specs.declared.refusal.Refusal.TheVariants.{Memory, TooLarge};
ghost use Rattle.kp_batch.specs.Reading.{IsFirstFault};
ghost use Rattle.kp_record.specs.Made.{plain_record, record_made};
ghost use Rattle.kp_record.specs.Record.{records_spelling};
ghost use Rattle.kp_script.specs.Call.{Append, Raw, IsSender};
ghost use Rattle.kp_words.specs.Words.{pieces};
ghost use Rattle.kp_script.specs.Hex.{bytes_of};
ghost use Rattle.kp_script.specs.Told.{HandsIn};
ghost use Rattle.kp_script.specs.Transcript.{largest_batch};
ghost use Rattle.kp_script.specs.Seen.{seen_sender, seen_values};

use crate::call::Sender;
use crate::digits::bytes_of;
use bytes::Bytes;
use kp_batch::{Fields, Handed, Parts, Speller};
use kp_types::{MAX_BATCH, Refusal};
use kp_words::split_first_at;
use std::alloc::{AllocError, Global};

/// A batch is never too large for the number of its records where its values have so few bytes.
const FEW_BYTES: usize = 131_072;
/// The most bytes of a value that [`Speller::spell_value`] takes.
pub(crate) const LONGEST_VALUE: usize = 1_000_000;
/// Bytes that are too large by their length field, as a batch of some 2 GB is.
static LARGE_FRONT: [u8; 61] = [127; 61];

/// The record at this time in milliseconds with this value.
fn part_of(time: u64, value: &[u8]) -> Parts<'_>
    ensures { record_made result ≡ plain_record time value.now }
{
    Parts {
        timestamp: time,
        key: None,
        value: Some(value),
        headers: &[],
    }
}

/// Puts a record for each piece between the commas in place of those in `parts`: it has this time in milliseconds, and
/// the piece as its value. Takes time proportional to the bytes, and fails where memory runs out.
fn put_parts<'a>(parts: &mut Vec<Parts<'a>>, time: u64, values: &'a [u8]) -> Result<(), AllocError>
    ensures { OnOk result (map record_made parts.new.items
        ≡ map (plain_record time) (pieces values.now)) }
{
    parts.clear();
    let mut rest = values;
    while let Some((value, after)) = split_first_at(b',', rest) {
        parts.push(part_of(time, value))?;
        rest = after;
    }
    parts.push(part_of(time, rest))?;
    Ok(())
}

/// How many commas there are.
fn commas_in(values: &[u8]) -> usize
    ensures count { result ≡ count_by (λ byte. byte == 44) values.now }
    ensures most { result ≤ length values.now }
{
    let mut commas = 0;
    for byte in values {
        if *byte == b',' {
            commas += 1;
        }
    }
    commas
}

/// Whether there are so many values, or bytes of them, that no node takes a batch with a record for each: its head has 61 bytes,
/// and each record has seven besides its value. Takes time proportional to the bytes, and no memory.
fn are_too_many(values: &[u8]) -> bool
    requires { length values.now ≤ 2100000 }
    ensures { result ≡ true → (time : ℕ) → largest_batch
        < 61 + length (records_spelling time 0 (map (plain_record time) (pieces values.now))) }
{
    values.len() > FEW_BYTES && 68 + values.len() + 6 * commas_in(values) > MAX_BATCH as usize
}

/// Bytes that stand for a batch that no node takes. No memory is taken.
fn too_large() -> Handed
    ensures { IsFirstFault largest_batch result TooLarge }
{
    Handed::raw(Bytes::from_static(&LARGE_FRONT))
}

/// The fields of a batch at this time in milliseconds, which has this sender.
#[inline(always)]
fn fields_of(time: u64, sender: Sender, transactional: bool) -> Fields
    ensures { result ≡ record {
      base_timestamp = time;
      producer_id = (seen_sender sender).producer;
      producer_epoch = (seen_sender sender).epoch;
      base_sequence = (seen_sender sender).sequence;
      transactional = transactional;
      control = false;
    } }
{
    Fields {
        base_timestamp: time,
        producer_id: sender.producer(),
        producer_epoch: sender.epoch(),
        base_sequence: sender.sequence(),
        transactional,
        control: false,
    }
}

/// [`batch_of`] of values with commas between them.
fn batch_of_pieces<'a>(
    speller: &mut Speller,
    parts: &mut Vec<Parts<'a>>,
    time: u64,
    sender: Sender,
    transactional: bool,
    values: &'a [u8],
) -> Result<Handed, Refusal>
    requires early { time < 2 ^ 62 }
    requires sender { IsSender (seen_sender sender) }
    requires short { length values.now ≤ 2100000 }
    ensures told { IfOk result (λ bytes. (node : ℕ) → HandsIn largest_batch
        (Append node time (seen_sender sender) transactional (pieces values.now)) bytes) }
    ensures only { IfErr result (λ refusal. refusal ≡ Memory) }
{
    if are_too_many(values) {
        return Ok(too_large());
    }
    put_parts(parts, time, values)?;
    speller.spell(&fields_of(time, sender, transactional), parts.as_slice())
}

/// [`batch_of`] of one value of at most [`LONGEST_VALUE`] bytes, as most batches have: nothing is tested then.
#[inline(always)]
pub(crate) fn batch_of_value(
    speller: &mut Speller,
    time: u64,
    sender: Sender,
    transactional: bool,
    value: &[u8],
) -> Result<Handed, Refusal>
    requires early { time < 2 ^ 62 }
    requires sender { IsSender (seen_sender sender) }
    requires short { length value.now ≤ 1000000 }
    ensures told { IfOk result (λ bytes. (node : ℕ) → HandsIn largest_batch
        (Append node time (seen_sender sender) transactional (value.now ∷ [])) bytes) }
    ensures only { IfErr result (λ refusal. refusal ≡ Memory) }
{
    speller.spell_value(&fields_of(time, sender, transactional), value)
}

/// A batch with a record for each of the values, each at this time in milliseconds, to be handed to a node: for one value, or for
/// each piece between the commas.
/// What it says of its producer and its kind need not agree, and it has any size: a node refuses what doesn't agree, and
/// what is above its own limit. Takes time proportional to the bytes, and memory to those of a batch that a node may take;
/// where they are too many for one, none, as then only bytes with the same fault are handed in. Is refused only where memory runs
/// out.
pub(crate) fn batch_of<'a>(
    speller: &mut Speller,
    parts: &mut Vec<Parts<'a>>,
    time: u64,
    sender: Sender,
    transactional: bool,
    lone: bool,
    values: &'a [u8],
) -> Result<Handed, Refusal>
    requires early { time < 2 ^ 62 }
    requires sender { IsSender (seen_sender sender) }
    requires short { length values.now ≤ 2100000 }
    ensures told { IfOk result (λ bytes. (node : ℕ) → HandsIn largest_batch
        (Append node time (seen_sender sender) transactional (seen_values lone values.now)) bytes) }
    ensures only { IfErr result (λ refusal. refusal ≡ Memory) }
{
    if !lone {
        return batch_of_pieces(speller, parts, time, sender, transactional, values);
    }
    if values.len() > MAX_BATCH as usize {
        return Ok(too_large());
    }
    let part = [part_of(time, values)];
    speller.spell(&fields_of(time, sender, transactional), &part)
}

/// The bytes that the digits spell, to be handed to a node. Takes time and memory proportional to their number, and is
/// refused only where memory runs out.
#[inline(never)]
pub(crate) fn raw_bytes(alloc: Global, digits: &[u8]) -> Result<Handed, Refusal>
    ensures told { IfOk result (λ bytes. (node : ℕ)
        → HandsIn largest_batch (Raw node (bytes_of digits.now)) bytes) }
    ensures only { IfErr result (λ refusal. refusal ≡ Memory) }
{
    kp_replica::bytes_are_an_offer();
    let bytes = Bytes::from_vec(bytes_of(alloc, digits)?)?;
    Ok(Handed::raw(bytes))
}
