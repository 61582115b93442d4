//! The readers of the fields behind a call's verb. Most are put into their callers, so that a call is built where it is
//! stored, not copied from reader to reader.

ghost use Rattle.std.specs.Prelude.{◌≡◌, ◌≢◌, ℕ, ◌<◌, ◌^◌, ◌==◌, not, Bool, true, false, List, ◌∷◌, ◌++◌, codes, IfSome, IfNone};
ghost use Rattle.std.specs.Fmt.{decimal};
ghost use Rattle.std.specs.List.{list_all};
ghost use Rattle.kp_marker.specs.Marker.{commits};
ghost use Rattle.kp_marker.specs.declared.parts.HandedMarker.{HandedMarker as SpelledMarker};
ghost use Rattle.kp_script.specs.Call.{Sender as SpelledSender, is_value, is_value_byte, kind_text, ending_text, IsSender};
ghost use Rattle.kp_words.specs.Words.{pieces};
ghost use Rattle.kp_script.specs.Read.{sender_front, marker_text, goes_on, AreFields, AreNoFields};
ghost use Rattle.kp_script.specs.Seen.{seen_sender, seen_call, seen_values};

use crate::call::{Call, GREATEST_TIME, Sender};
use crate::digits::is_hex;
use crate::words::signed_then;
use kp_marker::{HandedMarker, Kind, Marker};
use kp_replica::PlainAct;
use kp_types::{GREATEST_OFFSET, NodeId, Offset};
use kp_words::{after, number_below, number_then};

/// The greatest number of a producer, 2^63 - 1.
const GREATEST_PRODUCER: u64 = 9_223_372_036_854_775_807;
/// The greatest epoch of a producer, 2^15 - 1.
const GREATEST_PRODUCER_EPOCH: u64 = 32_767;
/// The greatest sequence number of a producer, 2^31 - 1.
const GREATEST_SEQUENCE: u64 = 2_147_483_647;
/// The greatest epoch of a transaction coordinator, 2^31 - 1.
const GREATEST_COORDINATOR_EPOCH: u64 = 2_147_483_647;

/// The node that the whole of these bytes name.
pub fn node_of(fields: &[u8], count: NodeId) -> Option<NodeId>
    ensures found { IfSome result (λ node. (fields.now ≡ decimal node) × (node < count)) }
    ensures none { IfNone result ((node : ℕ) → node < count → fields.now ≢ decimal node) }
{
    match number_below(fields, u64::from(count)) {
        Some(node) => Some(node as NodeId),
        None => None,
    }
}

/// The node that stands before the first space, and what follows the space.
#[inline(always)]
fn node_then(fields: &[u8], count: NodeId) -> Option<(NodeId, &[u8])>
    ensures found { IfSome result (λ found. (fields.now ≡ decimal found.0 ++ 32 ∷ found.1.now)
        × (found.0 < count)) }
    ensures none { IfNone result ((node : ℕ) (rest : List ℕ) → node < count
        → fields.now ≢ decimal node ++ 32 ∷ rest) }
{
    match number_then(fields, u64::from(count)) {
        Some((node, rest)) => Some((node as NodeId, rest)),
        None => None,
    }
}

/// The node and the offset that the whole of these bytes name.
#[inline(always)]
pub fn node_and_offset_of(fields: &[u8], count: NodeId) -> Option<(NodeId, Offset)>
    ensures found { IfSome result
        (λ (node, from). (fields.now ≡ decimal node ++ 32 ∷ decimal from) × (node < count)
        × (from < 2 ^ 62)) }
    ensures none { IfNone result
        ((node from : ℕ) → node < count → from < 2 ^ 62
        → fields.now ≢ decimal node ++ 32 ∷ decimal from) }
{
    let Some((node, rest)) = node_then(fields, count) else {
        return None;
    };
    match number_below(rest, GREATEST_OFFSET + 1) {
        Some(from) => Some((node, from)),
        None => None,
    }
}

/// The two nodes that the whole of these bytes name, with a space between them.
#[inline(always)]
pub fn two_nodes_of(fields: &[u8], count: NodeId) -> Option<(NodeId, NodeId)>
    ensures found { IfSome result
        (λ (node, member). (fields.now ≡ decimal node ++ 32 ∷ decimal member) × (node < count)
        × (member < count)) }
    ensures none { IfNone result
        ((node member : ℕ) → node < count → member < count
        → fields.now ≢ decimal node ++ 32 ∷ decimal member) }
{
    let Some((node, rest)) = node_then(fields, count) else {
        return None;
    };
    match node_of(rest, count) {
        Some(member) => Some((node, member)),
        None => None,
    }
}

/// Whether it is a visible ASCII character other than the comma.
#[inline(always)]
fn is_value_byte(byte: u8) -> bool
    ensures { result ≡ is_value_byte byte }
{
    (byte >= 33) & (byte <= 126) & (byte != b',')
}

/// Whether all eight are such bytes. None of them is asked for by itself, so that a processor looks at all of them at once.
#[inline(always)]
fn are_value_bytes(bytes: &[u8; 8]) -> bool
    ensures { result ≡ list_all is_value_byte bytes.now }
{
    let mut are = true;
    for byte in bytes {
        are &= is_value_byte(*byte);
    }
    are
}

/// Whether no comma stands in these bytes, where a value, which has begun or not, can go on with them, and others follow it behind
/// commas.
#[inline(always)]
fn go_on(begun: bool, bytes: &[u8]) -> Option<bool>
    ensures on { IfSome result (λ lone. goes_on begun bytes.now ≡ true) }
    ensures lone { IfSome result (λ lone. lone ≡ list_all (λ byte. not (byte == 44)) bytes.now) }
    ensures none { IfNone result (goes_on begun bytes.now ≡ false) }
{
    let mut begun = begun;
    let mut lone = true;
    for byte in bytes {
        if *byte == b',' {
            if !begun {
                return None;
            }
            begun = false;
            lone = false;
        } else {
            if !is_value_byte(*byte) {
                return None;
            }
            begun = true;
        }
    }
    if begun { Some(lone) } else { None }
}

/// Whether the values are one, in which no comma stands, where each piece between the commas can be the value of a record. Takes
/// time proportional to the bytes.
fn are_lone(values: &[u8]) -> Option<bool>
    ensures values { IfSome result (λ lone. list_all is_value (pieces values.now) ≡ true) }
    ensures lone { IfSome result (λ lone. seen_values lone values.now ≡ pieces values.now) }
    ensures none { IfNone result (list_all is_value (pieces values.now) ≡ false) }
{
    let mut begun = false;
    let mut rest = values;
    while let Some((eight, after)) = rest.split_first_chunk::<8>() {
        if !are_value_bytes(eight) {
            break;
        }
        begun = true;
        rest = after;
    }
    go_on(begun, rest)
}

/// The three fields of a producer, each in front of a space, and what follows them.
#[inline(always)]
fn sender_then(bytes: &[u8]) -> Option<(Sender, &[u8])>
    ensures found { IfSome result
        (λ found. (bytes.now ≡ sender_front (seen_sender found.0) found.1.now)
        × IsSender (seen_sender found.0)) }
    ensures none { IfNone result
        ((sender : SpelledSender) (rest : List ℕ) → IsSender sender
        → bytes.now ≢ sender_front sender rest) }
{
    let Some((producer, rest)) = signed_then(bytes, GREATEST_PRODUCER + 1) else {
        return None;
    };
    let Some((epoch, rest)) = signed_then(rest, GREATEST_PRODUCER_EPOCH + 1) else {
        return None;
    };
    let Some((sequence, rest)) = signed_then(rest, GREATEST_SEQUENCE + 1) else {
        return None;
    };
    Some((Sender::new(producer, epoch, sequence), rest))
}

/// The kind of a batch, `t` of a transaction or `d`, in front of a space, and what follows the space.
fn kind_then(bytes: &[u8]) -> Option<(bool, &[u8])>
    ensures found { IfSome result (λ found. bytes.now ≡ kind_text found.0 ++ 32 ∷ found.1.now) }
    ensures none { IfNone result ((transactional : Bool) (rest : List ℕ)
        → bytes.now ≢ kind_text transactional ++ 32 ∷ rest) }
{
    if let Some(rest) = after(b"d ", bytes) {
        return Some((false, rest));
    }
    match after(b"t ", bytes) {
        Some(rest) => Some((true, rest)),
        None => None,
    }
}

/// The append that the whole of these fields spell.
#[inline(always)]
pub fn append_of(fields: &[u8], count: NodeId) -> Option<Call<'_>>
    ensures found { IfSome result (λ call.
        AreFields count (codes "append") fields.now (seen_call call)) }
    ensures none { IfNone result (AreNoFields count (codes "append") fields.now) }
{
    let Some((node, rest)) = node_then(fields, count) else {
        return None;
    };
    let Some((time, rest)) = number_then(rest, GREATEST_TIME + 1) else {
        return None;
    };
    let Some((sender, rest)) = sender_then(rest) else {
        return None;
    };
    let Some((transactional, values)) = kind_then(rest) else {
        return None;
    };
    let Some(lone) = are_lone(values) else {
        return None;
    };
    Some(Call::Append {
        node,
        transactional,
        lone,
        time,
        sender,
        values,
    })
}

/// The call that the whole of these fields spell where it hands in raw bytes.
#[inline(always)]
pub fn raw_of(fields: &[u8], count: NodeId) -> Option<Call<'_>>
    ensures found { IfSome result (λ call.
        AreFields count (codes "raw") fields.now (seen_call call)) }
    ensures none { IfNone result (AreNoFields count (codes "raw") fields.now) }
{
    match node_then(fields, count) {
        Some((node, digits)) if is_hex(digits) => Some(Call::Raw { node, digits }),
        _ => None,
    }
}

/// How a transaction ends, as the whole of these bytes say it.
fn ending_of(bytes: &[u8]) -> Option<Kind>
    ensures found { IfSome result (λ kind. bytes.now ≡ ending_text (commits kind)) }
    ensures none { IfNone result ((commit : Bool) → bytes.now ≢ ending_text commit) }
{
    match bytes {
        b"commit" => Some(Kind::Commit),
        b"abort" => Some(Kind::Abort),
        _ => None,
    }
}

/// The marker whose fields the whole of these bytes spell.
fn marker_of(bytes: &[u8]) -> Option<HandedMarker>
    ensures found { IfSome result (λ handed. bytes.now ≡ marker_text handed.marker) }
    ensures none { IfNone result ((handed : SpelledMarker) → bytes.now ≢ marker_text handed.marker) }
{
    let Some((timestamp, rest)) = number_then(bytes, GREATEST_TIME + 1) else {
        return None;
    };
    let Some((producer_id, rest)) = number_then(rest, GREATEST_PRODUCER + 1) else {
        return None;
    };
    let Some((producer_epoch, rest)) = number_then(rest, GREATEST_PRODUCER_EPOCH + 1) else {
        return None;
    };
    let Some((coordinator_epoch, rest)) = number_then(rest, GREATEST_COORDINATOR_EPOCH + 1) else {
        return None;
    };
    let Some(kind) = ending_of(rest) else {
        return None;
    };
    let marker = Marker {
        producer_id,
        producer_epoch: producer_epoch as u16,
        coordinator_epoch: coordinator_epoch as u32,
        kind,
        timestamp,
    };
    Some(HandedMarker { marker })
}

/// The call that the whole of these fields spell where it hands in a marker.
#[inline(always)]
pub fn mark_of(fields: &[u8], count: NodeId) -> Option<Call<'_>>
    ensures found { IfSome result (λ call.
        AreFields count (codes "mark") fields.now (seen_call call)) }
    ensures none { IfNone result (AreNoFields count (codes "mark") fields.now) }
{
    let Some((node, rest)) = node_then(fields, count) else {
        return None;
    };
    match marker_of(rest) {
        Some(marker) => Some(Call::Acts {
            node,
            act: PlainAct::Mark { marker },
        }),
        None => None,
    }
}
