//! The header and the calls, and the readers of their lines.

ghost use Rattle.std.specs.Prelude.{◌≡◌, ◌≢◌, ℕ, ◌<◌, ◌≤◌, codes, length, IfSome, IfNone};
ghost use Rattle.std.specs.Fmt.{decimal};
ghost use Rattle.kp_script.specs.Call.{IsHeaderText, IsCallText, SpellsNoHeader, SpellsNoCall, HasOneCall, IsNoLongVerb, IsNoNodeVerb, SaysAct};
ghost use Rattle.kp_script.specs.Read.{AreFields, AreNoFields};
ghost use Rattle.kp_script.specs.Seen.{seen_header, seen_call};

use crate::fields::{append_of, mark_of, node_and_offset_of, node_of, raw_of, two_nodes_of};
use crate::lines::LONGEST_LINE;
use kp_replica::{IsrChange, PlainAct};
use kp_types::{
    GREATEST_SEGMENT_BYTES, LEAST_SEGMENT_BYTES, MAX_INDEX_INTERVAL, MOST_NODES, NodeId,
};
use kp_words::{after, field_then, last_field, number_below, split_first_at};

/// The greatest time of a record, 2^62 - 1.
pub const GREATEST_TIME: u64 = 4_611_686_018_427_387_903;
/// The greatest number of nodes.
const NODES: u64 = MOST_NODES as u64;
/// The greatest number of a message, 2^31 - 1.
const GREATEST_MESSAGE: u64 = 2_147_483_647;

/// How many nodes there are, and the limits of their segments and indexes.
#[derive(Clone, Copy, PartialEq, Eq)]
pub struct Header {
    /// How many nodes there are, 1 to 7.
    pub count: u8,
    /// The most bytes of a segment that has more than one batch.
    pub segment: u32,
    /// How many bytes lie between two entries of an index.
    pub interval: u32,
}

/// What an append says of its producer (KIP-98). Each field may be absent without the others: then it is -1, the greatest number
/// of its type, as in a batch.
#[derive(Clone, Copy)]
pub struct Sender {
    epoch: u16,
    sequence: u32,
    producer: u64,
}

impl Sender {
    ghost use Rattle.std.specs.Prelude.{◌≡◌, ◌<◌, ◌^◌, IfSome};
    ghost use Rattle.kp_script.specs.Seen.{seen_sender};

    /// These fields.
    pub(crate) fn new(producer: Option<u64>, epoch: Option<u64>, sequence: Option<u64>) -> Sender
        requires producer { IfSome producer (λ producer. producer < 2 ^ 63) }
        requires epoch { IfSome epoch (λ epoch. epoch < 2 ^ 15) }
        requires sequence { IfSome sequence (λ sequence. sequence < 2 ^ 31) }
        ensures { seen_sender result
            ≡ record { producer = producer; epoch = epoch; sequence = sequence } }
    {
        Sender {
            epoch: epoch.unwrap_or(65_535) as u16,
            sequence: sequence.unwrap_or(4_294_967_295) as u32,
            producer: producer.unwrap_or(u64::MAX),
        }
    }

    /// The producer, below 2^63.
    pub fn producer(&self) -> Option<u64>
        ensures { result ≡ (seen_sender self.now).producer }
    {
        if self.producer == u64::MAX {
            None
        } else {
            Some(self.producer)
        }
    }

    /// The producer's epoch, below 2^15.
    pub fn epoch(&self) -> Option<u16>
        ensures { result ≡ (seen_sender self.now).epoch }
    {
        if self.epoch == u16::MAX {
            None
        } else {
            Some(self.epoch)
        }
    }

    /// The producer's sequence number of the first record, below 2^31.
    pub fn sequence(&self) -> Option<u32>
        ensures { result ≡ (seen_sender self.now).sequence }
    {
        if self.sequence == u32::MAX {
            None
        } else {
            Some(self.sequence)
        }
    }
}

/// What an event's line asks for.
#[derive(Clone, Copy)]
pub enum Call<'a> {
    /// The controller elects the node leader, of a new leader epoch.
    Elect {
        node: NodeId,
    },
    /// A client hands the node a batch with a record for each of these values, which stand with a comma between
    /// each two. Each record has this time in milliseconds.
    Append {
        node: NodeId,
        /// Whether the batch is of a transaction.
        transactional: bool,
        /// Whether the values are one, in which no comma stands.
        lone: bool,
        time: u64,
        /// What the batch says of its producer, whether or not that agrees with the kind.
        sender: Sender,
        values: &'a [u8],
    },
    /// A client hands the node the bytes that these hexadecimal digits spell.
    Raw {
        node: NodeId,
        digits: &'a [u8],
    },
    /// The node does this.
    Acts {
        node: NodeId,
        act: PlainAct,
    },
    /// The message of this number, below 2^31, comes to the node to which it goes, or to the controller. Messages have the
    /// numbers from 0 on.
    Deliver {
        number: u64,
    },
}

impl Call<'_> {
    ghost use Rattle.std.specs.Prelude.{◌≡◌};
    ghost use Rattle.kp_script.specs.Call.{node_of};
    ghost use Rattle.kp_script.specs.Seen.{seen_call};

    /// The node that the call names. A delivery names none, and none of its answers tells a node: 0 stands there.
    pub fn node(&self) -> NodeId
        ensures { result ≡ node_of (seen_call self.now) }
    {
        match self {
            Call::Elect { node }
            | Call::Append { node, .. }
            | Call::Raw { node, .. }
            | Call::Acts { node, .. } => *node,
            Call::Deliver { .. } => 0,
        }
    }
}

/// The header that the whole line spells.
pub fn header_of(line: &[u8]) -> Option<Header>
    ensures found { IfSome result (λ header. IsHeaderText line.now (seen_header header)) }
    ensures none { IfNone result (SpellsNoHeader line.now) }
{
    let Some((count, rest)) = field_then(b"nodes ", line, NODES + 1) else {
        return None;
    };
    if count == 0 {
        return None;
    }
    let Some((segment, rest)) = field_then(b"segment ", rest, u64::from(GREATEST_SEGMENT_BYTES) + 1)
    else {
        return None;
    };
    if segment < u64::from(LEAST_SEGMENT_BYTES) {
        return None;
    }
    let Some(interval) = last_field(b"interval ", rest, u64::from(MAX_INDEX_INTERVAL) + 1) else {
        return None;
    };
    Some(Header {
        count: count as u8,
        segment: segment as u32,
        interval: interval as u32,
    })
}

/// What the node does whom a line of this verb names, where the line names nothing else. O(1).
fn act_named(verb: &[u8]) -> Option<PlainAct>
    ensures found { IfSome result (SaysAct verb.now) }
    ensures none { IfNone result ((act : PlainAct) → ¬ SaysAct verb.now act) }
{
    match verb {
        b"ask" => Some(PlainAct::Ask),
        b"show" => Some(PlainAct::Show),
        b"adopt" => Some(PlainAct::Adopt),
        b"raise" => Some(PlainAct::Raise),
        b"checkpoint" => Some(PlainAct::Checkpoint),
        b"stop" => Some(PlainAct::Stop),
        b"restart" => Some(PlainAct::Restart),
        _ => None,
    }
}

/// The call of this verb that names a node and nothing else.
fn node_call<'a>(verb: &[u8], node: NodeId) -> Option<Call<'a>>
    ensures found { IfSome result (λ call. (count : ℕ) → node < count
        → AreFields count verb.now (decimal node) (seen_call call)) }
    ensures none { IfNone result (IsNoNodeVerb verb.now) }
{
    match verb {
        b"elect" => Some(Call::Elect { node }),
        _ => act_named(verb).map(|act| Call::Acts { node, act }),
    }
}

/// The call of this verb whose fields are a node alone, the whole of these.
#[inline(always)]
fn named_call<'a>(verb: &[u8], fields: &'a [u8], count: NodeId) -> Option<Call<'a>>
    ensures found { IfSome result (λ call. AreFields count verb.now fields.now (seen_call call)) }
    ensures none { IfNone result (IsNoLongVerb verb.now → AreNoFields count verb.now fields.now) }
{
    match node_of(fields, count) {
        Some(node) => node_call(verb, node),
        None => None,
    }
}

/// The delivery of the message whose number is the whole of these fields.
#[inline(always)]
fn delivery_of(fields: &[u8], count: NodeId) -> Option<Call<'_>>
    ensures found { IfSome result (λ call.
        AreFields count (codes "deliver") fields.now (seen_call call)) }
    ensures none { IfNone result (AreNoFields count (codes "deliver") fields.now) }
{
    let _ = count; // a message is any node's
    match number_below(fields, GREATEST_MESSAGE + 1) {
        Some(number) => Some(Call::Deliver { number }),
        None => None,
    }
}

/// The call of this verb whose fields are numbers, the whole of these.
#[inline(always)]
fn numbers_call<'a>(verb: &[u8], fields: &'a [u8], count: NodeId) -> Option<Call<'a>>
    ensures found { IfSome result (λ call. AreFields count verb.now fields.now (seen_call call)) }
    ensures none { IfNone result (verb.now ≢ codes "append" → verb.now ≢ codes "raw" → verb.now ≢ codes "mark"
        → AreNoFields count verb.now fields.now) }
{
    match verb {
        b"join" => two_nodes_of(fields, count).map(|(node, member)| {
            let change = IsrChange::Join(member);
            Call::Acts {
                node,
                act: PlainAct::Alter { change },
            }
        }),
        b"leave" => two_nodes_of(fields, count).map(|(node, member)| {
            let change = IsrChange::Leave(member);
            Call::Acts {
                node,
                act: PlainAct::Alter { change },
            }
        }),
        b"read" => node_and_offset_of(fields, count).map(|(node, from)| Call::Acts {
            node,
            act: PlainAct::Read { from },
        }),
        b"committed" => node_and_offset_of(fields, count).map(|(node, from)| Call::Acts {
            node,
            act: PlainAct::Committed { from },
        }),
        b"deliver" => delivery_of(fields, count),
        _ => named_call(verb, fields, count),
    }
}

/// The call that this verb and the whole of these fields spell, where there are so many nodes.
#[inline(always)]
fn call_with<'a>(verb: &[u8], fields: &'a [u8], count: NodeId) -> Option<Call<'a>>
    ensures found { IfSome result (λ call. AreFields count verb.now fields.now (seen_call call)) }
    ensures none { IfNone result (AreNoFields count verb.now fields.now) }
{
    match verb {
        b"append" => append_of(fields, count),
        b"raw" => raw_of(fields, count),
        b"mark" => mark_of(fields, count),
        _ => numbers_call(verb, fields, count),
    }
}

/// The call that the whole line spells, where there are so many nodes: whichever it is.
#[inline(never)]
pub(crate) fn any_call(line: &[u8], count: NodeId) -> Option<Call<'_>>
    requires { length line.now ≤ 2100000 }
    ensures found { IfSome result (λ call. IsCallText count line.now (seen_call call)) }
    ensures none { IfNone result (SpellsNoCall count line.now) }
{
    if let Some(fields) = after(b"deliver ", line) {
        return delivery_of(fields, count);
    }
    match split_first_at(b' ', line) {
        Some((verb, fields)) => call_with(verb, fields, count),
        None => None,
    }
}

/// The call that the whole line spells, where there are so many nodes. Takes time proportional to the line, and no
/// memory. Most lines of a script are appends, so those are told first.
pub fn call_of(line: &[u8], count: NodeId) -> Option<Call<'_>>
    ensures found { IfSome result (λ call. IsCallText count line.now (seen_call call)) }
    ensures none { IfNone result (SpellsNoCall count line.now) }
{
    if line.len() > LONGEST_LINE {
        return None;
    }
    match after(b"append ", line) {
        Some(fields) => append_of(fields, count),
        None => any_call(line, count),
    }
}

/// That a line says one call at most: two calls in range with one text are one call. It does nothing when it runs.
pub fn lines_say_one_call()
    ensures { HasOneCall }
{}
