//! The reader of the controller's record.

ghost use Rattle.std.specs.Prelude.{◌≡◌, ◌≢◌, ℕ, ◌<◌, ◌≤◌, ◌^◌, List, Option, IfSome, IfNone};
ghost use Rattle.std.specs.Option.{option_map};
ghost use Rattle.kp_model.specs.Controller.{greatest_version};
ghost use Rattle.kp_model.specs.Set.{leader_of, members_of, record_of};
ghost use Rattle.kp_model.specs.Step.{IsInRange, Rise};
ghost use Rattle.kp_model.specs.World.{Leader as SpelledLeader, LeaderAndIsr as SpelledController, most_nodes};
ghost use Rattle.kp_texts.specs.Texts.{RecordText as SpelledRecord, IsRecordInRange, messages_line, record_lines, record_text};
ghost use Rattle.kp_texts.specs.Seen.{seen_record};
ghost use Rattle.kp_texts.specs.Reading.{IsLeader, controller_front, isr_front, leader_front, nodes_front};

use crate::members::members_named;
use crate::sealing::unsealed;
use crate::texts::RecordText;
use kp_model::{Leader, LeaderAndIsr, NodeSet};
use kp_types::{Epoch, GREATEST_EPOCH, GREATEST_INT32, GREATEST_VERSION, MOST_NODES, NodeId};
use kp_words::{after, number_between, split_first_at};

/// How many nodes there are, and what follows.
fn nodes_then(lines: &[u8]) -> Option<(NodeId, &[u8])>
    ensures found { IfSome result (λ found. (lines.now ≡ nodes_front found.0 found.1.now)
        × (1 ≤ found.0) × (found.0 ≤ most_nodes)) }
    ensures none { IfNone result ((nodes : ℕ) (rest : List ℕ) → 1 ≤ nodes → nodes ≤ most_nodes
        → lines.now ≢ nodes_front nodes rest) }
{
    let front = b"kpart record 1\nnodes ";
    let Some((nodes, rest)) = number_between(front, b'\n', lines, u64::from(MOST_NODES)) else {
        return None;
    };
    if nodes == 0 {
        return None;
    }
    Some((nodes as NodeId, rest))
}

/// Who leads, where there are so many nodes, and what follows the key of the in-sync replicas.
fn leader_then(bytes: &[u8], nodes: NodeId) -> Option<(Option<Leader>, &[u8])>
    requires { 1 ≤ nodes }
    ensures found { IfSome result
        (λ found. (bytes.now ≡ leader_front (option_map leader_of found.0) found.1.now)
        × IsLeader nodes (option_map leader_of found.0)) }
    ensures none { IfNone result ((leader : Option SpelledLeader) (rest : List ℕ)
        → IsLeader nodes leader → bytes.now ≢ leader_front leader rest) }
{
    if let Some(rest) = after(b"leader none epoch none isr ", bytes) {
        return Some((None, rest));
    }
    let greatest = u64::from(nodes) - 1;
    let Some((node, rest)) = number_between(b"leader ", b' ', bytes, greatest) else {
        return None;
    };
    let Some((epoch, rest)) = number_between(b"epoch ", b' ', rest, u64::from(GREATEST_EPOCH))
    else {
        return None;
    };
    let leader = Leader {
        node: node as NodeId,
        epoch: epoch as Epoch,
    };
    match after(b"isr ", rest) {
        Some(rest) => Some((Some(leader), rest)),
        None => None,
    }
}

/// The in-sync replicas and the version, and what follows.
fn isr_then(bytes: &[u8], nodes: NodeId) -> Option<(NodeSet, u32, &[u8])>
    requires { nodes ≤ most_nodes }
    ensures found { IfSome result
        (λ found. (bytes.now ≡ isr_front (members_of found.0) found.1 found.2.now)
        × Rise 0 nodes (members_of found.0) × (found.1 ≤ greatest_version)) }
    ensures none { IfNone result ((isr : List ℕ) (version : ℕ) (rest : List ℕ) → Rise 0 nodes isr
        → version ≤ greatest_version → bytes.now ≢ isr_front isr version rest) }
{
    let Some((word, rest)) = split_first_at(b' ', bytes) else {
        return None;
    };
    let Some(isr) = members_named(word, nodes) else {
        return None;
    };
    match number_between(b"version ", b'\n', rest, u64::from(GREATEST_VERSION)) {
        Some((version, rest)) => Some((isr, version as u32, rest)),
        None => None,
    }
}

/// The controller's record where there are so many nodes, and what follows.
fn controller_then(bytes: &[u8], nodes: NodeId) -> Option<(LeaderAndIsr, &[u8])>
    requires least { 1 ≤ nodes }
    requires most { nodes ≤ most_nodes }
    ensures found { IfSome result
        (λ found. (bytes.now ≡ controller_front (record_of found.0) found.1.now)
        × IsInRange nodes (record_of found.0)) }
    ensures none { IfNone result ((controller : SpelledController) (rest : List ℕ)
        → IsInRange nodes controller → bytes.now ≢ controller_front controller rest) }
{
    let Some((leader, rest)) = leader_then(bytes, nodes) else {
        return None;
    };
    let Some((isr, version, rest)) = isr_then(rest, nodes) else {
        return None;
    };
    let controller = LeaderAndIsr {
        leader,
        isr,
        version,
    };
    Some((controller, rest))
}

/// How many messages had been sent, where the whole of these bytes say it, or nothing.
fn messages_of(rest: &[u8]) -> Option<Option<u64>>
    ensures found { IfSome result (λ messages. (rest.now ≡ messages_line messages)
        × IfSome messages (λ number. number < 2 ^ 31)) }
    ensures none { IfNone result ((messages : Option ℕ)
        → IfSome messages (λ number. number < 2 ^ 31) → rest.now ≢ messages_line messages) }
{
    if rest.is_empty() {
        return Some(None);
    }
    match number_between(b"messages ", b'\n', rest, u64::from(GREATEST_INT32)) {
        Some((number, others)) if others.is_empty() => Some(Some(number)),
        _ => None,
    }
}

/// The record whose lines these are, but for the last one.
fn record_in(lines: &[u8]) -> Option<RecordText>
    ensures found { IfSome result (λ kept. (lines.now ≡ record_lines (seen_record kept))
        × IsRecordInRange (seen_record kept)) }
    ensures none { IfNone result ((kept : SpelledRecord) → IsRecordInRange kept
        → lines.now ≢ record_lines kept) }
{
    let Some((nodes, rest)) = nodes_then(lines) else {
        return None;
    };
    let Some((controller, rest)) = controller_then(rest, nodes) else {
        return None;
    };
    match messages_of(rest) {
        Some(messages) => Some(RecordText {
            nodes,
            controller,
            messages,
        }),
        None => None,
    }
}

/// The record whose text the whole of these bytes are, if they are one's. Takes time proportional to them, and no memory.
pub fn record_of(bytes: &[u8]) -> Option<RecordText>
    ensures found { IfSome result (λ kept. (bytes.now ≡ record_text (seen_record kept))
        × IsRecordInRange (seen_record kept)) }
    ensures none { IfNone result ((kept : SpelledRecord) → IsRecordInRange kept
        → bytes.now ≢ record_text kept) }
{
    match unsealed(bytes) {
        Some(lines) => record_in(lines),
        None => None,
    }
}
