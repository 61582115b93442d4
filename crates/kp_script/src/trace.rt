//! The text of a trace: a line for each event, with the number of the event's line and what was answered.

ghost use Rattle.std.specs.Prelude.{◌≡◌, [], ◌∷◌, ◌++◌, length, map, OnOk};
ghost use Rattle.std.specs.Option.{option_map};
ghost use Rattle.kp_types.specs.Texts.{refusal_text};
ghost use Rattle.kp_model.specs.Calls.{said_reply};
ghost use Rattle.kp_model.specs.Set.{leader_of, members_of, record_of};
ghost use Rattle.kp_replica.specs.Acts.{answer_reply};
ghost use Rattle.kp_replica.specs.Replies.{role_reply, receipt_reply, shown_reply};
ghost use Rattle.kp_visible.specs.Lines.{line_of};
ghost use Rattle.kp_world.specs.Answers.{appended, number_in, outcome_of, told_reply};
ghost use Rattle.kp_script.specs.Call.{node_of};
ghost use Rattle.kp_script.specs.Piped.{fault_line};
ghost use Rattle.kp_script.specs.Seen.{seen_call};
ghost use Rattle.kp_script.specs.Trace.{end_text, epoch_text, isr_text, leader_text, life_text, line_text, lines_text, nodes_text, record_text, reply_text, outcome_text, trace_line, trace_text};

use crate::script::Line;
use crate::text::{push_at, push_byte, push_hex, push_named, push_number, push_spaced};
use kp_model::{EpochEnd, Leader, LeaderAndIsr, NodeSet, Said};
use kp_replica::{Answer, Receipt, Role, Shown};
use kp_types::{Epoch, NodeId, Offset, Refusal};
use kp_visible::{ReadRecord, ReadRecords};
use kp_world::EventAnswer;
use std::alloc::AllocError;

/// Appends a space and a record that was read.
fn push_line(text: &mut Vec<u8>, line: ReadRecord<'_>) -> Result<(), AllocError>
    ensures { OnOk result
        (text.new.items ≡ text.old.items ++ 32 ∷ line_text (line_of line.entry)) }
{
    push_spaced(text, line.offset)?;
    match line.value {
        Some(bytes) => {
            push_byte(text, b'=')?;
            push_hex(text, bytes)
        }
        None => text.extend_from_slice(b"=-"),
    }
}

/// Appends how many records were read, and each of them.
#[inline(never)]
fn push_lines(text: &mut Vec<u8>, lines: &ReadRecords) -> Result<(), AllocError>
    ensures { OnOk result (text.new.items ≡ text.old.items ++ lines_text lines.now) }
{
    push_named(text, b"read ", lines.len() as u64)?;
    for place in 0..lines.len() {
        push_line(text, lines.get(place))?;
    }
    Ok(())
}

/// Appends the nodes of the set, with a comma between each two.
fn push_nodes(text: &mut Vec<u8>, set: &NodeSet) -> Result<(), AllocError>
    ensures { OnOk result
        (text.new.items ≡ text.old.items ++ nodes_text (members_of set.now)) }
{
    let mut first = true;
    for (node, member) in set.members.iter().enumerate() {
        if *member {
            if !first {
                text.push(b',')?;
            }
            push_number(text, node as u64)?;
            first = false;
        }
    }
    Ok(())
}

/// Appends who leads, in which leader epoch.
fn push_leader(text: &mut Vec<u8>, leader: Option<Leader>) -> Result<(), AllocError>
    ensures { OnOk result
        (text.new.items ≡ text.old.items ++ leader_text (option_map leader_of leader)) }
{
    match leader {
        Some(Leader { node, epoch }) => {
            push_named(text, b"leader ", u64::from(node))?;
            push_named(text, b" epoch ", u64::from(epoch))
        }
        None => text.extend_from_slice(b"leader none epoch -1"),
    }
}

/// Appends an in-sync set, and a version of the controller's record.
fn push_isr(text: &mut Vec<u8>, isr: &NodeSet, version: u32) -> Result<(), AllocError>
    ensures { OnOk result
        (text.new.items ≡ text.old.items ++ isr_text (members_of isr.now) version) }
{
    text.extend_from_slice(b"isr ")?;
    push_nodes(text, isr)?;
    push_named(text, b" version ", u64::from(version))
}

/// Appends the controller's record.
#[inline(never)]
fn push_record(text: &mut Vec<u8>, controller: &LeaderAndIsr) -> Result<(), AllocError>
    ensures { OnOk result
        (text.new.items ≡ text.old.items ++ record_text (record_of controller.now)) }
{
    text.extend_from_slice(b"record ")?;
    push_leader(text, controller.leader)?;
    text.push(b' ')?;
    push_isr(text, &controller.isr, controller.version)
}

/// Appends what an adoption of the controller's record answers.
#[inline(never)]
fn push_role(text: &mut Vec<u8>, node: NodeId, role: &Role) -> Result<(), AllocError>
    ensures { OnOk result
        (text.new.items ≡ text.old.items ++ reply_text node None (role_reply (Ok role.now))) }
{
    match *role {
        Role::Leads { epoch, start } => {
            push_named(text, b"leads epoch ", u64::from(epoch))?;
            push_named(text, b" from ", start)
        }
        Role::Follows { leader, epoch } => {
            push_named(text, b"follows ", u64::from(leader))?;
            push_named(text, b" epoch ", u64::from(epoch))
        }
    }
}

/// Appends what an append answers.
fn push_receipt(text: &mut Vec<u8>, node: NodeId, receipt: &Receipt) -> Result<(), AllocError>
    ensures { OnOk result
        (text.new.items ≡ text.old.items ++ reply_text node None (receipt_reply (Ok receipt.now))) }
{
    if receipt.duplicate {
        push_named(text, b"duplicate ", receipt.base)
    } else {
        push_named(text, b"at ", receipt.base)
    }
}

/// Appends a log's last epoch.
fn push_epoch(text: &mut Vec<u8>, epoch: Option<Epoch>) -> Result<(), AllocError>
    ensures { OnOk result (text.new.items ≡ text.old.items ++ epoch_text epoch) }
{
    match epoch {
        Some(epoch) => push_named(text, b"epoch ", u64::from(epoch)),
        None => text.extend_from_slice(b"no epoch"),
    }
}

/// Appends where a leader epoch ends in the leader's log.
fn push_end(text: &mut Vec<u8>, end: Option<EpochEnd>) -> Result<(), AllocError>
    ensures { OnOk result
        (text.new.items ≡ text.old.items ++ end_text (option_map (λ e. (e.epoch, e.end)) end)) }
{
    match end {
        Some(found) => {
            push_named(text, b"epoch ", u64::from(found.epoch))?;
            push_named(text, b" end ", found.end)
        }
        None => text.extend_from_slice(b"no epoch"),
    }
}

/// Appends that the message of this number was sent, and what the message says.
#[inline(never)]
fn push_sent(text: &mut Vec<u8>, node: NodeId, number: u64, said: &Said) -> Result<(), AllocError>
    ensures { OnOk result
        (text.new.items ≡ text.old.items ++ reply_text node (Some number) (said_reply said.now)) }
{
    push_named(text, b"sent ", number)?;
    match said {
        Said::AsksFrom { offset, last_epoch } => {
            push_named(text, b" asks from ", *offset)?;
            text.push(b' ')?;
            push_epoch(text, *last_epoch)
        }
        Said::Batches { count, watermark } => {
            push_named(text, b" batches ", *count)?;
            push_named(text, b" mark ", *watermark)
        }
        Said::Diverging(end) => {
            text.extend_from_slice(b" diverges ")?;
            push_end(text, *end)
        }
        Said::Proposes { isr, version } => {
            text.extend_from_slice(b" proposes ")?;
            push_isr(text, isr, *version)
        }
        Said::Decides(decided) => {
            text.push(b' ')?;
            push_record(text, decided)
        }
    }
}

/// Appends a node's life, its log's end and its high watermark.
#[inline(never)]
fn push_life(
    text: &mut Vec<u8>,
    life: u64,
    end: Offset,
    watermark: Offset,
) -> Result<(), AllocError>
    ensures { OnOk result (text.new.items ≡ text.old.items ++ life_text life end watermark) }
{
    push_named(text, b"life ", life)?;
    push_named(text, b" end ", end)?;
    push_named(text, b" mark ", watermark)
}

/// Appends the state that this node shows.
#[inline(never)]
fn push_shown(text: &mut Vec<u8>, node: NodeId, shown: &Shown) -> Result<(), AllocError>
    ensures { OnOk result
        (text.new.items ≡ text.old.items ++ reply_text node None (shown_reply shown.now)) }
{
    push_named(text, b"node ", u64::from(node))?;
    text.push(b' ')?;
    push_life(text, shown.life, shown.end, shown.watermark)?;
    push_named(text, b" stable ", shown.stable)
}

/// Appends what this node answers.
fn push_answer(text: &mut Vec<u8>, node: NodeId, answer: &Answer) -> Result<(), AllocError>
    ensures { OnOk result
        (text.new.items ≡ text.old.items
        ++ reply_text node None (answer_reply answer.now)) }
{
    match answer {
        Answer::Adopted(role) => push_role(text, node, role),
        Answer::Appended(receipt) => push_receipt(text, node, receipt),
        Answer::Took(taken) => {
            push_named(text, b"end ", taken.end)?;
            push_named(text, b" mark ", taken.watermark)
        }
        Answer::Cut(cut) => push_named(text, b"cut ", cut.end),
        Answer::Learned(learned) => push_isr(text, &learned.isr, learned.version),
        Answer::Watermark(watermark) => push_named(text, b"mark ", *watermark),
        Answer::Checkpoint(watermark) => push_named(text, b"checkpoint ", *watermark),
        Answer::Stopped => text.extend_from_slice(b"stopped"),
        Answer::Restarted {
            life,
            end,
            watermark,
        } => push_life(text, *life, *end, *watermark),
        Answer::Shown(shown) => push_shown(text, node, shown),
        Answer::Lines(lines) => push_lines(text, lines),
    }
}

/// Appends what is told of an event that names this node.
fn push_told(text: &mut Vec<u8>, node: NodeId, told: &EventAnswer) -> Result<(), AllocError>
    ensures { OnOk result
        (text.new.items ≡ text.old.items
        ++ reply_text node (number_in told.now) (told_reply told.now)) }
{
    match told {
        EventAnswer::Changed(controller) => push_record(text, controller),
        EventAnswer::Sent { number, said } => push_sent(text, node, *number, said),
        EventAnswer::Answered(answer) => push_answer(text, node, answer),
    }
}

/// Appends why an event was refused.
fn push_refusal(text: &mut Vec<u8>, refusal: &Refusal) -> Result<(), AllocError>
    ensures { OnOk result (text.new.items ≡ text.old.items ++ refusal_text refusal.now) }
{
    text.extend_from_slice(refusal.head().as_bytes())?;
    match refusal.place() {
        Some(place) => push_named(text, b" ", place),
        None => Ok(()),
    }
}

/// Appends what was answered to an event that names this node, or why the event was refused.
/// Takes time proportional to the text that it appends.
fn push_outcome(
    text: &mut Vec<u8>,
    node: NodeId,
    outcome: &Result<EventAnswer, Refusal>,
) -> Result<(), AllocError>
    ensures ok { OnOk result
        (text.new.items ≡ text.old.items ++ outcome_text node (outcome_of outcome.now)) }
{
    match outcome {
        Ok(told) => push_told(text, node, told),
        Err(refusal) => push_refusal(text, refusal),
    }
}

/// Does what [`push_append`] does, whatever was answered.
#[inline(never)]
fn push_appended(
    text: &mut Vec<u8>,
    number: u64,
    node: NodeId,
    receipt: &Result<Receipt, Refusal>,
) -> Result<(), AllocError>
    ensures { OnOk result (text.new.items ≡ text.old.items
        ++ trace_line number node (outcome_of (appended receipt.now))) }
{
    push_number(text, number)?;
    push_byte(text, b' ')?;
    match receipt {
        Ok(receipt) => push_receipt(text, node, receipt)?,
        Err(refusal) => push_refusal(text, refusal)?,
    }
    push_byte(text, b'\n')
}

/// Appends an append's line, as [`push_event`] does. Most say where the batch stands.
#[inline(always)]
pub(crate) fn push_append(
    text: &mut Vec<u8>,
    number: u64,
    node: NodeId,
    receipt: &Result<Receipt, Refusal>,
) -> Result<(), AllocError>
    ensures { OnOk result (text.new.items ≡ text.old.items
        ++ trace_line number node (outcome_of (appended receipt.now))) }
{
    match receipt {
        Ok(receipt) if !receipt.duplicate => push_at(text, number, receipt.base),
        _ => push_appended(text, number, node, receipt),
    }
}

/// Appends the line of an event that names this node: the number of the script's line, and what was answered. Takes time
/// proportional to the text that it appends, and fails where memory runs out.
pub(crate) fn push_event(
    text: &mut Vec<u8>,
    number: u64,
    node: NodeId,
    outcome: &Result<EventAnswer, Refusal>,
) -> Result<(), AllocError>
    ensures { OnOk result (text.new.items ≡ text.old.items
        ++ trace_line number node (outcome_of outcome.now)) }
{
    push_number(text, number)?;
    push_byte(text, b' ')?;
    push_outcome(text, node, outcome)?;
    push_byte(text, b'\n')
}

/// Appends the answer to a line of a pipe that can't stand where it stands: its number, and F31 with that number. Fails where memory runs
/// out.
pub(crate) fn push_fault(text: &mut Vec<u8>, number: u64) -> Result<(), AllocError>
    ensures { OnOk result (text.new.items ≡ text.old.items ++ fault_line number) }
{
    push_number(text, number)?;
    push_byte(text, b' ')?;
    push_refusal(text, &Refusal::BadScript(number))?;
    push_byte(text, b'\n')
}

/// Appends a line for each event, in their order. An event's outcome stands at the event's place.
/// Takes time proportional to the text that it appends, and fails where memory runs out.
pub fn push_trace(
    text: &mut Vec<u8>,
    lines: &[Line<'_>],
    outcomes: &[Result<EventAnswer, Refusal>],
) -> Result<(), AllocError>
    requires { length outcomes.now ≡ length lines.now }
    ensures { OnOk result (text.new.items ≡ text.old.items ++ trace_text
        (map (λ l. (l.number, node_of (seen_call l.call))) lines.now)
        (map outcome_of outcomes.now)) }
{
    for (line, outcome) in lines.iter().zip(outcomes) {
        push_event(text, line.number, line.call.node(), outcome)?;
    }
    Ok(())
}
