//! How the texts are written.

ghost use Rattle.std.specs.Prelude.{◌≡◌, [], ◌++◌, map, IfOk, OnOk, OnErr, string_bytes};
ghost use Rattle.std.specs.Fmt.{decimal};
ghost use Rattle.std.specs.Option.{option_map};
ghost use Rattle.kp_model.specs.Set.{leader_of, members_of};
ghost use Rattle.kp_texts.specs.Texts.{listed, or_none, start_text, state_lines, state_text, record_lines, record_text};
ghost use Rattle.kp_texts.specs.Seen.{seen_state, seen_record};
ghost use Rattle.kp_texts.specs.Reading.{leader_front};

use crate::sealing::sealed;
use crate::texts::{EpochStart, RecordText, StateText};
use kp_model::{Leader, NodeSet};
use kp_types::Epoch;
use std::alloc::{AllocError, Global};

/// Appends the epoch.
fn push_kept(text: &mut String, kept: Option<Epoch>) -> Result<(), AllocError>
    ensures { OnOk result (string_bytes text.new ≡ string_bytes text.old ++ or_none kept) }
{
    match kept {
        Some(epoch) => write!(text, "{epoch}"),
        None => text.push_str("none"),
    }
}

/// Appends where the epochs begin.
fn push_starts(text: &mut String, starts: &[EpochStart]) -> Result<(), AllocError>
    ensures { OnOk result
        (string_bytes text.new ≡ string_bytes text.old ++ listed (map start_text starts.now)) }
{
    let Some((first, others)) = starts.split_first() else {
        return text.push_str("none");
    };
    write!(text, "{}:{}", first.epoch, first.start)?;
    for next in others {
        write!(text, ",{}:{}", next.epoch, next.start)?;
    }
    Ok(())
}

/// The lines of a node's state but for the last one.
fn state_lines(alloc: Global, state: &StateText) -> Result<String, AllocError>
    ensures { IfOk result (λ text. string_bytes text ≡ state_lines (seen_state state.now)) }
{
    let mut text = String::new(alloc);
    let StateText {
        checkpoint,
        life,
        kept,
        end,
        ..
    } = *state;
    write!(
        text,
        "kpart node 1\ncheckpoint {checkpoint} life {life} epoch "
    )?;
    push_kept(&mut text, kept)?;
    write!(text, "\nend {end}\nepochs ")?;
    push_starts(&mut text, &state.starts)?;
    text.push('\n')?;
    Ok(text)
}

/// Appends the text of what is kept of a node beside its log. Takes time and memory proportional to it. It fails where memory runs out,
/// and then nothing is appended.
pub fn push_state(out: &mut Vec<u8>, state: &StateText) -> Result<(), AllocError>
    ensures told { OnOk result (out.new.items ≡ out.old.items ++ state_text (seen_state state.now)) }
    ensures err { OnErr result (out.new.items ≡ out.old.items) }
{
    let lines = state_lines(*out.allocator(), state)?;
    let text = sealed(lines)?;
    out.extend_from_slice(&text)
}

/// Appends who leads, in which leader epoch, and the key of the in-sync replicas.
fn push_leader(text: &mut String, leader: Option<Leader>) -> Result<(), AllocError>
    ensures { OnOk result (string_bytes text.new
        ≡ string_bytes text.old ++ leader_front (option_map leader_of leader) []) }
{
    match leader {
        Some(Leader { node, epoch }) => write!(text, "leader {node} epoch {epoch} isr "),
        None => text.push_str("leader none epoch none isr "),
    }
}

/// Appends the nodes of the set.
fn push_members(text: &mut String, set: &NodeSet) -> Result<(), AllocError>
    ensures { OnOk result (string_bytes text.new
        ≡ string_bytes text.old ++ listed (map decimal (members_of set.now))) }
{
    let mut first = true;
    let mut node: u8 = 0;
    let mut places = set.members.as_slice();
    while let Some((member, others)) = places.split_first() {
        if *member {
            if first {
                write!(text, "{node}")?;
            } else {
                write!(text, ",{node}")?;
            }
            first = false;
        }
        node += 1;
        places = others;
    }
    if first { text.push_str("none") } else { Ok(()) }
}

/// The lines of the controller's record but for the last one.
fn record_lines(alloc: Global, kept: &RecordText) -> Result<String, AllocError>
    ensures { IfOk result (λ text. string_bytes text ≡ record_lines (seen_record kept.now)) }
{
    let mut text = String::new(alloc);
    write!(text, "kpart record 1\nnodes {}\n", kept.nodes)?;
    push_leader(&mut text, kept.controller.leader)?;
    push_members(&mut text, &kept.controller.isr)?;
    write!(text, " version {}\n", kept.controller.version)?;
    if let Some(messages) = kept.messages {
        write!(text, "messages {messages}\n")?;
    }
    Ok(text)
}

/// Appends the text of the controller's record. Takes time and memory proportional to it. It fails where memory runs out, and then nothing
/// is appended.
pub fn push_record(out: &mut Vec<u8>, kept: &RecordText) -> Result<(), AllocError>
    ensures told { OnOk result (out.new.items ≡ out.old.items ++ record_text (seen_record kept.now)) }
    ensures err { OnErr result (out.new.items ≡ out.old.items) }
{
    let lines = record_lines(*out.allocator(), kept)?;
    let text = sealed(lines)?;
    out.extend_from_slice(&text)
}
