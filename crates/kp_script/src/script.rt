//! The whole script, and its parser.

ghost use Rattle.std.specs.Prelude.{◌≡◌, ℕ, [], ◌∷◌, ◌++◌, List, Ok, true, false, IfOk, IfErr, IfSome, IfNone, OnOk, Err};
ghost use Rattle.kp_script.specs.Call.{Call as SpelledCall, IsCallText, SpellsNoCall};
ghost use Rattle.kp_script.specs.Parsed.{calls_in, seen_script};
ghost use Rattle.kp_script.specs.Script.{IsScript, IsFaultAt, IsScriptRefusal};
ghost use Rattle.kp_script.specs.Seen.{seen_line};
ghost use Rattle.kp_types.specs.declared.refusal.Refusal.TheVariants.{BadScript};

use crate::call::{Call, Header, any_call, header_of};
use crate::fields::append_of;
use crate::lines::{LONGEST_LINE, next_counted};
use crate::section::Section;
use kp_types::{NodeId, Refusal};
use kp_words::after;
use std::alloc::{AllocError, Global};
use std::collections::VecDeque;
use std::mem::replace;

/// How many events a script has at most.
pub const MOST_EVENTS: usize = 1_000_000;

/// An event: a call, and the number of its line.
#[derive(Clone, Copy)]
pub struct Line<'a> {
    /// The number of the line in the script, from 1.
    pub number: u64,
    /// What the line asks.
    pub call: Call<'a>,
}

/// How many events a section of a script has at most.
const SECTION: usize = 4_096;

/// A header, and the events in their order.
pub struct Script {
    /// What the first line that counts says.
    pub header: Header,
    /// The events, section by section, so that a run gives back the memory of those that it has played.
    pub sections: VecDeque<Section>,
}

// By hand, so that a function that drops a script calls this, and isn't proved with what drops each of its parts.
impl Drop for Script {
    fn drop(self) {
        let Script {
            header: _,
            sections: _,
        } = self;
    }
}

/// Puts the event behind those of the last section, which goes to the others where it is full, and a new one begins. It fails where
/// memory runs out.
#[inline(always)]
fn push_line(
    alloc: Global,
    sections: &mut VecDeque<Section>,
    last: &mut Section,
    line: Line<'_>,
) -> Result<(), AllocError>
    ensures { OnOk result (calls_in sections.new.items ++ last.new
        ≡ (calls_in sections.old.items ++ last.old) ++ seen_line line.entry ∷ []) }
{
    if last.len() == SECTION {
        let next = Section::with_capacity(alloc, SECTION)?;
        sections.push_back(replace(last, next))?;
    }
    last.push(line)
}

/// Puts the call that the whole line spells behind those of the last section, as the event of this line, and answers whether it
/// spells one. An append is put there by itself, so that it is built where it is stored. It fails where memory runs out.
#[inline(always)]
fn push_call(
    alloc: Global,
    sections: &mut VecDeque<Section>,
    last: &mut Section,
    number: u64,
    line: &[u8],
    count: NodeId,
) -> Result<bool, AllocError>
    ensures put { result ≡ Ok true → (call : SpelledCall) × IsCallText count line.now call
        × (calls_in sections.new.items ++ last.new
        ≡ (calls_in sections.old.items ++ last.old) ++ (number, call) ∷ []) }
    ensures none { result ≡ Ok false → SpellsNoCall count line.now }
{
    if line.len() > LONGEST_LINE {
        return Ok(false);
    }
    if let Some(fields) = after(b"append ", line) {
        let Some(call) = append_of(fields, count) else {
            return Ok(false);
        };
        push_line(alloc, sections, last, Line { number, call })?;
        return Ok(true);
    }
    let Some(call) = any_call(line, count) else {
        return Ok(false);
    };
    push_line(alloc, sections, last, Line { number, call })?;
    Ok(true)
}

/// The script that these bytes are. A refusal has the number of the first line that can't stand where it
/// stands, or is one of memory. Takes time proportional to the bytes, and memory for the values and digits of the events, with 56
/// bytes for each event: the bytes needn't stay.
pub fn parse(alloc: Global, bytes: &[u8]) -> Result<Script, Refusal>
    ensures found { IfOk result (λ script. IsScript bytes.now (seen_script script)) }
    ensures fault { (line : ℕ) → result ≡ Err (BadScript line) → IsFaultAt bytes.now line }
    ensures only { IfErr result IsScriptRefusal }
{
    let first = match next_counted(bytes, 1) {
        Ok(first) => first,
        Err(after) => return Err(Refusal::BadScript(after)),
    };
    let Some(header) = header_of(first.line) else {
        return Err(Refusal::BadScript(first.number));
    };
    let mut sections = VecDeque::new(alloc);
    let mut last = Section::new(alloc);
    let mut events = 0;
    let mut rest = first.rest;
    let mut number = first.number + 1;
    while let Ok(next) = next_counted(rest, number) {
        if events == MOST_EVENTS {
            return Err(Refusal::BadScript(next.number));
        }
        let is_call = push_call(
            alloc,
            &mut sections,
            &mut last,
            next.number,
            next.line,
            header.count,
        )?;
        if !is_call {
            return Err(Refusal::BadScript(next.number));
        }
        events += 1;
        rest = next.rest;
        number = next.number + 1;
    }
    sections.push_back(last)?;
    Ok(Script { header, sections })
}
