//! The reader of what is kept of a node beside its log.

ghost use Rattle.std.specs.Prelude.{◌≡◌, ◌≢◌, ℕ, ◌≤◌, List, Option, IfOk, IfSome, IfNone};
ghost use Rattle.kp_model.specs.Controller.{greatest_epoch};
ghost use Rattle.kp_texts.specs.Texts.{StateText as SpelledState, IsStateInRange, state_lines, state_text};
ghost use Rattle.kp_texts.specs.Seen.{seen_state};
ghost use Rattle.kp_texts.specs.Reading.{kept_front, state_front, AreNumbers};
ghost use Rattle.kp_texts.specs.declared.states.Numbers.{Numbers as SpelledNumbers};

use crate::sealing::unsealed;
use crate::starts::starts_of;
use crate::texts::StateText;
use kp_types::{Epoch, GREATEST_EPOCH, GREATEST_OFFSET, Offset};
use kp_words::{after, before, number_between};
use std::alloc::{AllocError, Global};

/// The numbers of a state's text.
#[derive(Clone, Copy)]
struct Numbers {
    checkpoint: Offset,
    life: u64,
    kept: Option<Epoch>,
    end: Offset,
}

/// The kept epoch at the end of a line, and what follows.
fn kept_then(bytes: &[u8]) -> Option<(Option<Epoch>, &[u8])>
    ensures found { IfSome result (λ found. (bytes.now ≡ kept_front found.0 found.1.now)
        × IfSome found.0 (λ epoch. epoch ≤ greatest_epoch)) }
    ensures none { IfNone result ((kept : Option ℕ) (rest : List ℕ)
        → IfSome kept (λ epoch. epoch ≤ greatest_epoch) → bytes.now ≢ kept_front kept rest) }
{
    if let Some(rest) = after(b"epoch none\n", bytes) {
        return Some((None, rest));
    }
    match number_between(b"epoch ", b'\n', bytes, u64::from(GREATEST_EPOCH)) {
        Some((epoch, rest)) => Some((Some(epoch as Epoch), rest)),
        None => None,
    }
}

/// The numbers in front of a state's lines, and what follows the key of the epochs.
fn numbers_of(lines: &[u8]) -> Option<(Numbers, &[u8])>
    ensures found { IfSome result (λ found. (lines.now ≡ state_front found.0 found.1.now)
        × AreNumbers found.0) }
    ensures none { IfNone result ((numbers : SpelledNumbers) (rest : List ℕ)
        → AreNumbers numbers → lines.now ≢ state_front numbers rest) }
{
    let front = b"kpart node 1\ncheckpoint ";
    let Some((checkpoint, rest)) = number_between(front, b' ', lines, GREATEST_OFFSET + 1) else {
        return None;
    };
    let Some((life, rest)) = number_between(b"life ", b' ', rest, u64::MAX) else {
        return None;
    };
    let Some((kept, rest)) = kept_then(rest) else {
        return None;
    };
    let Some((end, rest)) = number_between(b"end ", b'\n', rest, GREATEST_OFFSET + 1) else {
        return None;
    };
    let Some(rest) = after(b"epochs ", rest) else {
        return None;
    };
    let numbers = Numbers {
        checkpoint,
        life,
        kept,
        end,
    };
    Some((numbers, rest))
}

/// The state whose lines these are, but for the last one.
fn state_in(alloc: Global, lines: &[u8]) -> Result<Option<StateText>, AllocError>
    ensures found { IfOk result (λ found. IfSome found
        (λ state. (lines.now ≡ state_lines (seen_state state)) × IsStateInRange (seen_state state))) }
    ensures none { IfOk result (λ found. IfNone found
        ((state : SpelledState) → IsStateInRange state → lines.now ≢ state_lines state)) }
{
    let Some((numbers, rest)) = numbers_of(lines) else {
        return Ok(None);
    };
    let Some(word) = before(b"\n", rest) else {
        return Ok(None);
    };
    let Numbers {
        checkpoint,
        life,
        kept,
        end,
    } = numbers;
    match starts_of(alloc, word)? {
        Some(starts) => Ok(Some(StateText {
            checkpoint,
            life,
            kept,
            end,
            starts,
        })),
        None => Ok(None),
    }
}

/// The state whose text the whole of these bytes are, if they are one's. Takes time proportional to them, and memory for the starts.
/// Fails where memory runs out.
pub fn state_of(alloc: Global, bytes: &[u8]) -> Result<Option<StateText>, AllocError>
    ensures found { IfOk result (λ found. IfSome found
        (λ state. (bytes.now ≡ state_text (seen_state state)) × IsStateInRange (seen_state state))) }
    ensures none { IfOk result (λ found. IfNone found
        ((state : SpelledState) → IsStateInRange state → bytes.now ≢ state_text state)) }
{
    match unsealed(bytes) {
        Some(lines) => state_in(alloc, lines),
        None => Ok(None),
    }
}
