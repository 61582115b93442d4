//! The reader of where a log's epochs begin.

ghost use Rattle.std.specs.Prelude.{◌≡◌, ◌≢◌, ◌&&◌, List, map, IfOk, IfSome, IfNone};
ghost use Rattle.std.specs.List.{AllByRecursion};
ghost use Rattle.kp_words.specs.Words.{pieces};
ghost use Rattle.kp_texts.specs.Texts.{listed, start_text, AreStarts, IsStart, begin_at_0, is_below, rise};
ghost use Rattle.kp_texts.specs.declared.texts.EpochStart.{EpochStart as Start};

use crate::texts::EpochStart;
use kp_types::{Epoch, GREATEST_EPOCH, GREATEST_OFFSET};
use kp_words::{number_before, number_below, split_first_at};
use std::alloc::{AllocError, Global};

/// The epoch and the offset that the whole of these bytes name.
fn start_of(piece: &[u8]) -> Option<EpochStart>
    ensures found { IfSome result (λ s. (piece.now ≡ start_text s) × IsStart s) }
    ensures none { IfNone result ((s : Start) → IsStart s → piece.now ≢ start_text s) }
{
    let Some((epoch, rest)) = number_before(b':', piece, u64::from(GREATEST_EPOCH)) else {
        return None;
    };
    match number_below(rest, GREATEST_OFFSET + 2) {
        Some(start) => Some(EpochStart {
            epoch: epoch as Epoch,
            start,
        }),
        None => None,
    }
}

/// What each piece between the commas names.
fn starts_in(alloc: Global, word: &[u8]) -> Result<Option<Vec<EpochStart>>, AllocError>
    ensures found { IfOk result (λ found. IfSome found
        (λ starts. (pieces word.now ≡ map start_text starts.items) × AllByRecursion IsStart starts.items)) }
    ensures none { IfOk result (λ found. IfNone found
        ((starts : List Start) → AllByRecursion IsStart starts → pieces word.now ≢ map start_text starts)) }
{
    let mut starts = Vec::new(alloc);
    let mut rest = word;
    while let Some((piece, others)) = split_first_at(b',', rest) {
        let Some(start) = start_of(piece) else {
            return Ok(None);
        };
        starts.push(start)?;
        rest = others;
    }
    let Some(start) = start_of(rest) else {
        return Ok(None);
    };
    starts.push(start)?;
    Ok(Some(starts))
}

/// Whether the first one, if there is one, begins at offset 0.
fn begin_at_0(starts: &[EpochStart]) -> bool
    ensures { result ≡ begin_at_0 starts.now }
{
    match starts {
        [] => true,
        [first, ..] => first.start == 0,
    }
}

/// Whether it is below the first of the others, in epoch and offset.
fn is_below(start: &EpochStart, others: &[EpochStart]) -> bool
    ensures { result ≡ is_below start.now others.now }
{
    match others {
        [] => true,
        [next, ..] => start.epoch < next.epoch && start.start < next.start,
    }
}

/// Whether each is below the next one.
fn rise(starts: &[EpochStart]) -> bool
    ensures { result ≡ rise starts.now }
{
    let mut rest = starts;
    while let [first, others @ ..] = rest {
        if !is_below(first, others) {
            return false;
        }
        rest = others;
    }
    true
}

/// Whether the first one begins at offset 0, and each is below the next one.
fn are_in_order(starts: &[EpochStart]) -> bool
    ensures { result ≡ (begin_at_0 starts.now && rise starts.now) }
{
    begin_at_0(starts) && rise(starts)
}

/// The starts that the whole of these bytes name: a comma between each two, or `none`. Fails where memory runs out.
pub(crate) fn starts_of(alloc: Global, word: &[u8]) -> Result<Option<Vec<EpochStart>>, AllocError>
    ensures found { IfOk result (λ found. IfSome found
        (λ starts. (word.now ≡ listed (map start_text starts.items)) × AreStarts starts.items)) }
    ensures none { IfOk result (λ found. IfNone found
        ((starts : List Start) → AreStarts starts → word.now ≢ listed (map start_text starts))) }
{
    if word == b"none".as_slice() {
        return Ok(Some(Vec::new(alloc)));
    }
    let Some(starts) = starts_in(alloc, word)? else {
        return Ok(None);
    };
    if are_in_order(&starts) {
        Ok(Some(starts))
    } else {
        Ok(None)
    }
}
