//! The leader epoch cache by itself, at a leader with the epochs 1 at 0, 2 at 3 and 4 at 5, whose log ends at 7
//! (KIP-101, KIP-279).

use crate::shown::is;
use kp_epochs::Epochs;
use kp_model::EpochEnd;
use kp_types::{Epoch, Offset, Refusal};
use std::alloc::{AllocError, Global};

// Its batches, by their epochs and base offsets.
const BATCHES: [(Epoch, Offset); 5] = [(1, 0), (1, 2), (2, 3), (4, 5), (4, 6)];

fn leader(alloc: Global) -> Result<Epochs, Refusal> {
    let mut epochs = Epochs::new(alloc);
    for (epoch, offset) in BATCHES {
        epochs.note(epoch, offset)?.spend();
    }
    Ok(epochs)
}

fn push_end(text: &mut String, epoch: Epoch, found: Option<EpochEnd>) -> Result<(), AllocError> {
    match found {
        Some(found) => write!(text, "{epoch}: {} {}, ", found.epoch, found.end),
        None => write!(text, "{epoch}: none, "),
    }
}

// What it answers for each of these epochs.
fn ends(alloc: Global, asked: &[Epoch]) -> Result<String, Refusal> {
    let epochs = leader(alloc)?;
    let mut text = String::new(alloc);
    for epoch in asked {
        push_end(&mut text, *epoch, epochs.end_for(*epoch, 7))?;
    }
    Ok(text)
}

#[test]
fn an_epoch_is_answered_by_the_one_not_above_it(rt: HostRuntime) {
    let want = "0: none, 1: 1 3, 2: 2 5, 3: 2 5, 4: 4 7, 9: 4 7, ";
    is(&rt, ends(rt.alloc(), &[0, 1, 2, 3, 4, 9]), want);
}

/// All its epochs, and the last one.
pub(crate) fn told(alloc: Global, epochs: &Epochs) -> Result<String, Refusal> {
    let mut text = String::new(alloc);
    for entry in epochs.entries() {
        write!(text, "{}@{} ", entry.epoch(), entry.start())?;
    }
    if let Some(last) = epochs.last() {
        write!(text, "last {}@{}", last.epoch(), last.start())?;
    }
    Ok(text)
}

// With a batch more, and without it again.
fn there_and_back(alloc: Global, epoch: Epoch, offset: Offset) -> Result<String, Refusal> {
    let mut epochs = leader(alloc)?;
    let undo = epochs.note(epoch, offset)?;
    let there = told(alloc, &epochs);
    epochs.undo(undo);
    let mut text = there?;
    write!(text, " undone {}", told(alloc, &epochs)?)?;
    Ok(text)
}

#[test]
fn an_undone_batch_takes_its_own_epoch_along(rt: HostRuntime) {
    for (epoch, want) in [
        (4, "1@0 2@3 4@5 last 4@5 undone 1@0 2@3 4@5 last 4@5"),
        (9, "1@0 2@3 4@5 9@7 last 9@7 undone 1@0 2@3 4@5 last 4@5"),
    ] {
        is(&rt, there_and_back(rt.alloc(), epoch, 7), want);
    }
}
