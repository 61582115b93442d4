//! What an event changed, found by a look at the log of its node.

ghost use Rattle.std.specs.Prelude.{◌≤◌, length};

use crate::rows::{Change, MOST_PIECES, Piece, Seen};
use kp_batch::Batch;
use kp_log::PartitionLog;
use kp_types::Offset;
use std::alloc::{AllocError, Global};

/// The last stable offset at the log's high watermark, up to which it is settled.
fn stable_of(log: &PartitionLog) -> Offset {
    let watermark = log.tables().settled_offset();
    if log.is_boundary(watermark) {
        log.stable_offset(watermark)
    } else {
        watermark
    }
}

/// Puts a batch behind those of a change, or counts it where they are enough.
fn note(pieces: &mut Vec<Piece>, more: &mut u64, piece: Piece) -> Result<(), AllocError> {
    if pieces.len() < MOST_PIECES {
        pieces.push(piece)?;
    } else {
        *more = more.saturating_add(1);
    }
    Ok(())
}

/// How many of the batches begin below the log's end.
fn count_kept(pieces: &[Piece], end: Offset) -> usize
    ensures { result ≤ length pieces.now }
{
    let mut kept = pieces.len();
    while kept > 0 && pieces[kept - 1].base >= end {
        kept -= 1;
    }
    kept
}

/// Lets the batches go that begin at the log's end or behind it, and notes them.
fn look_back(seen: &mut Vec<Piece>, end: Offset, change: &mut Change) -> Result<(), AllocError> {
    let kept = count_kept(seen, end);
    for piece in &seen[kept..] {
        note(&mut change.gone, &mut change.more, *piece)?;
    }
    seen.truncate(kept);
    Ok(())
}

/// Takes up the batches that are behind those that were seen, and notes them.
fn look_on(
    seen: &mut Vec<Piece>,
    batches: &[Batch],
    change: &mut Change,
) -> Result<(), AllocError> {
    let more = batches.get(seen.len()..).unwrap_or(&[]);
    for batch in more {
        let piece = Piece {
            base: batch.base_offset(),
            epoch: batch.leader_epoch().unwrap_or(0),
        };
        seen.push(piece)?;
        note(&mut change.added, &mut change.more, piece)?;
    }
    Ok(())
}

/// Looks at the log, and says what changed since the last look. O(n) in the batches that came or were taken back, and O(log n)
/// in those that stand.
pub(crate) fn look(
    alloc: Global,
    seen: &mut Seen,
    log: &PartitionLog,
) -> Result<Change, AllocError> {
    let mut change = Change::none(alloc);
    look_back(&mut seen.pieces, log.end_offset(), &mut change)?;
    look_on(&mut seen.pieces, log.batches(), &mut change)?;
    let watermark = log.tables().settled_offset();
    let stable = stable_of(log);
    if watermark != seen.watermark {
        change.watermark = Some(watermark);
    }
    if stable != seen.stable && (stable != watermark || seen.stable != seen.watermark) {
        change.stable = Some(stable);
    }
    seen.watermark = watermark;
    seen.stable = stable;
    Ok(change)
}
