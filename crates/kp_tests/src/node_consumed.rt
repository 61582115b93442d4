//! What a node tells a consumer, and of itself, as text.

use crate::node_seated::push_batches;
use crate::replica_played::push_role;
use kp_model::EpochEnd;
use kp_node::{Fetched, NodeState};
use kp_replica::Status;
use kp_segment::OffsetAndTimestamp;
use kp_txns::AbortedTransaction;
use kp_types::{Epoch, Refusal};
use std::alloc::AllocError;

fn push_aborted(text: &mut String, aborted: &[AbortedTransaction]) -> Result<(), AllocError> {
    for entry in aborted {
        let (producer, first) = (entry.producer, entry.first);
        write!(text, ", aborted {producer} from {first}")?;
    }
    Ok(())
}

/// The batches, the aborted transactions of producers from their first offsets on, and the three offsets.
pub(crate) fn tell_fetched(text: &mut String, fetched: &Fetched) -> Result<(), Refusal> {
    push_batches(text, fetched.batches())?;
    push_aborted(text, fetched.aborted())?;
    let (watermark, stable) = (fetched.watermark(), fetched.stable_offset());
    let end = fetched.end_offset();
    Ok(write!(text, ", mark {watermark} stable {stable} end {end}")?)
}

/// The offset and timestamp that were found.
pub(crate) fn tell_found(
    text: &mut String,
    found: Option<OffsetAndTimestamp>,
) -> Result<(), Refusal> {
    match found {
        Some(OffsetAndTimestamp { offset, timestamp }) => {
            Ok(write!(text, "offset {offset} time {timestamp}")?)
        }
        None => Ok(text.push_str("no offset")?),
    }
}

/// The leader epoch and where it ends.
pub(crate) fn tell_end(text: &mut String, end: Option<EpochEnd>) -> Result<(), Refusal> {
    match end {
        Some(EpochEnd { epoch, end }) => Ok(write!(text, "epoch {epoch} ends {end}")?),
        None => Ok(text.push_str("no epoch")?),
    }
}

fn push_status(text: &mut String, status: Status) -> Result<(), AllocError> {
    match status {
        Status::Down => text.push_str("down"),
        Status::Idle => text.push_str("idle"),
        Status::Plays(role) => push_role(text, role),
    }
}

fn push_kept(text: &mut String, epoch: Option<Epoch>) -> Result<(), AllocError> {
    match epoch {
        Some(epoch) => write!(text, " kept {epoch}"),
        None => text.push_str(" kept none"),
    }
}

/// All fields of the state.
pub(crate) fn tell_state(text: &mut String, state: &NodeState) -> Result<(), Refusal> {
    push_status(text, state.status)?;
    push_kept(text, state.kept_epoch)?;
    let (life, checkpoint) = (state.life, state.checkpoint);
    let (end, watermark, stable) = (state.end, state.watermark, state.stable);
    Ok(write!(
        text,
        " life {life} end {end} mark {watermark} stable {stable} checkpoint {checkpoint}"
    )?)
}
