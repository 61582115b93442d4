//! What a leader knows, and what a node's log has, as text.

use crate::node_seated::push_batches;
use crate::replica_played::push_isr;
use kp_batch::Batch;
use kp_node::ProducerInLog;
use kp_replica::Known;
use kp_txns::OpenTransaction;
use kp_types::{Offset, Refusal};
use std::alloc::AllocError;

// What the nodes have reported, by rising number.
fn push_reported(text: &mut String, reported: &[Option<Offset>]) -> Result<(), AllocError> {
    for (node, end) in reported.iter().enumerate() {
        if let Some(end) = end {
            write!(text, ", {node} reported {end}")?;
        }
    }
    Ok(())
}

/// The in-sync replicas that it knows, those that it has proposed, and what was reported to it.
pub(crate) fn tell_known(text: &mut String, known: &Known) -> Result<(), Refusal> {
    push_isr(text, &known.record.isr, known.record.version)?;
    if let Some(proposed) = &known.pending {
        text.push_str(", proposed ")?;
        push_isr(text, proposed, known.record.version)?;
    }
    Ok(push_reported(text, &known.reported)?)
}

fn push_number(text: &mut String, name: &str, number: Option<u64>) -> Result<(), AllocError> {
    match number {
        Some(number) => write!(text, " {name} {number}"),
        None => write!(text, " {name} none"),
    }
}

/// All fields of what its log has of the producer.
pub(crate) fn tell_producer(
    text: &mut String,
    producer: Option<ProducerInLog>,
) -> Result<(), Refusal> {
    let Some(producer) = producer else {
        return Ok(text.push_str("no producer")?);
    };
    write!(text, "epoch {}", producer.epoch)?;
    push_number(text, "last", producer.last_sequence.map(u64::from))?;
    push_number(
        text,
        "coordinator",
        producer.coordinator_epoch.map(u64::from),
    )?;
    Ok(push_number(text, "open", producer.open_from)?)
}

/// The producer of each, and where it begins.
pub(crate) fn tell_open(text: &mut String, open: &[OpenTransaction]) -> Result<(), Refusal> {
    write!(text, "open {}", open.len())?;
    for transaction in open {
        let (producer, first) = (transaction.producer, transaction.first);
        write!(text, ", {producer} from {first}")?;
    }
    Ok(())
}

/// The batches.
pub(crate) fn tell_log(text: &mut String, batches: &[Batch]) -> Result<(), Refusal> {
    Ok(push_batches(text, batches)?)
}
