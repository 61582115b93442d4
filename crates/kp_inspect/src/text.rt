//! The lines of a dump.

ghost use Rattle.std.specs.Prelude.{◌≡◌, Some, ◌∷◌, ◌<◌, ◌≤◌, ◌^◌, ◌++◌, map, OnOk, IfOk, IfErr, string_bytes};
ghost use Rattle.std.specs.List.{AllByRecursion, flat_map};
ghost use Rattle.kp_types.specs.declared.refusal.Refusal.TheVariants.{Memory};
ghost use Rattle.kp_model.specs.Log.{logged, bytes, end_of, next_offset};
ghost use Rattle.kp_segment.specs.Shown.{kept_shows, offset_pair, time_pair};
ghost use Rattle.kp_inspect.specs.Dump.{epoch_line, batch_line, batch_lines, fault_line, field_text, kind_text, offset_line, time_line};
ghost use Rattle.kp_inspect.specs.Dump.{kept_text, coordinator_text, producer_line, open_line, aborted_line};
ghost use Rattle.kp_txns.specs.Open.{open_left};
ghost use Rattle.kp_inspect.specs.Texts.{shown_lines, contents_text, TellsTables};

use kp_batch::Batch;
use kp_epochs::EpochEntry;
use kp_log::PartitionLog;
use kp_marker::{Kind, Marker, read_marker};
use kp_offset_index::OffsetEntry;
use kp_producers::{KeptBatch, ProducerState, Producers};
use kp_segment::Segment;
use kp_time_index::TimeEntry;
use kp_txns::{AbortedTransaction, OpenTransactions};
use kp_types::{Offset, Refusal};
use std::alloc::AllocError;
use std::fmt;

/// A field of a batch; as text -1 where it is absent.
#[derive(Clone, Copy)]
struct Field {
    number: Option<u64>,
}

impl Field {
    // The producer's epoch.
    fn of_epoch(epoch: Option<u16>) -> Field
        ensures { result ≡ record { number = epoch } }
    {
        Field {
            number: epoch.map(u64::from),
        }
    }

    // The sequence number of the first record.
    fn of_sequence(sequence: Option<u32>) -> Field
        ensures { result ≡ record { number = sequence } }
    {
        Field {
            number: sequence.map(u64::from),
        }
    }
}

impl fmt::Display for Field {
    ghost output = { λ field. Some (field_text field.number) };

    fn fmt<W: fmt::Write>(&self, f: &mut fmt::Formatter<W>) -> fmt::Result {
        match self.number {
            Some(number) => write!(f, "{number}"),
            None => f.write_str("-1"),
        }
    }
}

/// What kind of batch it is: data, data of a transaction, or a marker with its coordinator epoch.
#[derive(Clone, Copy)]
enum Contents {
    Data,
    Transactional,
    Ending(Marker),
}

impl Contents {
    // The kind of this batch.
    fn of(batch: &Batch) -> Contents
        ensures { contents_text result ≡ kind_text batch.now.body.content }
    {
        match read_marker(batch) {
            Some(marker) => Contents::Ending(marker),
            None if batch.is_transactional_data() => Contents::Transactional,
            None => Contents::Data,
        }
    }
}

impl fmt::Display for Contents {
    ghost output = { λ contents. Some (contents_text contents) };

    fn fmt<W: fmt::Write>(&self, f: &mut fmt::Formatter<W>) -> fmt::Result {
        match self {
            Contents::Data => f.write_str("data"),
            Contents::Transactional => f.write_str("txn"),
            Contents::Ending(marker) => match marker.kind {
                Kind::Commit => write!(f, "commit {}", marker.coordinator_epoch),
                Kind::Abort => write!(f, "abort {}", marker.coordinator_epoch),
            },
        }
    }
}

/// Appends the line of a batch that begins at this byte of the log.
fn push_batch(text: &mut String, position: usize, batch: &Batch) -> Result<(), AllocError>
    requires { next_offset (logged batch.now) ≤ 2 ^ 62 }
    ensures { OnOk result (string_bytes text.new
        ≡ string_bytes text.old ++ batch_line position (logged batch.now)) }
{
    let size = batch.size();
    let base = batch.base_offset();
    let last = base + Offset::from(batch.last_offset_delta());
    let epoch = batch.leader_epoch().unwrap_or(0);
    let time = batch.max_timestamp();
    let producer = Field {
        number: batch.producer_id(),
    };
    let producer_epoch = Field::of_epoch(batch.producer_epoch());
    let sequence = Field::of_sequence(batch.base_sequence());
    let contents = Contents::of(batch);
    write!(
        text,
        "batch {position} size {size} base {base} last {last} "
    )?;
    write!(text, "epoch {epoch} time {time} ")?;
    writeln!(
        text,
        "producer {producer} {producer_epoch} {sequence} {contents}"
    )
}

/// Appends the line of each batch, of which the first begins at byte 0 of the log, and answers how many
/// bytes they have.
pub(crate) fn push_batches(text: &mut String, batches: &[Batch]) -> Result<usize, AllocError>
    requires placed { AllByRecursion (λ w. next_offset (logged w) ≤ 2 ^ 62) batches.now }
    requires fits { bytes (map logged batches.now) < 2 ^ 64 }
    ensures told { OnOk result (string_bytes text.new
        ≡ string_bytes text.old ++ batch_lines 0 (map logged batches.now)) }
    ensures size { IfOk result (λ position. position ≡ bytes (map logged batches.now)) }
{
    let mut position = 0;
    let mut rest = batches;
    while let Some((batch, others)) = rest.split_first() {
        push_batch(text, position, batch)?;
        position += batch.size() as usize;
        rest = others;
    }
    Ok(position)
}

/// Appends the entries of an offset index.
fn push_offsets(text: &mut String, entries: &[OffsetEntry]) -> Result<(), AllocError>
    ensures { OnOk result (string_bytes text.new
        ≡ string_bytes text.old ++ flat_map offset_line (map offset_pair entries.now)) }
{
    for entry in entries {
        writeln!(text, "offset {} {}", entry.relative_offset, entry.position)?;
    }
    Ok(())
}

/// Appends the entries of a time index.
fn push_times(text: &mut String, entries: &[TimeEntry]) -> Result<(), AllocError>
    ensures { OnOk result (string_bytes text.new
        ≡ string_bytes text.old ++ flat_map time_line (map time_pair entries.now)) }
{
    for entry in entries {
        writeln!(text, "time {} {}", entry.timestamp, entry.relative_offset)?;
    }
    Ok(())
}

/// Appends the lines of a segment.
fn push_segment(text: &mut String, segment: &Segment) -> Result<(), AllocError>
    ensures { OnOk result (string_bytes text.new
        ≡ string_bytes text.old ++ shown_lines (kept_shows segment.now)) }
{
    writeln!(text, "segment {} {}", segment.name(), segment.size())?;
    push_offsets(text, segment.offset_index().entries())?;
    push_times(text, segment.time_index().entries())
}

/// Appends the lines of the segments.
fn push_segments(text: &mut String, segments: &[Segment]) -> Result<(), AllocError>
    ensures { OnOk result (string_bytes text.new
        ≡ string_bytes text.old ++ flat_map shown_lines (map kept_shows segments.now)) }
{
    for segment in segments {
        push_segment(text, segment)?;
    }
    Ok(())
}

/// Appends the lines of the leader epochs.
fn push_epochs(text: &mut String, entries: &[EpochEntry]) -> Result<(), AllocError>
    ensures { OnOk result (string_bytes text.new
        ≡ string_bytes text.old ++ flat_map epoch_line entries.now) }
{
    for entry in entries {
        writeln!(text, "epoch {} {}", entry.epoch(), entry.start())?;
    }
    Ok(())
}

/// Appends a kept batch of a producer, with a space before it.
fn push_kept(text: &mut String, kept: &KeptBatch) -> Result<(), AllocError>
    ensures { OnOk result (string_bytes text.new
        ≡ string_bytes text.old ++ 32 ∷ kept_text kept.now) }
{
    let first = kept.first_sequence();
    let last = kept.last_sequence();
    let base = kept.base_offset();
    write!(text, " {first}-{last}@{base}")
}

/// Appends the kept batches of a producer, each with a space before it.
fn push_recent(text: &mut String, recent: &[KeptBatch]) -> Result<(), AllocError>
    ensures { OnOk result (string_bytes text.new
        ≡ string_bytes text.old ++ flat_map (λ kept. 32 ∷ kept_text kept) recent.now) }
{
    for kept in recent {
        push_kept(text, kept)?;
    }
    Ok(())
}

/// Appends the coordinator epoch of a producer's last marker, a dash where it has none.
fn push_coordinator(text: &mut String, coordinator: Option<u32>) -> Result<(), AllocError>
    ensures { OnOk result (string_bytes text.new
        ≡ string_bytes text.old ++ coordinator_text coordinator) }
{
    match coordinator {
        Some(epoch) => write!(text, "{epoch}"),
        None => text.push('-'),
    }
}

/// Appends the line of a producer.
fn push_producer(text: &mut String, producer: u64, state: &ProducerState) -> Result<(), AllocError>
    ensures { OnOk result (string_bytes text.new
        ≡ string_bytes text.old ++ producer_line (producer, state.now)) }
{
    write!(text, "producer {producer} {} ", state.epoch())?;
    push_coordinator(text, state.coordinator_epoch())?;
    push_recent(text, state.recent())?;
    text.push('\n')
}

/// Appends the lines of the producers. F33.
fn push_producers(text: &mut String, producers: &Producers) -> Result<(), Refusal>
    ensures told { OnOk result (string_bytes text.new
        ≡ string_bytes text.old ++ flat_map producer_line producers.now) }
    ensures only { IfErr result (λ refusal. refusal ≡ Memory) }
{
    for (producer, state) in producers.all()? {
        push_producer(text, *producer, state)?;
    }
    Ok(())
}

/// Appends the lines of the open transactions.
fn push_open(text: &mut String, transactions: OpenTransactions<'_>) -> Result<(), AllocError>
    ensures { OnOk result (string_bytes text.new
        ≡ string_bytes text.old ++ flat_map open_line (open_left transactions.entry)) }
{
    for transaction in transactions {
        writeln!(text, "open {} {}", transaction.producer, transaction.first)?;
    }
    Ok(())
}

/// Appends the line of an aborted transaction.
fn push_abort(text: &mut String, transaction: &AbortedTransaction) -> Result<(), AllocError>
    ensures { OnOk result (string_bytes text.new
        ≡ string_bytes text.old ++ aborted_line transaction.now) }
{
    let AbortedTransaction {
        producer,
        first,
        marker,
        stable,
    } = *transaction;
    writeln!(text, "aborted {producer} {first} {marker} {stable}")
}

/// Appends the lines of the aborted transactions.
fn push_aborted(text: &mut String, aborted: &[AbortedTransaction]) -> Result<(), AllocError>
    ensures { OnOk result (string_bytes text.new
        ≡ string_bytes text.old ++ flat_map aborted_line aborted.now) }
{
    for transaction in aborted {
        push_abort(text, transaction)?;
    }
    Ok(())
}

/// Appends the tables that the log builds, and its end. F33.
pub(crate) fn push_tables(text: &mut String, log: &PartitionLog) -> Result<(), Refusal>
    ensures told { OnOk result (TellsTables log.now (string_bytes text.old) (string_bytes text.new)) }
    ensures only { IfErr result (λ refusal. refusal ≡ Memory) }
{
    let tables = log.tables().all();
    push_segments(text, tables.segments)?;
    push_epochs(text, tables.epochs.entries())?;
    push_producers(text, tables.producers)?;
    push_open(text, tables.transactions.open())?;
    push_aborted(text, tables.transactions.aborted())?;
    writeln!(text, "end {}", log.end_offset())?;
    Ok(())
}

/// Appends the line of the first fault, in a batch that begins at this byte of the log.
pub(crate) fn push_fault(
    text: &mut String,
    refusal: Refusal,
    position: usize,
) -> Result<(), AllocError>
    ensures { OnOk result (string_bytes text.new
        ≡ string_bytes text.old ++ fault_line refusal position) }
{
    writeln!(text, "fault {refusal} at {position}")
}
