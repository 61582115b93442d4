//! Truncation to a batch boundary (KIP-101): its outcomes, and what it leaves beside a log that only ever had the kept
//! batches.

use crate::epoch_tests::told as epochs_told;
use crate::log_tests::SMALL;
use crate::logs::{log_of, next_batch, told};
use crate::shown::is;
use kp_log::{PartitionLog, Tally, UndoStack};
use kp_types::{Offset, Refusal};
use std::alloc::{AllocError, Global};
use std::marker::Model;

// A log with the undo entries of its batches that aren't settled.
struct Undoable {
    log: PartitionLog,
    entries: UndoStack,
}

impl Model for Undoable {
    ghost use Rattle.std.specs.Prelude.{List};
    ghost use Rattle.kp_log.specs.Partition.{Partition};
    ghost use Rattle.kp_log.specs.Entries.{Entry, AreEntriesOf};

    ghost Value = { Partition × List Entry };

    ghost view = { λ u. (u.log, u.entries) };

    ghost invariant = { λ u. AreEntriesOf u.log u.entries };
}

impl Drop for Undoable {
    fn drop(self) {
        let Undoable { log, entries } = self;
        let end = log.end_offset();
        let _kept = log.close(entries.entries(), end);
    }
}

impl Undoable {
    fn new(alloc: Global) -> Undoable {
        Undoable {
            log: PartitionLog::new(alloc, &SMALL),
            entries: UndoStack::new(alloc),
        }
    }

    fn append(&mut self, alloc: Global, words: &str) -> Result<(), Refusal> {
        for word in words.split_whitespace() {
            let batch = next_batch(alloc, &self.log, word)?;
            self.entries.append(&mut self.log, batch)?;
        }
        Ok(())
    }

    fn truncate(&mut self, to: Offset) -> Result<Tally, Refusal> {
        self.entries.truncate(&mut self.log, to)
    }
}

// How many batches were taken back, and where the log ends then; else why it wasn't truncated.
fn push_outcome(
    text: &mut String,
    log: &PartitionLog,
    outcome: Result<Tally, Refusal>,
) -> Result<(), AllocError> {
    match outcome {
        Ok(tally) => write!(text, "{} undone, end {}\n", tally.batches, log.end_offset()),
        Err(refusal) => write!(text, "{refusal}\n"),
    }
}

fn told_truncation(alloc: Global, log: &mut Undoable, to: Offset) -> Result<String, Refusal> {
    let mut text = String::new(alloc);
    let outcome = log.truncate(to);
    push_outcome(&mut text, &log.log, outcome)?;
    Ok(text)
}

// What comes of truncating the log of these batches, settled up to one offset, to another.
fn outcome(alloc: Global, words: &str, settled: Offset, to: Offset) -> Result<String, Refusal> {
    let mut log = Undoable::new(alloc);
    log.append(alloc, words)?;
    log.entries.settle(&mut log.log, settled);
    told_truncation(alloc, &mut log, to)
}

const FOUR: &str = "p10 p10 p10 p10";

// Batches, up to where they are settled, where they are truncated to, and what comes of it.
static OUTCOMES: [(&str, Offset, Offset, &str); 6] = [
    ("", 0, 0, "0 undone, end 0\n"),
    (FOUR, 1, 0, "F20 BelowSettled\n"),
    (FOUR, 1, 5, "F19 NotBoundary\n"),
    (FOUR, 1, 4, "0 undone, end 4\n"),
    (FOUR, 1, 2, "2 undone, end 2\n"),
    ("d9.0.0.3", 0, 1, "F19 NotBoundary\n"),
];

#[test]
fn a_truncation_is_to_a_boundary_that_is_not_settled(rt: HostRuntime) {
    for (words, settled, to, want) in &OUTCOMES {
        is(&rt, outcome(rt.alloc(), words, *settled, *to), want);
    }
}

// Its epochs, and all that the other tables tell.
fn all_told(alloc: Global, log: &PartitionLog) -> Result<String, Refusal> {
    let mut text = epochs_told(alloc, log.tables().epochs())?;
    write!(text, "\n{}", told(alloc, log)?)?;
    Ok(text)
}

// Appends these batches and then more, and truncates the log to the end of the first ones.
fn append_and_cut(alloc: Global, log: &mut Undoable, kept: &str, cut: &str) -> Result<(), Refusal> {
    log.append(alloc, kept)?;
    let end = log.log.end_offset();
    log.append(alloc, cut)?;
    let _ = log.truncate(end)?;
    Ok(())
}

// What is told of a log that had more batches behind these, and was truncated to their end.
fn truncated(alloc: Global, kept: &str, cut: &str) -> Result<String, Refusal> {
    let mut log = Undoable::new(alloc);
    append_and_cut(alloc, &mut log, kept, cut)?;
    all_told(alloc, &log.log)
}

// What is told of a log that had these alone, which are settled.
fn alone(alloc: Global, kept: &str) -> Result<String, Refusal> {
    let log = log_of(alloc, &SMALL, kept)?;
    all_told(alloc, &log)
}

// Batches that are kept, batches that are cut off, and what is told of the kept ones: over two segments and three leader
// epochs, a producer's new epoch, its sixth and seventh batch, a commit and an abort, a commit behind an abort, and all.
static CUTS: [(&str, &str, &str); 6] = [
    (
        "1:p10.442 4:p30.442 p20.443",
        "6:p40.442 p50.442 p60.442",
        "1@0 4@1 last 4@1\n00000000000000000000.log 1024 at 1 512 1 time 30 1 0\n\
         00000000000000000002.log 513\nstable 3 0=62 1=62 2=62\n",
    ),
    (
        "d9.0.0 d9.0.1 d9.0.2",
        "d9.1.0 2:d9.1.1",
        "0@0 last 0@0\n00000000000000000000.log 207 at 1 69 1 at 2 138 2 time 10 0 0\n\
         producer 9 0 - 0-0@0 1-1@1 2-2@2\nstable 3 0=61 1=61 2=61\n",
    ),
    (
        "d9.0.0 d9.0.1 d9.0.2 d9.0.3 d9.0.4",
        "d9.0.5 d9.0.6",
        "0@0 last 0@0\n00000000000000000000.log 345 at 1 69 1 at 2 138 2 at 3 207 3 at 4 276 4 time 10 0 0\n\
         producer 9 0 - 0-0@0 1-1@1 2-2@2 3-3@3 4-4@4\nstable 5 0=61 1=61 2=61 3=61 4=61\n",
    ),
    (
        "t5.0.0 t7.0.0",
        "c5.0.7 a7.0.7 t5.0.1",
        "0@0 last 0@0\n00000000000000000000.log 138 at 1 69 1 time 10 0 0\n\
         producer 5 0 - 0-0@0\nproducer 7 0 - 0-0@1\nopen 5 0\nopen 7 1\nstable 0\n",
    ),
    (
        "t5.0.0 t7.0.0 a5.0.7",
        "c7.0.7 t5.0.1 3:a5.0.8",
        "0@0 last 0@0\n00000000000000000000.log 216 at 1 69 1 at 2 138 2 time 10 0 0 time 20 2 2\n\
         producer 5 0 7 0-0@0\nproducer 7 0 - 0-0@1\nopen 7 1\naborted 5 0 2 1\nstable 1\n",
    ),
    ("", "2:t5.0.0 p30 a5.0.7", "\nstable 0\n"),
];

#[test]
fn a_truncated_log_is_that_of_its_kept_batches(rt: HostRuntime) {
    for (kept, cut, want) in &CUTS {
        is(&rt, truncated(rt.alloc(), kept, cut), want);
        is(&rt, alone(rt.alloc(), kept), want);
    }
}
