//! Producers, their transactions, and what a leader does with what they send (KIP-98).
//! A batch of one record has 69 bytes, of three 85, and a marker 78.

use crate::logs::{LIMITS, batch_of, log_of, push_answer, there_and_back, told_of};
use crate::shown::is;
use kp_admit::admit;
use kp_log::PartitionLog;
use kp_producers::Producers;
use kp_txns::Txns;
use kp_types::Refusal;
use std::alloc::Global;

// A transaction at 0, and three batches behind it.
const ONE_OPEN: &str = "t5.0.0 p10 p10 p10";

// The batches of a log, the last one of it, what a leader is asked then, and what is told with that batch and once it was undone:
// a sixth batch evicts the first; a new epoch keeps its own batches; producers stand by rising number; a marker keeps the
// batches of its epoch; an open transaction takes its own data; an abort and a commit that are undone open theirs again; two
// producers take turns; what one commits lies between what others abort.
static UNDONE: [(&str, &str, &str, &str); 9] = [
    (
        "d9.0.0 d9.0.1 d9.0.2 d9.0.3 d9.0.4",
        "d9.0.5",
        "d9.0.0 d9.0.5",
        "00000000000000000000.log 414\nproducer 9 0 - 1-1@1 2-2@2 3-3@3 4-4@4 5-5@5\n\
         stable 6 0=61 1=61 2=61 3=61 4=61 5=61\nF12 OutOfOrderSequence duplicate 5 \
         undone\n00000000000000000000.log 345\nproducer 9 0 - 0-0@0 1-1@1 2-2@2 3-3@3 4-4@4\n\
         stable 5 0=61 1=61 2=61 3=61 4=61\nduplicate 0 append ",
    ),
    (
        "d9.0.0 d9.0.1 d9.0.2",
        "d9.1.0",
        "d9.0.3 d9.1.0",
        "00000000000000000000.log 276\nproducer 9 1 - 0-0@3\n\
         stable 4 0=61 1=61 2=61 3=61\nF11 InvalidProducerEpoch duplicate 3 \
         undone\n00000000000000000000.log 207\nproducer 9 0 - 0-0@0 1-1@1 2-2@2\n\
         stable 3 0=61 1=61 2=61\nappend append ",
    ),
    (
        "c5.0.7 d200.0.0 d9.0.0",
        "d5.1.0",
        "",
        "00000000000000000000.log 285\nproducer 5 1 7 0-0@3\nproducer 9 0 - 0-0@2\n\
         producer 200 0 - 0-0@1\nstable 4 1=61 2=61 3=61\n\
         undone\n00000000000000000000.log 216\nproducer 5 0 7\nproducer 9 0 - 0-0@2\n\
         producer 200 0 - 0-0@1\nstable 3 1=61 2=61\n",
    ),
    (
        "d5.0.0 d5.0.1 c5.0.7",
        "a5.1.8",
        "d5.1.1 d5.1.0",
        "00000000000000000000.log 294\nproducer 5 1 8\nstable 4 0=61 1=61\n\
         F12 OutOfOrderSequence append \
         undone\n00000000000000000000.log 216\nproducer 5 0 7 0-0@0 1-1@1\nstable 3 0=61 1=61\n\
         F12 OutOfOrderSequence append ",
    ),
    (
        "t9.1.0",
        "c9.1.7",
        "t9.0.1 t9.1.0 t9.1.1 t9.2.0 d9.1.1 d9.2.1 d10.0.0 d10.0.1 p10",
        "00000000000000000000.log 147\nproducer 9 1 7 0-0@0\nstable 2 0=61\n\
         F11 InvalidProducerEpoch duplicate 0 append append append F12 OutOfOrderSequence \
         append F12 OutOfOrderSequence append \
         undone\n00000000000000000000.log 69\nproducer 9 1 - 0-0@0\nopen 9 0\nstable 0\n\
         F11 InvalidProducerEpoch duplicate 0 append F13 InvalidTxnState F13 InvalidTxnState \
         F13 InvalidTxnState append F12 OutOfOrderSequence append ",
    ),
    (
        ONE_OPEN,
        "a5.0.7",
        "",
        "00000000000000000000.log 354\nproducer 5 0 7 0-0@0\naborted 5 0 4 5\nstable 5 1=62 2=62 3=62\n\
         undone\n00000000000000000000.log 276\nproducer 5 0 - 0-0@0\nopen 5 0\nstable 0\n",
    ),
    (
        ONE_OPEN,
        "c5.0.7",
        "",
        "00000000000000000000.log 354\nproducer 5 0 7 0-0@0\nstable 5 0=61 1=62 2=62 3=62\n\
         undone\n00000000000000000000.log 276\nproducer 5 0 - 0-0@0\nopen 5 0\nstable 0\n",
    ),
    (
        "t5.0.0 t7.0.0 t5.0.1 a5.0.1 t5.0.2",
        "a7.0.1",
        "",
        "00000000000000000000.log 432\nproducer 5 0 1 0-0@0 1-1@2 2-2@4\nproducer 7 0 1 0-0@1\n\
         open 5 4\naborted 5 0 3 1\naborted 7 1 5 4\nstable 4\n\
         undone\n00000000000000000000.log 354\nproducer 5 0 1 0-0@0 1-1@2 2-2@4\nproducer 7 0 - 0-0@1\n\
         open 7 1\nopen 5 4\naborted 5 0 3 1\nstable 1\n",
    ),
    (
        "t7.0.0 t5.0.0 a7.0.1 t9.0.0 t5.0.1 c5.0.1 a9.0.1 t7.0.1",
        "a7.0.1",
        "",
        "00000000000000000000.log 657\nproducer 5 0 1 0-0@1 1-1@4\nproducer 7 0 1 0-0@0 1-1@7\n\
         producer 9 0 1 0-0@3\naborted 7 0 2 1\naborted 9 3 6 7\naborted 7 7 8 9\nstable 9 1=61 4=61\n\
         undone\n00000000000000000000.log 579\nproducer 5 0 1 0-0@1 1-1@4\nproducer 7 0 1 0-0@0 1-1@7\n\
         producer 9 0 1 0-0@3\nopen 7 7\naborted 7 0 2 1\naborted 9 3 6 7\nstable 7 1=61 4=61\n",
    ),
];

#[test]
fn an_undone_batch_is_forgotten_by_its_producer(rt: HostRuntime) {
    for (before, last, asked, want) in &UNDONE {
        let found = there_and_back(rt.alloc(), &LIMITS, before, last, asked);
        is(&rt, found, want);
    }
}

// Behind sequence number 2147483647 comes 0; markers are those of a coordinator of no lower epoch, here 7, of producer 9 in its
// epoch 3.
static ASKED: [(&str, &str, &str); 2] = [
    (
        "d9.0.2147483646.3",
        "d9.0.2147483646.3 d9.0.1 d9.0.2147483647 d9.0.2147483646",
        "00000000000000000000.log 85\nproducer 9 0 - 2147483646-0@0\n\
         stable 3 0=61 1=61 2=61\nduplicate 0 append F12 OutOfOrderSequence F12 OutOfOrderSequence ",
    ),
    (
        "a9.3.7",
        "a9.2.8 a9.2.6 c9.4.6 c9.3.7 a8.0.0",
        "00000000000000000000.log 78\nproducer 9 3 7\nstable 1\n\
         F11 InvalidProducerEpoch F11 InvalidProducerEpoch F14 CoordinatorFenced append append ",
    ),
];

#[test]
fn a_leader_admits_by_its_tables(rt: HostRuntime) {
    for (log, asked, want) in &ASKED {
        is(&rt, told_of(rt.alloc(), &LIMITS, log, asked), want);
    }
}

// What a leader does with a marker that a client hands it.
fn handed(alloc: Global) -> Result<String, Refusal> {
    let marker = batch_of(alloc, "a9.3.7")?;
    let mut text = String::new(alloc);
    push_answer(
        &mut text,
        admit(&Producers::new(alloc), &Txns::new(alloc), &marker),
    )?;
    Ok(text)
}

#[test]
fn a_marker_is_no_clients(rt: HostRuntime) {
    is(&rt, handed(rt.alloc()), "F30 ControlFromClient ");
}

// Where the log is stable at 4 and at 5, once its transaction is ended by the marker at 4.
fn stable_behind(
    alloc: Global,
    log: &mut PartitionLog,
    marker: &str,
) -> Result<(u64, u64), Refusal> {
    let marker = batch_of(alloc, marker)?.stamp(4, 0);
    let undo = log.append(marker)?;
    let found = (
        log.tables().transactions().stable(4),
        log.tables().transactions().stable(5),
    );
    log.undo(undo);
    Ok(found)
}

fn stable_offsets(alloc: Global, marker: &str) -> Result<(u64, u64), Refusal> {
    let mut log = log_of(alloc, &LIMITS, ONE_OPEN)?;
    stable_behind(alloc, &mut log, marker)
}

#[test]
fn a_marker_counts_once_the_watermark_has_passed_it(rt: HostRuntime) {
    for marker in ["c5.0.7", "a5.0.7"] {
        assert_eq!(rt; stable_offsets(rt.alloc(), marker), Ok((0, 5)));
    }
}
