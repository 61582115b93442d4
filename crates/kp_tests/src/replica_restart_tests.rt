//! Nodes that stop, start again, and ask for other in-sync replicas, over the calls of a node alone.

use crate::logs::log_of;
use crate::replica_played::{Call, played};
use crate::replica_tests::is_one_of;
use crate::shown::is;
use kp_log::PartitionLog;
use kp_replica::{IsrChange, KeptNode, Replica};
use kp_types::{Limits, MAX_BATCH, Refusal};
use std::alloc::{AllocError, Global};

// A leader whose high watermark is 7, and which began to lead at 10.
static CAUGHT_UP: [Call; 14] = [
    Call::Elect(0),
    Call::Adopt(0),
    Call::Append(0, "d9.0.0.3"),
    Call::Append(0, "d9.0.3.3"),
    Call::Append(0, "p10"),
    Call::Append(0, "p20"),
    Call::Append(0, "d9.0.6.2"),
    Call::Fetch(0, 7, Some(0)),
    Call::Raise(0),
    Call::Elect(0),
    Call::Adopt(0),
    Call::Alter(0, IsrChange::Leave(1)),
    Call::Deliver(1),
    Call::Deliver(2),
];

// A node that has told nothing, then an end below the start, then one at the start; a proposal under another record, another
// change while it is pending, and the same again; the decision once more, one of a moved record, and calls of who doesn't lead.
static JOINS: [Call; 20] = [
    Call::Alter(0, IsrChange::Join(1)),
    Call::Fetch(1, 8, Some(0)),
    Call::Alter(0, IsrChange::Join(1)),
    Call::Fetch(1, 10, Some(0)),
    Call::Alter(0, IsrChange::Join(1)),
    Call::SwapRecords,
    Call::Deliver(5),
    Call::Deliver(6),
    Call::Alter(0, IsrChange::Leave(1)),
    Call::SwapRecords,
    Call::Alter(0, IsrChange::Join(1)),
    Call::Deliver(7),
    Call::Deliver(8),
    Call::Deliver(8),
    Call::Alter(0, IsrChange::Leave(1)),
    Call::Elect(0),
    Call::Deliver(9),
    Call::Deliver(10),
    Call::Hand(0, 9),
    Call::Alter(1, IsrChange::Leave(0)),
];

static JOINS_TOLD: &str =
    "F23 NotCaughtUp\nsent 3 batches 1 mark 7\nF23 NotCaughtUp\nsent 4 batches 0 mark 7\n\
     sent 5 proposes isr 0 1 version 3\nrecord leader 0 epoch 1 version 2\nsent 6 record leader 0 epoch 1 version 2\n\
     F29 StaleAnswer\nF34 ChangePending\nrecord leader 0 epoch 1 version 3\nsent 7 proposes isr 0 1 version 3\n\
     sent 8 record leader 0 epoch 1 version 4\nisr 0 1 version 4\nF29 StaleAnswer\nsent 9 proposes isr 0 version 4\n\
     record leader 0 epoch 2 version 5\nsent 10 record leader 0 epoch 2 version 5\nF22 StaleRecord\nF29 StaleAnswer\n\
     F15 NotLeader\n";

#[test]
fn a_node_joins_where_it_has_caught_up(rt: HostRuntime) {
    is(&rt, played(rt.alloc(), 2, &CAUGHT_UP, &JOINS), JOINS_TOLD);
}

// Node 0 leads with node 1, and both stop and start again, before the decision comes to node 0, which leads no more; then it is
// elected anew, and the decision comes again.
static BOTH_RESTART: [Call; 18] = [
    Call::Elect(0),
    Call::Adopt(0),
    Call::Adopt(1),
    Call::Alter(0, IsrChange::Leave(1)),
    Call::Stop(0),
    Call::Hand(0, 0),
    Call::Restart(0),
    Call::Adopt(0),
    Call::Stop(1),
    Call::Restart(1),
    Call::Adopt(1),
    Call::Deliver(0),
    Call::Deliver(1),
    Call::Elect(0),
    Call::Adopt(0),
    Call::Deliver(1),
    Call::Raise(0),
    Call::Adopt(0),
];

static BOTH_TOLD: &str =
    "record leader 0 epoch 0 version 1\nleads epoch 0 from 0\nfollows 0 epoch 0\n\
     sent 0 proposes isr 0 version 1\nstopped\nF28 Down\nend 0 mark 0 life 1\nF22 StaleRecord\nstopped\n\
     end 0 mark 0 life 1\nfollows 0 epoch 0\nsent 1 record leader 0 epoch 0 version 2\n\
     F15 NotLeader\nrecord leader 0 epoch 1 version 3\nleads epoch 1 from 0\nF22 StaleRecord\nmark 0\nF22 StaleRecord\n";

#[test]
fn a_restarted_leader_is_elected_anew(rt: HostRuntime) {
    let alloc = rt.alloc();
    is(&rt, played(alloc, 2, &[], &BOTH_RESTART), BOTH_TOLD);
}

// Node 1 has a batch, and notes the watermark 1.
static NOTED: [Call; 6] = [
    Call::Elect(0),
    Call::Elect(0),
    Call::Elect(0),
    Call::Adopt(1),
    Call::Take((2, 0, None), &[(0, 1, "p10")], 1),
    Call::Checkpoint(1),
];

static AGAIN: [Call; 4] = [
    Call::Take((2, 1, Some(1)), &[(1, 1, "p20"), (2, 2, "p30")], 3),
    Call::Restart(1),
    Call::Stop(1),
    Call::Restart(1),
];

// All that is told where memory is ample; or the node was downed by the take, with one batch or two, and starts again with
// those; or there is no room for its tables, and it stays down; or there was none for the answer, before the node had it.
static STARTED: [&str; 5] = [
    "end 3 mark 3\nF28 Down\nstopped\n\
     end 3 mark 1 life 1, 0 epoch 1 time 10, 1 epoch 1 time 20, 2 epoch 2 time 30\n",
    "end 3 mark 3\nF28 Down\nstopped\nF33 Memory\n",
    "F33 Memory\nend 1 mark 1 life 1, 0 epoch 1 time 10\nstopped\nend 1 mark 1 life 2, 0 epoch 1 time 10\n",
    "F33 Memory\nend 2 mark 1 life 1, 0 epoch 1 time 10, 1 epoch 1 time 20\nstopped\n\
     end 2 mark 1 life 2, 0 epoch 1 time 10, 1 epoch 1 time 20\n",
    "F33 Memory\nF28 Down\nstopped\nend 1 mark 1 life 1, 0 epoch 1 time 10\n",
];

#[test]
fn a_node_without_room_starts_again(rt: HostRuntime) {
    is(&rt, played(rt.alloc(), 2, &NOTED, &AGAIN), STARTED[0]);
}

// This one holds also where an allocation is refused.
#[test]
fn a_restart_without_memory_keeps_the_node(rt: HostRuntime) {
    let found = played(rt.alloc(), 2, &NOTED, &AGAIN);
    is_one_of(&rt, found, &STARTED);
}

const LIMITS: Limits = Limits {
    segment_bytes: 1024,
    index_interval: 0,
    max_batch: MAX_BATCH,
};

// A node with an empty log that is down, in this life.
fn kept_in(alloc: Global, life: u64) -> KeptNode {
    let log = PartitionLog::new(alloc, &LIMITS);
    KeptNode::of(0, log.close(Vec::new(alloc), 0), 0, life, None)
}

fn push_restart(text: &mut String, refused: Option<Refusal>, life: u64) -> Result<(), AllocError> {
    match refused {
        Some(refusal) => write!(text, "{refusal} in life {life}, "),
        None => write!(text, "life {life}, "),
    }
}

// Restarts the node, stops it again, and appends to the text what the restart answered.
fn restarted(alloc: Global, text: &mut String, kept: KeptNode) -> Result<KeptNode, Refusal> {
    let (kept, refused) = match Replica::restart(alloc, kept) {
        Ok(node) => (node.stop(), None),
        Err((kept, refusal)) => (kept, Some(refusal)),
    };
    push_restart(text, refused, kept.life())?;
    Ok(kept)
}

// What two restarts answer, with a stop between them.
fn restarted_twice(alloc: Global, life: u64) -> Result<String, Refusal> {
    let mut text = String::new(alloc);
    let once = restarted(alloc, &mut text, kept_in(alloc, life))?;
    let _twice = restarted(alloc, &mut text, once)?;
    Ok(text)
}

#[test]
fn a_node_stays_down_after_its_last_life(rt: HostRuntime) {
    is(
        &rt,
        restarted_twice(rt.alloc(), u64::MAX - 1),
        "life 18446744073709551615, F24 RecordFull in life 18446744073709551615, ",
    );
}

// A log's batches that are read back, without the first ones, and the checkpoint.
static READ_BACK: [(usize, u64); 4] = [(0, 2), (1, 2), (0, 3), (0, 5)];

// What a node is that is read back from these batches.
fn read_back(
    alloc: Global,
    log: &PartitionLog,
    (passed, checkpoint): (usize, u64),
) -> Result<KeptNode, Refusal> {
    let all = log.batches();
    let (_, batches) = all.split_at(passed.min(all.len()));
    KeptNode::read_back(alloc, 0, &LIMITS, batches, checkpoint, 4, Some(2))
}

fn all_read_back(alloc: Global) -> Result<String, Refusal> {
    let log = log_of(alloc, &LIMITS, "p10 p20 d9.0.0.3")?;
    let mut text = String::new(alloc);
    for tried in READ_BACK {
        match read_back(alloc, &log, tried) {
            Ok(kept) => writeln!(
                text,
                "end {} mark {} life {}",
                kept.log().end_offset(),
                kept.watermark(),
                kept.life()
            )?,
            Err(refusal) => writeln!(text, "{refusal}")?,
        }
    }
    Ok(text)
}

#[test]
fn a_log_is_read_back(rt: HostRuntime) {
    is(
        &rt,
        all_read_back(rt.alloc()),
        "end 5 mark 2 life 4\nF26 NotNext\nF19 NotBoundary\nend 5 mark 5 life 4\n",
    );
}
