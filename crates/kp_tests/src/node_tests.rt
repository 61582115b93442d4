//! Nodes with passes: what a caller is told, and runs of several nodes.

use crate::node_seated::{Turn, seated};
use crate::shown::is;
use kp_replica::IsrChange;

static READ: [Turn; 12] = [
    Turn::Append(0, "v1000"),
    Turn::Elect(0),
    Turn::Adopt(0),
    Turn::Append(0, "v1000"),
    Turn::Receipt,
    Turn::Acked(0),
    Turn::Read(0, 0),
    Turn::Raise(0),
    Turn::Acked(0),
    Turn::Watermark(0),
    Turn::ReadBytes(0, 0),
    Turn::Read(0, 2),
];

// The bytes are those of the batch at offset 0 in leader epoch 0.
static READ_TOLD: &str =
    "F15 NotLeader\nrecord leader 0 epoch 0 version 1\nleads epoch 0 from 0\nat 0\nreceipt 0 to 0 epoch 0\nnot yet\n\
     batches 0\nmark 1\nyes\nmark 1\nbytes 0000000000000000000000390000000002ebf1884b00000000000000000000000003e800000000000003e8ffffffffffffffffffffffffffff000000010e00000001026100\n\
     F16 OffsetOutOfRange\n";

#[test]
fn read_back(rt: HostRuntime) {
    is(&rt, seated(rt.alloc(), 1, &[], &READ), READ_TOLD);
}

static CHANGED: [Turn; 25] = [
    Turn::Alter(0, IsrChange::Leave(1)),
    Turn::Elect(0),
    Turn::Adopt(0),
    Turn::Alter(0, IsrChange::Join(1)),
    Turn::Alter(0, IsrChange::Leave(1)),
    Turn::Record,
    Turn::Deliver(0),
    Turn::InSync,
    Turn::Record,
    Turn::Alter(0, IsrChange::Join(1)),
    Turn::Hand(1, 0),
    Turn::Deliver(1),
    Turn::Elect(0),
    Turn::Alter(0, IsrChange::Leave(1)),
    Turn::Elect(1),
    Turn::Append(0, "p10"),
    Turn::Raise(0),
    Turn::Checkpoint(0),
    Turn::Stop(0),
    Turn::Raise(0),
    Turn::Acked(0),
    Turn::Restart(0),
    Turn::Restart(0),
    Turn::Checkpoint(0),
    Turn::Watermark(0),
];

static CHANGED_TOLD: &str =
    "F15 NotLeader\nrecord leader 0 epoch 0 version 1\nleads epoch 0 from 0\nF23 NotCaughtUp\nsent 0 proposes isr 0 version 1\n\
     record leader 0 epoch 0 version 1\nsent 1 record leader 0 epoch 0 version 2\nisr 0 version 2\n\
     record leader 0 epoch 0 version 2\n\
     F34 ChangePending\nF29 StaleAnswer\ntaken\nrecord leader 0 epoch 1 version 3\nF21 NotInSync\nF21 NotInSync\nat 0\nmark 1\n\
     checkpoint 1\nstopped\nF28 Down\nF28 Down\nlife 1 end 1 mark 1\nF28 Down\n\
     checkpoint 1\nmark 1\n";

#[test]
fn alter_shows(rt: HostRuntime) {
    is(&rt, seated(rt.alloc(), 2, &[], &CHANGED), CHANGED_TOLD);
}

// Node 0 leads and has two batches, of which node 1 has the first; node 1 is elected and commits another second one.
static DIVERGED: [Turn; 18] = [
    Turn::Elect(0),
    Turn::Adopt(0),
    Turn::Adopt(1),
    Turn::Append(0, "p10"),
    Turn::Ask(1),
    Turn::Deliver(0),
    Turn::Deliver(1),
    Turn::Append(0, "p20"),
    Turn::Elect(1),
    Turn::Adopt(1),
    Turn::Alter(1, IsrChange::Leave(0)),
    Turn::Deliver(2),
    Turn::Deliver(3),
    Turn::Append(1, "p30"),
    Turn::Raise(1),
    Turn::Adopt(0),
    Turn::Ask(0),
    Turn::Deliver(4),
];

static DIVERGED_TOLD: &str =
    "record leader 0 epoch 0 version 1\nleads epoch 0 from 0\nfollows 0 epoch 0\nat 0\nsent 0 asks from 0 no epoch\n\
     sent 1 batches 1 mark 0\ntaken\nat 1\nrecord leader 1 epoch 1 version 2\nleads epoch 1 from 1\n\
     sent 2 proposes isr 1 version 2\nsent 3 record leader 1 epoch 1 version 3\ntaken\nat 1\nmark 2\nfollows 1 epoch 1\n\
     sent 4 asks from 2 epoch 0\nsent 5 diverges epoch 0 end 1\n";

// Node 0 cuts, and joins once it has caught up; the proposal and its decision come twice.
static CUT: [Turn; 18] = [
    Turn::Deliver(5),
    Turn::Alter(1, IsrChange::Join(0)),
    Turn::Ask(0),
    Turn::Deliver(6),
    Turn::Alter(1, IsrChange::Join(0)),
    Turn::Deliver(7),
    Turn::Deliver(7),
    Turn::Ask(0),
    Turn::Decide(8),
    Turn::Deliver(8),
    Turn::Alter(1, IsrChange::Join(0)),
    Turn::Deliver(10),
    Turn::Deliver(11),
    Turn::Deliver(10),
    Turn::Deliver(12),
    Turn::Record,
    Turn::Read(0, 1),
    Turn::Acked(0),
];

static CUT_TOLD: &str =
    "taken\nF23 NotCaughtUp\nsent 6 asks from 1 epoch 0\nsent 7 batches 1 mark 2\nF23 NotCaughtUp\ntaken\nF29 StaleAnswer\n\
     sent 8 asks from 2 epoch 1\nF29 StaleAnswer\nsent 9 batches 0 mark 2\nsent 10 proposes isr 0 1 version 3\n\
     sent 11 record leader 1 epoch 1 version 4\ntaken\nsent 12 record leader 1 epoch 1 version 4\nF29 StaleAnswer\n\
     record leader 1 epoch 1 version 4\nbatches 1, 1 time 30\nyes\n";

#[test]
fn cut_shows(rt: HostRuntime) {
    is(&rt, seated(rt.alloc(), 2, &[], &DIVERGED), DIVERGED_TOLD);
    is(&rt, seated(rt.alloc(), 2, &DIVERGED, &CUT), CUT_TOLD);
}

static CUT_LATE: [Turn; 3] = [Turn::Elect(1), Turn::Deliver(5), Turn::Ask(0)];

// The record has left the epoch in which node 0 asked.
#[test]
fn a_cut_of_an_older_record_is_refused(rt: HostRuntime) {
    is(
        &rt,
        seated(rt.alloc(), 2, &DIVERGED, &CUT_LATE),
        "record leader 1 epoch 2 version 4\nF22 StaleRecord\nsent 6 asks from 2 epoch 0\n",
    );
}

// Node 0 leads and has a batch, which node 1 takes.
static FOLLOWED: [Turn; 7] = [
    Turn::Elect(0),
    Turn::Adopt(0),
    Turn::Adopt(1),
    Turn::Append(0, "p10"),
    Turn::Ask(1),
    Turn::Deliver(0),
    Turn::Deliver(1),
];

static RESTARTED: [Turn; 4] = [
    Turn::Stop(0),
    Turn::Restart(0),
    Turn::Adopt(0),
    Turn::Deliver(5),
];

static FOLLOWER_RESTARTED: [Turn; 6] = [
    Turn::Ask(1),
    Turn::Deliver(2),
    Turn::Stop(1),
    Turn::Restart(1),
    Turn::Adopt(1),
    Turn::Deliver(3),
];

// A diverging answer of an earlier life cuts nothing; one with batches is taken, as the log is the one asked by.
#[test]
fn an_answer_of_an_earlier_life_cuts_nothing(rt: HostRuntime) {
    is(
        &rt,
        seated(rt.alloc(), 2, &DIVERGED, &RESTARTED),
        "stopped\nlife 1 end 2 mark 0\nfollows 1 epoch 1\nF29 StaleAnswer\n",
    );
    is(
        &rt,
        seated(rt.alloc(), 2, &FOLLOWED, &FOLLOWER_RESTARTED),
        "sent 2 asks from 1 epoch 0\nsent 3 batches 0 mark 0\nstopped\nlife 1 end 1 mark 0\nfollows 0 epoch 0\ntaken\n",
    );
}

static REPEATED: [Turn; 8] = [
    Turn::Deliver(1),
    Turn::Raise(0),
    Turn::Ask(1),
    Turn::Deliver(2),
    Turn::Raise(0),
    Turn::Deliver(3),
    Turn::Watermark(0),
    Turn::Watermark(1),
];

#[test]
fn a_message_comes_twice(rt: HostRuntime) {
    is(
        &rt,
        seated(rt.alloc(), 2, &FOLLOWED, &REPEATED),
        "F29 StaleAnswer\nmark 0\nsent 2 asks from 1 epoch 0\nsent 3 batches 0 mark 0\nmark 1\ntaken\nmark 1\nmark 0\n",
    );
}

static FENCED: [Turn; 11] = [
    Turn::Elect(0),
    Turn::Adopt(0),
    Turn::Adopt(1),
    Turn::Ask(1),
    Turn::Elect(0),
    Turn::Adopt(1),
    Turn::Ask(1),
    Turn::Append(0, "p10"),
    Turn::Deliver(1),
    Turn::Adopt(0),
    Turn::Deliver(0),
];

static FENCED_TOLD: &str =
    "record leader 0 epoch 0 version 1\nleads epoch 0 from 0\nfollows 0 epoch 0\nsent 0 asks from 0 no epoch\n\
     record leader 0 epoch 1 version 2\nfollows 0 epoch 1\nsent 1 asks from 0 no epoch\nat 0\nF18 UnknownLeaderEpoch\n\
     leads epoch 1 from 1\nF17 FencedLeaderEpoch\n";

#[test]
fn leader_epochs_fence(rt: HostRuntime) {
    is(&rt, seated(rt.alloc(), 2, &[], &FENCED), FENCED_TOLD);
}

static APPENDED_TWICE: [Turn; 9] = [
    Turn::Elect(0),
    Turn::Adopt(0),
    Turn::Append(0, "d9.0.0.1"),
    Turn::Append(0, "d9.0.0.1"),
    Turn::Append(0, "d9.0.2.1"),
    Turn::Mark(0),
    Turn::Acked(0),
    Turn::Raise(0),
    Turn::Acked(0),
];

static APPENDED_TWICE_TOLD: &str =
    "record leader 0 epoch 0 version 1\nleads epoch 0 from 0\nat 0\nduplicate 0\nF12 OutOfOrderSequence\nat 1\nnot yet\n\
     mark 2\nyes\n";

#[test]
fn a_batch_that_comes_twice_is_kept_once(rt: HostRuntime) {
    is(
        &rt,
        seated(rt.alloc(), 1, &[], &APPENDED_TWICE),
        APPENDED_TWICE_TOLD,
    );
}
