//! What consumers and operators of running nodes are told: fetches, offsets for times, ends of leader epochs, a node's state.

use crate::node_seated::{Turn, seated};
use crate::shown::is;
use kp_node::Isolation::{ReadCommitted, ReadUncommitted};
use kp_replica::IsrChange;

const MIB: u32 = 1_048_576;

// An open transaction of producer 5 in front of a record of no producer; node 0 alone, so that its own log is committed.
static OPEN: [Turn; 7] = [
    Turn::Elect(0),
    Turn::Adopt(0),
    Turn::Append(0, "t5.0.0"),
    Turn::Append(0, "p30.4"),
    Turn::Fetch(0, 0, MIB, ReadUncommitted),
    Turn::Show(0),
    Turn::Raise(0),
];

static OPENED: [Turn; 5] = [
    Turn::Fetch(0, 0, MIB, ReadUncommitted),
    Turn::Fetch(0, 0, MIB, ReadCommitted),
    Turn::OffsetForTime(0, 25, ReadUncommitted),
    Turn::OffsetForTime(0, 25, ReadCommitted),
    Turn::Show(0),
];

// The transaction is aborted: its marker stands at offset 2.
static ABORTED: [Turn; 9] = [
    Turn::Mark(0),
    Turn::Raise(0),
    Turn::Fetch(0, 0, MIB, ReadCommitted),
    Turn::Fetch(0, 1, MIB, ReadCommitted),
    Turn::Fetch(0, 0, MIB, ReadUncommitted),
    Turn::Fetch(0, 0, 1, ReadCommitted),
    Turn::Fetch(0, 3, MIB, ReadCommitted),
    Turn::Fetch(0, 4, MIB, ReadCommitted),
    Turn::OffsetForTime(0, 31, ReadUncommitted),
];

// By Kafka's rules: nothing that isn't committed is shown, an open transaction holds back what is read committed, an abort
// lets it go, with the transaction named where its offsets meet those that were asked for, and a fetch gives at least a batch.
#[test]
fn a_consumer_fetches(rt: HostRuntime) {
    is(
        &rt,
        seated(rt.alloc(), 1, &[], &OPEN),
        "record leader 0 epoch 0 version 1\nleads epoch 0 from 0\nat 0\nat 1\nbatches 0, mark 0 stable 0 end 2\n\
         leads epoch 0 from 0 kept 0 life 0 end 2 mark 0 stable 0 checkpoint 0\nmark 2\n",
    );
    is(
        &rt,
        seated(rt.alloc(), 1, &OPEN, &OPENED),
        "batches 2, 0 time 10, 1 time 30, mark 2 stable 0 end 2\nbatches 0, mark 2 stable 0 end 2\noffset 1 time 30\nno offset\n\
         leads epoch 0 from 0 kept 0 life 0 end 2 mark 2 stable 0 checkpoint 0\n",
    );
    is(
        &rt,
        seated(rt.alloc(), 1, &OPEN, &ABORTED),
        "at 2\nmark 3\nbatches 3, 0 time 10, 1 time 30, 2 time 20, aborted 5 from 0, mark 3 stable 3 end 3\n\
         batches 2, 1 time 30, 2 time 20, aborted 5 from 0, mark 3 stable 3 end 3\n\
         batches 3, 0 time 10, 1 time 30, 2 time 20, mark 3 stable 3 end 3\n\
         batches 1, 0 time 10, aborted 5 from 0, mark 3 stable 3 end 3\nbatches 0, mark 3 stable 3 end 3\n\
         F16 OffsetOutOfRange\nno offset\n",
    );
}

// Node 1 leads epoch 1 after a batch of epoch 0, and has committed both; node 0 follows, and knows of none of it.
static LED: [Turn; 14] = [
    Turn::Elect(0),
    Turn::Adopt(0),
    Turn::Adopt(1),
    Turn::Append(0, "p10"),
    Turn::Ask(1),
    Turn::Deliver(0),
    Turn::Deliver(1),
    Turn::Elect(1),
    Turn::Adopt(1),
    Turn::Alter(1, IsrChange::Leave(0)),
    Turn::Deliver(2),
    Turn::Deliver(3),
    Turn::Append(1, "p30"),
    Turn::Raise(1),
];

static ASKED: [Turn; 16] = [
    Turn::EndFor(1, 0),
    Turn::EndFor(1, 7),
    Turn::EndFor(0, 0),
    Turn::Adopt(0),
    Turn::EndFor(0, 0),
    Turn::Show(0),
    Turn::OffsetForTime(0, 0, ReadUncommitted),
    Turn::OffsetForTime(1, 11, ReadCommitted),
    Turn::Stop(1),
    Turn::Show(1),
    Turn::EndFor(1, 0),
    Turn::OffsetForTime(1, 11, ReadCommitted),
    Turn::Fetch(1, 0, MIB, ReadCommitted),
    Turn::Restart(1),
    Turn::Show(1),
    Turn::EndFor(1, 0),
];

#[test]
fn an_operator_asks(rt: HostRuntime) {
    is(
        &rt,
        seated(rt.alloc(), 2, &LED, &ASKED),
        "epoch 0 ends 1\nepoch 1 ends 2\nepoch 0 ends 1\nfollows 1 epoch 1\nF15 NotLeader\n\
         follows 1 epoch 1 kept 1 life 0 end 1 mark 0 stable 0 checkpoint 0\nno offset\noffset 1 time 30\nstopped\n\
         down kept 1 life 0 end 2 mark 2 stable 2 checkpoint 0\nF28 Down\nF28 Down\nF28 Down\nlife 1 end 2 mark 0\n\
         idle kept 1 life 1 end 2 mark 0 stable 0 checkpoint 0\nF15 NotLeader\n",
    );
}

// Producer 5's transaction is open at 0 until the marker at 2; a second one begins at 3, before three records of producer 6. Nothing is
// committed, and node 1 has asked from 0.
static DESCRIBED: [Turn; 9] = [
    Turn::Elect(0),
    Turn::Adopt(0),
    Turn::Adopt(1),
    Turn::Append(0, "t5.0.0"),
    Turn::Append(0, "p30.4"),
    Turn::Mark(0),
    Turn::Append(0, "t5.0.1"),
    Turn::Append(0, "d6.0.0.3"),
    Turn::Ask(1),
];

static DESCRIPTIONS: [Turn; 22] = [
    Turn::Known(1),
    Turn::Known(0),
    Turn::Deliver(0),
    Turn::Alter(0, IsrChange::Leave(1)),
    Turn::Known(0),
    Turn::Deliver(2),
    Turn::Deliver(3),
    Turn::Known(0),
    Turn::Producer(0, 5),
    Turn::Producer(0, 6),
    Turn::Producer(0, 7),
    Turn::Producer(1, 5),
    Turn::Open(0),
    Turn::Open(1),
    Turn::LogFrom(0, 2, MIB),
    Turn::LogFrom(0, 0, 1),
    Turn::LogFrom(0, 6, MIB),
    Turn::LogFrom(0, 7, MIB),
    Turn::LogFrom(0, 8, MIB),
    Turn::Stop(0),
    Turn::Known(0),
    Turn::Open(0),
];

// By Kafka's rules (KIP-98, KIP-664): a marker ends its producer's transaction, and leaves its sequence numbers.
#[test]
fn a_log_is_described(rt: HostRuntime) {
    is(
        &rt,
        seated(rt.alloc(), 2, &DESCRIBED, &DESCRIPTIONS),
        "F15 NotLeader\nisr 0 1 version 1\nsent 1 batches 5 mark 0\nsent 2 proposes isr 0 version 1\n\
         isr 0 1 version 1, proposed isr 0 version 1, 1 reported 0\nsent 3 record leader 0 epoch 0 version 2\ntaken\n\
         isr 0 version 2, 1 reported 0\nepoch 0 last 1 coordinator 7 open 3\n\
         epoch 0 last 2 coordinator none open none\nno producer\nno producer\nopen 1, 5 from 3\nopen 0\n\
         batches 3, 2 time 20, 3 time 10, 4 time 10\nbatches 1, 0 time 10\nbatches 1, 4 time 10\nbatches 0\n\
         F16 OffsetOutOfRange\nstopped\nF28 Down\nopen 1, 5 from 3\n",
    );
}
