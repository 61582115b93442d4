//! A leader and its followers, from request to answer, over the calls of a node alone: no world and no script.

use crate::replica_played::{Call, played};
use crate::shown::is;
use kp_types::Refusal;
use std::process::Abort;

// Two nodes lead in turn, and each appends what the other never gets. Node 0 then has batches of the epochs 0 and 2, and
// node 1 of 0, 1 and 3.
static APART: [Call; 19] = [
    Call::Elect(0),
    Call::Adopt(0),
    Call::Adopt(1),
    Call::Append(0, "p10"),
    Call::Ask(1),
    Call::Deliver(0),
    Call::Deliver(1),
    Call::Append(0, "p20"),
    Call::Elect(1),
    Call::Adopt(1),
    Call::Append(1, "p30"),
    Call::Elect(0),
    Call::Adopt(0),
    Call::Append(0, "p40"),
    Call::Elect(1),
    Call::Adopt(1),
    Call::Append(1, "p50"),
    Call::Show(0),
    Call::Show(1),
];

// Records that are no news to a node, and answers that come under a record that has moved on: node 0 has diverged, and follows
// in the epoch 3 when node 1 is elected anew, then in the epoch 4, where the record of the epoch 3 comes late, and leads in the
// epoch 5 when its last answer comes.
static MOVED_ON: [Call; 25] = [
    Call::Adopt(1),
    Call::Adopt(0),
    Call::Adopt(0),
    Call::Ask(0),
    Call::Deliver(2),
    Call::Elect(1),
    Call::Deliver(3),
    Call::Ask(0),
    Call::Adopt(1),
    Call::Deliver(2),
    Call::Deliver(4),
    Call::Adopt(0),
    Call::Deliver(3),
    Call::Ask(0),
    Call::Deliver(5),
    Call::SwapRecords,
    Call::Adopt(0),
    Call::Adopt(1),
    Call::Deliver(6),
    Call::SwapRecords,
    Call::Elect(0),
    Call::Adopt(0),
    Call::Deliver(6),
    Call::Deliver(0),
    Call::Show(0),
];

static MOVED_ON_TOLD: &str =
    "F22 StaleRecord\nfollows 1 epoch 3\nF22 StaleRecord\nsent 2 asks from 3 epoch 2\n\
     sent 3 diverges epoch 1 end 2\nrecord leader 1 epoch 4 version 5\nF22 StaleRecord\nsent 4 asks from 3 epoch 2\n\
     leads epoch 4 from 3\nF17 FencedLeaderEpoch\nF17 FencedLeaderEpoch\nfollows 1 epoch 4\n\
     F29 StaleAnswer\nsent 5 asks from 3 epoch 2\nsent 6 diverges epoch 1 end 2\nrecord leader 1 epoch 3 version 4\n\
     F22 StaleRecord\nF22 StaleRecord\nF22 StaleRecord\nrecord leader 1 epoch 4 version 5\n\
     record leader 0 epoch 5 version 6\n\
     leads epoch 5 from 3\nF29 StaleAnswer\nF17 FencedLeaderEpoch\n\
     end 3 mark 0 life 0, 0 epoch 0 time 10, 1 epoch 0 time 20, 2 epoch 2 time 40\n";

// Node 1 fetches from node 0 in the epoch 2.
static FETCHING: [Call; 4] = [
    Call::Elect(0),
    Call::Elect(0),
    Call::Elect(0),
    Call::Adopt(1),
];

// Answers of another epoch, offset or last epoch, with a batch that isn't next, one whose epoch is below the one before, and a
// watermark within a batch, first of an empty log and then of one with three records.
static FORGERIES: [Call; 24] = [
    Call::Take((1, 0, None), &[(0, 1, "p10")], 0),
    Call::Take((2, 1, None), &[(1, 1, "p10")], 0),
    Call::Take((2, 0, None), &[(1, 1, "p10")], 0),
    Call::Take((2, 0, None), &[(0, 1, "p10"), (2, 1, "p20")], 0),
    Call::Take((2, 0, None), &[(0, 1, "p10"), (1, 0, "p20")], 0),
    Call::Take((2, 0, None), &[(0, 1, "d9.0.0.3")], 2),
    Call::Show(1),
    Call::Take((2, 0, None), &[(0, 1, "d9.0.0.3")], 0),
    Call::Take((2, 0, None), &[], 0),
    Call::Take((2, 3, None), &[], 3),
    Call::Take((2, 3, Some(0)), &[], 3),
    Call::Take((2, 3, Some(1)), &[(4, 1, "p20")], 3),
    Call::Take((2, 3, Some(1)), &[(2, 1, "p20")], 3),
    Call::Take((2, 3, Some(1)), &[(3, 0, "p20")], 3),
    Call::Take((2, 3, Some(1)), &[(3, 1, "p20"), (4, 0, "p20")], 3),
    Call::Take((2, 3, Some(1)), &[], 2),
    Call::Take((2, 3, Some(1)), &[(3, 2, "d9.0.3.2"), (5, 2, "p20")], 4),
    Call::Show(1),
    Call::Take((2, 3, Some(1)), &[(3, 2, "d9.0.3.2"), (5, 2, "p20")], 5),
    Call::Take((2, 6, Some(2)), &[], 3),
    Call::Take((2, 6, Some(2)), &[], 4),
    Call::Show(1),
    Call::Take((2, 6, Some(2)), &[], 99),
    Call::Show(1),
];

static FORGERIES_TOLD: &str =
    "F29 StaleAnswer\nF29 StaleAnswer\nF26 NotNext\nF26 NotNext\nF27 EpochBack\nF19 NotBoundary\n\
     end 0 mark 0 life 0\nend 3 mark 0\nF29 StaleAnswer\nF29 StaleAnswer\nF29 StaleAnswer\nF26 NotNext\nF26 NotNext\n\
     F27 EpochBack\nF27 EpochBack\nF19 NotBoundary\nF19 NotBoundary\nend 3 mark 0 life 0, 0 epoch 1 time 10\n\
     end 6 mark 5\nend 6 mark 5\nF19 NotBoundary\n\
     end 6 mark 5 life 0, 0 epoch 1 time 10, 3 epoch 2 time 10, 5 epoch 2 time 20\n\
     end 6 mark 6\nend 6 mark 6 life 0, 0 epoch 1 time 10, 3 epoch 2 time 10, 5 epoch 2 time 20\n";

// Diverging answers of another epoch, offset, last epoch or life; one that would cut within a batch; a cut, whose answer comes
// again; one that would cut below the watermark, and one of a record that has moved on.
static PARTINGS: [Call; 15] = [
    Call::Take((2, 0, None), &[(0, 1, "d9.0.0.3"), (3, 2, "p20")], 0),
    Call::Part((1, 4, Some(2)), 0, Some((1, 3))),
    Call::Part((2, 3, Some(2)), 0, Some((1, 3))),
    Call::Part((2, 4, Some(1)), 0, Some((1, 3))),
    Call::Part((2, 4, None), 0, Some((1, 3))),
    Call::Part((2, 4, Some(2)), 1, Some((1, 3))),
    Call::Part((2, 4, Some(2)), 0, Some((1, 2))),
    Call::Show(1),
    Call::Part((2, 4, Some(2)), 0, Some((1, 3))),
    Call::Part((2, 4, Some(2)), 0, Some((1, 3))),
    Call::Take((2, 3, Some(1)), &[(3, 2, "p30")], 3),
    Call::Part((2, 4, Some(2)), 0, None),
    Call::Elect(0),
    Call::Part((2, 4, Some(2)), 0, Some((1, 3))),
    Call::Show(1),
];

static PARTINGS_TOLD: &str =
    "end 4 mark 0\nF29 StaleAnswer\nF29 StaleAnswer\nF29 StaleAnswer\nF29 StaleAnswer\nF29 StaleAnswer\nF19 NotBoundary\n\
     end 4 mark 0 life 0, 0 epoch 1 time 10, 3 epoch 2 time 20\ncut 3\nF29 StaleAnswer\nend 4 mark 3\nF20 BelowSettled\n\
     record leader 0 epoch 3 version 4\nF22 StaleRecord\nend 4 mark 3 life 0, 0 epoch 1 time 10, 3 epoch 2 time 30\n";

// Node 0 leads two nodes in the epoch 1, with three records in one batch and one in the next.
static LEADING: [Call; 6] = [
    Call::Elect(0),
    Call::Elect(0),
    Call::Adopt(0),
    Call::Adopt(1),
    Call::Append(0, "d9.0.0.3"),
    Call::Append(0, "p20"),
];

// Requests within a batch, and of a lower and a higher epoch; then such as show a log that has diverged, by its end, or by a last
// epoch that the leader lacks. None of them reports anything. And then good ones.
static REQUESTS: [Call; 20] = [
    Call::Fetch(1, 1, Some(1)),
    Call::Fetch(1, 2, Some(1)),
    Call::Fetch(1, 2, None),
    Call::Fetch(0, 4, Some(1)),
    Call::Fetch(2, 4, Some(1)),
    Call::Fetch(0, 5, Some(1)),
    Call::Fetch(2, 1, Some(1)),
    Call::Fetch(0, 0, Some(0)),
    Call::Fetch(2, 0, Some(0)),
    Call::Fetch(1, 5, Some(1)),
    Call::Fetch(1, 3, Some(0)),
    Call::Fetch(1, 4, Some(7)),
    Call::Raise(0),
    Call::Show(0),
    Call::Fetch(1, 3, Some(1)),
    Call::Raise(0),
    Call::Fetch(1, 4, Some(1)),
    Call::Fetch(1, 0, None),
    Call::Raise(0),
    Call::Raise(1),
];

static REQUESTS_TOLD: &str =
    "F16 OffsetOutOfRange\nF16 OffsetOutOfRange\nF16 OffsetOutOfRange\nF17 FencedLeaderEpoch\n\
     F18 UnknownLeaderEpoch\nF17 FencedLeaderEpoch\nF18 UnknownLeaderEpoch\nF17 FencedLeaderEpoch\n\
     F18 UnknownLeaderEpoch\nsent 0 diverges epoch 1 end 4\nsent 1 diverges no epoch\nsent 2 diverges epoch 1 end 4\n\
     mark 0\nend 4 mark 0 life 0, 0 epoch 1 time 10, 3 epoch 1 time 20\nsent 3 batches 1 mark 0\nmark 3\n\
     sent 4 batches 0 mark 3\nsent 5 batches 2 mark 3\nmark 4\nF15 NotLeader\n";

// Records and answers go stale, forged answers change nothing, and refused requests report nothing.
#[test]
fn what_no_script_can_say_is_refused(rt: HostRuntime) {
    let alloc = rt.alloc();
    is(&rt, played(alloc, 2, &APART, &MOVED_ON), MOVED_ON_TOLD);
    is(&rt, played(alloc, 2, &FETCHING, &FORGERIES), FORGERIES_TOLD);
    is(&rt, played(alloc, 2, &FETCHING, &PARTINGS), PARTINGS_TOLD);
    is(&rt, played(alloc, 2, &LEADING, &REQUESTS), REQUESTS_TOLD);
}

// The text is the first of these, or where memory was refused another of them, or none.
pub(crate) fn is_one_of(rt: &impl Abort, found: Result<String, Refusal>, wanted: &[&str]) {
    match found {
        Ok(text) => {
            let is_wanted = wanted.iter().any(|want| *want == text.as_str());
            assert!(rt; is_wanted, "{text}");
        }
        Err(refusal) => assert_eq!(rt; refusal, Refusal::Memory),
    }
}

// Node 1 has a batch, and the watermark 1.
static ONE_TAKEN: [Call; 5] = [
    Call::Elect(0),
    Call::Elect(0),
    Call::Elect(0),
    Call::Adopt(1),
    Call::Take((2, 0, None), &[(0, 1, "p10")], 1),
];

static TWO_MORE: [Call; 2] = [
    Call::Take((2, 1, Some(1)), &[(1, 1, "p20"), (2, 2, "p30")], 3),
    Call::Show(1),
];

const ALL_TAKEN: &str = "end 3 mark 3\n\
     end 3 mark 3 life 0, 0 epoch 1 time 10, 1 epoch 1 time 20, 2 epoch 2 time 30\n";

// The node is up where memory was refused to the answer, before the node had it.
static CUT_SHORT: [&str; 4] = [
    ALL_TAKEN,
    "F33 Memory\nend 1 mark 1 life 0, 0 epoch 1 time 10\n",
    "F33 Memory\ndown, end 1 mark 1 life 0, 0 epoch 1 time 10\n",
    "F33 Memory\ndown, end 2 mark 1 life 0, 0 epoch 1 time 10, 1 epoch 1 time 20\n",
];

#[test]
fn two_batches_are_taken(rt: HostRuntime) {
    is(&rt, played(rt.alloc(), 2, &ONE_TAKEN, &TWO_MORE), ALL_TAKEN);
}

// This one holds also where an allocation is refused.
#[test]
fn a_take_without_memory_keeps_a_beginning(rt: HostRuntime) {
    let found = played(rt.alloc(), 2, &ONE_TAKEN, &TWO_MORE);
    is_one_of(&rt, found, &CUT_SHORT);
}

// A request that is served reports where the follower is.
static SERVED: [Call; 6] = [
    Call::Ask(1),
    Call::Fetch(1, 3, Some(1)),
    Call::Raise(0),
    Call::Show(0),
    Call::Ask(1),
    Call::Show(1),
];

static ALL_SERVED: &str = "sent 0 asks from 0 no epoch\nsent 1 batches 1 mark 0\nmark 3\n\
     end 4 mark 3 life 0, 0 epoch 1 time 10, 3 epoch 1 time 20\nsent 2 asks from 0 no epoch\nend 0 mark 0 life 0\n";

static NOT_SERVED: &str = "sent 0 asks from 0 no epoch\nF33 Memory\nmark 0\n\
     end 4 mark 0 life 0, 0 epoch 1 time 10, 3 epoch 1 time 20\nsent 1 asks from 0 no epoch\nend 0 mark 0 life 0\n";

#[test]
fn a_request_is_served(rt: HostRuntime) {
    is(&rt, played(rt.alloc(), 2, &LEADING, &SERVED), ALL_SERVED);
}

// This one holds also where an allocation is refused.
#[test]
fn a_request_without_memory_reports_nothing(rt: HostRuntime) {
    let found = played(rt.alloc(), 2, &LEADING, &SERVED);
    is_one_of(&rt, found, &[ALL_SERVED, NOT_SERVED]);
}
