//! The receipts of a run, and a marker that is handed in.

ghost use Rattle.std.specs.Prelude.{◌≡◌, ◌<◌, ◌≤◌};
ghost use Rattle.std.specs.List.{AllByRecursion};
ghost use Rattle.kp_world.specs.declared.event.Event.TheVariants.{Acts};
ghost use Rattle.kp_world.specs.Events.{IsAmong};

use crate::logs::batch_of;
use crate::shown::is;
use bytes::Bytes;
use kp_batch::Handed;
use kp_marker::{HandedMarker, Kind, Marker};
use kp_replica::{Act, Answer, PlainAct, Receipt};
use kp_script::{Call, Line, Section, push_trace};
use kp_types::{Limits, MAX_BATCH, NodeId, Refusal};
use kp_world::{Event, EventAnswer, Trace, run};
use std::alloc::{AllocError, Global};

// The bytes of the batch of a word.
pub(crate) fn bytes_of(alloc: Global, word: &str) -> Result<Handed, Refusal> {
    let mut out = Vec::new(alloc);
    batch_of(alloc, word)?.write(&mut out)?;
    Ok(Handed::raw(Bytes::from_vec(out)?))
}

// The text of a trace of events that show node 5, the first in line 2.
fn trace_of(alloc: Global, outcomes: &[Result<EventAnswer, Refusal>]) -> Result<String, Refusal> {
    let mut lines = Vec::new(alloc);
    for number in 0..outcomes.len() {
        lines.push(Line {
            number: number as u64 + 2,
            call: Call::Acts {
                node: 5,
                act: PlainAct::Show,
            },
        })?;
    }
    if lines.len() != outcomes.len() {
        return Err(Refusal::BadCount);
    }
    let mut text = Vec::new(alloc);
    push_trace(&mut text, lines.as_slice(), outcomes)?;
    match String::from_utf8(text) {
        Ok(text) => Ok(text),
        Err(_) => Err(Refusal::BadRecord(0)),
    }
}

// Whether a section gives back the events that are put into it.
fn is_kept(alloc: Global) -> Result<bool, Refusal> {
    let first = Line {
        number: 2,
        call: Call::Elect { node: 1 },
    };
    let last = Line {
        number: 5,
        call: Call::Raw {
            node: 0,
            digits: b"7f",
        },
    };
    let mut section = Section::new(alloc);
    section.push(first)?;
    section.push(Line { number: 3, ..last })?;
    section.push(last)?;
    if section.len() != 3 {
        return Ok(false);
    }
    Ok(match (section.line(0).call, section.line(2).call) {
        (
            Call::Elect { node: 1 },
            Call::Raw {
                node: 0,
                digits: b"7f",
            },
        ) => { (section.line(0).number, section.line(2).number) == (2, 5) }
        _ => false,
    })
}

// Of which a segment has room for one batch of 69 bytes.
const LIMITS: Limits = Limits {
    segment_bytes: 137,
    index_interval: 0,
    max_batch: MAX_BATCH,
};

// The answers of a run, as the trace of events that name node 5, and the whole of each receipt. A run stops where its own lists
// can't grow.
fn played(alloc: Global, count: NodeId, events: Vec<Event>) -> Result<String, Refusal>
    requires some { 0 < count }
    requires most { count ≤ 7 }
    requires nodes { AllByRecursion (IsAmong count 0) events.items }
{
    match run(alloc, count, &LIMITS, events) {
        Ok(trace) => told_run(alloc, &trace),
        Err(_) => Err(Refusal::Memory),
    }
}

fn told_run(alloc: Global, trace: &Trace) -> Result<String, Refusal> {
    let mut text = trace_of(alloc, &trace.outcomes)?;
    for outcome in trace.outcomes.iter() {
        if let Ok(EventAnswer::Answered(Answer::Appended(receipt))) = outcome {
            push_receipt(&mut text, receipt)?;
        }
    }
    Ok(text)
}

fn push_receipt(text: &mut String, receipt: &Receipt) -> Result<(), AllocError> {
    let (base, last) = (receipt.base, receipt.last);
    write!(
        text,
        "{base} to {last} epoch {} {}, ",
        receipt.epoch, receipt.duplicate
    )
}

fn acts(node: NodeId, act: Act) -> Event
    ensures { result ≡ Acts node act }
{
    Event::Acts { node, act }
}

pub(crate) const MARKER: Marker = Marker {
    producer_id: 5,
    producer_epoch: 0,
    coordinator_epoch: 7,
    kind: Kind::Abort,
    timestamp: 20,
};

// A marker with a field out of its range is none that can be handed in.
#[test]
fn markers_have_ranges(rt: HostRuntime) {
    assert!(rt; HandedMarker::new(MARKER).is_some());
    let late = Marker {
        timestamp: 1 << 62,
        ..MARKER
    };
    assert!(rt; HandedMarker::new(late).is_none());
}

// Three records come twice, the second time in the leader's next epoch.
fn three_twice(alloc: Global) -> Result<String, Refusal> {
    let marker = HandedMarker::new(MARKER).ok_or(Refusal::BadCount)?;
    let bytes = bytes_of(alloc, "d9.0.0.3")?;
    let again = bytes.share()?;
    let events = vec![in alloc;
        Event::Elect { node: 0 },
        acts(0, Act::Plain(PlainAct::Adopt)),
        acts(0, Act::Plain(PlainAct::Mark { marker })),
        acts(0, Act::Produce { bytes }),
        Event::Elect { node: 0 },
        acts(0, Act::Plain(PlainAct::Adopt)),
        acts(0, Act::Produce { bytes: again }),
        acts(0, Act::Plain(PlainAct::Mark { marker })),
        acts(0, Act::Plain(PlainAct::Raise)),
        acts(0, Act::Plain(PlainAct::Committed { from: 2 })),
        acts(0, Act::Plain(PlainAct::Read { from: 3 })),
    ]?;
    played(alloc, 1, events)
}

// The duplicate's receipt has the last offset and the epoch of the batch that stands.
#[test]
fn receipts_name_what_stands(rt: HostRuntime) {
    assert_eq!(rt; is_kept(rt.alloc()), Ok(true));
    is(
        &rt,
        three_twice(rt.alloc()),
        "2 record leader 0 epoch 0 isr 0 version 1\n3 leads epoch 0 from 0\n4 at 0\n5 at 1\n\
         6 record leader 0 epoch 1 isr 0 version 2\n7 leads epoch 1 from 4\n8 duplicate 1\n9 at 4\n10 mark 5\n\
         11 read 2 2=61 3=61\n12 read 1 3=61\n\
         0 to 0 epoch 0 false, 1 to 3 epoch 0 false, 1 to 3 epoch 0 true, 4 to 4 epoch 1 false, ",
    );
}
