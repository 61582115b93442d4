//! Scripts drawn: how many events a picture has, and what is written where a script is faulty or a device fails.

use kp_draw::{Lines, draw_script};
use kp_types::{Counted, Faulty, Refusal};
use std::alloc::Global;
use std::process::Abort;

const NONE_FAILS: u64 = 1_000;

// Line 1 is a comment, and lines 3 to 5 are events.
const SCRIPT: &[u8] =
    b"# An append.\nnodes 1 segment 1024 interval 0\nelect 0\nadopt 0\nappend 0 1 -1 -1 -1 d <&>\"\n";

// What is written, what is answered, and how many calls of the writer failed.
type Out = (Vec<u8>, Result<(), Refusal>, u64);

// The script drawn, where these calls of the reader and the writer fail.
fn drawn(alloc: Global, script: &[u8], part: Lines, read: u64, write: u64) -> Result<Out, Refusal> {
    let mut reader = Counted::new(Faulty::new(script.to_vec(alloc)?, read));
    let mut writer = Counted::new(Faulty::new(Vec::with_capacity(alloc, 65_536)?, write));
    let answered = draw_script(alloc, &mut reader, &mut writer, part);
    let written = writer.device().bytes.as_slice().to_vec(alloc)?;
    Ok((written, answered, writer.faults()))
}

// How often the word stands in the text.
fn count(text: &[u8], word: &[u8]) -> usize {
    let mut found = 0usize;
    for at in 0..text.len() {
        if text[at..].starts_with(word) {
            found = found.saturating_add(1);
        }
    }
    found
}

// A picture has so many events, and the word once.
fn has(rt: &impl Abort, out: Result<Out, Refusal>, events: usize, word: &[u8]) {
    match out {
        Ok((picture, answered, faults)) => {
            assert_eq!(rt; (answered, faults), (Ok(()), 0));
            assert_eq!(rt; count(&picture, b"<title>"), events);
            assert_eq!(rt; count(&picture, word), 1);
        }
        Err(refusal) => panic!(rt; "{refusal}"),
    }
}

// Nothing is written, and this is answered.
fn is_refused(rt: &impl Abort, out: Result<Out, Refusal>, refusal: Refusal, faults: u64) {
    match out {
        Ok((picture, answered, failed)) => {
            assert_eq!(rt;
                (picture.len(), answered, failed),
                (0, Err(refusal), faults)
            );
        }
        Err(refusal) => panic!(rt; "{refusal}"),
    }
}

#[test]
fn each_event_is_drawn_once(rt: HostRuntime) {
    let title = b"<title>append 0 1 -1 -1 -1 d &lt;&amp;&gt;&quot;\n5 at 0</title>";
    let all = drawn(rt.alloc(), SCRIPT, Lines::ALL, NONE_FAILS, NONE_FAILS);
    has(&rt, all, 3, title);
    let part = Lines { from: 4, to: 4 };
    let one = drawn(rt.alloc(), SCRIPT, part, NONE_FAILS, NONE_FAILS);
    has(
        &rt,
        one,
        1,
        b"<title>adopt 0\n4 leads epoch 0 from 0</title>",
    );
}

#[test]
fn nothing_is_drawn_where_it_is_refused(rt: HostRuntime) {
    let bad = b"nodes 1 segment 1024 interval 0\nelect 0\nelect 1\n";
    let faulty = drawn(rt.alloc(), bad, Lines::ALL, NONE_FAILS, NONE_FAILS);
    is_refused(&rt, faulty, Refusal::BadScript(3), 0);
    let unread = drawn(rt.alloc(), SCRIPT, Lines::ALL, 0, NONE_FAILS);
    is_refused(&rt, unread, Refusal::Device, 0);
    let unwritten = drawn(rt.alloc(), SCRIPT, Lines::ALL, NONE_FAILS, 0);
    is_refused(&rt, unwritten, Refusal::Device, 1);
}
