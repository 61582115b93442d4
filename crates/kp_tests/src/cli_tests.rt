//! What clap says where help is asked for or words are no call, and what is said where nothing is done.

use crate::shown::unrefused;
use kp_cli::{call_of, refuse};
use kp_types::{Counted, Faulty, Refusal};
use std::alloc::Global;
use std::process::Abort;

// What clap says where memory ran out.
const NO_MEMORY: &str = "error: out of memory\n";

// Whether the text of the words' refusal has this part, whether it goes to standard error, and the exit status behind it.
fn answer(alloc: Global, line: &str, part: &str) -> Result<(bool, bool, i32), Refusal> {
    let words: Vec<&str> = line.split(' ').collect(alloc)?;
    match call_of(alloc, words.as_slice()) {
        Ok(_) => Err(Refusal::BadScript(0)),
        Err(error) => {
            let text = format!(in alloc; "{error}")?;
            if text.as_str() == NO_MEMORY {
                return Err(Refusal::Memory);
            }
            Ok((
                text.as_str().contains(part),
                error.use_stderr(),
                error.exit_code(),
            ))
        }
    }
}

// Words, and a part of what is told of them.
static HELP: [(&str, &str); 10] = [
    (
        "kpart --help",
        "A replicated partition log with Kafka's replication rules",
    ),
    ("kpart --help", "Runs a script and prints its trace"),
    ("kpart --version", "kpart 0.1.0\n"),
    ("kpart run --help", "the script to run"),
    ("kpart run --help", "--keep <FOLDER>"),
    ("kpart inspect --help", "the log to read"),
    ("kpart inspect --help", "--segment <S>"),
    ("kpart inspect --help", "[default: 1073741824]"),
    ("kpart inspect --help", "--interval <I>"),
    ("kpart inspect --help", "[default: 4096]"),
];

// No contract says clap's texts.
#[test]
fn help_has_the_texts(rt: HostRuntime) {
    for (line, part) in &HELP {
        assert_eq!(rt;
            answer(rt.alloc(), line, part),
            Ok((true, false, 0)),
            "{line}: {part}"
        );
    }
}

#[test]
fn a_mistake_is_named(rt: HostRuntime) {
    assert_eq!(rt;
        answer(rt.alloc(), "kpart walk", "walk"),
        Ok((true, true, 2))
    );
}

// What is left on standard error, how often it failed, and the exit status.
type Left = (Vec<u8>, u64, u8);

// What is left where this call of it fails. There is room for all bytes from the start.
fn refused(alloc: Global, refusal: Refusal, fails: u64) -> Result<Left, Refusal> {
    let mut err = Counted::new(Faulty::new(Vec::with_capacity(alloc, 64)?, fails));
    let status = refuse(&mut err, refusal);
    let told = err.device().bytes.as_slice().to_vec(alloc)?;
    Ok((told, err.faults(), status))
}

fn leaves(rt: &impl Abort, found: Result<Left, Refusal>, told: &[u8], failed: u64, status: u8) {
    let left = unrefused(rt, found);
    assert_eq!(rt; (left.0.as_slice(), left.1, left.2), (told, failed, status));
}

#[test]
fn a_failed_complaint_keeps_the_status(rt: HostRuntime) {
    let alloc = rt.alloc();
    leaves(&rt, refused(alloc, Refusal::BadScript(3), 0), b"", 1, 2);
    leaves(&rt, refused(alloc, Refusal::Device, 0), b"", 1, 1);
    let told = b"kpart: F31 BadScript 3\n";
    leaves(&rt, refused(alloc, Refusal::BadScript(3), 9), told, 0, 2);
}
