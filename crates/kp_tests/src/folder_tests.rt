//! Folders that a run has left, as files in memory.

use crate::shown::is;
use kp_folder::{FolderFault, KeptFile, LeftFolder, ReadFolder, read_left};
use kp_types::{Limits, MAX_BATCH, Refusal};
use std::alloc::{AllocError, Global};

type File = (&'static str, &'static [u8]);

// Files in memory. One without bytes can't be read.
#[derive(Drop)]
struct Files {
    all: &'static [File],
}

impl ReadFolder for Files {
    fn file(&mut self, alloc: Global, name: &str) -> Result<Option<Vec<u8>>, Refusal> {
        for (own, bytes) in self.all {
            if *own == name {
                if bytes.is_empty() {
                    return Err(Refusal::Device);
                }
                return Ok(Some(Vec::from_slice(alloc, bytes)?));
            }
        }
        Ok(None)
    }
}

const LIMITS: Limits = Limits {
    segment_bytes: 1024,
    index_interval: 0,
    max_batch: MAX_BATCH,
};

const RECORD: &[u8] =
    b"kpart record 1\nnodes 1\nleader 0 epoch 2 isr 0 version 3\nmessages 4\ncrc 61e9bf29\n";

const OF_TWO: &[u8] =
    b"kpart record 1\nnodes 2\nleader 0 epoch 2 isr 0,1 version 3\nmessages 4\ncrc a19eed8e\n";

const STATE: &[u8] =
    b"kpart node 1\ncheckpoint 1 life 6 epoch 2\nend 2\nepochs 1:0,2:1\ncrc c26b2d23\n";

const LAST_LIFE: &[u8] =
    b"kpart node 1\ncheckpoint 1 life 18446744073709551615 epoch 2\nend 2\nepochs 1:0,2:1\ncrc 1815ea7b\n";

// A batch of epoch 1 at offset 0, and one of epoch 2 at offset 1; the same of another epoch, which its checksum doesn't cover, and with
// another value, which it does.
const FIRST: &[u8] =
    b"\x00\x00\x00\x00\x00\x00\x00\x00\x00\x00\x009\x00\x00\x00\x01\x02\xd5\xed~{\x00\x00\x00\x00\x00\x00\x00\x00\
    \x00\x00\x00\x00\x00\x0a\x00\x00\x00\x00\x00\x00\x00\x0a\xff\xff\xff\xff\xff\xff\xff\xff\xff\xff\xff\xff\xff\
    \xff\x00\x00\x00\x01\x0e\x00\x00\x00\x01\x02a\x00";

const SECOND: &[u8] =
    b"\x00\x00\x00\x00\x00\x00\x00\x01\x00\x00\x009\x00\x00\x00\x02\x02\xf3\x07\x0c\xf5\x00\x00\x00\x00\x00\x00\x00\
    \x00\x00\x00\x00\x00\x00\x14\x00\x00\x00\x00\x00\x00\x00\x14\xff\xff\xff\xff\xff\xff\xff\xff\xff\xff\xff\xff\
    \xff\xff\x00\x00\x00\x01\x0e\x00\x00\x00\x01\x02b\x00";

const OF_EPOCH_3: &[u8] =
    b"\x00\x00\x00\x00\x00\x00\x00\x01\x00\x00\x009\x00\x00\x00\x03\x02\xf3\x07\x0c\xf5\x00\x00\x00\x00\x00\x00\x00\
    \x00\x00\x00\x00\x00\x00\x14\x00\x00\x00\x00\x00\x00\x00\x14\xff\xff\xff\xff\xff\xff\xff\xff\xff\xff\xff\xff\
    \xff\xff\x00\x00\x00\x01\x0e\x00\x00\x00\x01\x02b\x00";

const OF_ANOTHER_VALUE: &[u8] =
    b"\x00\x00\x00\x00\x00\x00\x00\x01\x00\x00\x009\x00\x00\x00\x02\x02\xf3\x07\x0c\xf5\x00\x00\x00\x00\x00\x00\x00\
    \x00\x00\x00\x00\x00\x00\x14\x00\x00\x00\x00\x00\x00\x00\x14\xff\xff\xff\xff\xff\xff\xff\xff\xff\xff\xff\xff\
    \xff\xff\x00\x00\x00\x01\x0e\x00\x00\x00\x01\x02c\x00";

static FOLDERS: [&[File]; 11] = [
    &[
        ("record", RECORD),
        ("node-0/state", STATE),
        ("node-0/00000000000000000000.log", FIRST),
        ("node-0/00000000000000000001.log", SECOND),
    ],
    &[
        ("record", OF_TWO),
        ("node-0/state", STATE),
        ("node-0/00000000000000000000.log", FIRST),
        ("node-0/00000000000000000001.log", SECOND),
    ],
    &[
        ("record", RECORD),
        ("node-0/00000000000000000000.log", FIRST),
        ("node-0/00000000000000000001.log", SECOND),
    ],
    &[
        ("record", RECORD),
        ("node-0/state", STATE),
        ("node-0/00000000000000000000.log", FIRST),
    ],
    &[
        ("record", RECORD),
        ("node-0/state", STATE),
        ("node-0/00000000000000000000.log", FIRST),
        ("node-0/00000000000000000001.log", OF_ANOTHER_VALUE),
    ],
    &[
        ("record", RECORD),
        ("node-0/state", STATE),
        ("node-0/00000000000000000000.log", FIRST),
        ("node-0/00000000000000000001.log", OF_EPOCH_3),
    ],
    &[
        ("record", RECORD),
        ("node-0/state", STATE),
        ("node-0/00000000000000000000.log", FIRST),
        ("node-0/00000000000000000001.log", FIRST),
    ],
    &[
        ("record", RECORD),
        ("node-0/state", LAST_LIFE),
        ("node-0/00000000000000000000.log", FIRST),
        ("node-0/00000000000000000001.log", SECOND),
    ],
    &[("record", b""), ("node-0/state", STATE)],
    &[("record", RECORD), ("node-0/state", b"")],
    &[
        ("record", RECORD),
        ("node-0/state", STATE),
        ("node-0/00000000000000000000.log", FIRST),
        ("node-0/00000000000000000001.log", b""),
    ],
];

fn push_file(text: &mut String, file: KeptFile) -> Result<(), AllocError> {
    match file {
        KeptFile::Record => text.push_str(" record\n"),
        KeptFile::State(node) => writeln!(text, " state of {node}"),
        KeptFile::Segment(node, from) => writeln!(text, " segment {from} of {node}"),
    }
}

fn push_fault(text: &mut String, fault: FolderFault) -> Result<(), AllocError> {
    write!(text, "{}", fault.refusal())?;
    match fault {
        FolderFault::NoMemory => text.push('\n'),
        FolderFault::Unread(file) | FolderFault::BadFile(file) => push_file(text, file),
        FolderFault::BadBatch(node, from, place, _) => {
            writeln!(text, " at {place} of segment {from} of {node}")
        }
        FolderFault::BadNode(node, _) => writeln!(text, " of {node}"),
    }
}

fn push_left(text: &mut String, left: &LeftFolder) -> Result<(), AllocError> {
    write!(text, "version {}", left.controller.version)?;
    for kept in &left.nodes {
        let (life, end, mark) = (kept.life(), kept.log().end_offset(), kept.watermark());
        write!(text, ", life {life} end {end} mark {mark}")?;
    }
    match left.messages {
        Some(sent) => writeln!(text, ", sent {sent}"),
        None => text.push('\n'),
    }
}

fn all_read(alloc: Global) -> Result<String, Refusal> {
    let mut text = String::new(alloc);
    for all in FOLDERS {
        match read_left(alloc, &mut Files { all }, &LIMITS, 1) {
            Ok(left) => push_left(&mut text, &left)?,
            Err(fault) => push_fault(&mut text, fault)?,
        }
    }
    Ok(text)
}

#[test]
fn a_folder_is_read(rt: HostRuntime) {
    is(
        &rt,
        all_read(rt.alloc()),
        "version 3, life 7 end 2 mark 1, sent 4\nF35 BadFolder record\nF35 BadFolder state of 0\nF35 BadFolder segment 1 of 0\n\
         F4 BadCrc at 0 of segment 1 of 0\nF35 BadFolder state of 0\nF35 BadFolder segment 1 of 0\nF24 RecordFull of 0\n\
         F32 Device record\nF32 Device state of 0\nF32 Device segment 1 of 0\n",
    );
}
