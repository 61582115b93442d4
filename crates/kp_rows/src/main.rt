//! The program `kp_rows`: does the command lines on its standard input as `kpart` does, over the files of `data/` and over
//! memory, and prints what each leaves. It stands on `kp_cli` for the commands and on `clap` for its refusals.
//! Its rows, files and wanted text are made by `tools/rows`; no contract speaks of it, and `docs/TESTS.md` says how to add a row.
#![tactic(auto)]

ghost use Rattle.std.specs.Prelude.{◌≡◌, ◌≤◌, ℕ};
ghost use Rattle.kp_race.specs.declared.outcome.Plan.{Plan as SomePlan};
ghost use Rattle.kp_cli.specs.declared.fault.Fault.TheVariants.{DiskFull, IsAFolder};

use kp_cli::{
    Call, Explained, Fault, KeptFolder, LeftSource, Source, call_of, main_with, perform,
    run_and_keep,
};
use kp_crc::crc32c;
use kp_folder::ReadFolder;
use kp_race::{Outcome, Plan, race_over_channels};
use kp_types::{Counted, Faulty, FaultyFolder, Folder, NodeId, Refusal};
use std::alloc::Global;
use std::fs;
use std::io::{self, ErrorKind, Read, Write};

/// The calls of the devices at which reading, writing and putting into a folder fail, the first being number 0; `u64::MAX` is
/// never.
#[derive(Clone, Copy)]
struct Failing {
    read: u64,
    write: u64,
    put: u64,
}

const NEVER: Failing = Failing {
    read: u64::MAX,
    write: u64::MAX,
    put: u64::MAX,
};

/// Prints what was left: the output, the complaint behind `! `, and the exit status.
fn show(rt: &HostRuntime, out: &[u8], err: &[u8], status: u8) -> io::Result<()> {
    rt.stdout().write_all(out)?;
    if !err.is_empty() {
        rt.stdout().write_all(b"! ")?;
        rt.stdout().write_all(err)?;
    }
    println!(rt; "status {status}")
}

/// A file of the folder, or bytes, of which the read of this number fails, as one of a folder does.
#[derive(Drop)]
struct GivenFile<'a> {
    rt: &'a HostRuntime,
    fails: u64,
    file: Faulty,
}

impl<'a> GivenFile<'a> {
    /// These bytes.
    fn of(rt: &'a HostRuntime, bytes: Vec<u8>, fails: u64) -> GivenFile<'a> {
        GivenFile {
            rt,
            fails,
            file: Faulty::new(bytes, fails),
        }
    }
}

impl Explained for GivenFile<'_> {
    ghost fault_is = { λ _. IsAFolder };

    fn fault(&self) -> Fault {
        Fault::IsAFolder
    }
}

impl Source for GivenFile<'_> {
    fn open(&mut self, path: &str) -> Result<(), Fault> {
        match fs::read(self.rt, path) {
            Ok(bytes) => {
                self.file = Faulty::new(bytes, self.fails);
                Ok(())
            }
            Err(error) => Err(Fault::of(&error)),
        }
    }
}

impl Read for GivenFile<'_> {
    fn read(&mut self, buf: &mut [u8]) -> io::Result<usize> {
        self.file.read(buf)
    }
}

/// A folder of the host, once it is entered.
#[derive(Drop)]
struct GivenLeft<'a> {
    rt: &'a HostRuntime,
    path: String,
}

impl<'a> GivenLeft<'a> {
    /// One that isn't entered.
    fn new(rt: &'a HostRuntime) -> GivenLeft<'a> {
        GivenLeft {
            rt,
            path: String::new(rt.alloc()),
        }
    }
}

impl Explained for GivenLeft<'_> {
    ghost fault_is = { λ _. IsAFolder };

    fn fault(&self) -> Fault {
        Fault::IsAFolder
    }
}

impl LeftSource for GivenLeft<'_> {
    fn enter(&mut self, path: &str) -> Result<(), Fault> {
        if path == "nowhere" {
            return Err(Fault::NoSuchFile);
        }
        match String::from_str(self.rt.alloc(), path) {
            Ok(path) => {
                self.path = path;
                Ok(())
            }
            Err(_) => Err(Fault::OutOfMemory),
        }
    }
}

impl ReadFolder for GivenLeft<'_> {
    fn file(&mut self, alloc: Global, name: &str) -> Result<Option<Vec<u8>>, Refusal> {
        let path = format!(in alloc; "{}/{name}", self.path)?;
        match fs::read(self.rt, path) {
            Ok(bytes) => Ok(Some(bytes)),
            Err(error) if error.kind() == ErrorKind::NotFound => Ok(None),
            Err(_) => Err(Refusal::Device),
        }
    }
}

/// A folder in memory, and the path at which it was taken, if it was; `full` isn't empty. The call of a given number fails, as
/// one on a full disk does.
#[derive(Drop)]
struct GivenFolder {
    alloc: Global,
    taken: Option<String>,
    folder: FaultyFolder,
}

impl GivenFolder {
    /// One that isn't taken.
    fn new(alloc: Global, fails: u64) -> GivenFolder {
        GivenFolder {
            alloc,
            taken: None,
            folder: FaultyFolder::new(alloc, fails),
        }
    }
}

impl Explained for GivenFolder {
    ghost fault_is = { λ _. DiskFull };

    fn fault(&self) -> Fault {
        Fault::DiskFull
    }
}

impl KeptFolder for GivenFolder {
    fn take(&mut self, path: &str) -> Result<(), Fault> {
        if path == "full" {
            return Err(Fault::NotEmpty);
        }
        match String::from_str(self.alloc, path) {
            Ok(path) => {
                self.taken = Some(path);
                Ok(())
            }
            Err(_) => Err(Fault::OutOfMemory),
        }
    }
}

impl Folder for GivenFolder {
    fn make_folder(&mut self, name: &str) -> Result<(), Refusal> {
        self.folder.make_folder(name)
    }

    fn begin(&mut self, name: &str) -> Result<(), Refusal> {
        self.folder.begin(name)
    }

    fn append(&mut self, bytes: &[u8]) -> Result<(), Refusal> {
        self.folder.append(bytes)
    }
}

/// Prints what stands in the folder: each folder, and each file with its size and its bytes.
fn show_folder(rt: &HostRuntime, folder: &GivenFolder) -> io::Result<()> {
    for (name, bytes) in &folder.folder.entries {
        match bytes {
            None => println!(rt; "folder {name}")?,
            Some(bytes) => {
                let digits = hex::encode(rt.alloc(), bytes.as_slice())?;
                println!(rt; "file {name} {} {digits}", bytes.len())?;
            }
        }
    }
    Ok(())
}

/// Prints at which path the folder was taken, if it was, and what stands in it.
fn show_taken(rt: &HostRuntime, folder: &GivenFolder) -> io::Result<()> {
    if let Some(path) = &folder.taken {
        println!(rt; "taken {path}")?;
    }
    show_folder(rt, folder)
}

/// The words, each in memory of its own.
fn handed(rt: &HostRuntime, words: &[&str]) -> io::Result<Vec<String>> {
    let mut handed = Vec::new(rt.alloc());
    for word in words {
        handed.push(word.to_string(rt.alloc())?)?;
    }
    Ok(handed)
}

/// Of words that are no call, prints the kind of clap's refusal, where the text went, and the status.
fn show_kind(rt: &HostRuntime, words: &[&str], told: &[u8], status: u8) -> io::Result<()> {
    match call_of(rt.alloc(), words) {
        Ok(_) => Ok(()),
        Err(error) => {
            let kind = error.kind();
            let place = if told.is_empty() { "error" } else { "output" };
            println!(rt; "no call: {kind:?} on standard {place}, status {status}")
        }
    }
}

/// Prints what a command line left: of words that are no call the kind of the refusal, then the text, the complaint and the status, and
/// last the folder that was taken.
fn show_left(
    rt: &HostRuntime,
    words: &[&str],
    told: &[u8],
    complaint: &[u8],
    status: u8,
    folder: &GivenFolder,
) -> io::Result<()> {
    show_kind(rt, words, told, status)?;
    show(rt, told, complaint, status)?;
    show_taken(rt, folder)
}

/// Does one command line, as the whole program does it, and shows what it leaves.
fn perform_words<X: Fn(NodeId, Plan) -> Result<Outcome, Refusal>>(
    rt: &HostRuntime,
    words: &[&str],
    input: Vec<u8>,
    failing: Failing,
    races: &X,
) -> io::Result<()>
    requires { (nodes : ℕ) (plan : SomePlan) → nodes ≤ 7 → X.pre races.now nodes plan }
{
    let handed = handed(rt, words)?;
    let mut out = Counted::new(Faulty::new(Vec::new(rt.alloc()), failing.write));
    let mut err = Counted::new(Vec::new(rt.alloc()));
    let once = |nodes: NodeId, plan: Plan| -> Result<Outcome, Refusal>
        requires { X.pre races.now nodes plan }
    { races(nodes, plan) };
    let left = main_with(
        rt.alloc(),
        Ok(handed),
        GivenFile::of(rt, Vec::new(rt.alloc()), failing.read),
        GivenLeft::new(rt),
        GivenFolder::new(rt.alloc(), failing.put),
        Faulty::new(input, failing.read),
        once,
        &mut out,
        &mut err,
    );
    let (told, complaint) = (out.device().bytes.as_slice(), err.device().as_slice());
    show_left(
        rt,
        words,
        told,
        complaint,
        left.status,
        left.folder.device(),
    )
}

/// Does one command line, of which a race isn't run: this comes of it, and its nodes are those that were asked for.
fn tell_words(
    rt: &HostRuntime,
    outcome: Outcome,
    words: &[&str],
    failing: Failing,
) -> io::Result<()> {
    let races = |nodes: NodeId, _plan: Plan| Ok(Outcome { nodes, ..outcome });
    perform_words(rt, words, Vec::new(rt.alloc()), failing, &races)
}

/// Does one command line, of which a race is refused.
fn refuse_words(rt: &HostRuntime, refusal: Refusal, words: &[&str]) -> io::Result<()> {
    let races = |_nodes: NodeId, _plan: Plan| -> Result<Outcome, Refusal> { Err(refusal) };
    perform_words(rt, words, Vec::new(rt.alloc()), NEVER, &races)
}

/// No race is asked for.
fn no_race(_nodes: NodeId, _plan: Plan) -> Result<Outcome, Refusal> {
    Err(Refusal::Down)
}

/// The call that runs a script of no file.
fn run_call(rt: &HostRuntime) -> io::Result<Call> {
    Ok(Call::Run {
        file: "script".to_string(rt.alloc())?,
        from: None,
        keep: None,
    })
}

/// No line.
fn no_input(rt: &HostRuntime) -> GivenFile<'_> {
    GivenFile::of(rt, Vec::new(rt.alloc()), NEVER.read)
}

/// Does the call over these bytes.
fn run_bytes(rt: &HostRuntime, call: &Call, bytes: Vec<u8>) -> io::Result<()> {
    let mut reader = Counted::new(GivenFile::of(rt, bytes, NEVER.read));
    let mut out = Counted::new(Vec::new(rt.alloc()));
    let mut err = Counted::new(Vec::new(rt.alloc()));
    let status = perform(
        rt.alloc(),
        call,
        no_race,
        &mut reader,
        no_input(rt),
        &mut out,
        &mut err,
    );
    show(rt, out.device().as_slice(), err.device().as_slice(), status)
}

/// Runs the script of a file and keeps its nodes' logs in a folder in memory, of which the call of this number fails. Gives
/// the folder, and prints what else the run leaves.
fn keep(rt: &HostRuntime, file: &str, put: u64) -> io::Result<Counted<GivenFolder>> {
    let mut reader = Counted::new(GivenFile::of(rt, fs::read(rt, file)?, NEVER.read));
    let mut folder = Counted::new(GivenFolder::new(rt.alloc(), put));
    let mut out = Counted::new(Vec::new(rt.alloc()));
    let mut err = Counted::new(Vec::new(rt.alloc()));
    let status = run_and_keep(
        rt.alloc(),
        file,
        "kept",
        &mut reader,
        &mut folder,
        &mut out,
        &mut err,
    );
    show(rt, out.device().as_slice(), err.device().as_slice(), status)?;
    Ok(folder)
}

/// Prints what stands in the folder in which a script's logs are kept, each file with its size and its bytes.
fn show_kept(rt: &HostRuntime, file: &str, put: u64) -> io::Result<()> {
    let folder = keep(rt, file, put)?;
    show_folder(rt, folder.device())
}

/// Inspects the files in which a node's log is kept at the end of a script's run, joined.
fn dump_kept(
    rt: &HostRuntime,
    file: &str,
    node: &str,
    segment: &str,
    interval: &str,
) -> io::Result<()> {
    let folder = keep(rt, file, NEVER.put)?;
    let place = format!(in rt.alloc(); "node-{node}/")?;
    let mut joined = Vec::new(rt.alloc());
    for (name, bytes) in &folder.device().folder.entries {
        if let Some(bytes) = bytes {
            if name.starts_with(place.as_str()) && name.ends_with(".log") {
                joined.extend_from_slice(bytes.as_slice())?;
            }
        }
    }
    let call = Call::Inspect {
        file: "log".to_string(rt.alloc())?,
        segment_bytes: segment.parse().unwrap_or(0),
        index_interval: interval.parse().unwrap_or(0),
    };
    run_bytes(rt, &call, joined)
}

/// Runs a script for each line of the file `lines`, between what two other files hold.
fn perform_each(rt: &HostRuntime, front: &str, lines: &str, back: &str) -> io::Result<()> {
    let front = fs::read_to_string(rt, front)?;
    let lines = fs::read_to_string(rt, lines)?;
    let back = fs::read_to_string(rt, back)?;
    for line in lines.as_str().split_terminator('\n') {
        println!(rt; "| {line}")?;
        let script = format!(in rt.alloc(); "{front}{line}\n{back}")?;
        let call = run_call(rt)?;
        run_bytes(rt, &call, script.into_bytes())?;
    }
    Ok(())
}

/// The script that a file begins and so many copies of another end.
fn repeated(rt: &HostRuntime, front: &str, piece: &str, count: &str) -> io::Result<Vec<u8>> {
    let mut script = fs::read(rt, front)?;
    let piece = fs::read(rt, piece)?;
    for _ in 0..count.parse::<u32>().unwrap_or(0) {
        script.extend_from_slice(piece.as_slice())?;
    }
    Ok(script)
}

/// Runs such a script.
fn perform_repeated(rt: &HostRuntime, front: &str, piece: &str, count: &str) -> io::Result<()> {
    let script = repeated(rt, front, piece, count)?;
    let call = run_call(rt)?;
    run_bytes(rt, &call, script)
}

/// Runs such a script, and prints of its output how many lines and bytes it has, and their checksum.
fn sum_repeated(rt: &HostRuntime, front: &str, piece: &str, count: &str) -> io::Result<()> {
    let script = repeated(rt, front, piece, count)?;
    let mut reader = Counted::new(GivenFile::of(rt, script, NEVER.read));
    let mut out = Counted::new(Vec::new(rt.alloc()));
    let mut err = Counted::new(Vec::new(rt.alloc()));
    let call = run_call(rt)?;
    let status = perform(
        rt.alloc(),
        &call,
        no_race,
        &mut reader,
        no_input(rt),
        &mut out,
        &mut err,
    );
    let told = out.device().as_slice();
    let lines = told.iter().filter(|byte| **byte == b'\n').count();
    let sum = format!(in rt.alloc();
        "lines {lines} bytes {} crc {:08x}\n",
        told.len(),
        crc32c(told)
    )?;
    show(rt, sum.as_bytes(), err.device().as_slice(), status)
}

/// The number of a device's call that fails.
fn number(word: &str) -> u64 {
    word.parse().unwrap_or(u64::MAX)
}

/// The numbers of the devices' calls that fail.
fn fails_at(read: &str, write: &str, put: &str) -> Failing {
    Failing {
        read: number(read),
        write: number(write),
        put: number(put),
    }
}

/// What a race comes to, whatever its nodes.
fn outcome_of(receipts: &str, acknowledged: &str, committed: &str, agree: &str) -> Outcome {
    Outcome {
        nodes: 0,
        receipts: number(receipts),
        acknowledged: number(acknowledged),
        committed: number(committed),
        agree: agree == "yes",
    }
}

/// Does one command line, behind which `< FILE` may say what stands on its standard input.
fn perform_given<X: Fn(NodeId, Plan) -> Result<Outcome, Refusal>>(
    rt: &HostRuntime,
    words: &[&str],
    failing: Failing,
    races: &X,
) -> io::Result<()>
    requires { (nodes : ℕ) (plan : SomePlan) → nodes ≤ 7 → X.pre races.now nodes plan }
{
    match words {
        [words @ .., "<", file] => perform_words(rt, words, fs::read(rt, file)?, failing, races),
        words => perform_words(rt, words, Vec::new(rt.alloc()), failing, races),
    }
}

/// Does one row: a command line, behind which `< FILE` may say what stands on its standard input; or one behind `fail READ WRITE PUT`; or `each FRONT LINES BACK`; or
/// `repeat FRONT PIECE COUNT`, or `sum` for `repeat`, which prints a sum; or `keep PUT SCRIPT`, which shows the files in which
/// a script's logs are kept; or `dump NODE SEGMENT INTERVAL SCRIPT`, which inspects those of a node; or a command line behind
/// `outcome WRITE RECEIPTS ACKNOWLEDGED COMMITTED yes`, or `no` for `yes`, of which a race comes out so, or behind `refused`, of
/// which a race is refused for want of memory. A line that begins with `#` is a heading.
fn perform_row<X: Fn(NodeId, Plan) -> Result<Outcome, Refusal>>(
    rt: &HostRuntime,
    row: &str,
    races: &X,
) -> io::Result<()>
    requires { (nodes : ℕ) (plan : SomePlan) → nodes ≤ 7 → X.pre races.now nodes plan }
{
    println!(rt; "> {row}")?;
    let words: Vec<&str> = row.split(' ').collect(rt.alloc())?;
    match words.as_slice() {
        ["#", ..] => Ok(()),
        ["each", front, lines, back] => perform_each(rt, front, lines, back),
        ["repeat", front, piece, count] => perform_repeated(rt, front, piece, count),
        ["sum", front, piece, count] => sum_repeated(rt, front, piece, count),
        ["keep", put, file] => show_kept(rt, file, number(put)),
        ["dump", node, segment, interval, file] => dump_kept(rt, file, node, segment, interval),
        ["fail", read, write, put, words @ ..] => {
            perform_given(rt, words, fails_at(read, write, put), races)
        }
        [
            "outcome",
            write,
            receipts,
            acknowledged,
            committed,
            agree,
            words @ ..,
        ] => {
            let outcome = outcome_of(receipts, acknowledged, committed, agree);
            tell_words(rt, outcome, words, fails_at("-", write, "-"))
        }
        ["refused", words @ ..] => refuse_words(rt, Refusal::Memory, words),
        words => perform_given(rt, words, NEVER, races),
    }
}

fn main(rt: HostRuntime) -> io::Result<()> {
    let races = |nodes: NodeId, plan: Plan| -> Result<Outcome, Refusal>
        requires { nodes ≤ 7 }
    { race_over_channels(&rt, rt.alloc(), nodes, &plan) };
    for row in rt.lines(rt.alloc()) {
        perform_row(&rt, row?.as_str(), &races)?;
    }
    Ok(())
}
