//! What the command line asks for, done.

ghost use Rattle.std.specs.Prelude.{◌≡◌, ◌+◌, ◌<◌, ◌^◌, ℕ, List, Ok, Option};
ghost use Rattle.kp_types.specs.Devices.{faults_of};
ghost use Rattle.kp_race.specs.declared.outcome.Plan.{Plan as SomePlan};
ghost use Rattle.kp_cli.specs.declared.call.Call.TheVariants.{Race};
ghost use Rattle.kp_cli.specs.Perform.{Draws, Inspects, PerformsReading, RunsAndKeeps, RunsScript, limits_of, part_of, status_of};
ghost use Rattle.kp_cli.specs.Program.{PerformsCall};

use crate::Call;
use crate::devices::Explained;
use crate::piping::pipe;
use crate::racing::race_and_tell;
use crate::telling::refuse_since;
use kp_draw::{Lines, draw_script};
use kp_inspect::inspect;
use kp_race::{Outcome, Plan};
use kp_script::play_script;
use kp_types::{Counted, Folder, Limits, MAX_BATCH, NodeId, Refusal};
use std::alloc::Global;
use std::io::{Read, Write};
use std::mem::forget;

/// The exit status of a run that has come to its end, with so many events refused: 1 where there is one, else 0. What its nodes hold
/// isn't given back piece by piece, as the program ends here, and its memory with it. O(1).
pub(crate) fn end<T: Drop>(refused: u64, nodes: T) -> u8
    ensures { result ≡ status_of (Ok refused) }
{
    forget(nodes);
    u8::from(refused > 0)
}

/// A call that reads one file: what is told of it on standard output, and the exit status.
pub(crate) trait FileCall<R, W, E> {
    ghost use Rattle.kp_types.specs.declared.counted.Counted.{Counted};

    // What it leaves that reads the file at this path.
    ghost leaves: { Self → (path : List ℕ) → (file file_new : Counted R) → (out out_new : Counted W) → (err err_new : Counted E) → ℕ → Type 0 };

    /// Does it with what the reader holds, of which this is the path, and answers the exit status.
    fn read(
        self,
        alloc: Global,
        path: &str,
        reader: &mut Counted<R>,
        out: &mut Counted<W>,
        err: &mut Counted<E>,
    ) -> u8
        requires reads { faults_of reader.old + 1 < 2 ^ 64 }
        requires writes { faults_of out.old + 1 < 2 ^ 64 }
        requires complaints { faults_of err.old + 1 < 2 ^ 64 }
        ensures { Self.leaves self path.now reader.old reader.new out.old out.new err.old err.new result };
}

/// A run of a script that is kept: what it leaves in a folder besides.
pub(crate) trait KeptCall<R, K, W, E> {
    ghost use Rattle.kp_types.specs.declared.counted.Counted.{Counted};

    // What it leaves that reads the file at this path, and is kept in the folder at that one.
    ghost keeps: { Self → (path keep : List ℕ) → (file file_new : Counted R) → (folder folder_new : Counted K) → (out out_new : Counted W)
        → (err err_new : Counted E) → ℕ → Type 0 };

    /// Does it with what the reader holds and the folder that is taken, of which these are the paths, and answers the exit status.
    fn keep(
        self,
        alloc: Global,
        path: &str,
        keep: &str,
        reader: &mut Counted<R>,
        folder: &mut Counted<K>,
        out: &mut Counted<W>,
        err: &mut Counted<E>,
    ) -> u8
        requires reads { faults_of reader.old + 1 < 2 ^ 64 }
        requires puts { faults_of folder.old + 1 < 2 ^ 64 }
        requires writes { faults_of out.old + 1 < 2 ^ 64 }
        requires complaints { faults_of err.old + 1 < 2 ^ 64 }
        ensures { Self.keeps self path.now keep.now reader.old reader.new folder.old folder.new out.old out.new err.old err.new result };
}

/// Runs a script.
#[derive(Drop)]
pub(crate) struct Play;

impl<R: Read + Explained, W: Write, E: Write> FileCall<R, W, E> for Play {
    ghost leaves = { λ _ path. PerformsReading
        (record { remaining = R.remaining; file_fault = R.fault_is; held = W.contents; told = E.contents })
        path RunsScript };

    fn read(
        self,
        alloc: Global,
        path: &str,
        reader: &mut Counted<R>,
        out: &mut Counted<W>,
        err: &mut Counted<E>,
    ) -> u8 {
        let faults = reader.faults();
        match play_script(alloc, reader, out) {
            Ok(ended) => end(ended.refused(), ended),
            Err(refusal) => refuse_since(err, refusal, path, reader, faults),
        }
    }
}

impl<R: Read + Explained, K: Folder + Explained, W: Write, E: Write> KeptCall<R, K, W, E> for Play {
    ghost keeps = { λ _ path keep. RunsAndKeeps
        (record { remaining = R.remaining; file_fault = R.fault_is; held = W.contents; told = E.contents })
        (record { entries = K.entries; folder_fault = K.fault_is }) path keep };

    fn keep(
        self,
        alloc: Global,
        path: &str,
        keep: &str,
        reader: &mut Counted<R>,
        folder: &mut Counted<K>,
        out: &mut Counted<W>,
        err: &mut Counted<E>,
    ) -> u8 {
        run_and_keep(alloc, path, keep, reader, folder, out, err)
    }
}

/// Inspects a log, cut by these limits.
#[derive(Drop)]
pub(crate) struct Dump {
    limits: Limits,
}

impl Dump {
    /// Of a log that is cut by these two numbers.
    pub(crate) fn new(segment_bytes: u32, index_interval: u32) -> Dump
        ensures { result.limits ≡ limits_of segment_bytes index_interval }
    {
        Dump {
            limits: Limits {
                segment_bytes,
                index_interval,
                max_batch: MAX_BATCH,
            },
        }
    }
}

impl<R: Read + Explained, W: Write, E: Write> FileCall<R, W, E> for Dump {
    ghost leaves = { λ dump path. PerformsReading
        (record { remaining = R.remaining; file_fault = R.fault_is; held = W.contents; told = E.contents })
        path (Inspects dump.limits) };

    fn read(
        self,
        alloc: Global,
        path: &str,
        reader: &mut Counted<R>,
        out: &mut Counted<W>,
        err: &mut Counted<E>,
    ) -> u8 {
        let faults = reader.faults();
        match inspect(alloc, reader, out, &self.limits) {
            Ok(None) => 0,
            Ok(Some(_)) => 1,
            Err(refusal) => refuse_since(err, refusal, path, reader, faults),
        }
    }
}

/// Draws these lines of a script.
#[derive(Drop)]
pub(crate) struct Draw {
    lines: Lines,
}

impl Draw {
    /// From this line to that one.
    pub(crate) fn new(from: u32, to: u32) -> Draw
        ensures { result.lines ≡ part_of from to }
    {
        Draw {
            lines: Lines {
                from: u64::from(from),
                to: u64::from(to),
            },
        }
    }
}

impl<R: Read + Explained, W: Write, E: Write> FileCall<R, W, E> for Draw {
    ghost leaves = { λ draw path. PerformsReading
        (record { remaining = R.remaining; file_fault = R.fault_is; held = W.contents; told = E.contents })
        path (Draws draw.lines) };

    fn read(
        self,
        alloc: Global,
        path: &str,
        reader: &mut Counted<R>,
        out: &mut Counted<W>,
        err: &mut Counted<E>,
    ) -> u8 {
        let faults = reader.faults();
        match draw_script(alloc, reader, out, self.lines) {
            Ok(()) => 0,
            Err(refusal) => refuse_since(err, refusal, path, reader, faults),
        }
    }
}

/// Does what the call asks for, but for its folders, so that each node is new and nothing is kept, with the opened file as the reader,
/// and answers the exit status: 0 where no event or answer was refused, no fault was found and all nodes of a race agree, 1 where one or
/// more were, where they don't, and for F32, F33 and a refused race, 2 for F31. A picture that is drawn is 0, whatever is refused in it.
/// The trace, the dump, the picture, a pipe's answers or a race's lines go to standard output and a refusal of the whole call to standard
/// error; with F31 of a run or of a picture nothing is on standard output. A pipe reads the input, a race nothing. Takes time and memory
/// proportional to what is read and what is written of it, but for the race's own.
pub fn perform<
    R: Read + Explained,
    I: Read + Drop,
    W: Write,
    E: Write,
    X: FnOnce(NodeId, Plan) -> Result<Outcome, Refusal> + Drop,
>(
    alloc: Global,
    call: &Call,
    races: X,
    reader: &mut Counted<R>,
    input: I,
    out: &mut Counted<W>,
    err: &mut Counted<E>,
) -> u8
    requires races { (nodes : ℕ) (plan : SomePlan) → (call.now ≡ Race nodes plan) → X.pre races nodes plan }
    requires reads { faults_of reader.old + 1 < 2 ^ 64 }
    requires writes { faults_of out.old + 1 < 2 ^ 64 }
    requires complaints { faults_of err.old + 1 < 2 ^ 64 }
    ensures { PerformsCall
        (record { remaining = R.remaining; file_fault = R.fault_is; held = W.contents; told = E.contents })
        (X.post races) (I.remaining input) call.now reader.old reader.new out.old out.new err.old err.new result }
{
    match call {
        Call::Run { file, .. } => Play.read(alloc, file.as_str(), reader, out, err),
        Call::Inspect {
            file,
            segment_bytes,
            index_interval,
        } => Dump::new(*segment_bytes, *index_interval).read(
            alloc,
            file.as_str(),
            reader,
            out,
            err,
        ),
        Call::Draw { file, from, to } => {
            Draw::new(*from, *to).read(alloc, file.as_str(), reader, out, err)
        }
        Call::Pipe { .. } => pipe(alloc, input, out, err),
        Call::Race { nodes, plan } => race_and_tell(*nodes, *plan, races, out, err),
    }
}

/// Runs the script that the reader holds, as [`perform`] does, and once its trace is out puts what it leaves into the folder, as
/// [`kp_script::Ended::write_left`] does: the controller's record, and each node's log and state. Answers the exit status: 0 where no
/// event was refused, 1 where one or more were and for F32 and F33, 2 for F31. Where the run is refused nothing comes into the folder;
/// where the folder fails, or a growth is refused there, the whole trace is out, and a beginning of the files is there. O(n) in the
/// script and the logs.
pub fn run_and_keep<R: Read + Explained, K: Folder + Explained, W: Write, E: Write>(
    alloc: Global,
    file: &str,
    keep: &str,
    reader: &mut Counted<R>,
    folder: &mut Counted<K>,
    out: &mut Counted<W>,
    err: &mut Counted<E>,
) -> u8
    requires reads { faults_of reader.old + 1 < 2 ^ 64 }
    requires puts { faults_of folder.old + 1 < 2 ^ 64 }
    requires writes { faults_of out.old + 1 < 2 ^ 64 }
    requires complaints { faults_of err.old + 1 < 2 ^ 64 }
    ensures { RunsAndKeeps
        (record { remaining = R.remaining; file_fault = R.fault_is; held = W.contents; told = E.contents })
        (record { entries = K.entries; folder_fault = K.fault_is })
        file.now keep.now reader.old reader.new folder.old folder.new out.old out.new err.old err.new result }
{
    let read = reader.faults();
    let put = folder.faults();
    let ended = match play_script(alloc, reader, out) {
        Ok(ended) => ended,
        Err(refusal) => return refuse_since(err, refusal, file, reader, read),
    };
    match ended.write_left(alloc, folder) {
        Ok(()) => end(ended.refused(), ended),
        Err(refusal) => refuse_since(err, refusal, keep, folder, put),
    }
}
