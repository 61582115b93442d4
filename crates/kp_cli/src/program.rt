//! The whole program: from the words of the command line to the exit status.

ghost use Rattle.std.specs.Prelude.{◌≡◌, ◌+◌, ◌<◌, ◌≤◌, ◌^◌, ℕ, map, string_bytes};
ghost use Rattle.kp_types.specs.Devices.{faults_of};
ghost use Rattle.kp_race.specs.declared.outcome.Plan.{Plan as SomePlan};
ghost use Rattle.kp_cli.specs.declared.call.Call.TheVariants.{Race};
ghost use Rattle.kp_cli.specs.Program.{Asked, Ends, EndsAsked, Explains, ExplainsBy, IsAsked, IsLeft, RunsInto, PipesInto, Reads};

use crate::Call;
use crate::devices::{KeptFolder, LeftSource, Source};
use crate::fault::Fault;
use crate::left::PlayLeft;
use crate::line::call_of;
use crate::piping::{pipe, pipe_and_keep};
use crate::racing::race_and_tell;
use crate::running::{Draw, Dump, FileCall, KeptCall, Play};
use crate::telling::{refuse, refuse_path, refuse_words, tame};
use clap::error::ErrorKind;
use kp_race::{Outcome, Plan};
use kp_types::{Counted, NodeId, Refusal};
use std::alloc::Global;
use std::fmt::Display;
use std::io::{Read, Write};

/// What the program leaves: its exit status, and the file and the folder that it was handed, each with the count of its calls
/// that failed.
#[derive(Drop)]
pub struct Left<F, K> {
    /// The exit status.
    pub status: u8,
    /// The file that was read, if one was.
    pub file: Counted<F>,
    /// The folder that what was left is kept in, if it is.
    pub folder: Counted<K>,
}

/// Says what clap says, by its kind and a text that is shown as it is, and answers the exit status.
fn say<W: Write, E: Write>(
    kind: ErrorKind,
    text: &[u8],
    out: &mut Counted<W>,
    err: &mut Counted<E>,
) -> u8
    requires writes { faults_of out.old + 1 < 2 ^ 64 }
    requires complaints { faults_of err.old + 1 < 2 ^ 64 }
    ensures { Explains W.contents E.contents kind text.now out.old out.new err.old err.new result }
{
    match kind {
        ErrorKind::OutOfMemory => refuse(err, Refusal::Memory),
        ErrorKind::DisplayHelp | ErrorKind::DisplayVersion => match out.write_all(text) {
            Ok(()) => 0,
            Err(refusal) => refuse(err, refusal),
        },
        _ => match err.write_all(text) {
            Ok(()) => 2,
            Err(_) => 1,
        },
    }
}

/// Says why words are no call, or what was asked for instead of one, by clap's kind of it and its text, and answers the exit status:
/// 0 for help and the version, which go to standard output, 2 for a mistake, which goes to standard error, and 1 where one of
/// them failed or memory ran out. The text quotes words, so what a terminal would obey in it stands as `\xHH`. O(n) in the text.
pub fn explain<D: Display, W: Write, E: Write>(
    alloc: Global,
    kind: ErrorKind,
    text: &D,
    out: &mut Counted<W>,
    err: &mut Counted<E>,
) -> u8
    requires writes { faults_of out.old + 1 < 2 ^ 64 }
    requires complaints { faults_of err.old + 1 < 2 ^ 64 }
    ensures { ExplainsBy W.contents E.contents kind (D.output text.now) out.old out.new err.old err.new result }
{
    let Ok(text) = text.to_string(alloc) else {
        return refuse(err, Refusal::Memory);
    };
    match tame(alloc, text.as_bytes()) {
        Ok(tame) => say(kind, tame.as_slice(), out, err),
        Err(_) => refuse(err, Refusal::Memory),
    }
}

/// Does what the words ask for, of which the first is the program's name, with a file of which none is open, a folder of which none is
/// entered, one of which none is taken, and with what runs a race of at most seven nodes. The exit status is that of
/// [`perform`](crate::perform) where there is no folder, and else that of [`run_and_keep`](crate::run_and_keep) or [`pipe_and_keep`]; 1 where the
/// file can't be opened or a folder not be taken or entered, with a second line on standard error that says which one and why, before
/// anything is read, and where the folder that is entered has nothing that a run has left, with a second line that says where in it; that of
/// [`explain`] where the words are no call; 2 where one isn't UTF-8; and 1 where memory ran out before. A pipe reads standard input and
/// leaves the file alone, and so does a race. Without a call that keeps what is left, and before its file is open, the folder that is
/// taken is left alone. Time and memory are those of the call, and of [`kp_folder::read_left`].
pub fn main_with<
    F: Source + Drop,
    L: LeftSource + Drop,
    K: KeptFolder + Drop,
    I: Read + Drop,
    W: Write,
    E: Write,
    X: FnOnce(NodeId, Plan) -> Result<Outcome, Refusal> + Drop,
>(
    alloc: Global,
    words: Result<Vec<String>, Fault>,
    file: F,
    left: L,
    folder: K,
    input: I,
    races: X,
    out: &mut Counted<W>,
    err: &mut Counted<E>,
) -> Left<F, K>
    requires races { (nodes : ℕ) (plan : SomePlan) → nodes ≤ 7 → X.pre races nodes plan }
    requires writes { faults_of out.old + 1 < 2 ^ 64 }
    requires complaints { faults_of err.old + 1 < 2 ^ 64 }
    ensures { (asked : Asked) × IsAsked (λ all. map string_bytes all.items) words asked
        × Ends (record {
          opens = F.opens;
          takes = K.takes;
          streams = record { remaining = F.remaining; file_fault = F.fault_is; held = W.contents; told = E.contents };
          shelf = record { entries = K.entries; folder_fault = K.fault_is };
        }) (record { enters = L.enters; files = L.files; left_fault = L.fault_is }) left (X.post races) (I.remaining input) asked (record {
          file = file;
          file_left = result.file;
          folder = folder;
          folder_left = result.folder;
          out = out.old;
          out_left = out.new;
          err = err.old;
          err_left = err.new;
        }) result.status }
{
    let words = match words {
        Ok(words) => words,
        Err(fault) => return leave(refuse_words(err, fault), file, folder),
    };
    match call_of(alloc, words.as_slice()) {
        Ok(call) => called(alloc, &call, file, left, folder, input, races, out, err),
        Err(error) => {
            let status = explain(alloc, error.kind(), &error, out, err);
            leave(status, file, folder)
        }
    }
}

/// Does what [`main_with`] does, with words that ask for this call.
fn called<
    F: Source + Drop,
    L: LeftSource + Drop,
    K: KeptFolder + Drop,
    I: Read + Drop,
    W: Write,
    E: Write,
    X: FnOnce(NodeId, Plan) -> Result<Outcome, Refusal> + Drop,
>(
    alloc: Global,
    call: &Call,
    file: F,
    left: L,
    folder: K,
    input: I,
    races: X,
    out: &mut Counted<W>,
    err: &mut Counted<E>,
) -> Left<F, K>
    requires races { (nodes : ℕ) (plan : SomePlan) → (call.now ≡ Race nodes plan) → X.pre races nodes plan }
    requires writes { faults_of out.old + 1 < 2 ^ 64 }
    requires complaints { faults_of err.old + 1 < 2 ^ 64 }
    ensures { EndsAsked (record {
      opens = F.opens;
      takes = K.takes;
      streams = record { remaining = F.remaining; file_fault = F.fault_is; held = W.contents; told = E.contents };
      shelf = record { entries = K.entries; folder_fault = K.fault_is };
    }) (record { enters = L.enters; files = L.files; left_fault = L.fault_is }) left (X.post races) (I.remaining input) call.now (record {
      file = file;
      file_left = result.file;
      folder = folder;
      folder_left = result.folder;
      out = out.old;
      out_left = out.new;
      err = err.old;
      err_left = err.new;
    }) result.status }
{
    match call {
        Call::Run {
            file: path,
            from: None,
            keep: None,
        } => opened(alloc, path.as_str(), Play, file, folder, out, err),
        Call::Run {
            file: path,
            from: None,
            keep: Some(keep),
        } => opened_and_kept(
            alloc,
            path.as_str(),
            keep.as_str(),
            Play,
            file,
            folder,
            out,
            err,
        ),
        Call::Run {
            file: path,
            from: Some(from),
            keep: None,
        } => {
            let from = from.as_str();
            let call = PlayLeft { left, from };
            opened(alloc, path.as_str(), call, file, folder, out, err)
        }
        Call::Run {
            file: path,
            from: Some(from),
            keep: Some(keep),
        } => {
            let from = from.as_str();
            let call = PlayLeft { left, from };
            opened_and_kept(
                alloc,
                path.as_str(),
                keep.as_str(),
                call,
                file,
                folder,
                out,
                err,
            )
        }
        Call::Inspect {
            file: path,
            segment_bytes,
            index_interval,
        } => {
            let dump = Dump::new(*segment_bytes, *index_interval);
            opened(alloc, path.as_str(), dump, file, folder, out, err)
        }
        Call::Draw {
            file: path,
            from,
            to,
        } => {
            let draw = Draw::new(*from, *to);
            opened(alloc, path.as_str(), draw, file, folder, out, err)
        }
        Call::Pipe { keep: None } => leave(pipe(alloc, input, out, err), file, folder),
        Call::Pipe { keep: Some(keep) } => {
            piped_and_kept(alloc, keep.as_str(), input, file, folder, out, err)
        }
        Call::Race { nodes, plan } => {
            leave(race_and_tell(*nodes, *plan, races, out, err), file, folder)
        }
    }
}

/// Does the call that reads the file at this path.
fn opened<F: Source + Drop, K: KeptFolder + Drop, W: Write, E: Write, C: FileCall<F, W, E> + Drop>(
    alloc: Global,
    path: &str,
    call: C,
    file: F,
    folder: K,
    out: &mut Counted<W>,
    err: &mut Counted<E>,
) -> Left<F, K>
    requires writes { faults_of out.old + 1 < 2 ^ 64 }
    requires complaints { faults_of err.old + 1 < 2 ^ 64 }
    ensures { Reads (record {
      opens = F.opens;
      takes = K.takes;
      streams = record { remaining = F.remaining; file_fault = F.fault_is; held = W.contents; told = E.contents };
      shelf = record { entries = K.entries; folder_fault = K.fault_is };
    }) path.now (C.leaves call path.now) (record {
      file = file;
      file_left = result.file;
      folder = folder;
      folder_left = result.folder;
      out = out.old;
      out_left = out.new;
      err = err.old;
      err_left = err.new;
    }) result.status }
{
    let mut file = file;
    if let Err(fault) = file.open(path) {
        return leave(refuse_path(err, path, fault), file, folder);
    }
    let mut file = Counted::new(file);
    let status = call.read(alloc, path, &mut file, out, err);
    Left {
        status,
        file,
        folder: Counted::new(folder),
    }
}

/// Does the call that runs the script at this path, and keeps what it leaves in the folder at that one.
fn opened_and_kept<
    F: Source + Drop,
    K: KeptFolder + Drop,
    W: Write,
    E: Write,
    C: KeptCall<F, K, W, E> + Drop,
>(
    alloc: Global,
    script: &str,
    keep: &str,
    call: C,
    file: F,
    folder: K,
    out: &mut Counted<W>,
    err: &mut Counted<E>,
) -> Left<F, K>
    requires writes { faults_of out.old + 1 < 2 ^ 64 }
    requires complaints { faults_of err.old + 1 < 2 ^ 64 }
    ensures { RunsInto (record {
      opens = F.opens;
      takes = K.takes;
      streams = record { remaining = F.remaining; file_fault = F.fault_is; held = W.contents; told = E.contents };
      shelf = record { entries = K.entries; folder_fault = K.fault_is };
    }) script.now keep.now (C.keeps call script.now keep.now) (record {
      file = file;
      file_left = result.file;
      folder = folder;
      folder_left = result.folder;
      out = out.old;
      out_left = out.new;
      err = err.old;
      err_left = err.new;
    }) result.status }
{
    let mut file = file;
    if let Err(fault) = file.open(script) {
        return leave(refuse_path(err, script, fault), file, folder);
    }
    let mut folder = folder;
    if let Err(fault) = folder.take(keep) {
        return leave(refuse_path(err, keep, fault), file, folder);
    }
    let mut file = Counted::new(file);
    let mut folder = Counted::new(folder);
    let status = call.keep(alloc, script, keep, &mut file, &mut folder, out, err);
    Left {
        status,
        file,
        folder,
    }
}

/// Plays the lines of standard input, and keeps what they leave in the folder at this path.
fn piped_and_kept<F: Source + Drop, K: KeptFolder + Drop, I: Read + Drop, W: Write, E: Write>(
    alloc: Global,
    keep: &str,
    input: I,
    file: F,
    folder: K,
    out: &mut Counted<W>,
    err: &mut Counted<E>,
) -> Left<F, K>
    requires writes { faults_of out.old + 1 < 2 ^ 64 }
    requires complaints { faults_of err.old + 1 < 2 ^ 64 }
    ensures { PipesInto (record {
      opens = F.opens;
      takes = K.takes;
      streams = record { remaining = F.remaining; file_fault = F.fault_is; held = W.contents; told = E.contents };
      shelf = record { entries = K.entries; folder_fault = K.fault_is };
    }) keep.now (I.remaining input) (record {
      file = file;
      file_left = result.file;
      folder = folder;
      folder_left = result.folder;
      out = out.old;
      out_left = out.new;
      err = err.old;
      err_left = err.new;
    }) result.status }
{
    let mut folder = folder;
    if let Err(fault) = folder.take(keep) {
        return leave(refuse_path(err, keep, fault), file, folder);
    }
    let mut folder = Counted::new(folder);
    let status = pipe_and_keep(alloc, keep, input, &mut folder, out, err);
    Left {
        status,
        file: Counted::new(file),
        folder,
    }
}

/// What is left where nothing was read and nothing kept.
fn leave<F: Source + Drop, K: KeptFolder + Drop>(status: u8, file: F, folder: K) -> Left<F, K>
    ensures status { result.status ≡ status }
    ensures file { IsLeft file result.file }
    ensures folder { IsLeft folder result.folder }
{
    Left {
        status,
        file: Counted::new(file),
        folder: Counted::new(folder),
    }
}
