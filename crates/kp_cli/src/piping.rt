//! A pipe, told.

ghost use Rattle.std.specs.Prelude.{◌≡◌, ◌+◌, ◌<◌, ◌^◌};
ghost use Rattle.kp_types.specs.Devices.{faults_of};
ghost use Rattle.kp_cli.specs.Piped.{Answers, EndsPipe, PipesAndKeeps};

use crate::devices::Explained;
use crate::running::end;
use crate::telling::{refuse, refuse_since};
use kp_script::{CutPipe, LineReader, Piped, play_pipe};
use kp_types::{Counted, Folder, Refusal};
use std::alloc::Global;
use std::io::{BufReader, Read, Write};

/// Plays the lines of the input, and answers each, as [`play_pipe`] does.
fn play_input<I: Read + Drop, W: Write>(
    alloc: Global,
    input: I,
    out: &mut Counted<W>,
) -> Result<Piped, CutPipe>
    requires writes { faults_of out.old + 1 < 2 ^ 64 }
    ensures { Answers W.contents (I.remaining input) out.old out.new result }
{
    match BufReader::new(alloc, input) {
        Ok(buffered) => {
            let mut lines = LineReader::new(alloc, buffered);
            play_pipe(alloc, &mut lines, out)
        }
        Err(_) => Err(CutPipe {
            refusal: Refusal::Memory,
            piped: Piped::none(),
        }),
    }
}

/// Plays the lines of the input, each of which is answered on standard output before the next one is read, and answers the exit status
/// at its end: 0 where no answer was a refusal, 1 where one or more were, F31 included, and for F32 and F33.
pub fn pipe<I: Read + Drop, W: Write, E: Write>(
    alloc: Global,
    input: I,
    out: &mut Counted<W>,
    err: &mut Counted<E>,
) -> u8
    requires writes { faults_of out.old + 1 < 2 ^ 64 }
    requires complaints { faults_of err.old + 1 < 2 ^ 64 }
    ensures { EndsPipe W.contents E.contents (I.remaining input) out.old out.new err.old err.new result }
{
    match play_input(alloc, input, out) {
        Ok(piped) => end(piped.refused(), piped),
        Err(cut) => refuse(err, cut.refusal),
    }
}

/// Plays the lines of the input, as [`pipe`] does, and puts what it leaves into the folder, as [`kp_script::Ended::write_left`] does: at
/// its end, and also where it was cut off; nothing where no header came. So the folder has what all lines that were answered left,
/// whatever ended the pipe, and the last line that was read besides, if it was played. Answers the exit status that `pipe` does;
/// where the folder fails, or a growth is refused there, standard error has that in place of the pipe's refusal, as files are missing
/// then, and the status is 1.
pub fn pipe_and_keep<I: Read + Drop, K: Folder + Explained, W: Write, E: Write>(
    alloc: Global,
    keep: &str,
    input: I,
    folder: &mut Counted<K>,
    out: &mut Counted<W>,
    err: &mut Counted<E>,
) -> u8
    requires puts { faults_of folder.old + 1 < 2 ^ 64 }
    requires writes { faults_of out.old + 1 < 2 ^ 64 }
    requires complaints { faults_of err.old + 1 < 2 ^ 64 }
    ensures { PipesAndKeeps W.contents E.contents (record { entries = K.entries; folder_fault = K.fault_is })
        keep.now (I.remaining input) folder.old folder.new out.old out.new err.old err.new result }
{
    let put = folder.faults();
    match play_input(alloc, input, out) {
        Ok(piped) => match piped.write_left(alloc, folder) {
            Ok(()) => end(piped.refused(), piped),
            Err(refusal) => refuse_since(err, refusal, keep, folder, put),
        },
        Err(cut) => match cut.piped.write_left(alloc, folder) {
            Ok(()) => refuse(err, cut.refusal),
            Err(refusal) => refuse_since(err, refusal, keep, folder, put),
        },
    }
}
