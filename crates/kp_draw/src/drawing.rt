//! A script drawn, from a reader to a writer.

ghost use Rattle.std.specs.Prelude.{◌≡◌, ◌+◌, ◌<◌, ◌^◌, ℕ, IfOk, IfErr, IfSome, OnOk, OnErr, Err};
ghost use Rattle.kp_types.specs.declared.refusal.Refusal.TheVariants.{BadScript, Memory as WantOfMemory};
ghost use Rattle.kp_types.specs.Devices.{CountsOne, device_of, faults_of};
ghost use Rattle.kp_script.specs.Script.{IsFaultAt, IsScriptRefusal};
ghost use Rattle.kp_script.specs.Transcript.{IsRunRefusal};
ghost use Rattle.kp_draw.specs.Pictured.{IsPicture, WritesPicture, WritesPictureFront};

use crate::lines::Lines;
use crate::picture::picture_of;
use crate::playing::play_rows;
use kp_script::{next_counted, parse};
use kp_types::{Counted, Refusal};
use std::alloc::Global;
use std::io::{Read, Write};

/// The picture of the script that these bytes are: of its events whose lines are among these. F31 with the first line at fault, F33.
fn picture_text(alloc: Global, input: &[u8], part: &Lines) -> Result<Vec<u8>, Refusal>
    ensures pictured { IfOk result (λ text. IsPicture part.now input.now text.items) }
    ensures fault { (line : ℕ) → result ≡ Err (BadScript line) → IsFaultAt input.now line }
    ensures only { IfErr result IsScriptRefusal }
{
    kp_model::runs_are_safe();
    kp_model::no_delivery_is_refused_oddly();
    let script = parse(alloc, input)?;
    let header = script.header;
    drop(script);
    let Ok(first) = next_counted(input, 1) else {
        unreachable!(); // a script has its header
    };
    let kept = play_rows(alloc, &header, &first, part)?;
    let text = picture_of(alloc, &kept)?;
    Ok(text)
}

/// Plays the script that the reader has left, and writes its run as a picture, an SVG: a lane for the controller and one for each
/// node, time downward, an event a row. Each event whose line is among `part` is there once, in its order, as a group with a title, which a
/// pointer shows: its line of the script, and its line of the trace. All events are played, also those that aren't drawn. Where the parts
/// of the picture stand and what they look like is no part of the contract: it is looked at. F31 with the first line at fault, and F33: then
/// nothing is written. F32 where a device failed, and then nothing is written or a beginning of the picture. Takes time and memory
/// proportional to the script, its trace, the batches that messages carry, and the picture, which has some hundred bytes for each event
/// besides its title.
pub fn draw_script<R: Read, W: Write>(
    alloc: Global,
    reader: &mut Counted<R>,
    writer: &mut Counted<W>,
    part: Lines,
) -> Result<(), Refusal>
    requires reads { faults_of reader.old + 1 < 2 ^ 64 }
    requires writes { faults_of writer.old + 1 < 2 ^ 64 }
    ensures drawn { OnOk result (WritesPicture part (R.remaining (device_of reader.old))
        (W.contents (device_of writer.old)) (W.contents (device_of writer.new))) }
    ensures fault { (line : ℕ) → result ≡ Err (BadScript line)
        → IfSome (R.remaining (device_of reader.old)) (λ input. IsFaultAt input line) }
    ensures untouched { (line : ℕ) → result ≡ Err (BadScript line) → writer.new ≡ writer.old }
    ensures nothing { result ≡ Err WantOfMemory → writer.new ≡ writer.old }
    ensures front { OnErr result (WritesPictureFront part (R.remaining (device_of reader.old))
        (W.contents (device_of writer.old)) (W.contents (device_of writer.new))) }
    ensures only { IfErr result IsRunRefusal }
    ensures counted { CountsOne result (faults_of reader.old) (faults_of reader.new)
        (faults_of writer.old) (faults_of writer.new) }
{
    let input = reader.read_all(alloc)?;
    let picture = picture_text(alloc, &input, &part)?;
    writer.write_all(&picture)
}
