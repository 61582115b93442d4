//! A script whose lines come one by one, each answered before the next is read.

ghost use Rattle.std.specs.Prelude.{◌≡◌, ◌+◌, ◌<◌, ◌≤◌, ◌^◌, ◌⊎◌, ℕ, List, [], ◌∷◌, Option, None, Some, Ok, Err, IfOk, IfErr, IfSome, OnOk, OnErr, length, true};
ghost use Rattle.std.specs.Io.KnownBytes.{Appends, IsAtEnd};
ghost use Rattle.kp_types.specs.declared.refusal.Refusal.TheVariants.{Device as DeviceFault, Memory as WantOfMemory};
ghost use Rattle.kp_types.specs.Devices.{AppendsFront, CountsFaults, CountsOne, IsDeviceFault, device_of, faults_of};
ghost use Rattle.kp_model.specs.World.{start};
ghost use Rattle.kp_world.specs.Shown.{IsShown};
ghost use Rattle.kp_script.specs.Call.{IsHeader};
ghost use Rattle.kp_script.specs.Ended.{limits_in};
ghost use Rattle.kp_script.specs.Piped.{PipesFirst, PipesFront, PipesTo, counts, fault_line, refused_in};
ghost use Rattle.kp_script.specs.Piping.{AnswersFront, HasNodes, StandsCut, StandsOn, Unanswered, stage_of};
ghost use Rattle.kp_script.specs.Reads.{Reads, kept_of, read_faults, reader_of};
ghost use Rattle.kp_script.specs.Seen.{seen_header};

use crate::call::{Header, call_of, header_of};
use crate::ended::Ended;
use crate::lines::{LONGEST_LINE, is_passed_over};
use crate::reader::{LineReader, Next};
use crate::run::{Work, limits_of, play_line};
use crate::script::Line;
use crate::trace::push_fault;
use kp_batch::Speller;
use kp_types::{Counted, Folder, NodeId, Refusal};
use kp_world::World;
use std::alloc::Global;
use std::io::{BufRead, Write};
use std::marker::Model;

/// The nodes of a pipe, from its header on.
#[derive(Drop)]
struct Running {
    count: NodeId,
    world: World,
}

/// What a pipe leaves: how many of its answers were refusals, and the nodes of its last world, where its header came.
#[derive(Drop)]
pub struct Piped {
    refused: u64,
    ended: Option<Ended>,
}

/// What a pipe leaves that was cut off before its input's end.
#[derive(Drop)]
pub struct CutPipe {
    /// What cut it off: F32 where a device failed, F33 where memory was refused.
    pub refusal: Refusal,
    /// What it leaves all the same.
    pub piped: Piped,
}

impl Model for Piped {
    ghost use Rattle.kp_script.specs.Ended.{RunEnd, stage_left};

    ghost Value = { RunEnd };

    ghost view = { λ piped. record {
      refused = piped.refused;
      stage = stage_left piped.ended;
    } };
}

impl Piped {
    ghost use Rattle.std.specs.Prelude.{◌≡◌, ◌+◌, ◌<◌, ◌^◌, IfErr, OnOk, OnErr};
    ghost use Rattle.kp_types.specs.Devices.{CountsFaults, IsDeviceFault, device_of, faults_of};
    ghost use Rattle.kp_script.specs.Ended.{no_stage};
    ghost use Rattle.kp_script.specs.Kept.{KeepsStage, KeepsStageFront};

    /// What a pipe leaves that has read nothing.
    pub fn none() -> Piped
        ensures { result ≡ record { refused = 0; stage = no_stage } }
    {
        Piped {
            refused: 0,
            ended: None,
        }
    }

    /// How many answers were refusals: of events, and F31 of lines that can't stand where they stand. O(1).
    pub fn refused(&self) -> u64
        ensures { result ≡ self.now.refused }
    {
        self.refused
    }

    /// Puts what it leaves into the folder, as [`Ended::write_left`] does; nothing where no header came.
    pub fn write_left<F: Folder>(
        &self,
        alloc: Global,
        folder: &mut Counted<F>,
    ) -> Result<(), Refusal>
        requires { faults_of folder.old + 1 < 2 ^ 64 }
        ensures ok { OnOk result (KeepsStage self.now.stage (F.entries (device_of folder.old))
            (F.entries (device_of folder.new))) }
        ensures err { OnErr result (KeepsStageFront self.now.stage (F.entries (device_of folder.old))
            (F.entries (device_of folder.new))) }
        ensures only { IfErr result IsDeviceFault }
        ensures counted { CountsFaults result (faults_of folder.old) (faults_of folder.new) }
    {
        match &self.ended {
            Some(ended) => ended.write_left(alloc, folder),
            None => Ok(()),
        }
    }
}

impl Running {
    /// The nodes that the header asks for.
    fn start(alloc: Global, header: &Header) -> Result<Running, Refusal>
        requires { IsHeader (seen_header header.now) }
        ensures count { IfOk result (λ running. running.count ≡ header.now.count) }
        ensures nodes { IfOk result (λ running. length running.world.nodes ≡ header.now.count) }
        ensures first { IfOk result (λ running. running.world.first ≡ 0) }
        ensures shown { IfOk result (λ running. IsShown (limits_in (seen_header header.now)) running.world (start header.now.count)) }
        ensures only { IfErr result (λ refusal. refusal ≡ WantOfMemory) }
    {
        let world = World::start(alloc, header.count, &limits_of(header))?;
        Ok(Running {
            count: header.count,
            world,
        })
    }
}

/// Answers a line that can't stand where it stands: by one refusal.
fn refuse_line<W: Write>(
    number: u64,
    work: &mut Work,
    writer: &mut Counted<W>,
) -> Result<u64, Refusal>
    requires { faults_of writer.old + 1 < 2 ^ 64 }
    ensures ok { OnOk result (Appends (W.contents (device_of writer.old))
        (W.contents (device_of writer.new)) (fault_line number)) }
    ensures begun { result ≡ Err DeviceFault → AppendsFront (W.contents (device_of writer.old))
        (W.contents (device_of writer.new)) (fault_line number) }
    ensures untouched { result ≡ Err WantOfMemory → writer.new ≡ writer.old }
    ensures one { IfOk result (λ refused. refused ≡ 1) }
    ensures only { IfErr result IsDeviceFault }
    ensures counted { CountsFaults result (faults_of writer.old) (faults_of writer.new) }
{
    work.text.clear();
    push_fault(&mut work.text, number)?;
    writer.write_all(&work.text)?;
    Ok(1)
}

/// Answers a line that counts, behind the header, and answers whether by a refusal: 1, or 0.
fn answer_event<W: Write>(
    alloc: Global,
    number: u64,
    line: &[u8],
    running: &mut Running,
    work: &mut Work,
    writer: &mut Counted<W>,
) -> Result<u64, Refusal>
    requires nodes { HasNodes (Some running.old) }
    requires counts { counts (number, Some line.now) ≡ true }
    requires writes { faults_of writer.old + 1 < 2 ^ 64 }
    ensures ok { IfOk result (λ refused. (answer : List ℕ)
        × StandsOn (number, Some line.now) (Some running.old) (Some running.new) refused answer
        × Appends (W.contents (device_of writer.old)) (W.contents (device_of writer.new)) answer) }
    ensures begun { result ≡ Err DeviceFault → (refused : ℕ) × (answer : List ℕ)
        × StandsOn (number, Some line.now) (Some running.old) (Some running.new) refused answer
        × AppendsFront (W.contents (device_of writer.old)) (W.contents (device_of writer.new)) answer }
    ensures untouched { result ≡ Err WantOfMemory → writer.new ≡ writer.old }
    ensures stands { result ≡ Err WantOfMemory → StandsCut (number, Some line.now) (Some running.old) (Some running.new) }
    ensures nodes { HasNodes (Some running.new) }
    ensures few { IfOk result (λ refused. refused ≤ 1) }
    ensures only { IfErr result IsDeviceFault }
    ensures counted { CountsFaults result (faults_of writer.old) (faults_of writer.new) }
{
    match call_of(line, running.count) {
        Some(call) => {
            let mut parts = Vec::new(alloc);
            let line = Line { number, call };
            work.text.clear();
            let refused = play_line(alloc, line, &mut running.world, work, &mut parts)?;
            writer.write_all(&work.text)?;
            Ok(refused)
        }
        None => refuse_line(number, work, writer),
    }
}

/// Answers a line that counts, before the header, and answers whether by a refusal: 1, or 0.
fn answer_first<W: Write>(
    alloc: Global,
    number: u64,
    line: &[u8],
    running: &mut Option<Running>,
    work: &mut Work,
    writer: &mut Counted<W>,
) -> Result<u64, Refusal>
    requires none { running.old ≡ None }
    requires counts { counts (number, Some line.now) ≡ true }
    requires writes { faults_of writer.old + 1 < 2 ^ 64 }
    ensures ok { IfOk result (λ refused. (answer : List ℕ)
        × StandsOn (number, Some line.now) None running.new refused answer
        × Appends (W.contents (device_of writer.old)) (W.contents (device_of writer.new)) answer) }
    ensures begun { result ≡ Err DeviceFault → (refused : ℕ) × (answer : List ℕ)
        × StandsOn (number, Some line.now) None running.new refused answer
        × AppendsFront (W.contents (device_of writer.old)) (W.contents (device_of writer.new)) answer }
    ensures untouched { result ≡ Err WantOfMemory → writer.new ≡ writer.old }
    ensures stands { result ≡ Err WantOfMemory → StandsCut (number, Some line.now) None running.new }
    ensures nodes { HasNodes running.new }
    ensures few { IfOk result (λ refused. refused ≤ 1) }
    ensures only { IfErr result IsDeviceFault }
    ensures counted { CountsFaults result (faults_of writer.old) (faults_of writer.new) }
{
    match header_of(line) {
        Some(header) => match Running::start(alloc, &header) {
            Ok(nodes) => {
                *running = Some(nodes);
                Ok(0)
            }
            Err(_) => Err(Refusal::Memory),
        },
        None => refuse_line(number, work, writer),
    }
}

/// Answers a line of which this is kept, and answers whether by a refusal: 1, or 0.
fn answer_line<W: Write>(
    alloc: Global,
    number: u64,
    line: &[u8],
    running: &mut Option<Running>,
    work: &mut Work,
    writer: &mut Counted<W>,
) -> Result<u64, Refusal>
    requires nodes { HasNodes running.old }
    requires writes { faults_of writer.old + 1 < 2 ^ 64 }
    ensures ok { IfOk result (λ refused. (whole : List ℕ) → line.now ≡ kept_of whole → (answer : List ℕ)
        × StandsOn (number, Some whole) running.old running.new refused answer
        × Appends (W.contents (device_of writer.old)) (W.contents (device_of writer.new)) answer) }
    ensures begun { result ≡ Err DeviceFault → (whole : List ℕ) → line.now ≡ kept_of whole
        → (refused : ℕ) × (answer : List ℕ)
        × StandsOn (number, Some whole) running.old running.new refused answer
        × AppendsFront (W.contents (device_of writer.old)) (W.contents (device_of writer.new)) answer }
    ensures untouched { result ≡ Err WantOfMemory → writer.new ≡ writer.old }
    ensures stands { result ≡ Err WantOfMemory → (whole : List ℕ) → line.now ≡ kept_of whole
        → StandsCut (number, Some whole) running.old running.new }
    ensures nodes { HasNodes running.new }
    ensures few { IfOk result (λ refused. refused ≤ 1) }
    ensures only { IfErr result IsDeviceFault }
    ensures counted { CountsFaults result (faults_of writer.old) (faults_of writer.new) }
{
    if line.len() > LONGEST_LINE {
        return refuse_line(number, work, writer);
    }
    if is_passed_over(line) {
        return Ok(0);
    }
    match running {
        Some(nodes) => answer_event(alloc, number, line, nodes, work, writer),
        None => answer_first(alloc, number, line, running, work, writer),
    }
}

/// Reads the next line and answers it. Answers whether by a refusal, 1 or 0, or that there was none.
fn answer_next<R: BufRead, W: Write>(
    alloc: Global,
    number: u64,
    reader: &mut LineReader<R>,
    running: &mut Option<Running>,
    work: &mut Work,
    writer: &mut Counted<W>,
) -> Result<Option<u64>, Refusal>
    requires nodes { HasNodes running.old }
    requires reads { read_faults reader.old + 1 < 2 ^ 64 }
    requires writes { faults_of writer.old + 1 < 2 ^ 64 }
    ensures more { IfOk result (λ found. IfSome found (λ refused. (line : Option (List ℕ)) × (answer : List ℕ)
        × Reads (R.remaining (reader_of reader.old)) (R.remaining (reader_of reader.new)) (line ∷ [])
        × StandsOn (number, line) running.old running.new refused answer
        × Appends (W.contents (device_of writer.old)) (W.contents (device_of writer.new)) answer)) }
    ensures end { result ≡ Ok None → IsAtEnd (R.remaining (reader_of reader.old)) }
    ensures same { result ≡ Ok None → running.new ≡ running.old }
    ensures quiet { result ≡ Ok None → writer.new ≡ writer.old }
    ensures cut { OnErr result (((writer.new ≡ writer.old)
        × Unanswered number (R.remaining (reader_of reader.old)) (R.remaining (reader_of reader.new)) running.old running.new)
        ⊎ ((faults_of writer.new ≡ faults_of writer.old + 1)
        × AnswersFront number (R.remaining (reader_of reader.old)) (R.remaining (reader_of reader.new)) running.old running.new
        (W.contents (device_of writer.old)) (W.contents (device_of writer.new)))) }
    ensures nodes { HasNodes running.new }
    ensures few { IfOk result (λ found. IfSome found (λ refused. refused ≤ 1)) }
    ensures only { IfErr result IsDeviceFault }
    ensures counted { CountsOne result (read_faults reader.old) (read_faults reader.new)
        (faults_of writer.old) (faults_of writer.new) }
{
    match reader.next_line()? {
        Next::Nothing => Ok(None),
        Next::Torn => {
            let refused = refuse_line(number, work, writer)?;
            Ok(Some(refused))
        }
        Next::Whole => {
            let refused = answer_line(alloc, number, reader.line(), running, work, writer)?;
            Ok(Some(refused))
        }
    }
}

/// What is left of a pipe.
fn left(refused: u64, running: Option<Running>) -> Piped
    requires nodes { HasNodes running }
    requires some { IfSome running (λ nodes. 0 < nodes.count) }
    requires most { IfSome running (λ nodes. nodes.count ≤ 7) }
    ensures { result ≡ record { refused = refused; stage = stage_of running } }
{
    let ended = match running {
        Some(nodes) => Some(Ended::new(refused, nodes.count, nodes.world)),
        None => None,
    };
    Piped { refused, ended }
}

/// What is left of a pipe that this cut off.
fn cut_off(refusal: Refusal, refused: u64, running: Option<Running>) -> CutPipe
    requires nodes { HasNodes running }
    requires some { IfSome running (λ nodes. 0 < nodes.count) }
    requires most { IfSome running (λ nodes. nodes.count ≤ 7) }
    ensures refusal { result.refusal ≡ refusal }
    ensures piped { result.piped ≡ record { refused = refused; stage = stage_of running } }
{
    CutPipe {
        refusal,
        piped: left(refused, running),
    }
}

/// Plays a script whose lines come one by one: each is answered before the next one is read, by what `run` prints of an event, by
/// nothing where it is the header, a comment or empty, and by F31 and its number where it can't stand where it stands; then it is
/// passed over. So is a last line that isn't empty and lacks its line feed, whatever stands in it. It has any number of events.
/// Answers at the reader's end how many answers were refusals, and the nodes with their logs as they are then. F32 where a device
/// failed, F33 where memory was refused, and after 2^64 - 1 lines: then what was read before is answered, but for the last line,
/// and what the pipe leaves is that of the lines that were answered, or of these and the last one. Takes time proportional to the
/// script, its trace and the batches that messages carry, and memory to its longest line, to what the nodes' logs keep of it and to
/// all messages.
pub fn play_pipe<R: BufRead, W: Write>(
    alloc: Global,
    reader: &mut LineReader<R>,
    writer: &mut Counted<W>,
) -> Result<Piped, CutPipe>
    requires reads { read_faults reader.old + 1 < 2 ^ 64 }
    requires writes { faults_of writer.old + 1 < 2 ^ 64 }
    ensures piped { IfOk result (λ ended. PipesTo (R.remaining (reader_of reader.old))
        (W.contents (device_of writer.old)) (W.contents (device_of writer.new)) ended) }
    ensures cut { IfErr result (λ cut. ((faults_of writer.new ≡ faults_of writer.old)
        × PipesFirst (R.remaining (reader_of reader.old)) (R.remaining (reader_of reader.new))
        (W.contents (device_of writer.old)) (W.contents (device_of writer.new)) cut.piped.stage)
        ⊎ ((faults_of writer.new ≡ faults_of writer.old + 1)
        × PipesFront (R.remaining (reader_of reader.old)) (R.remaining (reader_of reader.new))
        (W.contents (device_of writer.old)) (W.contents (device_of writer.new)) cut.piped.stage)) }
    ensures only { IfErr result (λ cut. IsDeviceFault cut.refusal) }
    ensures counted { CountsOne (refused_in result) (read_faults reader.old) (read_faults reader.new)
        (faults_of writer.old) (faults_of writer.new) }
{
    kp_model::runs_keep_count();
    kp_model::runs_are_safe();
    kp_model::no_delivery_is_refused_oddly();
    let mut work = Work::new(alloc, Speller::new(alloc));
    let mut running = None;
    let mut refused = 0;
    for read in 0..u64::MAX {
        match answer_next(alloc, read + 1, reader, &mut running, &mut work, writer) {
            Ok(Some(more)) => refused += more,
            Ok(None) => return Ok(left(refused, running)),
            Err(refusal) => return Err(cut_off(refusal, refused, running)),
        }
    }
    Err(cut_off(Refusal::Memory, refused, running))
}
