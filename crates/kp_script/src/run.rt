//! A script run from its bytes to its trace's bytes.

ghost use Rattle.std.specs.Prelude.{◌≡◌, ◌+◌, ◌<◌, ◌≤◌, ◌^◌, ℕ, [], ◌∷◌, ◌++◌, IfOk, IfErr, IfSome, OnErr, Err, length, drop, slice_index_or, take, true};
ghost use Rattle.std.specs.List.{AllByRecursion};
ghost use Rattle.kp_types.specs.declared.refusal.Refusal.TheVariants.{BadScript, Device as DeviceFault, Memory as WantOfMemory};
ghost use Rattle.kp_types.specs.Devices.{CountsFaults, CountsOne, IsDeviceFault, device_of, faults_of};
ghost use Rattle.kp_script.specs.Call.{Call as SpelledCall, Acts, Deliver, Elect, IsHeader, Raw};
ghost use Rattle.kp_script.specs.Ended.{limits_in, AreLimited, WritesTo, logs_of};
ghost use Rattle.kp_script.specs.Playing.{BeginFrom, Front, HasPlayedAll, HasPlayedFirst, IsFirstWhole, IsWithin, LedTo, MayPlay, PlayTo, PlaysLine, TellsLine, WereSmall, left_in};
ghost use Rattle.kp_script.specs.Hex.{bytes_of};
ghost use Rattle.kp_script.specs.Parsed.{IsScriptOf, calls_in, seen_script};
ghost use Rattle.kp_script.specs.Script.{IsFaultAt};
ghost use Rattle.kp_script.specs.Seen.{seen_call, seen_header, seen_line};
ghost use Rattle.kp_script.specs.Sections.{append_call};
ghost use Rattle.kp_script.specs.Transcript.{IsRunRefusal, Past, Writes, WritesFirst, WritesFront, no_past};
ghost use Rattle.kp_world.specs.Answers.{appended, outcome_of};

use crate::batches::{batch_of, batch_of_value, raw_bytes};
use crate::call::{Call, Header};
use crate::ended::Ended;
use crate::script::{Line, Script, parse};
use crate::section::{AppendLine, Section};
use crate::trace::{push_append, push_event};
use kp_batch::{Parts, Speller};
use kp_replica::{Act, PlainAct, Receipt};
use kp_types::{Counted, Limits, MAX_BATCH, NodeId, Refusal};
use kp_world::{EventAnswer, World};
use std::alloc::Global;
use std::collections::VecDeque;
use std::io::{Read, Write};

/// From how many bytes of the trace on they are written.
const TEXT_AT_ONCE: usize = 65_536;

/// What a run uses again and again: what spells its batches, and the text of some lines of its trace.
#[derive(Drop)]
pub struct Work {
    /// What spells the batches.
    pub speller: Speller,
    /// The text, behind which each event's line is put.
    pub text: Vec<u8>,
}

impl Work {
    /// No text, with this to spell batches.
    pub fn new(alloc: Global, speller: Speller) -> Work
        ensures { result.text.items ≡ [] }
    {
        Work {
            speller,
            text: Vec::new(alloc),
        }
    }
}

/// How many lines were played, and how many of their events were refused.
#[derive(Clone, Copy)]
pub(crate) struct Played {
    pub(crate) lines: usize,
    pub(crate) refused: u64,
}

/// The limits of the log that the header asks for.
pub fn limits_of(header: &Header) -> Limits
    ensures { result ≡ limits_in (seen_header header.now) }
{
    Limits {
        segment_bytes: header.segment,
        index_interval: header.interval,
        max_batch: MAX_BATCH,
    }
}

/// Puts the line of an event that names this node behind the text. Answers 1 where the event was refused, and else 0. F33.
#[inline(always)]
fn tell(
    text: &mut Vec<u8>,
    number: u64,
    node: NodeId,
    outcome: &Result<EventAnswer, Refusal>,
) -> Result<u64, Refusal>
    ensures { TellsLine number node (outcome_of outcome.now) text.old.items text.new.items result }
{
    push_event(text, number, node, outcome)?;
    Ok(u64::from(outcome.is_err()))
}

/// Does what [`tell`] does for an append, of which a world answers the receipt alone.
#[inline(always)]
fn tell_receipt(
    text: &mut Vec<u8>,
    number: u64,
    node: NodeId,
    receipt: &Result<Receipt, Refusal>,
) -> Result<u64, Refusal>
    ensures { TellsLine number node (outcome_of (appended receipt.now)) text.old.items text.new.items result }
{
    push_append(text, number, node, receipt)?;
    Ok(u64::from(receipt.is_err()))
}

/// Does what [`play_line`] does for an append of one value.
#[inline(always)]
fn play_lone(lone: &AppendLine<'_>, world: &mut World, work: &mut Work) -> Result<u64, Refusal>
    requires call { MayPlay world.old (append_call true lone.now).1 }
    requires short { length lone.now.values.now ≤ 1000000 }
    ensures { PlaysLine (append_call true lone.now) world.old world.new work.old.text.items work.new.text.items result }
{
    let speller = &mut work.speller;
    let bytes = batch_of_value(
        speller,
        lone.time,
        lone.sender,
        lone.transactional,
        lone.values,
    )?;
    let receipt = world.produce(lone.node, bytes);
    tell_receipt(&mut work.text, lone.number, lone.node, &receipt)
}

/// Does what [`play_line`] does for an append, whether of one value or not. It is no part of its caller, as few lines need it.
#[inline(never)]
fn play_values<'a>(
    line: &AppendLine<'a>,
    lone: bool,
    world: &mut World,
    work: &mut Work,
    parts: &mut Vec<Parts<'a>>,
) -> Result<u64, Refusal>
    requires { MayPlay world.old (append_call lone line.now).1 }
    ensures { PlaysLine (append_call lone line.now) world.old world.new work.old.text.items work.new.text.items result }
{
    let bytes = batch_of(
        &mut work.speller,
        parts,
        line.time,
        line.sender,
        line.transactional,
        lone,
        line.values,
    )?;
    let receipt = world.produce(line.node, bytes);
    tell_receipt(&mut work.text, line.number, line.node, &receipt)
}

/// Does what [`play_line`] does where the node is handed the bytes that these digits spell.
#[inline(never)]
fn play_raw(
    alloc: Global,
    line: u64,
    node: NodeId,
    digits: &[u8],
    world: &mut World,
    work: &mut Work,
) -> Result<u64, Refusal>
    requires { node < length world.old.nodes }
    ensures { PlaysLine (line, Raw node (bytes_of digits.now)) world.old world.new work.old.text.items work.new.text.items result }
{
    let bytes = raw_bytes(alloc, digits)?;
    let receipt = world.produce(node, bytes);
    tell_receipt(&mut work.text, line, node, &receipt)
}

/// Does what [`play_line`] does where the controller elects a node. What the world answers is told where it lies.
#[inline(never)]
fn play_election(
    line: u64,
    node: NodeId,
    world: &mut World,
    work: &mut Work,
) -> Result<u64, Refusal>
    ensures { PlaysLine (line, Elect node) world.old world.new work.old.text.items work.new.text.items result }
{
    let elected = world.elect(node);
    tell(&mut work.text, line, node, &elected)
}

/// Does what [`play_line`] does where a node acts. What the world answers is told where it lies.
#[inline(never)]
fn play_act(
    alloc: Global,
    line: u64,
    node: NodeId,
    act: PlainAct,
    world: &mut World,
    work: &mut Work,
) -> Result<u64, Refusal>
    requires { node < length world.old.nodes }
    ensures { PlaysLine (line, Acts node act) world.old world.new work.old.text.items work.new.text.items result }
{
    let acted = world.act(alloc, node, Act::Plain(act));
    match &acted {
        Ok(outcome) => tell(&mut work.text, line, node, outcome),
        Err(_) => Err(Refusal::Memory),
    }
}

/// Does what [`play_line`] does for a delivery of this message. What the world answers is told where it lies.
#[inline(never)]
fn play_delivery(
    alloc: Global,
    line: u64,
    message: u64,
    world: &mut World,
    work: &mut Work,
) -> Result<u64, Refusal>
    requires { world.old.first ≤ message }
    ensures { PlaysLine (line, Deliver message) world.old world.new work.old.text.items work.new.text.items result }
{
    let delivered = world.deliver(alloc, message);
    match &delivered {
        Ok(outcome) => tell(&mut work.text, line, 0, outcome),
        Err(_) => Err(Refusal::Memory),
    }
}

/// Does what [`play_line`] does, for any line.
#[inline(always)]
fn play_other<'a>(
    alloc: Global,
    line: Line<'a>,
    world: &mut World,
    work: &mut Work,
    parts: &mut Vec<Parts<'a>>,
) -> Result<u64, Refusal>
    requires { MayPlay world.old (seen_call line.call) }
    ensures { PlaysLine (seen_line line.entry) world.old world.new work.old.text.items work.new.text.items result }
{
    let number = line.number;
    match line.call {
        Call::Elect { node } => play_election(number, node, world, work),
        Call::Append {
            node,
            transactional,
            lone,
            time,
            sender,
            values,
        } => {
            let append = AppendLine {
                number,
                node,
                transactional,
                time,
                sender,
                values,
            };
            play_values(&append, lone, world, work, parts)
        }
        Call::Raw { node, digits } => play_raw(alloc, number, node, digits, world, work),
        Call::Acts { node, act } => play_act(alloc, number, node, act, world, work),
        Call::Deliver { number: message } => play_delivery(alloc, number, message, world, work),
    }
}

/// Makes the line's event happen in the world, and puts its line of the trace behind the text. Answers 1 where it was refused, and
/// else 0. F33. Most lines are appends of one value: those have a way of their own, which has nothing to test.
pub fn play_line<'a>(
    alloc: Global,
    line: Line<'a>,
    world: &mut World,
    work: &mut Work,
    parts: &mut Vec<Parts<'a>>,
) -> Result<u64, Refusal>
    requires { MayPlay world.old (seen_call line.call) }
    ensures { PlaysLine (seen_line line.entry) world.old world.new work.old.text.items work.new.text.items result }
{
    match line.lone() {
        Some(lone) => play_lone(&lone, world, work),
        None => play_other(alloc, line, world, work, parts),
    }
}

/// Does what [`play_line`] does, for the event at this place of the section.
#[inline(always)]
fn play_at<'a>(
    alloc: Global,
    section: &'a Section,
    at: usize,
    world: &mut World,
    work: &mut Work,
    parts: &mut Vec<Parts<'a>>,
) -> Result<u64, Refusal>
    requires within { at < length section.now }
    requires call { (other : ℕ × SpelledCall)
        → MayPlay world.old (slice_index_or section.now at other).1 }
    ensures { (other : ℕ × SpelledCall) → PlaysLine (slice_index_or section.now at other)
        world.old world.new work.old.text.items work.new.text.items result }
{
    match section.lone(at) {
        Some(lone) => play_lone(&lone, world, work),
        None => play_other(alloc, section.line(at), world, work, parts),
    }
}

/// Plays lines of the section from this place on until their trace has so many bytes that it is written, and writes it. F33, and then nothing is
/// written; F32 where the writer failed, and then a beginning of their trace is.
fn play_lines<W: Write>(
    alloc: Global,
    section: &Section,
    from: usize,
    world: &mut World,
    work: &mut Work,
    writer: &mut Counted<W>,
) -> Result<Played, Refusal>
    requires within { from ≤ length section.now }
    requires calls { AllByRecursion (λ call. MayPlay world.old call.1) (drop from section.now) }
    requires writes { faults_of writer.old + 1 < 2 ^ 64 }
    ensures played { IfOk result (λ played.
        PlayTo (take played.lines (drop from section.now)) world.old world.new played.refused
        (W.contents (device_of writer.old)) (W.contents (device_of writer.new))) }
    ensures some { IfOk result (λ played. from < length section.now → 0 < played.lines) }
    ensures within { IfOk result (λ played. from + played.lines ≤ length section.now) }
    ensures fits { IfOk result (λ played. from + played.lines < 2 ^ 64) }
    ensures few { IfOk result (λ played. played.refused ≤ played.lines) }
    ensures begun { result ≡ Err DeviceFault → (n : ℕ) × (from + n ≤ length section.now)
        × BeginFrom (take n (drop from section.now)) world.old
        (W.contents (device_of writer.old)) (W.contents (device_of writer.new)) }
    ensures untouched { result ≡ Err WantOfMemory → writer.new ≡ writer.old }
    ensures nodes { length world.new.nodes ≡ length world.old.nodes }
    ensures first { world.new.first ≡ world.old.first }
    ensures only { IfErr result IsDeviceFault }
    ensures counted { CountsFaults result (faults_of writer.old) (faults_of writer.new) }
{
    let mut parts = Vec::new(alloc);
    let left = section.len() - from;
    let mut played = 0;
    let mut refused = 0;
    work.text.clear();
    while played < left && work.text.len() < TEXT_AT_ONCE {
        refused += play_at(alloc, section, from + played, world, work, &mut parts)?;
        played += 1;
    }
    writer.write_all(&work.text)?;
    Ok(Played {
        lines: played,
        refused,
    })
}

/// Lets the first section go, with its memory, where so many lines are all that it has. Answers how many of the then first section
/// are behind.
fn left_behind(sections: &mut VecDeque<Section>, lines: usize) -> usize
    requires { IsWithin lines sections.old.items }
    ensures left { left_in result sections.new.items ≡ left_in lines sections.old.items }
    ensures within { IsWithin result sections.new.items }
    ensures fewer { length sections.new.items ≤ length sections.old.items }
    ensures gone { IsFirstWhole lines sections.old.items → length sections.new.items < length sections.old.items }
{
    match sections.front() {
        Some(section) if section.len() == lines => {
            let _ = sections.pop_front();
            0
        }
        _ => lines,
    }
}

/// The script that the reader has left, all of it, and what spells its batches: into the memory first that its text was read into.
/// F31 with the first line at fault; F33; F32 where the device failed. Takes time and memory proportional to the script.
pub(crate) fn read_script<R: Read>(
    alloc: Global,
    reader: &mut Counted<R>,
) -> Result<(Script, Speller), Refusal>
    requires { faults_of reader.old + 1 < 2 ^ 64 }
    ensures found { IfOk result (λ read. IsScriptOf (R.remaining (device_of reader.old)) (seen_script read.0)) }
    ensures fault { (line : ℕ) → result ≡ Err (BadScript line)
        → IfSome (R.remaining (device_of reader.old)) (λ input. IsFaultAt input line) }
    ensures only { IfErr result IsRunRefusal }
    ensures counted { CountsFaults result (faults_of reader.old) (faults_of reader.new) }
{
    let input = reader.read_all(alloc)?;
    let script = parse(alloc, &input)?;
    Ok((script, Speller::over(alloc, input)))
}

/// Plays the script on these nodes, and writes its trace. It does what [`play_script`] does of a script that was read.
pub(crate) fn play_on<W: Write>(
    alloc: Global,
    script: Script,
    speller: Speller,
    world: World,
    writer: &mut Counted<W>,
) -> Result<Ended, Refusal>
    requires header { IsHeader (seen_header script.header) }
    requires calls { AllByRecursion (λ call. MayPlay world call.1) (calls_in script.sections.items) }
    requires few { length (calls_in script.sections.items) ≤ 1000000 }
    requires nodes { length world.nodes ≡ script.header.count }
    requires writes { faults_of writer.old + 1 < 2 ^ 64 }
    ensures played { IfOk result (λ ended. (past : Past) → LedTo past (seen_header script.header) world
        → HasPlayedAll past (seen_script script) ended (W.contents (device_of writer.old)) (W.contents (device_of writer.new))) }
    ensures limited { IfOk result (λ ended. (past : Past) → LedTo past (seen_header script.header) world
        → WereSmall past → AreLimited (logs_of ended.stage)) }
    ensures first { result ≡ Err WantOfMemory → (past : Past) → LedTo past (seen_header script.header) world
        → HasPlayedFirst past (seen_script script) (W.contents (device_of writer.old)) (W.contents (device_of writer.new)) }
    ensures front { OnErr result ((past : Past) → LedTo past (seen_header script.header) world
        → Front past script.header.count (calls_in script.sections.items)
        (W.contents (device_of writer.old)) (W.contents (device_of writer.new))) }
    ensures only { IfErr result IsDeviceFault }
    ensures counted { CountsFaults result (faults_of writer.old) (faults_of writer.new) }
{
    kp_world::plays_go_on();
    kp_model::runs_are_safe();
    kp_model::no_delivery_is_refused_oddly();
    kp_model::batches_keep_their_size();
    kp_replica::bytes_are_an_offer();
    let header = script.header;
    let mut script = script;
    let mut world = world;
    let mut work = Work::new(alloc, speller);
    let mut refused = 0;
    let mut from = 0;
    while let Some(section) = script.sections.front() {
        let played = play_lines(alloc, section, from, &mut world, &mut work, writer)?;
        refused += played.refused;
        from = left_behind(&mut script.sections, from + played.lines);
    }
    Ok(Ended::new(refused, header.count, world))
}

/// Plays the script that the reader has left, and writes its trace: a line for each event. Answers how many
/// events were refused, and the nodes with their logs as they are then. F31 with the first line at fault, and then nothing
/// is written; F33, and then the lines of the first events are, or nothing; F32 where a device failed, and then a
/// beginning of the trace is. All lines are read before the first event is played, and the lines of some events are
/// written before the next ones are played. No batch of the logs has more than [`MAX_BATCH`] bytes. Takes time proportional to the script, its trace and the batches that
/// messages carry, and memory to the script, to what the nodes' logs keep of it and to all messages: at first to the script's text, to
/// its values and digits with 56 bytes for each event; batches are spelled into the text's memory, and a section of the others is given
/// back once it is played; the nodes and the messages stay as long as the answer does.
pub fn play_script<R: Read, W: Write>(
    alloc: Global,
    reader: &mut Counted<R>,
    writer: &mut Counted<W>,
) -> Result<Ended, Refusal>
    requires reads { faults_of reader.old + 1 < 2 ^ 64 }
    requires writes { faults_of writer.old + 1 < 2 ^ 64 }
    ensures played { IfOk result (λ ended. WritesTo no_past (R.remaining (device_of reader.old))
        (W.contents (device_of writer.old)) (W.contents (device_of writer.new)) ended) }
    ensures limited { IfOk result (λ ended. AreLimited (logs_of ended.stage)) }
    ensures fault { (line : ℕ) → result ≡ Err (BadScript line)
        → IfSome (R.remaining (device_of reader.old)) (λ input. IsFaultAt input line) }
    ensures untouched { (line : ℕ) → result ≡ Err (BadScript line) → writer.new ≡ writer.old }
    ensures first { result ≡ Err WantOfMemory → WritesFirst no_past (R.remaining (device_of reader.old))
        (W.contents (device_of writer.old)) (W.contents (device_of writer.new)) }
    ensures front { OnErr result (WritesFront no_past (R.remaining (device_of reader.old))
        (W.contents (device_of writer.old)) (W.contents (device_of writer.new))) }
    ensures only { IfErr result IsRunRefusal }
    ensures counted { CountsOne result (faults_of reader.old) (faults_of reader.new)
        (faults_of writer.old) (faults_of writer.new) }
{
    kp_model::runs_are_safe();
    kp_model::no_delivery_is_refused_oddly();
    let (script, speller) = read_script(alloc, reader)?;
    let header = script.header;
    let world = World::start(alloc, header.count, &limits_of(&header))?;
    play_on(alloc, script, speller, world, writer)
}

/// Runs the script that the reader has left, and writes its trace: a line for each event. Answers how many
/// events were refused. What is refused, what stands written then, and the cost are those of [`play_script`]; the
/// nodes don't outlast the call.
pub fn run_script<R: Read, W: Write>(
    alloc: Global,
    reader: &mut Counted<R>,
    writer: &mut Counted<W>,
) -> Result<u64, Refusal>
    requires reads { faults_of reader.old + 1 < 2 ^ 64 }
    requires writes { faults_of writer.old + 1 < 2 ^ 64 }
    ensures written { IfOk result (λ refused. Writes no_past (R.remaining (device_of reader.old))
        (W.contents (device_of writer.old)) (W.contents (device_of writer.new)) refused) }
    ensures fault { (line : ℕ) → result ≡ Err (BadScript line)
        → IfSome (R.remaining (device_of reader.old)) (λ input. IsFaultAt input line) }
    ensures untouched { (line : ℕ) → result ≡ Err (BadScript line) → writer.new ≡ writer.old }
    ensures first { result ≡ Err WantOfMemory → WritesFirst no_past (R.remaining (device_of reader.old))
        (W.contents (device_of writer.old)) (W.contents (device_of writer.new)) }
    ensures front { OnErr result (WritesFront no_past (R.remaining (device_of reader.old))
        (W.contents (device_of writer.old)) (W.contents (device_of writer.new))) }
    ensures only { IfErr result IsRunRefusal }
    ensures counted { CountsOne result (faults_of reader.old) (faults_of reader.new)
        (faults_of writer.old) (faults_of writer.new) }
{
    let ended = play_script(alloc, reader, writer)?;
    Ok(ended.refused())
}
