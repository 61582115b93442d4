//! A script run on what a folder has.

ghost use Rattle.std.specs.Prelude.{◌≡◌, ◌⊎◌, ◌+◌, ◌<◌, ◌^◌, ℕ, Err, IfErr, IfOk, IfSome, OnErr, length};
ghost use Rattle.kp_types.specs.declared.refusal.Refusal.{Refusal as SomeRefusal};
ghost use Rattle.kp_types.specs.declared.refusal.Refusal.TheVariants.{BadScript, Memory as WantOfMemory};
ghost use Rattle.kp_types.specs.Devices.{CountsOne, device_of, faults_of};
ghost use Rattle.kp_folder.specs.Bad.{IsStop};
ghost use Rattle.kp_folder.specs.declared.fault.FolderFault.{FolderFault as SomeFault};
ghost use Rattle.kp_script.specs.Call.{IsHeader};
ghost use Rattle.kp_script.specs.Ended.{WritesTo};
ghost use Rattle.kp_script.specs.Left.{HoldsBehind, HoldsOrKeeps, IsBegun, IsCut, IsFolderFault, IsLineFault, NoneToRun, apart, is_before, lost_line};
ghost use Rattle.kp_script.specs.Parsed.{calls_in};
ghost use Rattle.kp_script.specs.Seen.{seen_call, seen_header};
ghost use Rattle.kp_script.specs.Transcript.{WritesFirst, WritesFront};
ghost use Rattle.kp_script.specs.declared.left.CutRun.TheVariants.{Folder as OfFolder, Run as OfRun};

use crate::call::{Call, Header};
use crate::ended::Ended;
use crate::run::{limits_of, play_on, read_script};
use crate::section::Section;
use kp_folder::{FolderFault, KeptFile, ReadFolder, read_left};
use kp_types::{Counted, Refusal};
use kp_world::World;
use std::alloc::Global;
use std::collections::VecDeque;
use std::io::{Read, Write};

/// What cuts off a run of a script on what a folder has.
#[derive(Clone, Copy)]
pub enum CutRun {
    /// F31 with the first line at fault, F32 where the reader or the writer failed, F33.
    Run(Refusal),
    /// The folder has nothing that a run of a script has left of so many nodes, or can't be read.
    Folder(FolderFault),
}

/// Whether it is a delivery of a message before this number.
fn is_before(call: &Call<'_>, first: u64) -> bool
    ensures { result ≡ is_before first (seen_call call.now) }
{
    match call {
        Call::Deliver { number } => *number < first,
        _ => false,
    }
}

/// The line of the section's first delivery of a message before this number.
fn lost_in(section: &Section, first: u64) -> Option<u64>
    ensures { result ≡ lost_line first section.now }
{
    for at in 0..section.len() {
        let line = section.line(at);
        if is_before(&line.call, first) {
            return Some(line.number);
        }
    }
    None
}

/// The line of the first one in all sections.
fn lost(sections: &VecDeque<Section>, first: u64) -> Option<u64>
    ensures { result ≡ lost_line first (calls_in sections.now.items) }
{
    let mut at = 0;
    while let Some(section) = sections.get(at) {
        if let Some(line) = lost_in(section, first) {
            return Some(line);
        }
        at += 1;
    }
    None
}

/// What the folder has of the nodes that the header asks for, as a process begins with it, and the number of its first message.
fn world_left<F: ReadFolder>(
    alloc: Global,
    folder: &mut F,
    header: &Header,
) -> Result<(World, u64), CutRun>
    requires { IsHeader (seen_header header.now) }
    ensures found { IfOk result (λ found. IfSome (F.files folder.old)
        (λ files. IsBegun files (seen_header header.now) found.1 found.0)) }
    ensures count { IfOk result (λ found. length found.0.nodes ≡ header.now.count) }
    ensures first { IfOk result (λ found. found.0.first ≡ found.1) }
    ensures fault { (fault : SomeFault) → result ≡ Err (OfFolder fault) → IsStop fault ⊎ IfSome (F.files folder.old)
        (λ files. NoneToRun files header.now.count fault) }
    ensures only { IfErr result (λ cut. (refusal : SomeRefusal) → cut ≡ OfRun refusal → refusal ≡ WantOfMemory) }
    ensures same { F.files folder.new ≡ F.files folder.old }
{
    let left = match read_left(alloc, folder, &limits_of(header), header.count) {
        Ok(left) => left,
        Err(fault) => return Err(CutRun::Folder(fault)),
    };
    let Some(first) = left.messages else {
        return Err(CutRun::Folder(FolderFault::BadFile(KeptFile::Record)));
    };
    match World::again(alloc, left.controller, left.nodes, first) {
        Ok(world) => Ok((world, first)),
        Err(_) => Err(CutRun::Run(Refusal::Memory)),
    }
}

/// Plays the script that the reader has left on what a folder has that another run has left: each node is down, in its next life, until
/// the script restarts it; the messages are gone, and numbers go on. It does what [`play_script`](crate::play_script) does else. First
/// the whole script is read: F31 with the first line at fault. Then the folder is, as [`kp_folder::read_left`] does; of one that doesn't
/// say how many messages were sent the record is at fault. Then the first line is F31 that delivers a message which was sent before.
/// In these cases nothing is written. Takes besides time and memory as reading the folder does.
pub fn play_left<R: Read, F: ReadFolder, W: Write>(
    alloc: Global,
    reader: &mut Counted<R>,
    folder: &mut F,
    writer: &mut Counted<W>,
) -> Result<Ended, CutRun>
    requires reads { faults_of reader.old + 1 < 2 ^ 64 }
    requires writes { faults_of writer.old + 1 < 2 ^ 64 }
    ensures played { IfOk result (λ ended. HoldsBehind (F.files folder.old) (λ past.
        WritesTo past (R.remaining (device_of reader.old))
        (W.contents (device_of writer.old)) (W.contents (device_of writer.new)) ended)) }
    ensures line { (line : ℕ) → result ≡ Err (OfRun (BadScript line))
        → IsLineFault (F.files folder.old) (R.remaining (device_of reader.old)) line }
    ensures fault { (fault : SomeFault) → result ≡ Err (OfFolder fault)
        → IsFolderFault (F.files folder.old) (R.remaining (device_of reader.old)) fault }
    ensures untouched { (line : ℕ) → result ≡ Err (OfRun (BadScript line)) → writer.new ≡ writer.old }
    ensures unwritten { (fault : SomeFault) → result ≡ Err (OfFolder fault) → writer.new ≡ writer.old }
    ensures first { result ≡ Err (OfRun WantOfMemory) → HoldsOrKeeps (F.files folder.old)
        (W.contents (device_of writer.old)) (W.contents (device_of writer.new)) (λ past.
        WritesFirst past (R.remaining (device_of reader.old))
        (W.contents (device_of writer.old)) (W.contents (device_of writer.new))) }
    ensures front { OnErr result (HoldsOrKeeps (F.files folder.old)
        (W.contents (device_of writer.old)) (W.contents (device_of writer.new)) (λ past.
        WritesFront past (R.remaining (device_of reader.old))
        (W.contents (device_of writer.old)) (W.contents (device_of writer.new)))) }
    ensures only { IfErr result IsCut }
    ensures same { F.files folder.new ≡ F.files folder.old }
    ensures counted { CountsOne (apart result) (faults_of reader.old) (faults_of reader.new)
        (faults_of writer.old) (faults_of writer.new) }
{
    kp_model::runs_are_safe();
    kp_model::no_delivery_is_refused_oddly();
    kp_world::left_stages_go_on();
    let (script, speller) = match read_script(alloc, reader) {
        Ok(read) => read,
        Err(refusal) => return Err(CutRun::Run(refusal)),
    };
    let (world, first) = world_left(alloc, folder, &script.header)?;
    if let Some(line) = lost(&script.sections, first) {
        return Err(CutRun::Run(Refusal::BadScript(line)));
    }
    match play_on(alloc, script, speller, world, writer) {
        Ok(ended) => Ok(ended),
        Err(refusal) => Err(CutRun::Run(refusal)),
    }
}
