//! What is said on standard error.

ghost use Rattle.std.specs.Prelude.{◌≡◌, ◌+◌, ◌<◌, ◌≤◌, ◌^◌, ◌++◌, ℕ, List, length, IfOk, OnOk, OnErr, codes};
ghost use Rattle.arrayvec.specs.ArrayVec.{array_vec_len};
ghost use Rattle.kp_types.specs.Devices.{IsBegun, IsOut, Tells, faults_of};
ghost use Rattle.kp_types.specs.Texts.{place_of, place_text};
ghost use Rattle.kp_cli.specs.Program.{words_complaint, words_status};
ghost use Rattle.kp_cli.specs.Told.{complaint, file_complaint, hex_digit, is_plain, lone_reason, reason, reason_of, shown, shown_byte, shown_bytes, tame_byte, tamed};
ghost use Rattle.kp_cli.specs.Told.{status_of_refusal};
ghost use Rattle.kp_cli.specs.Left.{fault_place, fault_told, file_place, folder_complaint};
ghost use Rattle.kp_folder.specs.Bad.{refusal_of as refusal_of_folder};

use crate::devices::Explained;
use crate::fault::Fault;
use arrayvec::ArrayVec;
use itoa::Buffer;
use kp_folder::{FolderFault, KeptFile};
use kp_types::{Counted, Refusal};
use std::alloc::{AllocError, Global};
use std::io::Write;

/// How many bytes of a path are shown.
const PATH: usize = 1_024;

/// The most bytes that a path is shown by.
const SHOWN: usize = 4_099;

fn hex_digit(digit: u8) -> u8
    requires { digit < 16 }
    ensures { result ≡ hex_digit digit }
{
    if digit < 10 { 48 + digit } else { 87 + digit }
}

fn is_plain(before: u8, byte: u8) -> bool
    ensures { result ≡ is_plain before byte }
{
    !(byte < 32) && byte != b'\\' && byte != 127 && byte != 194 && before != 194
}

/// Puts one byte of a path behind those that are shown.
fn show_byte(shown: &mut ArrayVec<u8, SHOWN>, before: u8, byte: u8)
    requires { array_vec_len shown.old + 4 ≤ 4099 }
    ensures { shown.new.items ≡ shown.old.items ++ shown_byte before byte }
{
    if is_plain(before, byte) {
        shown.push(byte);
    } else {
        shown.push(b'\\');
        shown.push(b'x');
        shown.push(hex_digit(byte / 16));
        shown.push(hex_digit(byte % 16));
    }
}

/// The bytes of a path as they are shown.
fn show_bytes(path: &[u8]) -> ArrayVec<u8, SHOWN>
    requires { length path.now ≤ 1024 }
    ensures bytes { result.items ≡ shown_bytes 0 path.now }
    ensures length { array_vec_len result ≤ 4096 }
{
    let mut shown = ArrayVec::new();
    let mut before = 0;
    for byte in path {
        show_byte(&mut shown, before, *byte);
        before = *byte;
    }
    shown
}

/// How a path is shown, so that no terminal obeys it: a byte stands for itself, but for control bytes, DEL, the backslash, and
/// both bytes of a sign from U+0080 to U+00BF, which stand as `\xHH`. Of a path of more than 1,024 bytes stand the first
/// 1,024, and three dots. Own rule. O(n) in the path, and no memory.
fn show(path: &str) -> ArrayVec<u8, SHOWN>
    ensures { result.items ≡ shown path.now }
{
    let bytes = path.as_bytes();
    if bytes.len() <= PATH {
        return show_bytes(bytes);
    }
    let mut shown = show_bytes(&bytes[..PATH]);
    shown.push(b'.');
    shown.push(b'.');
    shown.push(b'.');
    shown
}

/// Puts one byte of a text of several lines behind those that are shown.
fn push_tame(tame: &mut Vec<u8>, before: u8, byte: u8) -> Result<(), AllocError>
    ensures { OnOk result (tame.new.items ≡ tame.old.items ++ tame_byte before byte) }
{
    if byte == b'\n' || is_plain(before, byte) {
        tame.push(byte)?;
    } else {
        tame.push(b'\\')?;
        tame.push(b'x')?;
        tame.push(hex_digit(byte / 16))?;
        tame.push(hex_digit(byte % 16))?;
    }
    Ok(())
}

/// How a text of several lines that may quote words is shown, so that no terminal obeys it: as [`show`] shows a path, but with its line
/// feeds, and whole. Own rule. O(n) in the text.
pub(crate) fn tame(alloc: Global, text: &[u8]) -> Result<Vec<u8>, AllocError>
    ensures { IfOk result (λ tame. tame.items ≡ tamed text.now) }
{
    let mut tame = Vec::new(alloc);
    let mut before = 0;
    for byte in text {
        push_tame(&mut tame, before, *byte)?;
        before = *byte;
    }
    Ok(tame)
}

/// The blank and the place that stand behind a refusal's name, where it has a place.
fn place_in<'b>(refusal: Refusal, buffer: &'b mut Buffer) -> (&'static str, &'b str)
    ensures { result.0.now ++ result.1.now ≡ place_text (place_of refusal) }
{
    match refusal.place() {
        Some(place) => (" ", buffer.format(place)),
        None => ("", ""),
    }
}

/// Says what was refused, as `kpart: F32 Device`, by one write.
fn complain<E: Write>(err: &mut Counted<E>, refusal: Refusal) -> Result<(), Refusal>
    requires { faults_of err.old + 1 < 2 ^ 64 }
    ensures ok { OnOk result (IsOut E.contents err.old err.new (complaint refusal)) }
    ensures err { OnErr result (IsBegun E.contents err.old err.new (complaint refusal)) }
{
    let mut buffer = Buffer::new();
    let (gap, place) = place_in(refusal, &mut buffer);
    err.write_each(&[
        "kpart: ".as_bytes(),
        refusal.head().as_bytes(),
        gap.as_bytes(),
        place.as_bytes(),
        "\n".as_bytes(),
    ])
}

/// Says what was refused, and on a second line which file or folder it is, and why, as `kpart: PATH: no such file`, by one
/// write.
fn complain_at<E: Write>(
    err: &mut Counted<E>,
    refusal: Refusal,
    path: &str,
    fault: Fault,
) -> Result<(), Refusal>
    requires { faults_of err.old + 1 < 2 ^ 64 }
    ensures ok { OnOk result (IsOut E.contents err.old err.new (complaint refusal ++ reason path.now fault)) }
    ensures err { OnErr result (IsBegun E.contents err.old err.new (complaint refusal ++ reason path.now fault)) }
{
    let mut buffer = Buffer::new();
    let (gap, place) = place_in(refusal, &mut buffer);
    let shown = show(path);
    err.write_each(&[
        "kpart: ".as_bytes(),
        refusal.head().as_bytes(),
        gap.as_bytes(),
        place.as_bytes(),
        "\nkpart: ".as_bytes(),
        shown.as_slice(),
        ": ".as_bytes(),
        fault.text().as_bytes(),
        "\n".as_bytes(),
    ])
}

/// Says on standard error what was refused, as `kpart: F32 Device`, and answers the exit status: 2 for a fault
/// of the script, else 1. Where standard error fails, its count rises by one, and a beginning is out. It takes no
/// memory.
pub fn refuse<E: Write>(err: &mut Counted<E>, refusal: Refusal) -> u8
    requires { faults_of err.old + 1 < 2 ^ 64 }
    ensures told { Tells E.contents err.old err.new (complaint refusal) }
    ensures status { result ≡ status_of_refusal refusal }
{
    let _ = complain(err, refusal);
    status_of(refusal)
}

/// Says on standard error what was refused, and on a second line, where calls of this file or folder have failed since it had
/// so many faults, which one it is, and why. Answers the exit status.
pub(crate) fn refuse_since<T: Explained, E: Write>(
    err: &mut Counted<E>,
    refusal: Refusal,
    path: &str,
    left: &Counted<T>,
    faults: u64,
) -> u8
    requires { faults_of err.old + 1 < 2 ^ 64 }
    ensures told { Tells E.contents err.old err.new (complaint refusal ++ reason_of T.fault_is path.now faults left.now) }
    ensures status { result ≡ status_of_refusal refusal }
{
    if left.faults() == faults {
        return refuse(err, refusal);
    }
    let _ = complain_at(err, refusal, path, left.device().fault());
    status_of(refusal)
}

/// Says on standard error that a file can't be opened, or a folder not be taken, and on a second line which one, and why.
/// Answers the exit status, 1.
pub(crate) fn refuse_path<E: Write>(err: &mut Counted<E>, path: &str, fault: Fault) -> u8
    requires { faults_of err.old + 1 < 2 ^ 64 }
    ensures told { Tells E.contents err.old err.new (file_complaint path.now fault) }
    ensures status { result ≡ 1 }
{
    let _ = complain_at(err, fault.refusal(), path, fault);
    1
}

/// Where in a folder a fault lies, in pieces: three words, each with a number behind it or nothing.
#[derive(Clone, Copy)]
struct Lies<'b> {
    node: (&'static str, &'b str),
    segment: (&'static str, &'b str),
    byte: (&'static str, &'b str),
}

/// Memory for the digits of its numbers.
#[derive(Drop)]
struct Digits {
    node: Buffer,
    offset: Buffer,
    byte: Buffer,
}

/// Where a file of a folder lies.
fn file_at<'b>(file: KeptFile, digits: &'b mut Digits) -> Lies<'b>
    ensures { (rest : List ℕ) → result.node.0.now ++ (result.node.1.now ++ (result.segment.0.now ++ (result.segment.1.now
        ++ (result.byte.0.now ++ (result.byte.1.now ++ rest))))) ≡ file_place file rest }
{
    match file {
        KeptFile::Record => Lies {
            node: ("/record", ""),
            segment: ("", ""),
            byte: ("", ""),
        },
        KeptFile::State(number) => Lies {
            node: ("/node-", digits.node.format(number)),
            segment: ("/state", ""),
            byte: ("", ""),
        },
        KeptFile::Segment(number, from) => Lies {
            node: ("/node-", digits.node.format(number)),
            segment: (", the segment at offset ", digits.offset.format(from)),
            byte: ("", ""),
        },
    }
}

/// Where a fault of a folder lies.
fn lies_at<'b>(fault: FolderFault, digits: &'b mut Digits) -> Lies<'b>
    ensures { (rest : List ℕ) → result.node.0.now ++ (result.node.1.now ++ (result.segment.0.now ++ (result.segment.1.now
        ++ (result.byte.0.now ++ (result.byte.1.now ++ rest))))) ≡ fault_place fault rest }
{
    match fault {
        FolderFault::NoMemory => Lies {
            node: ("", ""),
            segment: ("", ""),
            byte: ("", ""),
        },
        FolderFault::Unread(file) | FolderFault::BadFile(file) => file_at(file, digits),
        FolderFault::BadBatch(number, from, place, _) => Lies {
            node: ("/node-", digits.node.format(number)),
            segment: (", the segment at offset ", digits.offset.format(from)),
            byte: (", byte ", digits.byte.format(place)),
        },
        FolderFault::BadNode(number, _) => Lies {
            node: ("/node-", digits.node.format(number)),
            segment: ("", ""),
            byte: ("", ""),
        },
    }
}

/// What a fault of a folder is; of a file that can't be read this reason.
fn told_of(why: Fault, fault: FolderFault) -> &'static str
    ensures { result.now ≡ fault_told why fault }
{
    match fault {
        FolderFault::Unread(_) => why.text(),
        FolderFault::NoMemory => "",
        FolderFault::BadFile(_) => "it isn't there, or isn't what a run leaves",
        FolderFault::BadBatch(_, _, _, _) => "no batch begins there",
        FolderFault::BadNode(_, _) => "its log and its state are of no node",
    }
}

/// Says what was refused, and on a second line where in the folder at this path the fault lies, and what it is, by one write.
fn complain_within<E: Write>(
    err: &mut Counted<E>,
    path: &str,
    why: Fault,
    fault: FolderFault,
) -> Result<(), Refusal>
    requires { faults_of err.old + 1 < 2 ^ 64 }
    ensures ok { OnOk result (IsOut E.contents err.old err.new (complaint (refusal_of_folder fault) ++ (codes "kpart: "
        ++ (shown path.now ++ fault_place fault (codes ": " ++ (fault_told why fault ++ codes "\n")))))) }
    ensures err { OnErr result (IsBegun E.contents err.old err.new (complaint (refusal_of_folder fault) ++ (codes "kpart: "
        ++ (shown path.now ++ fault_place fault (codes ": " ++ (fault_told why fault ++ codes "\n")))))) }
{
    let mut buffer = Buffer::new();
    let mut digits = Digits {
        node: Buffer::new(),
        offset: Buffer::new(),
        byte: Buffer::new(),
    };
    let refusal = fault.refusal();
    let (gap, place) = place_in(refusal, &mut buffer);
    let shown = show(path);
    let lies = lies_at(fault, &mut digits);
    err.write_each(&[
        "kpart: ".as_bytes(),
        refusal.head().as_bytes(),
        gap.as_bytes(),
        place.as_bytes(),
        "\nkpart: ".as_bytes(),
        shown.as_slice(),
        lies.node.0.as_bytes(),
        lies.node.1.as_bytes(),
        lies.segment.0.as_bytes(),
        lies.segment.1.as_bytes(),
        lies.byte.0.as_bytes(),
        lies.byte.1.as_bytes(),
        ": ".as_bytes(),
        told_of(why, fault).as_bytes(),
        "\n".as_bytes(),
    ])
}

/// Says on standard error why what a folder has isn't gone on with, and on a second line where in it the fault lies, and what it is;
/// `why` is the reason of the last call of the folder that failed. Answers the exit status.
pub(crate) fn refuse_folder<E: Write>(
    err: &mut Counted<E>,
    path: &str,
    why: Fault,
    fault: FolderFault,
) -> u8
    requires { faults_of err.old + 1 < 2 ^ 64 }
    ensures told { Tells E.contents err.old err.new (folder_complaint path.now why fault) }
    ensures status { result ≡ status_of_refusal (refusal_of_folder fault) }
{
    match fault {
        FolderFault::NoMemory => refuse(err, Refusal::Memory),
        _ => {
            let _ = complain_within(err, path, why, fault);
            status_of(fault.refusal())
        }
    }
}

/// 2 for a fault of the script, and 1 else.
fn status_of(refusal: Refusal) -> u8
    ensures { result ≡ status_of_refusal refusal }
{
    match refusal {
        Refusal::BadScript(_) => 2,
        _ => 1,
    }
}

/// Says why, as `kpart: an argument isn't UTF-8`, by one write.
fn complain_alone<E: Write>(err: &mut Counted<E>, fault: Fault) -> Result<(), Refusal>
    requires { faults_of err.old + 1 < 2 ^ 64 }
    ensures ok { OnOk result (IsOut E.contents err.old err.new (lone_reason fault)) }
    ensures err { OnErr result (IsBegun E.contents err.old err.new (lone_reason fault)) }
{
    err.write_each(&[
        "kpart: ".as_bytes(),
        fault.text().as_bytes(),
        "\n".as_bytes(),
    ])
}

/// Says on standard error why the words couldn't be read, and answers the exit status: 2 where one isn't UTF-8, else 1.
pub(crate) fn refuse_words<E: Write>(err: &mut Counted<E>, fault: Fault) -> u8
    requires { faults_of err.old + 1 < 2 ^ 64 }
    ensures told { Tells E.contents err.old err.new (words_complaint fault) }
    ensures status { result ≡ words_status fault }
{
    match fault {
        Fault::NotText => {
            let _ = complain_alone(err, Fault::NotText);
            2
        }
        _ => refuse(err, fault.refusal()),
    }
}
