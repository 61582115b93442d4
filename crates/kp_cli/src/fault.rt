//! Why a file or a folder can't be had.

ghost use Rattle.std.specs.Prelude.{◌≡◌, Some};
ghost use Rattle.kp_cli.specs.Faults.{fault_of, fault_text, folder_fault_of, kind_fault, number_fault, refusal_of, standing_fault_of};

use kp_types::Refusal;
use std::fmt;
use std::io::{self, ErrorKind};
use thiserror::Error;

/// Linux's EIO.
const DEVICE_FAILED: i32 = 5;

/// Linux's ENFILE: the system has as many files open as it may.
const SYSTEM_FULL: i32 = 23;

/// Linux's EMFILE: the program has.
const PROGRAM_FULL: i32 = 24;

/// Why a file can't be opened or read, or a folder not be taken or written, or the words not be read.
#[derive(Clone, Copy, Debug, PartialEq, Eq, Error)]
pub enum Fault {
    /// No file stands at the path.
    NoSuchFile,
    /// No folder stands above the path of a folder that is to be made.
    NoFolderAbove,
    /// The user has no right to do it.
    NoPermission,
    /// Something of that name is there already: another run has made it meanwhile.
    AlreadyThere,
    /// A part of a file's path is no folder.
    PartIsNoFolder,
    /// What stands at a folder's path is no folder, or a part of the path is none.
    IsNoFolder,
    /// What stands at a file's path is a folder.
    IsAFolder,
    /// The folder isn't empty.
    NotEmpty,
    /// Its file system can't be written.
    ReadOnly,
    /// The links of its path lead back to one another.
    LinksInACircle,
    /// The disk has no room, or its file system no entry for one more file.
    DiskFull,
    /// The user's quota of the disk is used up.
    QuotaUsed,
    /// The file would have more bytes than its file system allows.
    TooLarge,
    /// A name of the path is too long.
    NameTooLong,
    /// What stands at a folder's path is a link, and nothing stands where it leads.
    DanglingLink,
    /// The program or the system has as many files open as it may.
    TooManyFiles,
    /// The device that it lies on failed.
    DeviceFailed,
    /// Memory ran out.
    OutOfMemory,
    /// An argument of the command line isn't UTF-8.
    NotText,
    /// Any other error of the system.
    Other,
}

/// The reason of an error number that has no kind of its own.
fn numbered(code: Option<i32>) -> Option<Fault>
    ensures { result ≡ number_fault code }
{
    let code = code?;
    if code == DEVICE_FAILED {
        Some(Fault::DeviceFailed)
    } else if code == SYSTEM_FULL || code == PROGRAM_FULL {
        Some(Fault::TooManyFiles)
    } else {
        None
    }
}

impl Fault {
    /// The reason that an error of the system is of a file. O(1).
    pub fn of(error: &io::Error) -> Fault
        ensures { result ≡ fault_of error.now }
    {
        match numbered(error.raw_os_error()) {
            Some(fault) => fault,
            None => Fault::of_kind(error.kind()),
        }
    }

    /// The reason that a kind of the system's errors is of a file.
    fn of_kind(kind: ErrorKind) -> Fault
        ensures { result ≡ kind_fault kind }
    {
        match kind {
            ErrorKind::NotFound => Fault::NoSuchFile,
            ErrorKind::PermissionDenied => Fault::NoPermission,
            ErrorKind::AlreadyExists => Fault::AlreadyThere,
            ErrorKind::NotADirectory => Fault::PartIsNoFolder,
            ErrorKind::IsADirectory => Fault::IsAFolder,
            ErrorKind::DirectoryNotEmpty => Fault::NotEmpty,
            ErrorKind::ReadOnlyFilesystem => Fault::ReadOnly,
            ErrorKind::FilesystemLoop => Fault::LinksInACircle,
            ErrorKind::StorageFull => Fault::DiskFull,
            ErrorKind::QuotaExceeded => Fault::QuotaUsed,
            ErrorKind::FileTooLarge => Fault::TooLarge,
            ErrorKind::InvalidFilename => Fault::NameTooLong,
            ErrorKind::OutOfMemory => Fault::OutOfMemory,
            _ => Fault::Other,
        }
    }

    /// The reason that an error of the system is of a folder that is to be made or looked into. O(1).
    pub fn of_folder(error: &io::Error) -> Fault
        ensures { result ≡ folder_fault_of error.now }
    {
        match error.kind() {
            ErrorKind::NotFound => Fault::NoFolderAbove,
            ErrorKind::NotADirectory => Fault::IsNoFolder,
            _ => Fault::of(error),
        }
    }

    /// The reason that an error of the system is of what stands at a folder's path, and is looked into. O(1).
    pub fn of_standing(error: &io::Error) -> Fault
        ensures { result ≡ standing_fault_of error.now }
    {
        match error.kind() {
            ErrorKind::NotFound => Fault::DanglingLink,
            _ => Fault::of_folder(error),
        }
    }

    /// The refusal that it is: F33 where memory ran out, else F32. O(1).
    pub fn refusal(self) -> Refusal
        ensures { result ≡ refusal_of self }
    {
        match self {
            Fault::OutOfMemory => Refusal::Memory,
            _ => Refusal::Device,
        }
    }

    /// How it is told, as `no such file`. O(1).
    pub fn text(&self) -> &'static str
        ensures { result.now ≡ fault_text self.now }
    {
        match self {
            Fault::NoSuchFile => "no such file",
            Fault::NoFolderAbove => "the folder above it isn't there",
            Fault::NoPermission => "permission denied",
            Fault::AlreadyThere => "something of that name is there already",
            Fault::PartIsNoFolder => "a part of its path is no folder",
            Fault::IsNoFolder => "it is no folder, or a part of its path is none",
            Fault::IsAFolder => "it is a folder",
            Fault::NotEmpty => "it isn't empty",
            Fault::ReadOnly => "its file system can't be written",
            Fault::LinksInACircle => "its links go round in a circle",
            Fault::DiskFull => "the disk is full",
            Fault::QuotaUsed => "the quota of the disk is used up",
            Fault::TooLarge => "the file would be too large",
            Fault::NameTooLong => "its name is too long",
            Fault::DanglingLink => "it is a link that leads nowhere",
            Fault::TooManyFiles => "too many files are open",
            Fault::DeviceFailed => "its device failed",
            Fault::OutOfMemory => "out of memory",
            Fault::NotText => "an argument isn't UTF-8",
            Fault::Other => "the system gave no reason that is known here",
        }
    }
}

/// How it is told: its text.
impl fmt::Display for Fault {
    ghost output = { λ fault. Some (fault_text fault) };

    fn fmt<W: fmt::Write>(&self, f: &mut fmt::Formatter<W>) -> fmt::Result {
        f.write_str(self.text())
    }
}
