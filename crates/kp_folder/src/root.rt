//! A folder that is read.

ghost use Rattle.std.specs.Prelude.{◌≡◌, IfErr, IfOk};
ghost use Rattle.kp_folder.specs.Bad.{IsStop};
ghost use Rattle.kp_folder.specs.Files.{IsFile};

use crate::fault::{FolderFault, KeptFile};
use kp_types::Refusal;
use std::alloc::Global;

/// A folder whose files are read by name. Names are paths relative to it.
pub trait ReadFolder {
    ghost use Rattle.std.specs.Prelude.{◌≡◌, Option, None, IfErr, IfOk};
    ghost use Rattle.kp_types.specs.Devices.{IsDeviceFault};
    ghost use Rattle.kp_folder.specs.Files.{Files, IsFile};

    // The bytes of the file of each name, where they are known.
    ghost files: { Self → Option Files } = { λ _. None };

    /// The bytes of the file of this name; none where there is no such file. F32, F33.
    fn file(&mut self, alloc: Global, name: &str) -> Result<Option<Vec<u8>>, Refusal>
        ensures found { IfOk result (IsFile (files self.old) name.now) }
        ensures same { files self.new ≡ files self.old }
        ensures only { IfErr result IsDeviceFault };
}

// The bytes of this file, which has this name.
pub(crate) fn read_file<F: ReadFolder>(
    alloc: Global,
    folder: &mut F,
    file: KeptFile,
    name: &str,
) -> Result<Option<Vec<u8>>, FolderFault>
    ensures found { IfOk result (IsFile (F.files folder.old) name.now) }
    ensures fault { IfErr result IsStop }
    ensures same { F.files folder.new ≡ F.files folder.old }
{
    match folder.file(alloc, name) {
        Ok(bytes) => Ok(bytes),
        Err(Refusal::Memory) => Err(FolderFault::NoMemory),
        Err(_) => Err(FolderFault::Unread(file)),
    }
}
