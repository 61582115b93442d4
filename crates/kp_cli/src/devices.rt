//! The file that a call reads, the folder that another one has left, and the folder that it keeps in what it leaves.

ghost use Rattle.std.specs.Prelude.{◌≡◌, [], List, ℕ, Result, IfSome, OnOk, OnErr, ⊤};
ghost use Rattle.kp_types.specs.Folders.{Puts};
ghost use Rattle.kp_cli.specs.declared.fault.Fault.{Fault as SomeFault};

use crate::fault::Fault;
use kp_folder::ReadFolder;
use kp_types::Folder;
use std::io::Read;

/// What remembers why a call of it failed.
pub trait Explained {
    // Why the last of its calls that failed did.
    ghost fault_is: { Self → SomeFault };

    /// Why the last of its calls that failed did; where none has, any reason. O(1).
    fn fault(&self) -> Fault
        ensures { result ≡ fault_is self.now };
}

/// A file that is read: none at first, until one is opened.
pub trait Source: Read + Explained {
    // What opening the file at a path may answer, and what it then is, where that is known.
    ghost opens: { Self → List ℕ → Result (Unit {0}) SomeFault → Self → Type 0 } = { λ _ _ _ _. ⊤ };

    /// Opens the file at the path to read it.
    fn open(&mut self, path: &str) -> Result<(), Fault>
        ensures { opens self.old path.now result self.new };
}

/// A folder that files are put into: none at first, until one is taken.
pub trait KeptFolder: Folder + Explained {
    // What taking the folder at a path may answer, and what it then is, where that is known.
    ghost takes: { Self → List ℕ → Result (Unit {0}) SomeFault → Self → Type 0 } = { λ _ _ _ _. ⊤ };

    /// Takes the folder at the path, which is made where nothing stands there, and else has to be an empty folder. Then nothing
    /// stands in it; where it can't be taken nothing has come anywhere.
    fn take(&mut self, path: &str) -> Result<(), Fault>
        ensures takes { takes self.old path.now result self.new }
        ensures ok { OnOk result (IfSome (Self.entries self.new) (λ all. all ≡ [])) }
        ensures err { OnErr result (Puts (Self.entries self.old) (Self.entries self.new) []) };
}

/// A folder that another run has left, which is read: none at first, until one is entered.
pub trait LeftSource: ReadFolder + Explained {
    // What entering the folder at a path may answer, and what it then is, where that is known.
    ghost enters: { Self → List ℕ → Result (Unit {0}) SomeFault → Self → Type 0 } = { λ _ _ _ _. ⊤ };

    /// Enters the folder at the path, to read what stands in it.
    fn enter(&mut self, path: &str) -> Result<(), Fault>
        ensures { enters self.old path.now result self.new };
}
