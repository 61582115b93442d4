//! The files and folders of the host.

ghost use Rattle.std.specs.Prelude.{◌≡◌, IfErr};
ghost use Rattle.kp_types.specs.Devices.{IsDeviceFault};

use crate::devices::{Explained, KeptFolder, LeftSource, Source};
use crate::fault::Fault;
use kp_folder::ReadFolder;
use kp_types::{Folder, Refusal};
use std::alloc::Global;
use std::fs::{self, File};
use std::io::{self, ErrorKind, Read, Write};

/// A file of the host to be read, once it is open.
#[derive(Drop)]
pub struct HostFile<'a> {
    rt: &'a HostRuntime,
    file: Option<File>,
    fault: Fault,
}

/// The mark of a folder that is taken: a folder `.taken` in it, so that it isn't empty, and no other session takes it. It goes with this
/// value.
struct Claim<'a> {
    rt: &'a HostRuntime,
    mark: String,
}

/// A folder of the host, once it is taken, and the file that was begun in it last. From being taken on it holds a folder `.taken`, until
/// the first folder is made in it, or the value is dropped. A process that is killed before leaves that folder: then it is the user's to
/// remove.
#[derive(Drop)]
pub struct HostFolder<'a> {
    rt: &'a HostRuntime,
    path: String,
    claim: Option<Claim<'a>>,
    file: Option<File>,
    fault: Fault,
}

/// A folder of the host that another run has left, once it is entered.
#[derive(Drop)]
pub struct HostLeft<'a> {
    rt: &'a HostRuntime,
    path: String,
    fault: Fault,
}

impl<'a> HostFile<'a> {
    /// No file yet: [`Source::open`] opens one, and before that a read is refused as of a file that isn't there.
    pub fn new(rt: &'a HostRuntime) -> HostFile<'a> {
        HostFile {
            rt,
            file: None,
            fault: Fault::Other,
        }
    }
}

impl Explained for HostFile<'_> {
    ghost fault_is = { λ file. file.fault };

    fn fault(&self) -> Fault {
        self.fault
    }
}

impl Source for HostFile<'_> {
    fn open(&mut self, path: &str) -> Result<(), Fault> {
        match fs::open(self.rt, path) {
            Ok(file) => {
                self.file = Some(file);
                Ok(())
            }
            Err(error) => Err(Fault::of(&error)),
        }
    }
}

impl Read for HostFile<'_> {
    fn read(&mut self, buf: &mut [u8]) -> io::Result<usize> {
        let Some(file) = &mut self.file else {
            return Err(io::Error::from(ErrorKind::NotFound));
        };
        match file.read(buf) {
            Ok(count) => Ok(count),
            Err(error) => {
                self.fault = Fault::of(&error);
                Err(error)
            }
        }
    }
}

impl<'a> Claim<'a> {
    /// Puts the mark at this path, unless one stands there. Of several sessions that do this at once one succeeds.
    fn put(rt: &'a HostRuntime, mark: String) -> Result<Claim<'a>, Fault> {
        match fs::create_dir(rt, &mark) {
            Ok(()) => Ok(Claim { rt, mark }),
            Err(error) if error.kind() == ErrorKind::AlreadyExists => Err(Fault::NotEmpty),
            Err(error) => Err(Fault::of_folder(&error)),
        }
    }
}

// Where the mark can't be removed it stays, and the folder isn't empty.
impl Drop for Claim<'_> {
    fn drop(self) {
        let _ = fs::remove_dir(self.rt, &self.mark);
        let Claim { rt: _, mark: _ } = self;
    }
}

impl<'a> HostFolder<'a> {
    /// No folder yet: [`KeptFolder::take`] takes one, and is to be called first.
    pub fn new(rt: &'a HostRuntime) -> HostFolder<'a> {
        HostFolder {
            rt,
            path: String::new(rt.alloc()),
            claim: None,
            file: None,
            fault: Fault::Other,
        }
    }

    /// The path of this name in the folder.
    fn path_of(&self, name: &str) -> Result<String, Refusal>
        ensures { IfErr result IsDeviceFault }
    {
        let folder = self.path.as_str();
        let path = format!(in self.rt.alloc(); "{folder}/{name}")?;
        Ok(path)
    }

    /// Keeps why a call failed.
    fn failed(&mut self, error: &io::Error) -> Result<(), Refusal>
        ensures { IfErr result IsDeviceFault }
    {
        let fault = Fault::of(error);
        self.fault = fault;
        Err(fault.refusal())
    }
}

impl Explained for HostFolder<'_> {
    ghost fault_is = { λ folder. folder.fault };

    fn fault(&self) -> Fault {
        self.fault
    }
}

impl KeptFolder for HostFolder<'_> {
    fn take(&mut self, path: &str) -> Result<(), Fault> {
        let Ok(copy) = String::from_str(self.rt.alloc(), path) else {
            return Err(Fault::OutOfMemory);
        };
        let Ok(mark) = format!(in self.rt.alloc(); "{path}/.taken") else {
            return Err(Fault::OutOfMemory);
        };
        let is_new = make_or_see_empty(self.rt, path)?;
        match Claim::put(self.rt, mark) {
            Ok(claim) => {
                self.path = copy;
                self.claim = Some(claim);
                Ok(())
            }
            Err(fault) => {
                if is_new {
                    let _ = fs::remove_dir(self.rt, path);
                }
                Err(fault)
            }
        }
    }
}

/// Makes a folder at this path, or sees that one stands there with nothing in it. Answers whether it was made.
fn make_or_see_empty(rt: &HostRuntime, path: &str) -> Result<bool, Fault> {
    match fs::create_dir(rt, path) {
        Ok(()) => Ok(true),
        Err(error) if error.kind() == ErrorKind::AlreadyExists => {
            see_empty(rt, path)?;
            Ok(false)
        }
        Err(error) => Err(Fault::of_folder(&error)),
    }
}

/// Whether nothing stands in the folder at this path, at which something stands.
fn see_empty(rt: &HostRuntime, path: &str) -> Result<(), Fault> {
    match fs::read_dir(rt, path) {
        Ok(mut entries) => match entries.next() {
            None => Ok(()),
            Some(Ok(_)) => Err(Fault::NotEmpty),
            Some(Err(error)) => Err(Fault::of_folder(&error)),
        },
        Err(error) => Err(Fault::of_standing(&error)),
    }
}

impl Folder for HostFolder<'_> {
    fn make_folder(&mut self, name: &str) -> Result<(), Refusal> {
        let path = self.path_of(name)?;
        match fs::create_dir(self.rt, &path) {
            Ok(()) => {
                self.claim = None;
                Ok(())
            }
            Err(error) => self.failed(&error),
        }
    }

    fn begin(&mut self, name: &str) -> Result<(), Refusal> {
        let path = self.path_of(name)?;
        match File::create_new(self.rt, &path) {
            Ok(file) => {
                self.file = Some(file);
                Ok(())
            }
            Err(error) => self.failed(&error),
        }
    }

    fn append(&mut self, bytes: &[u8]) -> Result<(), Refusal> {
        let Some(file) = &mut self.file else {
            return Err(Refusal::Device);
        };
        match file.write_all(bytes) {
            Ok(()) => Ok(()),
            Err(error) => self.failed(&error),
        }
    }
}

impl<'a> HostLeft<'a> {
    /// No folder yet: [`LeftSource::enter`] enters one, and is to be called first.
    pub fn new(rt: &'a HostRuntime) -> HostLeft<'a> {
        HostLeft {
            rt,
            path: String::new(rt.alloc()),
            fault: Fault::Other,
        }
    }
}

impl Explained for HostLeft<'_> {
    ghost fault_is = { λ left. left.fault };

    fn fault(&self) -> Fault {
        self.fault
    }
}

impl LeftSource for HostLeft<'_> {
    fn enter(&mut self, path: &str) -> Result<(), Fault> {
        let Ok(copy) = String::from_str(self.rt.alloc(), path) else {
            return Err(Fault::OutOfMemory);
        };
        match fs::read_dir(self.rt, path) {
            Ok(_) => {
                self.path = copy;
                Ok(())
            }
            Err(error) if error.kind() == ErrorKind::NotADirectory => Err(Fault::IsNoFolder),
            Err(error) => Err(Fault::of(&error)),
        }
    }
}

impl ReadFolder for HostLeft<'_> {
    fn file(&mut self, alloc: Global, name: &str) -> Result<Option<Vec<u8>>, Refusal> {
        let folder = self.path.as_str();
        let path = format!(in alloc; "{folder}/{name}")?;
        match fs::read(self.rt, path) {
            Ok(bytes) => Ok(Some(bytes)),
            Err(error) if error.kind() == ErrorKind::NotFound => Ok(None),
            Err(error) => {
                let fault = Fault::of(&error);
                self.fault = fault;
                Err(fault.refusal())
            }
        }
    }
}
