//! Devices over memory whose call of a given number fails, for tests.

ghost use Rattle.std.specs.Prelude.{IfErr, Some};
ghost use Rattle.kp_types.specs.Devices.{IsDeviceFault};

use crate::folder::Folder;
use crate::refusal::Refusal;
use std::alloc::Global;
use std::io::{self, ErrorKind, Read, Write};

/// A reader and writer over memory whose call of a given number fails, once, and then goes on. For tests.
#[derive(Drop)]
pub struct Faulty {
    /// What is read, or was written.
    pub bytes: Vec<u8>,
    /// How many bytes have been read.
    pub place: usize,
    /// How many calls go well before the one that fails.
    pub calls_left: u64,
}

impl Faulty {
    /// A writer with nothing in it, or a reader of these bytes, whose call number `fails` fails, the
    /// first being number 0.
    pub fn new(bytes: Vec<u8>, fails: u64) -> Faulty {
        Faulty {
            bytes,
            place: 0,
            calls_left: fails,
        }
    }

    fn call(&mut self) -> io::Result<()> {
        match self.calls_left.checked_sub(1) {
            Some(left) => {
                self.calls_left = left;
                Ok(())
            }
            None => {
                self.calls_left = u64::MAX;
                Err(io::Error::from(ErrorKind::BrokenPipe))
            }
        }
    }
}

impl Read for Faulty {
    fn read(&mut self, buf: &mut [u8]) -> io::Result<usize> {
        self.call()?;
        let mut left = self.bytes.get(self.place..).unwrap_or(&[]);
        let count = left.read(buf)?;
        self.place = self.place.saturating_add(count);
        Ok(count)
    }
}

impl Write for Faulty {
    fn write(&mut self, buf: &[u8]) -> io::Result<usize> {
        self.call()?;
        self.bytes.write(buf)
    }

    fn flush(&mut self) -> io::Result<()> {
        self.call()
    }
}

/// A folder in memory whose call of a given number fails, once, and then goes on; of a write that fails half is done. For
/// tests.
#[derive(Drop)]
pub struct FaultyFolder {
    /// What stands in it, by name: a file has bytes, a folder none.
    pub entries: Vec<(String, Option<Vec<u8>>)>,
    /// How many calls go well before the one that fails.
    pub calls_left: u64,
}

impl FaultyFolder {
    /// A folder with nothing in it, whose call number `fails` fails, the first being number 0.
    pub fn new(alloc: Global, fails: u64) -> FaultyFolder {
        FaultyFolder {
            entries: Vec::new(alloc),
            calls_left: fails,
        }
    }

    fn call(&mut self) -> Result<(), Refusal>
        ensures { IfErr result IsDeviceFault }
    {
        match self.calls_left.checked_sub(1) {
            Some(left) => {
                self.calls_left = left;
                Ok(())
            }
            None => {
                self.calls_left = u64::MAX;
                Err(Refusal::Device)
            }
        }
    }

    fn put(&mut self, name: &str, bytes: Option<Vec<u8>>) -> Result<(), Refusal>
        ensures { IfErr result IsDeviceFault }
    {
        self.call()?;
        let alloc = *self.entries.allocator();
        let name = String::from_str(alloc, name)?;
        self.entries.push((name, bytes))?;
        Ok(())
    }
}

impl Folder for FaultyFolder {
    fn make_folder(&mut self, name: &str) -> Result<(), Refusal> {
        self.put(name, None)
    }

    fn begin(&mut self, name: &str) -> Result<(), Refusal> {
        let alloc = *self.entries.allocator();
        self.put(name, Some(Vec::new(alloc)))
    }

    fn append(&mut self, bytes: &[u8]) -> Result<(), Refusal> {
        let called = self.call();
        let count = match called {
            Ok(()) => bytes.len(),
            Err(_) => bytes.len() / 2,
        };
        if let Some((_, Some(all))) = self.entries.last_mut() {
            if let Err(_) = all.extend_from_slice(&bytes[..count]) {
                return Err(Refusal::Memory);
            }
        }
        called
    }
}
