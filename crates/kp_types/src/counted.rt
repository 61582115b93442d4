//! A reader or a writer with the count of its calls that failed.

ghost use Rattle.std.specs.Prelude.{◌≡◌, ◌+◌, ◌<◌, ◌^◌, ◌++◌, ℕ, List, IfOk, IfErr, IfSome, OnOk, OnErr, ◌≤◌};
ghost use Rattle.std.specs.List.{flat_map};
ghost use Rattle.std.specs.Io.KnownBytes.{Appends, Consumes, IsAtEnd};
ghost use Rattle.kp_types.specs.declared.refusal.Refusal.TheVariants.{Device};
ghost use Rattle.kp_types.specs.Devices.{CountsFaults, AppendsFront, IsDeviceFault, IsOut, IsBegun, device_of, faults_of};

use crate::refusal::Refusal;
use arrayvec::ArrayVec;
use std::alloc::Global;
use std::io::{ErrorKind, Read, Write};

/// How many bytes of small texts are joined, to be written at once.
pub const JOINED_BYTES: usize = 8192;

/// A reader or a writer with the count of its calls that failed. Only its own calls reach the device, and they
/// answer F32 exactly where the count rises. That it rises only where the device failed is tested, not proved.
#[derive(Drop)]
pub struct Counted<T> {
    pub(crate) inner: T,
    failed: u64,
}

impl<T> Counted<T> {
    /// The device, none of whose calls has failed yet.
    pub fn new(inner: T) -> Counted<T>
        ensures device { device_of result ≡ inner }
        ensures faults { faults_of result ≡ 0 }
    {
        Counted { inner, failed: 0 }
    }

    /// The device. O(1).
    pub fn device(&self) -> &T
        ensures { result.now ≡ device_of self.now }
    {
        &self.inner
    }

    /// How many of its calls failed. O(1).
    pub fn faults(&self) -> u64
        ensures { result ≡ faults_of self.now }
    {
        self.failed
    }

    // What a call of the device answered, counted where it failed.
    pub(crate) fn count(&mut self, answer: Result<(), Refusal>) -> Result<(), Refusal>
        requires { faults_of self.old + 1 < 2 ^ 64 }
        ensures same { result ≡ answer }
        ensures device { device_of self.new ≡ device_of self.old }
        ensures counted { CountsFaults answer (faults_of self.old) (faults_of self.new) }
    {
        match answer {
            Err(Refusal::Device) => {
                self.failed += 1;
                Err(Refusal::Device)
            }
            other => other,
        }
    }
}

impl<R: Read> Counted<R> {
    /// All the bytes that are left, and then none is. F32 where the device failed or never ends, and the count rises by
    /// one; F33 where memory was refused, by the device too; a beginning of the bytes has been read then. Reads that were
    /// interrupted are tried again. O(n) in the bytes, and as much memory.
    pub fn read_all(&mut self, alloc: Global) -> Result<Vec<u8>, Refusal>
        requires { faults_of self.old + 1 < 2 ^ 64 }
        ensures bytes { IfOk result (λ input. IfSome (R.remaining (device_of self.old))
            (λ all. input.items ≡ all)) }
        ensures end { OnOk result (IsAtEnd (R.remaining (device_of self.new))) }
        ensures begun { OnErr result ((read : List ℕ) × Consumes (R.remaining (device_of self.old))
            (R.remaining (device_of self.new)) read) }
        ensures only { IfErr result IsDeviceFault }
        ensures counted { CountsFaults result (faults_of self.old) (faults_of self.new) }
    {
        let mut input = Vec::new(alloc);
        match self.inner.read_to_end(&mut input) {
            Ok(_) => Ok(input),
            Err(error) if error.kind() == ErrorKind::OutOfMemory => Err(Refusal::Memory),
            Err(_) => {
                self.failed += 1;
                Err(Refusal::Device)
            }
        }
    }
}

impl<W: Write> Counted<W> {
    /// Writes the whole text. F32 where the device failed, and the count rises by one; a beginning of the
    /// text is out then. Writes that were interrupted are tried again.
    pub fn write_all(&mut self, text: &[u8]) -> Result<(), Refusal>
        requires { faults_of self.old + 1 < 2 ^ 64 }
        ensures ok { OnOk result (Appends (W.contents (device_of self.old))
            (W.contents (device_of self.new)) text.now) }
        ensures err { OnErr result (AppendsFront (W.contents (device_of self.old))
            (W.contents (device_of self.new)) text.now) }
        ensures only { IfErr result (λ refusal. refusal ≡ Device) }
        ensures counted { CountsFaults result (faults_of self.old) (faults_of self.new) }
    {
        let mut done = 0;
        for _ in 0..u64::MAX {
            if done >= text.len() {
                return Ok(());
            }
            match self.inner.write(&text[done..]) {
                Ok(0) => break,
                Ok(n) => done += n,
                Err(error) => {
                    if error.kind() != ErrorKind::Interrupted {
                        break;
                    }
                }
            }
        }
        self.failed += 1;
        Err(Refusal::Device)
    }

    /// Writes these texts, one after another: joined, in one write where they have at most [`JOINED_BYTES`] bytes
    /// together. F32 where the device failed, and the count rises by one; a beginning of all of them together is out
    /// then. It takes no memory; O(n) in their bytes.
    pub fn write_each(&mut self, texts: &[&[u8]]) -> Result<(), Refusal>
        requires { faults_of self.old + 1 < 2 ^ 64 }
        ensures ok { OnOk result (IsOut W.contents self.old self.new
            (flat_map (λ text. text.now) texts.now)) }
        ensures err { OnErr result (IsBegun W.contents self.old self.new
            (flat_map (λ text. text.now) texts.now)) }
        ensures only { IfErr result (λ refusal. refusal ≡ Device) }
    {
        let mut joined = ArrayVec::new();
        for text in texts {
            self.join(&mut joined, text)?;
        }
        self.write_all(joined.as_slice())
    }

    // The text comes behind those that are joined. They are written where it doesn't fit behind them, and it is written itself
    // where it is too long to be joined.
    fn join(&mut self, joined: &mut ArrayVec<u8, JOINED_BYTES>, text: &[u8]) -> Result<(), Refusal>
        requires { faults_of self.old + 1 < 2 ^ 64 }
        ensures ok { OnOk result ((out : List ℕ) × IsOut W.contents self.old self.new out
            × (out ++ joined.new.items ≡ joined.old.items ++ text.now)) }
        ensures err { OnErr result (IsBegun W.contents self.old self.new
            (joined.old.items ++ text.now)) }
        ensures only { IfErr result (λ refusal. refusal ≡ Device) }
    {
        match joined.try_extend_from_slice(text) {
            Ok(()) => return Ok(()),
            Err(_) => self.write_all(joined.as_slice())?,
        }
        joined.clear();
        match joined.try_extend_from_slice(text) {
            Ok(()) => Ok(()),
            Err(_) => self.write_all(text),
        }
    }
}
