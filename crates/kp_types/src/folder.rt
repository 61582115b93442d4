//! What keeps files: a folder of the host, or one in memory.

ghost use Rattle.std.specs.Prelude.{◌≡◌, ◌+◌, ◌<◌, ◌^◌, List, [], ◌∷◌, Option, None, IfErr, OnOk, OnErr};
ghost use Rattle.kp_types.specs.Devices.{CountsFaults, IsDeviceFault, device_of, faults_of};
ghost use Rattle.kp_types.specs.Folders.{Entry, Puts, Grows, GrowsFront, folder_entry, file_entry};

use crate::counted::Counted;
use crate::refusal::Refusal;

/// A folder that takes up files and folders, one behind another. Names are paths relative to it.
pub trait Folder {
    // What stands in it, in the order in which it came there, where that is known.
    ghost entries: { Self → Option (List Entry) } = { λ _. None };

    /// Makes a folder of this name. F32, or F33 where memory was refused, and then nothing has come there.
    fn make_folder(&mut self, name: &str) -> Result<(), Refusal>
        ensures ok { OnOk result (Puts (entries self.old) (entries self.new)
            (folder_entry name.now ∷ [])) }
        ensures err { OnErr result (Puts (entries self.old) (entries self.new) []) }
        ensures only { IfErr result IsDeviceFault };

    /// Begins a file of this name, which has no byte yet. F32, or F33, and then nothing has come there.
    fn begin(&mut self, name: &str) -> Result<(), Refusal>
        ensures ok { OnOk result (Puts (entries self.old) (entries self.new)
            (file_entry name.now [] ∷ [])) }
        ensures err { OnErr result (Puts (entries self.old) (entries self.new) []) }
        ensures only { IfErr result IsDeviceFault };

    /// Writes these bytes at the end of the file that was begun last. F32, or F33, and then a beginning of them is there.
    fn append(&mut self, bytes: &[u8]) -> Result<(), Refusal>
        ensures ok { OnOk result (Grows (entries self.old) (entries self.new) bytes.now) }
        ensures err { OnErr result (GrowsFront (entries self.old) (entries self.new) bytes.now) }
        ensures only { IfErr result IsDeviceFault };
}

impl<F: Folder> Counted<F> {
    /// Makes a folder of this name. F32 where the folder failed, and the count rises by one; F33 where memory was
    /// refused; nothing has come there then.
    pub fn make_folder(&mut self, name: &str) -> Result<(), Refusal>
        requires { faults_of self.old + 1 < 2 ^ 64 }
        ensures ok { OnOk result (Puts (F.entries (device_of self.old))
            (F.entries (device_of self.new)) (folder_entry name.now ∷ [])) }
        ensures err { OnErr result (Puts (F.entries (device_of self.old))
            (F.entries (device_of self.new)) []) }
        ensures only { IfErr result IsDeviceFault }
        ensures counted { CountsFaults result (faults_of self.old) (faults_of self.new) }
    {
        let made = self.inner.make_folder(name);
        self.count(made)
    }

    /// Begins a file of this name. F32 where the folder failed, and the count rises by one; F33 where memory was
    /// refused; nothing has come there then.
    pub fn begin(&mut self, name: &str) -> Result<(), Refusal>
        requires { faults_of self.old + 1 < 2 ^ 64 }
        ensures ok { OnOk result (Puts (F.entries (device_of self.old))
            (F.entries (device_of self.new)) (file_entry name.now [] ∷ [])) }
        ensures err { OnErr result (Puts (F.entries (device_of self.old))
            (F.entries (device_of self.new)) []) }
        ensures only { IfErr result IsDeviceFault }
        ensures counted { CountsFaults result (faults_of self.old) (faults_of self.new) }
    {
        let begun = self.inner.begin(name);
        self.count(begun)
    }

    /// Writes these bytes at the end of the file that was begun last. F32 where the folder failed, and the count rises
    /// by one; F33 where memory was refused; a beginning of the bytes is there then.
    pub fn append(&mut self, bytes: &[u8]) -> Result<(), Refusal>
        requires { faults_of self.old + 1 < 2 ^ 64 }
        ensures ok { OnOk result (Grows (F.entries (device_of self.old))
            (F.entries (device_of self.new)) bytes.now) }
        ensures err { OnErr result (GrowsFront (F.entries (device_of self.old))
            (F.entries (device_of self.new)) bytes.now) }
        ensures only { IfErr result IsDeviceFault }
        ensures counted { CountsFaults result (faults_of self.old) (faults_of self.new) }
    {
        let appended = self.inner.append(bytes);
        self.count(appended)
    }
}
