// Files that a program reaches by name.
use crate::reason::Reason;
use mt_base::Refusal;
use mt_disk::{Device, MemDevice};
use std::io::Read;

/// Where the program finds files by name: scripts, and devices.
///
/// A device that is only read is a copy of its file, by [`Folder::copy`]; several may read one file so at once.
/// Otherwise the device in a file is lent by [`Folder::device`] and given [`Folder::back`], and nobody else has it
/// meanwhile. A device that is to have a name is made beside the file of that name by [`Folder::make`]. It is then put
/// in its place by [`Folder::install`] or dropped by [`Folder::discard`].
pub trait Folder {
    ghost use Rattle.std.specs.Prelude.{◌≡◌, ℕ, List, None, Option, length, IfOk, IfErr, IfSome, OnOk, OnErr};
    ghost use Rattle.mt_disk.specs.Disk.{Only};
    ghost use Rattle.mt_disk.specs.Memory.{MayLeave, content};
    ghost use Rattle.mt_folder.specs.Folders.{AreKept, IsFileRefusal, IsHeld, IsLent, IsThere, IsUnmade, KnowsWhy, Puts, ReadsAll, known_in};
    ghost use Rattle.mt_folder.specs.declared.reason.Reason.{Reason};

    /// A device in a file; threads may use it.
    type Device: Device + Drop + Send;

    /// What reads a script.
    type Script: Read + Drop;

    /// What is held under each name, if that is known.
    ghost files: { Self → Option (List ℕ → Option (List ℕ)) };

    /// Why the last call was refused, if it was and that is known.
    ghost why: { Self → Option Reason };

    /// The script of this name, to be read from its first byte on. Refused by `NoMemory`, and by `DeviceFailed` if
    /// there is no such file or it cannot be opened. The folder is as before.
    fn script(&mut self, name: &str) -> Result<Self::Script, Refusal>
        ensures held { IfOk result (λ script. ReadsAll (known_in (files self.old) name.now)
            (Self.Script.remaining script)) }
        ensures cause { IfErr result (IsFileRefusal (known_in (files self.old) name.now)) }
        ensures kept { AreKept (files self.old) (files self.new) }
        ensures well { OnOk result (why self.new ≡ None) }
        ensures reason { OnErr result (KnowsWhy (files self.old) (why self.new)) };

    /// A copy in memory of the device in the file of this name, with just its bytes; it is synced. Nothing is written
    /// to the file, and others may copy it at the same time. Refused by `NoMemory`. Refused by `DeviceFailed` if there
    /// is no such file, it is no regular file, it cannot be read, or it is open to be written as a device. The folder
    /// is as before.
    fn copy(&mut self, name: &str) -> Result<MemDevice, Refusal>
        ensures held { IfOk result (λ device. IsHeld (files self.old) name.now (content device)) }
        ensures settled { IfOk result (λ device. Only (content device) (MayLeave device)) }
        ensures cause { IfErr result (IsFileRefusal (known_in (files self.old) name.now)) }
        ensures kept { AreKept (files self.old) (files self.new) }
        ensures well { OnOk result (why self.new ≡ None) }
        ensures reason { OnErr result (KnowsWhy (files self.old) (why self.new)) };

    /// The device in the file of this name, with just its bytes, until it is given back; it is synced. Refused by
    /// `NoMemory`, and by `DeviceFailed` if there is no such file or it cannot be opened to be read and written.
    /// The folder is then as before.
    fn device(&mut self, name: &str) -> Result<Self::Device, Refusal>
        ensures held { IfOk result (λ device. IsHeld (files self.old) name.now (Self.Device.seen device)) }
        ensures settled { IfOk result (λ device. Only (Self.Device.seen device) (Self.Device.may_leave device)) }
        ensures cause { IfErr result (IsFileRefusal (known_in (files self.old) name.now)) }
        ensures lent { OnOk result (IsLent (files self.old) (files self.new) name.now) }
        ensures err { OnErr result (AreKept (files self.old) (files self.new)) }
        ensures well { OnOk result (why self.new ≡ None) }
        ensures reason { OnErr result (KnowsWhy (files self.old) (why self.new)) };

    /// Takes a device back that was lent of this name: the file has the device's bytes.
    fn back(&mut self, name: &str, device: Self::Device)
        requires { IsThere (files self.old) name.now }
        ensures { Puts (files self.old) (files self.new) name.now (Self.Device.seen device) };

    /// A device of so many bytes, made beside the file of this name, if there is one. Refused by `NoMemory`, and by
    /// `DeviceFailed` if it cannot be made. The folder is as before.
    fn make(&mut self, name: &str, len: u64) -> Result<Self::Device, Refusal>
        ensures long { IfOk result (λ device. length (Self.Device.seen device) ≡ len) }
        ensures why { IfErr result IsUnmade }
        ensures kept { AreKept (files self.old) (files self.new) }
        ensures well { OnOk result (why self.new ≡ None) }
        ensures reason { OnErr result (KnowsWhy (files self.old) (why self.new)) };

    /// Puts a device that was made for this name in its place: the file has the device's bytes, and what it had
    /// before is gone. Refused by `NoMemory`, and by `DeviceFailed` if the name cannot be given, or what has it is
    /// in use. The device is then dropped, and the folder as before.
    fn install(&mut self, name: &str, device: Self::Device) -> Result<(), Refusal>
        ensures put { OnOk result (Puts (files self.old) (files self.new) name.now (Self.Device.seen device)) }
        ensures why { IfErr result IsUnmade }
        ensures err { OnErr result (AreKept (files self.old) (files self.new)) }
        ensures well { OnOk result (why self.new ≡ None) }
        ensures reason { OnErr result (KnowsWhy (files self.old) (why self.new)) };

    /// Lets a device go that was made for this name. The folder is as before.
    fn discard(&mut self, name: &str, device: Self::Device)
        ensures { AreKept (files self.old) (files self.new) };

    /// Why the folder's last call was refused, if it was. The files of the system know that of each refusal. A refusal
    /// of a device is none of the folder's.
    fn reason(&self) -> Option<Reason>
        ensures { result ≡ why self.now };
}
