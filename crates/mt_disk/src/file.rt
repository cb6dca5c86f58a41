// A device in a file of the system. Its bytes are kept in memory too; each write goes to the file and to the copy.
// A read is answered by the copy. Once the file has failed each later write and sync fails, and does not ask it.
ghost use Rattle.std.specs.Prelude.{◌≡◌, ℕ, List, ◌+◌, ◌*◌, ◌<◌, ◌≤◌, ◌⊎◌, length, replicate, IsTrue, IfOk, IfErr, OnOk, OnErr, IsOk, IsErr};
ghost use Rattle.mt_disk.specs.Disk.{Has, Only, Follows, Torn, Wrote, Elapses, HasCause};
ghost use Rattle.mt_disk.specs.Memory.{content, MayLeave, moment_of, left_by, failures_of};
ghost use Rattle.mt_disk.specs.File.{IsFreshCopy};

use crate::{Device, DeviceFault, MemDevice};
use mt_base::limits::PAGE_BYTES;
use mt_base::{History, Refusal};
use std::alloc::{AllocError, Global};
use std::fs;
use std::fs::{File, OpenFile, OpenOptions};
use std::io::{ErrorKind, Read, Seek, SeekFrom, Write};
use std::rt::Files;

/// Writes without a sync that a file's device has room for, beside one for each page of its file.
const SPARE_WRITES: usize = 64;

/// A device in a file. It reads its file once, when it is made, and answers each read from memory;
/// each write and each sync is made on both.
///
/// What the proofs say of it, they say of its copy in memory. That the file holds the same is for the operating
/// system, the disk and whoever else can reach the file. It is trusted: a proof cannot know what a file does. What
/// can be seen of a file gone wrong is a fault. That is an error that the system answers, or a length that is not
/// what it was. The length is looked at when the file is read and at each sync. A write that meets an error counts as
/// written all the same. After one error of the file each later write and sync fails as well. After a failed sync a
/// system may forget what it could not write, and answer the next one well.
///
/// Nobody else opens the file meanwhile, as long as they open it so too. Its lock is taken, as `flock` does, and
/// given back with the device.
///
/// It has room without a sync for a write to each page of 4096 bytes and 64 more. These have room for as many bytes
/// as the file has and 262,144 more: enough to format it whole.
#[derive(Drop)]
pub struct FileDevice<F> {
    memory: MemDevice,
    file: F,
    broken: bool,
    failures: History<DeviceFault>,
}

impl FileDevice<File> {
    ghost use Rattle.mt_disk.specs.File.{copy_in, IsFresh};

    /// The device in the file of this path, of the file's length. What the file holds is synced first, so that none
    /// of it can be lost any more. A file that may be read alone is opened so, and each write to it is a fault.
    /// Refused by `NoMemory` for want of memory. Refused by `DeviceFailed` if the file cannot be opened or read, is
    /// no regular file, or does not keep its length. It is refused so if the file is open as a device, too, here or
    /// in another program. It is then as it was. What is no regular file is not opened, so a pipe holds up nobody.
    pub fn open<R: Files<File = File> + AllocGlobal>(
        rt: &R,
        path: &str,
    ) -> Result<FileDevice<File>, Refusal>
        ensures fresh { IfOk result (λ device. IsFresh device) }
        ensures refusals { IfErr result (λ refusal. (refusal ≡ Refusal.NoMemory) ⊎ (refusal ≡ Refusal.DeviceFailed)) }
    {
        let mut file = opened(rt, path)?;
        lock(&file)?;
        let bytes = read_whole(rt.alloc(), &mut file)?;
        let memory = copy_of(rt.alloc(), bytes)?;
        Ok(FileDevice {
            memory,
            file,
            broken: false,
            failures: History::new(),
        })
    }

    /// A device of so many bytes, all of them 0, in this file, which is open to be read and written; what it held
    /// before is gone. Refused by `NoMemory` for want of memory, before the file is touched. Refused by
    /// `DeviceFailed` if the file is open as a device elsewhere, and is then as it was, or cannot be written.
    pub fn over(alloc: Global, file: File, len: u64) -> Result<FileDevice<File>, Refusal>
        ensures content { IfOk result (λ device. content (copy_in device) ≡ replicate len 0) }
        ensures fresh { IfOk result (λ device. IsFresh device) }
        ensures refusals { IfErr result (λ refusal. (refusal ≡ Refusal.NoMemory) ⊎ (refusal ≡ Refusal.DeviceFailed)) }
    {
        let memory = zeros(alloc, len)?;
        FileDevice::filled(memory, file)
    }

    /// The device of this copy in this file, which gets its bytes.
    fn filled(memory: MemDevice, file: File) -> Result<FileDevice<File>, Refusal>
        requires { IsFreshCopy memory }
        ensures copy { IfOk result (λ device. copy_in device ≡ memory) }
        ensures fresh { IfOk result (λ device. IsFresh device) }
        ensures only_device { IfErr result (λ refusal. refusal ≡ Refusal.DeviceFailed) }
    {
        let mut file = file;
        lock(&file)?;
        resize(&file, memory.len())?;
        put(&mut file, 0, memory.bytes())?;
        settle_file(&mut file)?;
        Ok(FileDevice {
            memory,
            file,
            broken: false,
            failures: History::new(),
        })
    }
}

impl<F: Read + Write + Seek + OpenFile + Drop> FileDevice<F> {
    ghost use Rattle.mt_disk.specs.File.{copy_in, file_failures, IsBroken, AsksFile};

    /// Notes a failure of the file, after which it is not asked again.
    fn fail(&mut self) -> DeviceFault
        ensures memory { copy_in self.new ≡ copy_in self.old }
        ensures broken { IsBroken self.new }
        ensures failures { file_failures self.new ≡ file_failures self.old + 1 }
    {
        self.broken = true;
        self.failures = self.failures.and(&DeviceFault);
        DeviceFault
    }

    /// Puts the bytes into the file alone.
    fn put_in_file(&mut self, at: u64, bytes: &[u8]) -> Result<(), DeviceFault>
        ensures { AsksFile self.old self.new result }
    {
        if self.broken || put(&mut self.file, at, bytes).is_err() {
            return Err(self.fail());
        }
        Ok(())
    }

    /// Syncs the file alone.
    fn sync_in_file(&mut self) -> Result<(), DeviceFault>
        ensures { AsksFile self.old self.new result }
    {
        let len = self.len();
        if self.broken || sync_file(&mut self.file, len).is_err() {
            return Err(self.fail());
        }
        Ok(())
    }
}

/// The device in memory over these bytes, with the room of a file's.
fn copy_of(alloc: Global, bytes: Vec<u8>) -> Result<MemDevice, AllocError>
    ensures content { IfOk result (λ device. content device ≡ bytes.items) }
    ensures fresh { IfOk result (λ device. IsFreshCopy device) }
{
    let len = bytes.len();
    let writes = len / PAGE_BYTES + SPARE_WRITES;
    let written = len.saturating_add(SPARE_WRITES * PAGE_BYTES);
    MemDevice::new(alloc, bytes, writes, written)
}

/// The device in memory of so many bytes, all of them 0.
fn zeros(alloc: Global, len: u64) -> Result<MemDevice, AllocError>
    ensures content { IfOk result (λ device. content device ≡ replicate len 0) }
    ensures fresh { IfOk result (λ device. IsFreshCopy device) }
{
    let bytes = vec![in alloc; 0u8; len as usize]?;
    copy_of(alloc, bytes)
}

/// The regular file of this path, to be read and written; or to be read, if that alone is allowed.
fn opened<R: Files>(rt: &R, path: &str) -> Result<R::File, DeviceFault> {
    if !fs::metadata(rt, path)?.is_file() {
        return Err(DeviceFault);
    }
    match OpenOptions::new().read(true).write(true).open(rt, path) {
        Ok(file) => Ok(file),
        Err(fault) => match fault.kind() {
            ErrorKind::PermissionDenied | ErrorKind::ReadOnlyFilesystem => {
                Ok(OpenOptions::new().read(true).open(rt, path)?)
            }
            _ => Err(DeviceFault),
        },
    }
}

/// Takes the file's lock, which the system gives back with the last handle of this opening.
fn lock(file: &File) -> Result<(), DeviceFault> {
    match file.try_lock() {
        Ok(()) => Ok(()),
        Err(_) => Err(DeviceFault),
    }
}

/// Cuts the file, or makes it longer by bytes that are 0.
fn resize<F: OpenFile>(file: &F, len: u64) -> Result<(), DeviceFault> {
    file.set_len(len)?;
    Ok(())
}

/// The file's length, by a seek. To ask for all that is known of a file between two writes has a price. The next sync
/// then writes down the time of the last change too.
fn length_of<F: Seek>(file: &mut F) -> Result<u64, DeviceFault> {
    Ok(file.seek(SeekFrom::End(0))?)
}

fn read_from_start<F: Read + Seek>(file: &mut F, buf: &mut [u8]) -> Result<(), DeviceFault> {
    file.seek(SeekFrom::Start(0))?;
    file.read_exact(buf)?;
    Ok(())
}

/// The bytes of the file, which are synced first.
fn read_whole<F: Read + Write + Seek + OpenFile>(
    alloc: Global,
    file: &mut F,
) -> Result<Vec<u8>, Refusal>
    ensures { IfErr result (λ refusal. (refusal ≡ Refusal.NoMemory) ⊎ (refusal ≡ Refusal.DeviceFailed)) }
{
    settle_file(file)?;
    let len = length_of(file)?;
    let mut bytes = vec![in alloc; 0u8; len as usize]?;
    read_from_start(file, bytes.as_mut_slice())?;
    if length_of(file)? != len {
        return Err(Refusal::DeviceFailed);
    }
    Ok(bytes)
}

fn put<F: Write + Seek>(file: &mut F, at: u64, bytes: &[u8]) -> Result<(), DeviceFault> {
    file.seek(SeekFrom::Start(at))?;
    file.write_all(bytes)?;
    Ok(())
}

/// Has the file's bytes and its length written down.
fn settle_file<F: Write + OpenFile>(file: &mut F) -> Result<(), DeviceFault> {
    file.flush()?;
    file.sync_all()?;
    Ok(())
}

/// Has the file's bytes written down, and looks whether it is as long as it was.
fn sync_file<F: Write + Seek + OpenFile>(file: &mut F, len: u64) -> Result<(), DeviceFault> {
    file.flush()?;
    file.sync_data()?;
    if length_of(file)? == len {
        Ok(())
    } else {
        Err(DeviceFault)
    }
}

impl<F: Read + Write + Seek + OpenFile + Drop> Device for FileDevice<F> {
    ghost use Rattle.std.proofs.Common.{inl};
    ghost use Rattle.mt_disk.specs.Memory.{only_present, same_size};
    ghost use Rattle.mt_disk.specs.File.{copy_in, file_failures, IsBroken};

    ghost seen = { λ f. content (copy_in f) };

    ghost may_leave = { λ f c. MayLeave (copy_in f) c };

    ghost moment = { λ f. moment_of (copy_in f) };

    ghost left_since = { λ f t c. left_by (copy_in f) t c };

    ghost faults = { λ f. failures_of (copy_in f) + file_failures f };

    ghost present = { λ f. f.memory.state.present };

    ghost sized = { λ f c left. same_size f.memory.state c left };

    ghost counts_now = { λ f t c le now. inl now };

    ghost only_now = { λ f c left. only_present f.memory.state f.memory.past.items c left };

    fn len(&self) -> u64 {
        self.memory.len()
    }

    /// Answers from memory. Never fails, and leaves the device as it was.
    fn read(&mut self, at: u64, buf: &mut [u8]) -> Result<(), DeviceFault>
        requires { at + length buf.old ≤ length (content (copy_in self.old)) }
        ensures bytes { Has (content (copy_in self.old)) at buf.new }
        ensures succeeds { IsOk result }
        ensures same { self.new ≡ self.old }
    {
        self.memory.read(at, buf)
    }

    fn write_at(&mut self, at: u64, bytes: &[u8]) -> Result<(), DeviceFault>
        requires { at + length bytes.now ≤ length (content (copy_in self.old)) }
        ensures written { OnOk result (Wrote at bytes.now (content (copy_in self.old)) (content (copy_in self.new))) }
        ensures rest { Torn at (length bytes.now) (content (copy_in self.old)) (content (copy_in self.new)) }
        ensures crash { Follows (Torn at (length bytes.now)) (MayLeave (copy_in self.old))
            (MayLeave (copy_in self.new)) }
        ensures time { Elapses (moment_of (copy_in self.old)) (moment_of (copy_in self.new))
            (left_by (copy_in self.old)) (left_by (copy_in self.new)) (MayLeave (copy_in self.new)) }
        ensures cause { HasCause (failures_of (copy_in self.old) + file_failures self.old)
            (failures_of (copy_in self.new) + file_failures self.new) result }
        ensures broken { IsBroken self.old → IsErr result × IsBroken self.new }
    {
        self.memory.write_at(at, bytes)?;
        self.put_in_file(at, bytes)
    }

    fn sync(&mut self) -> Result<(), DeviceFault>
        ensures durable { OnOk result (Only (content (copy_in self.old)) (MayLeave (copy_in self.new))) }
        ensures seen { content (copy_in self.new) ≡ content (copy_in self.old) }
        ensures crash { (c : List ℕ) → MayLeave (copy_in self.new) c → MayLeave (copy_in self.old) c }
        ensures time { Elapses (moment_of (copy_in self.old)) (moment_of (copy_in self.new))
            (left_by (copy_in self.old)) (left_by (copy_in self.new)) (MayLeave (copy_in self.new)) }
        ensures cause { HasCause (failures_of (copy_in self.old) + file_failures self.old)
            (failures_of (copy_in self.new) + file_failures self.new) result }
        ensures broken { IsBroken self.old → IsErr result × IsBroken self.new }
        ensures breaks { OnErr result (IsBroken self.new) }
    {
        self.sync_in_file()?;
        self.memory.sync()
    }
}
