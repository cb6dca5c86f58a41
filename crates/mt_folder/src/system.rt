// The files of the system.
ghost use Rattle.std.specs.Prelude.{◌≡◌, None, IfErr, IfOk, IsSome, OnErr, OnOk, replicate};
ghost use Rattle.mt_disk.specs.Disk.{Only};
ghost use Rattle.mt_disk.specs.File.{IsFresh, copy_in};
ghost use Rattle.mt_disk.specs.Memory.{MayLeave, content};
ghost use Rattle.mt_folder.specs.Folders.{IsFileRefusal, IsUnmade};

use crate::folder::Folder;
use crate::reason::Reason;
use mt_base::Refusal;
use mt_disk::{FileDevice, MemDevice};
use std::alloc::{AllocError, Global};
use std::fs::{self, File, Metadata, OpenFile, OpenOptions, TryLockError};
use std::io::{self, ErrorKind, Read};
use std::os::unix::fs::MetadataExt;
use std::rt::Files;

/// The files of the system, by their paths.
///
/// A device is made in a new file of a name of its own, in the folder of the file that it is to replace, and is renamed
/// once it is installed. So a format that fails or is cut off leaves an older file of that name as it was. Nothing
/// is removed that was not made here. An older file is locked from the making on, so of two programs that replace one
/// file at once one is refused. A file that is open as a device, here or in another program, is not replaced.
///
/// A file that is copied is locked so that others may copy it too. The lock goes with the call.
#[derive(Drop)]
pub struct DiskFolder<'a, R> {
    rt: &'a R,
    made: Option<Made>,
    /// Why the last call was refused, if it was.
    reason: Option<Reason>,
}

/// A file that is made for a device, until it has its name.
#[derive(Drop)]
struct Made {
    /// Where it is meanwhile.
    path: String,
    /// The file that it is to replace, locked, if there is one.
    older: Option<File>,
}

/// How a call is refused, and why it failed.
#[derive(Clone, Copy)]
struct Failure {
    refusal: Refusal,
    reason: Reason,
}

impl From<AllocError> for Failure {
    ghost use Rattle.mt_folder.specs.declared.system.Failure.{Failure};
    ghost use Rattle.mt_base.specs.declared.refusal.Refusal.{Refusal};
    ghost use Rattle.std.specs.Prelude.{◌≡◌};

    ghost from_gives = { λ _ failure. failure.refusal ≡ Refusal.NoMemory };

    fn from(_error: AllocError) -> Failure {
        Failure {
            refusal: Refusal::NoMemory,
            reason: Reason::Other,
        }
    }
}

impl From<Failure> for Refusal {
    ghost use Rattle.std.specs.Prelude.{◌≡◌};

    ghost from_gives = { λ failure refusal. refusal ≡ failure.refusal };

    fn from(failure: Failure) -> Refusal {
        failure.refusal
    }
}

/// Why a call is refused, if it is.
fn reason_in<T>(ended: &Result<T, Failure>) -> Option<Reason>
    ensures well { OnOk ended.now (result ≡ None) }
    ensures refused { OnErr ended.now (IsSome result) }
{
    match ended {
        Ok(_) => None,
        Err(failure) => Some(failure.reason),
    }
}

/// How the name begins under which a file is made. A number follows.
const NEW: &str = ".mtk-new-";

/// How many such names are tried.
const NEW_NAMES: u32 = 1000;

/// Why a file is not read: for want of memory, or since it cannot be.
fn refusal_of(why: ErrorKind) -> Refusal
    ensures { IsFileRefusal None result }
{
    match why {
        ErrorKind::OutOfMemory => Refusal::NoMemory,
        _ => Refusal::DeviceFailed,
    }
}

/// The reason that an error of the system is.
fn reason_of(why: ErrorKind) -> Reason {
    match why {
        ErrorKind::NotFound | ErrorKind::NotADirectory => Reason::NoFile,
        ErrorKind::PermissionDenied => Reason::Denied,
        ErrorKind::IsADirectory => Reason::Folder,
        ErrorKind::ReadOnlyFilesystem => Reason::ReadOnly,
        _ => Reason::Other,
    }
}

/// A failure of the device, for this reason.
fn failed(reason: Reason) -> Failure
    ensures { IsUnmade result.refusal }
{
    Failure {
        refusal: Refusal::DeviceFailed,
        reason,
    }
}

/// Why a file is not made: for want of memory, or since it cannot be.
fn unmade(why: &io::Error) -> Failure
    ensures { IsUnmade result.refusal }
{
    Failure {
        refusal: refusal_of(why.kind()),
        reason: reason_of(why.kind()),
    }
}

/// Why a new file is not made in a folder.
fn unplaced(why: &io::Error) -> Failure
    ensures { IsUnmade result.refusal }
{
    let unmade = unmade(why);
    match unmade.reason {
        Reason::NoFile => failed(Reason::NoFolder),
        _ => unmade,
    }
}

/// The reason for which a lock is not taken, or `None` if it is.
fn lock_reason(taken: Result<(), TryLockError>) -> Option<Reason> {
    match taken {
        Ok(()) => None,
        Err(TryLockError::WouldBlock) => Some(Reason::Open),
        Err(TryLockError::Error(_)) => Some(Reason::Other),
    }
}

/// Why the device in the file of this path is not had, as far as a look at the file shows it.
fn device_reason<R: Files<File = File>>(rt: &R, path: &str) -> Reason {
    match fs::metadata(rt, path) {
        Ok(known) if known.is_dir() => return Reason::Folder,
        Ok(known) if !known.is_file() => return Reason::Irregular,
        Ok(_) => {}
        Err(why) => return reason_of(why.kind()),
    }
    match OpenOptions::new().read(true).open(rt, path) {
        Ok(file) => lock_reason(file.try_lock()).unwrap_or(Reason::Other),
        Err(why) => reason_of(why.kind()),
    }
}

/// The part of a path up to the name in its folder.
fn folder_of(path: &str) -> &str {
    match path.rfind('/') {
        Some(at) => &path[..at + 1],
        None => "",
    }
}

/// What is known of the file of a path, or `None` if there is none, not even a link that leads nowhere.
fn known_of<R: Files>(rt: &R, path: &str) -> io::Result<Option<Metadata>> {
    match fs::metadata(rt, path) {
        Ok(known) => Ok(Some(known)),
        Err(why) if why.kind() == ErrorKind::NotFound => match fs::symlink_metadata(rt, path) {
            Ok(_) => Err(why),
            Err(gone) if gone.kind() == ErrorKind::NotFound => Ok(None),
            Err(why) => Err(why),
        },
        Err(why) => Err(why),
    }
}

/// Whether a path still leads to this open file.
fn leads_to<R: Files>(rt: &R, path: &str, file: &File) -> bool {
    match (fs::metadata(rt, path), file.metadata()) {
        (Ok(there), Ok(own)) => there.ino() == own.ino() && there.dev() == own.dev(),
        _ => false,
    }
}

/// Refused unless what is known of a file is that of a regular one.
fn regular(known: &Metadata) -> Result<(), Failure>
    ensures { IfErr result (λ failure. IsUnmade failure.refusal) }
{
    if known.is_dir() {
        Err(failed(Reason::Folder))
    } else if known.is_file() {
        Ok(())
    } else {
        Err(failed(Reason::Irregular))
    }
}

/// The file of this path with its lock, or `None` if there is none. Refused if it is no regular file, if it cannot be
/// looked at, and if it is open as a device.
fn kept_out<R: Files<File = File>>(rt: &R, path: &str) -> Result<Option<File>, Failure>
    ensures { IfErr result (λ failure. IsUnmade failure.refusal) }
{
    let known = match known_of(rt, path) {
        Ok(None) => return Ok(None),
        Ok(Some(known)) => known,
        // a link that leads nowhere
        Err(why) if why.kind() == ErrorKind::NotFound => return Err(failed(Reason::Irregular)),
        Err(why) => return Err(unplaced(&why)),
    };
    regular(&known)?;
    match OpenOptions::new().read(true).open(rt, path) {
        Ok(file) => locked(rt, path, file),
        Err(why) => Err(unmade(&why)),
    }
}

/// This open file with its lock. Refused if that is taken, and if its path leads elsewhere by now.
fn locked<R: Files<File = File>>(rt: &R, path: &str, file: File) -> Result<Option<File>, Failure>
    ensures { IfErr result (λ failure. IsUnmade failure.refusal) }
{
    if let Some(reason) = lock_reason(file.try_lock()) {
        return Err(failed(reason));
    }
    if leads_to(rt, path, &file) {
        Ok(Some(file))
    } else {
        Err(failed(Reason::Open))
    }
}

/// A new file in the folder of this path, with the path that it has there. No link is followed, and no file taken.
fn new_beside<R: Files<File = File>>(
    rt: &R,
    alloc: Global,
    path: &str,
) -> Result<(String, File), Failure>
    ensures { IfErr result (λ failure. IsUnmade failure.refusal) }
{
    for number in 0..NEW_NAMES {
        let folder = folder_of(path);
        let beside = format!(in alloc; "{folder}{NEW}{number}")?;
        match OpenOptions::new()
            .read(true)
            .write(true)
            .create_new(true)
            .open(rt, beside.as_str())
        {
            Ok(file) => return Ok((beside, file)),
            Err(why) if why.kind() == ErrorKind::AlreadyExists => {}
            Err(why) => return Err(unplaced(&why)),
        }
    }
    Err(failed(Reason::Other))
}

/// Gives a new file the rights of the one that it is to replace.
fn keep_rights(file: &File, older: &Option<File>) -> io::Result<()> {
    match older {
        Some(older) => file.set_permissions(older.metadata()?.permissions()),
        None => Ok(()),
    }
}

/// The device of so many bytes in a new file, which has the rights of the older one.
fn device_in(
    alloc: Global,
    file: File,
    older: &Option<File>,
    len: u64,
) -> Result<FileDevice<File>, Failure>
    ensures content { IfOk result (λ device. content (copy_in device) ≡ replicate len 0) }
    ensures why { IfErr result (λ failure. IsUnmade failure.refusal) }
{
    if let Err(why) = keep_rights(&file, older) {
        return Err(failed(reason_of(why.kind())));
    }
    match FileDevice::over(alloc, file, len) {
        Ok(device) => Ok(device),
        Err(refusal) => Err(Failure {
            refusal,
            reason: Reason::Other,
        }),
    }
}

/// Gives a file a name that nothing has, by a link, since a rename would take the name from another. If files have
/// one name alone, it is renamed.
fn named<R: Files>(rt: &R, path: &str, name: &str) -> io::Result<()> {
    match fs::hard_link(rt, path, name) {
        Ok(()) => {
            // it has its name, whatever becomes of the other one
            let _ = fs::remove_file(rt, path);
            Ok(())
        }
        Err(why) if why.kind() == ErrorKind::AlreadyExists => Err(why),
        Err(why) => match known_of(rt, name) {
            Ok(None) => fs::rename(rt, path, name),
            _ => Err(why),
        },
    }
}

/// Gives a made file its name, if the older one still has it, or nothing has it if there was none. Returns why it does
/// not get it, or `None` if it has it.
fn unnamed_for<R: Files<File = File>>(rt: &R, made: &Made, name: &str) -> Option<Reason> {
    let path = made.path.as_str();
    let named = match &made.older {
        Some(older) if !leads_to(rt, name, older) => return Some(Reason::Open),
        Some(_) => fs::rename(rt, path, name),
        None => named(rt, path, name),
    };
    match named {
        Ok(()) => None,
        // another program made a file of that name meanwhile
        Err(why) if why.kind() == ErrorKind::AlreadyExists => Some(Reason::Open),
        Err(why) => Some(reason_of(why.kind())),
    }
}

/// The file of this path, open to be read. A folder, which can be opened and not read, is refused.
fn script_at<R: Files<File = File>>(rt: &R, path: &str) -> Result<File, Failure>
    ensures { IfErr result (λ failure. IsUnmade failure.refusal) }
{
    match OpenOptions::new().read(true).open(rt, path) {
        Ok(file) => match file.metadata() {
            Ok(known) if known.is_dir() => Err(failed(Reason::Folder)),
            _ => Ok(file),
        },
        Err(why) => Err(unmade(&why)),
    }
}

/// The regular file of this path, open to be read, with a lock that all who copy it share. No other file is opened.
fn shared<R: Files<File = File>>(rt: &R, path: &str) -> Result<File, Failure>
    ensures { IfErr result (λ failure. IsUnmade failure.refusal) }
{
    match fs::metadata(rt, path) {
        Ok(known) => regular(&known)?,
        Err(why) => return Err(unmade(&why)),
    }
    let file = match OpenOptions::new().read(true).open(rt, path) {
        Ok(file) => file,
        Err(why) => return Err(unmade(&why)),
    };
    match lock_reason(file.try_lock_shared()) {
        Some(reason) => Err(failed(reason)),
        None => Ok(file),
    }
}

/// The length of an open file, whose bytes are synced first, so that none that are read can be lost any more.
fn synced_len(file: &File) -> io::Result<u64> {
    file.sync_all()?;
    Ok(file.metadata()?.len())
}

/// The bytes of an open file, up to its length.
fn bytes_in(alloc: Global, file: File) -> Result<Vec<u8>, Failure>
    ensures { IfErr result (λ failure. IsUnmade failure.refusal) }
{
    let len = match synced_len(&file) {
        Ok(len) => len,
        Err(why) => return Err(unmade(&why)),
    };
    let mut file = file;
    let mut bytes = vec![in alloc; 0u8; len as usize]?;
    match file.read_exact(bytes.as_mut_slice()) {
        Ok(()) => Ok(bytes),
        Err(why) => Err(unmade(&why)),
    }
}

/// A copy in memory of the device in the file of this path. It has no room for a write.
fn copy_at<R: Files<File = File> + AllocGlobal>(rt: &R, path: &str) -> Result<MemDevice, Failure>
    ensures settled { IfOk result (λ device. Only (content device) (MayLeave device)) }
    ensures why { IfErr result (λ failure. IsUnmade failure.refusal) }
{
    let file = shared(rt, path)?;
    let bytes = bytes_in(rt.alloc(), file)?;
    Ok(MemDevice::new(rt.alloc(), bytes, 0, 0)?)
}

/// The device in the file of this path, asked for once.
fn opened_at<R: Files<File = File> + AllocGlobal>(
    rt: &R,
    path: &str,
) -> Result<FileDevice<File>, Failure>
    ensures fresh { IfOk result IsFresh }
    ensures why { IfErr result (λ failure. IsUnmade failure.refusal) }
{
    match FileDevice::open(rt, path) {
        Ok(device) => Ok(device),
        Err(refusal) => Err(Failure {
            refusal,
            reason: device_reason(rt, path),
        }),
    }
}

/// The device in the file of this path. If what was in its way is gone, it is asked for once more.
fn device_at<R: Files<File = File> + AllocGlobal>(
    rt: &R,
    path: &str,
) -> Result<FileDevice<File>, Failure>
    ensures fresh { IfOk result IsFresh }
    ensures why { IfErr result (λ failure. IsUnmade failure.refusal) }
{
    match opened_at(rt, path) {
        Ok(device) => Ok(device),
        Err(failure) => match (failure.refusal, failure.reason) {
            (Refusal::DeviceFailed, Reason::Other) => opened_at(rt, path),
            _ => Err(failure),
        },
    }
}

/// Removes a made file that does not get its name, as far as that goes.
fn give_up<R: Files>(rt: &R, made: &Made) {
    let _ = fs::remove_file(rt, made.path.as_str());
}

impl<'a, R> DiskFolder<'a, R> {
    /// The files that this runtime reaches.
    pub fn new(rt: &'a R) -> DiskFolder<'a, R> {
        DiskFolder {
            rt,
            made: None,
            reason: None,
        }
    }
}

impl<R: Files<File = File> + AllocGlobal> DiskFolder<'_, R> {
    /// A device of so many bytes in a new file, which is to have this name.
    fn new_device(&mut self, name: &str, len: u64) -> Result<FileDevice<File>, Failure>
        ensures content { IfOk result (λ device. content (copy_in device) ≡ replicate len 0) }
        ensures why { IfErr result (λ failure. IsUnmade failure.refusal) }
    {
        let alloc = self.rt.alloc();
        let older = kept_out(self.rt, name)?;
        let (path, file) = new_beside(self.rt, alloc, name)?;
        match device_in(alloc, file, &older, len) {
            Ok(device) => {
                self.made = Some(Made { path, older });
                Ok(device)
            }
            Err(failure) => {
                let _ = fs::remove_file(self.rt, path.as_str());
                Err(failure)
            }
        }
    }
}

impl<R: Files<File = File>> DiskFolder<'_, R> {
    /// Gives the file that was made this name. A file that does not get it is removed.
    fn named_made(&mut self, name: &str) -> Result<(), Failure>
        ensures { IfErr result (λ failure. IsUnmade failure.refusal) }
    {
        let Some(made) = self.made.take() else {
            return Err(failed(Reason::Other));
        };
        match unnamed_for(self.rt, &made, name) {
            None => Ok(()),
            Some(reason) => {
                give_up(self.rt, &made);
                Err(failed(reason))
            }
        }
    }
}

impl<R: Files<File = File> + AllocGlobal> Folder for DiskFolder<'_, R> {
    ghost use Rattle.std.specs.Prelude.{None};

    type Device = FileDevice<File>;

    type Script = File;

    ghost files = { λ _. None };

    ghost why = { λ folder. folder.reason };

    fn script(&mut self, name: &str) -> Result<File, Refusal> {
        let read = script_at(self.rt, name);
        self.reason = reason_in(&read);
        Ok(read?)
    }

    fn copy(&mut self, name: &str) -> Result<MemDevice, Refusal> {
        let copied = copy_at(self.rt, name);
        self.reason = reason_in(&copied);
        Ok(copied?)
    }

    fn device(&mut self, name: &str) -> Result<FileDevice<File>, Refusal> {
        let opened = device_at(self.rt, name);
        self.reason = reason_in(&opened);
        Ok(opened?)
    }

    fn back(&mut self, _name: &str, _device: FileDevice<File>) {}

    fn make(&mut self, name: &str, len: u64) -> Result<FileDevice<File>, Refusal> {
        let made = self.new_device(name, len);
        self.reason = reason_in(&made);
        Ok(made?)
    }

    fn install(&mut self, name: &str, _device: FileDevice<File>) -> Result<(), Refusal> {
        let installed = self.named_made(name);
        self.reason = reason_in(&installed);
        Ok(installed?)
    }

    fn discard(&mut self, _name: &str, _device: FileDevice<File>) {
        if let Some(made) = self.made.take() {
            give_up(self.rt, &made);
        }
    }

    fn reason(&self) -> Option<Reason> {
        self.reason
    }
}
