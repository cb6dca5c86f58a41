// Files that are open in another program, and are asked for again.
ghost use Rattle.std.specs.Prelude.{◌≡◌, None, length, IfErr, IfOk, OnErr, OnOk};
ghost use Rattle.mt_disk.specs.Disk.{Only};
ghost use Rattle.mt_disk.specs.Memory.{MayLeave, content};
ghost use Rattle.mt_folder.specs.Folders.{AreKept, IsFileRefusal, IsHeld, IsLent, IsUnmade, KnowsWhy, known_in};

use mt_args::Command;
use mt_base::Refusal;
use mt_disk::MemDevice;
use mt_folder::{Folder, Reason};
use std::thread;
use std::time::{Clock, Duration};

/// How often a file is asked for again in a second, and how many milliseconds lie between.
const TURNS: usize = 20;

const PAUSE_MILLIS: u64 = 50;

/// How often a file is asked for again that is open in another program. It asks for files as a folder does, and each
/// clause is that of the folder's own call.
#[derive(Drop)]
pub struct Patience<'a, R> {
    rt: &'a R,
    turns: usize,
}

/// The seconds for which a command waits for a file.
fn seconds_of(command: &Command) -> usize {
    match command {
        Command::Check { wait, .. } => *wait,
        Command::Format { wait, .. } => *wait,
        Command::Dump { wait, .. } => *wait,
        Command::Explain { wait, .. } => *wait,
        Command::Migrate { wait, .. } => *wait,
        Command::Run { wait, .. } => *wait,
        _ => 0,
    }
}

/// Whether a folder's last call was refused since a file is open in another program.
fn is_open<F: Folder>(folder: &F) -> bool {
    match folder.reason() {
        Some(Reason::Open) => true,
        _ => false,
    }
}

impl<'a, R: Clock> Patience<'a, R> {
    /// The patience that a command asks for, in seconds, if it is one on a device in a file. The others have none.
    pub fn of(rt: &'a R, command: &Command) -> Patience<'a, R> {
        Patience {
            rt,
            turns: seconds_of(command).saturating_mul(TURNS),
        }
    }

    /// Waits until a file may be asked for again.
    fn pause(&self) {
        thread::sleep(self.rt, Duration::from_millis(PAUSE_MILLIS));
    }

    /// A copy of the device in the file of this name.
    pub(crate) fn copy<F: Folder>(&self, folder: &mut F, name: &str) -> Result<MemDevice, Refusal>
        ensures held { IfOk result (λ device. IsHeld (F.files folder.old) name.now (content device)) }
        ensures settled { IfOk result (λ device. Only (content device) (MayLeave device)) }
        ensures cause { IfErr result (IsFileRefusal (known_in (F.files folder.old) name.now)) }
        ensures kept { AreKept (F.files folder.old) (F.files folder.new) }
        ensures well { OnOk result (F.why folder.new ≡ None) }
        ensures reason { OnErr result (KnowsWhy (F.files folder.old) (F.why folder.new)) }
    {
        for _ in 0..self.turns {
            match folder.copy(name) {
                Ok(device) => return Ok(device),
                Err(refusal) => {
                    if !is_open(folder) {
                        return Err(refusal);
                    }
                }
            }
            self.pause();
        }
        folder.copy(name)
    }

    /// The device in the file of this name, until it is given back. Refused as the folder's call is, but by a file that
    /// is open in another program only once the patience is at its end. Each file is then as it was.
    pub fn device<F: Folder>(&self, folder: &mut F, name: &str) -> Result<F::Device, Refusal>
        ensures held { IfOk result (λ device. IsHeld (F.files folder.old) name.now (F.Device.seen device)) }
        ensures settled { IfOk result (λ device. Only (F.Device.seen device) (F.Device.may_leave device)) }
        ensures cause { IfErr result (IsFileRefusal (known_in (F.files folder.old) name.now)) }
        ensures lent { OnOk result (IsLent (F.files folder.old) (F.files folder.new) name.now) }
        ensures err { OnErr result (AreKept (F.files folder.old) (F.files folder.new)) }
        ensures well { OnOk result (F.why folder.new ≡ None) }
        ensures reason { OnErr result (KnowsWhy (F.files folder.old) (F.why folder.new)) }
    {
        for _ in 0..self.turns {
            match folder.device(name) {
                Ok(device) => return Ok(device),
                Err(refusal) => {
                    if !is_open(folder) {
                        return Err(refusal);
                    }
                }
            }
            self.pause();
        }
        folder.device(name)
    }

    /// A device of so many bytes, made beside the file of this name.
    pub(crate) fn make<F: Folder>(
        &self,
        folder: &mut F,
        name: &str,
        len: u64,
    ) -> Result<F::Device, Refusal>
        ensures long { IfOk result (λ device. length (F.Device.seen device) ≡ len) }
        ensures why { IfErr result IsUnmade }
        ensures kept { AreKept (F.files folder.old) (F.files folder.new) }
        ensures well { OnOk result (F.why folder.new ≡ None) }
        ensures reason { OnErr result (KnowsWhy (F.files folder.old) (F.why folder.new)) }
    {
        for _ in 0..self.turns {
            match folder.make(name, len) {
                Ok(device) => return Ok(device),
                Err(refusal) => {
                    if !is_open(folder) {
                        return Err(refusal);
                    }
                }
            }
            self.pause();
        }
        folder.make(name, len)
    }
}
