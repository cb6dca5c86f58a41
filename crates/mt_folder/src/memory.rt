// A folder in memory.
ghost use Rattle.std.specs.Prelude.{◌≡◌, ◌++◌, ◌∷◌, [], ◌<◌, IfErr, IfOk, OnErr, OnOk, bytes_eq, length, position};
ghost use Rattle.mt_folder.specs.Folders.{Gives, IsFileRefusal, file_of};
ghost use Rattle.mt_disk.specs.Disk.{Only};
ghost use Rattle.mt_disk.specs.Memory.{MayLeave, content};

use crate::folder::Folder;
use crate::reason::Reason;
use mt_base::limits::PAGE_BYTES;
use mt_base::{Bytes, Refusal};
use mt_disk::MemDevice;
use std::alloc::{AllocError, Global};
use std::io::Cursor;

/// A folder in memory, for tests: files by name, each of them a script or a device.
#[derive(Drop)]
pub struct MemFolder {
    alloc: Global,
    files: Vec<(Bytes, Bytes)>,
}

impl MemFolder {
    /// A folder without a file.
    pub fn new(alloc: Global) -> MemFolder
        ensures { result.files.items ≡ [] }
    {
        MemFolder {
            alloc,
            files: Vec::new(alloc),
        }
    }

    /// Puts a file into the folder; of several with one name the first counts. The only error is want of memory.
    pub fn put(&mut self, name: &str, bytes: &[u8]) -> Result<(), AllocError>
        ensures { OnOk result (self.new.files.items ≡ self.old.files.items ++ (name.now, bytes.now) ∷ []) }
    {
        let name = Bytes::copy_of(self.alloc, name.as_bytes())?;
        let bytes = Bytes::copy_of(self.alloc, bytes)?;
        self.files.push((name, bytes))?;
        Ok(())
    }

    /// The place of the first file of a name.
    fn place_of(&self, name: &str) -> Option<usize>
        ensures { result ≡ position (λ f. bytes_eq f.0 name.now) self.now.files.items }
    {
        self.files
            .iter()
            .position(|(own, _)| own.as_slice() == name.as_bytes())
    }

    /// Adds a file after the others.
    fn add(&mut self, name: &str, bytes: Vec<u8>) -> Result<(), Refusal>
        ensures added { OnOk result (self.new.files.items
            ≡ self.old.files.items ++ (name.now, bytes.items) ∷ []) }
        ensures only_memory { IfErr result (λ why. why ≡ Refusal.NoMemory) }
        ensures err { OnErr result (self.new.files.items ≡ self.old.files.items) }
    {
        let name = Bytes::copy_of(self.alloc, name.as_bytes())?;
        self.files.push((name, Bytes::new(bytes)))?;
        Ok(())
    }

    /// Gives the file at a place other bytes.
    fn give(&mut self, place: usize, bytes: Vec<u8>)
        requires { place < length self.old.files.items }
        ensures { Gives self.old.files.items self.new.files.items place bytes.items }
    {
        self.files[place].1 = Bytes::new(bytes);
    }

    /// A copy of the bytes of the first file of a name.
    fn copy_of(&self, name: &str) -> Result<Vec<u8>, Refusal>
        ensures held { IfOk result (λ bytes. file_of name.now self.now.files.items ≡ Some bytes.items) }
        ensures cause { IfErr result (IsFileRefusal (file_of name.now self.now.files.items)) }
    {
        match self.place_of(name) {
            Some(place) => {
                let copy = self.files[place].1.try_clone()?;
                Ok(copy.into_vec())
            }
            None => Err(Refusal::DeviceFailed),
        }
    }
}

/// Writes without a sync that a device in a folder in memory has room for, beside one for each of its pages.
const SPARE_WRITES: usize = 64;

/// A device in memory over these bytes, with room without a sync for a write of each page and some more.
fn device_over(alloc: Global, bytes: Vec<u8>) -> Result<MemDevice, AllocError>
    ensures content { IfOk result (λ device. content device ≡ bytes.items) }
    ensures settled { IfOk result (λ device. Only (content device) (MayLeave device)) }
{
    let len = bytes.len();
    let writes = len / PAGE_BYTES + SPARE_WRITES;
    let written = len.saturating_add(SPARE_WRITES * PAGE_BYTES);
    MemDevice::new(alloc, bytes, writes, written)
}

impl Folder for MemFolder {
    ghost use Rattle.std.specs.Prelude.{None, Some};
    ghost use Rattle.mt_folder.specs.Folders.{file_of};

    type Device = MemDevice;

    type Script = Cursor<Vec<u8>>;

    ghost files = { λ folder. Some (λ name. file_of name folder.files.items) };

    ghost why = { λ _. None };

    fn script(&mut self, name: &str) -> Result<Cursor<Vec<u8>>, Refusal> {
        let text = self.copy_of(name)?;
        Ok(Cursor::new(text))
    }

    fn copy(&mut self, name: &str) -> Result<MemDevice, Refusal> {
        let held = self.copy_of(name)?;
        Ok(device_over(self.alloc, held)?)
    }

    fn device(&mut self, name: &str) -> Result<MemDevice, Refusal> {
        let bytes = self.copy_of(name)?;
        Ok(device_over(self.alloc, bytes)?)
    }

    fn back(&mut self, name: &str, device: MemDevice) {
        match self.place_of(name) {
            Some(place) => self.give(place, device.into_bytes()),
            None => unreachable!(),
        }
    }

    fn make(&mut self, _name: &str, len: u64) -> Result<MemDevice, Refusal> {
        let bytes = vec![in self.alloc; 0u8; len as usize]?;
        Ok(device_over(self.alloc, bytes)?)
    }

    fn install(&mut self, name: &str, device: MemDevice) -> Result<(), Refusal> {
        let bytes = device.into_bytes();
        match self.place_of(name) {
            Some(place) => {
                self.give(place, bytes);
                Ok(())
            }
            None => self.add(name, bytes),
        }
    }

    fn discard(&mut self, _name: &str, _device: MemDevice) {}

    fn reason(&self) -> Option<Reason> {
        None
    }
}
