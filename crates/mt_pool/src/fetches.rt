// Pages come into frames, out of their slots. A page that need not be flushed leaves its frame for another.
// Nothing is written: if each frame has a page to flush, the answer says so.
ghost use Rattle.std.specs.Prelude.{◌≡◌, ◌<◌, ℕ, length, get_or, Ok, None, OnOk};
ghost use Rattle.mt_base.specs.declared.limits.TheConstants.{PAGE_BYTES};
ghost use Rattle.mt_disk.specs.Disk.{HasCause, LeavesTheSame};
ghost use Rattle.mt_disk.specs.Calls.{MakesOneCall};

use crate::Pool;
use crate::slots::{index_of, read_slot};
use mt_base::PageNo;
use mt_disk::{Device, DeviceFault};

/// What a fetch of a page did.
#[derive(Clone, Copy, Debug, PartialEq, Eq)]
pub enum Fetched {
    /// The page is in a frame.
    There,
    /// Nothing: every frame holds a page yet to be flushed, and this page is in none.
    Flush,
}

impl Pool {
    ghost use Rattle.mt_pool.specs.Moves.{Installs};
    ghost use Rattle.mt_pool.specs.FetchSteps.{FetchSteps, OnlyMoves};
    ghost use Rattle.mt_pool.specs.Views.{IsPool, Shows, view, pages, frames};
    ghost use Rattle.mt_pool.specs.declared.fetches.Fetched.TheVariants as fetched;

    /// The page, whose bytes are in this free frame, is in it from now on.
    fn install(&mut self, frame: usize, page: PageNo)
        requires pool { IsPool self.old }
        requires frame { frame < frames self.old }
        requires page { page < pages self.old }
        requires free { get_or self.old.holds.items frame None ≡ None }
        requires new { get_or self.old.of_page.items page None ≡ None }
        ensures { Installs self.old self.new frame page }
    {
        self.of_page[index_of(page)] = Some(frame);
        self.holds[frame] = Some(page);
        self.used[frame] = true;
    }

    /// Brings the page into a frame, if it is in none. Out of that frame goes a page that is not to be flushed, by
    /// second chance. It answers [`Fetched::Flush`] if and only if every frame holds a page yet to be flushed and the
    /// page is in none. It changes nothing then. It reads one page at most, writes none, takes no memory, and all
    /// views stand, after an error too, which only the device makes.
    pub fn fetch<D: Device>(&mut self, device: &mut D, page: PageNo) -> Result<Fetched, DeviceFault>
        requires pool { IsPool self.old }
        requires shows { Shows self.old (D.seen device.old) }
        requires inside { page < pages self.old }
        ensures pool { IsPool self.new }
        ensures shows { Shows self.new (D.seen device.new) }
        ensures views { (q : ℕ) → view self.new (D.seen device.new) q ≡ view self.old (D.seen device.old) q }
        ensures steps { FetchSteps page self.old self.new result }
        ensures moves { OnlyMoves self.old self.new }
        ensures nothing { result ≡ Ok fetched.Flush → device.new ≡ device.old }
        ensures seen { D.seen device.new ≡ D.seen device.old }
        ensures crash { LeavesTheSame (D.may_leave device.old) (D.may_leave device.new) }
        ensures time { MakesOneCall D.Device device.old device.new }
        ensures cause { HasCause (D.faults device.old) (D.faults device.new) result }
    {
        if let Some(frame) = self.frame_of(page) {
            self.used[frame] = true;
            return Ok(Fetched::There);
        }
        match self.victim() {
            Some(frame) => {
                self.forget(frame);
                match read_slot(device, self.place, page, &mut self.bytes[frame]) {
                    Ok(()) => {
                        self.install(frame, page);
                        Ok(Fetched::There)
                    }
                    Err(fault) => Err(fault),
                }
            }
            None => Ok(Fetched::Flush),
        }
    }

    /// Copies a page's bytes as they are, out of its frame or else out of its slot. No page comes into a frame or
    /// leaves one, so it answers however many pages are to be flushed. It reads one page at most, writes none and
    /// takes no memory. The only error is the device's; `bytes` may hold anything then.
    pub fn copy<D: Device>(
        &self,
        device: &mut D,
        page: PageNo,
        bytes: &mut [u8; 4096],
    ) -> Result<(), DeviceFault>
        requires pool { IsPool self.now }
        requires shows { Shows self.now (D.seen device.old) }
        requires inside { page < pages self.now }
        ensures copied { OnOk result (bytes.new ≡ view self.now (D.seen device.old) page) }
        ensures whole { length bytes.new ≡ PAGE_BYTES }
        ensures seen { D.seen device.new ≡ D.seen device.old }
        ensures crash { LeavesTheSame (D.may_leave device.old) (D.may_leave device.new) }
        ensures time { MakesOneCall D.Device device.old device.new }
        ensures cause { HasCause (D.faults device.old) (D.faults device.new) result }
    {
        match self.frame_of(page) {
            Some(frame) => {
                *bytes = self.bytes[frame];
                Ok(())
            }
            None => read_slot(device, self.place, page, bytes),
        }
    }
}
