// Pages are written into their slots under the write-ahead rule: each after all of its records are durable.
// A call writes one page at most. Who calls says how many records are durable.
ghost use Rattle.std.specs.Prelude.{◌≡◌, ◌⊎◌, ◌<◌, ◌≤◌, ◌+◌, ◌*◌, ℕ, Ok};
ghost use Rattle.mt_base.specs.declared.limits.TheConstants.{PAGE_BYTES};
ghost use Rattle.mt_disk.specs.Disk.{Torn, Follows, HasCause};
ghost use Rattle.mt_disk.specs.Calls.{MakesOneCall};

use crate::Pool;
use crate::slots::write_slot;
use mt_base::PageNo;
use mt_disk::{Device, DeviceFault};

/// What a flush step did.
#[derive(Clone, Copy, Debug, PartialEq, Eq)]
pub enum Flushed {
    /// It wrote this page into its slot. Until the next sync a crash may leave anything there.
    Page(PageNo),
    /// Nothing: of each page yet to be flushed some record is not durable, so the log is to be forced.
    Force,
    /// Nothing, since no page is yet to be flushed.
    Clean,
}

/// What there is to flush.
enum ToFlush {
    /// In this frame this page, and all its records are durable.
    Ready(usize, PageNo),
    /// Only pages with a record that is not durable.
    Waiting,
    Nothing,
}

impl Pool {
    ghost use Rattle.mt_pool.specs.FlushSteps.{FlushSteps};
    ghost use Rattle.mt_pool.specs.Views.{AreClean, IsPool, Shows, view, pages, waits_for};
    ghost use Rattle.mt_pool.specs.declared.flushes.Flushed.TheVariants as flushed;
    ghost use Rattle.mt_pool.specs.Finds.{IsFound};

    /// Looks for a page that may be written, if the area's first `durable` records are durable.
    fn find(&self, durable: u64) -> ToFlush
        requires pool { IsPool self.now }
        ensures { IsFound self.now durable result }
    {
        let mut any = false;
        for frame in 0..self.dirty.len() {
            if !self.dirty[frame] {
                continue;
            }
            any = true;
            if let Some(page) = self.page_of(frame) {
                if self.records_before(page) <= durable {
                    return ToFlush::Ready(frame, page);
                }
            }
        }
        if any {
            ToFlush::Waiting
        } else {
            ToFlush::Nothing
        }
    }

    /// Writes one page into its slot, all of whose records are durable: the area's first `durable` records
    /// are. It makes one device call at most, takes no memory, and all views stand. The only error is the
    /// device's, and the pool is as before then; the slot may hold anything.
    pub fn flush_step<D: Device>(
        &mut self,
        durable: u64,
        device: &mut D,
    ) -> Result<Flushed, DeviceFault>
        requires pool { IsPool self.old }
        requires shows { Shows self.old (D.seen device.old) }
        ensures pool { IsPool self.new }
        ensures shows { Shows self.new (D.seen device.new) }
        ensures views { (q : ℕ) → view self.new (D.seen device.new) q ≡ view self.old (D.seen device.old) q }
        ensures steps { FlushSteps durable self.old self.new result }
        ensures place { self.new.place ≡ self.old.place }
        // A page is written in place only after every record of its changes is durable.
        ensures crash { (device.new ≡ device.old) ⊎ ((p : ℕ) × (p < pages self.old) × (0 < waits_for self.old p)
            × (waits_for self.old p ≤ durable)
            × Torn (self.old.place + PAGE_BYTES * p) PAGE_BYTES (D.seen device.old) (D.seen device.new)
            × Follows (Torn (self.old.place + PAGE_BYTES * p) PAGE_BYTES)
            (D.may_leave device.old) (D.may_leave device.new)) }
        ensures time { MakesOneCall D.Device device.old device.new }
        ensures waiting { result ≡ Ok flushed.Force → device.new ≡ device.old }
        ensures exact { AreClean self.old → result ≡ Ok flushed.Clean }
        ensures cause { HasCause (D.faults device.old) (D.faults device.new) result }
    {
        match self.find(durable) {
            ToFlush::Ready(frame, page) => match write_slot(
                device,
                self.place,
                page,
                &self.bytes[frame],
            ) {
                Ok(()) => {
                    self.dirty[frame] = false;
                    Ok(Flushed::Page(page))
                }
                Err(fault) => Err(fault),
            },
            ToFlush::Waiting => Ok(Flushed::Force),
            ToFlush::Nothing => Ok(Flushed::Clean),
        }
    }
}
