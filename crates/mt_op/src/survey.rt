// What the pages held come to, if no operation is under way: the base, and figures of the index and the free pages.
// Pages are read from frames or from the device, and none comes into a frame.
ghost use Rattle.std.specs.Prelude.{◌≡◌, ◌⊎◌, ◌<◌, ◌≤◌, ◌+◌, ℕ, length, Err, IfOk, IfErr, OnOk};
ghost use Rattle.mt_base.specs.declared.limits.TheConstants.{MAX_RELATIONS, PAGE_BYTES};
ghost use Rattle.mt_disk.specs.Disk.{LeavesTheSame};
ghost use Rattle.mt_model.specs.Model.{Base as ModelBase};
ghost use Rattle.mt_pool.specs.Views.{pages};
ghost use Rattle.mt_space.specs.Changes.{PageBytes};
ghost use Rattle.mt_steps.specs.Held.{Holds};
ghost use Rattle.mt_steps.specs.Listed.{HasListed};
ghost use Rattle.mt_op.specs.Operations.{world, IsRight};
ghost use Rattle.mt_op.specs.Surveyed.{IsIdle, IsSurvey, OnlyReads};
ghost use Rattle.mt_op.specs.World.{held_in};

use crate::Operations;
use mt_base::{PageNo, Refusal};
use mt_disk::Device;
use mt_index::depth;
use mt_model::Base;
use mt_rows::Row;
use mt_space::Pages;
use mt_space::pages::{COUNTERS, DIRECTORY, RECORDS};
use mt_steps::{base_of_rows, base_without_rows, list_rows};
use std::alloc::Global;

/// What the pages held come to.
#[derive(Debug, Drop)]
pub struct Survey {
    /// How many bits of a key's hash the index's directory goes by: at most 9.
    pub depth: u8,
    /// How many pages are free.
    pub free: u16,
    /// The base that the pages hold.
    pub base: Base,
}

impl<D: Device> Operations<D> {
    // A page as it is held.
    fn held_page(&mut self, page: PageNo) -> Result<[u8; 4096], Refusal>
        requires idle { ∥ ((relations : ℕ) × IsIdle D.Device relations self.old) ∥₁ }
        requires inside { page < pages self.old.store.pool }
        ensures held { (opening : PageBytes) (relations counters : ℕ)
            → IsRight D.Device opening relations counters self.old
            → IfOk result (λ bytes. bytes ≡ held_in (world D.Device opening self.old) page) }
        ensures whole { IfOk result (λ bytes. length bytes ≡ PAGE_BYTES) }
        ensures read { OnlyReads D.Device self.old self.new }
        ensures crash { LeavesTheSame (D.may_leave self.old.store.device) (D.may_leave self.new.store.device) }
        ensures once { D.moment self.new.store.device ≤ D.moment self.old.store.device + 1 }
        ensures quiet { (result ≡ Err Refusal.DeviceFailed → ⊥)
            → D.faults self.new.store.device ≡ D.faults self.old.store.device }
        ensures cause { IfErr result (λ why. (why ≡ Refusal.DeviceFailed)
            × (D.faults self.old.store.device < D.faults self.new.store.device)) }
    {
        let mut bytes = [0; 4096];
        match self.store.copy(page, &mut bytes) {
            Ok(()) => Ok(bytes),
            Err(_) => Err(Refusal::DeviceFailed),
        }
    }

    // Lists the records of a page as rows, if it is a page of records.
    fn list_page(&mut self, alloc: Global, rows: &mut Vec<Row>, page: PageNo) -> Result<(), Refusal>
        requires idle { ∥ ((relations : ℕ) × IsIdle D.Device relations self.old) ∥₁ }
        requires inside { page < pages self.old.store.pool }
        ensures listed { (opening : PageBytes) (relations counters : ℕ)
            → IsRight D.Device opening relations counters self.old
            → HasListed (held_in (world D.Device opening self.old)) page rows.old.items
            → OnOk result (HasListed (held_in (world D.Device opening self.old)) (page + 1) rows.new.items) }
        ensures read { OnlyReads D.Device self.old self.new }
        ensures crash { LeavesTheSame (D.may_leave self.old.store.device) (D.may_leave self.new.store.device) }
        ensures once { D.moment self.new.store.device ≤ D.moment self.old.store.device + 1 }
        ensures quiet { (result ≡ Err Refusal.DeviceFailed → ⊥)
            → D.faults self.new.store.device ≡ D.faults self.old.store.device }
        ensures cause { IfErr result (λ why. (why ≡ Refusal.NoMemory) ⊎ (why ≡ Refusal.DeviceFailed)
            × (D.faults self.old.store.device < D.faults self.new.store.device)) }
    {
        if self.map.kinds[usize::from(page.get())] != RECORDS {
            return Ok(());
        }
        let bytes = self.held_page(page)?;
        list_rows(alloc, rows, &bytes)?;
        Ok(())
    }

    // The records of all pages as rows, page by page.
    fn list_pages(&mut self, alloc: Global) -> Result<Vec<Row>, Refusal>
        requires idle { ∥ ((relations : ℕ) × IsIdle D.Device relations self.old) ∥₁ }
        ensures listed { (opening : PageBytes) (relations counters : ℕ)
            → IsRight D.Device opening relations counters self.old
            → IfOk result (λ rows. HasListed (held_in (world D.Device opening self.old))
            (pages self.old.store.pool) rows.items) }
        ensures read { OnlyReads D.Device self.old self.new }
        ensures crash { LeavesTheSame (D.may_leave self.old.store.device) (D.may_leave self.new.store.device) }
        ensures calls { D.moment self.new.store.device
            ≤ D.moment self.old.store.device + pages self.old.store.pool }
        ensures quiet { (result ≡ Err Refusal.DeviceFailed → ⊥)
            → D.faults self.new.store.device ≡ D.faults self.old.store.device }
        ensures cause { IfErr result (λ why. (why ≡ Refusal.NoMemory) ⊎ (why ≡ Refusal.DeviceFailed)
            × (D.faults self.old.store.device < D.faults self.new.store.device)) }
    {
        let mut rows = Vec::new(alloc);
        for number in 0..self.store.pool.count() {
            self.list_page(alloc, &mut rows, PageNo::new(number))?;
        }
        Ok(rows)
    }

    /// Answers what the pages held come to, by their bytes, if no operation is under way. Each page of records is
    /// read once, from its frame or else from the device, so it answers however many pages are to be flushed. Nothing
    /// but the device's reads is done.
    ///
    /// Refused with [`Refusal::DeviceFailed`] if and only if the device failed in this call, and with
    /// [`Refusal::NoMemory`].
    pub fn survey(&mut self, alloc: Global) -> Result<Survey, Refusal>
        requires idle { ∥ ((relations : ℕ) × (relations ≤ MAX_RELATIONS)
            × IsIdle D.Device relations self.old) ∥₁ }
        ensures surveyed { (opening : PageBytes) (relations counters : ℕ) (held : ModelBase)
            → IsRight D.Device opening relations counters self.old
            → Holds (held_in (world D.Device opening self.old)) held
            → IfOk result (IsSurvey relations counters (pages self.old.store.pool)
            (held_in (world D.Device opening self.old)) held) }
        ensures read { OnlyReads D.Device self.old self.new }
        ensures crash { LeavesTheSame (D.may_leave self.old.store.device) (D.may_leave self.new.store.device) }
        // It reads each page once at most, but for two that are read first.
        ensures calls { D.moment self.new.store.device
            ≤ D.moment self.old.store.device + pages self.old.store.pool + 2 }
        ensures quiet { (result ≡ Err Refusal.DeviceFailed → ⊥)
            → D.faults self.new.store.device ≡ D.faults self.old.store.device }
        ensures cause { IfErr result (λ why. (why ≡ Refusal.NoMemory) ⊎ (why ≡ Refusal.DeviceFailed)
            × (D.faults self.old.store.device < D.faults self.new.store.device)) }
    {
        let depth = depth(&self.held_page(PageNo::new(DIRECTORY))?);
        let base = base_without_rows(alloc, &self.held_page(PageNo::new(COUNTERS))?)?;
        let rows = self.list_pages(alloc)?;
        Ok(Survey {
            depth,
            free: self.map.space.free(),
            base: base_of_rows(base, rows),
        })
    }
}
