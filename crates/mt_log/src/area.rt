// Which bytes of a device an area has.
ghost use Rattle.std.specs.Prelude.{false, true, ◌≡◌, ◌+◌, ◌*◌, ◌<◌, ◌≤◌};
ghost use Rattle.mt_base.specs.declared.limits.TheConstants.{MASTER_BYTES, MAX_AREA_MIB, MIB_BYTES, PAGE_BYTES};
ghost use Rattle.mt_base.specs.Limits.{IsPageCount, IsAreaSize};
ghost use Rattle.mt_frame.specs.SlotText.{IsSlot};
ghost use Rattle.mt_log.specs.Masters.{area_end, area_start};

use mt_base::limits::{MASTER_BYTES, area_bytes};
use mt_frame::MasterSlot;

/// Where a log area lies on its device: from its first byte to the one after its last.
#[derive(Clone, Copy, Debug)]
pub struct AreaPlace {
    pub start: u64,
    pub end: u64,
    ghost some_bytes: { start + 5 < end },
    ghost not_too_many: { end ≤ start + MAX_AREA_MIB * MIB_BYTES },
}

impl AreaPlace {
    /// The first (false) or the second (true) log area of a device of this many pages, whose areas
    /// have this many MiB.
    pub fn of(pages: u16, mib: u8, second: bool) -> AreaPlace
        requires page_count { IsPageCount pages }
        requires area_size { IsAreaSize mib }
        ensures size { result.end ≡ result.start + mib * MIB_BYTES }
        ensures first { second ≡ false → result.start ≡ MASTER_BYTES + PAGE_BYTES * pages }
        ensures second { second ≡ true → result.start ≡ MASTER_BYTES + PAGE_BYTES * pages + mib * MIB_BYTES }
    {
        let size = area_bytes(mib);
        let pages_end = MASTER_BYTES + 4096 * u64::from(pages);
        let start = if second { pages_end + size } else { pages_end };
        AreaPlace {
            start,
            end: start + size,
        }
    }

    /// The log area that a master slot names.
    pub fn named_by(slot: &MasterSlot) -> AreaPlace
        requires { IsSlot slot.now }
        ensures start { result.start ≡ area_start slot.now }
        ensures end { result.end ≡ area_end slot.now }
    {
        AreaPlace::of(slot.pages, slot.mib, slot.area == 1)
    }

    /// Its bytes.
    pub fn size(&self) -> u64
        ensures { self.now.start + result ≡ self.now.end }
    {
        self.end - self.start
    }
}
