// The pages' slots on the device, read once each before a restart's passes, and the pages that differ from them
// afterwards. `pages_held` reads them. The device is only read.
ghost use Rattle.std.specs.Prelude.{◌≡◌, ◌+◌, ◌*◌, ◌^◌, ◌<◌, ◌≤◌, ℕ, List, length, IfOk};
ghost use Rattle.mt_base.specs.declared.limits.TheConstants.{MASTER_BYTES, PAGE_BYTES};
ghost use Rattle.mt_replay.specs.Marking.{MarksLost, FindsLost};
ghost use Rattle.mt_space.specs.PageLists.{AreWhole};
ghost use Rattle.mt_replay.specs.Reads.{AreOfSlots, FillsPages};

use mt_base::PageNo;
use mt_base::limits::MASTER_BYTES;
use mt_disk::{Device, DeviceFault};
use mt_pool::read_slot;
use std::alloc::{AllocError, Global};

/// Reads the slot of each page without an image: a read for each. A page with one stays. The only error is the
/// device's.
pub(crate) fn read_slots<D: Device>(
    device: &mut D,
    pages: &mut Vec<[u8; 4096]>,
    imaged: &[bool],
) -> Result<(), DeviceFault>
    requires whole { AreWhole pages.old.items }
    requires marks { length imaged.now ≡ length pages.old.items }
    requires few { length pages.old.items < 2 ^ 16 }
    requires slots { MASTER_BYTES + PAGE_BYTES * length pages.old.items ≤ length (D.seen device.old) }
    ensures { FillsPages D.Device imaged.now
        pages.old.items pages.new.items device.old device.new result }
{
    for number in 0..pages.len() {
        if !imaged[number] {
            let page = PageNo::new(number as u16);
            read_slot(device, MASTER_BYTES, page, &mut pages[number])?;
        }
    }
    Ok(())
}

// Whether a page without an image has other bytes than its slot.
pub(crate) fn is_lost(found: &[u8; 4096], page: &[u8; 4096], imaged: bool) -> bool
    ensures { FindsLost page.now imaged found.now result }
{
    !imaged && found.as_slice() != page.as_slice()
}

/// Which pages have no image and other bytes than their slots, which these were found to have. The only error is want
/// of memory.
pub(crate) fn lost_pages(
    alloc: Global,
    found: &[[u8; 4096]],
    pages: &[[u8; 4096]],
    imaged: &[bool],
) -> Result<Vec<bool>, AllocError>
    requires found { length found.now ≡ length pages.now }
    requires marks { length imaged.now ≡ length pages.now }
    ensures { (c : List ℕ) → AreOfSlots (length pages.now) imaged.now c found.now
        → IfOk result (λ lost. MarksLost pages.now imaged.now c lost.items) }
{
    let mut lost = Vec::with_capacity(alloc, pages.len())?;
    for page in 0..pages.len() {
        lost.push(is_lost(&found[page], &pages[page], imaged[page]))?;
    }
    Ok(lost)
}
