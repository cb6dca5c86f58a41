// Pages that are written into their slots, with a sync after them or without. `area_renewal` alone calls it.
ghost use Rattle.std.specs.Prelude.{◌≡◌, ◌+◌, ◌*◌, ◌≤◌, length};
ghost use Rattle.mt_base.specs.declared.limits.TheConstants.{MASTER_BYTES, MAX_PAGES, PAGE_BYTES};
ghost use Rattle.mt_restart.specs.Turned.{PutsDurably, PutsInPlace};

use mt_base::PageNo;
use mt_base::limits::MASTER_BYTES;
use mt_disk::{Device, DeviceFault};
use mt_pool::slot_at;

/// Writes each marked page into its slot: a write for each. Nothing is synced.
///
/// A crash at any moment of this call changes only the slots of marked pages. The only error is the device's.
pub(crate) fn write_in_place<D: Device>(
    device: &mut D,
    pages: &[[u8; 4096]],
    marked: &[bool],
) -> Result<(), DeviceFault>
    requires count { length marked.now ≡ length pages.now }
    requires slots { MASTER_BYTES + PAGE_BYTES * length pages.now ≤ length (D.seen device.old) }
    requires few { length pages.now ≤ MAX_PAGES }
    ensures { PutsInPlace D.Device marked.now pages.now
        device.old device.new result }
{
    for page in 0..pages.len() {
        if marked[page] {
            let at = slot_at(MASTER_BYTES, PageNo::new(page as u16));
            device.write_at(at, &pages[page])?;
        }
    }
    Ok(())
}

/// Makes each marked page last in its slot: a write for each, and a sync.
///
/// A crash at any moment of this call changes only the slots of marked pages. The only error is the device's.
pub(crate) fn write_and_sync<D: Device>(
    device: &mut D,
    pages: &[[u8; 4096]],
    marked: &[bool],
) -> Result<(), DeviceFault>
    requires count { length marked.now ≡ length pages.now }
    requires slots { MASTER_BYTES + PAGE_BYTES * length pages.now ≤ length (D.seen device.old) }
    requires few { length pages.now ≤ MAX_PAGES }
    ensures { PutsDurably D.Device marked.now pages.now
        device.old device.new result }
{
    write_in_place(device, pages, marked)?;
    device.sync()
}
