// The slots of the pages on the device, 4096 bytes each, one after the other. A restart reads them, too.
ghost use Rattle.std.specs.Prelude.{◌≡◌, ◌+◌, ◌*◌, ◌<◌, ◌≤◌, ◌^◌, length};
ghost use Rattle.mt_base.specs.declared.limits.TheConstants.{PAGE_BYTES};
ghost use Rattle.mt_pool.specs.Slots.{ReadsSlot, WritesSlot};

use mt_base::PageNo;
use mt_disk::{Device, DeviceFault};

/// A page's place in a list that has an entry for each page.
pub(crate) fn index_of(page: PageNo) -> usize
    ensures { result ≡ page }
{
    usize::from(page.get())
}

/// Where a page's slot begins, if that of page 0 begins at `place`.
pub fn slot_at(place: u64, page: PageNo) -> u64
    requires { place + PAGE_BYTES * page < 2 ^ 64 }
    ensures { result ≡ place + PAGE_BYTES * page }
{
    place + 4096 * u64::from(page.get())
}

/// Writes a page into its slot. After a fault the slot may hold anything.
pub(crate) fn write_slot<D: Device>(
    device: &mut D,
    place: u64,
    page: PageNo,
    bytes: &[u8; 4096],
) -> Result<(), DeviceFault>
    requires fits { place + PAGE_BYTES * page < 2 ^ 64 }
    requires inside { place + PAGE_BYTES * page + PAGE_BYTES ≤ length (D.seen device.old) }
    ensures { WritesSlot D.Device
        place page bytes.now device.old device.new result }
{
    device.write_at(slot_at(place, page), bytes)
}

/// Reads a page from its slot. After a fault `bytes` may hold anything.
pub fn read_slot<D: Device>(
    device: &mut D,
    place: u64,
    page: PageNo,
    bytes: &mut [u8; 4096],
) -> Result<(), DeviceFault>
    requires fits { place + PAGE_BYTES * page < 2 ^ 64 }
    requires inside { place + PAGE_BYTES * page + PAGE_BYTES ≤ length (D.seen device.old) }
    ensures { ReadsSlot D.Device
        place page bytes.new device.old device.new result }
{
    device.read(slot_at(place, page), bytes)
}
