// From the bytes of a device to the pages held: history is repeated, and what is unfinished is put back.
// The losers are undone afterwards, in `undo_pass`.
ghost use Rattle.std.specs.Prelude.{◌≡◌, ◌+◌, ◌*◌, ◌≤◌, length, IfErr, IfOk};
ghost use Rattle.mt_base.specs.declared.limits.TheConstants.{MASTER_BYTES, PAGE_BYTES};
ghost use Rattle.mt_base.specs.declared.refusal.Refusal.{Refusal};
ghost use Rattle.mt_log.specs.Batch.{joined};
ghost use Rattle.mt_log.specs.Found.{records_of};
ghost use Rattle.mt_log.specs.Holds.{AreBatches};
ghost use Rattle.mt_space.specs.PageLists.{AreWhole};
ghost use Rattle.mt_replay.specs.Reads.{AreLedOn, FindsHeld};

use crate::images::{Images, images_in};
use crate::page_slots::read_slots;
use crate::repeat::Repeating;
use mt_base::Refusal;
use mt_disk::Device;
use mt_log::Batch;
use std::alloc::Global;

/// The pages held, and what was read of the device for them.
#[derive(Drop)]
pub(crate) struct HeldPages {
    // the bytes of each page, by its number
    pub(crate) pages: Vec<[u8; 4096]>,
    // the bytes as the area found them: its first image there, or its slot's bytes
    pub(crate) found: Vec<[u8; 4096]>,
    // whether it has an image in the area
    pub(crate) imaged: Vec<bool>,
}

// The pages to which the batches lead from these.
fn led_on(
    alloc: Global,
    found: &[[u8; 4096]],
    batches: &[Batch],
) -> Result<Vec<[u8; 4096]>, Refusal>
    requires whole { AreWhole found.now }
    requires each { AreBatches (length found.now) (records_of batches.now) }
    ensures whole { IfOk result (λ pages. AreWhole pages.items) }
    ensures count { IfOk result (λ pages. length pages.items ≡ length found.now) }
    ensures held { IfOk result (λ pages. AreLedOn (joined (records_of batches.now)) found.now pages.items) }
    ensures only_memory { IfErr result (λ why. why ≡ Refusal.NoMemory) }
{
    let mut pages = Vec::with_capacity(alloc, found.len())?;
    pages.extend_from_slice(found)?;
    let mut repeating = Repeating::over(alloc, pages);
    repeating.repeat_all(batches)?;
    Ok(repeating.take_back(batches)?)
}

/// The pages held, of so many pages of a device, with the batches that a scan of its ruling area found. History is
/// repeated over the pages as the area found them. What is unfinished is put back, the last change first.
///
/// A page as the area found it is its first image there, or its slot's bytes if there is none; the slots of the
/// others are not read. All records are repeated, those of transactions that will be undone among them (Mohan 1992).
/// Each costs a look-up or two in ordered maps, however many operations have not ended.
///
/// The refusals are [`Refusal::NoMemory`], and [`Refusal::DeviceFailed`] if and only if the device failed in this
/// call. The device is only read, and its content is as before in any case.
pub(crate) fn held_pages<D: Device>(
    alloc: Global,
    device: &mut D,
    count: u16,
    batches: &[Batch],
) -> Result<HeldPages, Refusal>
    requires slots { MASTER_BYTES + PAGE_BYTES * count ≤ length (D.seen device.old) }
    requires each { AreBatches count (records_of batches.now) }
    ensures { FindsHeld D.Device count
        (joined (records_of batches.now)) device.old device.new result }
{
    let images = images_in(alloc, count, batches)?;
    let Images { pages, imaged } = images;
    let mut found = pages;
    read_slots(device, &mut found, &imaged)?;
    let pages = led_on(alloc, &found, batches)?;
    Ok(HeldPages {
        pages,
        found,
        imaged,
    })
}
