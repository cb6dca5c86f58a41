// A recovery: whatever a crash left of a device, a kernel may begin over it afterwards. All is read and all memory is
// taken before the first write. `opened_kernel` and `rotation` call it.
ghost use Rattle.std.specs.Prelude.{ℕ, List};
ghost use Rattle.mt_disk.specs.Disk.{Only};
ghost use Rattle.mt_page_rules.specs.Checks.{AreChecked};
ghost use Rattle.mt_replay.specs.Marking.{IsMarked};
ghost use Rattle.mt_restart.specs.Recovered.{FindsAll, FindsSynced, IsFound, Prepares, Recovers, TurnsLogTo};

use crate::area_renewal::{prepare_next, turn};
use crate::beside::{Beside, beside_of};
use crate::first_images::images_of;
use crate::format_replay::replay_of;
use crate::restart_writes::{Marks, can_turn};
use mt_base::{Format, Refusal};
use mt_disk::Device;
use mt_frame::{MasterSlot, Record, slots_are_read_back};
use mt_log::{Log, slot_after};
use mt_replay::{Replayed, Restored, only_own_pages_matter};
use std::alloc::Global;

// What a recovery has at hand before its first write.
#[derive(Drop)]
pub(crate) struct Findings {
    pub(crate) ruling: MasterSlot,
    pub(crate) restored: Restored,
    pub(crate) marks: Marks,
    pub(crate) prepared: Log,
    pub(crate) beside: Beside,
}

// What a recovery leaves: the log of the area that rules, and all pages, each of which is in its slot.
#[derive(Drop)]
pub(crate) struct Recovered {
    // it has the images that the area began with, and no other record
    pub(crate) log: Log,
    // the master slot that rules now
    pub(crate) ruling: MasterSlot,
    // all pages of the device, as a restart restored them
    pub(crate) restored: Restored,
    // those that the area began with
    pub(crate) images: Vec<Record>,
    pub(crate) beside: Beside,
}

// Takes in memory what the log needs to turn over to pages that were found, and a kernel beside it, with so many
// frames.
pub(crate) fn prepare(alloc: Global, replayed: Replayed, frames: usize) -> Result<Findings, Refusal>
    requires marked { (c : List ℕ) × IsMarked c replayed.ruling replayed.restored.pages.items replayed.imaged.items
        replayed.lost.items }
    requires checked { AreChecked replayed.restored.pages.items }
    ensures { Prepares replayed frames result }
{
    let images = images_of(alloc, &replayed.restored.pages, &replayed.lost)?;
    if !can_turn(&replayed.ruling, &images) {
        return Err(Refusal::LogFull);
    }
    let prepared = prepare_next(alloc, &replayed.ruling, &images)?;
    let beside = beside_of(alloc, &replayed.restored.pages, frames)?;
    let Replayed {
        ruling,
        figures: _,
        restored,
        imaged,
        lost,
    } = replayed;
    Ok(Findings {
        ruling,
        restored,
        marks: Marks {
            imaged,
            lost,
            images,
        },
        prepared,
        beside,
    })
}

// What a recovery finds on a device, and takes in memory for what it will write.
fn find<D: Device>(alloc: Global, device: &mut D, frames: usize) -> Result<Findings, Refusal>
    ensures { FindsAll D.Device frames device.old device.new result }
{
    let replayed = replay_of(alloc, device, Format::Two)?;
    prepare(alloc, replayed, frames)
}

// Turns the log over to the pages that were found. It takes no memory.
pub(crate) fn turn_to<D: Device>(device: &mut D, found: Findings) -> Result<Recovered, Refusal>
    requires only { Only (D.seen device.old) (D.may_leave device.old) }
    requires found { (frames : ℕ) × IsFound (D.seen device.old) frames found }
    ensures { TurnsLogTo D.Device found device.old device.new result }
{
    let Findings {
        ruling,
        restored,
        marks,
        prepared,
        beside,
    } = found;
    let log = turn(device, &ruling, &restored.pages, &marks, prepared)?;
    Ok(Recovered {
        log,
        ruling: slot_after(&ruling),
        restored,
        images: marks.images,
        beside,
    })
}

// Syncs a device, finds on it what a recovery needs, and takes that in memory. Whatever a crash leaves of the device
// then, it is its bytes.
pub(crate) fn find_synced<D: Device>(
    alloc: Global,
    device: &mut D,
    frames: usize,
) -> Result<Findings, Refusal>
    ensures { FindsSynced D.Device frames device.old device.new result }
{
    device.sync()?;
    find(alloc, device, frames)
}

// Makes a device one again that a kernel may begin over, with so many frames, whatever a crash left of it.
//
// The device is synced first. If its ruling slot is of format 1, it is refused with 20, before its log is looked at.
// Then the passes of a restart are made in memory, as `replay` of mt_replay does. They read
// the log once, and each page's slot once at most, and mark the pages that are to be written. All memory is taken. At
// last the log turns over. Pages with an image in the ruling area are written in place, and synced. The other area
// begins with images of the pages that are neither there nor in their slots. Its master slot comes to rule, and those
// pages are written in place too.
//
// Whatever a crash leaves in this call, it is what it might have left before, or represents the base that the bytes
// represented before. After a sync that went well it represents that base. So it may be made again, however often it
// is cut off.
pub(crate) fn recover<D: Device>(
    alloc: Global,
    device: &mut D,
    frames: usize,
) -> Result<Recovered, Refusal>
    ensures { Recovers D.Device frames device.old device.new result }
{
    slots_are_read_back();
    only_own_pages_matter();
    let found = find_synced(alloc, device, frames)?;
    turn_to(device, found)
}
