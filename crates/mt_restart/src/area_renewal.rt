// The log turned over to an area that begins with images, device call by device call. `recovery` alone calls it,
// with all memory taken before.
ghost use Rattle.std.specs.Prelude.{◌≡◌, ◌<◌, ◌^◌, ℕ, List, IfOk, IfErr, OnOk};
ghost use Rattle.std.specs.List.{AllByRecursion};
ghost use Rattle.mt_base.specs.declared.refusal.Refusal.{Refusal};
ghost use Rattle.mt_disk.specs.Disk.{LeavesOnly, Only};
ghost use Rattle.mt_frame.specs.Grammar.{IsRecord};
ghost use Rattle.mt_frame.specs.SlotText.{IsSlot};
ghost use Rattle.mt_frame.specs.declared.records.Record.{Record};
ghost use Rattle.mt_space.specs.Changes.{PageBytes};
ghost use Rattle.mt_replay.specs.Stands.{IsReadAs};
ghost use Rattle.mt_restart.specs.Found.{AreMarked, CanTurn, HasBegun, HasTurned, IsPrepared, ReadsOldOrNext};

use crate::restart_writes::Marks;
use crate::slot_writes::write_and_sync;
use mt_base::Refusal;
use mt_disk::Device;
use mt_frame::{MasterSlot, Record};
use mt_log::{AreaPlace, Log, begin_prepared, prepare_area, slot_after, turn_slot};
use std::alloc::Global;

// Prepares the log of the next area, which is to begin with these images.
pub(crate) fn prepare_next(
    alloc: Global,
    ruling: &MasterSlot,
    images: &[Record],
) -> Result<Log, Refusal>
    requires fits { IsSlot ruling.now }
    requires grammar { AllByRecursion IsRecord images.now }
    requires turns { CanTurn ruling.now images.now }
    ensures prepared { IfOk result (IsPrepared ruling.now images.now) }
    ensures only_memory { IfErr result (λ why. why ≡ Refusal.NoMemory) }
{
    let area = AreaPlace::named_by(&slot_after(ruling));
    prepare_area(alloc, area, images)
}

// Begins the next area beside the ruling one: the pages with an image in the ruling area are written in place first.
fn begin_next<D: Device>(
    device: &mut D,
    ruling: &MasterSlot,
    pages: &[[u8; 4096]],
    marks: &Marks,
    prepared: Log,
) -> Result<Log, Refusal>
    requires only { Only (D.seen device.old) (D.may_leave device.old) }
    requires marked { (batches : List (List Record))
        × AreMarked (D.seen device.old) ruling.now pages.now batches marks.now }
    requires prepared { IsPrepared ruling.now marks.now.images.items prepared }
    ensures begun { IfOk result (HasBegun D.Device ruling.now pages.now marks.now device.new) }
    ensures moments { (opening : PageBytes) (batches : List (List Record))
        → IsReadAs (D.seen device.old) ruling.now opening batches
        → LeavesOnly D.moment D.left_since device.old device.new (λ c. IsReadAs c ruling.now opening batches) }
    ensures cause { IfErr result (λ why. (why ≡ Refusal.DeviceFailed) × (D.faults device.old < D.faults device.new)) }
    ensures quiet { OnOk result (D.faults device.new ≡ D.faults device.old) }
{
    write_and_sync(device, pages, &marks.imaged)?;
    let log = begin_prepared(device, prepared)?;
    Ok(log)
}

/// Turns the log over. The pages with an image in the ruling area are written in place, and the next area begins with
/// images of those that are lost. Its slot comes to rule, and those pages are written in place too. It takes no
/// memory.
pub(crate) fn turn<D: Device>(
    device: &mut D,
    ruling: &MasterSlot,
    pages: &[[u8; 4096]],
    marks: &Marks,
    prepared: Log,
) -> Result<Log, Refusal>
    requires only { Only (D.seen device.old) (D.may_leave device.old) }
    requires marked { (batches : List (List Record))
        × AreMarked (D.seen device.old) ruling.now pages.now batches marks.now }
    requires turns { ruling.now.epoch < 2 ^ 63 }
    requires prepared { IsPrepared ruling.now marks.now.images.items prepared }
    ensures turned { IfOk result (HasTurned D.Device ruling.now pages.now marks.now.images.items device.new) }
    ensures moments { (opening : PageBytes) (batches : List (List Record))
        → IsReadAs (D.seen device.old) ruling.now opening batches
        → LeavesOnly D.moment D.left_since device.old device.new
        (ReadsOldOrNext ruling.now opening batches pages.now marks.now.images.items) }
    ensures cause { IfErr result (λ why. (why ≡ Refusal.DeviceFailed) × (D.faults device.old < D.faults device.new)) }
    ensures quiet { OnOk result (D.faults device.new ≡ D.faults device.old) }
{
    let log = begin_next(device, ruling, pages, marks, prepared)?;
    turn_slot(device, ruling)?;
    write_and_sync(device, pages, &marks.lost)?;
    Ok(log)
}
