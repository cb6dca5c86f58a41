// A kernel over a device that was used before, whatever a crash left of it: a recovery, and a kernel over its pages.
ghost use Rattle.std.specs.Prelude.{◌≡◌, ◌⊎◌, ◌<◌, ℕ, List, false, IfOk, IfErr, MatchResult};
ghost use Rattle.mt_base.specs.declared.refusal.Refusal.{Refusal};
ghost use Rattle.mt_disk.specs.Disk.{LeavesOnly};
ghost use Rattle.mt_space.specs.PageLists.{bytes_of};
ghost use Rattle.mt_core.specs.Consistent.{IsFresh};
ghost use Rattle.mt_frame.specs.declared.slots.MasterSlot.{MasterSlot};
ghost use Rattle.mt_log.specs.Masters.{IsRuling};
ghost use Rattle.mt_log.specs.NextSlot.{next_slot};
ghost use Rattle.mt_log.specs.Words.{has_failed};
ghost use Rattle.mt_model.specs.Model.{Base, IsBase};
ghost use Rattle.mt_replay.specs.Stands.{CanRestart};
ghost use Rattle.mt_steps.specs.Held.{Holds};
ghost use Rattle.mt_txn.specs.Shown.{is_failed, kernel_device, kernel_frames, kernel_ruling};
ghost use Rattle.mt_txn.specs.Well.{Opens};
ghost use Rattle.mt_restart.specs.Frames.{IsFrameCount};
ghost use Rattle.mt_restart.specs.Recovered.{IsRecovered, StandsStill};
ghost use Rattle.mt_restart.specs.Resumed.{BeginsOn, BeginsOnRestored, IsOpened, IsNotOpened, device_of};
ghost use Rattle.mt_op.specs.Operations.{operation_frames, operation_log, operation_device, operation_ruling};

use crate::beside::Beside;
use crate::recovery::{Recovered, recover};
use mt_base::Refusal;
use mt_disk::Device;
use mt_escrow::Escrow;
use mt_frame::slots_are_read_back;
use mt_op::Operations;
use mt_pool::Store;
use mt_replay::only_own_pages_matter;
use mt_txn::Kernel;
use std::alloc::Global;

// Operations over a device that was recovered, and an escrow of its counters. It takes no memory. mt_format makes the
// same parts over an area that was just formatted, which has no image to note.
pub(crate) fn parts_over<D: Device + Drop>(
    device: D,
    recovered: Recovered,
) -> (Operations<D>, Escrow)
    requires recovered { (frames : ℕ) × IsRecovered D.Device frames device recovered }
    ensures fresh { IsFresh result.0 result.1 }
    ensures opens { (b : Base) → Holds (bytes_of recovered.restored.pages.items) b → IsBase b
        → Opens D.Device result.0 result.1 recovered.beside.relations recovered.beside.counters b }
    ensures device { operation_device result.0 ≡ device }
    ensures ruling { operation_ruling result.0 ≡ recovered.ruling }
    ensures frames { (n : ℕ) → IsRecovered D.Device n device recovered → operation_frames result.0 ≡ n }
    ensures well { has_failed (operation_log result.0) ≡ false }
{
    let Recovered {
        log,
        ruling,
        restored: _,
        images,
        beside,
    } = recovered;
    let Beside {
        pool,
        idle,
        escrow,
        relations: _,
        counters: _,
    } = beside;
    let store = Store::over_images(device, log, pool, ruling, &images);
    (Operations::join(store, idle), escrow)
}

// A kernel over a device that was recovered. It takes no memory.
pub(crate) fn kernel_over<D: Device + Drop>(
    alloc: Global,
    device: D,
    recovered: Recovered,
) -> Kernel<D>
    requires recovered { (frames : ℕ) × IsRecovered D.Device frames device recovered }
    ensures opened { (b : Base) → Holds (bytes_of recovered.restored.pages.items) b → IsBase b
        → IsOpened recovered.beside.relations recovered.beside.counters b result }
    ensures device { kernel_device result ≡ device }
    ensures ruling { kernel_ruling result ≡ recovered.ruling }
    ensures frames { (n : ℕ) → IsRecovered D.Device n device recovered → kernel_frames result ≡ n }
    ensures well { is_failed result ≡ false }
{
    let relations = recovered.beside.relations;
    let counters = recovered.beside.counters;
    let (operations, escrow) = parts_over(device, recovered);
    Kernel::assemble(alloc, operations, escrow, relations, counters)
}

/// Gives a kernel over a device of format 2 that was used before, whatever a crash left of it, with 32 to 4096 pages in
/// frames. No transaction is active, the book is empty, and the pages hold the base that the bytes represented. That is
/// what the log's committed transactions lead to, in the order of their commits.
///
/// The device is synced. Then a restart's passes are made in memory. The ruling area's records are repeated,
/// unfinished operations are put back, and losers are undone by their inverses (Mohan 1992; Weikum 1991). At last the
/// log turns over to the other area, once. Its first batch has images of the pages that are neither in the ruling
/// area nor in their slots.
///
/// Whenever a crash comes in this call, what it leaves is what it might have left before, or represents the same
/// base. So a device may be opened again, however often that is cut off.
///
/// Any bytes are read. If they are answered, the kernel has not failed. It begins on the pages that those passes make
/// of them, which break no rule of their formats. Each refusal hands the device back:
/// - [`Refusal::NoMemory`];
/// - [`Refusal::DeviceFailed`], if and only if the device failed in this call;
/// - [`Refusal::NotFormatted`], if and only if the device is shorter than 8192 bytes or no master slot is open, and it
///   did not fail;
/// - [`Refusal::BadFormat`], as `ruling_slot` of mt_log says;
/// - [`Refusal::WrongFormat`], if and only if the ruling slot is of format 1, and it did not fail: its log and its pages
///   are not looked at;
/// - [`Refusal::BadFormat`], as `replay` of mt_replay says;
/// - [`Refusal::LogFull`], if the ruling slot has the last epoch, or the images have no room in the next area: never
///   as the device was formatted.
///
/// Its bytes are as they were, but if it failed.
pub fn open<D: Device + Drop>(
    alloc: Global,
    device: D,
    frames: usize,
) -> Result<Kernel<D>, (Refusal, D)>
    requires frames { IsFrameCount frames }
    ensures opened { (relations counters : ℕ) (b : Base) → CanRestart relations counters (D.seen device) b
        → IfOk result (IsOpened relations counters b) }
    // On any bytes it begins on the base that the passes of a restart leave in memory.
    ensures restored { IfOk result (BeginsOnRestored (D.seen device)) }
    ensures well { IfOk result (λ kernel. is_failed kernel ≡ false) }
    ensures frames { IfOk result (λ kernel. kernel_frames kernel ≡ frames) }
    // That base is one. What lies after its last counter is open.
    ensures counted { IfOk result (λ kernel. (b : Base) × BeginsOn b kernel) }
    // The log turns over once.
    ensures once { (slot : MasterSlot) → IsRuling (D.seen device) slot
        → IfOk result (λ kernel. kernel_ruling kernel ≡ next_slot slot) }
    // Whenever a crash comes in this call.
    ensures moments { (relations counters : ℕ) (b : Base) → CanRestart relations counters (D.seen device) b
        → LeavesOnly D.moment D.left_since device (device_of result)
        (StandsStill D.Device relations counters b device) }
    // Once it has ended, unless the device failed.
    ensures stands { (relations counters : ℕ) (b : Base) → CanRestart relations counters (D.seen device) b
        → IfOk result (λ kernel. (c : List ℕ) → D.may_leave (kernel_device kernel) c
        → CanRestart relations counters c b) }
    // Why it is refused, and what is left of the device then.
    ensures refused { IfErr result (IsNotOpened D.Device device) }
    // The device failed in no call of this one, unless it is refused with 2.
    ensures quiet { MatchResult result (λ kernel. D.faults (kernel_device kernel) ≡ D.faults device)
        (λ gone. (gone.0 ≡ Refusal.DeviceFailed → ⊥) → D.faults gone.1 ≡ D.faults device) }
{
    slots_are_read_back();
    only_own_pages_matter();
    let mut device = device;
    match recover(alloc, &mut device, frames) {
        Ok(recovered) => Ok(kernel_over(alloc, device, recovered)),
        Err(refusal) => Err((refusal, device)),
    }
}
