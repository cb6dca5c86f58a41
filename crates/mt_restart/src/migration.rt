// A device of format 1, carried over to format 2 with a larger schema: a recovery whose next area and slot are of the
// new format. `recovery` has the parts that an opening has too.
ghost use Rattle.std.specs.Prelude.{◌≡◌, ◌+◌, ℕ, List, false, IfOk, IfErr, length, MatchResult};
ghost use Rattle.mt_base.specs.declared.format.Format.TheVariants.{One};
ghost use Rattle.mt_base.specs.declared.refusal.Refusal.{Refusal};
ghost use Rattle.mt_disk.specs.Disk.{LeavesOnly};
ghost use Rattle.mt_frame.specs.declared.slots.MasterSlot.{MasterSlot};
ghost use Rattle.mt_log.specs.Masters.{IsRuling};
ghost use Rattle.mt_log.specs.NextSlot.{next_slot};
ghost use Rattle.mt_model.specs.Model.{Base};
ghost use Rattle.mt_replay.specs.Stands.{CanReplay, CanRestart};
ghost use Rattle.mt_txn.specs.Shown.{is_failed, kernel_device, kernel_frames, kernel_ruling};
ghost use Rattle.mt_restart.specs.Frames.{IsFrameCount};
ghost use Rattle.mt_restart.specs.Migrated.{Additions, BeginsOnGrown, Carries, FindsGrown, IsCarried, IsNotCarried, grown};
ghost use Rattle.mt_restart.specs.Resumed.{IsOpened, device_of};

use crate::format_replay::replay_of;
use crate::opened_kernel::kernel_over;
use crate::recovery::{Findings, Recovered, prepare, turn_to};
use mt_base::{Format, Refusal};
use mt_disk::Device;
use mt_frame::slots_are_read_back;
use mt_replay::{extend_schema, only_own_pages_matter};
use mt_txn::Kernel;
use std::alloc::Global;

// What a migration finds on a device, and takes in memory for what it will write.
fn find_grown<D: Device>(
    alloc: Global,
    device: &mut D,
    frames: usize,
    relations: u16,
    counters: &[(i64, i64, i64)],
) -> Result<Findings, Refusal>
    ensures { FindsGrown D.Device (record { relations = relations; new_counters = counters.now }) frames
        device.old device.new result }
{
    let replayed = replay_of(alloc, device, Format::One)?;
    let extended = extend_schema(device, replayed, relations, counters)?;
    prepare(alloc, extended, frames)
}

// Carries a device over to the next area, which is of format 2, with a larger schema.
fn carry_over<D: Device>(
    alloc: Global,
    device: &mut D,
    frames: usize,
    relations: u16,
    counters: &[(i64, i64, i64)],
) -> Result<Recovered, Refusal>
    ensures { Carries D.Device (record { relations = relations; new_counters = counters.now }) frames
        device.old device.new result }
{
    slots_are_read_back();
    only_own_pages_matter();
    device.sync()?;
    let found = find_grown(alloc, device, frames, relations, counters)?;
    turn_to(device, found)
}

/// Carries a device of format 1 over to format 2, and gives a kernel over it, with 32 to 4096 pages in frames. Its
/// schema gets so many relations more, 0 or more of them, and these counters after those that it has. Each counter
/// has its low bound, high bound and start. The rows, and the counters that were there, stay.
///
/// It is an [`open`](crate::open) whose log turns over to an area and a slot of format 2. The device is synced, and a
/// restart's passes are made in memory. Page 2 gets the relations and counters there. All memory is taken. Then the
/// log turns over, once: the page's image is durable before the new slot rules.
///
/// Whenever a crash comes in this call, what it leaves is what it might have left before, or it is of format 1 with the
/// old base, or of format 2 with the new one. So a device may be migrated again if that is cut off. If it was done by
/// then, it is refused as one of format 2, and can be opened.
///
/// Each refusal hands the device back. The first of these causes is reported:
/// - [`Refusal::DeviceFailed`], if and only if the device failed in this call;
/// - [`Refusal::NotFormatted`], and [`Refusal::BadFormat`] of a master slot, as [`open`](crate::open) has them;
/// - [`Refusal::WrongFormat`], if the device is of format 2;
/// - [`Refusal::BadFormat`] of the log or a page;
/// - [`Refusal::BadLength`], if there would be more than 64 relations or 128 counters, or if a counter lies outside its
///   limits;
/// - [`Refusal::LogFull`], if the ruling slot has the last epoch, or the images have no room in the next area.
///
/// [`Refusal::NoMemory`] is answered before the first write. The device's bytes are as they were, but if it failed.
pub fn migrate<D: Device + Drop>(
    alloc: Global,
    device: D,
    frames: usize,
    relations: u16,
    counters: &[(i64, i64, i64)],
) -> Result<Kernel<D>, (Refusal, D)>
    requires frames { IsFrameCount frames }
    ensures opened { (r c : ℕ) (b : Base) → CanReplay One r c (D.seen device) b
        → IfOk result (IsOpened (r + relations) (c + length counters.now)
        (grown (record { relations = relations; new_counters = counters.now }) c b)) }
    // Of any bytes it begins on what a restart makes of them, with the grown schema.
    ensures restored { IfOk result
        (BeginsOnGrown (record { relations = relations; new_counters = counters.now }) (D.seen device)) }
    ensures well { IfOk result (λ kernel. is_failed kernel ≡ false) }
    ensures frames { IfOk result (λ kernel. kernel_frames kernel ≡ frames) }
    // The log turns over once, to a slot of format 2.
    ensures once { (slot : MasterSlot) → IsRuling (D.seen device) slot
        → IfOk result (λ kernel. kernel_ruling kernel ≡ next_slot slot) }
    // Whenever a crash comes in this call.
    ensures moments { (r c : ℕ) (b : Base) → CanReplay One r c (D.seen device) b
        → LeavesOnly D.moment D.left_since device (device_of result)
        (IsCarried D.Device (record { relations = relations; new_counters = counters.now }) r c b device) }
    // Once it has ended.
    ensures stands { (r c : ℕ) (b : Base) → CanReplay One r c (D.seen device) b
        → IfOk result (λ kernel. (x : List ℕ) → D.may_leave (kernel_device kernel) x
        → CanRestart (r + relations) (c + length counters.now) x
        (grown (record { relations = relations; new_counters = counters.now }) c b)) }
    // Why it is refused, and what is left of the device then.
    ensures refused { IfErr result
        (IsNotCarried D.Device (record { relations = relations; new_counters = counters.now }) device) }
    // The device failed in no call of this one, unless it is refused with 2.
    ensures quiet { MatchResult result (λ kernel. D.faults (kernel_device kernel) ≡ D.faults device)
        (λ gone. (gone.0 ≡ Refusal.DeviceFailed → ⊥) → D.faults gone.1 ≡ D.faults device) }
{
    slots_are_read_back();
    only_own_pages_matter();
    let mut device = device;
    match carry_over(alloc, &mut device, frames, relations, counters) {
        Ok(recovered) => Ok(kernel_over(alloc, device, recovered)),
        Err(refusal) => Err((refusal, device)),
    }
}
