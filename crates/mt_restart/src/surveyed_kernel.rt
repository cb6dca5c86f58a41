// A kernel over a device that was used before, as `open` gives it, with a survey of the pages that it begins on. A dump
// prints that, and mt_shared makes a mark about its base.
ghost use Rattle.std.specs.Prelude.{◌≡◌, ℕ, List, false, length, IfOk, IfErr, MatchResult};
ghost use Rattle.mt_base.specs.declared.refusal.Refusal.{Refusal};
ghost use Rattle.mt_disk.specs.Disk.{LeavesOnly};
ghost use Rattle.mt_model.specs.Model.{Base as ModelBase};
ghost use Rattle.mt_model.specs.Views.{base_of, counters_of, relations_of};
ghost use Rattle.mt_replay.specs.Stands.{CanRestart};
ghost use Rattle.mt_steps.specs.Listed.{IsSame};
ghost use Rattle.mt_txn.specs.Shown.{is_failed, kernel_device, kernel_frames};
ghost use Rattle.mt_txn.specs.Words.{kernel_counters, kernel_relations};
ghost use Rattle.mt_restart.specs.Frames.{IsFrameCount};
ghost use Rattle.mt_restart.specs.Inspected.{ReportsRestored};
ghost use Rattle.mt_restart.specs.Recovered.{StandsStill};
ghost use Rattle.mt_restart.specs.Resumed.{BeginsOnRestored, HasTurnedOver, IsNotOpened, IsOpened, IsRestoredBase};

use crate::inspection::survey_of;
use crate::opened_kernel::kernel_over;
use crate::recovery::{find_synced, turn_to};
use mt_base::Refusal;
use mt_disk::Device;
use mt_frame::slots_are_read_back;
use mt_replay::only_own_pages_matter;
use mt_txn::{Kernel, Survey};
use std::alloc::Global;

/// Gives a kernel as [`open`](crate::open) does, and a survey of the pages that it begins on, with their base. It is
/// made of the pages that the restart has in memory, so no page is read for it.
///
/// Whenever a crash comes in this call, what it leaves is what it might have left before, or represents the same
/// base. Each refusal is one of [`open`](crate::open), with the same cause; [`Refusal::NoMemory`] also if the
/// survey finds no memory. All memory is taken before the first write. The device is handed back, with the bytes that
/// it had, unless it failed.
pub fn open_with_survey<D: Device + Drop>(
    alloc: Global,
    device: D,
    frames: usize,
) -> Result<(Kernel<D>, Survey), (Refusal, D)>
    requires frames { IsFrameCount frames }
    ensures opened { IfOk result (λ opened. IsOpened (kernel_relations opened.0) (kernel_counters opened.0)
        (base_of opened.1.base) opened.0) }
    // On any bytes it begins on the base that the passes of a restart leave in memory.
    ensures restored { IfOk result (λ opened. BeginsOnRestored (D.seen device) opened.0) }
    ensures listed { IfOk result (λ opened. IsRestoredBase (D.seen device) (base_of opened.1.base)) }
    // The survey is of the pages that the passes of a restart leave in memory.
    ensures surveyed { IfOk result (λ opened. ReportsRestored (D.seen device) opened.1) }
    ensures well { IfOk result (λ opened. is_failed opened.0 ≡ false) }
    // It is the base that the bytes represented.
    ensures base { (relations counters : ℕ) (b : ModelBase) → CanRestart relations counters (D.seen device) b
        → IfOk result (λ opened. IsSame counters (base_of opened.1.base) b) }
    // It has as many relations and counters as the kernel.
    ensures sized { IfOk result (λ opened. (relations_of opened.1.base ≡ kernel_relations opened.0)
        × (length (counters_of opened.1.base) ≡ kernel_counters opened.0)) }
    ensures frames { IfOk result (λ opened. kernel_frames opened.0 ≡ frames) }
    // The log turns over once.
    ensures once { IfOk result (λ opened. HasTurnedOver (D.seen device) opened.0.core) }
    // Whenever a crash comes in this call.
    ensures moments { (relations counters : ℕ) (b : ModelBase) → CanRestart relations counters (D.seen device) b
        → MatchResult result
        (λ opened. LeavesOnly D.moment D.left_since device (kernel_device opened.0)
        (StandsStill D.Device relations counters b device))
        (λ gone. LeavesOnly D.moment D.left_since device gone.1
        (StandsStill D.Device relations counters b device)) }
    // Once it has ended, unless the device failed.
    ensures stands { (relations counters : ℕ) (b : ModelBase) → CanRestart relations counters (D.seen device) b
        → IfOk result (λ opened. (c : List ℕ) → D.may_leave (kernel_device opened.0) c
        → CanRestart relations counters c b) }
    // Why it is refused, and what is left of the device then.
    ensures refused { IfErr result (IsNotOpened D.Device device) }
    ensures quiet { MatchResult result (λ opened. D.faults (kernel_device opened.0) ≡ D.faults device)
        (λ gone. (gone.0 ≡ Refusal.DeviceFailed → ⊥) → D.faults gone.1 ≡ D.faults device) }
{
    slots_are_read_back();
    only_own_pages_matter();
    let mut device = device;
    let found = match find_synced(alloc, &mut device, frames) {
        Ok(found) => found,
        Err(refusal) => return Err((refusal, device)),
    };
    let survey = match survey_of(alloc, &found.restored) {
        Ok(survey) => survey,
        Err(_) => return Err((Refusal::NoMemory, device)),
    };
    let recovered = match turn_to(&mut device, found) {
        Ok(recovered) => recovered,
        Err(refusal) => return Err((refusal, device)),
    };
    survey.base.keeps_bounds();
    Ok((kernel_over(alloc, device, recovered), survey))
}
