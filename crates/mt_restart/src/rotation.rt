// Turns the log of a kernel over while no transaction is active. It is forced, the device is recovered, and a kernel
// with the same book goes on over the other area. mt_locked, mt_alone and mt_world call it.
ghost use Rattle.std.specs.Prelude.{◌≡◌, false, IfErr, IsOk, OnOk};
ghost use Rattle.mt_model.specs.Model.{Base};
ghost use Rattle.mt_txn.specs.Shown.{HidesNoFault, Restarts, is_failed};
ghost use Rattle.mt_txn.specs.Turned.{HasNobody, IsForced};
ghost use Rattle.mt_txn.specs.Words.{FindsUntil};
ghost use Rattle.mt_restart.specs.Rotated.{IsForcedOut, IsKeptCause, Keeps, Rotates};
ghost use Rattle.mt_restart.specs.Standings.{HasFrames, device_at};

use crate::opened_kernel::parts_over;
use crate::recovery::recover;
use crate::standing::Standing;
use mt_base::Refusal;
use mt_disk::Device;
use mt_replay::only_own_pages_matter;
use mt_txn::{FORCE_STEPS, Kernel, KernelForced};
use std::alloc::Global;

// Forces the log of a kernel in which no transaction is active until all that was appended is durable.
fn force_out<D: Device>(kernel: &mut Kernel<D>) -> Result<(), Refusal>
    requires nobody { HasNobody kernel.old }
    requires well { is_failed kernel.old ≡ false }
    ensures keeps { Keeps kernel.old kernel.new }
    ensures forced { OnOk result (IsForcedOut kernel.old kernel.new) }
    ensures cause { IfErr result (IsKeptCause kernel.new) }
    ensures quiet { HidesNoFault kernel.old result kernel.new }
{
    for _step in 0..FORCE_STEPS {
        if let KernelForced::Idle = kernel.force_step()? {
            return Ok(());
        }
    }
    Ok(())
}

// The kernel goes on over its device, which a recovery makes one for the next area. If that is refused before its
// first write, the very kernel is attached to the device again. mt_op, mt_core and mt_txn each have calls that detach,
// attach, part and join, since each takes apart fields that no other crate sees.
fn turn_over<D: Device + Drop>(
    alloc: Global,
    kernel: Kernel<D>,
    frames: usize,
) -> (Standing<D>, Result<(), Refusal>)
    requires nobody { HasNobody kernel }
    requires forced { IsForced kernel }
    requires well { is_failed kernel ≡ false }
    ensures rotated { Rotates kernel result.0 result.1 }
    ensures frames { IsOk result.1 → HasFrames frames result.0 }
    ensures moments { (first : Base) → Restarts first kernel
        → FindsUntil first kernel (device_at result.0) }
{
    only_own_pages_matter();
    kernel.rests_on_its_book();
    let (device, detached) = kernel.detach();
    let mut device = device;
    match recover(alloc, &mut device, frames) {
        Ok(recovered) => {
            let (device, rest) = detached.part(device);
            let (operations, escrow) = parts_over(device, recovered);
            let kernel = Kernel::join(rest, operations, escrow);
            (Standing::Stands(kernel), Ok(()))
        }
        Err(refusal) => match refusal {
            Refusal::DeviceFailed => {
                let (device, _rest) = detached.part(device);
                (Standing::Ended(device), Err(Refusal::DeviceFailed))
            }
            _ => (Standing::Stands(detached.attach(device)), Err(refusal)),
        },
    }
}

/// Turns the log of a kernel over while no transaction is active, and gives the kernel with so many pages in frames.
/// The state that it shows goes on: its book, and the numbers of its transactions. The kernel has not failed.
///
/// The log is forced, and the device recovered as [`open`](crate::open) does: it is synced and read, and its pages with
/// an image in the area are written in place. The other area begins and comes to rule, once. Whenever a crash comes
/// in this call, a restart finds what some of the first commits lead to, with the whole book of the kernel.
///
/// Refused with the kernel as it was, before anything is done:
/// - [`Refusal::DeviceFailed`], if its device has failed;
/// - [`Refusal::Busy`], if a transaction is active.
///
/// Then refused with the kernel, whose state is as before. All memory is taken before the device is written, so it
/// goes on, but for the first of these:
/// - [`Refusal::DeviceFailed`], if its device fails in the force;
/// - [`Refusal::NoMemory`], for want of memory;
/// - [`Refusal::LogFull`], if the ruling slot has the last epoch, or the images have no room in the other area.
///
/// If the device fails after the force, that is [`Refusal::DeviceFailed`] with the device alone.
pub fn rotate<D: Device + Drop>(
    alloc: Global,
    kernel: Kernel<D>,
    frames: usize,
) -> (Standing<D>, Result<(), Refusal>)
    ensures rotated { Rotates kernel result.0 result.1 }
    ensures frames { IsOk result.1 → HasFrames frames result.0 }
    // Whenever a crash comes in this call.
    ensures moments { (first : Base) → Restarts first kernel
        → FindsUntil first kernel (device_at result.0) }
{
    if kernel.has_failed() {
        return (Standing::Stands(kernel), Err(Refusal::DeviceFailed));
    }
    if !kernel.has_nobody() {
        return (Standing::Stands(kernel), Err(Refusal::Busy));
    }
    let mut kernel = kernel;
    match force_out(&mut kernel) {
        Ok(()) => turn_over(alloc, kernel, frames),
        Err(refusal) => (Standing::Stands(kernel), Err(refusal)),
    }
}
