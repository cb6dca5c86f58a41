// A kernel over a device that is formatted for it. What the device had before is lost.
ghost use Rattle.std.specs.Prelude.{◌≡◌, ◌⊎◌, ◌<◌, length, false, IfOk, IfErr, MatchResult};
ghost use Rattle.mt_base.specs.declared.refusal.Refusal.{Refusal};
ghost use Rattle.mt_live.specs.Machine.{start};
ghost use Rattle.mt_txn.specs.Shown.{Restarts, Shows, is_failed, kernel_device, kernel_frames};
ghost use Rattle.mt_txn.specs.Words.{kernel_counters, kernel_relations};
ghost use Rattle.mt_format.specs.Schemas.{counters_in, device_bytes, relations_in, schema_base};

use crate::Schema;
use crate::fresh_layers::fresh_parts;
use mt_base::Refusal;
use mt_disk::Device;
use mt_txn::Kernel;
use std::alloc::Global;

/// Formats a device by the schema, and gives a kernel over it that keeps so many pages in frames. The kernel has not
/// failed. No transaction is active, the book is empty, and the pages hold no row and each counter at its start.
///
/// Refused, in this order, with the device: 1 for want of memory, 5 if the device is shorter than
/// [`Schema::device_len`], 2 if and only if it failed. All memory is taken before the device is written: after 1 or 5
/// it is as it was. After 2 it may be formatted or not.
pub fn fresh<D: Device + Drop>(
    alloc: Global,
    device: D,
    schema: &Schema,
    frames: usize,
) -> Result<Kernel<D>, (Refusal, D)>
    requires frames { 0 < frames }
    ensures shows { IfOk result (Shows (schema_base schema.now) (start (schema_base schema.now))) }
    ensures restarts { IfOk result (Restarts (schema_base schema.now)) }
    ensures schema { IfOk result (λ kernel. (kernel_relations kernel ≡ relations_in schema.now)
        × (kernel_counters kernel ≡ length (counters_in schema.now))) }
    ensures well { IfOk result (λ kernel. is_failed kernel ≡ false) }
    ensures frames { IfOk result (λ kernel. kernel_frames kernel ≡ frames) }
    // A device that is too short is handed back as it was.
    ensures short { length (D.seen device) < device_bytes schema.now
        → MatchResult result (λ kernel. ⊥) (λ gone. gone.1 ≡ device) }
    ensures memory { IfErr result (λ gone. gone.0 ≡ Refusal.NoMemory → gone.1 ≡ device) }
    ensures cause { IfErr result (λ gone. (gone.0 ≡ Refusal.NoMemory)
        ⊎ ((gone.0 ≡ Refusal.BadLength) × (length (D.seen device) < device_bytes schema.now)
        ⊎ (gone.0 ≡ Refusal.DeviceFailed) × (D.faults device < D.faults gone.1))) }
    // The device failed in no call of this one, unless it is refused with 2.
    ensures quiet { MatchResult result (λ kernel. D.faults (kernel_device kernel) ≡ D.faults device)
        (λ gone. (gone.0 ≡ Refusal.DeviceFailed → ⊥) → D.faults gone.1 ≡ D.faults device) }
{
    match fresh_parts(alloc, device, schema, frames) {
        Ok((operations, escrow)) => Ok(Kernel::assemble(
            alloc,
            operations,
            escrow,
            schema.relations(),
            schema.counters().len() as u16,
        )),
        Err(gone) => Err(gone),
    }
}
