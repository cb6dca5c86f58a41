// A device's two master slots: which of them is in force, and how one is written. `slot_change` puts the next in force.
ghost use Rattle.std.specs.Prelude.{◌≡◌, ◌⊎◌, ◌+◌, ◌<◌, ◌≤◌, ◌↔◌, ℕ, List, length, IsTrue, IfOk, IfErr, Err};
ghost use Rattle.mt_base.specs.declared.limits.TheConstants.{MASTER_BYTES};
ghost use Rattle.mt_base.specs.declared.refusal.Refusal.{Refusal};
ghost use Rattle.mt_disk.specs.Disk.{LeavesOnly, LeavesTheSame};
ghost use Rattle.mt_frame.specs.SlotText.{IsSlot};
ghost use Rattle.mt_frame.specs.declared.slots.MasterSlot.{MasterSlot};
ghost use Rattle.mt_log.specs.Lasting.{WritesMaster};
ghost use Rattle.mt_log.specs.Quiet.{OnlyReads};
ghost use Rattle.mt_log.specs.Masters.{BreaksMaster, IsBadAt, IsBefore, IsFoundAt, IsNewer, IsRuling, IsUnformatted};

use crate::synced_write::write_durably;
use mt_base::limits::{MASTER_BYTES, MASTER_SLOT_BYTES, device_bytes};
use mt_base::{Format, Refusal};
use mt_disk::{Device, DeviceFault};
use mt_frame::{MasterSlot, OPEN_GATE, SlotRead, decode_slot, encode_slot, slots_are_read_back};

/// Where the first master slot lies.
pub const FIRST_SLOT: u64 = 0;

/// Where the second master slot lies.
pub const SECOND_SLOT: u64 = 4096;

// The slot at a place, if its gate is open.
fn read_slot<D: Device>(device: &mut D, at: u64) -> Result<Option<MasterSlot>, Refusal>
    requires { at + 17 ≤ length (D.seen device.old) }
    ensures found { IfOk result (IsFoundAt at (D.seen device.old)) }
    ensures reads { OnlyReads D.Device device.old device.new }
    ensures quiet { (result ≡ Err Refusal.DeviceFailed → ⊥) → D.faults device.new ≡ D.faults device.old }
    ensures cause { IfErr result (λ why. (why ≡ Refusal.DeviceFailed) × (D.faults device.old < D.faults device.new)
        ⊎ (why ≡ Refusal.BadFormat at) × IsBadAt (D.seen device.old) at) }
{
    slots_are_read_back();
    let mut bytes = [0; MASTER_SLOT_BYTES];
    device.read(at, &mut bytes)?;
    match decode_slot(&bytes) {
        SlotRead::Closed => Ok(None),
        SlotRead::Bad => Err(Refusal::BadFormat(at)),
        SlotRead::Open(slot) => {
            if device.len() < device_bytes(slot.pages, slot.mib) {
                return Err(Refusal::BadFormat(at));
            }
            Ok(Some(slot))
        }
    }
}

// Whether a slot, which is older, may stand beside one that rules.
fn may_be_before(older: &MasterSlot, slot: &MasterSlot) -> bool
    requires { older.now.epoch < slot.now.epoch }
    ensures { IsTrue result ↔ IsBefore older.now slot.now }
{
    older.pages == slot.pages
        && older.mib == slot.mib
        && (slot.format == Format::Two || older.format == Format::One)
}

// The newer one of two slots of one device.
fn newer(first: MasterSlot, second: MasterSlot) -> Result<MasterSlot, Refusal>
    ensures { IsNewer first second result }
{
    if first.epoch == second.epoch {
        return Err(Refusal::BadFormat(SECOND_SLOT));
    }
    let (older, slot) = if first.epoch < second.epoch {
        (first, second)
    } else {
        (second, first)
    };
    if !may_be_before(&older, &slot) {
        return Err(Refusal::BadFormat(SECOND_SLOT));
    }
    Ok(slot)
}

/// The master slot that rules a device: an open one, of which the other is closed, or older.
///
/// Refusals, in the order of the tests: [`Refusal::NotFormatted`] if the device is shorter than 8192 bytes;
/// [`Refusal::DeviceFailed`] if and only if a read failed in this call. [`Refusal::BadFormat`] has the place of the
/// first slot whose gate is open over bytes that are no slot of a device of this length. [`Refusal::NotFormatted`]
/// comes if both gates are closed, and [`Refusal::BadFormat`] with 4096 if two open slots have the same epoch or other
/// sizes, or the newer one is of format 1 and the older one is not. It takes no memory. The device is only read, and
/// its content is as before in any case.
pub fn ruling_slot<D: Device>(device: &mut D) -> Result<MasterSlot, Refusal>
    ensures rules { IfOk result (IsRuling (D.seen device.old)) }
    ensures cause { IfErr result (λ why. (why ≡ Refusal.DeviceFailed) × (D.faults device.old < D.faults device.new)
        ⊎ ((why ≡ Refusal.NotFormatted) × IsUnformatted (D.seen device.old)
        ⊎ ((at : ℕ) × (why ≡ Refusal.BadFormat at) × BreaksMaster (D.seen device.old) at))) }
    // Of a device without an open slot it is answered that it is not formatted, or the device fails.
    ensures unformatted { IsUnformatted (D.seen device.old)
        → IfErr result (λ why. (why ≡ Refusal.NotFormatted) ⊎ (why ≡ Refusal.DeviceFailed)) }
    // A device on which a slot rules is refused only for a fault, and no other slot is found.
    ensures only { (slot : MasterSlot) → IsRuling (D.seen device.old) slot
        → IfOk result (λ found. found ≡ slot) }
    ensures no_other_refusal { (slot : MasterSlot) → IsRuling (D.seen device.old) slot
        → IfErr result (λ why. why ≡ Refusal.DeviceFailed) }
    ensures seen { D.seen device.new ≡ D.seen device.old }
    ensures crash { LeavesTheSame (D.may_leave device.old) (D.may_leave device.new) }
    ensures moments { LeavesOnly D.moment D.left_since device.old device.new (D.may_leave device.old) }
    ensures quiet { (result ≡ Err Refusal.DeviceFailed → ⊥) → D.faults device.new ≡ D.faults device.old }
{
    slots_are_read_back();
    if device.len() < MASTER_BYTES {
        return Err(Refusal::NotFormatted);
    }
    let first = read_slot(device, FIRST_SLOT)?;
    let second = read_slot(device, SECOND_SLOT)?;
    match (first, second) {
        (None, None) => Err(Refusal::NotFormatted),
        (Some(slot), None) => Ok(slot),
        (None, Some(slot)) => Ok(slot),
        (Some(first), Some(second)) => newer(first, second),
    }
}

/// Makes a master slot last, whose gate at this place is closed. It writes the slot after the gate, and syncs; then it
/// opens the gate, and syncs. So no crash leaves an open gate before bytes that are not the slot's. The only error is
/// the device's.
pub fn write_master<D: Device>(
    device: &mut D,
    at: u64,
    slot: &MasterSlot,
) -> Result<(), DeviceFault>
    requires fits { IsSlot slot.now }
    requires within { at + 17 ≤ length (D.seen device.old) }
    requires below { at + 17 ≤ MASTER_BYTES }
    ensures { WritesMaster D.Device at slot.now device.old device.new result }
{
    let text = encode_slot(slot);
    write_durably(device, at + 1, &text[1..17])?;
    write_durably(device, at, &[OPEN_GATE])
}
