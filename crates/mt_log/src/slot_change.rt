// The other master slot is put in force, as the log turns over. The slot in force is never written.
ghost use Rattle.std.specs.Prelude.{◌≡◌, ◌+◌, ◌<◌, ◌≤◌, ◌^◌, ◌↔◌, ℕ, List, length, IsTrue, OnOk};
ghost use Rattle.mt_base.specs.declared.limits.TheConstants.{MASTER_BYTES};
ghost use Rattle.mt_disk.specs.Disk.{Follows, Has, HasCause, LeavesOnly, Only, Torn};
ghost use Rattle.mt_frame.specs.SlotText.{IsSlot, slot_text};
ghost use Rattle.mt_log.specs.Fetch.{Reads};
ghost use Rattle.mt_log.specs.Masters.{AreSlots, IsClosedAt, IsRuling, Rules};
ghost use Rattle.mt_log.specs.NextSlot.{ClosesBeside, TurnsBeside, TurnsTo, next_slot};

use crate::fetch::gate_is_open;
use crate::masters::{FIRST_SLOT, SECOND_SLOT, write_master};
use crate::synced_write::write_durably;
use mt_base::Format;
use mt_base::limits::MASTER_SLOT_BYTES;
use mt_disk::{Device, DeviceFault};
use mt_frame::{CLOSED_GATE, MasterSlot, encode_slot, slots_are_read_back};

/// The slot that rules next: of format 2, one opening later, over the other area.
pub fn slot_after(ruling: &MasterSlot) -> MasterSlot
    requires fits { IsSlot ruling.now }
    requires epoch { ruling.now.epoch < 2 ^ 63 }
    ensures { result ≡ next_slot ruling.now }
{
    MasterSlot {
        format: Format::Two,
        epoch: ruling.epoch + 1,
        area: 1 - ruling.area,
        pages: ruling.pages,
        mib: ruling.mib,
    }
}

// Whether the text of a slot stands at a place: a read.
fn holds_slot<D: Device>(device: &mut D, at: u64, slot: &MasterSlot) -> Result<bool, DeviceFault>
    requires within { at + 17 ≤ length (D.seen device.old) }
    requires fits { IsSlot slot.now }
    ensures { Reads D.Device
        (λ holds. IsTrue holds ↔ Has (D.seen device.old) at (slot_text slot.now)) device.old device.new result }
{
    let mut bytes = [0; MASTER_SLOT_BYTES];
    device.read(at, &mut bytes)?;
    Ok(bytes == encode_slot(slot))
}

// Closes the gate at `at`, beside the slot that rules at `other`. A gate that is closed is not written.
fn close_beside<D: Device>(device: &mut D, at: u64, other: u64) -> Result<(), DeviceFault>
    requires slots { AreSlots at other }
    requires rules { (ruling : MasterSlot) × Rules (D.seen device.old) other at ruling }
    requires durable { Only (D.seen device.old) (D.may_leave device.old) }
    ensures { ClosesBeside D.Device at other device.old device.new result }
{
    if !gate_is_open(device, at)? {
        return Ok(());
    }
    write_durably(device, at, &[CLOSED_GATE])
}

// Has the next slot rule at `at`, if the gate is closed, beside the slot that rules at `other`.
fn open_beside<D: Device>(
    device: &mut D,
    at: u64,
    other: u64,
    ruling: &MasterSlot,
) -> Result<(), DeviceFault>
    requires slots { AreSlots at other }
    requires closed { IsClosedAt (D.seen device.old) at }
    requires rules { Rules (D.seen device.old) other at ruling.now }
    requires durable { Only (D.seen device.old) (D.may_leave device.old) }
    requires epoch { ruling.now.epoch < 2 ^ 63 }
    ensures { TurnsBeside D.Device ruling.now device.old device.new result }
{
    write_master(device, at, &slot_after(ruling))
}

// Has the next slot rule at `at`, beside the slot that rules at `other`, whatever stands at `at`.
fn rule_beside<D: Device>(
    device: &mut D,
    at: u64,
    other: u64,
    ruling: &MasterSlot,
) -> Result<(), DeviceFault>
    requires slots { AreSlots at other }
    requires rules { Rules (D.seen device.old) other at ruling.now }
    requires durable { Only (D.seen device.old) (D.may_leave device.old) }
    requires epoch { ruling.now.epoch < 2 ^ 63 }
    ensures { TurnsBeside D.Device ruling.now device.old device.new result }
{
    close_beside(device, at, other)?;
    open_beside(device, at, other, ruling)
}

/// Has the next master slot rule in place of this one: of format 2, one opening later, over the other log area.
///
/// It closes the gate beside the ruling slot if that gate is open, and syncs. It writes the slot after the gate,
/// and syncs; then it opens the gate, and syncs. It never writes a closed gate before that gate's slot.
///
/// A crash in this call leaves a device on which one of the two slots rules. Once it has answered, the next one
/// rules. The only error is the device's, and either slot may rule then.
pub fn turn_slot<D: Device>(device: &mut D, ruling: &MasterSlot) -> Result<(), DeviceFault>
    requires rules { (c : List ℕ) → D.may_leave device.old c → IsRuling c ruling.now }
    requires durable { Only (D.seen device.old) (D.may_leave device.old) }
    requires epoch { ruling.now.epoch < 2 ^ 63 }
    ensures rules { OnOk result ((c : List ℕ) → D.may_leave device.new c → IsRuling c (next_slot ruling.now)) }
    ensures durable { OnOk result (Only (D.seen device.new) (D.may_leave device.new)) }
    ensures moments { LeavesOnly D.moment D.left_since device.old device.new
        (TurnsTo ruling.now (D.may_leave device.old)) }
    ensures elsewhere { Follows (Torn 0 MASTER_BYTES) (D.may_leave device.old) (D.may_leave device.new) }
    ensures rest { Torn 0 MASTER_BYTES (D.seen device.old) (D.seen device.new) }
    ensures cause { HasCause (D.faults device.old) (D.faults device.new) result }
{
    slots_are_read_back();
    let is_first = holds_slot(device, FIRST_SLOT, ruling)?;
    if is_first {
        rule_beside(device, SECOND_SLOT, FIRST_SLOT, ruling)
    } else {
        rule_beside(device, FIRST_SLOT, SECOND_SLOT, ruling)
    }
}
