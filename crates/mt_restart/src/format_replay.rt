// The passes of a restart over a device of one format. Of a device of another one nothing but the master slots is
// looked at.
ghost use Rattle.std.specs.Prelude.{◌≡◌, ◌↔◌, IsTrue};
ghost use Rattle.mt_restart.specs.OfFormat.{ReplaysOf};

use mt_base::{Format, Refusal};
use mt_disk::Device;
use mt_frame::{MasterSlot, slots_are_read_back};
use mt_log::ruling_slot;
use mt_replay::{Replayed, replay_by};
use std::alloc::Global;

// Whether a master slot is of this format.
fn is_of_format(slot: &MasterSlot, format: Format) -> bool
    ensures { IsTrue result ↔ (slot.now.format ≡ format) }
{
    slot.format == format
}

// What a restart finds on a device of this format, as `replay` of mt_replay does, by the same calls. First the ruling
// slot is read. If it is of another format, the device is refused with 20, whatever its log and its pages are. The
// device is only read.
pub(crate) fn replay_of<D: Device>(
    alloc: Global,
    device: &mut D,
    format: Format,
) -> Result<Replayed, Refusal>
    ensures { ReplaysOf D.Device format device.old device.new result }
{
    slots_are_read_back();
    let ruling = ruling_slot(device)?;
    if !is_of_format(&ruling, format) {
        return Err(Refusal::WrongFormat);
    }
    replay_by(alloc, device, ruling)
}
