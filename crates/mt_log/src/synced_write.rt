// A write and a sync, after which the bytes last. Areas begin and slots change by it; a force makes its own calls.
ghost use Rattle.std.specs.Prelude.{◌+◌, ◌≤◌, length};
ghost use Rattle.mt_log.specs.Lasting.{WritesDurably};

use mt_disk::{Device, DeviceFault};

// Makes bytes last at a place: a write and a sync.
pub(crate) fn write_durably<D: Device>(
    device: &mut D,
    at: u64,
    bytes: &[u8],
) -> Result<(), DeviceFault>
    requires { at + length bytes.now ≤ length (D.seen device.old) }
    ensures { WritesDurably D.Device at bytes.now
        device.old device.new result }
{
    device.write_at(at, bytes)?;
    device.sync()
}
