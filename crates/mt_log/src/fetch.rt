// What a scan reads of the device: a gate, a length, a body.
ghost use Rattle.std.specs.Prelude.{◌≡◌, ◌+◌, ◌<◌, ◌≤◌, length};
ghost use Rattle.std.specs.Int.{w32, to_be_bytes};
ghost use Rattle.mt_log.specs.Fetch.{IsLength, Reads, ReadsInto, ReadsGate};

use mt_base::Refusal;
use mt_base::limits::BATCH_HEAD_BYTES;
use mt_disk::{Device, DeviceFault};
use mt_frame::{CLOSED_GATE, OPEN_GATE};

// Whether an open gate stands at the place.
pub(crate) fn gate_is_open<D: Device>(device: &mut D, at: u64) -> Result<bool, DeviceFault>
    requires { at < length (D.seen device.old) }
    ensures { Reads D.Device (ReadsGate (D.seen device.old) at)
        device.old device.new result }
{
    let mut gate = [CLOSED_GATE];
    device.read(at, &mut gate)?;
    Ok(gate[0] == OPEN_GATE)
}

fn number_of(bytes: &[u8]) -> u32
    requires { length bytes.now ≡ 4 }
    ensures { to_be_bytes w32 result ≡ bytes.now }
{
    u32::from_be_bytes([bytes[0], bytes[1], bytes[2], bytes[3]])
}

// The length of the body of the batch whose gate stands here. `None` if the gate after the body would not lie
// within the area.
pub(crate) fn body_length<D: Device>(
    device: &mut D,
    at: u64,
    end: u64,
) -> Result<Option<usize>, DeviceFault>
    requires inside { at < end }
    requires within { end ≤ length (D.seen device.old) }
    ensures { Reads D.Device (IsLength (D.seen device.old) at end)
        device.old device.new result }
{
    if end - at <= BATCH_HEAD_BYTES {
        return Ok(None);
    }
    let mut length = [0; 4];
    device.read(at + 1, &mut length)?;
    let size = number_of(&length);
    if end - at - BATCH_HEAD_BYTES <= u64::from(size) {
        return Ok(None);
    }
    Ok(Some(size as usize))
}

// Makes the buffer so many bytes of the device. Its room grows to that number at most.
pub(crate) fn read_into<D: Device>(
    device: &mut D,
    at: u64,
    size: usize,
    buffer: &mut Vec<u8>,
) -> Result<(), Refusal>
    requires { at + size ≤ length (D.seen device.old) }
    ensures { ReadsInto D.Device at size buffer.new
        device.old device.new result }
{
    buffer.clear();
    buffer.reserve_exact(size)?;
    buffer.resize(size, 0)?;
    device.read(at, buffer)?;
    Ok(())
}
