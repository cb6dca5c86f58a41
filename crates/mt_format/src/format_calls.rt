// The formatting of a device, in the order of its calls.
ghost use Rattle.std.specs.Prelude.{◌≡◌, ◌⊎◌, ◌*◌, ◌<◌, ◌≤◌, ℕ, List, length, Err, IfErr, OnOk};
ghost use Rattle.mt_base.specs.declared.limits.TheConstants.{MASTER_BYTES, PAGE_BYTES};
ghost use Rattle.mt_base.specs.declared.refusal.Refusal.{Refusal};
ghost use Rattle.mt_disk.specs.Disk.{Only, Torn, Follows, LeavesOnly, HasCause};
ghost use Rattle.mt_replay.specs.Stands.{CanRestart};
ghost use Rattle.mt_format.specs.Formats.{FormatsDurably, HasFirstPages, IsFormattedAs, IsShut, ButForGates, FormatBegins, Tears, WritesContent, first_slot};
ghost use Rattle.mt_format.specs.Schemas.{pages_in, pages_end, device_bytes, relations_in, counters_in, schema_base};
ghost use Rattle.mt_format.specs.declared.schema.Schema.{Schema};

use crate::Schema;
use crate::first_pages::page_of;
use mt_base::limits::MASTER_BYTES;
use mt_base::{Format, PageNo, Refusal};
use mt_disk::{Device, DeviceFault};
use mt_frame::{CLOSED_GATE, MasterSlot, OPEN_GATE};
use mt_log::{AreaPlace, FIRST_SLOT, SECOND_SLOT, write_master};
use mt_pool::slot_at;

// The first opening of a device.
const FIRST_EPOCH: u64 = 1;

// Closes the gates of both master slots for good: two writes and a sync.
fn close_slots<D: Device>(device: &mut D) -> Result<(), DeviceFault>
    requires { MASTER_BYTES ≤ length (D.seen device.old) }
    ensures shut { OnOk result ((c : List ℕ) → D.may_leave device.new c → IsShut c) }
    ensures moments { LeavesOnly D.moment D.left_since device.old device.new (ButForGates (D.may_leave device.old)) }
    ensures tears { Tears D.Device 0 MASTER_BYTES device.old device.new }
    ensures cause { HasCause (D.faults device.old) (D.faults device.new) result }
{
    device.write_at(FIRST_SLOT, &[CLOSED_GATE])?;
    device.write_at(SECOND_SLOT, &[CLOSED_GATE])?;
    device.sync()
}

// Writes every page into its slot: a write for each.
fn write_pages<D: Device>(device: &mut D, schema: &Schema) -> Result<(), DeviceFault>
    requires long { pages_end schema.now ≤ length (D.seen device.old) }
    requires shut { (c : List ℕ) → D.may_leave device.old c → IsShut c }
    ensures pages { OnOk result (HasFirstPages schema.now (D.seen device.new)) }
    ensures moments { LeavesOnly D.moment D.left_since device.old device.new IsShut }
    ensures tears { Tears D.Device MASTER_BYTES (PAGE_BYTES * pages_in schema.now) device.old device.new }
    ensures cause { HasCause (D.faults device.old) (D.faults device.new) result }
{
    for number in 0..schema.pages {
        let page = page_of(schema, number);
        device.write_at(slot_at(MASTER_BYTES, PageNo::new(number)), &page)?;
    }
    Ok(())
}

// Makes the pages and an empty first log area durable: a write for each page, one for the area, and a sync.
fn write_content<D: Device>(device: &mut D, schema: &Schema) -> Result<(), DeviceFault>
    requires long { device_bytes schema.now ≤ length (D.seen device.old) }
    requires shut { (c : List ℕ) → D.may_leave device.old c → IsShut c }
    ensures { WritesContent D.Device schema.now device.old device.new result }
{
    write_pages(device, schema)?;
    let area = AreaPlace::of(schema.pages, schema.area_mib, false);
    device.write_at(area.start, &[OPEN_GATE, 0, 0, 0, 0, CLOSED_GATE])?;
    device.sync()
}

// The master slot of the first opening, of format 2, over area 0.
pub(crate) fn first_slot_of(schema: &Schema) -> MasterSlot
    ensures { result ≡ first_slot schema.now }
{
    MasterSlot {
        format: Format::Two,
        epoch: FIRST_EPOCH,
        area: 0,
        pages: schema.pages,
        mib: schema.area_mib,
    }
}

// Formats a device that is long enough.
fn write_all<D: Device>(device: &mut D, schema: &Schema) -> Result<(), DeviceFault>
    requires { device_bytes schema.now ≤ length (D.seen device.old) }
    ensures { FormatsDurably D.Device schema.now device.old device.new result }
{
    close_slots(device)?;
    write_content(device, schema)?;
    write_master(device, FIRST_SLOT, &first_slot_of(schema))
}

/// Formats a device with a schema, in format 2, whatever it held. It closes the gates of both master slots, and syncs.
/// It writes every page and an empty first log area, and syncs. It writes the first master slot after its gate, and
/// syncs; then it opens the gate, and syncs. It takes no memory.
///
/// Then the device holds the schema's first base, whatever a crash leaves, and [`open`](crate::open) finds it. A
/// crash in this call leaves what it might have left before, but for the gates of the master slots. Or it leaves no
/// open master slot, or the schema's format.
///
/// A device that is shorter than the schema needs is refused with [`Refusal::BadLength`], before any call of it. The
/// only other refusal is [`Refusal::DeviceFailed`], if the device failed in this call. Of a longer device the
/// bytes after those that the schema needs are as before in any case.
pub fn format<D: Device>(device: &mut D, schema: &Schema) -> Result<(), Refusal>
    ensures formatted { OnOk result (IsFormattedAs schema.now (D.seen device.new)) }
    // A restart finds the schema's first base in it.
    ensures stands { OnOk result (CanRestart (relations_in schema.now) (length (counters_in schema.now))
        (D.seen device.new) (schema_base schema.now)) }
    ensures durable { OnOk result (Only (D.seen device.new) (D.may_leave device.new)) }
    // Whenever a crash comes in this call.
    ensures moments { LeavesOnly D.moment D.left_since device.old device.new
        (FormatBegins schema.now (D.may_leave device.old)) }
    ensures quiet { OnOk result (D.faults device.new ≡ D.faults device.old) }
    ensures short { length (D.seen device.old) < device_bytes schema.now
        → (result ≡ Err Refusal.BadLength) × (device.new ≡ device.old) }
    ensures cause { IfErr result (λ why.
        (why ≡ Refusal.BadLength) × (length (D.seen device.old) < device_bytes schema.now)
        ⊎ (why ≡ Refusal.DeviceFailed) × (D.faults device.old < D.faults device.new)) }
    ensures rest { Torn 0 (device_bytes schema.now) (D.seen device.old) (D.seen device.new) }
    ensures elsewhere { Follows (Torn 0 (device_bytes schema.now)) (D.may_leave device.old) (D.may_leave device.new) }
{
    if device.len() < schema.device_len() {
        return Err(Refusal::BadLength);
    }
    schema.base.keeps_bounds();
    write_all(device, schema)?;
    Ok(())
}
