// What several tests begin with: devices in memory, kernels over them, what a crash leaves, and what they represent.
use mt_base::Refusal;
use mt_disk::{Device, Fill, MemDevice};
use mt_model::{Base, Count, Row};
use mt_restart::{Schema, fresh, inspect, open};
use mt_txn::Kernel;
use std::alloc::{AllocError, Global};

/// How many bytes the two log areas of 4 MiB take.
const AREAS: usize = 8_388_608;

/// What a crash may leave of each write since the last sync. Of the two bytes the second opens a gate.
pub const FILLS: [Fill; 5] = [
    Fill::Old,
    Fill::New,
    Fill::FrontHalf,
    Fill::Byte(0x5A),
    Fill::Byte(0xA5),
];

/// The schema of the worked rows, over so many pages: two relations, and a counter from 0 to 10 that starts at 5.
pub fn row_schema(alloc: Global, pages: u16) -> Result<Schema, Refusal> {
    Schema::new(alloc, pages, 4, 2, &[(0, 10, 5)])
}

/// A device of these bytes, with room for what a test writes.
pub fn device_of(alloc: Global, bytes: Vec<u8>) -> Result<MemDevice, AllocError> {
    MemDevice::new(alloc, bytes, 4200, 8_400_000)
}

/// A device of so many pages, all of its bytes 0.
pub fn empty_device(alloc: Global, pages: u16) -> Result<MemDevice, AllocError> {
    let size = 8192 + 4096 * usize::from(pages) + AREAS;
    device_of(alloc, vec![in alloc; 0u8; size]?)
}

/// A kernel over a device of 64 pages, which is formatted for it by the schema of the worked rows.
pub fn kernel_over<D: Device + Drop>(alloc: Global, device: D) -> Result<Kernel<D>, Refusal> {
    let schema = row_schema(alloc, 64)?;
    match fresh(alloc, device, &schema, 64) {
        Ok(kernel) => Ok(kernel),
        Err((why, _device)) => Err(why),
    }
}

/// Lets a kernel go, with its device.
pub fn put_away<D: Device + Drop>(kernel: Kernel<D>) {
    let _device = kernel.into_device();
}

/// A device of what a crash leaves of this one now, if each write since the last sync leaves this.
pub fn crashed(alloc: Global, device: &MemDevice, fill: Fill) -> Result<MemDevice, AllocError> {
    let bytes = device.crash(alloc, fill)?;
    device_of(alloc, bytes)
}

/// Puts these bytes there, and syncs. A place outside of the device is refused with [`Refusal::BadLength`].
pub fn put(device: &mut MemDevice, at: usize, bytes: &[u8]) -> Result<(), Refusal> {
    let size = device.bytes().len();
    if size < bytes.len() || size - bytes.len() < at {
        return Err(Refusal::BadLength);
    }
    device.write_at(at as u64, bytes)?;
    device.sync()?;
    Ok(())
}

// The place of the last open batch of the area that begins there, or `start` if there is none.
fn last_batch(device: &MemDevice, start: usize) -> usize {
    let bytes = device.bytes();
    let (mut last, mut next) = (start, start);
    for _batch in 0..1000u16 {
        match bytes.get(next..) {
            Some([0xA5, a, b, c, d, ..]) => {
                last = next;
                let body = u32::from_be_bytes([*a, *b, *c, *d]);
                next = next.saturating_add(5).saturating_add(body as usize);
            }
            _ => return last,
        }
    }
    last
}

/// The place after the last open batch of the area that begins there: that of the closed gate.
pub fn log_end(device: &MemDevice, start: usize) -> usize {
    let last = last_batch(device, start);
    match device.bytes().get(last..) {
        Some([0xA5, a, b, c, d, ..]) => {
            let body = u32::from_be_bytes([*a, *b, *c, *d]);
            last.saturating_add(5).saturating_add(body as usize)
        }
        _ => start,
    }
}

// Adds a row's text, as `0 key=value;`.
fn add_row(text: &mut Vec<u8>, alloc: Global, row: &Row) -> Result<(), AllocError> {
    let relation = row.relation.get().to_string(alloc)?;
    text.extend_from_slice(relation.as_bytes())?;
    text.extend_from_slice(b" ")?;
    text.extend_from_slice(row.key.as_slice())?;
    text.extend_from_slice(b"=")?;
    text.extend_from_slice(row.value.as_slice())?;
    text.extend_from_slice(b";")
}

// Adds a counter's text, as ` 5`.
fn add_count(text: &mut Vec<u8>, alloc: Global, count: &Count) -> Result<(), AllocError> {
    let number = count.number.to_string(alloc)?;
    text.extend_from_slice(b" ")?;
    text.extend_from_slice(number.as_bytes())
}

/// A base as text: each row as `0 key=value;`, and after them each counter's number with a space before it.
pub fn text_of(alloc: Global, base: &Base) -> Result<Vec<u8>, AllocError> {
    let mut text = Vec::new(alloc);
    for row in base.rows() {
        add_row(&mut text, alloc, row)?;
    }
    for count in base.counters() {
        add_count(&mut text, alloc, count)?;
    }
    Ok(text)
}

/// The text of the base that a device represents.
pub fn inspected(alloc: Global, device: &mut MemDevice) -> Result<Vec<u8>, Refusal> {
    let survey = inspect(alloc, device)?;
    Ok(text_of(alloc, &survey.base)?)
}

// The device of a kernel, or of a refusal.
fn handed_back<D: Device + Drop>(opened: Result<Kernel<D>, (Refusal, D)>) -> (Option<Refusal>, D) {
    match opened {
        Ok(kernel) => (None, kernel.into_device()),
        Err((why, device)) => (Some(why), device),
    }
}

/// Opens a device, and hands it back with what that was refused with, if at all.
pub fn recovered<D: Device + Drop>(alloc: Global, device: D) -> (Option<Refusal>, D) {
    handed_back(open(alloc, device, 64))
}
