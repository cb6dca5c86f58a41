// What a scan keeps while it reads an area: the batches so far, and what their records rule out for later ones.
// `scanner` calls it, a batch at a time. The device is only read.
ghost use Rattle.std.specs.Prelude.{◌≡◌, ◌<◌, ◌≤◌, ℕ, List, true, false, length};
ghost use Rattle.std.specs.List.{AllByRecursion};
ghost use Rattle.mt_log.specs.Admitting.{Admits};
ghost use Rattle.mt_log.specs.Holds.{HasItsPage};

use crate::area::AreaPlace;
use crate::batch::Batch;
use crate::fetch::{body_length, gate_is_open, read_into};
use mt_area_rules::AreaRules;
use mt_base::limits::BATCH_HEAD_BYTES;
use mt_base::{Format, Refusal};
use mt_disk::Device;
use mt_frame::{Record, decode_body};
use std::alloc::Global;

// What was read of an area so far.
#[derive(Drop)]
pub(crate) struct Reading {
    pub(crate) place: AreaPlace,
    pub(crate) pages: u16,
    pub(crate) format: Format,
    /// The gate of the batch to be read next.
    pub(crate) next: u64,
    /// The body that was read last.
    pub(crate) body: Vec<u8>,
    pub(crate) rules: AreaRules,
    pub(crate) found: Vec<Batch>,
    ghost in_order: { place.start ≤ next },
    ghost inside: { next < place.end },
}

// Whether the page of a page record is one of the device's.
fn has_its_page(entry: &Record, pages: u16) -> bool
    ensures yes { result ≡ true → HasItsPage pages entry.now }
    ensures no { result ≡ false → HasItsPage pages entry.now → ⊥ }
{
    match entry {
        Record::Page { page, .. } => page.get() < pages,
        _ => true,
    }
}

fn have_their_pages(records: &[Record], pages: u16) -> bool
    ensures yes { result ≡ true → AllByRecursion (HasItsPage pages) records.now }
    ensures no { result ≡ false → AllByRecursion (HasItsPage pages) records.now → ⊥ }
{
    for entry in records {
        if !has_its_page(entry, pages) {
            return false;
        }
    }
    true
}

// The records that the body is a row of, if they may stand after those that are known; they
// are known then.
fn admitted(
    alloc: Global,
    body: &[u8],
    format: Format,
    pages: u16,
    first: bool,
    rules: &mut AreaRules,
) -> Result<Option<Vec<Record>>, Refusal>
    ensures { Admits format body.now pages first rules.old rules.new result }
{
    let Some(records) = decode_body(alloc, format, body)? else {
        return Ok(None);
    };
    if !have_their_pages(&records, pages) {
        return Ok(None);
    }
    if !rules.admit(first, &records)? {
        return Ok(None);
    }
    Ok(Some(records))
}

impl Reading {
    ghost use Rattle.mt_log.specs.Reading.{HasRead, ReadsBatch};

    // Nothing was read of the area.
    pub(crate) fn new(alloc: Global, place: AreaPlace, pages: u16, format: Format) -> Reading
        ensures read { (c : List ℕ) → HasRead c result }
        ensures place { result.place ≡ place }
        ensures pages { result.pages ≡ pages }
        ensures format { result.format ≡ format }
        ensures next { result.next ≡ place.start }
    {
        Reading {
            place,
            pages,
            format,
            next: place.start,
            body: Vec::new(alloc),
            rules: AreaRules::new(alloc),
            found: Vec::new(alloc),
        }
    }

    // Reads the next batch, if its gate is open.
    pub(crate) fn read_batch<D: Device>(
        &mut self,
        alloc: Global,
        device: &mut D,
    ) -> Result<bool, Refusal>
        requires read { HasRead (D.seen device.old) self.old }
        requires within { self.old.place.end ≤ length (D.seen device.old) }
        ensures { ReadsBatch D.Device
            self.old self.new device.old device.new result }
    {
        if !gate_is_open(device, self.next)? {
            return Ok(false);
        }
        let Some(size) = body_length(device, self.next, self.place.end)? else {
            return Err(Refusal::BadFormat(self.next));
        };
        read_into(device, self.next + BATCH_HEAD_BYTES, size, &mut self.body)?;
        let first = self.found.is_empty();
        let Some(records) = admitted(
            alloc,
            &self.body,
            self.format,
            self.pages,
            first,
            &mut self.rules,
        )?
        else {
            return Err(Refusal::BadFormat(self.next));
        };
        self.found.push(Batch {
            place: self.next,
            records,
        })?;
        self.next += BATCH_HEAD_BYTES + size as u64;
        Ok(true)
    }
}
