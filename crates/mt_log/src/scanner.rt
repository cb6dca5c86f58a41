// Reading an area back: a row of batches, of which each is found by the length of those before it.
ghost use Rattle.std.specs.Prelude.{◌≡◌, ◌⊎◌, ◌<◌, ◌≤◌, ℕ, List, length, IfOk, IfErr, Err};
ghost use Rattle.mt_base.specs.declared.refusal.Refusal.{Refusal};
ghost use Rattle.mt_disk.specs.Disk.{LeavesOnly, LeavesTheSame};
ghost use Rattle.mt_frame.specs.declared.records.Record.{Record};
ghost use Rattle.mt_log.specs.Found.{records_of, places_of};
ghost use Rattle.mt_log.specs.declared.log.Log.{Log};
ghost use Rattle.mt_log.specs.Sound.{IsBeginning, HoldsBeginning};
ghost use Rattle.mt_log.specs.Words.{area_start, area_end};
ghost use Rattle.mt_log.specs.Holds.{places_from, HoldsOf, BreaksAt};

use crate::area::AreaPlace;
use crate::batch::Batch;
use crate::scan_state::Reading;
use mt_base::{Format, Refusal};
use mt_disk::Device;
use std::alloc::Global;

/// Reads an area of a device with so many pages, of this format: its batches in order, each with its place. It ends
/// at the first gate that is not open, and goes over the area once, with one buffer for the bodies.
///
/// Refusals are [`Refusal::NoMemory`]; [`Refusal::DeviceFailed`], if and only if a read failed; and
/// [`Refusal::BadFormat`] with the place of the first batch that breaks the grammar. That is the first of the area
/// where its gate is not open. Or it is an open one that does not fit, or whose body is no row of whole records of the
/// format. Or it has a record which may not stand there. The device is as before in any case.
pub fn scan<D: Device>(
    alloc: Global,
    device: &mut D,
    place: AreaPlace,
    pages: u16,
    format: Format,
) -> Result<Vec<Batch>, Refusal>
    requires { place.end ≤ length (D.seen device.old) }
    ensures found { IfOk result (λ batches. HoldsOf format (D.seen device.old) place.start place.end pages
        (records_of batches.items)) }
    ensures places { IfOk result (λ batches. places_of batches.items ≡ places_from place.start
        (records_of batches.items)) }
    ensures bad { IfErr result (λ why. (at : ℕ) → why ≡ Refusal.BadFormat at
        → BreaksAt format (D.seen device.old) place.start place.end pages at) }
    // An area that holds batches is never refused as one that breaks the grammar, and no others are found.
    ensures only { (batches : List (List Record)) → HoldsOf format
        (D.seen device.old) place.start place.end pages batches
        → IfOk result (λ found. records_of found.items ≡ batches) }
    ensures no_other_refusal { (batches : List (List Record))
        → HoldsOf format (D.seen device.old) place.start place.end pages batches
        → IfErr result (λ why. (why ≡ Refusal.NoMemory) ⊎ (why ≡ Refusal.DeviceFailed)) }
    // So of what a crash left of a log whose records break no rule it finds a beginning of them with all durable
    // ones.
    ensures recovers { (log : Log) → area_start log ≡ place.start → area_end log ≡ place.end
        → HoldsBeginning pages log (D.seen device.old)
        → IfOk result (λ found. IsBeginning log (records_of found.items)) }
    ensures seen { D.seen device.new ≡ D.seen device.old }
    ensures crash { LeavesTheSame (D.may_leave device.old) (D.may_leave device.new) }
    ensures moments { LeavesOnly D.moment D.left_since device.old device.new (D.may_leave device.old) }
    ensures quiet { (result ≡ Err Refusal.DeviceFailed → ⊥) → D.faults device.new ≡ D.faults device.old }
    ensures cause { IfErr result (λ why. (why ≡ Refusal.NoMemory)
        ⊎ (((why ≡ Refusal.DeviceFailed) × (D.faults device.old < D.faults device.new))
        ⊎ ((at : ℕ) × (why ≡ Refusal.BadFormat at)))) }
{
    let mut reading = Reading::new(alloc, place, pages, format);
    while reading.read_batch(alloc, device)? {}
    if reading.found.is_empty() {
        return Err(Refusal::BadFormat(place.start));
    }
    Ok(reading.found)
}
