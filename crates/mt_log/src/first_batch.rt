// The beginning of an area: a first batch of images, or of nothing, forced as any other after a gate that is closed.
ghost use Rattle.std.specs.Prelude.{◌≡◌, ◌⊎◌, ◌+◌, ◌-◌, ◌<◌, ◌≤◌, ◌^◌, ◌++◌, ◌∷◌, [], ℕ, List, false, length, vec_capacity, IfOk, IfErr, IsErrOf, OnOk};
ghost use Rattle.std.specs.List.{AllByRecursion};
ghost use Rattle.mt_base.specs.declared.refusal.Refusal.{Refusal};
ghost use Rattle.mt_disk.specs.Calls.{IsSynced, Meanwhile};
ghost use Rattle.mt_disk.specs.Disk.{Torn, Follows};
ghost use Rattle.mt_frame.specs.Grammar.{IsRecord, body_text};
ghost use Rattle.mt_log.specs.Area.{TornFrom, AreaBegins};
ghost use Rattle.mt_log.specs.Batch.{framed, Scans};
ghost use Rattle.mt_frame.specs.declared.records.Record.{Record};
ghost use Rattle.mt_log.specs.declared.area.AreaPlace.{AreaPlace};
ghost use Rattle.mt_log.specs.Ends.{EndsForce};
ghost use Rattle.mt_log.specs.First.{IsFirst};
ghost use Rattle.mt_log.specs.Seen.{landed, new_log};
ghost use Rattle.mt_log.specs.Words.{seen_of, area_end, calls_left, has_failed, LiesOn};

use crate::area::AreaPlace;
use crate::forces::close_text;
use crate::log::{Forced, Log, head_alone, push_text};
use crate::stage::{Stage, Step};
use crate::synced_write::write_durably;
use mt_base::{History, Refusal};
use mt_disk::Device;
use mt_frame::{CLOSED_GATE, Record};
use std::alloc::Global;

// What a force of these records writes after the gate, and the records as a batch.
fn first_batch(alloc: Global, records: &[Record]) -> Result<(Vec<u8>, History<Record>), Refusal>
    requires grammar { AllByRecursion IsRecord records.now }
    requires short { 5 + length (body_text records.now) < 2 ^ 32 }
    ensures text { IfOk result (λ first. first.0.items ≡ framed records.now ++ 0 ∷ []) }
    ensures room { IfOk result (λ first. 5 ≤ vec_capacity first.0) }
    ensures records { IfOk result (λ first. first.1.items ≡ records.now) }
    ensures only_memory { IfErr result (λ why. why ≡ Refusal.NoMemory) }
{
    let mut text = head_alone(alloc)?;
    let mut batch = History::new();
    for entry in records {
        push_text(&mut text, entry)?;
        batch = batch.and(entry);
    }
    close_text(&mut text);
    Ok((text, batch))
}

/// Prepares the log of an area that is to begin with a batch of these records, which are images of pages and nothing
/// else. No device is called: [`begin_prepared`] writes the batch, and takes no memory.
///
/// The only refusal is [`Refusal::NoMemory`].
pub fn prepare_area(alloc: Global, place: AreaPlace, images: &[Record]) -> Result<Log, Refusal>
    requires grammar { AllByRecursion IsRecord images.now }
    requires fits { 5 + length (body_text images.now) < place.end - place.start }
    ensures first { IfOk result (λ log. IsFirst place images.now log) }
    ensures only_memory { IfErr result (λ why. why ≡ Refusal.NoMemory) }
{
    let pending = head_alone(alloc)?;
    let (flight, in_flight) = first_batch(alloc, images)?;
    Ok(Log {
        place,
        next: place.start,
        behind: place.start + flight.len() as u64,
        stage: Stage::Forcing(Step::WriteBody),
        pending,
        flight,
        batched: images.len() as u64,
        waiting_count: 0,
        waiting: History::new(),
        in_flight,
        batches: History::new(),
    })
}

// Forces the batch that is on its way, to the end.
fn force_all<D: Device>(log: &mut Log, device: &mut D) -> Result<(), Refusal>
    requires on { LiesOn D.Device log.old device.old }
    requires under_way { 0 < calls_left log.old }
    requires well { has_failed log.old ≡ false }
    ensures { EndsForce D.Device log.old log.new device.old device.new result }
{
    while let Forced::More = log.force_step(device)? {}
    Ok(())
}

/// Begins an area anew with the batch that [`prepare_area`] made ready, and answers its log. The area may hold
/// anything before. Its first gate is closed and synced. Then the batch is written with a closed gate after it and
/// synced. Then the gate is opened and synced. Until the first sync a crash may leave any byte as the first gate, and
/// the rest as it was. Until the last one it leaves a gate that is closed, or the batch; from then on the batch.
///
/// The only refusal is [`Refusal::DeviceFailed`]. Nothing outside of the area is touched in any case. It takes no
/// memory.
pub fn begin_prepared<D: Device>(device: &mut D, prepared: Log) -> Result<Log, Refusal>
    requires prepared { (place : AreaPlace) × (images : List Record) × IsFirst place images prepared }
    requires within { area_end prepared ≤ length (D.seen device.old) }
    ensures on { IfOk result (λ log. LiesOn D.Device log device.new) }
    ensures log { IfOk result (λ log. seen_of log ≡ landed (seen_of prepared)) }
    // Whenever a crash comes in this call, and what it leaves once the call has gone well.
    ensures begins { (place : AreaPlace) (images : List Record) → IsFirst place images prepared
        → Meanwhile D.Device device.old device.new (AreaBegins (D.may_leave device.old) place.start place.end images) }
    ensures begun { (place : AreaPlace) (images : List Record) → IsFirst place images prepared
        → OnOk result ((c : List ℕ) → D.may_leave device.new c → Scans c place.start place.end (images ∷ [])) }
    ensures alone { OnOk result (IsSynced D.Device device.new) }
    ensures moments { (place : AreaPlace) (images : List Record) → IsFirst place images prepared
        → Meanwhile D.Device device.old device.new
        (TornFrom (D.may_leave device.old) place.start (place.end - place.start)) }
    ensures elsewhere { (place : AreaPlace) (images : List Record) → IsFirst place images prepared
        → Follows (Torn place.start (place.end - place.start)) (D.may_leave device.old) (D.may_leave device.new) }
    ensures rest { (place : AreaPlace) (images : List Record) → IsFirst place images prepared
        → Torn place.start (place.end - place.start) (D.seen device.old) (D.seen device.new) }
    ensures cause { IfErr result (λ why. (why ≡ Refusal.DeviceFailed) × (D.faults device.old < D.faults device.new)) }
    ensures quiet { OnOk result (D.faults device.new ≡ D.faults device.old) }
{
    let mut log = prepared;
    write_durably(device, log.next, &[CLOSED_GATE])?;
    force_all(&mut log, device)?;
    Ok(log)
}

/// Begins an area anew with an empty first batch, and answers its log. It does so by [`prepare_area`], with no image,
/// and then [`begin_prepared`].
///
/// Refusals are [`Refusal::NoMemory`], before any device call, and [`Refusal::DeviceFailed`]. Nothing outside of the
/// area is touched in any case.
pub fn begin_area<D: Device>(
    alloc: Global,
    device: &mut D,
    place: AreaPlace,
) -> Result<Log, Refusal>
    requires { place.end ≤ length (D.seen device.old) }
    ensures on { IfOk result (λ log. LiesOn D.Device log device.new) }
    ensures log { IfOk result (λ log. seen_of log ≡ new_log place) }
    ensures begins { Meanwhile D.Device device.old device.new
        (AreaBegins (D.may_leave device.old) place.start place.end []) }
    ensures begun { OnOk result ((c : List ℕ) → D.may_leave device.new c → Scans c place.start place.end ([] ∷ [])) }
    ensures moments { Meanwhile D.Device device.old device.new
        (TornFrom (D.may_leave device.old) place.start (place.end - place.start)) }
    ensures elsewhere { Follows (Torn place.start (place.end - place.start)) (D.may_leave device.old)
        (D.may_leave device.new) }
    ensures rest { Torn place.start (place.end - place.start) (D.seen device.old) (D.seen device.new) }
    ensures cause { IfErr result (λ why. (why ≡ Refusal.NoMemory) ⊎ (why ≡ Refusal.DeviceFailed)
        × (D.faults device.old < D.faults device.new)) }
    ensures memory { IsErrOf result Refusal.NoMemory → device.new ≡ device.old }
    ensures alone { OnOk result (IsSynced D.Device device.new) }
    ensures quiet { OnOk result (D.faults device.new ≡ D.faults device.old) }
{
    let prepared = prepare_area(alloc, place, &[])?;
    begin_prepared(device, prepared)
}
