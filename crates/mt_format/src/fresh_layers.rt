// The layers over a device that is formatted, from its log up to operations and escrow. `fresh_kernel` asks for them.
// All that takes memory is made before the device is written.
ghost use Rattle.std.specs.Prelude.{◌≡◌, ◌⊎◌, ◌<◌, ℕ, length, IfOk, IfErr, MatchResult};
ghost use Rattle.mt_base.specs.declared.refusal.Refusal.{Refusal};
ghost use Rattle.mt_disk.specs.Disk.{Only};
ghost use Rattle.mt_format.specs.Firsts.{IsFirstIdle, IsFirstLog, IsFirstPool, AreFirst, AreFirstLayers, AreFresh};
ghost use Rattle.mt_format.specs.Formats.{IsFormattedAs};
ghost use Rattle.mt_format.specs.Schemas.{device_bytes};
ghost use Rattle.mt_op.specs.Operations.{operation_frames, operation_device};

use crate::first_pages::first_pages;
use crate::format_calls::first_slot_of;
use crate::{Schema, format};
use mt_base::Refusal;
use mt_base::limits::MASTER_BYTES;
use mt_disk::Device;
use mt_escrow::Escrow;
use mt_log::{AreaPlace, Log};
use mt_op::{Idle, Operations};
use mt_pool::{Pool, Store};
use std::alloc::Global;

// What a kernel has beside the device that is formatted for it.
#[derive(Drop)]
pub(crate) struct FirstLayers {
    pub(crate) log: Log,
    pub(crate) pool: Pool,
    pub(crate) idle: Idle,
    pub(crate) escrow: Escrow,
}

// The log of an area as it is formatted, and a pool over the pages.
fn log_and_pool(alloc: Global, schema: &Schema, frames: usize) -> Result<(Log, Pool), Refusal>
    ensures log { IfOk result (λ parts. IsFirstLog schema.now parts.0) }
    ensures pool { IfOk result (λ parts. IsFirstPool schema.now frames parts.1) }
    ensures only_memory { IfErr result (λ why. why ≡ Refusal.NoMemory) }
{
    let area = AreaPlace::of(schema.pages, schema.area_mib, false);
    let log = Log::new(alloc, area)?;
    let pool = Pool::new(alloc, frames, schema.pages, MASTER_BYTES)?;
    Ok((log, pool))
}

// What operations keep beside a store over the pages as they are formatted.
fn first_idle(alloc: Global, schema: &Schema) -> Result<Idle, Refusal>
    ensures idle { IfOk result (IsFirstIdle schema.now) }
    ensures only_memory { IfErr result (λ why. why ≡ Refusal.NoMemory) }
{
    let pages = first_pages(alloc, schema)?;
    Idle::of(alloc, pages.as_slice())
}

// All that takes memory.
fn first_layers(alloc: Global, schema: &Schema, frames: usize) -> Result<FirstLayers, Refusal>
    ensures layers { IfOk result (AreFirstLayers schema.now frames) }
    ensures only_memory { IfErr result (λ why. why ≡ Refusal.NoMemory) }
{
    schema.base.keeps_bounds();
    let escrow = Escrow::new(alloc, schema.counters())?;
    let idle = first_idle(alloc, schema)?;
    let (log, pool) = log_and_pool(alloc, schema, frames)?;
    Ok(FirstLayers {
        log,
        pool,
        idle,
        escrow,
    })
}

// The operations over a device as it is formatted: none is under way. No call of the device is made.
fn first_operations<D: Device>(
    device: D,
    schema: &Schema,
    log: Log,
    pool: Pool,
    idle: Idle,
) -> Operations<D>
    requires formatted { IsFormattedAs schema.now (D.seen device) }
    requires durable { Only (D.seen device) (D.may_leave device) }
    requires log { IsFirstLog schema.now log }
    requires pool { (frames : ℕ) × IsFirstPool schema.now frames pool }
    requires idle { IsFirstIdle schema.now idle }
    ensures operations { AreFirst D.Device schema.now device result }
    ensures frames { (frames : ℕ) → IsFirstPool schema.now frames pool → operation_frames result ≡ frames }
    ensures device { operation_device result ≡ device }
{
    let store = Store::over_images(device, log, pool, first_slot_of(schema), &[]);
    Operations::join(store, idle)
}

// Formats a device, and begins operations over it and an escrow of the schema's counters. Each refusal hands the
// device back, and for want of memory as it was.
pub(crate) fn fresh_parts<D: Device + Drop>(
    alloc: Global,
    device: D,
    schema: &Schema,
    frames: usize,
) -> Result<(Operations<D>, Escrow), (Refusal, D)>
    ensures short { length (D.seen device) < device_bytes schema.now
        → MatchResult result (λ parts. ⊥) (λ gone. gone.1 ≡ device) }
    ensures memory { IfErr result (λ gone. gone.0 ≡ Refusal.NoMemory → gone.1 ≡ device) }
    ensures fresh { IfOk result (λ parts. AreFresh D.Device schema.now parts.0 parts.1) }
    ensures frames { IfOk result (λ parts. operation_frames parts.0 ≡ frames) }
    ensures cause { IfErr result (λ gone. (gone.0 ≡ Refusal.NoMemory)
        ⊎ ((gone.0 ≡ Refusal.BadLength) × (length (D.seen device) < device_bytes schema.now)
        ⊎ (gone.0 ≡ Refusal.DeviceFailed) × (D.faults device < D.faults gone.1))) }
    ensures quiet { MatchResult result (λ parts. D.faults (operation_device parts.0) ≡ D.faults device)
        (λ gone. (gone.0 ≡ Refusal.DeviceFailed → ⊥) → D.faults gone.1 ≡ D.faults device) }
{
    let layers = match first_layers(alloc, schema, frames) {
        Ok(layers) => layers,
        Err(refusal) => return Err((refusal, device)),
    };
    let mut device = device;
    match format(&mut device, schema) {
        Ok(()) => {}
        Err(refusal) => return Err((refusal, device)),
    }
    let FirstLayers {
        log,
        pool,
        idle,
        escrow,
    } = layers;
    let operations = first_operations(device, schema, log, pool, idle);
    Ok((operations, escrow))
}
