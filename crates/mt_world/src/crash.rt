// A run over a device in memory that is stopped after so many calls, and what a crash leaves of the device then.
// Tests open what is left, and compare the base.
ghost use Rattle.std.specs.Prelude.{◌≡◌, ◌≤◌, ◌+◌, ◌-◌, ◌^◌, min, length, IfErr, IfOk};
ghost use Rattle.mt_base.specs.declared.refusal.Refusal.{Refusal};
ghost use Rattle.mt_disk.specs.Memory.{content};
ghost use Rattle.mt_format.specs.Schemas.{device_bytes};
ghost use Rattle.mt_world.specs.Stopped.{BeginsWithin, IsCrashRun, IsStoppedRun};

use crate::commit_order::{acknowledged_in, commits_reported};
use crate::events::Event;
use crate::schedules::{begin_on, run_schedule};
use crate::stopping_device::StoppingDevice;
use mt_base::Refusal;
use mt_disk::{Device, Fill, MemDevice};
use mt_model::Committed;
use mt_restart::Schema;
use std::alloc::Global;

// How many writes without a sync the device has room for.
const WRITES: usize = 8192;

/// What a crash leaves of a run that was stopped.
#[derive(Debug, Drop)]
pub struct CrashRun {
    /// The bytes of the device.
    pub content: Vec<u8>,
    /// How many commits were acknowledged by then.
    pub acked: usize,
    /// The commits that had begun by then, in the order in which they did: the acknowledged ones first.
    pub order: Vec<Committed>,
}

// A device in memory for the schema, all of its bytes 0.
fn device_for(alloc: Global, schema: &Schema) -> Result<MemDevice, Refusal>
    ensures size { IfOk result (λ device. length (content device) ≡ device_bytes schema.now) }
    ensures only_memory { IfErr result (λ why. why ≡ Refusal.NoMemory) }
{
    let len = schema.device_len() as usize;
    let bytes = vec![in alloc; 0u8; len]?;
    Ok(MemDevice::new(alloc, bytes, WRITES, len)?)
}

// How many writes and syncs the format and the opening of a device take: all those before the first event.
fn calls_before(alloc: Global, schema: &Schema) -> Result<u64, Refusal>
    ensures begins { IfOk result (λ calls.
        ∥ BeginsWithin ⟦<StoppingDevice<MemDevice> as Device>⟧ schema.now calls ∥₁) }
    ensures only_memory { IfErr result (λ why. why ≡ Refusal.NoMemory) }
{
    let device = StoppingDevice::new(device_for(alloc, schema)?, u64::MAX);
    match begin_on(alloc, device, schema) {
        Ok(kernel) => Ok(kernel.into_device().taken()),
        // A device in memory fails only if it has no room for one more write without a sync.
        Err((_refusal, _device)) => Err(Refusal::NoMemory),
    }
}

// So many calls after those, or as many as 64 bits count.
fn limit_behind(before: u64, calls: u64) -> u64
    ensures { result ≡ min (before + calls) (2 ^ 64 - 1) }
{
    before.saturating_add(calls)
}

// Makes the events over a device that takes so many writes and syncs, those of its format and its opening too.
fn stopped_run(
    alloc: Global,
    schema: &Schema,
    events: &[Event],
    limit: u64,
    fill: Fill,
) -> Result<CrashRun, Refusal>
    ensures run { IfOk result (λ run. ∥ IsStoppedRun ⟦<StoppingDevice<MemDevice> as Device>⟧ schema.now events.now
        limit fill run ∥₁) }
    ensures only_memory { IfErr result (λ why. why ≡ Refusal.NoMemory) }
{
    let device = StoppingDevice::new(device_for(alloc, schema)?, limit);
    let (standing, answers) = match run_schedule(alloc, device, schema, events) {
        Ok(made) => made,
        Err((_refusal, _device)) => return Err(Refusal::NoMemory),
    };
    let stopped = standing.into_device();
    // No contract of a kernel says that it leaves its device's limit as it was, so it is looked at.
    if stopped.limit() != limit {
        return Err(Refusal::NoMemory);
    }
    let device = stopped.into_inner();
    let order = commits_reported(alloc, events, answers.as_slice())?;
    let acked = acknowledged_in(alloc, answers.as_slice())?.len();
    let content = device.crash(alloc, fill)?;
    Ok(CrashRun {
        content,
        acked,
        order,
    })
}

/// Makes a schedule's events, as [`run_schedule`] does, over a device in memory. The device is stopped after so many
/// writes and syncs, counted from the first event. It gives one of the contents that a crash may leave then. Over the
/// bytes of the last sync each write since then, the oldest first, leaves in its range what `fill` says. A call at
/// which the device is stopped fails and changes nothing; the event that makes it, and each later one, is refused
/// with 2.
///
/// The calls before the first event are those that the format and the opening of such another device took.
///
/// A restart finds in that content what some of the first commits of `order` lead to, with all that were
/// acknowledged.
///
/// The only refusal is 1, for want of memory: of the allocator's, or of the device's room for writes without a sync. It
/// has room for 8192 of them, and for as many bytes in them as the device has, which is enough to format it.
pub fn crash_run(
    alloc: Global,
    schema: &Schema,
    events: &[Event],
    calls: u64,
    fill: Fill,
) -> Result<CrashRun, Refusal>
    ensures run { IfOk result (λ run. ∥ IsCrashRun ⟦<StoppingDevice<MemDevice> as Device>⟧ schema.now events.now calls
        fill run ∥₁) }
    ensures only_memory { IfErr result (λ why. why ≡ Refusal.NoMemory) }
{
    let before = calls_before(alloc, schema)?;
    stopped_run(alloc, schema, events, limit_behind(before, calls), fill)
}
