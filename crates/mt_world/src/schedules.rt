// Any list of events, made one after the other on a kernel over a device that is formatted for it.
ghost use Rattle.std.specs.Prelude.{◌≡◌, ◌⊎◌, ◌<◌, ◌≤◌, ◌+◌, [], length, vec_len, IfOk, IfErr};
ghost use Rattle.std.specs.Vec.{vec_capacity};
ghost use Rattle.mt_base.specs.declared.refusal.Refusal.{Refusal};
ghost use Rattle.mt_disk.specs.Disk.{LeavesOnly};
ghost use Rattle.mt_live.specs.Machine.{start};
ghost use Rattle.mt_format.specs.Schemas.{counters_in, device_bytes, relations_in, schema_base};
ghost use Rattle.mt_txn.specs.Shown.{Restarts, Shows};
ghost use Rattle.mt_model.specs.Model.{Base};
ghost use Rattle.mt_world.specs.Crashes.{BeginsOnFormatted, BeginsOrStands, FindsSince, FoundFromFormat, FoundTo};
ghost use Rattle.mt_world.specs.Schedules.{HasRunTo, IsOfSchema};
ghost use Rattle.mt_txn.specs.Words.{kernel_relations, kernel_counters};

use crate::event_calls::{FRAMES, make};
use crate::events::{Answer, Event};
use mt_base::Refusal;
use mt_disk::Device;
use mt_restart::{Schema, Standing, format, open};
use mt_txn::Kernel;
use std::alloc::Global;

// Makes the events in their order, and keeps an answer of each.
fn make_all<D: Device + Drop>(
    alloc: Global,
    kernel: Kernel<D>,
    events: &[Event],
    answers: &mut Vec<Answer>,
) -> Standing<D>
    requires none { answers.old.items ≡ [] }
    requires room { vec_len answers.old + length events.now ≤ vec_capacity answers.old }
    ensures ran { (first : Base) → Shows first (start first) kernel
        → Restarts first kernel → ∥ HasRunTo
        (kernel_relations kernel) (kernel_counters kernel) first events.now answers.new.items result ∥₁ }
    ensures moments { (since : D) (first : Base) → Shows first (start first) kernel
        → Restarts first kernel → FindsSince since first kernel
        → ∥ FoundTo (kernel_relations kernel) (kernel_counters kernel) since first
        events.now answers.new.items result ∥₁ }
    ensures schema { IsOfSchema (kernel_relations kernel) (kernel_counters kernel) result }
{
    let mut standing = Standing::Stands(kernel);
    for event in events {
        let (next, answer) = make(alloc, standing, event);
        standing = next;
        answers.push_reserved(answer);
    }
    standing
}

/// Formats a device by the schema, and opens it.
pub(crate) fn begin_on<D: Device + Drop>(
    alloc: Global,
    device: D,
    schema: &Schema,
) -> Result<Kernel<D>, (Refusal, D)>
    ensures { BeginsOnFormatted schema.now device result }
{
    let mut device = device;
    match format(&mut device, schema) {
        Ok(()) => open(alloc, device, FRAMES),
        Err(refusal) => Err((refusal, device)),
    }
}

/// Formats a device by the schema, opens it in 64 frames, and makes the events in their order. Each is made by the
/// kernel's call of its name and by nothing else. Gives what stands after them, and an answer of each event.
///
/// Whatever the events, what ended acted once on the model, in the order of the ends. The committed transactions
/// replied as they do alone, in the order of the commits. What stands of the others is explained, whoever of them is
/// struck out (Weikum 1991, O'Neil 1986). What a transaction took back stays among its operations, and so do the
/// inverses. An event of a transaction that is not there is answered with 15; once an event was refused with 2, each
/// later one is. A rotation while a transaction is active is refused with 16. The kernel goes on after one that is
/// refused with that, with 1 or with 11. If the device fails in one after its force, no kernel stands, and the device
/// is to be opened again.
///
/// A crash while the device is formatted leaves what [`format`] says. Whatever a crash leaves from then on can be
/// restarted from. A restart finds what some of the first commits lead to, with all that were acknowledged by then.
/// Before the first commit that is the schema's first base.
///
/// Refused, in this order, with the device, before any event. It is 1 for want of memory, 5 if it is shorter than
/// [`Schema::device_len`], 2 if it failed. After 5 nothing is written. After 1 and 2 a crash leaves what one
/// leaves while a device is formatted, or the schema's first base.
pub fn run_schedule<D: Device + Drop>(
    alloc: Global,
    device: D,
    schema: &Schema,
    events: &[Event],
) -> Result<(Standing<D>, Vec<Answer>), (Refusal, D)>
    ensures ran { IfOk result (λ made. ∥ HasRunTo
        (relations_in schema.now) (length (counters_in schema.now)) (schema_base schema.now) events.now
        made.1.items made.0 ∥₁) }
    ensures moments { IfOk result (λ made. ∥ FoundFromFormat
        schema.now device events.now made.1.items made.0 ∥₁) }
    ensures err { IfErr result (λ gone. LeavesOnly D.moment D.left_since device gone.1
        (BeginsOrStands schema.now (D.may_leave device))) }
    ensures schema { IfOk result (λ made. IsOfSchema (relations_in schema.now) (length (counters_in schema.now))
        made.0) }
    ensures cause { IfErr result (λ gone. (gone.0 ≡ Refusal.NoMemory)
        ⊎ ((gone.0 ≡ Refusal.BadLength) × (length (D.seen device) < device_bytes schema.now)
        ⊎ (gone.0 ≡ Refusal.DeviceFailed) × (D.faults device < D.faults gone.1))) }
    ensures short { IfErr result (λ gone. gone.0 ≡ Refusal.BadLength → gone.1 ≡ device) }
{
    let Ok(mut answers) = Vec::with_capacity(alloc, events.len()) else {
        return Err((Refusal::NoMemory, device));
    };
    let kernel = begin_on(alloc, device, schema)?;
    let standing = make_all(alloc, kernel, events, &mut answers);
    Ok((standing, answers))
}
