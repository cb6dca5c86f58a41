// One event, made by the kernel's call of its name, or by a rotation of its log.
ghost use Rattle.mt_world.specs.Schedules.{GoesTo, HasBecome, HasMade, IsMadeInPlace};
ghost use Rattle.mt_world.specs.declared.events.Event.TheVariants as event;

use crate::events::{Answer, Event};
use mt_base::{Refusal, TxnNo};
use mt_disk::Device;
use mt_model::Op;
use mt_restart::{Standing, rotate};
use mt_txn::Kernel;
use std::alloc::Global;

// How many pages a kernel keeps in frames.
pub(crate) const FRAMES: usize = 64;

// Begins a transaction.
fn begin<D: Device>(kernel: &mut Kernel<D>, session: u32) -> Answer
    ensures { HasMade kernel.old (event.Begin session) result
        kernel.new }
{
    match kernel.begin(session) {
        Ok(txn) => Answer::Begun(txn),
        Err(refusal) => Answer::Refused(refusal),
    }
}

// Calls an operation.
fn call<D: Device>(kernel: &mut Kernel<D>, txn: TxnNo, op: &Op) -> Answer
    ensures { HasMade kernel.old (event.Call txn op.now) result
        kernel.new }
{
    match kernel.call(txn, op) {
        Ok(called) => Answer::Called(called),
        Err(refusal) => Answer::Refused(refusal),
    }
}

// Makes a step of an operation.
fn step<D: Device>(kernel: &mut Kernel<D>, txn: TxnNo) -> Answer
    ensures { HasMade kernel.old (event.Step txn) result
        kernel.new }
{
    match kernel.step(txn) {
        Ok(stepped) => Answer::Stepped(stepped),
        Err(refusal) => Answer::Refused(refusal),
    }
}

// Begins a commit.
fn commit<D: Device>(kernel: &mut Kernel<D>, txn: TxnNo) -> Answer
    ensures { HasMade kernel.old (event.Commit txn) result
        kernel.new }
{
    match kernel.commit_begin(txn) {
        Ok(place) => Answer::Committing(place),
        Err(refusal) => Answer::Refused(refusal),
    }
}

// Begins an abort.
fn abort<D: Device>(kernel: &mut Kernel<D>, txn: TxnNo) -> Answer
    ensures { HasMade kernel.old (event.AbortBegin txn) result
        kernel.new }
{
    match kernel.abort_begin(txn) {
        Ok(()) => Answer::Aborting,
        Err(refusal) => Answer::Refused(refusal),
    }
}

// Makes a step of an abort.
fn undo<D: Device>(kernel: &mut Kernel<D>, txn: TxnNo) -> Answer
    ensures { HasMade kernel.old (event.AbortStep txn) result
        kernel.new }
{
    match kernel.abort_step(txn) {
        Ok(stepped) => Answer::Undone(stepped),
        Err(refusal) => Answer::Refused(refusal),
    }
}

// Begins to go back.
fn back<D: Device>(kernel: &mut Kernel<D>, txn: TxnNo, first: u16) -> Answer
    ensures { HasMade kernel.old (event.Back txn first) result
        kernel.new }
{
    match kernel.back_begin(txn, first) {
        Ok(()) => Answer::Returning,
        Err(refusal) => Answer::Refused(refusal),
    }
}

// Makes a step of going back.
fn return_step<D: Device>(kernel: &mut Kernel<D>, txn: TxnNo) -> Answer
    ensures { HasMade kernel.old (event.BackStep txn) result
        kernel.new }
{
    match kernel.back_step(txn) {
        Ok(stepped) => Answer::Returned(stepped),
        Err(refusal) => Answer::Refused(refusal),
    }
}

// Makes a step of a force.
fn force<D: Device>(kernel: &mut Kernel<D>) -> Answer
    ensures { HasMade kernel.old event.Force result
        kernel.new }
{
    match kernel.force_step() {
        Ok(forced) => Answer::Forced(forced),
        Err(refusal) => Answer::Refused(refusal),
    }
}

// Flushes a frame.
fn flush<D: Device>(kernel: &mut Kernel<D>) -> Answer
    ensures { HasMade kernel.old event.Flush result
        kernel.new }
{
    match kernel.flush_step() {
        Ok(flushed) => Answer::Flushed(flushed),
        Err(refusal) => Answer::Refused(refusal),
    }
}

// Makes an event by the kernel's call of its name, and gives what that answers; nothing for a rotation, which takes
// the kernel itself.
fn make_in_place<D: Device>(kernel: &mut Kernel<D>, event: &Event) -> Option<Answer>
    ensures { IsMadeInPlace kernel.old event.now result kernel.new }
{
    match event {
        Event::Begin(session) => Some(begin(kernel, *session)),
        Event::Call(txn, op) => Some(call(kernel, *txn, op)),
        Event::Step(txn) => Some(step(kernel, *txn)),
        Event::Commit(txn) => Some(commit(kernel, *txn)),
        Event::AbortBegin(txn) => Some(abort(kernel, *txn)),
        Event::AbortStep(txn) => Some(undo(kernel, *txn)),
        Event::Back(txn, first) => Some(back(kernel, *txn, *first)),
        Event::BackStep(txn) => Some(return_step(kernel, *txn)),
        Event::Force => Some(force(kernel)),
        Event::Flush => Some(flush(kernel)),
        Event::Rotate => None,
    }
}

// Turns the log over.
fn turn_over<D: Device + Drop>(alloc: Global, kernel: Kernel<D>) -> (Standing<D>, Answer)
    ensures { HasBecome kernel event.Rotate result.1 result.0 }
{
    let (standing, outcome) = rotate(alloc, kernel, FRAMES);
    match outcome {
        Ok(()) => (standing, Answer::Rotated),
        Err(refusal) => (standing, Answer::Refused(refusal)),
    }
}

// Makes an event on a kernel.
fn make_on<D: Device + Drop>(
    alloc: Global,
    kernel: Kernel<D>,
    event: &Event,
) -> (Standing<D>, Answer)
    ensures { HasBecome kernel event.now result.1 result.0 }
{
    let mut kernel = kernel;
    match make_in_place(&mut kernel, event) {
        Some(answer) => (Standing::Stands(kernel), answer),
        None => turn_over(alloc, kernel),
    }
}

/// Makes an event on what stands, and gives what stands then with the answer. Once the device failed in a rotation that
/// left no kernel, each event is refused with 2.
pub(crate) fn make<D: Device + Drop>(
    alloc: Global,
    standing: Standing<D>,
    event: &Event,
) -> (Standing<D>, Answer)
    ensures { GoesTo standing event.now result.1 result.0 }
{
    match standing {
        Standing::Stands(kernel) => make_on(alloc, kernel, event),
        Standing::Ended(device) => (
            Standing::Ended(device),
            Answer::Refused(Refusal::DeviceFailed),
        ),
    }
}
