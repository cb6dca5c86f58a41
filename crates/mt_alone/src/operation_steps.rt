// Operations taken to their replies, and aborts to their ends.
ghost use Rattle.std.specs.Prelude.{◌≡◌, ◌↔◌, IsTrue, Ok};
ghost use Rattle.mt_txn.specs.Shown.{SameSchema, StaysRestarting};
ghost use Rattle.mt_alone.specs.Driven.{HasBacked, HasMoved, HasReplied, HasUndone};

use crate::forces::{ASKED_AGAIN, make_room, wants_memory};
use mt_base::limits::MAX_PAGES;
use mt_base::{Refusal, TxnNo};
use mt_disk::Device;
use mt_model::Reply;
use mt_txn::{AbortStepped, Kernel, Stepped};

/// The most steps of one operation that is alone: two a page, nine more, and its end.
const OPERATION_STEPS: usize = 2 * MAX_PAGES as usize + 10;

/// The most steps of an abort that is alone: as many for each effect that the log keeps bytes for, and its end.
pub(crate) const ABORT_STEPS: usize = 631 * OPERATION_STEPS + 1;

/// Whether a step wants a frame flushed first.
fn wants_frame(answer: &Result<Stepped, Refusal>) -> bool
    ensures { IsTrue result ↔ (answer.now ≡ Ok Stepped.Flush) }
{
    matches!(answer, Ok(Stepped::Flush))
}

/// Whether a step of an abort does, or of going back.
pub(crate) fn abort_wants_frame(answer: &Result<AbortStepped, Refusal>) -> bool
    ensures { IsTrue result ↔ (answer.now ≡ Ok AbortStepped.Flush) }
{
    matches!(answer, Ok(AbortStepped::Flush))
}

/// A step of an operation, asked for again if it finds no memory, or no frame. `NoMemory` if it was asked
/// nine times.
pub(crate) fn ask_step<D: Device>(kernel: &mut Kernel<D>, txn: TxnNo) -> Result<Stepped, Refusal>
    ensures moved { HasMoved kernel.old txn result kernel.new }
    ensures schema { SameSchema kernel.old kernel.new }
    ensures restarts { StaysRestarting kernel.old kernel.new }
{
    for _ in 0..=ASKED_AGAIN {
        let answer = kernel.step(txn);
        if wants_frame(&answer) {
            make_room(kernel)?;
        } else if !wants_memory(&answer) {
            return answer;
        }
    }
    Err(Refusal::NoMemory)
}

/// Takes an operation that was begun to its reply: each step leaves less of its work. Refused as its steps are, and
/// by `Busy` if another transaction was in the way, which in a run alone none is.
pub(crate) fn step_to_reply<D: Device>(kernel: &mut Kernel<D>, txn: TxnNo) -> Result<Reply, Refusal>
    ensures replied { HasReplied kernel.old txn result kernel.new }
    ensures schema { SameSchema kernel.old kernel.new }
    ensures restarts { StaysRestarting kernel.old kernel.new }
{
    for _step in 0..OPERATION_STEPS {
        match ask_step(kernel, txn)? {
            Stepped::Replied(reply) => return Ok(reply),
            Stepped::Went => {}
            Stepped::Wait(_) | Stepped::Again | Stepped::Flush => return Err(Refusal::Busy),
        }
    }
    Err(Refusal::Busy)
}

/// A step of an abort, asked for again if it finds no memory, or no frame. `NoMemory` if it was asked nine
/// times.
pub(crate) fn ask_abort<D: Device>(
    kernel: &mut Kernel<D>,
    txn: TxnNo,
) -> Result<AbortStepped, Refusal>
    ensures backed { HasBacked kernel.old txn result kernel.new }
    ensures schema { SameSchema kernel.old kernel.new }
    ensures restarts { StaysRestarting kernel.old kernel.new }
{
    for _ in 0..=ASKED_AGAIN {
        let answer = kernel.abort_step(txn);
        if abort_wants_frame(&answer) {
            make_room(kernel)?;
        } else if !wants_memory(&answer) {
            return answer;
        }
    }
    Err(Refusal::NoMemory)
}

/// Takes an abort that was begun to its end: each step leaves less of its work. Refused as its steps are, and by
/// `Busy` if another transaction was in the way, which in a run alone none is.
pub(crate) fn undo<D: Device>(kernel: &mut Kernel<D>, txn: TxnNo) -> Result<(), Refusal>
    ensures undone { HasUndone kernel.old txn result kernel.new }
    ensures schema { SameSchema kernel.old kernel.new }
    ensures restarts { StaysRestarting kernel.old kernel.new }
{
    for _step in 0..ABORT_STEPS {
        match ask_abort(kernel, txn)? {
            AbortStepped::Ended => return Ok(()),
            AbortStepped::More => {}
            AbortStepped::Wait(_) | AbortStepped::Again | AbortStepped::Flush => {
                return Err(Refusal::Busy);
            }
        }
    }
    Err(Refusal::Busy)
}
