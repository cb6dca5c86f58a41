// A transaction taken back to where its first so many operations had ended.
ghost use Rattle.mt_txn.specs.Shown.{SameSchema, StaysRestarting};
ghost use Rattle.mt_alone.specs.Driven.{HasNeared, HasGoneBack};

use crate::forces::{ASKED_AGAIN, make_room, wants_memory};
use crate::operation_steps::{ABORT_STEPS, abort_wants_frame};
use mt_base::{Refusal, TxnNo};
use mt_disk::Device;
use mt_txn::{AbortStepped, Kernel};

/// A step of going back, asked for again if it finds no memory, or no frame. `NoMemory` if it was asked nine times.
pub(crate) fn ask_return<D: Device>(
    kernel: &mut Kernel<D>,
    txn: TxnNo,
) -> Result<AbortStepped, Refusal>
    ensures neared { HasNeared kernel.old txn result kernel.new }
    ensures schema { SameSchema kernel.old kernel.new }
    ensures restarts { StaysRestarting kernel.old kernel.new }
{
    for _ in 0..=ASKED_AGAIN {
        let answer = kernel.back_step(txn);
        if abort_wants_frame(&answer) {
            make_room(kernel)?;
        } else if !wants_memory(&answer) {
            return answer;
        }
    }
    Err(Refusal::NoMemory)
}

/// Takes a transaction that goes back to its end of that: each step leaves less of its work. Refused as its steps are,
/// and by `Busy` if another transaction was in the way, which in a run alone none is.
pub(crate) fn go_back<D: Device>(kernel: &mut Kernel<D>, txn: TxnNo) -> Result<(), Refusal>
    ensures returned { HasGoneBack kernel.old txn result kernel.new }
    ensures schema { SameSchema kernel.old kernel.new }
    ensures restarts { StaysRestarting kernel.old kernel.new }
{
    for _step in 0..ABORT_STEPS {
        match ask_return(kernel, txn)? {
            AbortStepped::Ended => return Ok(()),
            AbortStepped::More => {}
            AbortStepped::Wait(_) | AbortStepped::Again | AbortStepped::Flush => {
                return Err(Refusal::Busy);
            }
        }
    }
    Err(Refusal::Busy)
}
