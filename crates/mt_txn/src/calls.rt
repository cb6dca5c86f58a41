// `Kernel::call`: the causes in their order, and then the call of the core.
ghost use Rattle.std.specs.Prelude.{◌≡◌, ◌+◌, ◌*◌, None};
ghost use Rattle.mt_live.specs.Machine.{State};
ghost use Rattle.mt_model.specs.Model.{Base};
ghost use Rattle.mt_core.specs.Seen.{core_last};
ghost use Rattle.mt_core.specs.Work.{CallRuns, DrawsNumber};
ghost use Rattle.mt_pool.specs.Views.{pages};
ghost use Rattle.mt_txn.specs.Causes.{IsRefusedAtOnce};
ghost use Rattle.mt_txn.specs.Events.{HasCalled, IsAnsweredBy};
ghost use Rattle.mt_txn.specs.Shown.{FailsForGood, SameSchema, Shows, StaysRestarting, kernel_pool};
ghost use Rattle.mt_txn.specs.Shown.{LeavesFound};
ghost use Rattle.mt_txn.specs.Words.{kernel_running, kernel_call_cause, StatesStay, CommitsStay, kernel_store};

use crate::kernel::Kernel;
use mt_base::{Refusal, TxnNo};
use mt_core::Called;
use mt_disk::Device;
use mt_model::Op;

impl<D: Device> Kernel<D> {
    /// Calls an operation in an open transaction; [`Kernel::step`] brings it to its end. It takes the operation's
    /// lock, escrow's leave if it is an add, and pages and log bytes for the operation and for its inverse.
    ///
    /// Refused, in this order: 2 if the device has failed, 15 if the transaction is not open, 16 if an
    /// operation of it is unfinished. Then 17 if 256 operations of it have ended or 2^40 were called by all. Then
    /// 6 or 7 if the relation or the counter is not there. Then 5 or 8 if a key, a value or a step is past its
    /// limits. Then 14 if an older transaction holds a lock in the way, 9 if some choice of the pending adds
    /// would leave the counter's bounds. Then 10 if too few pages are free and not claimed, 11 if the log has
    /// too few bytes left. If a younger transaction is in the way, it answers [`Called::Wait`]. Refusal 1 is for
    /// want of memory, at the point if it is wanted. In each of these cases nothing of the call is kept.
    /// An operation that is started has the number after that of the last one.
    pub fn call(&mut self, txn: TxnNo, op: &Op) -> Result<Called, Refusal>
        ensures early { IsRefusedAtOnce (kernel_call_cause self.old txn op.now) self.old result self.new }
        ensures answer { kernel_call_cause self.old txn op.now ≡ None
            → IsAnsweredBy self.old txn op.now result }
        ensures states { StatesStay self.old self.new }
        ensures runs { CallRuns txn (2 * pages (kernel_pool self.old) + 9) (kernel_running self.old)
            (kernel_running self.new) result }
        ensures numbers { DrawsNumber (core_last self.old.core) (kernel_running self.old) self.new.core result }
        ensures commits { CommitsStay self.old self.new }
        ensures store { kernel_store self.new ≡ kernel_store self.old }
        ensures called { (first : Base) (s : State) → Shows first s self.old
            → HasCalled first s txn op.now result self.new }
        ensures fails { FailsForGood self.old result self.new }
        ensures schema { SameSchema self.old self.new }
        ensures restarts { StaysRestarting self.old self.new }
        ensures moments { LeavesFound self.old self.new }
    {
        if let Some(why) = self.call_cause(txn, op) {
            return Err(why);
        }
        self.core.call(self.alloc, txn, op)
    }
}
