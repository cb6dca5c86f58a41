// Aborts: an operation under way is taken back, and each effect is undone by its inverse, the last one first.
// A call makes one step of it, by the core.
ghost use Rattle.std.specs.Prelude.{◌≡◌, ◌≢◌, ◌⊎◌, ◌<◌, ◌+◌, length, All, IfErr, IfOk, OnOk, OnErr, None, Some, Ok, Err, true};
ghost use Rattle.mt_base.specs.declared.refusal.Refusal.{Refusal};
ghost use Rattle.mt_live.specs.Machine.{State};
ghost use Rattle.mt_model.specs.Model.{Base};
ghost use Rattle.mt_live.specs.declared.transactions.TxnState.TheVariants.{Aborting};
ghost use Rattle.mt_core.specs.Consistent.{AtPlace};
ghost use Rattle.mt_op.specs.declared.scope.OpScope.{OpScope};
ghost use Rattle.mt_txn.specs.Causes.{IsRefusedAtOnce};
ghost use Rattle.mt_txn.specs.Effects.{BeginsUndoing, LeavesAbort, MovesAbort};
ghost use Rattle.mt_txn.specs.Aborted.{StepsAbort, StepsInverse};
ghost use Rattle.mt_txn.specs.Events.{HasAborted};
ghost use Rattle.mt_txn.specs.Seen.{seen_of};
ghost use Rattle.mt_txn.specs.Shown.{FailsForGood, HidesNoFault, SameSchema, Shows, Stays, StaysRestarting, kernel_device, kernel_log, kernel_page_locks};
ghost use Rattle.mt_txn.specs.Work.{IsAbortReportedAs};
ghost use Rattle.mt_txn.specs.Shown.{LeavesFound, ReadsDevice};
ghost use Rattle.mt_txn.specs.PageLocks.{AbortsLocks};
ghost use Rattle.mt_txn.specs.Words.{kernel_state, kernel_store, kernel_running, kernel_abort_begin_cause, kernel_abort_cause, kernel_last, IsKernelFault, NumbersStay};
ghost use Rattle.mt_txn.specs.Writes.{LogsEnd, LogsNothing, UndoingWrites};
ghost use Rattle.mt_log.specs.Words.{appended};
ghost use Rattle.mt_op.specs.World.{undoes_of};

use crate::answers::AbortStepped;
use crate::kernel::{Kernel, is_failure};
use mt_base::{Refusal, TxnNo};
use mt_core::{Going, Stepping};
use mt_disk::Device;
use mt_op::TakenBack;

impl<D: Device> Kernel<D> {
    /// Begins to undo a transaction that is open, or goes back to a savepoint, whether an operation of it is unfinished
    /// or not; abort steps bring it to its end. An inverse that is under way comes to its end first. If nobody is in
    /// the way, over n pages, they have a bound. They are at most 2 n + 10 for each operation of it that stands or is
    /// under way, and the end. It takes no memory, and makes no call of the device.
    ///
    /// Refused, in this order: 2 if the device has failed, 15 if the transaction neither is open nor goes back. Nothing
    /// has changed then.
    pub fn abort_begin(&mut self, txn: TxnNo) -> Result<(), Refusal>
        ensures may { OnOk result (kernel_abort_begin_cause self.old txn ≡ None) }
        ensures cause { IfErr result (λ why. kernel_abort_begin_cause self.old txn ≡ Some why) }
        ensures state { Stays self.old self.new }
        ensures begins { OnOk result (BeginsUndoing (seen_of self.old) txn Aborting (seen_of self.new)) }
        ensures fails { FailsForGood self.old result self.new }
        ensures err { OnErr result (self.new ≡ self.old) }
        ensures schema { SameSchema self.old self.new }
        ensures restarts { StaysRestarting self.old self.new }
        ensures moments { LeavesFound self.old self.new }
    {
        if let Some(why) = self.abort_begin_cause(txn) {
            return Err(why);
        }
        self.core.abort_begin(txn);
        Ok(())
    }

    // Takes the operation at a place back a step, which is no inverse.
    fn take_back(&mut self, txn: TxnNo, place: usize) -> Result<AbortStepped, Refusal>
        requires within { place < length (kernel_running self.old) }
        requires own { AtPlace (kernel_running self.old) place
            (λ r. (r.txn ≡ txn) × (undoes_of r ≡ 0)) }
        requires aborting { kernel_state self.old txn ≡ Some Aborting }
        ensures steps { StepsAbort self.old txn result self.new }
        ensures marks { self.new.failed ≡ true → result ≡ Err Refusal.DeviceFailed }
        ensures writes { UndoingWrites (LogsEnd txn) (appended (kernel_log self.old)) (appended (kernel_log self.new))
            result }
        ensures numbers { NumbersStay self.old self.new }
        ensures locks { AtPlace (kernel_running self.old) place
            (λ r. AbortsLocks self.old.core self.new.core r result) }
    {
        let outcome = self.core.take_back_step(place);
        self.failed = is_failure(&outcome);
        match outcome? {
            TakenBack::More => Ok(AbortStepped::More),
            TakenBack::Flush => Ok(AbortStepped::Flush),
            TakenBack::Clear => Ok(AbortStepped::More),
        }
    }

    // Makes a step of the inverse at a place.
    pub(crate) fn undo_step(&mut self, txn: TxnNo, place: usize) -> Result<AbortStepped, Refusal>
        requires within { place < length (kernel_running self.old) }
        requires own { AtPlace (kernel_running self.old) place
            (λ r. (r.txn ≡ txn) × (undoes_of r ≢ 0)) }
        ensures steps { StepsInverse self.old txn result self.new }
        ensures marks { self.new.failed ≡ true → result ≡ Err Refusal.DeviceFailed }
        ensures numbers { NumbersStay self.old self.new }
        ensures locks { AtPlace (kernel_running self.old) place
            (λ r. AbortsLocks self.old.core self.new.core r result) }
        ensures writes { UndoingWrites LogsNothing (appended (kernel_log self.old)) (appended (kernel_log self.new))
            result }
    {
        let outcome = self.core.undo_step(self.alloc, place);
        self.failed = is_failure(&outcome);
        match outcome? {
            Stepping::Ended(reply) => {
                drop(reply);
                Ok(AbortStepped::More)
            }
            Stepping::Going(going) => Ok(self.going(going)),
        }
    }

    // What a step of an abort answers if its inverse goes on.
    fn going(&self, going: Going) -> AbortStepped
        ensures { IsAbortReportedAs (kernel_running self.now) going result }
    {
        match going {
            Going::Went => AbortStepped::More,
            Going::Wait(holder) => match self.core.owner(holder) {
                Some(other) => AbortStepped::Wait(other),
                None => AbortStepped::Again,
            },
            Going::Again(_) => AbortStepped::Again,
            Going::Flush => AbortStepped::Flush,
        }
    }

    // Begins the next inverse of a transaction that is to be undone and runs nothing, or ends its abort.
    fn undo_next(&mut self, txn: TxnNo) -> Result<AbortStepped, Refusal>
        requires idle { All (λ (r : OpScope). r.txn ≢ txn) (kernel_running self.old) }
        requires aborting { kernel_state self.old txn ≡ Some Aborting }
        ensures steps { StepsAbort self.old txn result self.new }
        ensures marks { self.new.failed ≡ self.old.failed }
        ensures drawn { result ≡ Ok AbortStepped.More → kernel_last self.new ≡ kernel_last self.old + 1 }
        ensures undrawn { result ≢ Ok AbortStepped.More → NumbersStay self.old self.new }
        ensures writes { UndoingWrites (LogsEnd txn) (appended (kernel_log self.old)) (appended (kernel_log self.new))
            result }
        ensures store { result ≡ Ok AbortStepped.More → kernel_store self.new ≡ kernel_store self.old }
        ensures locks { kernel_page_locks self.new ≡ kernel_page_locks self.old }
        ensures device { kernel_device self.new ≡ kernel_device self.old }
        ensures goes { IfOk result (λ stepped. (stepped ≡ AbortStepped.More) ⊎ (stepped ≡ AbortStepped.Ended)) }
    {
        if self.core.undo_begin(self.alloc, txn)? {
            return Ok(AbortStepped::More);
        }
        self.core.abort_end(txn)?;
        Ok(AbortStepped::Ended)
    }

    /// Makes one step of an abort. The operation under way, if there is one, is taken back first, a page a step. Then
    /// each operation that did anything is undone by its inverse, the last one first (Weikum 1991), a step of the
    /// inverse a step. Then the end is logged, and the transaction lives no more. A step waits, or begins anew, only
    /// for another transaction that lives. It locks no page but one that the plan of an inverse asks for next, and
    /// gives no other operation's page locks back. It makes no record of the log durable.
    ///
    /// How many steps: each that answers [`AbortStepped::More`] lowers what the abort has left, and the end comes
    /// only if nothing is left. [`AbortStepped::Again`] adds two steps a page at most.
    ///
    /// Refused, in this order: 2 if the device has failed, 15 if the transaction is not being undone, 1 for
    /// want of memory. It is refused with 2, too, if the device fails in this step, so no fault is passed over. The
    /// step may be asked again after 1.
    pub fn abort_step(&mut self, txn: TxnNo) -> Result<AbortStepped, Refusal>
        ensures may { OnOk result (kernel_abort_cause self.old txn ≡ None) }
        ensures early { IsRefusedAtOnce (kernel_abort_cause self.old txn) self.old result self.new }
        ensures cause { IfErr result (λ why. why ≢ Refusal.NoMemory
            → (kernel_abort_cause self.old txn ≡ Some why)
            ⊎ IsKernelFault self.old self.new why) }
        ensures moves { MovesAbort (seen_of self.old) txn result (seen_of self.new) }
        ensures leaves { LeavesAbort (seen_of self.old) txn result (seen_of self.new) }
        ensures fails { FailsForGood self.old result self.new }
        ensures quiet { HidesNoFault self.old result self.new }
        ensures schema { SameSchema self.old self.new }
        ensures restarts { StaysRestarting self.old self.new }
        ensures moments { LeavesFound self.old self.new }
        ensures reads { ReadsDevice self.old self.new }
        ensures aborted { (first : Base) (s : State) → Shows first s self.old
            → HasAborted first s txn result self.new }
    {
        if let Some(why) = self.abort_cause(txn) {
            return Err(why);
        }
        let Some(place) = self.core.place_of(txn) else {
            return self.undo_next(txn);
        };
        if self.core.is_inverse(place) {
            self.undo_step(txn, place)
        } else {
            self.take_back(txn, place)
        }
    }
}
