// Going back to a savepoint: where the first so many operations of a transaction had ended. What it did since is undone
// by inverses, as in an abort, but they and what they take back stay. The transaction goes on after that.
ghost use Rattle.std.specs.Prelude.{ℕ, ◌≡◌, ◌≢◌, ◌⊎◌, ◌+◌, All, IfErr, IfOk, OnOk, OnErr, None, Some, Ok, Err, false, filter, is_some, length, true};
ghost use Rattle.mt_base.specs.declared.refusal.Refusal.{Refusal};
ghost use Rattle.mt_live.specs.Machine.{State};
ghost use Rattle.mt_live.specs.Undoing.{after_first, is_counted, last_effect};
ghost use Rattle.mt_live.specs.declared.transactions.TxnState.TheVariants.{Returning};
ghost use Rattle.mt_model.specs.Model.{Base};
ghost use Rattle.mt_op.specs.declared.scope.OpScope.{OpScope};
ghost use Rattle.mt_txn.specs.Aborted.{StepsReturn};
ghost use Rattle.mt_txn.specs.Causes.{IsRefusedAtOnce, IsSavepoint};
ghost use Rattle.mt_txn.specs.Effects.{BeginsUndoing, LeavesReturn, MovesReturn};
ghost use Rattle.mt_txn.specs.Events.{HasReturned};
ghost use Rattle.mt_txn.specs.Seen.{seen_of};
ghost use Rattle.mt_txn.specs.Shown.{FailsForGood, HidesNoFault, LeavesFound, ReadsDevice, SameSchema, Shows, Stays, StaysRestarting, kernel_page_locks};
ghost use Rattle.mt_txn.specs.Words.{kernel_back_cause, kernel_commit_cause, kernel_count, kernel_is_busy, kernel_last, kernel_return_cause, kernel_running, kernel_state, kernel_store, IsKernelFault, NumbersStay};

use crate::answers::AbortStepped;
use crate::kernel::Kernel;
use mt_base::{Refusal, TxnNo};
use mt_disk::Device;

impl<D: Device> Kernel<D> {
    /// How many operations of an open transaction count: those that have ended and that it did not take back, with
    /// effect or without. [`Kernel::back_begin`] goes back to that number. It names these operations only until the
    /// transaction goes back to a lower one: after that, those called anew count.
    ///
    /// Refused, in this order: 2 if the device has failed, 15 if the transaction is not open, 16 if an operation of it
    /// is unfinished.
    pub fn save(&self, txn: TxnNo) -> Result<u16, Refusal>
        ensures count { IfOk result (λ count. kernel_count self.now txn ≡ Some count) }
        ensures standing { (first : Base) (s : State) → Shows first s self.now
            → IfOk result (λ count. count ≡ length (filter (is_counted txn) s.standing)) }
        ensures may { OnOk result (kernel_commit_cause self.now txn ≡ None) }
        ensures cause { IfErr result (λ why. kernel_commit_cause self.now txn ≡ Some why) }
    {
        if let Some(why) = self.commit_cause(txn) {
            return Err(why);
        }
        Ok(self.core.live().answered(txn) as u16)
    }

    /// Begins to go back to where the first so many operations of an open transaction had ended, of those that count.
    /// Steps bring it there ([`Kernel::back_step`]); until then nothing else but an abort can be asked of it. If nobody
    /// is in the way, over n pages, they are at most 2 n + 10 for each operation that counts, and for one more. It
    /// takes no memory, and makes no call of the device.
    ///
    /// Refused, in this order: 2 if the device has failed, 15 if the transaction is not open, 16 if an operation of it
    /// is unfinished, 19 if fewer of its operations count. Nothing has changed then.
    pub fn back_begin(&mut self, txn: TxnNo, first: u16) -> Result<(), Refusal>
        ensures may { OnOk result (kernel_back_cause self.old txn first ≡ None) }
        ensures cause { IfErr result (λ why. kernel_back_cause self.old txn first ≡ Some why) }
        ensures standing { (base : Base) (s : State) → Shows base s self.old
            → IsSavepoint (length (filter (is_counted txn) s.standing)) first result }
        ensures state { Stays self.old self.new }
        ensures begins { OnOk result (BeginsUndoing (seen_of self.old) txn (Returning first) (seen_of self.new)) }
        ensures fails { FailsForGood self.old result self.new }
        ensures err { OnErr result (self.new ≡ self.old) }
        ensures schema { SameSchema self.old self.new }
        ensures restarts { StaysRestarting self.old self.new }
        ensures moments { LeavesFound self.old self.new }
    {
        if let Some(why) = self.back_cause(txn, first) {
            return Err(why);
        }
        self.core.return_begin(txn, first);
        Ok(())
    }

    // Begins the next inverse of a transaction that goes back and runs nothing, or ends that.
    fn return_next(&mut self, txn: TxnNo, first: u16) -> Result<AbortStepped, Refusal>
        requires idle { All (λ (r : OpScope). r.txn ≢ txn) (kernel_running self.old) }
        requires returning { kernel_state self.old txn ≡ Some (Returning first) }
        ensures steps { StepsReturn self.old txn first result self.new }
        ensures needed { OnErr result
            (is_some (last_effect txn (after_first txn first self.old.core.live.standing)) ≡ true) }
        ensures marks { self.new.failed ≡ self.old.failed }
        ensures drawn { result ≡ Ok AbortStepped.More → kernel_last self.new ≡ kernel_last self.old + 1 }
        ensures undrawn { result ≢ Ok AbortStepped.More → NumbersStay self.old self.new }
        ensures locks { kernel_page_locks self.new ≡ kernel_page_locks self.old }
        ensures store { kernel_store self.new ≡ kernel_store self.old }
        ensures goes { IfOk result (λ stepped. (stepped ≡ AbortStepped.More) ⊎ (stepped ≡ AbortStepped.Ended)) }
    {
        if self.core.return_next(self.alloc, txn, first)? {
            return Ok(AbortStepped::More);
        }
        self.core.return_end(txn, first);
        Ok(AbortStepped::Ended)
    }

    /// Makes one step of going back. Each operation that did anything and came after those to go back to is undone by
    /// its inverse, the last one first (Weikum 1991), a step of the inverse a step. Both stay then, and count no more;
    /// an add is set aside until the transaction ends. Then the transaction is open, with its locks. A step waits, or
    /// begins anew, only for another transaction that lives. It locks no page but one that the plan of an inverse asks
    /// for next, and gives no other operation's page locks back. It makes no record of the log durable.
    ///
    /// How many steps: each that answers [`AbortStepped::More`] lowers what an abort would have left.
    /// [`AbortStepped::Again`] adds two steps a page at most.
    ///
    /// Refused, in this order: 2 if the device has failed, 15 if the transaction does not go back, 1 for want of
    /// memory. It is refused with 2, too, if the device fails in this step, so no fault is passed over. The step may be
    /// asked again after 1.
    pub fn back_step(&mut self, txn: TxnNo) -> Result<AbortStepped, Refusal>
        ensures may { OnOk result (kernel_return_cause self.old txn ≡ None) }
        ensures early { IsRefusedAtOnce (kernel_return_cause self.old txn) self.old result self.new }
        ensures cause { IfErr result (λ why. why ≢ Refusal.NoMemory
            → (kernel_return_cause self.old txn ≡ Some why)
            ⊎ IsKernelFault self.old self.new why) }
        ensures moves { MovesReturn (seen_of self.old) txn result (seen_of self.new) }
        ensures leaves { LeavesReturn (seen_of self.old) txn result (seen_of self.new) }
        // If no operation is under way, it is refused memory only if an operation is left to undo.
        ensures needed { (base : Base) (s : State) (first : ℕ) → Shows base s self.old
            → kernel_state self.old txn ≡ Some (Returning first) → kernel_is_busy self.old txn ≡ false
            → result ≡ Err Refusal.NoMemory → is_some (last_effect txn (after_first txn first s.standing)) ≡ true }
        ensures fails { FailsForGood self.old result self.new }
        ensures quiet { HidesNoFault self.old result self.new }
        ensures schema { SameSchema self.old self.new }
        ensures restarts { StaysRestarting self.old self.new }
        ensures moments { LeavesFound self.old self.new }
        ensures reads { ReadsDevice self.old self.new }
        ensures returned { (base : Base) (s : State) (first : ℕ) → Shows base s self.old
            → kernel_state self.old txn ≡ Some (Returning first)
            → HasReturned base s txn first result self.new }
    {
        let first = self.returning(txn)?;
        let Some(place) = self.core.place_of(txn) else {
            return self.return_next(txn, first);
        };
        self.undo_step(txn, place)
    }
}
