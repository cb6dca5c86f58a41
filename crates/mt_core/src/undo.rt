// The inverse of a transaction's last effect begins, and an abort ends of which nothing is left to undo.
// The steps between are made in `steps`. An operation that is unfinished is taken back before, in `drops`.
ghost use Rattle.std.specs.Prelude.{ℕ, ◌≡◌, ◌≢◌, ◌<◌, ◌≤◌, ◌+◌, true, false, All, None, Some, Ok, is_some, IfErr, OnOk, OnErr};
ghost use Rattle.mt_live.specs.Lives.{has_room, member_of, IsChanged};
ghost use Rattle.mt_live.specs.Machine.{gone, settled};
ghost use Rattle.mt_live.specs.Members.{with_room};
ghost use Rattle.mt_live.specs.Undoing.{after_first, last_effect};
ghost use Rattle.mt_model.specs.Model.{Base};
ghost use Rattle.mt_live.specs.declared.transactions.TxnState.TheVariants.{Open, Returning, Aborting};
ghost use Rattle.mt_core.specs.Answered.{BeginsInverse, EndsAbort, KeepsAtAbort, KeepsToReturn, KeepsToUndo, NoneAfter};
ghost use Rattle.mt_core.specs.Consistent.{IsSound, SameStates, SetsState, StaysIn, state_in, Origin, state_of, IsConsistent, IsIn};
ghost use Rattle.mt_core.specs.Restartable.{StaysRestartable};
ghost use Rattle.mt_core.specs.Runs.{count_in, did_after, is_working, is_undoing};
ghost use Rattle.mt_core.specs.Seen.{core_log};
ghost use Rattle.mt_core.specs.Work.{undo_steps};
ghost use Rattle.mt_log.specs.Words.{appended};
ghost use Rattle.mt_op.specs.declared.scope.OpScope.{OpScope};

use crate::parts::Core;
use mt_base::limits::{OPERATION_LOG_BYTES, TRANSACTION_LOG_BYTES};
use mt_base::{OpNo, Refusal, TxnNo};
use mt_disk::Device;
use mt_frame::Record;
use mt_inverse::inverse_of;
use mt_live::TxnState;
use std::alloc::Global;

impl<D: Device> Core<D> {
    // Begins the inverse of the last operation that did something, of a transaction that goes back and runs nothing. If
    // it goes on after that, there is room to note its end.
    fn inverse_begin(&mut self, alloc: Global, txn: TxnNo) -> Result<bool, Refusal>
        requires safe { IsSound D.Device self.old }
        requires backwards { is_undoing (state_in self.old.live.members txn) ≡ true }
        requires noted { (first : ℕ) → state_in self.old.live.members txn ≡ Some (Returning first)
            → (has_room (member_of self.old.live.members txn) ≡ true)
            × (did_after first (member_of self.old.live.members txn) ≡ true) }
        requires idle { All (λ (r : OpScope). r.txn ≢ txn) self.old.running.items }
        ensures state { StaysIn D.Device self.old self.new }
        ensures nothing { result ≡ Ok false → last_effect txn self.old.live.standing ≡ None }
        ensures begins { BeginsInverse self.old self.new txn result }
        ensures keeps { KeepsToUndo self.old self.new txn }
        ensures only_memory { IfErr result (λ why. why ≡ Refusal.NoMemory) }
        ensures restartable { StaysRestartable D.Device self.old self.new }
    {
        let Some(last) = self.live.last_to_undo(txn) else {
            return Ok(false);
        };
        let Some(inverse) = inverse_of(last.op, last.reply)? else {
            return Ok(false);
        };
        let undoes = last.number.get();
        self.running.reserve(1)?;
        let number = self.last + 1;
        match self
            .operations
            .begin_op(alloc, txn, OpNo::new(number), inverse, undoes, false)
        {
            Ok(scope) => {
                self.last = number;
                self.reserved -= OPERATION_LOG_BYTES;
                self.running.push_reserved(scope);
                Ok(true)
            }
            Err((why, _inverse)) => Err(why),
        }
    }

    /// Begins the inverse of the last operation that did something, of a transaction that is to be undone and runs
    /// nothing (Weikum 1991). Answers `false` if there is none. It runs on the pages and the log bytes that were
    /// kept for it, under the locks that its transaction holds, and splits no bucket.
    ///
    /// Refused with 1 for want of memory; nothing has begun then.
    pub fn undo_begin(&mut self, alloc: Global, txn: TxnNo) -> Result<bool, Refusal>
        requires safe { IsSound D.Device self.old }
        requires aborting { state_in self.old.live.members txn ≡ Some Aborting }
        requires idle { All (λ (r : OpScope). r.txn ≢ txn) self.old.running.items }
        ensures state { StaysIn D.Device self.old self.new }
        ensures nothing { result ≡ Ok false → last_effect txn self.old.live.standing ≡ None }
        ensures begins { BeginsInverse self.old self.new txn result }
        ensures keeps { KeepsToUndo self.old self.new txn }
        ensures only_memory { IfErr result (λ why. why ≡ Refusal.NoMemory) }
        ensures restartable { StaysRestartable D.Device self.old self.new }
    {
        self.inverse_begin(alloc, txn)
    }

    /// Begins the inverse of the last operation after the first so many, of a transaction that goes back to these and
    /// runs nothing, if an operation after them did something. Answers `false` if none did. It runs on what was kept
    /// for it, as one of an abort does.
    ///
    /// Refused with 1 for want of memory; nothing has begun then.
    pub fn return_next(&mut self, alloc: Global, txn: TxnNo, first: u16) -> Result<bool, Refusal>
        requires safe { IsSound D.Device self.old }
        requires returning { state_in self.old.live.members txn ≡ Some (Returning first) }
        requires idle { All (λ (r : OpScope). r.txn ≢ txn) self.old.running.items }
        ensures state { StaysIn D.Device self.old self.new }
        ensures after { result ≡ Ok true
            → is_some (last_effect txn (after_first txn first self.old.live.standing)) ≡ true }
        ensures needed { OnErr result
            (is_some (last_effect txn (after_first txn first self.old.live.standing)) ≡ true) }
        ensures nothing { result ≡ Ok false → NoneAfter self.old txn first }
        ensures begins { BeginsInverse self.old self.new txn result }
        ensures keeps { KeepsToReturn self.old self.new txn }
        ensures only_memory { IfErr result (λ why. why ≡ Refusal.NoMemory) }
        ensures restartable { StaysRestartable D.Device self.old self.new }
    {
        if !self.live.has_effect_after(txn, usize::from(first)) {
            return Ok(false);
        }
        self.make_room(txn)?;
        self.inverse_begin(alloc, txn)
    }

    // Makes room for one more end of a transaction at work.
    fn make_room(&mut self, txn: TxnNo) -> Result<(), Refusal>
        requires safe { IsSound D.Device self.old }
        requires at_work { is_working (member_of self.old.live.members txn) ≡ true }
        ensures state { StaysIn D.Device self.old self.new }
        ensures member { OnOk result (IsChanged self.old.live.members self.new.live.members txn with_room) }
        ensures rest { self.new ≡ record self.old { live = self.new.live } }
        ensures states { SameStates self.old self.new }
        ensures standing { self.new.live.standing ≡ self.old.live.standing }
        ensures only_memory { IfErr result (λ why. why ≡ Refusal.NoMemory) }
        ensures err { OnErr result (self.new ≡ self.old) }
        ensures restartable { StaysRestartable D.Device self.old self.new }
    {
        self.live.room(txn)?;
        Ok(())
    }

    /// A transaction is back where its first so many operations had ended, since none after them is left to undo: they
    /// are those that count, and it is open. It takes no memory.
    pub fn return_end(&mut self, txn: TxnNo, first: u16)
        requires safe { IsSound D.Device self.old }
        requires returning { state_in self.old.live.members txn ≡ Some (Returning first) }
        requires idle { All (λ (r : OpScope). r.txn ≢ txn) self.old.running.items }
        requires nothing { NoneAfter self.old txn first }
        ensures settled { (origin : Origin) (base : Base) → IsConsistent D.Device origin base self.old
            → IsIn D.Device origin base (settled (state_of self.old base) txn first) self.new }
        ensures count { count_in self.new.live.members txn ≡ Some first }
        ensures opened { SetsState self.old self.new txn (Some Open) }
        ensures rest { self.new ≡ record self.old { live = self.new.live } }
        ensures left { undo_steps self.new txn ≤ undo_steps self.old txn }
        ensures restartable { StaysRestartable D.Device self.old self.new }
    {
        self.live.settle(txn, usize::from(first));
        self.live.set_state(txn, TxnState::Open);
    }

    /// Ends an abort of which nothing is left to undo: its end is appended, the transaction is gone with its locks,
    /// and leaves no trace.
    ///
    /// Refused with 1 for want of memory; the transaction lives then.
    pub fn abort_end(&mut self, txn: TxnNo) -> Result<(), Refusal>
        requires safe { IsSound D.Device self.old }
        requires at_work { is_working (member_of self.old.live.members txn) ≡ true }
        requires idle { All (λ (r : OpScope). r.txn ≢ txn) self.old.running.items }
        requires nothing { last_effect txn self.old.live.standing ≡ None }
        ensures gone { (origin : Origin) (base : Base) → IsConsistent D.Device origin base self.old
            → OnOk result (IsIn D.Device origin base (gone (state_of self.old base) txn) self.new) }
        ensures ends { OnOk result (EndsAbort self.old self.new txn) }
        ensures keeps { KeepsAtAbort self.old self.new txn }
        ensures err_states { OnErr result (SameStates self.old self.new) }
        ensures err_left { OnErr result (undo_steps self.new txn ≤ undo_steps self.old txn) }
        ensures unappended { OnErr result (appended (core_log self.new) ≡ appended (core_log self.old)) }
        ensures err { (origin : Origin) (base : Base) → IsConsistent D.Device origin base self.old
            → OnErr result (IsIn D.Device origin base (state_of self.old base) self.new) }
        ensures only_memory { IfErr result (λ why. why ≡ Refusal.NoMemory) }
        ensures restartable { StaysRestartable D.Device self.old self.new }
    {
        self.operations.append(Record::AbortEnd { txn })?;
        self.live.leave(txn);
        self.locks.release(txn);
        self.escrow.leave(txn);
        self.reserved -= TRANSACTION_LOG_BYTES;
        Ok(())
    }
}
