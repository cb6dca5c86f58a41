// Commits, the steps that make them durable, and flushes.
ghost use Rattle.std.specs.Prelude.{◌≡◌, ◌≢◌, ◌+◌, length, Err, IfOk, IfErr, IsOk, OnOk, None, Some, false};
ghost use Rattle.mt_base.specs.declared.refusal.Refusal.{Refusal};
ghost use Rattle.mt_live.specs.Machine.{State};
ghost use Rattle.mt_model.specs.Model.{Base};
ghost use Rattle.mt_core.specs.Consistent.{OnlyOperations};
ghost use Rattle.mt_core.specs.Answered.{KeepsAtCommit};
ghost use Rattle.mt_txn.specs.Causes.{IsRefusedAtOnce};
ghost use Rattle.mt_txn.specs.Effects.{FlushesPage, KeepsAtForce, LogsCommit};
ghost use Rattle.mt_txn.specs.Events.{HasForced, IsForcedBy};
ghost use Rattle.mt_txn.specs.Seen.{seen_of};
ghost use Rattle.mt_txn.specs.Shown.{FailsForGood, HidesNoFault, SameSchema, Shows, Stays, StaysRestarting, is_failed, kernel_log};
ghost use Rattle.mt_txn.specs.Shown.{CallsOnce, LeavesFound};
ghost use Rattle.mt_txn.specs.Words.{kernel_book, kernel_commits, kernel_commit_cause, IsKernelFailure, UndoStays};

use crate::answers::KernelForced;
use crate::kernel::{Kernel, is_failure};
use mt_base::{Refusal, TxnNo};
use mt_disk::Device;
use mt_log::Forced;
use mt_pool::Flushed;

impl<D: Device> Kernel<D> {
    /// Begins the commit of an open transaction: its Commit is appended, and the force steps that follow make it
    /// durable. Until then the transaction lives with its locks, and nothing else can be asked of it. Answers its
    /// place in this opening's order of commits, from 1. It makes no call of the device.
    ///
    /// Refused, in this order: 2 if the device has failed, 15 if the transaction is not open, 16 if an
    /// operation of it is unfinished. Then 1 for want of memory. The state is as before.
    pub fn commit_begin(&mut self, txn: TxnNo) -> Result<u64, Refusal>
        ensures may { OnOk result (kernel_commit_cause self.old txn ≡ None) }
        ensures early { IsRefusedAtOnce (kernel_commit_cause self.old txn) self.old result self.new }
        ensures cause { IfErr result (λ why. why ≢ Refusal.NoMemory
            → kernel_commit_cause self.old txn ≡ Some why) }
        ensures state { Stays self.old self.new }
        ensures place { IfOk result (λ place.
            place ≡ length (kernel_book self.old) + length (kernel_commits self.old) + 1) }
        ensures logs { LogsCommit (seen_of self.old) txn result (seen_of self.new) }
        ensures keeps { KeepsAtCommit self.old.core self.new.core }
        ensures fails { FailsForGood self.old result self.new }
        ensures schema { SameSchema self.old self.new }
        ensures restarts { StaysRestarting self.old self.new }
        ensures moments { LeavesFound self.old self.new }
    {
        if let Some(why) = self.commit_cause(txn) {
            return Err(why);
        }
        let place = self.core.commit_begin(txn)?;
        Ok(place as u64)
    }

    /// Makes a step of a force, with one call of the device, or none if all is durable. What was appended before its
    /// first step becomes durable with its last, which answers the transactions whose commits are durable now. They
    /// are in the book then, in the order of their commits, and are active no more.
    ///
    /// Refused, in this order: 2 if the device has failed, 1 for want of memory, 2 if the device fails in this
    /// call. So no fault is passed over. The state is as before.
    pub fn force_step(&mut self) -> Result<KernelForced, Refusal>
        ensures cause { IfErr result (λ why. why ≢ Refusal.NoMemory
            → IsKernelFailure self.old self.new why) }
        ensures log { IfOk result (λ forced. IsForcedBy (kernel_log self.old)
            (kernel_commits self.old) forced (kernel_log self.new) (kernel_commits self.new)) }
        ensures fails { FailsForGood self.old result self.new }
        ensures well { IsOk result → is_failed self.new ≡ false }
        ensures keeps { KeepsAtForce (seen_of self.old) result (seen_of self.new) }
        ensures memory { result ≡ Err Refusal.NoMemory → self.new ≡ self.old }
        ensures quiet { HidesNoFault self.old result self.new }
        ensures forced { (first : Base) (s : State) → Shows first s self.old
            → HasForced first s result self.new }
        ensures schema { SameSchema self.old self.new }
        ensures restarts { StaysRestarting self.old self.new }
        ensures moments { LeavesFound self.old self.new }
        ensures once { CallsOnce self.old self.new }
    {
        if self.has_failed() {
            return Err(Refusal::DeviceFailed);
        }
        let mut names = Vec::with_capacity(self.alloc, self.core.count_commits())?;
        let outcome = self.core.force_step();
        self.failed = is_failure(&outcome);
        match outcome? {
            Forced::More => Ok(KernelForced::More),
            Forced::Idle => Ok(KernelForced::Idle),
            Forced::Durable(place) => {
                self.core.leave_durable(place, &mut names);
                Ok(KernelForced::Durable(names))
            }
        }
    }

    /// Writes a page into its slot, if one waits for no record that is not durable. Else it answers
    /// [`Flushed::Force`] if a force step has to come first, and [`Flushed::Clean`] if no page is to be
    /// written.
    ///
    /// Refused with 2 if the device has failed or fails in this call, so no fault is passed over. The state is as
    /// before.
    pub fn flush_step(&mut self) -> Result<Flushed, Refusal>
        ensures cause { IfErr result (IsKernelFailure self.old self.new) }
        ensures flushes { FlushesPage (seen_of self.old) result (seen_of self.new) }
        ensures rest { OnlyOperations self.old.core self.new.core }
        ensures log { kernel_log self.new ≡ kernel_log self.old }
        ensures undo { UndoStays self.old self.new }
        ensures fails { FailsForGood self.old result self.new }
        ensures quiet { HidesNoFault self.old result self.new }
        ensures state { Stays self.old self.new }
        ensures schema { SameSchema self.old self.new }
        ensures restarts { StaysRestarting self.old self.new }
        ensures moments { LeavesFound self.old self.new }
        ensures once { CallsOnce self.old self.new }
    {
        if self.has_failed() {
            return Err(Refusal::DeviceFailed);
        }
        let outcome = self.core.flush_step();
        self.failed = outcome.is_err();
        match outcome {
            Ok(flushed) => Ok(flushed),
            Err(_) => Err(Refusal::DeviceFailed),
        }
    }
}
