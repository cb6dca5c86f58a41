// The begin of a transaction: its tests, and then the core's begin.
ghost use Rattle.std.specs.Prelude.{◌≡◌, ◌≢◌, ◌+◌, ◌^◌, IfOk, IfErr, OnOk, OnErr, Some};
ghost use Rattle.mt_base.specs.declared.refusal.Refusal.{Refusal};
ghost use Rattle.mt_live.specs.Machine.{State, begun};
ghost use Rattle.mt_model.specs.Model.{Base};
ghost use Rattle.mt_live.specs.declared.transactions.TxnState.TheVariants.{Open};
ghost use Rattle.mt_txn.specs.Causes.{IsRefusedAtOnce};
ghost use Rattle.mt_txn.specs.Shown.{FailsForGood, SameSchema, Shows, StaysRestarting, kernel_device};
ghost use Rattle.mt_txn.specs.Shown.{LeavesFound};
ghost use Rattle.mt_txn.specs.Words.{kernel_begin_cause, StateIsSet, CommitsStay, NumbersStay, RunningStays};

use crate::kernel::Kernel;
use mt_base::limits::{MAX_BEGUN, MAX_COMMITS, MAX_LIVE};
use mt_base::{Refusal, TxnNo};
use mt_disk::Device;

impl<D: Device> Kernel<D> {
    /// Begins a transaction of this session, and answers its number. It keeps the log bytes of its end and logs
    /// nothing. It makes no call of the device.
    ///
    /// Refused, in this order: 2 if the device has failed, 13 if 64 transactions live. Then 12 if the book's
    /// commits and those that live make 1,000,000, or 2^40 were begun. Then 11 if the log has too few bytes left,
    /// and 1 for want of memory. Nothing has changed then.
    pub fn begin(&mut self, session: u32) -> Result<TxnNo, Refusal>
        ensures number { IfOk result (λ txn. txn ≡ self.old.core.live.begun + 1) }
        ensures early { IsRefusedAtOnce (kernel_begin_cause self.old) self.old result self.new }
        ensures cause { IfErr result (λ why. why ≢ Refusal.NoMemory
            → kernel_begin_cause self.old ≡ Some why) }
        ensures begun { (first : Base) (s : State) → Shows first s self.old
            → OnOk result (Shows first (begun s session) self.new) }
        ensures opened { IfOk result (λ txn. StateIsSet self.old self.new txn (Some Open)) }
        ensures running { RunningStays self.old self.new }
        ensures numbers { NumbersStay self.old self.new }
        ensures commits { CommitsStay self.old self.new }
        ensures device { kernel_device self.new ≡ kernel_device self.old }
        ensures err { OnErr result (self.new.core ≡ self.old.core) }
        ensures fails { FailsForGood self.old result self.new }
        ensures schema { SameSchema self.old self.new }
        ensures restarts { StaysRestarting self.old self.new }
        ensures moments { LeavesFound self.old self.new }
    {
        if self.has_failed() {
            return Err(Refusal::DeviceFailed);
        }
        let lives = self.core.live().count();
        if MAX_LIVE <= lives {
            return Err(Refusal::TooManyTransactions);
        }
        if MAX_COMMITS <= self.core.book().len() + lives || MAX_BEGUN <= self.core.live().begun() {
            return Err(Refusal::BookFull);
        }
        self.core.begin(session)
    }
}
