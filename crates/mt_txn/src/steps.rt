// A step of the operation of an open transaction: its tests, and then the core's step.
// The answer names the transaction that is in the way, if one is.
ghost use Rattle.std.specs.Prelude.{◌≡◌, ◌≢◌, ◌⊎◌, IfErr, OnOk, None, Some};
ghost use Rattle.mt_base.specs.declared.refusal.Refusal.{Refusal};
ghost use Rattle.mt_live.specs.Machine.{State};
ghost use Rattle.mt_model.specs.Model.{Base};
ghost use Rattle.mt_txn.specs.Causes.{IsRefusedAtOnce};
ghost use Rattle.mt_txn.specs.Effects.{LeavesStep, MovesStep};
ghost use Rattle.mt_txn.specs.Work.{IsReportedAs};
ghost use Rattle.mt_txn.specs.Events.{HasStepped};
ghost use Rattle.mt_txn.specs.Seen.{seen_of};
ghost use Rattle.mt_txn.specs.Shown.{FailsForGood, HidesNoFault, SameSchema, Shows, StaysRestarting};
ghost use Rattle.mt_txn.specs.Shown.{LeavesFound, ReadsDevice};
ghost use Rattle.mt_txn.specs.Words.{kernel_running, kernel_step_cause, IsKernelFault};

use crate::answers::Stepped;
use crate::kernel::{Kernel, is_failure};
use mt_base::{Refusal, TxnNo};
use mt_core::{Going, Stepping};
use mt_disk::Device;

impl<D: Device> Kernel<D> {
    /// Makes a step of the operation of an open transaction: it locks a page and looks at it, or writes one, or ends.
    /// If it ends it has acted once on the base that the pages hold, whatever others have half done. It stands
    /// after all that ended before. It waits, or begins anew, only for another transaction that lives: one that is
    /// alone does neither.
    ///
    /// It locks no page but one that its operation's plan asks for next. It waits only for the transaction whose
    /// operation is the smallest with a lock in the way, and larger than its own. If that is smaller, it gives its
    /// own page locks back to begin anew. They are given back at its end, too; other operations' locks stay. It makes
    /// no record of the log durable. It appends the records of one page, or its end, at most. Each other transaction's
    /// operation has as many steps left as before.
    ///
    /// Refused, in this order, with 2 if the device has failed. Then 15 if the transaction is not open or has
    /// no operation under way, and 1 for want of memory. It is refused with 2, too, if the device fails in this
    /// step, so no fault is passed over. The state is as before.
    pub fn step(&mut self, txn: TxnNo) -> Result<Stepped, Refusal>
        ensures may { OnOk result (kernel_step_cause self.old txn ≡ None) }
        ensures early { IsRefusedAtOnce (kernel_step_cause self.old txn) self.old result self.new }
        ensures cause { IfErr result (λ why. why ≢ Refusal.NoMemory
            → (kernel_step_cause self.old txn ≡ Some why)
            ⊎ IsKernelFault self.old self.new why) }
        ensures moves { MovesStep (seen_of self.old) txn result (seen_of self.new) }
        ensures leaves { LeavesStep (seen_of self.old) result (seen_of self.new) }
        ensures fails { FailsForGood self.old result self.new }
        ensures quiet { HidesNoFault self.old result self.new }
        ensures schema { SameSchema self.old self.new }
        ensures restarts { StaysRestarting self.old self.new }
        ensures moments { LeavesFound self.old self.new }
        ensures reads { ReadsDevice self.old self.new }
        ensures stepped { (first : Base) (s : State) → Shows first s self.old
            → HasStepped first s txn result self.new }
    {
        if let Some(why) = self.open_cause(txn) {
            return Err(why);
        }
        let Some(place) = self.core.place_of(txn) else {
            return Err(Refusal::Stranger);
        };
        let outcome = self.core.step(self.alloc, place);
        self.failed = is_failure(&outcome);
        match outcome? {
            Stepping::Ended(reply) => Ok(Stepped::Replied(reply)),
            Stepping::Going(going) => Ok(self.stepped(going)),
        }
    }

    // What a step answers if its operation goes on.
    fn stepped(&self, going: Going) -> Stepped
        ensures { IsReportedAs (kernel_running self.now) going result }
    {
        match going {
            Going::Went => Stepped::Went,
            Going::Wait(holder) => match self.core.owner(holder) {
                Some(other) => Stepped::Wait(other),
                None => Stepped::Again,
            },
            Going::Again(_) => Stepped::Again,
            Going::Flush => Stepped::Flush,
        }
    }
}
