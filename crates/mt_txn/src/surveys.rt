// What the pages of a kernel come to while no transaction is active: a base and some figures. No page changes.
ghost use Rattle.std.specs.Prelude.{◌≡◌, ◌≢◌, ◌⊎◌, IfOk, IfErr, Some};
ghost use Rattle.mt_base.specs.declared.refusal.Refusal.{Refusal};
ghost use Rattle.mt_live.specs.Machine.{State};
ghost use Rattle.mt_model.specs.Model.{Base};
ghost use Rattle.mt_txn.specs.Causes.{IsRefusedAtOnce};
ghost use Rattle.mt_txn.specs.Shown.{FailsForGood, HidesNoFault, SameSchema, Shows, Stays, StaysRestarting};
ghost use Rattle.mt_txn.specs.Surveyed.{ReadsPages, SurveysBase, SurveysPages};
ghost use Rattle.mt_txn.specs.Shown.{LeavesFound};
ghost use Rattle.mt_txn.specs.Words.{kernel_survey_cause, IsKernelFault};

use crate::kernel::{Kernel, is_failure};
use mt_base::Refusal;
use mt_disk::Device;
use mt_op::Survey;

impl<D: Device> Kernel<D> {
    /// Answers what the pages come to while no transaction is active. That is the depth of the index's directory, how
    /// many pages are free, and the base, row by row, read from their bytes. So the base that [`Kernel::step`] acts
    /// on is the one that the pages hold. It reads each page of records once, writes nothing, and needs no free
    /// frame.
    ///
    /// Refused, in this order: 2 if the device has failed, 16 if a transaction lives. Then 1 for want of memory
    /// and 2 if the device fails in this call, so no fault is passed over. The state is as before in any case.
    pub fn survey(&mut self) -> Result<Survey, Refusal>
        ensures early { IsRefusedAtOnce (kernel_survey_cause self.old) self.old result self.new }
        ensures cause { IfErr result (λ why. why ≢ Refusal.NoMemory
            → (kernel_survey_cause self.old ≡ Some why)
            ⊎ IsKernelFault self.old self.new why) }
        ensures base { (first : Base) (s : State) → Shows first s self.old
            → IfOk result (SurveysBase self.old.relations self.old.counters s.base) }
        ensures pages { IfOk result (SurveysPages self.old) }
        ensures state { Stays self.old self.new }
        ensures reads { ReadsPages self.old self.new }
        ensures schema { SameSchema self.old self.new }
        ensures restarts { StaysRestarting self.old self.new }
        ensures moments { LeavesFound self.old self.new }
        ensures fails { FailsForGood self.old result self.new }
        ensures quiet { HidesNoFault self.old result self.new }
    {
        if self.has_failed() {
            return Err(Refusal::DeviceFailed);
        }
        if self.core.live().count() != 0 {
            return Err(Refusal::Busy);
        }
        let outcome = self.core.survey(self.alloc);
        self.failed = is_failure(&outcome);
        outcome
    }
}
