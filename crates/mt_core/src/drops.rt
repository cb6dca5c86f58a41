// An operation that an abort finds unfinished is put back page by page, and then dropped out.
// Its page locks, its claims and its pending add go with it. Its semantic lock stays until the transaction ends.
ghost use Rattle.std.specs.Prelude.{◌≡◌, ◌<◌, Some, length};
ghost use Rattle.mt_model.specs.Model.{Base};
ghost use Rattle.mt_live.specs.declared.transactions.TxnState.TheVariants.{Aborting};
ghost use Rattle.mt_core.specs.Answered.{IsPutBack};
ghost use Rattle.mt_core.specs.Advancing.{DropsOut, IsTakenBack};
ghost use Rattle.mt_core.specs.Consistent.{BacksIn, state_in, IsSound, IsClearedAt, AtPlace, Origin, IsConsistent};
ghost use Rattle.mt_core.specs.Restartable.{StaysRestartable};
ghost use Rattle.mt_op.specs.World.{undoes_of};

use crate::ends::let_go;
use crate::parts::Core;
use mt_base::Refusal;
use mt_disk::Device;
use mt_op::{TakenBack, log_bytes_for};
use mt_steps::{pages_for, pages_to_undo};

impl<D: Device> Core<D> {
    // Makes a step of the taking back of the operation at a place. It is no inverse, and of a transaction that is to
    // be undone. A page that it wrote is put back. At `Clear` nothing of it is left but its page locks and its
    // claims. The base that the pages hold stays.
    fn take_back(&mut self, place: usize) -> Result<TakenBack, Refusal>
        requires safe { IsSound D.Device self.old }
        requires within { place < length self.old.running.items }
        requires aborting { AtPlace self.old.running.items place (λ r. (undoes_of r ≡ 0)
            × (state_in self.old.live.members r.txn ≡ Some Aborting)) }
        ensures { IsTakenBack D.Device self.old self.new place result }
    {
        self.operations.take_back(&mut self.running[place])
    }

    // Drops an operation out that was taken back and is no inverse. Its page locks go, and so does what was kept for
    // it and for its inverse. Its add, if it is one, is pending no more. It takes no memory.
    fn drop_out(&mut self, place: usize)
        requires cleared { ∥ ((origin : Origin) × (base : Base)
            × IsClearedAt D.Device origin base self.old place) ∥₁ }
        requires within { place < length self.old.running.items }
        requires forward { AtPlace self.old.running.items place (λ r. undoes_of r ≡ 0) }
        ensures { DropsOut D.Device self.old self.new place }
    {
        let scope = self.running.remove(place);
        let txn = scope.txn();
        let pages = pages_for(scope.op(), scope.split()) + pages_to_undo(scope.op());
        let op = self.operations.drop_out(scope);
        self.operations.give_back(pages);
        self.reserved -= log_bytes_for(&op);
        let_go(&mut self.escrow, txn, &op);
    }

    /// Makes a step of the taking back of an operation at a place. It is no inverse, and of a transaction that is to
    /// be undone. A page that it wrote is put back. At `Clear` it is dropped out. Its page locks go, and so does what
    /// was kept for it and for its inverse. Its add, if it is one, is pending no more. The base that the pages
    /// hold stays.
    ///
    /// Refused with 1 for want of memory, and with 2 if the device has failed. The state is as before then, though
    /// frames may hold other pages.
    pub fn take_back_step(&mut self, place: usize) -> Result<TakenBack, Refusal>
        requires safe { IsSound D.Device self.old }
        requires within { place < length self.old.running.items }
        requires aborting { AtPlace self.old.running.items place (λ r. (undoes_of r ≡ 0)
            × (state_in self.old.live.members r.txn ≡ Some Aborting)) }
        ensures back { (origin : Origin) (base : Base) → IsConsistent D.Device origin base self.old
            → BacksIn D.Device origin base self.old self.new place result }
        ensures put { IsPutBack D.Device self.old self.new place result }
        ensures restartable { StaysRestartable D.Device self.old self.new }
    {
        match self.take_back(place)? {
            TakenBack::Clear => {
                self.drop_out(place);
                Ok(TakenBack::Clear)
            }
            TakenBack::More => Ok(TakenBack::More),
            TakenBack::Flush => Ok(TakenBack::Flush),
        }
    }
}
