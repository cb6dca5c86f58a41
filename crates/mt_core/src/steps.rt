// Steps of operations that go forward, and of inverses. mt_op makes the step; this notes in the core what has ended.
// A step writes no page into its slot: if it lacks a frame it answers `Flush`, and who calls flushes and asks again.
ghost use Rattle.std.specs.Prelude.{◌≡◌, ◌≢◌, ◌⊎◌, ◌<◌, IfErr, IfOk, length};
ghost use Rattle.mt_model.specs.Model.{Base};
ghost use Rattle.mt_op.specs.declared.scope.Stage.TheVariants.{Planning, Writing};
ghost use Rattle.mt_core.specs.Answered.{StepsAtPlace};
ghost use Rattle.mt_core.specs.Advancing.{IsAdvanced};
ghost use Rattle.mt_core.specs.Consistent.{IsSound, AtPlace, Origin, IsConsistent};
ghost use Rattle.mt_pool.specs.Views.{pages};
ghost use Rattle.mt_core.specs.Work.{LowersUndo, undo_steps};
ghost use Rattle.mt_core.specs.Restartable.{StaysRestartable};
ghost use Rattle.mt_core.specs.Steps.{Steps, UndoSteps};
ghost use Rattle.mt_core.specs.PageLocks.{step_of};
ghost use Rattle.mt_op.specs.declared.answers.Stepped.TheVariants.{Ready};
ghost use Rattle.mt_core.specs.Seen.{core_pool};
ghost use Rattle.mt_op.specs.World.{undoes_of};

use crate::parts::Core;
use mt_base::{OpNo, Refusal};
use mt_disk::Device;
use mt_model::Reply;
use mt_op::Stepped;
use std::alloc::Global;

/// What a step of an operation did that has not ended yet.
#[derive(Clone, Copy, PartialEq, Eq, Debug)]
pub enum Going {
    /// It locked a page and looked at it, or wrote one.
    Went,
    /// Nothing: this operation, the smallest that holds a lock in the way, is larger and is to be waited for.
    Wait(OpNo),
    /// It gave all its page locks back and begins anew, since this operation, the smallest in the way, is smaller.
    Again(OpNo),
    /// Nothing: every frame holds a page that is yet to be flushed.
    Flush,
}

/// What a step of an operation did.
#[derive(Debug, Drop)]
pub enum Stepping {
    /// It goes on.
    Going(Going),
    /// It has ended, with this reply.
    Ended(Reply),
}

// What a step did that goes on; or the two replies of one that is ready, one to note and one to answer.
fn going_of(stepped: Stepped) -> Result<Going, (Reply, Reply)>
    ensures going { IfOk result (λ going. stepped ≡ step_of going) }
    ensures ready { IfErr result (λ replies. stepped ≡ Ready replies.0 replies.1) }
{
    match stepped {
        Stepped::Ready(reply, answer) => Err((reply, answer)),
        Stepped::Went => Ok(Going::Went),
        Stepped::Wait(holder) => Ok(Going::Wait(holder)),
        Stepped::Again(holder) => Ok(Going::Again(holder)),
        Stepped::Flush => Ok(Going::Flush),
    }
}

impl<D: Device> Core<D> {
    // Makes a step of the operation at a place.
    fn advance(&mut self, alloc: Global, place: usize) -> Result<Stepped, Refusal>
        requires safe { IsSound D.Device self.old }
        requires within { place < length self.old.running.items }
        requires stage { AtPlace self.old.running.items place (λ r. (r.stage ≡ Planning) ⊎ (r.stage
            ≡ Writing)) }
        ensures { IsAdvanced D.Device self.old self.new place result }
    {
        self.operations.step(alloc, &mut self.running[place])
    }

    /// Makes a step of an operation that is no inverse, at a place of those under way. If it ends it has acted
    /// once on the base that the pages hold, and stands after all others with the model's reply. Else it leaves that
    /// base. It waits, or begins anew, only for an operation of another transaction.
    ///
    /// Refused with 1 for want of memory, and with 2 if the device fails in this call; the base is as before.
    pub fn step(&mut self, alloc: Global, place: usize) -> Result<Stepping, Refusal>
        requires safe { IsSound D.Device self.old }
        requires within { place < length self.old.running.items }
        requires forward { AtPlace self.old.running.items place (λ r. undoes_of r ≡ 0) }
        requires stage { AtPlace self.old.running.items place (λ r. (r.stage ≡ Planning) ⊎ (r.stage
            ≡ Writing)) }
        ensures steps { (origin : Origin) (base : Base) → IsConsistent D.Device origin base self.old
            → Steps D.Device origin base self.old self.new place result }
        ensures stepped { StepsAtPlace D.Device self.old self.new place result }
        ensures restartable { StaysRestartable D.Device self.old self.new }
    {
        let stepped = self.advance(alloc, place)?;
        match going_of(stepped) {
            Ok(going) => Ok(Stepping::Going(going)),
            Err((reply, answer)) => {
                self.note_end(place, reply);
                Ok(Stepping::Ended(answer))
            }
        }
    }

    /// Makes a step of an inverse, at a place of those under way. It may end, with the model's reply on the base. If
    /// its transaction is to be undone, what it takes back stands no more then, nor what the transaction did after
    /// that. Its add, if it is one, is pending no more. If the transaction goes on, both stay: what is taken back
    /// counts no more, and its add is set aside. It waits, or begins anew, only for an operation of another
    /// transaction.
    ///
    /// Refused with 1 for want of memory, and with 2 if the device fails in this call; the base is as before.
    pub fn undo_step(&mut self, alloc: Global, place: usize) -> Result<Stepping, Refusal>
        requires safe { IsSound D.Device self.old }
        requires within { place < length self.old.running.items }
        requires back { AtPlace self.old.running.items place (λ r. undoes_of r ≢ 0) }
        requires stage { AtPlace self.old.running.items place (λ r. (r.stage ≡ Planning) ⊎ (r.stage
            ≡ Writing)) }
        ensures lowers { AtPlace self.old.running.items place (λ r. LowersUndo (pages (core_pool self.old))
            result (undo_steps self.old r.txn) (undo_steps self.new r.txn)) }
        ensures steps { (origin : Origin) (base : Base) → IsConsistent D.Device origin base self.old
            → UndoSteps D.Device origin base self.old self.new place result }
        ensures stepped { StepsAtPlace D.Device self.old self.new place result }
        ensures restartable { StaysRestartable D.Device self.old self.new }
    {
        let stepped = self.advance(alloc, place)?;
        match going_of(stepped) {
            Ok(going) => Ok(Stepping::Going(going)),
            Err((reply, answer)) => {
                self.note_inverse(place, reply);
                Ok(Stepping::Ended(answer))
            }
        }
    }
}
