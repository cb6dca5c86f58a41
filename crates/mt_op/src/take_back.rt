// Taking an unfinished operation back, a page a step, and the end of its locks.
// Its log keeps the records of what it wrote; a record that it was taken back comes after them.
ghost use Rattle.std.specs.Prelude.{◌≡◌, ◌≢◌, ◌⊎◌, ◌<◌, ◌+◌, ◌-◌, ℕ, List, length, get_or, OnOk, Ok, Some, IsSome};
ghost use Rattle.mt_base.specs.declared.limits.TheConstants.{PAGE_BYTES};
ghost use Rattle.mt_plock.specs.Releasing.{locks_of, locks_without};
ghost use Rattle.mt_pool.specs.Views.{IsThere, waits_for, pages};
ghost use Rattle.mt_space.specs.declared.changes.PageChange.{PageChange};
ghost use Rattle.mt_log.specs.Words.{used, area_size};
ghost use Rattle.mt_space.specs.Changes.{PageBytes};
ghost use Rattle.mt_pool.specs.Kept.{HasOpening};
ghost use Rattle.mt_op.specs.World.{IsUnderWay, changes_in, held_in, looked};
ghost use Rattle.mt_op.specs.Operations.{world, IsRight, IsOneOf, HasBudget, claimed};
ghost use Rattle.mt_op.specs.declared.scope.Stage.TheVariants.{Planning, Writing, Ready, Taking, Cleared};
ghost use Rattle.mt_op.specs.Stepping.{PutsOneBack, Releases, ReturnsPage, TakesStepBack};
ghost use Rattle.mt_op.specs.declared.answers.TakenBack.TheVariants as taken;

use crate::answers::TakenBack;
use crate::operations::Operations;
use crate::scope::{OpScope, Stage};
use mt_base::{PageNo, Refusal};
use mt_disk::Device;
use mt_frame::Record;
use mt_model::Op;
use mt_space::Pages;

impl<D: Device> Operations<D> {
    /// Takes the operation back a step: the page that it wrote last, of those that still stand, gets its bytes
    /// from before the operation. Before the last of them is put back, the record of the
    /// taking back is appended; if nothing was written there is none. The pages held stay throughout, and so do the
    /// claims on free pages: [`Operations::give_back`] gives those of the operation back.
    ///
    /// How many steps: each that answers [`TakenBack::More`] leaves a page less that stands, of eight at most.
    ///
    /// [`TakenBack::Flush`] and the refusals change nothing: [`Refusal::NoMemory`], if the record cannot be
    /// appended, and, if and only if the device failed in this call, [`Refusal::DeviceFailed`].
    pub fn take_back(&mut self, scope: &mut OpScope) -> Result<TakenBack, Refusal>
        requires right { IsOneOf D.Device self.old scope.old }
        requires stage { (scope.old.stage ≡ Planning) ⊎ ((scope.old.stage ≡ Writing) ⊎ (scope.old.stage ≡ Taking)) }
        requires budget { HasBudget scope.old }
        requires room { used self.old.store.log + scope.old.left < area_size self.old.store.log }
        ensures back { TakesStepBack D.Device self.old self.new scope.old scope.new result }
    {
        if scope.standing == 0 {
            scope.stage = Stage::Cleared;
            return Ok(TakenBack::Clear);
        }
        let page = scope.changes.list[scope.standing - 1].page;
        if !self.bring(page)? {
            return Ok(TakenBack::Flush);
        }
        self.put_last_back(scope, page)
    }

    // Puts the last page back that still stands, which is in a frame.
    fn put_last_back(&mut self, scope: &mut OpScope, page: PageNo) -> Result<TakenBack, Refusal>
        requires right { IsOneOf D.Device self.old scope.old }
        requires stage { (scope.old.stage ≡ Writing) ⊎ (scope.old.stage ≡ Taking) }
        requires some { 0 < scope.old.standing }
        requires page { (c : PageChange) × (c ≡ get_or (changes_in scope.old) (scope.old.standing - 1) c)
            × (c.page ≡ page) }
        requires there { IsThere self.old.store.pool page }
        requires budget { HasBudget scope.old }
        requires room { used self.old.store.log + scope.old.left < area_size self.old.store.log }
        ensures { PutsOneBack D.Device self.old self.new scope.old scope.new result }
    {
        if scope.standing == 1 {
            return self.clear(scope, page);
        }
        self.put_back(scope, page);
        scope.standing -= 1;
        scope.stage = Stage::Taking;
        Ok(TakenBack::More)
    }

    // Puts a page back as the operation looked at it. It is in a frame, and has a record.
    fn put_back(&mut self, scope: &OpScope, page: PageNo)
        requires kept { HasOpening D.Device self.old.store }
        requires looked { IsSome (looked scope.now page) }
        requires whole { (p : ℕ) (bytes : List ℕ) → looked scope.now p ≡ Some bytes → length bytes ≡ PAGE_BYTES }
        requires inside { page < pages self.old.store.pool }
        requires there { IsThere self.old.store.pool page }
        requires logged { 0 < waits_for self.old.store.pool page }
        ensures { ReturnsPage D.Device self.old self.new scope.now page }
    {
        match scope.seen.page(page) {
            Some(before) => self.store.restore(page, 0, before),
            None => unreachable!(),
        }
    }

    // Appends the record that the operation was taken back, and puts its last page back, which is in a frame.
    fn clear(&mut self, scope: &mut OpScope, page: PageNo) -> Result<TakenBack, Refusal>
        requires right { IsOneOf D.Device self.old scope.old }
        requires stage { (scope.old.stage ≡ Writing) ⊎ (scope.old.stage ≡ Taking) }
        requires last { scope.old.standing ≡ 1 }
        requires page { (c : PageChange) × (c ≡ get_or (changes_in scope.old) (scope.old.standing - 1) c)
            × (c.page ≡ page) }
        requires there { IsThere self.old.store.pool page }
        requires budget { HasBudget scope.old }
        requires room { used self.old.store.log + scope.old.left < area_size self.old.store.log }
        ensures cleared { OnOk result (result ≡ Ok taken.Clear) }
        ensures back { PutsOneBack D.Device self.old self.new scope.old scope.new result }
    {
        let before = self.store.log.used();
        self.append_record(Record::OpDropped {
            txn: scope.txn,
            op: scope.number,
        })?;
        self.put_back(scope, page);
        scope.left = scope.left + before - self.store.log.used();
        scope.standing = 0;
        scope.stage = Stage::Cleared;
        Ok(TakenBack::Clear)
    }

    /// Ends an operation that is ready, and gives it back: its locks go. It takes no memory.
    pub fn end(&mut self, scope: OpScope) -> Op
        requires ready { scope.stage ≡ Ready }
        requires right { IsOneOf D.Device self.old scope }
        ensures right { (opening : PageBytes) (relations counters : ℕ)
            → IsRight D.Device opening relations counters self.old
            → IsUnderWay relations counters (world D.Device opening self.old) scope
            → IsRight D.Device opening relations counters self.new }
        ensures held { (opening : PageBytes) → held_in (world D.Device opening self.new) ≡ held_in
            (world D.Device opening self.old) }
        ensures others { (opening : PageBytes) (relations counters : ℕ) (u : OpScope)
            → IsUnderWay relations counters (world D.Device opening self.old) u → u.number ≢ scope.number
            → IsUnderWay relations counters (world D.Device opening self.new) u }
        ensures locks { self.new.locks ≡ locks_without scope.number self.old.locks }
        ensures store { self.new.store ≡ self.old.store }
        ensures claimed { claimed self.new ≡ claimed self.old }
        ensures op { result ≡ scope.op }
    {
        self.release(scope) // its end is in the log
    }

    /// Drops an operation out that was taken back, and gives it back: its locks go, and nothing of it is left. It
    /// takes no memory.
    pub fn drop_out(&mut self, scope: OpScope) -> Op
        requires cleared { scope.stage ≡ Cleared }
        requires right { IsOneOf D.Device self.old scope }
        ensures right { (opening : PageBytes) (relations counters : ℕ)
            → IsRight D.Device opening relations counters self.old
            → IsUnderWay relations counters (world D.Device opening self.old) scope
            → IsRight D.Device opening relations counters self.new }
        ensures held { (opening : PageBytes) → held_in (world D.Device opening self.new) ≡ held_in
            (world D.Device opening self.old) }
        ensures others { (opening : PageBytes) (relations counters : ℕ) (u : OpScope)
            → IsUnderWay relations counters (world D.Device opening self.old) u → u.number ≢ scope.number
            → IsUnderWay relations counters (world D.Device opening self.new) u }
        ensures locks { self.new.locks ≡ locks_without scope.number self.old.locks }
        ensures store { self.new.store ≡ self.old.store }
        ensures claimed { claimed self.new ≡ claimed self.old }
        ensures op { result ≡ scope.op }
    {
        self.release(scope) // nothing else of it is left
    }

    // Gives the operation's locks back, and takes it out of its scope. The memory of its copies is kept for those of
    // others.
    fn release(&mut self, scope: OpScope) -> Op
        requires locks { locks_of scope.number self.old.locks ≡ scope.guards.items }
        ensures released { Releases D.Device self.old self.new scope }
        ensures op { result ≡ scope.op }
    {
        let (op, guards, seen) = scope.into_parts();
        self.locks.release_all(guards);
        self.spare.keep(seen);
        op
    }
}
