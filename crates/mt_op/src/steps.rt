// The steps of an operation, from its first page lock to its end. After each look the plan is made anew.
// Locks are got in `page_locks`, and pages written in `page_writes`.
ghost use Rattle.std.specs.Prelude.{◌≡◌, ◌⊎◌, ◌<◌, ◌≤◌, ◌+◌, ◌^◌, ℕ, length, All, Contains, [], None, true, MatchOption};
ghost use Rattle.mt_base.specs.declared.limits.TheConstants.{MAX_PAGES, MAX_RELATIONS, MAX_WRITTEN_PAGES};
ghost use Rattle.mt_steps.specs.Asks.{HasSearched};
ghost use Rattle.mt_overlay.specs.Overlays.{AreAtHand};
ghost use Rattle.mt_steps.specs.Logged.{logged_of};
ghost use Rattle.mt_base.specs.declared.modes.Mode.TheVariants.{Write};
ghost use Rattle.mt_model.specs.Model.{IsWithin};
ghost use Rattle.mt_log.specs.Words.{used, area_size};
ghost use Rattle.mt_plock.specs.Holding.{lock_of};
ghost use Rattle.mt_space.specs.Changes.{after, IsUntouched};
ghost use Rattle.mt_steps.specs.Plans.{own_needs, record_bytes, InPages, IsPlanned, TakesPages};
ghost use Rattle.mt_op.specs.World.{looked};
ghost use Rattle.mt_op.specs.Operations.{IsOneOf, IsOneWithin, HasBudget, only_reads, claimed};
ghost use Rattle.mt_op.specs.Holds.{IsAsked, IsUnseen, FindsRoom};
ghost use Rattle.mt_op.specs.Stepping.{GoesAhead, KeepsPlan, LocksPage, MakesStep, PlansOn};
ghost use Rattle.mt_op.specs.declared.scope.Stage.TheVariants.{Planning, Writing};
ghost use Rattle.mt_op.specs.declared.answers.Stepped.TheVariants as stepped;

use crate::answers::Stepped;
use crate::operations::Operations;
use crate::scope::{OpScope, Stage};
use mt_base::{Mode, OpNo, PageNo, Refusal};
use mt_disk::Device;
use mt_index::Search;
use mt_model::{Op, Reply};
use mt_plock::{PageGuard, PageLock, holds};
use mt_space::pages::MAP;
use mt_space::{Changes, Pages};
use mt_steps::{Act, bytes_put, plan_over};
use std::alloc::Global;

impl<D: Device> Operations<D> {
    /// Makes a step of an operation: it locks a page and looks at it, or writes a page with its log records, or
    /// ends. All pages are locked and looked at before the first is written.
    ///
    /// [`Stepped::Wait`], [`Stepped::Flush`] and the refusals change nothing of pages, locks and log. Of the
    /// operation they change nothing but that its plan may be made, if it is not to wait. [`Stepped::Again`] gives
    /// the operation's locks back, so that it begins anew with its number. As many free pages as the operation may
    /// take are to be claimed for it; with its end it has given them back. The refusals are [`Refusal::NoMemory`]
    /// and, if and only if the device failed in this call, [`Refusal::DeviceFailed`].
    ///
    /// A lock is asked for on a page that the plan asks for and that was not looked at. An operation that only reads
    /// asks for it to read it. A row's operation looks for its key first: in the directory, to read it, and in the
    /// key's chain. The plan may ask for the space map, for a record, if no page was tried yet. A page that takes the
    /// record and that nobody has locked is tried first then, to write it. A page that is locked is passed by. The
    /// map itself is asked for then only if each page that takes the record is locked. Or a lock is asked for, to
    /// write it, on a page that the plan changes.
    ///
    /// A record goes into the page of records that was tried first and takes it, or into a free page if none was.
    /// A free page is taken only for such a record, or for its entry if the key's bucket is full. Only a page of
    /// records is given back.
    ///
    /// How many steps: over `n` pages an operation that nobody is in the way of is ready after at most `2 n + 9`
    /// of them. A step that answers [`Stepped::Went`] leaves less to do, [`Stepped::Again`] adds at most `2 n`
    /// steps, and nothing else adds any.
    pub fn step(&mut self, alloc: Global, scope: &mut OpScope) -> Result<Stepped, Refusal>
        requires right { IsOneWithin D.Device self.old scope.old }
        requires claims { own_needs scope.old.op scope.old.split ≤ claimed self.old }
        requires stage { (scope.old.stage ≡ Planning) ⊎ (scope.old.stage ≡ Writing) }
        requires budget { HasBudget scope.old }
        requires room { used self.old.store.log + scope.old.left < area_size self.old.store.log }
        ensures steps { MakesStep D.Device self.old self.new scope.old scope.new result }
    {
        if scope.stage == Stage::Writing {
            return self.go_on(scope);
        }
        match self.plan_step(alloc, scope)? {
            Some(stepped) => Ok(stepped),
            None => self.go_on(scope),
        }
    }

    // Writes the next page of the plan, or ends the operation.
    fn go_on(&mut self, scope: &mut OpScope) -> Result<Stepped, Refusal>
        requires right { IsOneWithin D.Device self.old scope.old }
        requires claims { own_needs scope.old.op scope.old.split ≤ claimed self.old }
        requires writing { scope.old.stage ≡ Writing }
        requires budget { HasBudget scope.old }
        requires room { used self.old.store.log + scope.old.left < area_size self.old.store.log }
        ensures { GoesAhead D.Device self.old self.new scope.old scope.new
            result }
    {
        if scope.written < scope.changes.list.len() {
            self.write_next(scope)
        } else {
            self.finish(scope)
        }
    }

    // Plans over the pages that the operation has looked at: locks the one that is needed next, or keeps the
    // plan if there is none.
    fn plan_step(&mut self, alloc: Global, scope: &mut OpScope) -> Result<Option<Stepped>, Refusal>
        requires right { IsOneWithin D.Device self.old scope.old }
        requires claims { own_needs scope.old.op scope.old.split ≤ claimed self.old }
        requires planning { scope.old.stage ≡ Planning }
        requires budget { HasBudget scope.old }
        ensures { PlansOn D.Device self.old self.new scope.old scope.new
            result }
    {
        let mut search = scope.search;
        match plan_over(
            alloc,
            &mut scope.seen,
            scope.room,
            &scope.op,
            scope.split,
            &mut search,
        )? {
            Act::Lock(page, mode) => {
                let stepped = self.lock_next(scope, page, mode, search)?;
                Ok(Some(stepped))
            }
            Act::Made(changes, reply) => self.keep_plan(scope, changes, reply),
            // The page that it was led to does not take the record.
            Act::Full => {
                scope.room = None;
                Ok(Some(Stepped::Went))
            }
            Act::Broken => unreachable!(),
        }
    }

    // Locks the page that a plan needs. If a new page is due for a record, a page with room that nobody has locked
    // comes first.
    fn lock_next(
        &mut self,
        scope: &mut OpScope,
        page: PageNo,
        mode: Mode,
        search: Search,
    ) -> Result<Stepped, Refusal>
        requires right { IsOneOf D.Device self.old scope.old }
        requires planning { scope.old.stage ≡ Planning }
        requires unseen { IsUnseen scope.old page mode }
        requires asked { IsAsked scope.old page mode }
        requires searched { HasSearched (looked scope.old) scope.old.seen.total scope.old.op search }
        ensures { LocksPage D.Device self.old self.new scope.old scope.new
            result }
    {
        if page.get() != MAP {
            return self.lock(scope, page, mode, scope.room, search);
        }
        match self.room_for(scope) {
            Some(room) => self.lock(scope, room, Mode::Write, Some(room), search),
            None => self.lock(scope, page, mode, scope.room, search),
        }
    }

    // The first page of records that takes the operation's record and that nobody has locked: one that is locked is
    // passed by. `None` also if the operation puts no record, or was led to a page.
    fn room_for(&self, scope: &OpScope) -> Option<PageNo>
        requires few { length self.now.rooms ≤ MAX_PAGES }
        requires short { record_bytes scope.now.op < 2 ^ 16 }
        ensures { FindsRoom self.now.rooms self.now.locks scope.now result }
    {
        let bytes = bytes_put(&scope.op);
        if scope.room.is_some() || bytes == 0 {
            return None;
        }
        let mut from = 0;
        while let Some(page) = self.rooms.with_room_from(from, bytes) {
            if self.locks.is_unlocked(page) {
                return Some(page);
            }
            from = page.get() + 1;
        }
        None
    }

    // Keeps the plan, once each page that changes is locked to be written.
    fn keep_plan(
        &mut self,
        scope: &mut OpScope,
        changes: Changes,
        reply: Reply,
    ) -> Result<Option<Stepped>, Refusal>
        requires right { IsOneOf D.Device self.old scope.old }
        requires planning { scope.old.stage ≡ Planning }
        requires there { AreAtHand (looked scope.old) changes.list.items }
        requires few { length changes.list.items ≤ MAX_WRITTEN_PAGES }
        requires quiet { logged_of scope.old.op reply ≡ None → changes.list.items ≡ [] }
        requires reads { only_reads scope.old.op ≡ true → changes.list.items ≡ [] }
        requires planned { (relations counters : ℕ) → relations ≤ MAX_RELATIONS
            → IsWithin relations counters scope.old.op
            → InPages (looked scope.old) scope.old.room relations counters scope.old.seen.total
            (λ pages. IsPlanned relations counters scope.old.seen.total (looked scope.old) pages changes.list.items
            scope.old.op scope.old.split reply) }
        requires takes { (relations counters : ℕ) → relations ≤ MAX_RELATIONS → IsWithin relations counters scope.old.op
            → InPages (looked scope.old) scope.old.room relations counters scope.old.seen.total
            (λ pages. TakesPages scope.old.room scope.old.op pages (after changes.list.items pages)) }
        requires budget { HasBudget scope.old }
        ensures { KeepsPlan D.Device self.old self.new scope.old scope.new result }
    {
        if let Some(page) = first_unlocked(scope.number, &changes, scope.guards.as_slice()) {
            let stepped = self.upgrade(scope, page)?;
            return Ok(Some(stepped));
        }
        scope.changes = changes;
        scope.reply = Some(reply);
        scope.stage = Stage::Writing;
        Ok(None)
    }
}

// The first page of the changes that the operation has not locked to write.
fn first_unlocked(op: OpNo, changes: &Changes, guards: &[PageGuard]) -> Option<PageNo>
    ensures { MatchOption result
        (All (λ c. Contains guards.now (lock_of op c.page Write)) changes.now.list.items)
        (λ p. (IsUntouched changes.now.list.items p → ⊥) × (Contains guards.now (lock_of op p Write) → ⊥)) }
{
    for change in &changes.list {
        let lock = PageLock {
            op,
            page: change.page,
            mode: Mode::Write,
        };
        if !holds(guards, &lock) {
            return Some(change.page);
        }
    }
    None
}
