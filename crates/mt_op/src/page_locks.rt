// How an operation gets its page locks: the page comes into a frame, is locked, and is copied for the plan.
// If it is to begin anew all its locks go. No page is written here.
ghost use Rattle.std.specs.Prelude.{◌≡◌, ◌⊎◌, ◌<◌, get_or, Ok, true, false, Some, None};
ghost use Rattle.mt_base.specs.declared.refusal.Refusal.{Refusal};
ghost use Rattle.mt_pool.specs.Views.{IsThere, pages};
ghost use Rattle.mt_base.specs.declared.modes.Mode.TheVariants.{Write};
ghost use Rattle.mt_pool.specs.Kept.{HasOpening};
ghost use Rattle.mt_steps.specs.Asks.{HasSearched};
ghost use Rattle.mt_op.specs.World.{looked};
ghost use Rattle.mt_op.specs.Operations.{IsOneOf};
ghost use Rattle.mt_op.specs.declared.scope.Stage.TheVariants.{Planning};
ghost use Rattle.mt_plock.specs.Releasing.{locks_of};
ghost use Rattle.mt_op.specs.Holds.{IsToLook, IsToWrite};
ghost use Rattle.mt_op.specs.Stepping.{AsksLock, BeginsAnew, BringsPage, LocksPage, TakesLock};

use crate::answers::Stepped;
use crate::operations::Operations;
use crate::scope::OpScope;
use mt_base::{Mode, PageNo, Refusal};
use mt_disk::Device;
use mt_index::Search;
use mt_plock::Asked;
use mt_pool::Fetched;
use std::mem::replace;

impl<D: Device> Operations<D> {
    // Brings a page into a frame; `false` if every frame holds a page that is yet to be flushed.
    pub(crate) fn bring(&mut self, page: PageNo) -> Result<bool, Refusal>
        requires kept { HasOpening D.Device self.old.store }
        requires inside { page < pages self.old.store.pool }
        ensures { BringsPage D.Device self.old self.new page result }
    {
        match self.store.fetch(page) {
            Ok(Fetched::There) => Ok(true),
            Ok(Fetched::Flush) => Ok(false),
            Err(_) => Err(Refusal::DeviceFailed),
        }
    }

    // Asks for a page lock, with room for its guard made before. If it is not to be had and a smaller
    // operation holds one in the way, all locks are given back.
    pub(crate) fn hold(
        &mut self,
        scope: &mut OpScope,
        page: PageNo,
        mode: Mode,
    ) -> Result<Stepped, Refusal>
        requires locks { locks_of scope.old.number self.old.locks ≡ scope.old.guards.items }
        ensures { AsksLock D.Device self.old self.new scope.old scope.new page mode result }
    {
        scope.guards.reserve(1)?;
        match self.locks.ask(scope.number, page, mode)? {
            Asked::Granted(guard) => {
                scope.guards.push_reserved(guard);
                Ok(Stepped::Went)
            }
            Asked::Wait(holder) => Ok(Stepped::Wait(holder)),
            Asked::Again(holder) => {
                self.begin_again(scope);
                Ok(Stepped::Again(holder))
            }
        }
    }

    // Locks a page that the operation has not looked at, and copies it. From then on the operation is led to
    // the page `room`, if that is another than before, and its search for the key has come so far.
    pub(crate) fn lock(
        &mut self,
        scope: &mut OpScope,
        page: PageNo,
        mode: Mode,
        room: Option<PageNo>,
        search: Search,
    ) -> Result<Stepped, Refusal>
        requires right { IsOneOf D.Device self.old scope.old }
        requires planning { scope.old.stage ≡ Planning }
        requires next { IsToLook self.old.rooms self.old.locks scope.old page mode }
        requires led { (room ≡ scope.old.room)
            ⊎ ((room ≡ Some page) × (mode ≡ Write) × (get_or self.old.map.kinds.value page 0 ≡ 3)) }
        requires unled { (room ≡ scope.old.room) ⊎ (scope.old.room ≡ None) }
        requires searched { HasSearched (looked scope.old) scope.old.seen.total scope.old.op search }
        ensures { LocksPage D.Device self.old self.new scope.old scope.new
            result }
    {
        if !self.bring(page)? {
            return Ok(Stepped::Flush);
        }
        self.look(scope, page, mode, room, search)
    }

    // Locks and copies a page that is in a frame.
    fn look(
        &mut self,
        scope: &mut OpScope,
        page: PageNo,
        mode: Mode,
        room: Option<PageNo>,
        search: Search,
    ) -> Result<Stepped, Refusal>
        requires right { IsOneOf D.Device self.old scope.old }
        requires planning { scope.old.stage ≡ Planning }
        requires next { IsToLook self.old.rooms self.old.locks scope.old page mode }
        requires led { (room ≡ scope.old.room)
            ⊎ ((room ≡ Some page) × (mode ≡ Write) × (get_or self.old.map.kinds.value page 0 ≡ 3)) }
        requires unled { (room ≡ scope.old.room) ⊎ (scope.old.room ≡ None) }
        requires searched { HasSearched (looked scope.old) scope.old.seen.total scope.old.op search }
        requires there { IsThere self.old.store.pool page }
        ensures { TakesLock D.Device self.old self.new scope.old scope.new result }
    {
        scope.seen.reserve(&mut self.spare)?;
        match self.hold(scope, page, mode)? {
            Stepped::Went => {
                scope.seen.put(page, self.store.pool.view(page));
                scope.room = room;
                scope.search = search;
                Ok(Stepped::Went)
            }
            other => Ok(other),
        }
    }

    // Locks a page that the operation has looked at, to write it.
    pub(crate) fn upgrade(&mut self, scope: &mut OpScope, page: PageNo) -> Result<Stepped, Refusal>
        requires right { IsOneOf D.Device self.old scope.old }
        requires planning { scope.old.stage ≡ Planning }
        requires next { IsToWrite scope.old page Write }
        ensures { TakesLock D.Device self.old self.new scope.old scope.new result }
    {
        self.hold(scope, page, Mode::Write)
    }

    // Gives all locks of an operation back, and forgets what it looked at.
    fn begin_again(&mut self, scope: &mut OpScope)
        requires locks { locks_of scope.old.number self.old.locks ≡ scope.old.guards.items }
        ensures { BeginsAnew D.Device self.old self.new scope.old scope.new }
    {
        let none = Vec::new(*scope.guards.allocator());
        let guards = replace(&mut scope.guards, none);
        self.locks.release_all(guards);
        scope.seen.clear();
        scope.search = Search::Start;
        scope.room = None;
    }
}
