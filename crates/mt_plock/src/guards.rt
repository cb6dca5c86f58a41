// A page lock, and the guard: the value that an operation has for each of its page locks.
ghost use Rattle.std.specs.Prelude.{◌≡◌, ◌↔◌, IsTrue, Contains};

use mt_base::{Mode, OpNo, PageNo};
use std::marker::Model;

/// A lock of an operation on a page.
#[derive(Clone, Copy, PartialEq, Eq, Debug)]
pub struct PageLock {
    pub op: OpNo,
    pub page: PageNo,
    pub mode: Mode,
}

/// A lock that was granted, in the hands of the operation that holds it. It cannot be dropped: it is
/// spent by [`PageLocks::release`](crate::PageLocks::release) or
/// [`PageLocks::release_all`](crate::PageLocks::release_all). Contracts see its lock.
#[derive(Debug)]
pub struct PageGuard {
    op: OpNo,
    page: PageNo,
    mode: Mode,
}

impl Model for PageGuard {
    ghost use Rattle.mt_plock.specs.declared.guards.PageLock.{PageLock};

    ghost Value = { PageLock };

    ghost view = { λ g. record {
      op = g.op;
      page = g.page;
      mode = g.mode;
    } };
}

/// What an operation that asks for a page lock is answered.
#[derive(Debug)]
pub enum Asked {
    /// The lock is granted.
    Granted(PageGuard),
    /// This operation is the smallest that holds a lock in the way, and larger than the asker. It is
    /// to be waited for.
    Wait(OpNo),
    /// This operation is the smallest that holds a lock in the way, and smaller than the asker. The
    /// asker is to give back all its locks, and to begin anew with its number.
    Again(OpNo),
}

impl PageGuard {
    /// The guard of a lock that stands in the table.
    pub(crate) fn new(lock: PageLock) -> PageGuard
        ensures { result ≡ lock }
    {
        let PageLock { op, page, mode } = lock;
        PageGuard { op, page, mode }
    }

    /// The lock.
    pub fn lock(&self) -> PageLock
        ensures { result ≡ self.now }
    {
        PageLock {
            op: self.op,
            page: self.page,
            mode: self.mode,
        }
    }

    /// Spends the guard, and gives its lock.
    pub(crate) fn into_lock(self) -> PageLock
        ensures { result ≡ self }
    {
        let PageGuard { op, page, mode } = self;
        PageLock { op, page, mode }
    }
}

/// Whether one of the guards is of this lock.
pub fn holds(guards: &[PageGuard], lock: &PageLock) -> bool
    ensures { IsTrue result ↔ Contains guards.now lock.now }
{
    guards.iter().any(|guard| guard.lock() == *lock)
}
